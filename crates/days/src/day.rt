// Calls made on a sensor one after the other, each with its reply and with every channel after it.
ghost use Rattle.bench_sensor.specs.Told.{call_of, read_from, sensor_of, told};
ghost use Rattle.days.specs.Entries.{channel_of, entry_told};
ghost use Rattle.days.specs.Runs.{AfterAny, Reaches};
ghost use Rattle.laws.specs.Settings.{LastWrittenStands};
ghost use Rattle.laws.specs.Stores.{StoresWithinCaptured};
ghost use Rattle.laws.specs.Strikes.{ForeignCallsLeaveNoTrace};
ghost use Rattle.laws.specs.Taught.{TaughtFromCaptured};
ghost use Rattle.laws.specs.Turns.{TurnsApart};
ghost use Rattle.sensor.specs.Rules.{after, channels_of, entries, entry_of, next};
ghost use Rattle.std.specs.Prelude.{◌≡◌, map, replicate, take, vec_items, ◌∷◌, [], IfOk, OnErr, OnOk};

use super::entry::{Channel, Entry};
use bench_sensor::{BenchSensor, Line, Reply};
use kinds::Kind;
use std::alloc::{AllocError, Global};

// The channels of a sensor, each with its signal.
fn channels<K: Kind>(heap: Global, bench: &BenchSensor<K>) -> Result<Vec<Channel<K>>, AllocError>
    ensures { IfOk result (λ all. vec_items all ≡ map channel_of (channels_of (sensor_of bench.now))) }
{
    bench
        .channels()
        .iter()
        .map(|row| Channel {
            row: *row,
            signal: row.signal(),
        })
        .collect(heap)
}

// The buffer of a call.
fn buffer(heap: Global, room: u16) -> Result<Vec<u8>, AllocError>
    ensures { IfOk result (λ out. vec_items out ≡ replicate room 0) }
{
    Ok(vec![in heap; 0u8; usize::from(room)]?)
}

// The room that a log keeps of a buffer, in octets: the usual buffer's, so that its octets need not be moved.
const KEPT_ROOM: usize = 16;

// The octets at the front of a buffer. The room behind them is given back, so that a log takes the memory of what was
// written, and not that of the buffers that the calls were lent.
fn front(mut out: Vec<u8>, n: usize) -> Vec<u8>
    ensures { vec_items result ≡ take n (vec_items out) }
{
    out.truncate(n);
    out.shrink_to(KEPT_ROOM);
    out
}

// A reply with the octets that stand in the buffer.
fn keep_octets(reply: Reply<usize>, out: Vec<u8>) -> Reply<Vec<u8>>
    ensures { told result ≡ read_from (vec_items out) reply }
{
    match reply {
        Reply::Accepted(n) => Reply::Accepted(front(out, n)),
        Reply::Ticket(serial) => Reply::Ticket(serial),
        Reply::Denied(fault, n) => Reply::Denied(fault, front(out, n)),
    }
}

// Makes a call, and enters its reply with every channel after it.
fn enter<K: Kind>(
    heap: Global,
    bench: &mut BenchSensor<K>,
    line: &Line,
) -> Result<Entry<K>, AllocError>
    ensures entry { IfOk result
        (λ entry. entry_told entry ≡ entry_of K.meaning (sensor_of bench.old) (call_of line.now)) }
    ensures sensor { OnOk result (sensor_of bench.new ≡ next K.meaning (sensor_of bench.old) (call_of line.now)) }
    ensures part { OnErr result
        (Reaches K.meaning (sensor_of bench.old) (call_of line.now ∷ []) (sensor_of bench.new)) }
{
    let mut out = buffer(heap, line.room)?;
    let reply = bench.make(line.lend(), out.as_mut_slice());
    let channels = channels(heap, bench)?;
    Ok(Entry {
        reply: keep_octets(reply, out),
        channels,
    })
}

// Makes calls one after the other, and enters each.
fn enter_all<K: Kind>(
    heap: Global,
    bench: &mut BenchSensor<K>,
    lines: &[Line],
) -> Result<Vec<Entry<K>>, AllocError>
    ensures log { IfOk result
        (λ log. map entry_told (vec_items log)
        ≡ entries K.meaning (sensor_of bench.old) (map call_of lines.now)) }
    ensures sensor { OnOk result (sensor_of bench.new ≡ after K.meaning (sensor_of bench.old) (map call_of lines.now)) }
    ensures part { OnErr result
        (Reaches K.meaning (sensor_of bench.old) (map call_of lines.now) (sensor_of bench.new)) }
{
    let mut log = Vec::with_capacity(heap, lines.len())?;
    for line in lines {
        let entry = enter(heap, bench, line)?;
        log.push(entry)?;
    }
    Ok(log)
}

/// Makes calls on a sensor one after the other, set-ups among them, and tells each reply with every channel after it.
/// Each call is lent a buffer of its own, of octets 0. The sensor stays on the bench, with the ticket of an operation
/// that is open at the end: calls that are made on it later go on from there, as if they stood in the same list.
/// An error is want of memory for what is told: some of the first calls are made, and the calls after them are not.
///
/// The first two clauses equate what is told and the sensor afterwards with the rules; `part` says what the sensor is
/// on an error. The others are the laws of every list of calls that a sensor takes since it was blank, whatever calls
/// came before these: they speak of the rules alone, so they hold whether there is memory for a log or not.
pub fn run<K: Kind>(
    heap: Global,
    bench: &mut BenchSensor<K>,
    lines: &[Line],
) -> Result<Vec<Entry<K>>, AllocError>
    ensures answers_by_the_tables { IfOk result
        (λ log. map entry_told (vec_items log)
        ≡ entries K.meaning (sensor_of bench.old) (map call_of lines.now)) }
    ensures sensor { OnOk result (sensor_of bench.new ≡ after K.meaning (sensor_of bench.old) (map call_of lines.now)) }
    ensures part { OnErr result
        (Reaches K.meaning (sensor_of bench.old) (map call_of lines.now) (sensor_of bench.new)) }
    ensures foreign_calls_leave_no_trace { AfterAny (ForeignCallsLeaveNoTrace K.meaning) (map call_of lines.now) }
    ensures stores_within_captured { AfterAny (StoresWithinCaptured K.meaning) (map call_of lines.now) }
    ensures taught_from_captured { AfterAny (TaughtFromCaptured K.meaning) (map call_of lines.now) }
    ensures turns_apart { AfterAny (TurnsApart K.meaning) (map call_of lines.now) }
    ensures last_written_stands { AfterAny (LastWrittenStands K.meaning) (map call_of lines.now) }
{
    enter_all(heap, bench, lines)
}
