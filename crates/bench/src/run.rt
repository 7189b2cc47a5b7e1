//! Takes a sensor through the calls of a section and prints each answer.
use super::printed::{Answer, Fields};
use super::session::Show;
use super::timeline::Timeline;
use bench_sensor::{BenchSensor, Call, Line, Reply};
use days::{Channel, Entry};
use kinds::Kind;
use std::{fmt, io};

/// How many calls were accepted and denied.
#[derive(Clone, Copy, Default)]
pub(crate) struct Tally {
    accepted: u64,
    denied: u64,
}

impl Tally {
    fn count(&mut self, reply: &Reply<Vec<u8>>) {
        let calls = match reply {
            Reply::Denied(..) => &mut self.denied,
            _ => &mut self.accepted,
        };
        *calls = calls.saturating_add(1);
    }
}

impl fmt::Display for Tally {
    fn fmt<W: fmt::Write>(&self, f: &mut fmt::Formatter<W>) -> fmt::Result {
        let accepted = self.accepted;
        let denied = self.denied;
        let calls = accepted.saturating_add(denied);
        write!(f, "{calls} calls: {accepted} accepted, {denied} denied")
    }
}

// How many calls go into one call of `days::run`. A log has an entry of every channel for each call, so it is kept
// short; and the memory of a short one is soon taken again.
const MOST_AT_ONCE: usize = 8;

// Whether a call is a set-up that was accepted.
fn begins_day(call: &Call<Vec<u8>>, reply: &Reply<Vec<u8>>) -> bool {
    matches!((call, reply), (Call::SetUp(_), Reply::Accepted(_)))
}

/// What takes sensors through sections, prints each answer and counts it.
#[derive(Drop)]
pub(crate) struct Bench<'a> {
    pub(crate) rt: &'a HostRuntime,
    /// Whether to print what changed in the channels, and the timelines.
    pub(crate) changes: bool,
    /// The calls of all sections so far.
    pub(crate) tally: Tally,
}

impl Bench<'_> {
    fn show<K: Kind>(&self, channels: &[Channel<K>]) -> io::Result<()> {
        for (number, now) in (1usize..).zip(channels) {
            let fields = Fields { before: None, now };
            println!(self.rt; "channel {number} {fields}")?;
        }
        Ok(())
    }

    // What a call changed in the channels.
    fn changed<K: Kind>(&self, before: &[Channel<K>], now: &[Channel<K>]) -> io::Result<()> {
        for (k, channel) in now.iter().enumerate() {
            let fields = Fields {
                before: before.get(k),
                now: channel,
            };
            if !fields.is_empty() {
                println!(self.rt; "  channel {}: {fields}", k.saturating_add(1))?;
            }
        }
        for k in now.len()..before.len() {
            println!(self.rt; "  channel {}: gone", k.saturating_add(1))?;
        }
        Ok(())
    }

    // The signals over the samples of a day.
    fn end_day(&self, timeline: &Timeline) -> io::Result<()> {
        match timeline.samples() {
            0 => return Ok(()),
            1 => println!(self.rt; "timeline of 1 sample")?,
            n => println!(self.rt; "timeline of {n} samples")?,
        }
        for k in 0..timeline.channels() {
            println!(self.rt; "  channel {} {}", k.saturating_add(1), timeline.signals(k))?;
        }
        Ok(())
    }

    // A call with its entry, and what it changed.
    fn tell<K: Kind>(
        &mut self,
        call: &Call<Vec<u8>>,
        entry: &Entry<K>,
        before: &[Channel<K>],
        timeline: &mut Timeline,
    ) -> io::Result<()> {
        self.tally.count(&entry.reply);
        if self.changes && begins_day(call, &entry.reply) {
            self.end_day(timeline)?;
            timeline.clear();
        }
        let answer = Answer {
            call,
            reply: &entry.reply,
        };
        println!(self.rt; "{answer}")?;
        if self.changes {
            self.changed(before, entry.channels.as_slice())?;
            timeline.take(call, &entry.reply, entry.channels.as_slice())?;
        }
        Ok(())
    }

    // Makes calls in pieces, each by one call of `days::run`, and tells each piece before the next is made. Then the
    // channels are those after the last call.
    fn run_calls<K: Kind>(
        &mut self,
        sensor: &mut BenchSensor<K>,
        calls: &[Line],
        channels: &mut Vec<Channel<K>>,
        timeline: &mut Timeline,
    ) -> io::Result<()> {
        for piece in calls.chunks(MOST_AT_ONCE) {
            let log = days::run(self.rt.alloc(), sensor, piece)?;
            for (line, entry) in piece.iter().zip(log) {
                self.tell(&line.call, &entry, channels.as_slice(), timeline)?;
                *channels = entry.channels;
            }
        }
        Ok(())
    }

    fn run_section<K: Kind>(
        &mut self,
        sensor: &mut BenchSensor<K>,
        calls: &[Line],
        shows: &[Show],
    ) -> io::Result<()> {
        let mut channels = Vec::new(self.rt.alloc());
        let mut timeline = Timeline::new(self.rt.alloc());
        let mut left = calls;
        let mut made = 0usize;
        for show in shows {
            let (calls, rest) = left
                .split_at_checked(show.calls.saturating_sub(made))
                .unwrap_or((left, &[]));
            self.run_calls(sensor, calls, &mut channels, &mut timeline)?;
            self.show(channels.as_slice())?;
            left = rest;
            made = show.calls;
        }
        self.run_calls(sensor, left, &mut channels, &mut timeline)?;
        if self.changes {
            self.end_day(&timeline)?;
        }
        Ok(())
    }

    /// Takes a sensor through the calls of a section with its shows, and ends it. An error is want of memory, or that
    /// the output cannot be written. Where memory for a piece of its calls is wanting, neither that piece nor what
    /// comes after it is printed.
    pub(crate) fn run<K: Kind>(
        &mut self,
        mut sensor: BenchSensor<K>,
        calls: &[Line],
        shows: &[Show],
    ) -> io::Result<()> {
        let told = self.run_section(&mut sensor, calls, shows);
        let _sensor = sensor.end();
        told
    }
}
