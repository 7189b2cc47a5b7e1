// What a sensor answers to a request.
ghost use Rattle.octets.specs.Buffers.{over};
ghost use Rattle.sensor.specs.Answers.{counted};
ghost use Rattle.sensor.specs.Calls.{request};
ghost use Rattle.sensor.specs.Rules.{checked, next, written};
ghost use Rattle.std.specs.Prelude.{◌≡◌, OnOk};
ghost use Rattle.vectors.specs.Answers.{Leaves, Replies, untouched};

use crate::replays::Mismatch;
use faults::{Denial, Fault};
use kinds::Kind;
use octets::put;
use sensor::Sensor;

/// What a line says that a request is answered with.
#[derive(Drop)]
pub(crate) struct Answer {
    /// The number of the denial.
    // A number and no `Denial`, as in `Outcome`.
    pub(crate) denied: Option<u8>,
    /// The octets that are written: none where a denial has no response.
    pub(crate) response: Vec<u8>,
}

// The whole buffer is compared: what lies past the response has to stay.
fn compare_buffer(buffer: &[u8; 16], answer: &Answer) -> Result<(), Mismatch>
    ensures { OnOk result (Leaves buffer.now answer.now) }
{
    let mut expected = [0xAAu8; 16];
    match put(answer.response.as_slice(), &mut expected) {
        Some(_) if *buffer == expected => Ok(()),
        _ => Err(Mismatch::OtherResponse),
    }
}

fn compare_reply(reply: Result<usize, Fault>, answer: &Answer) -> Result<Option<Denial>, Mismatch>
    ensures { OnOk result (Replies reply answer.now) }
{
    match (reply, answer.denied) {
        (Ok(n), None) if n == answer.response.len() => Ok(None),
        (Ok(_), None) => Err(Mismatch::OtherResponse),
        (Ok(_), Some(_)) => Err(Mismatch::Accepted),
        (Err(fault), Some(number)) if fault.denial.number() == number => Ok(Some(fault.denial)),
        (Err(fault), _) => Err(Mismatch::Denied(fault.denial)),
    }
}

/// Hands a frame to a sensor, with a response buffer of 16 octets 0xAA, and tells the denial, if it is denied. It finds
/// no mismatch only where the rules agree with the line.
pub(crate) fn ask<K: Kind>(
    sensor: &mut Sensor<K>,
    frame: &[u8],
    answer: &Answer,
) -> Result<Option<Denial>, Mismatch>
    ensures reply { let c = request frame.now 16 in
        OnOk result
        (Replies (counted (written K.meaning sensor.old c) (checked K.meaning sensor.old c)) answer.now) }
    ensures response { OnOk result
        (Leaves (over (written K.meaning sensor.old (request frame.now 16)) untouched) answer.now) }
    ensures sensor { sensor.new ≡ next K.meaning sensor.old (request frame.now 16) }
{
    let mut buffer = [0xAAu8; 16];
    let reply = sensor.request(frame, &mut buffer);
    let denied = compare_reply(reply, answer)?;
    compare_buffer(&buffer, answer)?;
    Ok(denied)
}
