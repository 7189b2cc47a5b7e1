// The lines of the vectors: what a frame must decode to, a sensor's set-up, or requests and what they are answered
// with.
ghost use Rattle.std.specs.Prelude.{◌≡◌, ◌++◌, IfOk};

use crate::answers::Answer;
use channels::Range;
use isdu::Direction;
use sensor::Setup;
use std::alloc::{AllocError, Global};
use std::str::FromStr;
use teach::Terms;
use thiserror::Error;
use words::{KindName, Unread, octets};

/// A line of the vectors.
#[derive(Drop)]
pub(crate) enum Line {
    /// A frame for `isdu`, as `933BA9 = denied 9`.
    Frame(Vector),
    /// A new sensor: its kind and its set-up.
    Sensor(KindName, Setup<Vec<u8>>),
    /// Requests to the sensor.
    Requests(Requests),
}

/// A frame, and what its octets must decode to.
#[derive(Drop)]
pub(crate) struct Vector {
    /// The octets of the frame.
    pub(crate) octets: Vec<u8>,
    /// What they must decode to.
    pub(crate) outcome: Outcome,
}

/// What a frame must decode to.
#[derive(Drop)]
pub(crate) enum Outcome {
    /// A denial, by its number.
    // A number and no `Denial`: a line may name one that no denial has, and is then told as a mismatch.
    Denied(u8),
    /// A request.
    Asks(Expected),
}

/// A request, and the octets that it composes as.
#[derive(Drop)]
pub(crate) struct Expected {
    /// Whether it reads or writes.
    pub(crate) direction: Direction,
    /// The object.
    pub(crate) index: u16,
    /// The part of the object; 0 is the whole.
    pub(crate) subindex: u8,
    /// The octets to write; none of a read.
    pub(crate) data: Vec<u8>,
    /// The octets of its shortest frame.
    pub(crate) shortest: Vec<u8>,
}

/// Frames for a sensor, each of which has the same answer.
#[derive(Drop)]
pub(crate) struct Requests {
    pub(crate) frames: Vec<Vec<u8>>,
    pub(crate) answer: Answer,
}

/// Why a line cannot be read.
#[derive(Debug, Drop, Error)]
#[error("cannot be read")]
pub(crate) enum Unreadable {
    /// There was no memory for the frames of a line.
    Memory(#[from(alloc)] AllocError),
    /// A word that is no kind or no octets, or there was no memory for its octets.
    Word(#[from] Unread),
    /// A word that is no number of its type.
    Number,
    /// Parts are missing, or stand in another order.
    Layout,
}

// The text before and after the first place of another.
fn halves<'a>(text: &'a str, between: &str) -> Result<(&'a str, &'a str), Unreadable>
    ensures { IfOk result (λ both. text.now ≡ both.0.now ++ (between.now ++ both.1.now)) }
{
    text.split_once(between).ok_or(Unreadable::Layout)
}

// Each program has its own: a line that cannot be read is told by another enum.
fn number<N: FromStr>(text: &str) -> Result<N, Unreadable>
where
    N::Err: Drop,
{
    text.parse::<N>().map_err(|_| Unreadable::Number)
}

// What a request to this address must come to; index and subindex stand in decimal, with a point between them.
fn asks(
    direction: Direction,
    address: &str,
    data: Vec<u8>,
    shortest: Vec<u8>,
) -> Result<Outcome, Unreadable> {
    let (index, subindex) = halves(address, ".")?;
    Ok(Outcome::Asks(Expected {
        direction,
        index: number(index)?,
        subindex: number(subindex)?,
        data,
        shortest,
    }))
}

// After a bar stand the octets of the shortest frame, where those before the `=` are not.
fn read_outcome(heap: Global, text: &str, frame: &str) -> Result<Outcome, Unreadable> {
    let (request, shortest) = text.split_once(" | ").unwrap_or((text, frame));
    let (kind, rest) = halves(request, " ")?;
    match kind {
        "denied" => Ok(Outcome::Denied(number(rest)?)),
        "read" => asks(
            Direction::Read,
            rest,
            Vec::new(heap),
            octets(heap, shortest)?,
        ),
        "write" => {
            let (address, data) = halves(rest, " ")?;
            asks(
                Direction::Write,
                address,
                octets(heap, data)?,
                octets(heap, shortest)?,
            )
        }
        _ => Err(Unreadable::Layout),
    }
}

fn read_vector(heap: Global, line: &str) -> Result<Vector, Unreadable> {
    let (frame, right) = halves(line, " = ")?;
    Ok(Vector {
        octets: octets(heap, frame)?,
        outcome: read_outcome(heap, right, frame)?,
    })
}

// The response, or `denied`, a number and the response, if there is one.
fn read_answer(heap: Global, text: &str) -> Result<Answer, Unreadable> {
    let Some(denied) = text.strip_prefix("denied ") else {
        return Ok(Answer {
            denied: None,
            response: octets(heap, text)?,
        });
    };
    let (denial, response) = denied.split_once(" ").unwrap_or((denied, "-"));
    Ok(Answer {
        denied: Some(number(denial)?),
        response: octets(heap, response)?,
    })
}

fn read_requests(heap: Global, frames: &str, answer: &str) -> Result<Requests, Unreadable> {
    Ok(Requests {
        frames: frames
            .split(' ')
            .map(|frame| octets(heap, frame))
            .try_collect(heap)?,
        answer: read_answer(heap, answer)?,
    })
}

// The value of the first field, which has to have this key, and the fields after it.
fn field<'a>(fields: &'a str, key: &str) -> Result<(&'a str, &'a str), Unreadable> {
    let (first, rest) = fields.split_once(" ").unwrap_or((fields, ""));
    let (found, value) = halves(first, "=")?;
    if found == key {
        Ok((value, rest))
    } else {
        Err(Unreadable::Layout)
    }
}

// The fields stand in this order.
fn read_setup(heap: Global, fields: &str) -> Result<Setup<Vec<u8>>, Unreadable> {
    let (serial, fields) = field(fields, "serial")?;
    let (channels, fields) = field(fields, "channels")?;
    let (low, fields) = field(fields, "low")?;
    let (high, fields) = field(fields, "high")?;
    let (scale, fields) = field(fields, "scale")?;
    let (capture, fields) = field(fields, "capture")?;
    let (spread, fields) = field(fields, "spread")?;
    let (distance, fields) = field(fields, "distance")?;
    if !fields.is_empty() {
        return Err(Unreadable::Layout);
    }
    Ok(Setup {
        serial: number(serial)?,
        channels: number(channels)?,
        scale: number(scale)?,
        terms: Terms {
            capture: number(capture)?,
            spread: number(spread)?,
            distance: number(distance)?,
        },
        range: Range {
            low: octets(heap, low)?,
            high: octets(heap, high)?,
        },
    })
}

/// What a line says; it is given without its end.
pub(crate) fn read_line(heap: Global, line: &str) -> Result<Line, Unreadable> {
    if let Some(setup) = line.strip_prefix("sensor ") {
        let (kind, fields) = halves(setup, " ")?;
        return Ok(Line::Sensor(kind.parse()?, read_setup(heap, fields)?));
    }
    match line.split_once(" > ") {
        Some((frames, answer)) => Ok(Line::Requests(read_requests(heap, frames, answer)?)),
        None => Ok(Line::Frame(read_vector(heap, line)?)),
    }
}
