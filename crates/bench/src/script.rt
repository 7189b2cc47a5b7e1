//! A line of a session script: one call a line.
ghost use Rattle.std.specs.Prelude.{◌≡◌, IfOk, Some};
ghost use Rattle.words.specs.Words.{octets_told};

use bench_sensor::{Call, Line as CallLine};
use channels::{Range, Reading};
use sensor::Setup;
use std::alloc::{AllocError, Global};
use std::str::{self, FromStr};
use teach::Terms;
use thiserror::Error;
use words::{KindName, Unread};

/// What a line asks for.
#[derive(Drop)]
pub(crate) enum Line {
    /// Nothing: the line is empty, or has a comment only.
    Blank,
    /// A new blank sensor of this kind.
    Sensor(KindName),
    /// A call, with the length of its buffer.
    Call(CallLine),
    /// The channels are printed.
    Show,
}

/// Why a line cannot be read.
#[derive(Clone, Copy, Debug, Error)]
pub(crate) enum Problem {
    /// What was expected in place of what stands there.
    #[error("expected {0}")]
    Expected(&'static str),
    /// There was no memory for what the line says.
    #[error("out of memory")]
    Memory(#[from(alloc)] AllocError),
}

// The buffer of a call where the script names none.
const USUAL_BUFFER: u16 = 16;

const SENSOR_FORM: &str = "sensor int16, int32 or float32";

const OCTETS_FORM: &str = "octets of two hexadecimal digits, or -";

const SETUP_FORM: &str = "setup serial= channels= low= high= scale= capture= spread= distance=";

// The forms of the fields of a set-up, where one cannot be read or is missing.
const SETUP_SERIAL_FORM: &str = "serial=N, N from 0 to 4294967295";

const SETUP_CHANNELS_FORM: &str = "channels=N, N from 0 to 255";

const SETUP_LOW_FORM: &str = "low=OCTETS, octets of two hexadecimal digits, or -";

const SETUP_HIGH_FORM: &str = "high=OCTETS, octets of two hexadecimal digits, or -";

const SETUP_SCALE_FORM: &str = "scale=N, N from -128 to 127";

const SETUP_CAPTURE_FORM: &str = "capture=N, N from 0 to 255";

const SETUP_SPREAD_FORM: &str = "spread=N, N from 0 to 65535";

const SETUP_DISTANCE_FORM: &str = "distance=N, N from 0 to 65535";

const SAMPLE_FORM: &str = "sample OCTETS, below, above or nodata, then nothing or: into LENGTH";

const REQUEST_FORM: &str = "request OCTETS, or -, then nothing or: into LENGTH";

const WRITE_FORM: &str = "write SERIAL CHANNEL SETPOINT OCTETS";

const CLOSE_FORM: &str = "close SERIAL";

const SERIAL_FORM: &str = "a serial number from 0 to 4294967295";

const NUMBER_FORM: &str = "a channel and a setpoint from 0 to 255";

const LENGTH_FORM: &str = "a buffer length from 0 to 65535";

fn octets(heap: Global, word: &str, expected: &'static str) -> Result<Vec<u8>, Problem>
    ensures { IfOk result (λ v. octets_told word.now ≡ Some v.items) }
{
    words::octets(heap, word).map_err(|unread| match unread {
        Unread::Unknown => Problem::Expected(expected),
        Unread::Memory => Problem::Memory(AllocError),
    })
}

fn kind(word: &str) -> Result<KindName, Problem> {
    word.parse::<KindName>()
        .map_err(|_| Problem::Expected(SENSOR_FORM))
}

// Decimal digits, and a `-` before them where the type has numbers below 0; `parse` would take a `+` too.
// Each program has its own: a line that cannot be read is told by another enum.
fn number<N: FromStr>(text: &str, expected: &'static str) -> Result<N, Problem>
where
    N::Err: Drop,
{
    if text.starts_with('+') {
        return Err(Problem::Expected(expected));
    }
    text.parse::<N>().map_err(|_| Problem::Expected(expected))
}

// What a set-up line has given so far.
#[derive(Default, Drop)]
struct SetupFields {
    serial: Option<u32>,
    channels: Option<u8>,
    low: Option<Vec<u8>>,
    high: Option<Vec<u8>>,
    scale: Option<i8>,
    capture: Option<u8>,
    spread: Option<u16>,
    distance: Option<u16>,
}

impl SetupFields {
    // Takes one field; a field that comes again replaces the earlier one.
    fn give(&mut self, heap: Global, key: &str, value: &str) -> Result<(), Problem> {
        match key {
            "serial" => self.serial = Some(number(value, SETUP_SERIAL_FORM)?),
            "channels" => self.channels = Some(number(value, SETUP_CHANNELS_FORM)?),
            "low" => self.low = Some(octets(heap, value, SETUP_LOW_FORM)?),
            "high" => self.high = Some(octets(heap, value, SETUP_HIGH_FORM)?),
            "scale" => self.scale = Some(number(value, SETUP_SCALE_FORM)?),
            "capture" => self.capture = Some(number(value, SETUP_CAPTURE_FORM)?),
            "spread" => self.spread = Some(number(value, SETUP_SPREAD_FORM)?),
            "distance" => self.distance = Some(number(value, SETUP_DISTANCE_FORM)?),
            _ => return Err(Problem::Expected(SETUP_FORM)),
        }
        Ok(())
    }

    // The set-up, once every field is given; else the form of the first that is missing.
    fn complete(self) -> Result<Setup<Vec<u8>>, Problem> {
        Ok(Setup {
            serial: self.serial.ok_or(Problem::Expected(SETUP_SERIAL_FORM))?,
            channels: self.channels.ok_or(Problem::Expected(SETUP_CHANNELS_FORM))?,
            range: Range {
                low: self.low.ok_or(Problem::Expected(SETUP_LOW_FORM))?,
                high: self.high.ok_or(Problem::Expected(SETUP_HIGH_FORM))?,
            },
            scale: self.scale.ok_or(Problem::Expected(SETUP_SCALE_FORM))?,
            terms: Terms {
                capture: self.capture.ok_or(Problem::Expected(SETUP_CAPTURE_FORM))?,
                spread: self.spread.ok_or(Problem::Expected(SETUP_SPREAD_FORM))?,
                distance: self.distance.ok_or(Problem::Expected(SETUP_DISTANCE_FORM))?,
            },
        })
    }
}

fn setup(heap: Global, rest: &str) -> Result<Setup<Vec<u8>>, Problem> {
    if rest.is_empty() {
        return Err(Problem::Expected(SETUP_FORM));
    }
    let mut fields = SetupFields::default();
    for word in rest.split_whitespace() {
        let (key, value) = word.split_once('=').unwrap_or((word, ""));
        fields.give(heap, key, value)?;
    }
    fields.complete()
}

fn reading(heap: Global, text: &str) -> Result<Reading<Vec<u8>>, Problem> {
    match text {
        "below" => Ok(Reading::Below),
        "above" => Ok(Reading::Above),
        "nodata" => Ok(Reading::NoData),
        _ => Ok(Reading::Value(octets(heap, text, OCTETS_FORM)?)),
    }
}

// What stands before `into LENGTH`, and the length; the usual one where none is given. No octet has the letters of
// `into`.
fn into_buffer<'a>(rest: &'a str, expected: &'static str) -> Result<(&'a str, u16), Problem> {
    let Some((before, after)) = rest.split_once("into") else {
        return Ok((rest, USUAL_BUFFER));
    };
    if before.trim_end() == before || (after.trim_start() == after && !after.is_empty()) {
        return Err(Problem::Expected(expected));
    }
    Ok((before.trim(), number(after.trim(), LENGTH_FORM)?))
}

fn sample(heap: Global, rest: &str) -> Result<CallLine, Problem> {
    let (text, length) = into_buffer(rest, SAMPLE_FORM)?;
    let mut words = text.split_whitespace();
    let (Some(word), None) = (words.next(), words.next()) else {
        return Err(Problem::Expected(SAMPLE_FORM));
    };
    Ok(CallLine {
        call: Call::Sample(reading(heap, word)?),
        room: length,
    })
}

// Octets with free spaces between them; `-` alone stands for none.
fn frame(heap: Global, text: &str) -> Result<Vec<u8>, Problem> {
    if text == "-" {
        return Ok(Vec::new(heap));
    }
    let mut frame = Vec::new(heap);
    for word in text.split_whitespace() {
        if word == "-" {
            return Err(Problem::Expected(REQUEST_FORM));
        }
        frame.extend_from_slice(octets(heap, word, OCTETS_FORM)?.as_slice())?;
    }
    Ok(frame)
}

// A frame, and the response buffer.
fn request(heap: Global, rest: &str) -> Result<CallLine, Problem> {
    let (text, length) = into_buffer(rest, REQUEST_FORM)?;
    if text.is_empty() {
        return Err(Problem::Expected(REQUEST_FORM));
    }
    Ok(CallLine {
        call: Call::Request(frame(heap, text)?),
        room: length,
    })
}

// The line up to a comment.
fn uncommented(text: &str) -> &str {
    text.split_once('#').map_or(text, |(before, _)| before)
}

// A ticket's serial number, a channel, a setpoint and octets.
fn write(heap: Global, rest: &str) -> Result<Call<Vec<u8>>, Problem> {
    let mut words = rest.split_whitespace();
    let (Some(serial), Some(channel), Some(setpoint), Some(value), None) = (
        words.next(),
        words.next(),
        words.next(),
        words.next(),
        words.next(),
    ) else {
        return Err(Problem::Expected(WRITE_FORM));
    };
    Ok(Call::WriteKeypad(
        number(serial, SERIAL_FORM)?,
        number(channel, NUMBER_FORM)?,
        number(setpoint, NUMBER_FORM)?,
        octets(heap, value, OCTETS_FORM)?,
    ))
}

fn close(rest: &str) -> Result<Call<Vec<u8>>, Problem> {
    let mut words = rest.split_whitespace();
    let (Some(serial), None) = (words.next(), words.next()) else {
        return Err(Problem::Expected(CLOSE_FORM));
    };
    Ok(Call::CloseKeypad(number(serial, SERIAL_FORM)?))
}

// A call that is lent no buffer.
fn unlent(call: Call<Vec<u8>>) -> Line {
    Line::Call(CallLine { call, room: 0 })
}

// A word that stands alone.
fn alone(line: Line, rest: &str, expected: &'static str) -> Result<Line, Problem> {
    if rest.is_empty() {
        Ok(line)
    } else {
        Err(Problem::Expected(expected))
    }
}

fn by_word(heap: Global, word: &str, rest: &str) -> Result<Line, Problem> {
    match word {
        "sensor" => Ok(Line::Sensor(kind(rest)?)),
        "setup" => Ok(unlent(Call::SetUp(setup(heap, rest)?))),
        "sample" => Ok(Line::Call(sample(heap, rest)?)),
        "request" => Ok(Line::Call(request(heap, rest)?)),
        "open" => alone(unlent(Call::OpenKeypad), rest, "open alone"),
        "write" => Ok(unlent(write(heap, rest)?)),
        "close" => Ok(unlent(close(rest)?)),
        "restart" => alone(unlent(Call::Restart), rest, "restart alone"),
        "show" => alone(Line::Show, rest, "show alone"),
        _ => Err(Problem::Expected(
            "sensor, setup, sample, request, open, write, close, restart or show",
        )),
    }
}

/// What a line of a script asks for; the line is given without its end.
pub(crate) fn read_line(heap: Global, text: &str) -> Result<Line, Problem> {
    let text = uncommented(text).trim();
    if text.is_empty() {
        return Ok(Line::Blank);
    }
    let (word, rest) = text.split_once(char::is_whitespace).unwrap_or((text, ""));
    by_word(heap, word, rest.trim())
}
