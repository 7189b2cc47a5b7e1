//! A whole script: a section for each sensor, with the calls that it is taken through.
use super::script::{Line, Problem, read_line};
use bench_sensor::Line as CallLine;
use std::alloc::Global;
use thiserror::Error;
use words::KindName;

/// What stands from one `sensor` line to the next.
#[derive(Drop)]
pub(crate) struct Section {
    pub(crate) kind: KindName,
    pub(crate) calls: Vec<CallLine>,
}

/// Where a `show` stands.
#[derive(Clone, Copy)]
pub(crate) struct Show {
    /// Its section, counted from 1.
    pub(crate) section: usize,
    /// How many calls of the section stand before it.
    pub(crate) calls: usize,
}

/// The line that could not be read, counted from 1, and why.
#[derive(Clone, Copy, Debug, Error)]
#[error("line {line}: {problem}")]
pub(crate) struct Trouble {
    line: usize,
    problem: Problem,
}

/// What was read of a script.
#[derive(Drop)]
pub(crate) struct Session {
    pub(crate) sections: Vec<Section>,
    /// In the order of the script.
    pub(crate) shows: Vec<Show>,
}

const BYTE_ORDER_MARK: [u8; 3] = [0xEF, 0xBB, 0xBF];

// The text up to the first octet that is no UTF-8, and the line in which that octet stands, if there is one. The whole
// is made text at once, and not line by line, as that takes less time.
fn text_of(octets: &[u8]) -> (&str, Option<usize>) {
    let error = match str::from_utf8(octets) {
        Ok(text) => return (text, None),
        Err(error) => error,
    };
    let front = octets.get(..error.valid_up_to()).unwrap_or(&[]);
    let ends = front.iter().filter(|octet| **octet == b'\n').count();
    (
        str::from_utf8(front).unwrap_or(""),
        Some(ends.saturating_add(1)),
    )
}

impl Session {
    /// A session of which nothing was read yet.
    pub(crate) fn new(heap: Global) -> Session {
        Session {
            sections: Vec::new(heap),
            shows: Vec::new(heap),
        }
    }

    fn begin(&mut self, heap: Global, kind: KindName) -> Result<(), Problem> {
        self.sections.push(Section {
            kind,
            calls: Vec::new(heap),
        })?;
        Ok(())
    }

    // The section of the latest sensor.
    fn latest(&mut self) -> Result<&mut Section, Problem> {
        self.sections.last_mut().ok_or(Problem::Expected(
            "sensor int16, int32 or float32 as the first line",
        ))
    }

    fn take(&mut self, heap: Global, text: &str) -> Result<(), Problem> {
        match read_line(heap, text)? {
            Line::Blank => {}
            Line::Sensor(kind) => self.begin(heap, kind)?,
            Line::Call(call) => self.latest()?.calls.push(call)?,
            Line::Show => {
                let calls = self.latest()?.calls.len();
                let section = self.sections.len();
                self.shows.push(Show { section, calls })?;
            }
        }
        Ok(())
    }

    /// Reads a script up to its end, or to the first line that cannot be read; what stands before that line stays.
    /// A byte order mark at the front is passed over.
    pub(crate) fn read(&mut self, heap: Global, octets: &[u8]) -> Result<(), Trouble> {
        let (text, spoiled) = text_of(octets.strip_prefix(&BYTE_ORDER_MARK).unwrap_or(octets));
        for (line, text) in (1..).zip(text.lines()) {
            if spoiled == Some(line) {
                break;
            }
            self.take(heap, text)
                .map_err(|problem| Trouble { line, problem })?;
        }
        match spoiled {
            None => Ok(()),
            Some(line) => Err(Trouble {
                line,
                problem: Problem::Expected("text in UTF-8"),
            }),
        }
    }
}
