use crate::replays::{Mismatch, Seen};
use faults::Denial;
use isdu::Direction;
use std::fmt;

// How often something was seen.
#[derive(Clone, Copy, Default)]
struct Counter(u32);

impl Counter {
    fn count(&mut self) {
        self.0 = self.0.saturating_add(1);
    }
}

impl fmt::Display for Counter {
    fn fmt<W: fmt::Write>(&self, f: &mut fmt::Formatter<W>) -> fmt::Result {
        write!(f, "{}", self.0)
    }
}

/// How many vectors and requests came to what.
#[derive(Clone, Copy, Default)]
pub(crate) struct Tally {
    frames: Counter,
    reads: Counter,
    writes: Counter,
    itself: Counter,
    shorter: Counter,
    lengths: Counter,
    checks: Counter,
    services: Counter,
    requests: Counter,
    accepted: Counter,
    refused: Refused,
    mismatches: Counter,
}

// How many requests were denied with each number: 27 is the highest.
#[derive(Clone, Copy, Default)]
struct Refused([Counter; 28]);

impl Refused {
    fn count(&mut self, denial: Denial) {
        if let Some(counter) = self.0.get_mut(usize::from(denial.number())) {
            counter.count();
        }
    }
}

impl fmt::Display for Refused {
    fn fmt<W: fmt::Write>(&self, f: &mut fmt::Formatter<W>) -> fmt::Result {
        for (number, counter) in (0u8..).zip(&self.0) {
            if counter.0 > 0 {
                writeln!(f, "denied with {number}: {counter}")?;
            }
        }
        Ok(())
    }
}

impl Tally {
    /// Counts a frame.
    pub(crate) fn count(&mut self, seen: Result<Seen, Mismatch>) {
        self.frames.count();
        match seen {
            Ok(Seen::Asked { direction, shorter }) => self.count_asked(direction, shorter),
            Ok(Seen::Denied(denial)) => self.count_denied(denial),
            Err(_) => self.mismatches.count(),
        }
    }

    /// Counts a request.
    pub(crate) fn count_request(&mut self, seen: Result<Option<Denial>, Mismatch>) {
        self.requests.count();
        match seen {
            Ok(None) => self.accepted.count(),
            Ok(Some(denial)) => self.refused.count(denial),
            Err(_) => self.mismatches.count(),
        }
    }

    /// Counts a line for a sensor whose set-up was denied.
    pub(crate) fn count_mismatch(&mut self) {
        self.mismatches.count();
    }

    fn count_asked(&mut self, direction: Direction, shorter: bool) {
        match direction {
            Direction::Read => self.reads.count(),
            Direction::Write => self.writes.count(),
        }
        if shorter {
            self.shorter.count();
        } else {
            self.itself.count();
        }
    }

    fn count_denied(&mut self, denial: Denial) {
        match denial {
            Denial::FrameLength => self.lengths.count(),
            Denial::CheckOctet => self.checks.count(),
            Denial::Service => self.services.count(),
            _ => self.mismatches.count(),
        }
    }
}

/// The counts, a line for each but those of `denied with` that are 0.
impl fmt::Display for Tally {
    fn fmt<W: fmt::Write>(&self, f: &mut fmt::Formatter<W>) -> fmt::Result {
        writeln!(f, "frames: {}", self.frames)?;
        writeln!(f, "decoded: {} reads, {} writes", self.reads, self.writes)?;
        writeln!(
            f,
            "composed: {} as they were, {} in a shorter form",
            self.itself, self.shorter
        )?;
        writeln!(
            f,
            "denied: {} with 8, {} with 9, {} with 10",
            self.lengths, self.checks, self.services
        )?;
        writeln!(f, "requests: {}", self.requests)?;
        writeln!(f, "accepted: {}", self.accepted)?;
        write!(f, "{}", self.refused)?;
        write!(f, "mismatches: {}", self.mismatches)
    }
}
