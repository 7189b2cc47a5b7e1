//! How octets, answers and channels are printed.
use bench_sensor::{Call, Reply};
use days::Channel;
use faults::Fault;
use kinds::Kind;
use std::fmt;

// Octets as pairs of hexadecimal digits, with a text between them.
#[derive(Clone, Copy)]
struct Octets<'a> {
    octets: &'a [u8],
    between: &'static str,
}

fn spaced<'a>(octets: &'a [u8]) -> Octets<'a> {
    Octets {
        octets,
        between: " ",
    }
}

impl fmt::Display for Octets<'_> {
    fn fmt<W: fmt::Write>(&self, f: &mut fmt::Formatter<W>) -> fmt::Result {
        let Some((first, rest)) = self.octets.split_first() else {
            return Ok(());
        };
        write!(f, "{first:02X}")?;
        for x in rest {
            write!(f, "{}{x:02X}", self.between)?;
        }
        Ok(())
    }
}

// The word that a script has for a call.
fn word(call: &Call<Vec<u8>>) -> &'static str {
    match call {
        Call::SetUp(_) => "setup",
        Call::Sample(_) => "sample",
        Call::Request(_) => "request",
        Call::OpenKeypad => "open",
        Call::WriteKeypad(..) => "write",
        Call::CloseKeypad(_) => "close",
        Call::Restart => "restart",
    }
}

// A denial by its number and its layer, with the place and the response where one was written.
#[derive(Clone, Copy)]
struct Denied<'a> {
    fault: Fault,
    response: &'a [u8],
}

impl fmt::Display for Denied<'_> {
    fn fmt<W: fmt::Write>(&self, f: &mut fmt::Formatter<W>) -> fmt::Result {
        let number = self.fault.denial.number();
        let layer = self.fault.denial.layer();
        write!(f, "denied {number} {layer}")?;
        if self.response.is_empty() {
            return Ok(());
        }
        write!(
            f,
            " {}.{}: {}",
            self.fault.place.index,
            self.fault.place.subindex,
            spaced(self.response)
        )
    }
}

/// A call with what it answered, as one line without its end.
#[derive(Clone, Copy)]
pub(crate) struct Answer<'a> {
    pub(crate) call: &'a Call<Vec<u8>>,
    pub(crate) reply: &'a Reply<Vec<u8>>,
}

impl fmt::Display for Answer<'_> {
    fn fmt<W: fmt::Write>(&self, f: &mut fmt::Formatter<W>) -> fmt::Result {
        f.write_str(word(self.call))?;
        f.write_str(": ")?;
        match self.reply {
            Reply::Accepted(octets) if octets.is_empty() => f.write_str("accepted"),
            Reply::Accepted(octets) => write!(f, "{}", spaced(octets.as_slice())),
            Reply::Ticket(serial) => write!(f, "ticket {serial}"),
            Reply::Denied(fault, response) => {
                let denied = Denied {
                    fault: *fault,
                    response: response.as_slice(),
                };
                write!(f, "{denied}")
            }
        }
    }
}

// What is shown of a channel.
#[derive(Clone, Copy)]
enum Field {
    Sp1,
    Sp2,
    Logic,
    Mode,
    Hysteresis,
    Active,
    Signal,
}

const FIELDS: [Field; 7] = [
    Field::Sp1,
    Field::Sp2,
    Field::Logic,
    Field::Mode,
    Field::Hysteresis,
    Field::Active,
    Field::Signal,
];

impl Field {
    fn differs<K: Kind>(self, a: &Channel<K>, b: &Channel<K>) -> bool {
        match self {
            Field::Sp1 => a.row.sp1 != b.row.sp1,
            Field::Sp2 => a.row.sp2 != b.row.sp2,
            Field::Logic => a.row.logic != b.row.logic,
            Field::Mode => a.row.mode != b.row.mode,
            Field::Hysteresis => a.row.hysteresis != b.row.hysteresis,
            Field::Active => a.row.active != b.row.active,
            Field::Signal => a.signal != b.signal,
        }
    }

    fn print<K: Kind, W: fmt::Write>(
        self,
        channel: &Channel<K>,
        f: &mut fmt::Formatter<W>,
    ) -> fmt::Result {
        let row = &channel.row;
        match self {
            Field::Sp1 => write!(f, "sp1={}", Value(row.sp1)),
            Field::Sp2 => write!(f, "sp2={}", Value(row.sp2)),
            Field::Logic => write!(f, "logic={}", row.logic),
            Field::Mode => write!(f, "mode={}", row.mode),
            Field::Hysteresis => write!(f, "hysteresis={}", row.hysteresis),
            Field::Active => write!(f, "active={}", u8::from(row.active)),
            Field::Signal => write!(f, "signal={}", u8::from(channel.signal)),
        }
    }
}

// A value by its octets, with nothing between them.
#[derive(Clone, Copy)]
struct Value<K>(K);

impl<K: Kind> fmt::Display for Value<K> {
    fn fmt<W: fmt::Write>(&self, f: &mut fmt::Formatter<W>) -> fmt::Result {
        // A value has 2 or 4 octets.
        let mut octets = [0u8; 4];
        let n = self.0.write(&mut octets).unwrap_or(0);
        let octets = Octets {
            octets: octets.get(..n).unwrap_or(&[]),
            between: "",
        };
        write!(f, "{octets}")
    }
}

/// The fields of a channel: all of them, or those that differ from what it was before.
#[derive(Clone, Copy)]
pub(crate) struct Fields<'a, K> {
    /// The channel before the call; with `None` all fields are printed.
    pub(crate) before: Option<&'a Channel<K>>,
    pub(crate) now: &'a Channel<K>,
}

impl<K: Kind> Fields<'_, K> {
    fn has(&self, field: Field) -> bool {
        match self.before {
            None => true,
            Some(before) => field.differs(before, self.now),
        }
    }

    /// Whether no field differs.
    pub(crate) fn is_empty(&self) -> bool {
        !FIELDS.iter().any(|field| self.has(*field))
    }
}

impl<K: Kind> fmt::Display for Fields<'_, K> {
    fn fmt<W: fmt::Write>(&self, f: &mut fmt::Formatter<W>) -> fmt::Result {
        let mut between = "";
        for field in FIELDS {
            if self.has(field) {
                write!(f, "{between}")?;
                field.print(self.now, f)?;
                between = " ";
            }
        }
        Ok(())
    }
}
