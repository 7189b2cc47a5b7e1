//! ISDU frames over octets that the caller lends: a request is read from its frame and written as one, and the replies
//! to it are written (docs/RULES.md, "8. ISDU frames"). A denied call writes nothing. Denials are told by their numbers
//! in docs/RULES.md, "12. Denials".
#![tactic(auto)]

ghost use Rattle.isdu.specs.Examples.{Examples};

mod checks;
mod composing;
mod decoding;
mod lengths;
mod replies;
mod services;
mod writing;

pub use composing::compose;
pub use decoding::decode;
pub use replies::{confirm_read, confirm_write, refuse};

/// Whether a request reads or writes.
#[derive(Clone, Copy, PartialEq, Eq, Debug)]
pub enum Direction {
    /// Services 9, A and B of a frame.
    Read,
    /// Services 1, 2 and 3.
    Write,
}

/// A read or a write of an object. The frame 26 3C 01 03 E8 F0 is a write of index 60, subindex 1, with the data 03 E8.
#[derive(Clone, Copy, PartialEq, Eq, Debug)]
pub struct Request<'a> {
    /// Whether it reads or writes.
    pub direction: Direction,
    /// The object.
    pub index: u16,
    /// The part of the object; 0 is the whole.
    pub subindex: u8,
    /// The octets to write: one or more in the frame of a write, none in that of a read.
    pub data: &'a [u8],
}

/// The worked frames of docs/RULES.md, "8. ISDU frames", and some more. It does nothing: its clause is what is proved.
pub fn worked_frames()
    ensures { Examples }
{}
