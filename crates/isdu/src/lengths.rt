// The length of a frame: where it is told, and what it may be.
ghost use Rattle.isdu.specs.Composing.{delivered, takes_second, total_length};
ghost use Rattle.std.specs.Prelude.{◌≡◌};

use faults::{Denial, Fault};

// The greatest length that the first octet tells, and the least and the greatest that a second length octet does.
pub(crate) const MOST_IN_DIGIT: usize = 15;

pub(crate) const LEAST_IN_OCTET: u8 = 17;

pub(crate) const MOST_IN_OCTET: u8 = 238;

// Whether the shortest frame with so many octets of content has a second length octet. Without one it has two octets
// beside them, the first and the check octet, and with one it has three.
pub(crate) fn takes_second(content: usize) -> bool
    ensures { result ≡ takes_second content }
{
    content > MOST_IN_DIGIT - 2
}

// The length of the shortest frame with so many octets of content, if there is such a frame and room for it.
pub(crate) fn frame_length(content: usize, room: usize) -> Result<usize, Fault>
    ensures { result ≡ delivered (total_length content) room }
{
    let beside = if takes_second(content) { 3 } else { 2 };
    let total = content.saturating_add(beside);
    if total > usize::from(MOST_IN_OCTET) {
        return Err(Fault::of(Denial::NoFrame));
    }
    if total > room {
        return Err(Fault::of(Denial::BufferTooShort));
    }
    Ok(total)
}
