// Replies to a request (docs/RULES.md, "8. ISDU frames", "Replies").
ghost use Rattle.std.specs.Prelude.{◌≡◌, length, take, drop};
ghost use Rattle.isdu.specs.Composing.{delivered, total_length};
ghost use Rattle.isdu.specs.Replies.{read_reply, refusal, refusal_digit, write_reply};
ghost use Rattle.octets.specs.Buffers.{left};

use crate::Direction;
use crate::services::Digit;
use crate::writing::{enclose, send};
use faults::Fault;

/// Writes the reply to a write that was done, 52 52, and answers its length in octets. Denial 6 without room.
pub fn confirm_write(out: &mut [u8]) -> Result<usize, Fault>
    ensures answer { result ≡ delivered (length write_reply) (length out.old) }
    ensures buffer { out.new ≡ left result write_reply out.old }
{
    send(Digit { value: 0x5 }, &[], &[], out)
}

/// Makes a reply of the `n` octets that were read, which stand in the buffer already, behind its first octet, and
/// answers its length in octets. A buffer with AA 05 AA holds D3 05 D6 after `confirm_read(1, ..)`. Up to 13 octets
/// stay where they stand; the heading of more has two octets, so they are moved up by one. Octets past the reply stay.
///
/// Denials: 27 where the reply would have over 238 octets, which is with more than 235 octets of data; then 6 without
/// room.
pub fn confirm_read(n: usize, out: &mut [u8]) -> Result<usize, Fault>
    ensures answer { result ≡ delivered (total_length n) (length out.old) }
    ensures buffer { out.new ≡ left result (read_reply (take n (drop 1 out.old))) out.old }
{
    enclose(Digit { value: 0xD }, n, out)
}

// The digit of a refusal.
fn refusal_digit(direction: Direction) -> Digit
    ensures { result.value ≡ refusal_digit direction }
{
    let value = match direction {
        Direction::Write => 0x4,
        Direction::Read => 0xC,
    };
    Digit { value }
}

/// Writes the reply to a request of this direction that is refused, with the ErrorCode `code`, and answers its length
/// in octets: a write refused with 0x8031 has 44 80 31 F5. Denial 6 without room.
pub fn refuse(direction: Direction, code: u16, out: &mut [u8]) -> Result<usize, Fault>
    ensures answer { result ≡ delivered (length (refusal direction code)) (length out.old) }
    ensures buffer { out.new ≡ left result (refusal direction code) out.old }
{
    let [high, low] = code.to_be_bytes();
    send(refusal_digit(direction), &[high, low], &[], out)
}
