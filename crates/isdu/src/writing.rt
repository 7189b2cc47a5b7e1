// A frame written into a lent buffer, part by part.
ghost use Rattle.std.specs.Prelude.{◌≡◌, ◌+◌, ◌<◌, ◌≤◌, [], ◌∷◌, ◌++◌, length, take, drop};
ghost use Rattle.isdu.specs.CheckOctet.{exclusive_or};
ghost use Rattle.isdu.specs.Composing.{delivered, framed, shortest_heading, total_length};
ghost use Rattle.isdu.specs.Decoding.{most_in_octet};
ghost use Rattle.octets.specs.Buffers.{left, over};

use crate::checks::exclusive_or;
use crate::lengths::{frame_length, takes_second};
use crate::services::Digit;
use faults::Fault;

// Writes octets at a place and answers the place after them. The place goes beside the buffer: the check octet is taken
// over all octets before it, so the front has to be had whole again.
fn put(out: &mut [u8], at: usize, octets: &[u8]) -> usize
    requires { at + length octets.now ≤ length out.old }
    ensures end { result ≡ at + length octets.now }
    ensures buffer { out.new ≡ take at out.old ++ over octets.now (drop at out.old) }
{
    let end = at + octets.len();
    out[at..end].copy_from_slice(octets);
    end
}

// Writes service and length of the shortest frame with so many octets of content. `as` and no `try_from`: that nothing
// is lost is proved, and an `Err` could not come.
fn put_heading(out: &mut [u8], digit: Digit, content: usize) -> usize
    requires small { total_length content ≤ most_in_octet }
    requires room { length (shortest_heading digit.value content) ≤ length out.old }
    ensures end { result ≡ length (shortest_heading digit.value content) }
    ensures buffer { out.new ≡ over (shortest_heading digit.value content) out.old }
{
    let high = 16 * digit.value;
    if takes_second(content) {
        put(out, 0, &[high + 1, (content + 3) as u8])
    } else {
        put(out, 0, &[high + (content + 2) as u8])
    }
}

// Writes the check octet of the octets before a place.
fn put_check(out: &mut [u8], at: usize) -> usize
    requires { at < length out.old }
    ensures end { result ≡ at + 1 }
    ensures buffer { out.new ≡ take at out.old ++ over (exclusive_or (take at out.old) ∷ []) (drop at out.old) }
{
    let check = exclusive_or(&out[0..at]);
    put(out, at, &[check])
}

// Writes a frame for which there is room, and answers its length.
fn put_frame(out: &mut [u8], digit: Digit, address: &[u8], data: &[u8]) -> usize
    requires small { length (framed digit.value (address.now ++ «data».now)) ≤ most_in_octet }
    requires room { length (framed digit.value (address.now ++ «data».now)) ≤ length out.old }
    ensures end { result ≡ length (framed digit.value (address.now ++ «data».now)) }
    ensures buffer { out.new ≡ over (framed digit.value (address.now ++ «data».now)) out.old }
{
    let at = put_heading(out, digit, address.len() + data.len());
    let at = put(out, at, address);
    let at = put(out, at, data);
    put_check(out, at)
}

// Writes the frame with this digit, in its shortest form, over the front of the buffer and answers its length.
// Digit, address and data go as parameters: a struct of the three makes each call longer.
pub(crate) fn send(
    digit: Digit,
    address: &[u8],
    data: &[u8],
    out: &mut [u8],
) -> Result<usize, Fault>
    ensures answer { result ≡ delivered (length (framed digit.value (address.now ++ «data».now))) (length out.old) }
    ensures buffer { out.new ≡ left result (framed digit.value (address.now ++ «data».now)) out.old }
{
    frame_length(address.len().saturating_add(data.len()), out.len())?;
    Ok(put_frame(out, digit, address, data))
}

// Moves `n` octets that stand behind the first octet up by one.
fn move_up(out: &mut [u8], n: usize)
    requires { n + 2 ≤ length out.old }
    ensures { out.new ≡ take 2 out.old ++ over (take n (drop 1 out.old)) (drop 2 out.old) }
{
    out.copy_within(1..n + 1, 2);
}

// Puts heading and check octet around `n` octets that stand behind the first octet, and answers the length of the
// frame. They stay where they are, unless the heading has two octets.
pub(crate) fn enclose(digit: Digit, n: usize, out: &mut [u8]) -> Result<usize, Fault>
    ensures answer { result ≡ delivered (total_length n) (length out.old) }
    ensures buffer { out.new ≡ left result (framed digit.value (take n (drop 1 out.old))) out.old }
{
    frame_length(n, out.len())?;
    if takes_second(n) {
        move_up(out, n);
    }
    let at = put_heading(out, digit, n);
    Ok(put_check(out, at + n))
}
