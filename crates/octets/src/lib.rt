//! Octets that the caller lends: written to the front of a buffer, and read as a number.
#![tactic(auto)]

ghost use Rattle.octets.specs.Buffers.{fitting, placed};
ghost use Rattle.octets.specs.Numbers.{number_of_four, number_of_two};
ghost use Rattle.std.specs.Prelude.{◌≡◌, length};

/// Writes the octets over the front of `out` and answers how many they are. Octets of `out` past them stay. Without
/// room it writes nothing and answers none.
pub fn put(octets: &[u8], out: &mut [u8]) -> Option<usize>
    ensures answer { result ≡ fitting octets.now out.old }
    ensures buffer { out.new ≡ placed octets.now out.old }
{
    let n = octets.len();
    let (front, _) = out.split_at_mut_checked(n)?;
    front.copy_from_slice(octets);
    Some(n)
}

/// The number that two octets write, the high octet first (docs/RULES.md, "1. Kinds of measured value"): 03 E8 is 1000.
/// None where they are not two.
// This and the next are two: u16 and u32 have a `from_be_bytes` each, and both functions are public.
pub fn from_two(octets: &[u8]) -> Option<u16>
    ensures { result ≡ number_of_two octets.now }
{
    octets.try_into().ok().map(u16::from_be_bytes)
}

/// The number that four octets write, the high octet first: 00 01 00 00 is 65,536. None where they are not four.
pub fn from_four(octets: &[u8]) -> Option<u32>
    ensures { result ≡ number_of_four octets.now }
{
    octets.try_into().ok().map(u32::from_be_bytes)
}
