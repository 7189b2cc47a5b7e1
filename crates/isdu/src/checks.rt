// The check octet.
ghost use Rattle.isdu.specs.CheckOctet.{exclusive_or};
ghost use Rattle.std.specs.Prelude.{◌≡◌, ◌==◌, [], ◌∷◌, ◌++◌, fold, bit_xor};

// The exclusive-or of an octet and those behind it.
fn exclusive_or_from(first: u8, octets: &[u8]) -> u8
    ensures { result ≡ fold bit_xor first octets.now }
{
    octets.iter().fold(first, |all, octet| all ^ octet)
}

// The exclusive-or of all octets: 0 over a whole frame, the check octet over the octets before it.
pub(crate) fn exclusive_or(octets: &[u8]) -> u8
    ensures { result ≡ exclusive_or octets.now }
{
    exclusive_or_from(0, octets)
}

// Whether the last octet of a frame is its check octet. It is compared with the exclusive-or of those before it: to
// compare that of all octets with 0 takes longer.
pub(crate) fn has_check(first: u8, inner: &[u8], last: u8) -> bool
    ensures { result ≡ (exclusive_or (first ∷ inner.now ++ last ∷ []) == 0) }
{
    exclusive_or_from(first, inner) == last
}
