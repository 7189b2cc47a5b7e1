// The values of a capture: their lowest and highest, and how many they are.
ghost use Rattle.teach.specs.Captures.{span_of, with_value, widened};
ghost use Rattle.std.specs.Prelude.{◌≡◌};

use kinds::Kind;

/// The lowest and the highest of some values.
#[derive(Clone, Copy)]
pub struct Span<K> {
    pub lowest: K,
    pub highest: K,
}

/// The values of a capture that is not complete: how many they are, and their lowest and highest.
#[derive(Clone, Copy)]
pub struct Captured<K> {
    pub count: u8,
    pub span: Span<K>,
}

impl<K: Kind> Span<K> {
    // The span of one value.
    pub(crate) fn of(v: K) -> Span<K>
        ensures { result ≡ span_of v }
    {
        Span {
            lowest: v,
            highest: v,
        }
    }

    // The span widened by a value.
    pub(crate) fn widened(self, v: K) -> Span<K>
        ensures { result ≡ widened K.meaning self v }
    {
        Span {
            lowest: v.lesser(self.lowest),
            highest: v.greater(self.highest),
        }
    }

    pub(crate) fn middle(self) -> K
        ensures { result ≡ K.meaning.middle self.lowest self.highest }
    {
        self.lowest.middle(self.highest)
    }
}

/// The span and the number of the values of a capture, once `v` is captured too.
// No `Captured`: its number is one octet, and one more than 255 may come.
pub fn with_value<K: Kind>(earlier: Option<Captured<K>>, v: K) -> (Span<K>, u16)
    ensures lowest { result.0.lowest ≡ (with_value K.meaning earlier v).span.lowest }
    ensures highest { result.0.highest ≡ (with_value K.meaning earlier v).span.highest }
    ensures count { result.1 ≡ (with_value K.meaning earlier v).count }
{
    match earlier {
        None => (Span::of(v), 1),
        Some(c) => (c.span.widened(v), u16::from(c.count) + 1),
    }
}
