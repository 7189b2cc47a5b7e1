ghost use Rattle.kinds.specs.Meaning.{Lawful, Meaning, greater, lesser};
ghost use Rattle.octets.specs.Buffers.{fitting, placed};
ghost use Rattle.std.specs.Prelude.{◌≡◌, ℕ, Float, Some, int_le, int_lt};
ghost use Rattle.std.specs.Ordering.{int_cmp};

/// A kind of measured value. The core is written once over this trait.
pub trait Kind: Copy + PartialOrd {
    /// The number of octets of a value, 2 or 4.
    const OCTET_WIDTH: usize;
    /// The low limit: no range goes below it.
    const LOWEST_END: Self;
    /// The high limit: no range goes above it.
    const HIGHEST_END: Self;
    /// What a step is worth: 1 of the integers, 2^-10 of Float32T.
    const STEP: f32;

    ghost OCTET_WIDTH: { ℕ };

    ghost LOWEST_END: { Self };

    ghost HIGHEST_END: { Self };

    ghost STEP: { Float };

    /// What the rules say of the kind.
    ghost meaning: { Meaning Self };

    /// The number of octets of a value, `OCTET_WIDTH`.
    final fn width() -> usize
        ensures { result ≡ meaning.width }
    {
        Self::OCTET_WIDTH
    }

    /// The least value that may be the low end of a range, `LOWEST_END`.
    final fn low_limit() -> Self
        ensures { result ≡ meaning.low_limit }
    {
        Self::LOWEST_END
    }

    /// The greatest value that may be the high end of a range, `HIGHEST_END`.
    final fn high_limit() -> Self
        ensures { result ≡ meaning.high_limit }
    {
        Self::HIGHEST_END
    }

    /// The octets that stand in process data for Below, as 80 08 of IntegerT16.
    fn below_substitute() -> &'static [u8]
        ensures { result.now ≡ meaning.below_substitute };

    /// The octets that stand in process data for Above, as 7F F8 of IntegerT16.
    fn above_substitute() -> &'static [u8]
        ensures { result.now ≡ meaning.above_substitute };

    /// The octets that stand in process data for NoData, as 7F FC of IntegerT16.
    fn no_data_substitute() -> &'static [u8]
        ensures { result.now ≡ meaning.no_data_substitute };

    /// The value of the octets, high octet first: FF FD is -3 of IntegerT16. `None` where they are not as many as the
    /// width, or are no value, as an infinity of Float32T.
    fn read(octets: &[u8]) -> Option<Self>
        ensures { result ≡ meaning.read octets.now };

    /// Writes the value's octets to the front of `out`, high octet first, and answers how many they are. Without room
    /// it writes nothing and answers `None`.
    fn write(self, out: &mut [u8]) -> Option<usize>
        ensures answer { result ≡ fitting (meaning.octets self) out.old }
        ensures buffer { out.new ≡ placed (meaning.octets self) out.old };

    /// Whether the value is the other or below it.
    // Callers take this and `is_under` for `<=` and `<`, as they promise by rank. Tried: `<=` and `<` in
    // `Row::activates` and `deactivates`. Seven goals stayed open: the search does not rewrite by the law `ranked`.
    final fn at_most(self, other: Self) -> bool
        ensures { result ≡ int_le (meaning.rank self) (meaning.rank other) }
    {
        self <= other
    }

    /// Whether the value is below the other.
    final fn is_under(self, other: Self) -> bool
        ensures { result ≡ int_lt (meaning.rank self) (meaning.rank other) }
    {
        self < other
    }

    /// The lower of two values.
    // No `Ord::min` and, in `greater`, `max`: a float derives no `Ord`.
    final fn lesser(self, other: Self) -> Self
        ensures { result ≡ lesser meaning self other }
    {
        if self.at_most(other) { self } else { other }
    }

    /// The higher of two values.
    final fn greater(self, other: Self) -> Self
        ensures { result ≡ greater meaning self other }
    {
        if self.at_most(other) { other } else { self }
    }

    /// The value raised by a number of steps. An integer stops at the end of its width: 0 raised by 65,535 is 32,767 of
    /// IntegerT16. A float is rounded once to the nearest float: 1.0 raised by 1024 is 2.0.
    fn raise(self, steps: u16) -> Self
        ensures { result ≡ meaning.raised self steps };

    /// The value lowered by a number of steps, as `raise` raises it: 1.0 lowered by 1536 is -0.5.
    fn lower(self, steps: u16) -> Self
        ensures { result ≡ meaning.lowered self steps };

    /// The value midway between two, which is not below the lower and not above the higher. Of integers it is rounded
    /// down: -2 for -3 and 0.
    fn middle(self, other: Self) -> Self
        ensures { result ≡ meaning.middle self other };

    /// The laws of a kind, as docs/RULES.md lists them.
    ghost lawful: { Lawful Self meaning };

    /// Values compare as their ranks do.
    ghost ranked: { (v w : Self) → Self.partial_cmp v w ≡ Some (int_cmp (meaning.rank v) (meaning.rank w)) };

    /// The constants are the meaning's.
    ghost constants: { (OCTET_WIDTH ≡ meaning.width) × (LOWEST_END ≡ meaning.low_limit)
        × (HIGHEST_END ≡ meaning.high_limit) × (STEP ≡ meaning.step) };
}
