// IntegerT16 as a kind of measured value.
ghost use Rattle.kinds.specs.IntegerT16.{integer_t16};
ghost use Rattle.kinds.specs.Integers.{integers, step};
ghost use Rattle.std.specs.Prelude.{refl};
ghost use Rattle.std.proofs.Common.{inl};
ghost use Rattle.octets.proofs.Numbers.{two_sound};
ghost use Rattle.kinds.specs.IntegersLemmas as Integers;
ghost use Rattle.kinds.specs.Same.{same_t16};

use crate::integer_t16::IntegerT16;
use crate::kind::Kind;

// The two integers have an impl each: limits, substitutes and the wider word differ, and a trait over i16 and i32 that
// gives these has as many lines.
impl Kind for IntegerT16 {
    const OCTET_WIDTH: usize = 2;

    const LOWEST_END: IntegerT16 = IntegerT16 { value: -32_000 };

    const HIGHEST_END: IntegerT16 = IntegerT16 { value: 32_000 };

    const STEP: f32 = 1.0;

    ghost OCTET_WIDTH = { 2 };

    ghost LOWEST_END = { integer_t16.lowest };

    ghost HIGHEST_END = { integer_t16.highest };

    ghost STEP = { step };

    ghost meaning = { integers integer_t16 };

    ghost ranked = { λ v w. refl };

    ghost constants = { (refl, refl, refl, refl) };

    ghost lawful = { Integers.lawful integer_t16 (record {
      number_of = λ z h. refl;
      same = same_t16;
      coded = two_sound;
      two_or_four = inl refl;
      below_wide = refl;
      above_wide = refl;
      no_data_wide = refl;
    }) };

    fn below_substitute() -> &'static [u8] {
        &[0x80, 0x08]
    }

    fn above_substitute() -> &'static [u8] {
        &[0x7f, 0xf8]
    }

    fn no_data_substitute() -> &'static [u8] {
        &[0x7f, 0xfc]
    }

    fn read(octets: &[u8]) -> Option<IntegerT16> {
        let pattern = octets::from_two(octets)?;
        Some(IntegerT16 {
            value: pattern.cast_signed(),
        })
    }

    fn write(self, out: &mut [u8]) -> Option<usize> {
        octets::put(&self.value.to_be_bytes(), out)
    }

    // The number of steps does not fit an i16.
    fn raise(self, steps: u16) -> IntegerT16 {
        IntegerT16 {
            value: self.value.saturating_add_unsigned(steps),
        }
    }

    fn lower(self, steps: u16) -> IntegerT16 {
        IntegerT16 {
            value: self.value.saturating_sub_unsigned(steps),
        }
    }

    // Half the sum, rounded down.
    fn middle(self, other: IntegerT16) -> IntegerT16 {
        let sum = i32::from(self.value) + i32::from(other.value);
        IntegerT16 {
            value: (sum >> 1) as i16,
        }
    }
}
