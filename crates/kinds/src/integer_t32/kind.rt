// IntegerT32 as a kind of measured value.
ghost use Rattle.kinds.specs.IntegerT32.{integer_t32};
ghost use Rattle.kinds.specs.Integers.{integers, step};
ghost use Rattle.std.specs.Prelude.{refl};
ghost use Rattle.std.proofs.Common.{inr};
ghost use Rattle.octets.proofs.Numbers.{four_sound};
ghost use Rattle.kinds.specs.IntegersLemmas as Integers;
ghost use Rattle.kinds.specs.Same.{same_t32};

use crate::integer_t32::IntegerT32;
use crate::kind::Kind;

// The two integers have an impl each: limits, substitutes and the wider word differ, and a trait over i16 and i32 that
// gives these has as many lines.
impl Kind for IntegerT32 {
    const OCTET_WIDTH: usize = 4;

    const LOWEST_END: IntegerT32 = IntegerT32 {
        value: -2_000_000_000,
    };

    const HIGHEST_END: IntegerT32 = IntegerT32 {
        value: 2_000_000_000,
    };

    const STEP: f32 = 1.0;

    ghost OCTET_WIDTH = { 4 };

    ghost LOWEST_END = { integer_t32.lowest };

    ghost HIGHEST_END = { integer_t32.highest };

    ghost STEP = { step };

    ghost meaning = { integers integer_t32 };

    ghost ranked = { λ v w. refl };

    ghost constants = { (refl, refl, refl, refl) };

    ghost lawful = { Integers.lawful integer_t32 (record {
      number_of = λ z h. refl;
      same = same_t32;
      coded = four_sound;
      two_or_four = inr refl;
      below_wide = refl;
      above_wide = refl;
      no_data_wide = refl;
    }) };

    fn below_substitute() -> &'static [u8] {
        &[0x80, 0x00, 0x00, 0x08]
    }

    fn above_substitute() -> &'static [u8] {
        &[0x7f, 0xff, 0xff, 0xf8]
    }

    fn no_data_substitute() -> &'static [u8] {
        &[0x7f, 0xff, 0xff, 0xfc]
    }

    fn read(octets: &[u8]) -> Option<IntegerT32> {
        let pattern = octets::from_four(octets)?;
        Some(IntegerT32 {
            value: pattern.cast_signed(),
        })
    }

    fn write(self, out: &mut [u8]) -> Option<usize> {
        octets::put(&self.value.to_be_bytes(), out)
    }

    fn raise(self, steps: u16) -> IntegerT32 {
        IntegerT32 {
            value: self.value.saturating_add(i32::from(steps)),
        }
    }

    fn lower(self, steps: u16) -> IntegerT32 {
        IntegerT32 {
            value: self.value.saturating_sub(i32::from(steps)),
        }
    }

    // Half the sum, rounded down.
    fn middle(self, other: IntegerT32) -> IntegerT32 {
        let sum = i64::from(self.value) + i64::from(other.value);
        IntegerT32 {
            value: (sum >> 1) as i32,
        }
    }
}
