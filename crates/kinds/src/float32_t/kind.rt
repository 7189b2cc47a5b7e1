// Float32T as a kind of measured value.
ghost use Rattle.std.specs.Prelude.{◌≡◌, ◌*◌, ◌%◌, ◌^◌, ◌<◌, from_bits, int_le, nat_lt, refl, true};
ghost use Rattle.kinds.specs.Float32T.{floats, read_pattern};
ghost use Rattle.numbers.specs.Floats as Floats;
ghost use Rattle.std.specs.Float.{binary32};
ghost use Rattle.std.proofs.Common.{inr};
ghost use Rattle.numbers.specs.Floats.{rank};
ghost use Rattle.octets.specs.Numbers.{four};
ghost use Rattle.numbers.proofs.Moves;
ghost use Rattle.octets.proofs.Numbers.{four_sound};
ghost use Rattle.numbers.proofs.Options.{some_of};
ghost use Rattle.kinds.specs.Same.{same_float};
ghost use Rattle.kinds.specs.Ranks.{floats_ranked};
ghost use Rattle.kinds.specs.Float32TKindLemmas.{back, low, high};

use crate::float32_t::Float32T;
use crate::kind::Kind;

// What a number of steps is worth.
fn distance(steps: u16) -> f32
    ensures { result ≡ Floats.distance steps }
{
    f32::from(steps) * Float32T::STEP
}

// Each is halved, the halves are added, and the sum is brought between the two; -0 is taken as +0.
fn halfway(x: f32, y: f32) -> f32
    ensures { result ≡ Floats.middle x y }
{
    let sum = x * 0.5 + y * 0.5;
    numbers::plain(numbers::between(sum, numbers::lesser(x, y), numbers::greater(x, y)))
}

// Whether a bit pattern lies below infinity's, whatever its sign. The pattern is asked, as `f32::is_finite` comes too
// late: `f32::from_bits` is given no pattern of a NaN.
fn is_finite(pattern: u32) -> bool
    ensures { result ≡ nat_lt (pattern % 2 ^ 31) (255 * 2 ^ 23) }
{
    pattern % 0x8000_0000 < 0x7f80_0000
}

// The float of a bit pattern, -0 taken as +0.
fn float_of(pattern: u32) -> f32
    requires { pattern % 2 ^ 31 < 255 * 2 ^ 23 }
    ensures value { result ≡ Floats.plain (from_bits binary32 pattern) }
    ensures allowed { Floats.proper result ≡ true }
{
    let x = f32::from_bits(pattern);
    numbers::plain(x)
}

// The value of a bit pattern, if it has one.
fn value_of(pattern: u32) -> Option<Float32T>
    ensures { result ≡ read_pattern pattern }
{
    is_finite(pattern).then(|| Float32T {
        value: float_of(pattern),
    })
}

impl Kind for Float32T {
    const OCTET_WIDTH: usize = 4;

    const LOWEST_END: Float32T = Float32T {
        value: -1_000_000.0,
    };

    const HIGHEST_END: Float32T = Float32T { value: 1_000_000.0 };

    const STEP: f32 = 0.0009765625;

    ghost OCTET_WIDTH = { 4 };

    ghost LOWEST_END = { floats.low_limit };

    ghost HIGHEST_END = { floats.high_limit };

    ghost STEP = { floats.step };

    ghost meaning = { floats };

    ghost ranked = { λ v w. floats_ranked v.value w.value v.allowed w.allowed };

    ghost constants = { (refl, refl, refl, refl) };

    ghost lawful = { record {
      width_two_or_four = inr refl;
      octets_wide = λ v. refl;
      below_wide = refl;
      above_wide = refl;
      no_data_wide = refl;
      read_wide = λ xs v e. let s = some_of (four.number xs) read_pattern v e in four_sound.only xs s.0 s.1;
      read_back = back;
      same_rank = λ v w e. same_float v w (Moves.rank_fixes v.value w.value v.allowed w.allowed e);
      raised_up = λ v n. Moves.raised_up v.value v.allowed n;
      lowered_down = λ v n. Moves.lowered_down v.value v.allowed n;
      raised_none = λ v. same_float _ v (Moves.raised_none v.value v.allowed);
      lowered_none = λ v. same_float _ v (Moves.lowered_none v.value v.allowed);
      raised_order = λ v w n h. Moves.raised_order v.value v.allowed w.value n w.allowed h;
      lowered_order = λ v w n h. Moves.lowered_order v.value v.allowed w.value n w.allowed h;
      middle_low = λ v w. low v w (int_le (rank v.value) (rank w.value)) refl;
      middle_high = λ v w. high v w (int_le (rank v.value) (rank w.value)) refl;
    } };

    // -infinity, +infinity, and what is no number.
    fn below_substitute() -> &'static [u8] {
        &[0xff, 0x80, 0x00, 0x00]
    }

    fn above_substitute() -> &'static [u8] {
        &[0x7f, 0x80, 0x00, 0x00]
    }

    fn no_data_substitute() -> &'static [u8] {
        &[0x7f, 0xc0, 0x00, 0x00]
    }

    fn read(octets: &[u8]) -> Option<Float32T> {
        value_of(octets::from_four(octets)?)
    }

    fn write(self, out: &mut [u8]) -> Option<usize> {
        octets::put(&self.value.to_be_bytes(), out)
    }

    fn raise(self, steps: u16) -> Float32T {
        Float32T {
            value: self.value + distance(steps),
        }
    }

    fn lower(self, steps: u16) -> Float32T {
        Float32T {
            value: self.value - distance(steps),
        }
    }

    fn middle(self, other: Float32T) -> Float32T {
        Float32T {
            value: halfway(self.value, other.value),
        }
    }
}
