//! The arithmetic behind the kinds of measured value: whole numbers of a width, and floats (docs/RULES.md, "1. Kinds of
//! measured value"). The whole numbers are all in lemmas, as Rust has their operations.
#![tactic(auto)]

ghost use Rattle.numbers.specs.Floats as Floats;
ghost use Rattle.std.specs.Prelude.{◌≡◌};

/// `x`, and +0 for -0.
pub fn plain(x: f32) -> f32
    ensures { result ≡ Floats.plain x }
{
    if x == 0.0 { 0.0 } else { x }
}

// The next three compare by `<=`, and their contracts say what they answer at what is no number: `f32::min`, `max` and
// `clamp` differ at NaN, and `clamp` asks that low <= high.

/// The lower of two floats; `y` where one of them is no number.
pub fn lesser(x: f32, y: f32) -> f32
    ensures { result ≡ Floats.lesser x y }
{
    if x <= y { x } else { y }
}

/// The higher of two floats; `x` where one of them is no number.
pub fn greater(x: f32, y: f32) -> f32
    ensures { result ≡ Floats.greater x y }
{
    if x <= y { y } else { x }
}

/// `x` where it lies between the two, else the end that it is beyond.
pub fn between(x: f32, low: f32, high: f32) -> f32
    ensures { result ≡ Floats.between x low high }
{
    if low <= x { lesser(x, high) } else { low }
}

/// The distance of up to 65,535 steps of 2^-10 is exact. It does nothing: its clause is what is proved.
pub fn distances_are_exact()
    ensures { Floats.ExactDistances }
{}
