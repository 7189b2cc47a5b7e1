ghost use Rattle.numbers.specs.Floats.{proper};
ghost use Rattle.std.specs.Prelude.{◌≡◌, true};

mod kind;

/// A float of 32 bits that is finite and not -0. The octets 3F 80 00 00 are 1.0.
#[derive(Clone, Copy, PartialEq, PartialOrd)]
pub struct Float32T {
    value: f32,
    ghost allowed: { proper value ≡ true },
}
