ghost use Rattle.std.specs.Prelude.{◌^◌, T, nat_lt};
ghost use Rattle.std.specs.Int.Signed.{mag};

mod kind;

/// A whole number of 16 bits. The octets FF FD are -3.
#[derive(Clone, Copy, PartialEq, PartialOrd)]
pub struct IntegerT16 {
    value: i16,
    ghost within: { T (nat_lt (mag value) (2 ^ 15)) },
}
