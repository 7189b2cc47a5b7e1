ghost use Rattle.std.specs.Prelude.{◌^◌, T, nat_lt};
ghost use Rattle.std.specs.Int.Signed.{mag};

mod kind;

/// A whole number of 32 bits. The octets FF FF FF FD are -3.
#[derive(Clone, Copy, PartialEq, PartialOrd)]
pub struct IntegerT32 {
    value: i32,
    ghost within: { T (nat_lt (mag value) (2 ^ 31)) },
}
