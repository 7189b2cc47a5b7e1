use channels::Range;
use teach::Terms;

/// What a sensor is set up from. `T` holds an end of the range as octets of the kind.
#[derive(Clone, Copy)]
pub struct Setup<T> {
    /// The serial number, which the tickets of keypad operations bear.
    pub serial: u32,
    /// The channel count, 1 to 8.
    pub channels: u8,
    /// Shown in process data as one octet, in two's complement.
    pub scale: i8,
    /// How many values a capture takes, 1 to 64, and spread and distance in steps.
    pub terms: Terms,
    /// The ends of the range: FF 9C and 27 10 are -100 and 10,000 of IntegerT16.
    pub range: Range<T>,
}
