// The sensor and its calls.
ghost use Rattle.objects.specs.Objects.{from_to};
ghost use Rattle.octets.specs.Buffers.{over};
ghost use Rattle.sensor.specs.Answers.{ShowsOneToEight, counted, plain};
ghost use Rattle.sensor.specs.Calls.{request, sample, set_up};
ghost use Rattle.sensor.specs.Lent.{lent_reading, lent_setup};
ghost use Rattle.sensor.specs.Rules.{blank, channels_of, checked, keypad_open, next, written};
ghost use Rattle.sensor.specs.Samples.{reading_of};
ghost use Rattle.sensor.specs.Setups.{ends_checked, fresh_device, lawful_range, range_checked, set_up_checked};
ghost use Rattle.std.specs.Prelude.{◌≡◌, length, IfOk};

use super::device::Device;
use super::setup::Setup;
use channels::{Range, Reading, Row, Table};
use faults::{Denial, Fault};
use keypad::Keypad;
use kinds::Kind;
use teach::Teach;

/// A sensor of the kind `K`. It is blank until it is set up.
#[derive(Drop)]
pub struct Sensor<K> {
    // None of a blank sensor.
    pub(super) device: Option<Device<K>>,
}

// A function for the one call of `contains`, as the definition of the checks has one.
fn is_from_to(n: u8, first: u8, last: u8) -> bool
    ensures { result ≡ from_to first last n }
{
    (first..=last).contains(&n)
}

// Whether both ends lie within the kind's limits, the low one below the high one.
fn range_lawful<K: Kind>(range: Range<K>) -> bool
    ensures { result ≡ lawful_range K.meaning range }
{
    range.low.is_under(range.high)
        && K::low_limit().at_most(range.low)
        && range.low.at_most(K::high_limit())
        && K::low_limit().at_most(range.high)
        && range.high.at_most(K::high_limit())
}

// The reading that octets bring; none where they are no value. A `map` of readings and its `transpose` would each have
// these four arms.
fn decode_reading<K: Kind>(reading: Reading<&[u8]>) -> Option<Reading<K>>
    ensures { result ≡ reading_of K.meaning (lent_reading reading.entry) }
{
    match reading {
        Reading::Value(octets) => K::read(octets).map(Reading::Value),
        Reading::Below => Some(Reading::Below),
        Reading::Above => Some(Reading::Above),
        Reading::NoData => Some(Reading::NoData),
    }
}

// The device after set-up.
fn fresh<K: Kind>(setup: &Setup<&[u8]>, range: Range<K>) -> Device<K>
    ensures { result ≡ fresh_device (lent_setup setup.now) range }
{
    Device {
        range,
        scale: setup.scale.cast_unsigned(),
        keypad: Keypad::closed(setup.serial),
        selected: 1,
        terms: setup.terms,
        teach: Teach::idle(),
        channels: Table::fresh(setup.channels, range),
    }
}

// The range that a set-up brings: 17 where an end is no value.
fn ends_checked<K: Kind>(setup: &Setup<&[u8]>) -> Result<Range<K>, Fault>
    ensures { let range = (lent_setup setup.now).range in
        result ≡ ends_checked K.meaning (K.meaning.read range.low) (K.meaning.read range.high) }
{
    let low = K::read(setup.range.low).ok_or(Denial::NoValue)?;
    let high = K::read(setup.range.high).ok_or(Denial::NoValue)?;
    Ok(Range { low, high })
}

// The device that a set-up with this range gives: 3 and 4.
fn range_checked<K: Kind>(setup: &Setup<&[u8]>, range: Range<K>) -> Result<Device<K>, Fault>
    ensures { result ≡ range_checked K.meaning (lent_setup setup.now) range }
{
    if !range_lawful(range) {
        return Err(Fault::of(Denial::Range));
    }
    if !is_from_to(setup.terms.capture, 1, 64) {
        return Err(Fault::of(Denial::CaptureLength));
    }
    Ok(fresh(setup, range))
}

#[tactic(auto, unfolding(crate::specs::Rules::checked))]
impl<K: Kind> Sensor<K> {
    /// A sensor that is not set up: it denies samples, requests, keypad operations and warm restarts with 5.
    pub const fn blank() -> Sensor<K>
        ensures { result ≡ blank }
    {
        Sensor { device: None }
    }

    /// Whether a keypad operation is open: never on a blank sensor.
    pub fn is_keypad_open(&self) -> bool
        ensures { result ≡ keypad_open self.now }
    {
        // `is_some_and` was tried: that the borrow handed to its closure has room stayed open.
        match &self.device {
            Some(device) => device.keypad.is_open(),
            None => false,
        }
    }

    // The checks of a set-up, in their order, and the device that it gives.
    fn checked(&self, setup: &Setup<&[u8]>) -> Result<Device<K>, Fault>
        ensures { result ≡ set_up_checked K.meaning (keypad_open self.now) (lent_setup setup.now) }
    {
        if self.is_keypad_open() {
            return Err(Fault::of(Denial::SetupUnderKeypad));
        }
        if !is_from_to(setup.channels, 1, 8) {
            return Err(Fault::of(Denial::ChannelCount));
        }
        range_checked(setup, ends_checked(setup)?)
    }

    /// Sets the sensor up anew. It replaces all that the sensor held: each channel has SP1 at the low end and SP2 at
    /// the high end, logic 0, mode 1 (Single Point), hysteresis 0, and is inactive; channel 1 is selected, the teach is
    /// idle and TeachResult 0, and no keypad operation is open.
    ///
    /// Denials, in this order: 1 where a keypad operation is open; 2 where the channel count is not 1 to 8; 17 where
    /// the octets of an end are no value of the kind; 3 where low is not below high, or an end is past the kind's
    /// limits; 4 where a capture does not take 1 to 64 values. A denied set-up changes nothing.
    pub fn set_up(&mut self, setup: &Setup<&[u8]>) -> Result<(), Fault>
        ensures reply { result ≡ plain (checked K.meaning self.old (set_up (lent_setup setup.now))) }
        ensures sensor { self.new ≡ next K.meaning self.old (set_up (lent_setup setup.now)) }
    {
        self.device = Some(self.checked(setup)?);
        Ok(())
    }

    /// Judges every channel by the reading, feeds the teach, writes process data over the front of the buffer and
    /// answers the number of its octets: 4 of IntegerT16, 6 of IntegerT32 and Float32T. Octets past them stay. The
    /// value 05 DC of IntegerT16 writes 05 DC FF 03 where the scale is -1 and the signals of channels 1 and 2 are 1.
    ///
    /// Denials, in this order: 5 where the sensor is blank; 17 where the octets of a value are no value of the kind; 6
    /// where the buffer is shorter than process data. A denied sample changes nothing and writes nothing.
    pub fn sample(&mut self, reading: Reading<&[u8]>, out: &mut [u8]) -> Result<usize, Fault>
        ensures reply { let c = sample (lent_reading reading.entry) (length out.old) in
            result ≡ counted (written K.meaning self.old c) (checked K.meaning self.old c) }
        ensures sensor { self.new ≡ next K.meaning self.old (sample (lent_reading reading.entry) (length out.old)) }
        ensures buffer { out.new
            ≡ over (written K.meaning self.old (sample (lent_reading reading.entry) (length out.old))) out.old }
    {
        let device = self.device.as_mut().ok_or(Denial::Blank)?;
        let reading = decode_reading(reading).ok_or(Denial::NoValue)?;
        device.sample(reading, out)
    }

    /// Takes the frame of a request, writes the response over the front of the buffer and answers its length in octets.
    /// Octets past the response stay. 26 3C 01 03 E8 F0 writes SP1 of channel 1, and the response is 52 52. 93 3B A8
    /// reads TeachResult, and the response is D3 05 D6 where it is 5.
    ///
    /// The denials, in this order. With these nothing is written, and the fault concerns no object:
    /// - 5 where the sensor is blank
    /// - 7 where the buffer has under 16 octets
    /// - 8, 9, 10 where the frame does not decode, as `isdu::decode` denies it
    ///
    /// With these the negative response is written, four octets: 44 80 31 F5 for a write that draws 18.
    /// - 11 where no object has the index
    /// - 12 where the object has no such subindex
    /// - 13 where SystemCommand is read or TeachResult is written
    /// - 14 where a write has more octets than the object or the part
    /// - 15 where it has fewer
    /// - 16 for a write while a keypad operation is open
    /// - 17 where a setpoint's octets are no value of the kind, logic is over 1, mode over 3, or TeachSelect over the
    ///   channel count
    /// - 18 where a setpoint is above the range
    /// - 19 where a setpoint is below the range
    /// - 20 where the code of a command is unknown
    /// - 21 where the state of the teach does not take the command, or Apply comes without both flags
    ///
    /// Their fault has the index and the subindex of the request; of a whole write that draws 17 to 19, the subindex of
    /// the part, and each part is checked by the three before the next. A denied request changes nothing of the sensor.
    pub fn request(&mut self, frame: &[u8], out: &mut [u8]) -> Result<usize, Fault>
        ensures reply { let c = request frame.now (length out.old) in
            result ≡ counted (written K.meaning self.old c) (checked K.meaning self.old c) }
        ensures sensor { self.new ≡ next K.meaning self.old (request frame.now (length out.old)) }
        ensures buffer { out.new ≡ over (written K.meaning self.old (request frame.now (length out.old))) out.old }
        ensures shown { IfOk (checked K.meaning self.old (request frame.now (length out.old))) ShowsOneToEight }
    {
        self.device
            .as_mut()
            .ok_or(Denial::Blank)?
            .request(frame, out)
    }

    /// The channels that are present, channel 1 first; none on a blank sensor.
    pub fn channels(&self) -> &[Row<K>]
        ensures { result.now ≡ channels_of self.now }
    {
        // A `match`, as in `is_keypad_open`.
        match &self.device {
            Some(device) => device.channels.present(),
            None => &[],
        }
    }
}
