// The calls of a sensor as data, and what they answer.
ghost use Rattle.bench_sensor.specs.Told.{call_of, called, octets_of, setup_of};
ghost use Rattle.sensor.specs.Lent.{lent_reading, lent_setup};
ghost use Rattle.std.specs.Prelude.{◌≡◌};

use channels::{Range, Reading};
use faults::Fault;
use sensor::Setup;

/// A call. `T` has octets: those of a range's end, of a reading, of a frame, of a setpoint.
#[derive(Drop)]
pub enum Call<T> {
    /// A set-up.
    SetUp(Setup<T>),
    /// A sample.
    Sample(Reading<T>),
    /// A request, by its frame: 93 3B A8 reads TeachResult.
    Request(T),
    /// Opens a keypad operation.
    OpenKeypad,
    /// Writes a setpoint at the keypad: the serial number that the ticket bears, the channel counted from 1, the
    /// setpoint (1 is SP1, 2 is SP2), and the octets of the value.
    WriteKeypad(u32, u8, u8, T),
    /// Closes the keypad operation: the serial number that the ticket bears.
    CloseKeypad(u32),
    /// A warm restart.
    Restart,
}

/// A call of a run.
#[derive(Drop)]
pub struct Line {
    /// The call, with octets of its own.
    pub call: Call<Vec<u8>>,
    /// The length in octets of the buffer that it is lent.
    pub room: u16,
}

/// What a call answers. `T` tells of the octets that it wrote over the front of its buffer: how many they are, or what
/// they are.
#[derive(Drop)]
pub enum Reply<T> {
    /// The octets of process data or of a response; none of a call that writes none.
    Accepted(T),
    /// An opening that was accepted: the serial number of its ticket.
    Ticket(u32),
    /// The fault, and the octets of the negative response; none where no response was written.
    Denied(Fault, T),
}

/// A set-up with the octets of its range lent.
// No `From`: both types are of another crate.
pub fn lend_setup(setup: &Setup<Vec<u8>>) -> Setup<&[u8]>
    ensures { lent_setup result ≡ setup_of setup.now }
{
    Setup {
        serial: setup.serial,
        channels: setup.channels,
        scale: setup.scale,
        terms: setup.terms,
        range: Range {
            low: setup.range.low.as_slice(),
            high: setup.range.high.as_slice(),
        },
    }
}

// A reading with its octets lent. A `map` of readings would have the same four arms.
fn lend_reading(reading: &Reading<Vec<u8>>) -> Reading<&[u8]>
    ensures { lent_reading result ≡ octets_of reading.now }
{
    match reading {
        Reading::Value(octets) => Reading::Value(octets.as_slice()),
        Reading::Below => Reading::Below,
        Reading::Above => Reading::Above,
        Reading::NoData => Reading::NoData,
    }
}

impl Line {
    /// The call with its octets lent.
    pub fn lend(&self) -> Call<&[u8]>
        ensures { called result self.now.room ≡ call_of self.now }
    {
        match &self.call {
            Call::SetUp(setup) => Call::SetUp(lend_setup(setup)),
            Call::Sample(reading) => Call::Sample(lend_reading(reading)),
            Call::Request(frame) => Call::Request(frame.as_slice()),
            Call::OpenKeypad => Call::OpenKeypad,
            Call::WriteKeypad(serial, channel, setpoint, octets) => {
                Call::WriteKeypad(*serial, *channel, *setpoint, octets.as_slice())
            }
            Call::CloseKeypad(serial) => Call::CloseKeypad(*serial),
            Call::Restart => Call::Restart,
        }
    }
}
