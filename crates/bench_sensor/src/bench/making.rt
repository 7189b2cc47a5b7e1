// The calls of a sensor on a bench.
ghost use Rattle.bench_sensor.specs.Told.{called, counted_told, numbered, plainly_told, responded_told, sensor_of};
ghost use Rattle.octets.specs.Buffers.{over};
ghost use Rattle.sensor.specs.Calls.{close_keypad, open_keypad, write_keypad};
ghost use Rattle.sensor.specs.Rules.{blank as blank_sensor, channels_of, keypad_open, next, reply, written};
ghost use Rattle.sensor.specs.Rules.{serial as serial_number};
ghost use Rattle.std.specs.Prelude.{◌≡◌, length, is_err, IfErr, IfOk};

use super::BenchSensor;
use crate::call::{Call, Reply};
use crate::tickets::{give_back, keep, spare};
use channels::Row;
use faults::Fault;
use keypad::Unclosed;
use kinds::Kind;
use sensor::Sensor;

// The reply of a call that writes nothing.
fn plainly(answer: Result<(), Fault>) -> Reply<usize>
    ensures { result ≡ plainly_told answer }
{
    match answer {
        Ok(()) => Reply::Accepted(0),
        Err(fault) => Reply::Denied(fault, 0),
    }
}

// The reply of a call that writes where it is accepted.
fn counted(answer: Result<usize, Fault>) -> Reply<usize>
    ensures { result ≡ counted_told answer }
{
    match answer {
        Ok(n) => Reply::Accepted(n),
        Err(fault) => Reply::Denied(fault, 0),
    }
}

// The reply of a request. A denial that has an ErrorCode writes a negative response of four octets.
fn responded(answer: Result<usize, Fault>) -> Reply<usize>
    ensures { result ≡ responded_told answer }
{
    match answer {
        Ok(n) => Reply::Accepted(n),
        Err(fault) => match fault.denial.error_code() {
            Some(_) => Reply::Denied(fault, 4),
            None => Reply::Denied(fault, 0),
        },
    }
}

impl<K: Kind> BenchSensor<K> {
    /// A sensor that is not set up.
    pub const fn blank() -> BenchSensor<K>
        ensures { sensor_of result ≡ blank_sensor }
    {
        BenchSensor {
            sensor: Sensor::blank(),
            ticket: None,
        }
    }

    /// Puts a sensor on the bench. One that has a keypad operation open is handed back, as its ticket is elsewhere.
    pub fn of(sensor: Sensor<K>) -> Result<BenchSensor<K>, Sensor<K>>
        ensures taken { IfOk result (λ bench. sensor_of bench ≡ sensor) }
        ensures handed_back { IfErr result (λ back. back ≡ sensor) }
        ensures open { is_err result ≡ keypad_open sensor }
    {
        if sensor.is_keypad_open() {
            return Err(sensor);
        }
        Ok(BenchSensor {
            sensor,
            ticket: None,
        })
    }

    // Opens a keypad operation, and keeps its ticket.
    fn open(&mut self) -> Reply<usize>
        ensures reply { result ≡ numbered (reply K.meaning (sensor_of self.old) open_keypad) }
        ensures sensor { sensor_of self.new ≡ next K.meaning (sensor_of self.old) open_keypad }
    {
        match self.sensor.open_keypad() {
            Ok(ticket) => {
                let serial = ticket.serial();
                keep(&mut self.ticket, ticket);
                Reply::Ticket(serial)
            }
            Err(fault) => Reply::Denied(fault, 0),
        }
    }

    // Writes under a ticket of this serial number, which a spare keypad gives and takes back.
    fn write(&mut self, serial: u32, channel: u8, setpoint: u8, octets: &[u8]) -> Reply<usize>
        ensures reply { result
            ≡ numbered (reply K.meaning (sensor_of self.old) (write_keypad serial channel setpoint octets.now)) }
        ensures sensor { sensor_of self.new
            ≡ next K.meaning (sensor_of self.old) (write_keypad serial channel setpoint octets.now) }
    {
        let (spare, ticket) = spare(serial);
        let answer = self.sensor.keypad_write(&ticket, channel, setpoint, octets);
        give_back(spare, ticket);
        plainly(answer)
    }

    // Closes with a ticket of this serial number, which a spare keypad gives. Where the sensor takes it, the spare one
    // takes the ticket that was kept; where it is handed back, the spare one takes it.
    fn close(&mut self, serial: u32) -> Reply<usize>
        ensures reply { result ≡ numbered (reply K.meaning (sensor_of self.old) (close_keypad serial)) }
        ensures sensor { sensor_of self.new ≡ next K.meaning (sensor_of self.old) (close_keypad serial) }
    {
        let (spare, ticket) = spare(serial);
        match self.sensor.close_keypad(ticket) {
            Ok(()) => {
                if let Some(own) = self.ticket.take() {
                    give_back(spare, own);
                }
                Reply::Accepted(0)
            }
            Err(Unclosed { fault, ticket }) => {
                give_back(spare, ticket);
                Reply::Denied(fault, 0)
            }
        }
    }

    /// Makes one call, with lent octets and into a lent buffer. The reply tells how many octets were written over the
    /// front of the buffer: those of process data or of a response, the four of a negative response, else none. Octets
    /// past them stay. A keypad write and a closing have a ticket of the serial number that the call tells, whether
    /// such a ticket was given or not.
    ///
    /// The denials are those of the call of `Sensor`, in the order of its checks. A denied call changes nothing of the
    /// sensor, and writes nothing but the negative response to a request that draws 11 to 21.
    /// - set-up: 1, 2, 17, 3, 4
    /// - sample: 5, 17, 6
    /// - request: 5, 7, 8, 9, 10, then 11 to 16, then 17 to 19 of values and 20, 21 of a command
    /// - opening: 5, 22, 23
    /// - keypad write: 5, 24, 25, 26, 17, 18, 19
    /// - closing: 5, 24, 25
    /// - warm restart: 5
    pub fn make(&mut self, call: Call<&[u8]>, out: &mut [u8]) -> Reply<usize>
        ensures reply { result ≡ numbered (reply K.meaning (sensor_of self.old) (called call.entry (length out.old))) }
        ensures sensor { sensor_of self.new ≡ next K.meaning (sensor_of self.old) (called call.entry (length out.old)) }
        ensures buffer { out.new
            ≡ over (written K.meaning (sensor_of self.old) (called call.entry (length out.old))) out.old }
    {
        match call {
            Call::SetUp(setup) => plainly(self.sensor.set_up(&setup)),
            Call::Sample(reading) => counted(self.sensor.sample(reading, out)),
            Call::Request(frame) => responded(self.sensor.request(frame, out)),
            Call::OpenKeypad => self.open(),
            Call::WriteKeypad(serial, channel, setpoint, octets) => {
                self.write(serial, channel, setpoint, octets)
            }
            Call::CloseKeypad(serial) => self.close(serial),
            Call::Restart => plainly(self.sensor.warm_restart()),
        }
    }

    /// The channels that are present, channel 1 first; none on a blank sensor.
    pub fn channels(&self) -> &[Row<K>]
        ensures { result.now ≡ channels_of (sensor_of self.now) }
    {
        self.sensor.channels()
    }

    /// Takes the sensor off the bench. An operation that is open is closed with its ticket.
    pub fn end(self) -> Sensor<K>
        ensures { result ≡ next K.meaning (sensor_of self) (close_keypad (serial_number (sensor_of self))) }
    {
        let BenchSensor { mut sensor, ticket } = self;
        if let Some(ticket) = ticket {
            match sensor.close_keypad(ticket) {
                Ok(()) => {}
                Err(_unclosed) => unreachable(),
            }
        }
        sensor
    }
}
