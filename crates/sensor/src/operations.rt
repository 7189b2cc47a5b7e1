// Keypad operations on a sensor.
ghost use Rattle.keypad.specs.Operations.{returned, serial_of, ticketed};
ghost use Rattle.objects.specs.Writes.{setpoint_checked};
ghost use Rattle.sensor.specs.Answers.{plain};
ghost use Rattle.sensor.specs.Calls.{close_keypad, open_keypad, to_open, write_keypad};
ghost use Rattle.sensor.specs.Keypad.{close_asked, keypad_asked, keypad_checked};
ghost use Rattle.sensor.specs.Keypad.{setpoint_found, setpoint_named};
ghost use Rattle.sensor.specs.Rules.{carried, checked, device_by, next, performed, serial as serial_number};
ghost use Rattle.std.specs.Prelude.{◌≡◌};

use super::device::Device;
use super::sensor::Sensor;
use faults::{Denial, Fault, Place};
use keypad::{Ticket, Unclosed};
use kinds::Kind;
use objects::check_setpoint;
use teach::{Setpoint, Store};

// The setpoint that a number names. No `TryFrom` in `teach`: 26, the denial of any other number, is the keypad's.
fn name_setpoint(number: u8) -> Result<Setpoint, Fault>
    ensures { result ≡ setpoint_named number }
{
    match number {
        1 => Ok(Setpoint::Sp1),
        2 => Ok(Setpoint::Sp2),
        _ => Err(Fault::of(Denial::NoSetpoint)),
    }
}

impl<K: Kind> Device<K> {
    // Opens an operation: 22 and 23.
    fn open_keypad(&mut self) -> Result<Ticket, Fault>
        ensures reply { result ≡ ticketed self.old.keypad.serial (performed K.meaning self.old to_open) }
        ensures device { self.new ≡ device_by K.meaning self.old (performed K.meaning self.old to_open) }
    {
        self.keypad.open(self.teach.is_idle())
    }

    // The setpoint of a channel that is present: 26.
    fn find_setpoint(&self, channel: u8, setpoint: u8) -> Result<Setpoint, Fault>
        ensures { result ≡ setpoint_found self.now.channels channel setpoint }
    {
        if !self.channels.has(channel) {
            return Err(Fault::of(Denial::NoSetpoint));
        }
        name_setpoint(setpoint)
    }

    // The checks of a write, in their order, and what it stores.
    fn check_keypad_write(
        &self,
        ticket: &Ticket,
        channel: u8,
        setpoint: u8,
        octets: &[u8],
    ) -> Result<Store<K>, Fault>
        ensures { result ≡ keypad_checked K.meaning self.now (serial_of ticket.now) channel setpoint octets.now }
    {
        self.keypad.check(ticket)?;
        let setpoint = self.find_setpoint(channel, setpoint)?;
        let value = check_setpoint(octets, self.range, Place::NONE)?;
        Ok(Store { setpoint, value })
    }

    fn keypad_write(
        &mut self,
        ticket: &Ticket,
        channel: u8,
        setpoint: u8,
        octets: &[u8],
    ) -> Result<(), Fault>
        ensures reply { result
            ≡ plain (carried K.meaning self.old
            (keypad_asked K.meaning self.old (serial_of ticket.now) channel setpoint octets.now)) }
        ensures device { self.new
            ≡ device_by K.meaning self.old (carried K.meaning self.old
            (keypad_asked K.meaning self.old (serial_of ticket.now) channel setpoint octets.now)) }
    {
        let store = self.check_keypad_write(ticket, channel, setpoint, octets)?;
        self.put_setpoint(channel, store.setpoint, store.value);
        Ok(())
    }

    fn close_keypad(&mut self, ticket: Ticket) -> Result<(), Unclosed>
        ensures reply { result
            ≡ returned ticket (carried K.meaning self.old (close_asked self.old (serial_of ticket))) }
        ensures device { self.new
            ≡ device_by K.meaning self.old (carried K.meaning self.old (close_asked self.old (serial_of ticket))) }
    {
        self.keypad.close(ticket)
    }
}

#[tactic(auto, unfolding(crate::specs::Rules::checked))]
impl<K: Kind> Sensor<K> {
    /// Opens a keypad operation and gives its ticket, which must come back to `close_keypad`. While it is open, set-ups
    /// and writes of requests are denied; all else is taken.
    ///
    /// Denials, in this order: 5 where the sensor is blank; 22 where an operation is open already; 23 where the teach
    /// is not idle. A denied opening changes nothing.
    pub fn open_keypad(&mut self) -> Result<Ticket, Fault>
        ensures reply { result ≡ ticketed (serial_number self.old) (checked K.meaning self.old open_keypad) }
        ensures sensor { self.new ≡ next K.meaning self.old open_keypad }
    {
        let device = self.device.as_mut().ok_or(Denial::Blank)?;
        device.open_keypad()
    }

    /// Writes a setpoint, 1 for SP1 or 2 for SP2, of a channel counted from 1, under the ticket of the operation. The
    /// octets are a value of the kind: 03 E8 is 1000 of IntegerT16. All else stays.
    ///
    /// Denials, in this order: 5 where the sensor is blank; 24 where the ticket bears another serial number; 25 where
    /// no operation is open; 26 where the channel is not present, or the setpoint is not 1 or 2; 17 where the octets
    /// are no value of the kind; 18 where it is above the range; 19 where it is below. A denied write changes nothing.
    // Channel and setpoint are numbers, as any may be asked for: 26 denies the others.
    pub fn keypad_write(
        &mut self,
        ticket: &Ticket,
        channel: u8,
        setpoint: u8,
        octets: &[u8],
    ) -> Result<(), Fault>
        ensures reply { result
            ≡ plain (checked K.meaning self.old
            (write_keypad (serial_of ticket.now) channel setpoint octets.now)) }
        ensures sensor { self.new
            ≡ next K.meaning self.old (write_keypad (serial_of ticket.now) channel setpoint octets.now) }
    {
        let device = self.device.as_mut().ok_or(Denial::Blank)?;
        device.keypad_write(ticket, channel, setpoint, octets)
    }

    /// Closes the keypad operation and spends its ticket.
    ///
    /// Denials, in this order: 5 where the sensor is blank; 24 where the ticket bears another serial number; 25 where
    /// no operation is open. A denied closing changes nothing and hands the ticket back, which still has to be spent.
    pub fn close_keypad(&mut self, ticket: Ticket) -> Result<(), Unclosed>
        ensures reply { result ≡ returned ticket (checked K.meaning self.old (close_keypad (serial_of ticket))) }
        ensures sensor { self.new ≡ next K.meaning self.old (close_keypad (serial_of ticket)) }
    {
        // `ok_or` would take the ticket.
        match &mut self.device {
            Some(device) => device.close_keypad(ticket),
            None => Err(Unclosed {
                fault: Fault::of(Denial::Blank),
                ticket,
            }),
        }
    }
}
