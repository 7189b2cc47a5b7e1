//! Keypad operations of a sensor: a ticket is given at the opening, and must come back to close.
//!
//! docs/RULES.md, "Keypad operations", has the rules. This crate knows the serial number of a sensor and whether an
//! operation is open, and nothing else of it.
#![tactic(auto)]

ghost use Rattle.keypad.specs.Operations.{bears, closed_by, closed_keypad, opened_by, opening_checked, returned};
ghost use Rattle.keypad.specs.Operations.{serial_of, ticket_checked, ticketed};
ghost use Rattle.std.specs.Prelude.{◌≡◌, true};

use faults::{Denial, Fault};

/// What an opening gives. It may be let go only once it is spent, and only closing spends it.
pub struct Ticket {
    serial: u32,
    // A flag and no type of its own: a ticket has a drop that is proved (docs/DECISIONS.md, "Fixed forms").
    spent: bool,
}

impl Drop for Ticket {
    fn drop(self)
        requires { self.spent ≡ true }
    {
        let Ticket {
            serial: _,
            spent: _,
        } = self;
    }
}

impl Ticket {
    /// The serial number of the sensor that gave it.
    pub fn serial(&self) -> u32
        ensures { result ≡ serial_of self.now }
    {
        self.serial
    }

    // Only the serial number is compared.
    fn bears(&self, serial: u32) -> bool
        ensures { result ≡ bears (serial_of self.now) serial }
    {
        serial == self.serial
    }
}

/// A closing that was denied, with the ticket.
pub struct Unclosed {
    pub fault: Fault,
    pub ticket: Ticket,
}

/// The keypad of a sensor: the sensor's serial number, and whether an operation is open.
#[derive(Drop)]
pub struct Keypad {
    serial: u32,
    is_open: bool,
}

impl Keypad {
    /// The keypad of a sensor with this serial number. No operation is open.
    pub const fn closed(serial: u32) -> Keypad
        ensures { result ≡ closed_keypad serial }
    {
        Keypad {
            serial,
            is_open: false,
        }
    }

    /// Whether an operation is open.
    pub fn is_open(&self) -> bool
        ensures { result ≡ self.now.is_open }
    {
        self.is_open
    }

    /// Opens an operation: 22 where one is open, 23 where the teach is not idle. A denied opening changes nothing.
    pub fn open(&mut self, teach_idle: bool) -> Result<Ticket, Fault>
        ensures reply { result ≡ ticketed self.old.serial (opening_checked self.old teach_idle) }
        ensures keypad { self.new ≡ opened_by self.old (opening_checked self.old teach_idle) }
    {
        if self.is_open {
            return Err(Fault::of(Denial::AlreadyOpen));
        }
        if !teach_idle {
            return Err(Fault::of(Denial::TeachRunning));
        }
        self.is_open = true;
        Ok(Ticket {
            serial: self.serial,
            spent: false,
        })
    }

    /// Checks a ticket: 24 where it bears another serial number, 25 where no operation is open.
    pub fn check(&self, ticket: &Ticket) -> Result<(), Fault>
        ensures { result ≡ ticket_checked self.now (serial_of ticket.now) }
    {
        if !ticket.bears(self.serial) {
            return Err(Fault::of(Denial::OtherSerial));
        }
        if !self.is_open {
            return Err(Fault::of(Denial::NotOpen));
        }
        Ok(())
    }

    /// Closes the operation and spends its ticket. A closing that is denied as by `check` changes nothing and hands the
    /// ticket back, which still has to be spent.
    pub fn close(&mut self, mut ticket: Ticket) -> Result<(), Unclosed>
        ensures reply { result ≡ returned ticket (ticket_checked self.old (serial_of ticket)) }
        ensures keypad { self.new ≡ closed_by self.old (ticket_checked self.old (serial_of ticket)) }
    {
        if let Err(fault) = self.check(&ticket) {
            return Err(Unclosed { fault, ticket });
        }
        self.is_open = false;
        ticket.spent = true;
        Ok(())
    }
}
