//! The denials of the core, and the fault that tells of one.
//!
//! docs/RULES.md, "Denials", has the table: number, layer and ErrorCode of each.
#![tactic(auto)]

ghost use Rattle.faults.specs.Denials.{denial_text, entry, fault, fault_at, fault_text, layer_text, place_text};
ghost use Rattle.std.specs.Prelude.{◌≡◌, Some};

use std::error::Error;
use std::fmt;

/// Why a call is denied. The number of a denial is its discriminant.
#[derive(Clone, Copy, PartialEq, Eq, Debug)]
pub enum Denial {
    /// A set-up while a keypad operation is open.
    SetupUnderKeypad = 1,
    /// The channel count is not 1 to 8.
    ChannelCount = 2,
    /// The range's low end is not below its high end, or an end is past the kind's limits.
    Range = 3,
    /// The capture length is not 1 to 64 values.
    CaptureLength = 4,
    /// The sensor is blank: it is not set up.
    Blank = 5,
    /// The buffer is too short.
    BufferTooShort = 6,
    /// The response buffer has under 16 octets.
    ResponseBuffer = 7,
    /// The length is not as laid out, or not the frame's.
    FrameLength = 8,
    /// The exclusive-or of the frame's octets is not 0.
    CheckOctet = 9,
    /// Another service, or fields that do not fit it.
    Service = 10,
    /// No such index.
    NoIndex = 11,
    /// No such subindex.
    NoSubindex = 12,
    /// The object is not read, or not written.
    WrongDirection = 13,
    /// The data is too long.
    DataTooLong = 14,
    /// The data is too short.
    DataTooShort = 15,
    /// A write from the bus while a keypad operation is open.
    WriteUnderKeypad = 16,
    /// Octets that are no value of the kind, or a code out of its table.
    NoValue = 17,
    /// A setpoint above the range.
    AboveRange = 18,
    /// A setpoint below the range.
    BelowRange = 19,
    /// An unknown command.
    UnknownCommand = 20,
    /// A teach command that is not in the state's row, or Apply without both flags.
    NotInState = 21,
    /// A keypad operation is open already.
    AlreadyOpen = 22,
    /// The teach is not idle.
    TeachRunning = 23,
    /// The ticket bears another serial number.
    OtherSerial = 24,
    /// No keypad operation is open.
    NotOpen = 25,
    /// No such channel or setpoint.
    NoSetpoint = 26,
    /// No frame holds the request or the response.
    NoFrame = 27,
}

/// The part of the core that denies.
#[derive(Clone, Copy, PartialEq, Eq, Debug)]
pub enum Layer {
    Device,
    Frame,
    Access,
    Value,
    Teach,
    Keypad,
}

/// A layer by its word.
impl fmt::Display for Layer {
    ghost output = { λ layer. Some (layer_text layer) };

    fn fmt<W: fmt::Write>(&self, f: &mut fmt::Formatter<W>) -> fmt::Result {
        f.write_str(match self {
            Layer::Device => "device",
            Layer::Frame => "frame",
            Layer::Access => "access",
            Layer::Value => "value",
            Layer::Teach => "teach",
            Layer::Keypad => "keypad",
        })
    }
}

impl Denial {
    /// The number of the denial, 1 to 27.
    pub const fn number(self) -> u8
        ensures { result ≡ (entry self).number }
    {
        self as u8
    }

    /// The layer that denies.
    pub const fn layer(self) -> Layer
        ensures { result ≡ (entry self).layer }
    {
        match self {
            Denial::SetupUnderKeypad
            | Denial::ChannelCount
            | Denial::Range
            | Denial::CaptureLength
            | Denial::Blank
            | Denial::BufferTooShort => Layer::Device,
            Denial::ResponseBuffer
            | Denial::FrameLength
            | Denial::CheckOctet
            | Denial::Service
            | Denial::NoFrame => Layer::Frame,
            Denial::NoIndex
            | Denial::NoSubindex
            | Denial::WrongDirection
            | Denial::DataTooLong
            | Denial::DataTooShort => Layer::Access,
            Denial::NoValue | Denial::AboveRange | Denial::BelowRange => Layer::Value,
            Denial::UnknownCommand | Denial::NotInState => Layer::Teach,
            Denial::WriteUnderKeypad
            | Denial::AlreadyOpen
            | Denial::TeachRunning
            | Denial::OtherSerial
            | Denial::NotOpen
            | Denial::NoSetpoint => Layer::Keypad,
        }
    }

    /// The ErrorCode of the negative response, as 0x8030 of `NoValue`; none for a denial that is never answered on the
    /// bus.
    pub const fn error_code(self) -> Option<u16>
        ensures { result ≡ (entry self).code }
    {
        match self {
            Denial::NoIndex => Some(0x8011),
            Denial::NoSubindex => Some(0x8012),
            Denial::WrongDirection => Some(0x8023),
            Denial::DataTooLong => Some(0x8033),
            Denial::DataTooShort => Some(0x8034),
            Denial::WriteUnderKeypad => Some(0x8021),
            Denial::NoValue => Some(0x8030),
            Denial::AboveRange => Some(0x8031),
            Denial::BelowRange => Some(0x8032),
            Denial::UnknownCommand => Some(0x8035),
            Denial::NotInState => Some(0x8036),
            _ => None,
        }
    }
}

/// A denial in words, for a log.
impl fmt::Display for Denial {
    ghost output = { λ denial. Some (denial_text denial) };

    fn fmt<W: fmt::Write>(&self, f: &mut fmt::Formatter<W>) -> fmt::Result {
        f.write_str(match self {
            Denial::SetupUnderKeypad => "set-up while a keypad operation is open",
            Denial::ChannelCount => "channel count not 1 to 8",
            Denial::Range => "range ends out of order or past the limits",
            Denial::CaptureLength => "capture length not 1 to 64",
            Denial::Blank => "sensor not set up",
            Denial::BufferTooShort => "buffer too short",
            Denial::ResponseBuffer => "response buffer under 16 octets",
            Denial::FrameLength => "wrong frame length",
            Denial::CheckOctet => "wrong check octet",
            Denial::Service => "no such service, or fields that do not fit it",
            Denial::NoIndex => "no such index",
            Denial::NoSubindex => "no such subindex",
            Denial::WrongDirection => "object not read or not written",
            Denial::DataTooLong => "data too long",
            Denial::DataTooShort => "data too short",
            Denial::WriteUnderKeypad => "write while a keypad operation is open",
            Denial::NoValue => "no value of the kind, or a code out of its table",
            Denial::AboveRange => "setpoint above the range",
            Denial::BelowRange => "setpoint below the range",
            Denial::UnknownCommand => "unknown command",
            Denial::NotInState => "command not in the teach state's row",
            Denial::AlreadyOpen => "keypad operation already open",
            Denial::TeachRunning => "teach not idle",
            Denial::OtherSerial => "ticket of another serial number",
            Denial::NotOpen => "no keypad operation open",
            Denial::NoSetpoint => "no such channel or setpoint",
            Denial::NoFrame => "no frame holds it",
        })
    }
}

impl Error for Denial {}

/// The object that a call concerns.
#[derive(Clone, Copy, PartialEq, Eq, Debug)]
pub struct Place {
    pub index: u16,
    pub subindex: u8,
}

impl Place {
    /// The place where no object is concerned.
    pub const NONE: Place = Place {
        index: 0,
        subindex: 0,
    };
}

/// Where a fault is, as ` at index 60, subindex 1`; nothing where it concerns no object.
impl fmt::Display for Place {
    ghost output = { λ place. Some (place_text place) };

    fn fmt<W: fmt::Write>(&self, f: &mut fmt::Formatter<W>) -> fmt::Result {
        let Place { index, subindex } = *self;
        if *self == Place::NONE {
            return Ok(());
        }
        write!(f, " at index {index}, subindex {subindex}")
    }
}

/// A denial and the object that it concerns, `Place::NONE` where it concerns none.
#[derive(Clone, Copy, PartialEq, Eq, Debug)]
pub struct Fault {
    pub denial: Denial,
    pub place: Place,
}

impl Fault {
    /// A fault that concerns no object.
    pub const fn of(denial: Denial) -> Fault
        ensures { result ≡ fault denial }
    {
        Fault {
            denial,
            place: Place::NONE,
        }
    }

    /// A fault that concerns the object at a place.
    pub const fn at(denial: Denial, place: Place) -> Fault
        ensures { result ≡ fault_at denial place }
    {
        Fault { denial, place }
    }
}

impl From<Denial> for Fault {
    ghost from_gives = { λ denial result. result ≡ fault denial };

    fn from(denial: Denial) -> Fault {
        Fault::of(denial)
    }
}

/// A fault on one line of a log: `denial 18 (value) at index 60, subindex 1: setpoint above the range`.
impl fmt::Display for Fault {
    ghost output = { λ fault. Some (fault_text fault) };

    fn fmt<W: fmt::Write>(&self, f: &mut fmt::Formatter<W>) -> fmt::Result {
        let (denial, place) = (self.denial, self.place);
        let (number, layer) = (denial.number(), denial.layer());
        write!(f, "denial {number} ({layer}){place}: {denial}")
    }
}

impl Error for Fault {}
