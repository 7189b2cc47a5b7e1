// The services of a request, and how each gives index and subindex.
ghost use Rattle.faults.specs.declared.Denial.TheVariants as denials;
ghost use Rattle.isdu.specs.Addresses.{shortest_addressing};
ghost use Rattle.isdu.specs.Decoding.{fits_service};
ghost use Rattle.isdu.specs.Services.{service_digit, service_of};
ghost use Rattle.std.specs.Prelude.{◌≡◌, ◌<◌, ok_or};

use crate::Direction;
use faults::Denial;

#[derive(Clone, Copy)]
pub(crate) enum Addressing {
    // An 8-bit index; the subindex is 0.
    Index8,
    // An 8-bit index and a subindex.
    Index8Sub,
    // A 16-bit index, its high octet first, and a subindex.
    Index16Sub,
}

// A service of a request.
#[derive(Clone, Copy)]
pub(crate) struct Service {
    pub(crate) direction: Direction,
    pub(crate) addressing: Addressing,
}

// The high digit of a frame's first octet, which tells the service.
#[derive(Clone, Copy)]
pub(crate) struct Digit {
    pub(crate) value: u8,
    ghost small: { value < 16 },
}

impl TryFrom<u8> for Service {
    type Error = Denial;

    ghost try_from_gives = { λ digit result. result ≡ ok_or (service_of digit) denials.Service };

    fn try_from(digit: u8) -> Result<Service, Denial> {
        let (direction, addressing) = match digit {
            0x1 => (Direction::Write, Addressing::Index8),
            0x2 => (Direction::Write, Addressing::Index8Sub),
            0x3 => (Direction::Write, Addressing::Index16Sub),
            0x9 => (Direction::Read, Addressing::Index8),
            0xA => (Direction::Read, Addressing::Index8Sub),
            0xB => (Direction::Read, Addressing::Index16Sub),
            _ => return Err(Denial::Service),
        };
        Ok(Service {
            direction,
            addressing,
        })
    }
}

impl From<Service> for Digit {
    ghost from_gives = { λ service digit. digit.value ≡ service_digit service.direction service.addressing };

    fn from(service: Service) -> Digit {
        let value = match (service.direction, service.addressing) {
            (Direction::Write, Addressing::Index8) => 0x1,
            (Direction::Write, Addressing::Index8Sub) => 0x2,
            (Direction::Write, Addressing::Index16Sub) => 0x3,
            (Direction::Read, Addressing::Index8) => 0x9,
            (Direction::Read, Addressing::Index8Sub) => 0xA,
            (Direction::Read, Addressing::Index16Sub) => 0xB,
        };
        Digit { value }
    }
}

// The addressing that takes the fewest octets.
pub(crate) fn shortest(index: u16, subindex: u8) -> Addressing
    ensures { result ≡ shortest_addressing index subindex }
{
    if index >= 256 {
        Addressing::Index16Sub
    } else if subindex == 0 {
        Addressing::Index8
    } else {
        Addressing::Index8Sub
    }
}

// A write has data; a read has none, and no second length octet.
pub(crate) fn fits_service(direction: Direction, second: bool, data: &[u8]) -> bool
    ensures { result ≡ fits_service direction second «data».now }
{
    match direction {
        Direction::Write => !data.is_empty(),
        Direction::Read => data.is_empty() && !second,
    }
}
