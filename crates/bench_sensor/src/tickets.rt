// Tickets of any serial number, which a spare keypad gives and takes back.
ghost use Rattle.bench_sensor.specs.Kept.{TakesBack};
ghost use Rattle.keypad.specs.Operations.{serial_of, ticket_of};
ghost use Rattle.std.specs.Prelude.{◌≡◌, Some, None};

use keypad::{Keypad, Ticket};

// Puts a ticket where there is none.
pub(crate) fn keep(place: &mut Option<Ticket>, ticket: Ticket)
    requires { place.old ≡ None }
    ensures { place.new ≡ Some ticket }
{
    match place.replace(ticket) {
        None => {}
        Some(_ticket) => unreachable(),
    }
}

// A keypad with an operation open, and the ticket of it. Only the serial number of a ticket is compared, so it serves
// for any sensor that has it.
pub(crate) fn spare(serial: u32) -> (Keypad, Ticket)
    ensures keypad { TakesBack result.0 serial }
    ensures ticket { result.1 ≡ ticket_of serial }
{
    let mut keypad = Keypad::closed(serial);
    let ticket = keypad.open(true).unwrap();
    (keypad, ticket)
}

// Closes the operation of a spare keypad with a ticket of its serial number.
pub(crate) fn give_back(mut spare: Keypad, ticket: Ticket)
    requires { TakesBack spare (serial_of ticket) }
{
    match spare.close(ticket) {
        Ok(()) => {}
        Err(_unclosed) => unreachable(),
    }
}
