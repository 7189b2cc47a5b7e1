// What a request asks for: the checks of its access, and its octets in their number.
ghost use Rattle.isdu.specs.Views.{asks};
ghost use Rattle.objects.specs.Lent.{lent_content, lent_result, lent_write};
ghost use Rattle.objects.specs.Objects.{AccessHasRow, ItemHasRow, access_checked, content_of, data_checked};
ghost use Rattle.objects.specs.Objects.{item_found, place_of, read_checked, write_checked};
ghost use Rattle.objects.specs.Parts.{part_length};
ghost use Rattle.std.specs.Prelude.{◌≡◌, drop, length, take, IfOk};

use super::object::{Item, find_object};
use super::part::Part;
use channels::Table;
use faults::{Denial, Fault, Place};
use isdu::{Direction, Request};
use kinds::Kind;

/// What a read shows.
#[derive(Clone, Copy, PartialEq, Eq, Debug)]
pub enum Shown {
    /// TeachSelect: the number of the selected channel, counted from 1.
    Selected,
    TeachResult,
    /// The channel, counted from 1, and its part.
    Channel(u8, Part),
}

/// What a write to a part of a channel brings. `T` has the octets of a setpoint; values and codes are not checked yet.
#[derive(Clone, Copy, PartialEq, Eq, Debug)]
pub enum Content<T> {
    /// SP1, SP2.
    Setpoints(T, T),
    Sp1(T),
    Sp2(T),
    /// Logic, mode, and hysteresis in steps: 00 02 00 05 is logic 0, mode 2, hysteresis 5.
    Configuration(u8, u8, u16),
    /// The code of logic.
    Logic(u8),
    /// The code of mode.
    Mode(u8),
    /// In steps.
    Hysteresis(u16),
}

/// What a write brings.
#[derive(Clone, Copy, PartialEq, Eq, Debug)]
pub enum Written<T> {
    /// The code of a teach command.
    Command(u8),
    /// The channel to select, counted from 1; 0 is channel 1 too.
    Select(u8),
    /// The channel, counted from 1, and what is written to it.
    Channel(u8, Content<T>),
}

/// What a request asks for, once its access has passed every check.
#[derive(Clone, Copy, PartialEq, Eq, Debug)]
pub enum Access<T> {
    Read(Shown),
    Write(Written<T>),
}

/// The place of the object that a request concerns: its index and subindex.
// No `From` in `isdu`: `Request` and `Place` are both of other crates.
pub fn place_of(request: &Request) -> Place
    ensures { result ≡ place_of (asks request.now) }
{
    Place {
        index: request.index,
        subindex: request.subindex,
    }
}

// The checks of a write's data: 14, 15 and 16.
fn check_data(request: &Request, length: usize, keypad: bool) -> Result<(), Fault>
    ensures { result ≡ data_checked keypad (asks request.now) length }
{
    if request.data.len() > length {
        return Err(Fault::at(Denial::DataTooLong, place_of(request)));
    }
    if request.data.len() < length {
        return Err(Fault::at(Denial::DataTooShort, place_of(request)));
    }
    if keypad {
        return Err(Fault::at(Denial::WriteUnderKeypad, place_of(request)));
    }
    Ok(())
}

// The octets of the first value, and those behind it.
fn halves(octets: &[u8], width: usize) -> (&[u8], &[u8])
    ensures first { result.0.now ≡ take width octets.now }
    ensures second { result.1.now ≡ drop width octets.now }
{
    octets.split_at_checked(width).unwrap_or((octets, &[]))
}

// What the octets of a write bring to a part of a channel.
fn content_of<'a>(part: Part, octets: &'a [u8], width: usize) -> Content<&'a [u8]>
    requires { length octets.now ≡ part_length width part }
    ensures { lent_content result ≡ content_of width part octets.now }
{
    match part {
        Part::Setpoints => {
            let (sp1, sp2) = halves(octets, width);
            Content::Setpoints(sp1, sp2)
        }
        Part::Sp1 => Content::Sp1(octets),
        Part::Sp2 => Content::Sp2(octets),
        Part::Configuration => Content::Configuration(
            octets[0],
            octets[1],
            u16::from_be_bytes([octets[2], octets[3]]),
        ),
        Part::Logic => Content::Logic(octets[0]),
        Part::Mode => Content::Mode(octets[0]),
        Part::Hysteresis => Content::Hysteresis(u16::from_be_bytes([octets[0], octets[1]])),
    }
}

// What a write asks for: 13 and, of the data, 14, 15 and 16.
fn check_write<'a, K: Kind>(
    request: &Request<'a>,
    item: Item,
    keypad: bool,
) -> Result<Written<&'a [u8]>, Fault>
    ensures { lent_write result ≡ write_checked {V = K} K.meaning keypad (asks request.now) item }
{
    match item {
        Item::SystemCommand => {
            check_data(request, 1, keypad)?;
            Ok(Written::Command(request.data[0]))
        }
        Item::TeachSelect => {
            check_data(request, 1, keypad)?;
            Ok(Written::Select(request.data[0]))
        }
        Item::TeachResult => Err(Fault::at(Denial::WrongDirection, place_of(request))),
        Item::Channel(channel, part) => {
            check_data(request, part.length(K::width()), keypad)?;
            Ok(Written::Channel(channel, content_of(part, request.data, K::width())))
        }
    }
}

// What a read asks for: 13.
fn check_read(request: &Request, item: Item) -> Result<Shown, Fault>
    ensures { result ≡ read_checked (asks request.now) item }
{
    match item {
        Item::SystemCommand => Err(Fault::at(Denial::WrongDirection, place_of(request))),
        Item::TeachSelect => Ok(Shown::Selected),
        Item::TeachResult => Ok(Shown::TeachResult),
        Item::Channel(channel, part) => Ok(Shown::Channel(channel, part)),
    }
}

// The item that a request reaches: 11 and 12. The channel of one that is there has its row.
fn find_item<K: Kind>(table: &Table<K>, request: &Request) -> Result<Item, Fault>
    ensures item { result ≡ item_found table.now (asks request.now) }
    ensures row { IfOk result (ItemHasRow table.now) }
{
    let object = find_object(table, request.index).ok_or(Fault::at(
        Denial::NoIndex,
        place_of(request),
    ))?;
    object
        .item(request.subindex)
        .ok_or(Fault::at(Denial::NoSubindex, place_of(request)))
}

/// What a request asks for. The channel of what is read or written is present. `keypad` is whether a keypad operation
/// is open.
///
/// Denials, in this order and at the place of the request: 11 where no object has the index; 12 where the object has no
/// such subindex; 13 where SystemCommand is read or TeachResult is written; 14 where a write has more octets than the
/// object or the part; 15 where it has fewer; 16 for a write while a keypad operation is open.
pub fn check_access<'a, K: Kind>(
    table: &Table<K>,
    keypad: bool,
    request: &Request<'a>,
) -> Result<Access<&'a [u8]>, Fault>
    ensures access { lent_result result ≡ access_checked K.meaning table.now keypad (asks request.now) }
    ensures row { IfOk result (AccessHasRow table.now) }
{
    let item = find_item(table, request)?;
    match request.direction {
        Direction::Read => Ok(Access::Read(check_read(request, item)?)),
        Direction::Write => Ok(Access::Write(check_write::<K>(request, item, keypad)?)),
    }
}
