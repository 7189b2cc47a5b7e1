// The objects that requests reach, by index, and their items, by subindex.
ghost use Rattle.objects.specs.Objects.{ItemHasRow, ObjectHasRow, channel_of, item_at, object_at};
ghost use Rattle.std.specs.Prelude.{◌≡◌, IfSome};

use super::part::Part;
use channels::Table;
use kinds::Kind;

/// The object at an index.
#[derive(Clone, Copy, PartialEq, Eq, Debug)]
pub enum Object {
    /// Index 2: takes the code of a teach command.
    SystemCommand,
    /// Index 58: the selected channel.
    TeachSelect,
    /// Index 59.
    TeachResult,
    /// The setpoints of a channel, counted from 1: index 60 for channel 1.
    Setpoints(u8),
    /// The configuration of a channel, counted from 1: index 61 for channel 1.
    Configuration(u8),
}

/// What is read or written at once: an object that has no parts, or a part of a channel.
#[derive(Clone, Copy, PartialEq, Eq, Debug)]
pub enum Item {
    SystemCommand,
    TeachSelect,
    TeachResult,
    /// The channel, counted from 1, and its part.
    Channel(u8, Part),
}

// The channel that an index belongs to, if any. `as` and no `try_from`: that nothing is lost is proved.
fn channel_of(index: u16) -> Option<u8>
    ensures { result ≡ channel_of index }
{
    match index {
        60..=63 => Some(((index - 58) / 2) as u8),
        0x4000..=0x400b => Some(((index - 0x3ffa) / 2) as u8),
        _ => None,
    }
}

// The object at an index, if there is one. The channel of an object that is there has its row.
pub(crate) fn find_object<K: Kind>(table: &Table<K>, index: u16) -> Option<Object>
    ensures object { result ≡ object_at table.now index }
    ensures row { IfSome result (ObjectHasRow table.now) }
{
    match index {
        2 => Some(Object::SystemCommand),
        58 => Some(Object::TeachSelect),
        59 => Some(Object::TeachResult),
        _ => {
            let channel = channel_of(index)?;
            if !table.has(channel) {
                return None;
            }
            if index % 2 == 0 {
                Some(Object::Setpoints(channel))
            } else {
                Some(Object::Configuration(channel))
            }
        }
    }
}

impl Object {
    // The item at a subindex, if there is one.
    pub(crate) fn item(self, subindex: u8) -> Option<Item>
        ensures { result ≡ item_at self subindex }
    {
        match (self, subindex) {
            (Object::SystemCommand, 0) => Some(Item::SystemCommand),
            (Object::TeachSelect, 0) => Some(Item::TeachSelect),
            (Object::TeachResult, 0) => Some(Item::TeachResult),
            (Object::Setpoints(channel), _) => {
                Some(Item::Channel(channel, Part::of_setpoints(subindex)?))
            }
            (Object::Configuration(channel), _) => {
                Some(Item::Channel(channel, Part::of_configuration(subindex)?))
            }
            _ => None,
        }
    }
}
