// What a read shows of the device.
ghost use Rattle.channels.specs.Table.{row_at};
ghost use Rattle.objects.specs.Objects.{HasRow, ShownHasRow};
ghost use Rattle.octets.specs.Buffers.{fitting, placed};
ghost use Rattle.sensor.specs.Requests.{octets_shown};
ghost use Rattle.std.specs.Prelude.{◌≡◌, Some};

use super::device::Device;
use channels::Row;
use kinds::Kind;
use objects::{Shown, read_part};
use octets::put;

impl<K: Kind> Device<K> {
    // The row of a channel that is present. `row` would look once more whether it is.
    pub(crate) fn present_row(&self, channel: u8) -> &Row<K>
        requires { HasRow self.now.channels channel }
        ensures { Some result.now ≡ row_at self.now.channels channel }
    {
        let rows = &self.channels.rows[..];
        &rows[usize::from(channel) - 1]
    }

    // Writes the octets that a read shows to the front of `out`.
    pub(crate) fn read(&self, shown: Shown, out: &mut [u8]) -> Option<usize>
        requires { ShownHasRow self.now.channels shown }
        ensures answer { result ≡ fitting (octets_shown K.meaning self.now shown) out.old }
        ensures buffer { out.new ≡ placed (octets_shown K.meaning self.now shown) out.old }
    {
        match shown {
            Shown::Selected => put(&[self.selected], out),
            Shown::TeachResult => put(&[self.teach.result()], out),
            Shown::Channel(channel, part) => read_part(*self.present_row(channel), part, out),
        }
    }
}
