// What a write does to the device.
ghost use Rattle.channels.specs.Table.{row_at};
ghost use Rattle.objects.specs.Lent.{lent_content, lent_written};
ghost use Rattle.objects.specs.Objects.{HasRow, WrittenHasRow};
ghost use Rattle.objects.specs.declared.access.Written.TheVariants as Written;
ghost use Rattle.sensor.specs.Answers.{plain};
ghost use Rattle.sensor.specs.Devices.{selecting};
ghost use Rattle.sensor.specs.Requests.{past_count, select_asked, write_asked};
ghost use Rattle.sensor.specs.Rules.{carried, device_by};
ghost use Rattle.std.specs.Prelude.{◌≡◌};

use super::device::Device;
use faults::{Denial, Fault, Place};
use kinds::Kind;
use objects::{Content, Written, write_content};
use teach::Teach;

impl<K: Kind> Device<K> {
    // Each write, here and from the keypad, has a clause for its reply and one for the device, both taken from one
    // definition. A single clause on a pair would be taken apart again in each proof.

    // A command to the teach of the selected channel.
    fn command(&mut self, code: u8, place: Place) -> Result<(), Fault>
        ensures reply { result
            ≡ plain (carried K.meaning self.old (write_asked K.meaning self.old place (Written.Command code))) }
        ensures device { self.new
            ≡ device_by K.meaning self.old
            (carried K.meaning self.old (write_asked K.meaning self.old place (Written.Command code))) }
    {
        let store = self.teach.command(self.terms, code, place)?;
        self.store(store);
        Ok(())
    }

    // Selects a channel that is there, which drops the teach.
    pub(crate) fn select_channel(&mut self, channel: u8)
        ensures { self.new ≡ selecting self.old channel }
    {
        self.selected = channel;
        self.teach = Teach::idle();
    }

    fn is_past_count(&self, channel: u8) -> bool
        ensures { result ≡ past_count self.now channel }
    {
        self.channels.len() < usize::from(channel)
    }

    // Selects a channel; 0 means channel 1.
    fn select(&mut self, channel: u8, place: Place) -> Result<(), Fault>
        ensures reply { result ≡ plain (carried K.meaning self.old (select_asked self.old place channel)) }
        ensures device { self.new
            ≡ device_by K.meaning self.old (carried K.meaning self.old (select_asked self.old place channel)) }
    {
        if self.is_past_count(channel) {
            return Err(Fault::at(Denial::NoValue, place));
        }
        self.select_channel(channel.max(1));
        Ok(())
    }

    // Changes settings of a channel that is present.
    fn change(&mut self, channel: u8, content: Content<&[u8]>, place: Place) -> Result<(), Fault>
        requires { HasRow self.old.channels channel }
        ensures reply { result
            ≡ plain (carried K.meaning self.old
            (write_asked K.meaning self.old place (Written.Channel channel (lent_content content.entry)))) }
        ensures device { self.new
            ≡ device_by K.meaning self.old (carried K.meaning self.old
            (write_asked K.meaning self.old place (Written.Channel channel (lent_content content.entry)))) }
    {
        let row = self.present_row(channel);
        let row = write_content(row, content, self.range, place.index)?;
        self.channels.replace(channel, row);
        Ok(())
    }

    // Writes what a request brings. A denied write changes nothing.
    pub(crate) fn write(&mut self, written: Written<&[u8]>, place: Place) -> Result<(), Fault>
        requires { WrittenHasRow self.old.channels written }
        ensures reply { result
            ≡ plain (carried K.meaning self.old (write_asked K.meaning self.old place (lent_written written.entry))) }
        ensures device { self.new
            ≡ device_by K.meaning self.old
            (carried K.meaning self.old (write_asked K.meaning self.old place (lent_written written.entry))) }
    {
        match written {
            Written::Command(code) => self.command(code, place),
            Written::Select(channel) => self.select(channel, place),
            Written::Channel(channel, content) => self.change(channel, content, place),
        }
    }
}
