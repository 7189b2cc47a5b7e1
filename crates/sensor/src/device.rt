ghost use Rattle.channels.specs.Table.{judged_table, signals_octet};
ghost use Rattle.sensor.specs.Answers.{counted};
ghost use Rattle.sensor.specs.Calls.{samples};
ghost use Rattle.sensor.specs.Devices.{with_settings_at, setpoint_setting, stored, after_step, with_channels};
ghost use Rattle.sensor.specs.Rules.{carried, device_by, done, sample_written};
ghost use Rattle.sensor.specs.Samples.{heard, sample_asked};
ghost use Rattle.octets.specs.Buffers.{over};
ghost use Rattle.std.specs.Prelude.{◌≡◌, [], ◌∷◌, length, Some};

use channels::{Range, Reading, Table, process_data_length};
use faults::{Denial, Fault};
use keypad::Keypad;
use kinds::Kind;
use teach::{Setpoint, Store, Teach, Terms};

/// What a sensor holds once it is set up.
#[derive(Drop)]
pub struct Device<K> {
    /// How many values a capture takes, and spread and distance in steps.
    pub terms: Terms,
    /// The octet of the scale.
    pub scale: u8,
    /// The serial number, and whether a keypad operation is open.
    pub keypad: Keypad,
    /// The channel that is taught, counted from 1.
    pub selected: u8,
    pub range: Range<K>,
    pub teach: Teach<K>,
    pub channels: Table<K>,
}

impl<K: Kind> Device<K> {
    // Gives a channel another setpoint; one that is not present stays away.
    pub(crate) fn put_setpoint(&mut self, channel: u8, setpoint: Setpoint, value: K)
        ensures { self.new
            ≡ with_channels self.old
            (with_settings_at self.old.channels channel (setpoint_setting setpoint value ∷ [])) }
    {
        let Some(mut row) = self.channels.row(channel) else {
            return;
        };
        match setpoint {
            Setpoint::Sp1 => row.sp1 = value,
            Setpoint::Sp2 => row.sp2 = value,
        }
        self.channels.replace(channel, row);
    }

    // Stores a setpoint that was taught, in the selected channel.
    pub(crate) fn store(&mut self, store: Option<Store<K>>)
        ensures { self.new ≡ with_channels self.old (stored self.old.channels self.old.selected store) }
    {
        if let Some(store) = store {
            self.put_setpoint(self.selected, store.setpoint, store.value);
        }
    }

    // Feeds the teach: only a value is captured.
    fn feed(&mut self, reading: Reading<K>)
        ensures { self.new ≡ after_step self.old (heard K.meaning self.old reading) }
    {
        if let Reading::Value(v) = reading {
            let store = self.teach.feed(self.terms, v);
            self.store(store);
        }
    }

    // Judges every channel by its settings before the call, then feeds the teach. Answers the octet of signals.
    fn judge_and_feed(&mut self, reading: Reading<K>) -> u8
        ensures signals { result ≡ signals_octet (judged_table K.meaning reading self.old.channels) }
        ensures device { self.new ≡ done K.meaning self.old (samples reading (heard K.meaning self.old reading)) }
    {
        let signals = self.channels.judge(reading);
        self.feed(reading);
        signals
    }

    // Judges every channel by the reading, feeds the teach, and writes process data.
    pub(crate) fn sample(&mut self, reading: Reading<K>, out: &mut [u8]) -> Result<usize, Fault>
        ensures reply { let x = carried K.meaning self.old
            (sample_asked K.meaning self.old (Some reading) (length out.old)) in
            result ≡ counted (sample_written K.meaning self.old x) x }
        ensures device { self.new
            ≡ device_by K.meaning self.old
            (carried K.meaning self.old (sample_asked K.meaning self.old (Some reading) (length out.old))) }
        ensures buffer { out.new
            ≡ over (sample_written K.meaning self.old
            (carried K.meaning self.old (sample_asked K.meaning self.old (Some reading) (length out.old)))) out.old }
    {
        if out.len() < process_data_length::<K>() {
            return Err(Fault::of(Denial::BufferTooShort));
        }
        let scale = self.scale;
        let reading = reading.within(self.range);
        let signals = self.judge_and_feed(reading);
        reading
            .write_process_data(scale, signals, out)
            .ok_or(Fault::of(Denial::BufferTooShort))
    }
}
