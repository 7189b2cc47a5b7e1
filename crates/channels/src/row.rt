ghost use Rattle.channels.specs.Judging.{activates, deactivates, higher_setpoint, judged, lower_setpoint};
ghost use Rattle.channels.specs.Judging.{signal as signal_of};
ghost use Rattle.std.specs.Prelude.{◌≡◌};

use super::reading::Reading;
use kinds::Kind;

/// One channel: its settings and its state.
// Logic and mode are plain codes (docs/DECISIONS.md, "Fixed forms").
#[derive(Clone, Copy)]
pub struct Row<K> {
    /// In steps.
    pub hysteresis: u16,
    /// 0 or 1: whether the signal is inverted.
    pub logic: u8,
    /// 0 Deactivated, 1 Single Point, 2 Window, 3 Two Point.
    pub mode: u8,
    /// The state, active or inactive; logic does not invert it.
    pub active: bool,
    /// The first setpoint. It may be above the second.
    pub sp1: K,
    /// The second setpoint. Only Window and Two Point look at it.
    pub sp2: K,
}

impl<K: Kind> Row<K> {
    fn lower_setpoint(&self) -> K
        ensures { result ≡ lower_setpoint K.meaning self.now }
    {
        self.sp1.lesser(self.sp2)
    }

    fn higher_setpoint(&self) -> K
        ensures { result ≡ higher_setpoint K.meaning self.now }
    {
        self.sp1.greater(self.sp2)
    }

    fn activates(&self, v: K) -> bool
        ensures { result ≡ activates K.meaning self.now v }
    {
        match self.mode {
            0 => false,
            1 => self.sp1.at_most(v),
            2 => self.lower_setpoint().at_most(v) && v.at_most(self.higher_setpoint()),
            _ => self.higher_setpoint().at_most(v),
        }
    }

    fn deactivates(&self, v: K) -> bool
        ensures { result ≡ deactivates K.meaning self.now v }
    {
        match self.mode {
            0 => true,
            1 => v.is_under(self.sp1.lower(self.hysteresis)),
            2 => {
                v.is_under(self.lower_setpoint().lower(self.hysteresis))
                    || self.higher_setpoint().raise(self.hysteresis).is_under(v)
            }
            _ => v.at_most(self.lower_setpoint()) && v.is_under(self.higher_setpoint()),
        }
    }

    /// Judges the channel by a reading that the range has counted. Only a value can change its state; its settings
    /// stay.
    pub fn judge(&mut self, reading: Reading<K>)
        ensures { self.new ≡ judged K.meaning reading self.old }
    {
        if let Reading::Value(v) = reading {
            if self.activates(v) {
                self.active = true;
            } else if self.deactivates(v) {
                self.active = false;
            }
        }
    }

    /// The signal: the state, inverted by logic 1; in Deactivated it is 0 under either logic.
    pub fn signal(&self) -> bool
        ensures { result ≡ signal_of self.now }
    {
        if self.mode == 0 {
            false
        } else if self.logic == 1 {
            !self.active
        } else {
            self.active
        }
    }
}
