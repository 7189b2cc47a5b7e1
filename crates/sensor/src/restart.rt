// The warm restart.
ghost use Rattle.sensor.specs.Answers.{plain};
ghost use Rattle.sensor.specs.Calls.{restart as restart_call};
ghost use Rattle.sensor.specs.Devices.{restarted};
ghost use Rattle.sensor.specs.Rules.{checked, next};
ghost use Rattle.std.specs.Prelude.{◌≡◌};

use super::device::Device;
use super::sensor::Sensor;
use faults::{Denial, Fault};
use kinds::Kind;

impl<K: Kind> Device<K> {
    fn restart(&mut self)
        ensures { self.new ≡ restarted self.old }
    {
        self.channels.make_inactive();
        self.select_channel(1);
    }
}

#[tactic(auto, unfolding(crate::specs::Rules::checked))]
impl<K: Kind> Sensor<K> {
    /// Makes every channel inactive, drops a teach that runs and selects channel 1; TeachResult is then 0. Settings,
    /// serial number, range, scale and an open keypad operation with its ticket stay.
    ///
    /// Denial 5 where the sensor is blank: nothing changes.
    pub fn warm_restart(&mut self) -> Result<(), Fault>
        ensures reply { result ≡ plain (checked K.meaning self.old restart_call) }
        ensures sensor { self.new ≡ next K.meaning self.old restart_call }
    {
        let device = self.device.as_mut().ok_or(Denial::Blank)?;
        device.restart();
        Ok(())
    }
}
