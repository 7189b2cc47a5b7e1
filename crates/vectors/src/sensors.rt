use crate::answers::{Answer, ask};
use crate::replays::Mismatch;
use bench_sensor::lend_setup;
use faults::{Denial, Fault};
use kinds::{Float32T, IntegerT16, IntegerT32};
use sensor::{Sensor, Setup};
use words::KindName;

/// A sensor of a kind that a line names.
#[derive(Drop)]
pub(crate) enum AnySensor {
    Int16(Sensor<IntegerT16>),
    Int32(Sensor<IntegerT32>),
    Float32(Sensor<Float32T>),
}

impl AnySensor {
    /// A sensor of this kind that is not set up.
    pub(crate) const fn blank(kind: KindName) -> AnySensor {
        match kind {
            KindName::Int16 => AnySensor::Int16(Sensor::blank()),
            KindName::Int32 => AnySensor::Int32(Sensor::blank()),
            KindName::Float32 => AnySensor::Float32(Sensor::blank()),
        }
    }

    /// Sets the sensor up, as `Sensor::set_up`.
    pub(crate) fn set_up(&mut self, setup: &Setup<Vec<u8>>) -> Result<(), Fault> {
        let setup = lend_setup(setup);
        match self {
            AnySensor::Int16(sensor) => sensor.set_up(&setup),
            AnySensor::Int32(sensor) => sensor.set_up(&setup),
            AnySensor::Float32(sensor) => sensor.set_up(&setup),
        }
    }

    /// Hands a frame to the sensor, as `answers::ask`.
    pub(crate) fn ask(
        &mut self,
        frame: &[u8],
        answer: &Answer,
    ) -> Result<Option<Denial>, Mismatch> {
        match self {
            AnySensor::Int16(sensor) => ask(sensor, frame, answer),
            AnySensor::Int32(sensor) => ask(sensor, frame, answer),
            AnySensor::Float32(sensor) => ask(sensor, frame, answer),
        }
    }
}
