/// The range of a sensor, its ends included.
#[derive(Clone, Copy)]
pub struct Range<K> {
    /// The low end: no setpoint that is written is below it.
    pub low: K,
    /// The high end: no setpoint that is written is above it.
    pub high: K,
}
