// The entries of a log.
use bench_sensor::Reply;
use channels::Row;

/// What a channel shows.
#[derive(Clone, Copy)]
pub struct Channel<K> {
    /// Its settings and its state.
    pub row: Row<K>,
    /// The state, inverted where logic is 1; false in mode 0.
    pub signal: bool,
}

/// A call's reply, and every channel after it.
#[derive(Drop)]
pub struct Entry<K> {
    /// The reply, with the octets that were written.
    pub reply: Reply<Vec<u8>>,
    /// The channels that are present, channel 1 first; none on a blank sensor.
    pub channels: Vec<Channel<K>>,
}
