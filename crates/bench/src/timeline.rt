//! The signals of each channel over the accepted samples of a day.
use bench_sensor::{Call, Reply};
use days::Channel;
use kinds::Kind;
use std::alloc::{AllocError, Global};
use std::fmt;

/// The accepted samples of a day.
#[derive(Drop)]
pub(crate) struct Timeline {
    // The signals after each sample, channel 1 first.
    samples: Vec<[bool; 8]>,
    // How many channels the sensor has; within a day this does not change.
    channels: usize,
}

impl Timeline {
    /// A day without a sample.
    pub(crate) fn new(heap: Global) -> Timeline {
        Timeline {
            samples: Vec::new(heap),
            channels: 0,
        }
    }

    /// Begins a new day.
    pub(crate) fn clear(&mut self) {
        self.samples.clear();
    }

    /// Takes the channels after a call, if it is an accepted sample. An error is want of memory.
    pub(crate) fn take<K: Kind>(
        &mut self,
        call: &Call<Vec<u8>>,
        reply: &Reply<Vec<u8>>,
        channels: &[Channel<K>],
    ) -> Result<(), AllocError> {
        if let (Call::Sample(_), Reply::Accepted(_)) = (call, reply) {
            let mut signals = [false; 8];
            for (signal, channel) in signals.iter_mut().zip(channels) {
                *signal = channel.signal;
            }
            self.samples.push(signals)?;
            self.channels = channels.len();
        }
        Ok(())
    }

    /// How many samples it has.
    pub(crate) fn samples(&self) -> usize {
        self.samples.len()
    }

    /// How many channels the sensor has.
    pub(crate) fn channels(&self) -> usize {
        self.channels
    }

    /// The signals of a channel, counted from 0.
    pub(crate) fn signals(&self, channel: usize) -> Signals<'_> {
        Signals {
            samples: self.samples.as_slice(),
            channel,
        }
    }
}

/// The signals of one channel: `#` for 1 and `_` for 0.
#[derive(Clone, Copy)]
pub(crate) struct Signals<'a> {
    samples: &'a [[bool; 8]],
    channel: usize,
}

impl fmt::Display for Signals<'_> {
    fn fmt<W: fmt::Write>(&self, f: &mut fmt::Formatter<W>) -> fmt::Result {
        for signals in self.samples {
            let on = signals.get(self.channel).copied().unwrap_or(false);
            write!(f, "{}", if on { '#' } else { '_' })?;
        }
        Ok(())
    }
}
