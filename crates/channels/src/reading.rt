ghost use Rattle.channels.specs.Readings.{process_data, process_data_length, within, reading_octets};
ghost use Rattle.octets.specs.Buffers.{fitting, placed};
ghost use Rattle.std.specs.Prelude.{◌≡◌};

use super::range::Range;
use kinds::Kind;
use octets::put;

/// A reading of the sensor: a value, or why there is none.
// No `Result`: Below and Above are readings too and are shown, and no call fails by them.
#[derive(Clone, Copy)]
pub enum Reading<T> {
    /// A value, which may be outside the range until `within` has counted it.
    Value(T),
    /// Below the range.
    Below,
    /// Above the range.
    Above,
    /// Nothing was measured.
    NoData,
}

/// How many octets process data has: two more than a value, so 4 for IntegerT16, and 6 for IntegerT32 and Float32T.
pub fn process_data_length<K: Kind>() -> usize
    ensures { result ≡ process_data_length {V = K} K.meaning }
{
    K::width() + 2
}

impl<K: Kind> Reading<K> {
    /// The reading as the range counts it: a value below the low end is Below, one above the high end is Above. The
    /// ends are in the range.
    pub fn within(self, range: Range<K>) -> Reading<K>
        ensures { result ≡ within K.meaning range.low range.high self }
    {
        match self {
            Reading::Value(v) if v.is_under(range.low) => Reading::Below,
            Reading::Value(v) if range.high.is_under(v) => Reading::Above,
            reading => reading,
        }
    }

    // Writes the octets of the value, or its substitute.
    fn write(self, out: &mut [u8]) -> Option<usize>
        ensures answer { result ≡ fitting (reading_octets K.meaning self) out.old }
        ensures buffer { out.new ≡ placed (reading_octets K.meaning self) out.old }
    {
        match self {
            Reading::Value(v) => v.write(out),
            Reading::Below => put(K::below_substitute(), out),
            Reading::Above => put(K::above_substitute(), out),
            Reading::NoData => put(K::no_data_substitute(), out),
        }
    }

    /// Writes process data over the front of `out` and answers how many octets it has: those of the value or its
    /// substitute, the scale octet, the octet of signals. NoData of IntegerT16 with scale -1 and signals 0 is
    /// 7F FC FF 00. Without room it writes nothing and answers `None`.
    pub fn write_process_data(self, scale: u8, signals: u8, out: &mut [u8]) -> Option<usize>
        ensures answer { result ≡ fitting (process_data K.meaning self scale signals) out.old }
        ensures buffer { out.new ≡ placed (process_data K.meaning self scale signals) out.old }
    {
        let width = K::width();
        // Room is tested first, as without room nothing is written.
        if out.len() < process_data_length::<K>() {
            return None;
        }
        let _ = self.write(out);
        out[width] = scale;
        out[width + 1] = signals;
        Some(width + 2)
    }
}
