// What a read shows of a channel.
ghost use Rattle.objects.specs.Reads.{part_read};
ghost use Rattle.octets.specs.Buffers.{fitting, placed};
ghost use Rattle.std.specs.Prelude.{◌≡◌, ◌++◌};

use super::part::Part;
use channels::Row;
use kinds::Kind;
use octets::put;

// Two values, one behind the other. Room is tested first, and the buffer not split by what each needs: without room for
// both nothing is written.
fn write_both<K: Kind>(a: K, b: K, out: &mut [u8]) -> Option<usize>
    ensures answer { result ≡ fitting (K.meaning.octets a ++ K.meaning.octets b) out.old }
    ensures buffer { out.new ≡ placed (K.meaning.octets a ++ K.meaning.octets b) out.old }
{
    let width = K::width();
    if out.len() < 2 * width {
        return None;
    }
    let _ = a.write(out);
    let _ = b.write(&mut out[width..]);
    Some(2 * width)
}

/// Writes the octets of a part of a channel to the front of `out`, and answers how many they are: 00 02 00 05 is a
/// configuration of logic 0, mode 2 and hysteresis 5. Without room it writes nothing and answers `None`.
pub fn read_part<K: Kind>(row: Row<K>, part: Part, out: &mut [u8]) -> Option<usize>
    ensures answer { result ≡ fitting (part_read K.meaning part row) out.old }
    ensures buffer { out.new ≡ placed (part_read K.meaning part row) out.old }
{
    let [high, low] = row.hysteresis.to_be_bytes();
    match part {
        Part::Setpoints => write_both(row.sp1, row.sp2, out),
        Part::Sp1 => row.sp1.write(out),
        Part::Sp2 => row.sp2.write(out),
        Part::Configuration => put(&[row.logic, row.mode, high, low], out),
        Part::Logic => put(&[row.logic], out),
        Part::Mode => put(&[row.mode], out),
        Part::Hysteresis => put(&[high, low], out),
    }
}
