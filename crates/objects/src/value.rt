// Values of a write: what they are checked for, and the row that they give.
ghost use Rattle.objects.specs.Lent.{lent_content};
ghost use Rattle.objects.specs.Writes.{code_checked, last_logic, last_mode, row_by, setpoint_checked, settings_checked};
ghost use Rattle.std.specs.Prelude.{◌≡◌};

use super::access::Content;
use super::part::Part;
use channels::{Range, Row};
use faults::{Denial, Fault, Place};
use kinds::Kind;

// The last code of logic, and of mode.
const LAST_LOGIC: u8 = 1;

const LAST_MODE: u8 = 3;

fn check_code(code: u8, last: u8, place: Place) -> Result<u8, Fault>
    ensures { result ≡ code_checked place last code }
{
    if code > last {
        return Err(Fault::at(Denial::NoValue, place));
    }
    Ok(code)
}

/// The setpoint of the octets. Denials, in this order and at the place handed in: 17 where they are no value of the
/// kind, 18 where it is above the range, 19 where it is below. An end of the range is taken.
pub fn check_setpoint<K: Kind>(octets: &[u8], range: Range<K>, place: Place) -> Result<K, Fault>
    ensures { result ≡ setpoint_checked K.meaning range place octets.now }
{
    let v = K::read(octets).ok_or(Fault::at(Denial::NoValue, place))?;
    if range.high.is_under(v) {
        return Err(Fault::at(Denial::AboveRange, place));
    }
    if v.is_under(range.low) {
        return Err(Fault::at(Denial::BelowRange, place));
    }
    Ok(v)
}

/// The row with what a write brings; its other settings and its state stay. `index` is that of the object.
///
/// Each part is checked before the next, and a denial is at the part's own subindex: 17 where a setpoint's octets are
/// no value of the kind, logic is over 1 or mode over 3; 18 where a setpoint is above the range; 19 where it is below.
pub fn write_content<K: Kind>(
    row: &Row<K>,
    content: Content<&[u8]>,
    range: Range<K>,
    index: u16,
) -> Result<Row<K>, Fault>
    ensures { result ≡ row_by row.now (settings_checked K.meaning range index (lent_content content.entry)) }
{
    match content {
        Content::Setpoints(sp1, sp2) => {
            let sp1 = check_setpoint(sp1, range, Part::Sp1.place(index))?;
            let sp2 = check_setpoint(sp2, range, Part::Sp2.place(index))?;
            Ok(Row { sp1, sp2, ..*row })
        }
        Content::Sp1(octets) => {
            let sp1 = check_setpoint(octets, range, Part::Sp1.place(index))?;
            Ok(Row { sp1, ..*row })
        }
        Content::Sp2(octets) => {
            let sp2 = check_setpoint(octets, range, Part::Sp2.place(index))?;
            Ok(Row { sp2, ..*row })
        }
        Content::Configuration(logic, mode, hysteresis) => {
            let logic = check_code(logic, LAST_LOGIC, Part::Logic.place(index))?;
            let mode = check_code(mode, LAST_MODE, Part::Mode.place(index))?;
            Ok(Row {
                logic,
                mode,
                hysteresis,
                ..*row
            })
        }
        Content::Logic(code) => {
            let logic = check_code(code, LAST_LOGIC, Part::Logic.place(index))?;
            Ok(Row { logic, ..*row })
        }
        Content::Mode(code) => {
            let mode = check_code(code, LAST_MODE, Part::Mode.place(index))?;
            Ok(Row { mode, ..*row })
        }
        Content::Hysteresis(hysteresis) => Ok(Row { hysteresis, ..*row }),
    }
}
