// What `isdu` does with a vector.
ghost use Rattle.faults.specs.Denials.{entry};
ghost use Rattle.isdu.specs.Composing.{frame_of};
ghost use Rattle.isdu.specs.Views.{asks};
ghost use Rattle.std.specs.Prelude.{◌≡◌, true, OnOk};
ghost use Rattle.vectors.specs.Agreement.{Agrees, Composes, wanted};

use crate::lines::{Expected, Outcome, Vector};
use faults::{Denial, Fault};
use isdu::{Direction, Request};
use thiserror::Error;

/// What a vector's octets came to, as its line says.
#[derive(Clone, Copy)]
pub(crate) enum Seen {
    /// They were denied.
    Denied(Denial),
    /// They ask for a read or a write; `shorter`: its shortest frame has fewer octets.
    Asked { direction: Direction, shorter: bool },
}

/// What a call came to against its line.
#[derive(Clone, Copy, Debug, Error)]
pub(crate) enum Mismatch {
    /// A frame decoded that has to be denied.
    #[error("decoded")]
    Decoded,
    /// A call was denied that has to be accepted, or with another denial than its line has.
    #[error("denied {}", .0.number())]
    Denied(Denial),
    /// A frame decoded as another request.
    #[error("decoded as another request")]
    OtherRequest,
    /// The request that a frame decoded as could not be composed.
    #[error("composing denied {}", .0.number())]
    ComposeDenied(Denial),
    /// It composed as another frame than the shortest that the line has.
    #[error("composed as another frame")]
    OtherFrame,
    /// A sensor took a request that has to be denied.
    #[error("accepted")]
    Accepted,
    /// The response has another length or other octets, or what lies past it did not stay.
    #[error("another response")]
    OtherResponse,
}

fn replay_denied(fault: Fault, number: u8) -> Result<Seen, Mismatch>
    ensures { OnOk result ((entry fault.denial).number ≡ number) }
{
    if fault.denial.number() == number && fault == Fault::of(fault.denial) {
        Ok(Seen::Denied(fault.denial))
    } else {
        Err(Mismatch::Denied(fault.denial))
    }
}

impl<'a> From<&'a Expected> for Request<'a> {
    ghost from_gives = { λ expected request. asks request ≡ wanted expected.now };

    fn from(expected: &'a Expected) -> Request<'a> {
        Request {
            direction: expected.direction,
            index: expected.index,
            subindex: expected.subindex,
            data: expected.data.as_slice(),
        }
    }
}

// Composes a request, which has to give these octets, and answers how many they are.
fn recompose(request: &Request, octets: &[u8]) -> Result<usize, Mismatch>
    ensures { OnOk result (frame_of (asks request.now) ≡ octets.now) }
{
    // Room for the longest frame: `compose` fills a buffer that it is lent.
    let mut out = [0u8; 238];
    let n = isdu::compose(request, &mut out).map_err(|fault| Mismatch::ComposeDenied(
        fault.denial,
    ))?;
    if &out[0..n] != octets {
        return Err(Mismatch::OtherFrame);
    }
    Ok(n)
}

// Compares a decoded request, whose frame had this length, and composes it again.
fn replay_asked(request: &Request, expected: &Expected, length: usize) -> Result<Seen, Mismatch>
    ensures same { OnOk result (asks request.now ≡ wanted expected.now) }
    ensures composes { OnOk result (Composes expected.now) }
{
    if *request != Request::from(expected) {
        return Err(Mismatch::OtherRequest);
    }
    let n = recompose(request, expected.shortest.as_slice())?;
    Ok(Seen::Asked {
        direction: request.direction,
        shorter: n < length,
    })
}

/// Decodes a vector's octets and composes the request again. It finds no mismatch only where the rules agree with the
/// line.
pub(crate) fn replay(vector: &Vector) -> Result<Seen, Mismatch>
    ensures { OnOk result (Agrees vector.now) }
{
    let octets = vector.octets.as_slice();
    match (isdu::decode(octets), &vector.outcome) {
        (Err(fault), Outcome::Denied(number)) => replay_denied(fault, *number),
        (Ok(request), Outcome::Asks(expected)) => replay_asked(&request, expected, octets.len()),
        (Err(fault), _) => Err(Mismatch::Denied(fault.denial)),
        (Ok(_), _) => Err(Mismatch::Decoded),
    }
}
