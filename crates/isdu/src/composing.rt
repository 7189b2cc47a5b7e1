// From a request to octets.
ghost use Rattle.std.specs.Prelude.{◌≡◌, ◌<◌, ◌≤◌, length, IfOk};
ghost use Rattle.isdu.specs.Composing.{composed, delivered, frame_of};
ghost use Rattle.isdu.specs.Promises.{ReadsBack, Shortest};
ghost use Rattle.isdu.specs.Views.{asks};
ghost use Rattle.octets.specs.Buffers.{left};

use crate::Request;
use crate::services::{Addressing, Digit, Service, fits_service, shortest};
use crate::writing::send;
use faults::{Denial, Fault};

// Writes the shortest frame of a request whose data fits its service.
fn send_request(request: &Request, out: &mut [u8]) -> Result<usize, Fault>
    ensures answer { result ≡ delivered (length (frame_of (asks request.now))) (length out.old) }
    ensures buffer { out.new ≡ left result (frame_of (asks request.now)) out.old }
    ensures index { request.now.index < 65536 }
{
    let addressing = shortest(request.index, request.subindex);
    let digit = Digit::from(Service {
        direction: request.direction,
        addressing,
    });
    let subindex = request.subindex;
    let data = request.data;
    let [high, low] = request.index.to_be_bytes();
    match addressing {
        Addressing::Index8 => send(digit, &[low], data, out),
        Addressing::Index8Sub => send(digit, &[low, subindex], data, out),
        Addressing::Index16Sub => send(digit, &[high, low, subindex], data, out),
    }
}

/// Writes the shortest frame of a request over the front of the buffer and answers its length in octets (docs/RULES.md,
/// "8. ISDU frames", "Compose"). Octets past the frame stay. A read of index 59 is 93 3B A8.
///
/// Denials: 27 for a write without data, a read with data, or a frame of over 238 octets; then 6 where the buffer is
/// shorter than the frame.
pub fn compose(request: &Request, out: &mut [u8]) -> Result<usize, Fault>
    ensures answer { result ≡ composed (asks request.now) (length out.old) }
    ensures buffer { out.new ≡ left result (frame_of (asks request.now)) out.old }
    ensures within { IfOk result (λ n. n ≤ length out.new) }
    ensures reads_back { ReadsBack (asks request.now) result out.new }
    ensures shortest { Shortest (asks request.now) result }
{
    if !fits_service(request.direction, false, request.data) {
        return Err(Fault::of(Denial::NoFrame));
    }
    send_request(request, out)
}
