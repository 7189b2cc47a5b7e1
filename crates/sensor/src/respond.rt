// How a device answers a request.
ghost use Rattle.faults.specs.Denials.{entry};
ghost use Rattle.isdu.specs.Replies.{read_reply};
ghost use Rattle.isdu.specs.Views.{asks};
ghost use Rattle.isdu.specs.Decoding.{decoded};
ghost use Rattle.objects.specs.Lent.{lent_result};
ghost use Rattle.objects.specs.Objects.{AccessHasRow, ShownHasRow, access_checked};
ghost use Rattle.octets.specs.Buffers.{over};
ghost use Rattle.sensor.specs.Answers.{ShowsOneToEight, counted};
ghost use Rattle.sensor.specs.Requests.{asked_of, negative, octets_shown, request_asked, response_room};
ghost use Rattle.sensor.specs.Rules.{carried, device_by, granted_by, request_written};
ghost use Rattle.std.specs.Prelude.{◌≡◌, ◌≤◌, length, IfOk, Ok, Err};

use super::device::Device;
use faults::{Denial, Fault};
use isdu::{Direction, Request, confirm_read, confirm_write, decode, refuse};
use kinds::Kind;
use objects::{Access, Shown, check_access, place_of};

// A response buffer has at least so many octets.
const RESPONSE_ROOM: usize = 16;

// Writes the negative response of a fault.
fn deny(fault: Fault, direction: Direction, out: &mut [u8]) -> Result<usize, Fault>
    requires { response_room ≤ length out.old }
    ensures reply { result ≡ Err fault }
    ensures buffer { out.new ≡ over (negative direction (entry fault.denial).code) out.old }
{
    if let Some(code) = fault.denial.error_code() {
        let _ = refuse(direction, code, out);
    }
    Err(fault)
}

impl<K: Kind> Device<K> {
    // What a request asks for: the checks 11 to 16. The channel of what is read or written has its row: said in
    // clauses, as it is of access and table together.
    fn access<'a>(&self, request: &Request<'a>) -> Result<Access<&'a [u8]>, Fault>
        ensures access { lent_result result
            ≡ access_checked K.meaning self.now.channels self.now.keypad.is_open (asks request.now) }
        ensures row { IfOk result (AccessHasRow self.now.channels) }
    {
        check_access(&self.channels, self.keypad.is_open(), request)
    }

    // The positive response to a read. The octets are written where they stay, behind the heading.
    fn show(&self, shown: Shown, out: &mut [u8]) -> Result<usize, Fault>
        requires row { ShownHasRow self.now.channels shown }
        requires room { response_room ≤ length out.old }
        ensures reply { result ≡ Ok (length (read_reply (octets_shown K.meaning self.now shown))) }
        ensures buffer { out.new ≡ over (read_reply (octets_shown K.meaning self.now shown)) out.old }
    {
        let n = self.read(shown, &mut out[1..]).unwrap();
        confirm_read(n, out)
    }

    // Does what a request asks for: the checks 11 to 21, then the read or the write, and the positive response. A fault
    // comes up by `?`, with nothing changed or written.
    fn grant(&mut self, request: &Request, out: &mut [u8]) -> Result<usize, Fault>
        requires { response_room ≤ length out.old }
        ensures reply { let x = carried K.meaning self.old (asked_of K.meaning self.old (asks request.now)) in
            result ≡ counted (granted_by x) x }
        ensures device { self.new
            ≡ device_by K.meaning self.old
            (carried K.meaning self.old (asked_of K.meaning self.old (asks request.now))) }
        ensures buffer { out.new
            ≡ over (granted_by (carried K.meaning self.old (asked_of K.meaning self.old (asks request.now))))
            out.old }
        ensures shown { IfOk (carried K.meaning self.old (asked_of K.meaning self.old (asks request.now)))
            ShowsOneToEight }
    {
        match self.access(request)? {
            Access::Read(shown) => self.show(shown, out),
            Access::Write(written) => {
                self.write(written, place_of(request))?;
                confirm_write(out)
            }
        }
    }

    // Takes a request. A frame that is no request is denied with nothing written; every later fault has its negative
    // response, which is written here alone.
    pub(crate) fn request(&mut self, frame: &[u8], out: &mut [u8]) -> Result<usize, Fault>
        ensures reply { let x = carried K.meaning self.old
            (request_asked K.meaning self.old frame.now (length out.old)) in
            result ≡ counted (request_written (decoded frame.now) x) x }
        ensures device { self.new
            ≡ device_by K.meaning self.old
            (carried K.meaning self.old (request_asked K.meaning self.old frame.now (length out.old))) }
        ensures buffer { out.new
            ≡ over (request_written (decoded frame.now)
            (carried K.meaning self.old (request_asked K.meaning self.old frame.now (length out.old)))) out.old }
        ensures shown { IfOk (carried K.meaning self.old (request_asked K.meaning self.old frame.now (length out.old)))
            ShowsOneToEight }
    {
        if out.len() < RESPONSE_ROOM {
            return Err(Fault::of(Denial::ResponseBuffer));
        }
        let request = decode(frame)?;
        match self.grant(&request, out) {
            Ok(n) => Ok(n),
            Err(fault) => deny(fault, request.direction, out),
        }
    }
}
