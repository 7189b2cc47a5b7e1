// From octets to a request.
ghost use Rattle.std.specs.Prelude.{◌≡◌, ◌+◌, ◌/◌, ◌%◌, cond, [], ◌∷◌, ◌++◌, length, Some, None, option_map, nat_eq};
ghost use Rattle.std.specs.Option.{option_eq};
ghost use Rattle.isdu.specs.Addresses.{address_of};
ghost use Rattle.isdu.specs.Decoding.{asked_with, decoded, has_second, past_length, request_of, stated_length};
ghost use Rattle.isdu.specs.Layout.{Judged};
ghost use Rattle.isdu.specs.Promises.{Recomposes};
ghost use Rattle.isdu.specs.Services.{service_of};
ghost use Rattle.isdu.specs.Views.{asks, told};

use crate::Request;
use crate::checks::has_check;
use crate::lengths::{LEAST_IN_OCTET, MOST_IN_OCTET};
use crate::services::{Addressing, Service, fits_service};
use faults::{Denial, Fault};

// The request of a service whose index, subindex and data the octets give, unless they are too few.
fn request_with<'a>(service: Service, body: &'a [u8]) -> Option<Request<'a>>
    ensures { option_map asks result
        ≡ option_map (asked_with service.direction) (address_of service.addressing body.now) }
{
    let (index, subindex, data) = match (service.addressing, body) {
        (Addressing::Index8, [index, data @ ..]) => (u16::from(*index), 0, data),
        (Addressing::Index8Sub, [index, subindex, data @ ..]) => {
            (u16::from(*index), *subindex, data)
        }
        (Addressing::Index16Sub, [high, low, subindex, data @ ..]) => {
            (u16::from_be_bytes([*high, *low]), *subindex, data)
        }
        _ => return None,
    };
    Some(Request {
        direction: service.direction,
        index,
        subindex,
        data,
    })
}

// The request of a service whose fields are the octets between length and check octet.
fn request_of<'a>(digit: u8, second: bool, body: &'a [u8]) -> Result<Request<'a>, Fault>
    ensures { told result ≡ request_of (service_of digit) second body.now }
{
    let service = Service::try_from(digit)?;
    let request = request_with(service, body).ok_or(Denial::Service)?;
    if !fits_service(request.direction, second, request.data) {
        return Err(Fault::of(Denial::Service));
    }
    Ok(request)
}

// The octets between length and check octet, of those between first and last octet: none if the frame states another
// length than its own. The first octet decides both, so they are told together.
fn body_of<'a>(first: u8, inner: &'a [u8]) -> Option<&'a [u8]>
    ensures { option_map (λ b. b.now) result
        ≡ cond (option_eq nat_eq (stated_length first inner.now) (Some (length inner.now + 2)))
        (Some (past_length (has_second first) inner.now)) None }
{
    let n = inner.len() + 2;
    match (first % 16, inner) {
        (1, [total @ LEAST_IN_OCTET..=MOST_IN_OCTET, body @ ..]) if usize::from(*total) == n =>
            Some(body),
        (1, _) => None,
        (digit, _) if usize::from(digit) == n => Some(inner),
        _ => None,
    }
}

// The request of a frame of two octets or more. It is denied for its length, then for its check octet, then for its
// service.
fn request_in<'a>(first: u8, inner: &'a [u8], last: u8) -> Result<Request<'a>, Fault>
    ensures { told result ≡ decoded (first ∷ inner.now ++ last ∷ []) }
{
    let body = body_of(first, inner).ok_or(Denial::FrameLength)?;
    if !has_check(first, inner, last) {
        return Err(Fault::of(Denial::CheckOctet));
    }
    request_of(first / 16, first % 16 == 1, body)
}

/// The request that a frame asks for (docs/RULES.md, "8. ISDU frames", "Decode"): 93 3B A8 is a read of index 59. A
/// frame that is not the shortest of its request is taken.
///
/// Denials, in this order: 8 where the frame states another length than its own, or none; 9 where the exclusive-or of
/// its octets is not 0; 10 where its service is none of a request, or does not fit address and data.
pub fn decode<'a>(frame: &'a [u8]) -> Result<Request<'a>, Fault>
    ensures value { told result ≡ decoded frame.now }
    ensures judged { Judged (told result) frame.now }
    ensures recomposes { Recomposes (told result) (length frame.now) }
{
    // No frame has under two octets.
    match frame {
        [first, inner @ .., last] => request_in(*first, inner, *last),
        _ => Err(Fault::of(Denial::FrameLength)),
    }
}
