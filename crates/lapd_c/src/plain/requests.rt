//! What is asked of a line.

ghost use Rattle.std.specs.Prelude.{◌≡◌, ◌<◌, IfErr};
ghost use Rattle.lapd_c.specs.Requests.{request_in, read_of};

use crate::plain::statuses::{WRONG_LENGTH, WRONG_REQUEST, service_in};
use model_line::Request;

/// The number of the request to send contents on a link.
pub const DATA: u8 = 3;

/// The request of a number, with the service by its SAPI.
///
/// # Errors
///
/// `WRONG_REQUEST` if the number is that of no request; otherwise `WRONG_SERVICE`; otherwise `WRONG_LENGTH` if
/// there are contents and the request has none.
pub fn request_in(request: u8, service: u8, tei: u8, contents: &[u8]) -> Result<Request<'_>, u32>
    ensures read { read_of result ≡ request_in request service tei contents.now }
    ensures wrong { IfErr result (λ wrong. 10 < wrong) }
{
    if request == 0 || request > 14 {
        return Err(WRONG_REQUEST);
    }
    let service = service_in(service)?;
    match request {
        DATA => return Ok(Request::Data(service, tei, contents)),
        4 => return Ok(Request::Unit(service, tei, contents)),
        _ => {}
    }
    if !contents.is_empty() {
        return Err(WRONG_LENGTH);
    }
    Ok(match request {
        1 => Request::Establish(service, tei),
        2 => Request::Release(service, tei),
        5 => Request::Assign(tei),
        6 => Request::Remove(tei),
        7 => Request::Check(tei),
        8 => Request::SetBusy(service, tei),
        9 => Request::ClearBusy(service, tei),
        10 => Request::Deactivate(service, tei),
        11 => Request::Down,
        12 => Request::Disown(tei),
        13 => Request::AskTei,
        _ => Request::VerifyTei(tei),
    })
}
