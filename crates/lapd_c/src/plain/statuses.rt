//! What a call answers, as a number.

ghost use Rattle.std.specs.Prelude.{◌≡◌, ◌<◌, IfErr};
ghost use Rattle.lapd_c.specs.{refusal_status, fault_status, field_status, service_in};

use lapd_frame::{ReadFault, Refusal, Service};
use model_line::Field;

/// The call did what it says.
pub const OK: u32 = 0;
/// The TEI is not on the line.
pub const REFUSED_NO_LINK: u32 = 2;
/// A request was refused because the queue was full.
pub const REFUSED_QUEUE_FULL: u32 = 5;
/// No card is there: it was not started, or was freed.
pub const NO_CARD: u32 = 11;
/// No clock is there.
pub const NO_CLOCK: u32 = 12;
/// A card or a clock is there already.
pub const SECOND_START: u32 = 13;
/// The card, or the clock, has no such line.
pub const WRONG_LINE: u32 = 14;
/// Not the number of a service.
pub const WRONG_SERVICE: u32 = 15;
/// A TEI over 126.
pub const WRONG_TEI: u32 = 16;
/// Not the number of a timer.
pub const WRONG_TIMER: u32 = 17;
/// Not the number of a request.
pub const WRONG_REQUEST: u32 = 18;
/// Contents of a request that has none; an exchange of two lengths, or beyond them; or too little room for a frame or an image.
pub const WRONG_LENGTH: u32 = 19;
/// An order is none, or a report's number of orders is over 4.
pub const WRONG_ORDER: u32 = 20;
/// A moment after the latest one.
pub const WRONG_TIME: u32 = 21;
/// Memory was refused.
pub const NO_MEMORY: u32 = 22;
/// No timer is due, or none runs.
pub const NO_TIMER: u32 = 23;
/// The clock's line has no place for one more timer.
pub const NO_PLACE: u32 = 24;
/// The line has no link from that place on.
pub const NO_MORE_LINKS: u32 = 25;
/// A call for octets on a card of frames, or one for frames on a card of octets.
pub const WRONG_CARD: u32 = 26;
/// Not the number of a cause that a controller tells.
pub const WRONG_CAUSE: u32 = 27;
/// No frame of the line waits to be sent.
pub const NO_FRAME: u32 = 28;

/// A side that is none of 0, 1 and 2: of a start whose configuration has all else in range, and of a frame's text.
pub const BAD_SIDE: u32 = 43;
/// The SAPI of the second service is out of range.
pub const BAD_SAPI: u32 = 44;
/// A reading of the tables that is neither 0 nor 1: of a start whose configuration has all else in range.
pub const BAD_READING: u32 = 45;
/// Not an image, or of no state that a card or a clock can have.
pub const BAD_IMAGE: u32 = 46;
/// What a struct has for a later version is not 0: of a start or of lengths whose fields are in range.
pub const BAD_RESERVED: u32 = 47;

/// The status of a request that was refused: 1 to 10, or 29.
pub fn refusal_status(why: Refusal) -> u32
    ensures { result ≡ refusal_status why }
{
    match why {
        Refusal::WrongSide => 29,
        _ => why as u32,
    }
}

/// The status of octets that are no frame: 48 to 51.
pub fn fault_status(fault: ReadFault) -> u32
    ensures status { result ≡ fault_status fault }
    ensures wrong { 10 < result }
{
    match fault {
        ReadFault::Short => 48,
        ReadFault::BadExtension => 49,
        ReadFault::Undefined(_) => 50,
        ReadFault::WrongSize(_) => 51,
    }
}

/// The status of a start whose configuration has this field out of range, as the first: 33 to 42, or [`BAD_SAPI`].
pub fn field_status(field: Field) -> u32
    ensures status { result ≡ field_status field }
    ensures wrong { 10 < result }
{
    match field {
        Field::Sapi => BAD_SAPI,
        _ => 33 + field as u32,
    }
}

/// The service of a number: its SAPI.
///
/// # Errors
///
/// [`WRONG_SERVICE`] if it is neither 0 nor 16.
#[inline(always)]
pub fn service_in(service: u8) -> Result<Service, u32>
    ensures service { result ≡ service_in service }
    ensures wrong { IfErr result (λ wrong. 10 < wrong) }
{
    Service::with_sapi(service).ok_or(WRONG_SERVICE)
}
