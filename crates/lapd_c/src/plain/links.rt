//! The links of a line, in order.

ghost use Rattle.std.specs.Prelude.{◌≡◌};
ghost use Rattle.lapd_c.specs.LinkPlaces.{plain_link, service_at};

use lapd_frame::Service;

/// How many places for links a line has: two for each TEI of a terminal, 0 to 126 (Q.921 clause 3.3.4).
pub const LINK_PLACES: u8 = 254;

/// A link of a line, with its state.
#[repr(C)]
#[derive(Clone, Copy)]
pub struct PlainLink {
    /// 0 or 16.
    pub service: u8,
    /// 0 to 126.
    pub tei: u8,
    /// Its number in Q.921: 4 to 8.
    pub state: u8,
    /// For a later version: 0.
    pub reserved: [u8; 5],
}

impl PlainLink {
    /// The link of a place, in this state.
    pub fn of(place: u8, state: u8) -> PlainLink
        ensures { result ≡ plain_link place state }
    {
        PlainLink {
            service: service_at(place).usual_sapi(),
            tei: place / 2,
            state,
            reserved: [0; 5],
        }
    }
}

/// Whose link has this place: call control's, then packet's of each TEI.
pub fn service_at(place: u8) -> Service
    ensures { result ≡ service_at place }
{
    if place % 2 == 0 {
        Service::Call
    } else {
        Service::Packet
    }
}
