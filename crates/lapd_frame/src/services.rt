//! The two services that a terminal's links carry.

ghost use Rattle.std.specs.Prelude.{◌≡◌};
ghost use Rattle.lapd_frame.specs.Services.{sapi_of, service_of};

/// Whose frames a link carries: each TEI on a line has one link of each service (Q.921 clause
/// 3.3.3, table 2).
#[derive(Clone, Copy, PartialEq, Eq, Debug)]
pub enum Service {
    /// SAPI 0: call control.
    Call,
    /// The second service: SAPI 16, packet mode by X.25 layer 3, unless a card has another SAPI for it.
    Packet,
}

impl Service {
    /// The SAPI that a service has unless a card has another for it: 0, or 16 for the second service. So it is its number, too.
    pub fn usual_sapi(self) -> u8
        ensures { result ≡ sapi_of self }
    {
        match self {
            Service::Call => 0,
            Service::Packet => 16,
        }
    }

    /// The service with this number, 0 or 16; `None` for any other.
    pub fn with_sapi(sapi: u8) -> Option<Service>
        ensures { result ≡ service_of sapi }
    {
        match sapi {
            0 => Some(Service::Call),
            16 => Some(Service::Packet),
            _ => None,
        }
    }
}
