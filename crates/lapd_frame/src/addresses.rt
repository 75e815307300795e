//! Who sent a frame, and whom it is about.

ghost use Rattle.std.specs.Prelude.{◌≡◌, ◌<◌, true};
ghost use Rattle.lapd_frame.specs.{cr_bit, address_field, other_side, address_of};

/// The SAPI of layer 2 management (Q.921 clause 3.3.3).
pub const MANAGEMENT: u8 = 63;

/// The greatest TEI of a terminal (Q.921 clause 3.3.4).
pub const LAST_TEI: u8 = 126;

/// The TEI of the group, which is all terminals of a line (Q.921 clause 3.3.4).
pub const GROUP: u8 = 127;

/// A side of a line, which is who sent a frame.
#[derive(Clone, Copy, PartialEq, Eq, Debug)]
pub enum Side {
    /// The terminal, or a private exchange on a trunk.
    User,
    /// The exchange.
    Network,
}

/// The address of a frame (Q.921 clauses 2.3 and 3.3).
#[derive(Clone, Copy, PartialEq, Eq, Debug)]
pub struct Address {
    /// The service access point identifier, 0 to 63: 0 is call control, 16 packet mode, 63 layer 2
    /// management (clause 3.3.3).
    pub sapi: u8,
    /// Whether the frame is a command; otherwise it is a response (clause 3.3.2).
    pub command: bool,
    /// The terminal endpoint identifier, 0 to 127: 0 to 63 is chosen by the user, 64 to 126 by the
    /// network, 127 is the group of all terminals (clause 3.3.4).
    pub tei: u8,
}

impl Side {
    /// The side that hears what this one sends, and whose frames this one hears.
    pub fn other(self) -> Side
        ensures { result ≡ other_side self }
    {
        match self {
            Side::User => Side::Network,
            Side::Network => Side::User,
        }
    }

    /// The C/R bit of this side's commands (Q.921 clause 3.3.2); its responses have the other.
    pub fn command_bit(self) -> u8
        ensures value { result ≡ cr_bit self true }
        ensures bound { result < 2 }
    {
        match self {
            Side::User => 0,
            Side::Network => 1,
        }
    }
}

impl Address {
    // The address that two octets are.
    pub(crate) fn of(side: Side, first: u8, second: u8) -> Self
        ensures { result ≡ address_of side first second }
    {
        Address {
            sapi: first / 4,
            command: first / 2 % 2 == side.command_bit(),
            tei: second / 2,
        }
    }

    // The two octets that are this address.
    pub(crate) fn octets(&self, side: Side) -> [u8; 2]
        requires sapi { self.now.sapi < 64 }
        requires tei { self.now.tei < 128 }
        ensures { result ≡ address_field side self.now }
    {
        let command_bit = side.command_bit();
        let cr_bit = if self.command {
            command_bit
        } else {
            1 - command_bit
        };
        [4 * self.sapi + 2 * cr_bit, 2 * self.tei + 1]
    }
}
