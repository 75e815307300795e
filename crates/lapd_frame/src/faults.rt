//! Why octets are no frame.

use crate::addresses::Address;
use std::fmt;

/// Why octets spell no frame. `read` tests `Short` first, then the others in their order here.
#[derive(Clone, Copy, PartialEq, Eq, Debug)]
pub enum ReadFault {
    /// An extension bit is wrong: bit 1 of the first octet is not 0, or bit 1 of the second is not 1
    /// (Q.921 clauses 2.9 and 3.3.1).
    BadExtension,
    /// The control field is that of no frame, or a command's came as a response, or a response's as
    /// a command (clause 3.6.1; all three are one fault by our profile).
    Undefined(Address),
    /// The control field is defined, but frames of this kind have another length (clause 3.6.11).
    WrongSize(Address),
    /// Too few octets: fewer than 3, or 3 where the control field has two octets (clause 2.9).
    Short,
}

impl fmt::Display for ReadFault {
    ghost use Rattle.std.specs.Prelude.{Some};
    ghost use Rattle.lapd_frame.specs.Faults.{text_of};

    ghost output = { λ fault. Some (text_of fault) };

    fn fmt<W: fmt::Write>(&self, f: &mut fmt::Formatter<W>) -> fmt::Result {
        match self {
            ReadFault::BadExtension => f.write_str("bad extension"),
            ReadFault::Undefined(_) => f.write_str("undefined"),
            ReadFault::WrongSize(_) => f.write_str("wrong size"),
            ReadFault::Short => f.write_str("short"),
        }
    }
}

impl std::error::Error for ReadFault {}
