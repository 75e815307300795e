//! Notes for layer 3 and management, and why something was dropped.

ghost use Rattle.std.specs.Prelude.{◌≡◌};
ghost use Rattle.lapd_c.specs.Notes.{plain_note, cause_number, of_link};

use lapd_frame::{GROUP, Note, Service};
use model_bits::Cause;

/// A note, by its number. That of a link names its service by its SAPI, and its TEI; that of an error has its letter.
#[repr(C)]
#[derive(Clone, Copy)]
pub struct PlainNote {
    /// 1 to 14, as `include/lapd.h` has them by name.
    pub note: u8,
    /// 0 or 16; 0 where the note is of both services.
    pub service: u8,
    /// The TEI that it is about; 127 if it names none.
    pub tei: u8,
    /// The letter of an error, in ASCII; otherwise 0.
    pub error: u8,
    /// For a later version: 0.
    pub reserved: [u8; 4],
}

impl PlainNote {
    /// A note in C.
    pub fn of(note: Note) -> PlainNote
        ensures { result ≡ plain_note note }
    {
        match note {
            Note::EstablishIndication(service, tei) => of_link(1, service, tei),
            Note::EstablishConfirm(service, tei) => of_link(2, service, tei),
            Note::ReleaseIndication(service, tei) => of_link(3, service, tei),
            Note::ReleaseConfirm(service, tei) => of_link(4, service, tei),
            Note::Data(service, tei) => of_link(5, service, tei),
            Note::Unit(service, tei) => of_link(6, service, tei),
            Note::Error(service, tei, code) => PlainNote {
                note: 7,
                service: service.usual_sapi(),
                tei,
                error: code.letter() as u8,
                reserved: [0; 4],
            },
            Note::Assigned(tei) => of_link(8, Service::Call, tei),
            Note::Removed(tei) => of_link(9, Service::Call, tei),
            Note::Doubled(tei) => of_link(10, Service::Call, tei),
            Note::Xid(service, tei) => of_link(11, service, tei),
            Note::Denied => of_link(12, Service::Call, GROUP),
            Note::Unassigned => of_link(13, Service::Call, GROUP),
            Note::RemoveAll => of_link(14, Service::Call, GROUP),
        }
    }
}

fn of_link(note: u8, service: Service, tei: u8) -> PlainNote
    ensures { result ≡ of_link note service tei }
{
    PlainNote {
        note,
        service: service.usual_sapi(),
        tei,
        error: 0,
        reserved: [0; 4],
    }
}

/// The number of a cause, 1 to 8; 0 if there is none.
pub fn cause_number(cause: Option<Cause>) -> u8
    ensures { result ≡ cause_number cause }
{
    match cause {
        None => 0,
        Some(cause) => cause as u8,
    }
}
