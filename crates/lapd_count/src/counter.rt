//! What is counted.

ghost use Rattle.std.specs.Prelude.{◌≡◌, ◌<◌};
ghost use Rattle.lapd_count.specs.Counters.{place};

use crate::kinds::Kind;
use crate::messages::MessageType;
use lapd_frame::ErrorCode;
use model_bits::Cause;

/// From where a frame comes, and where it goes.
#[derive(Clone, Copy, PartialEq, Eq, Debug)]
pub enum Way {
    /// It was heard: the other side of the line sent it.
    Heard,
    /// It was begun: a pull has begun to send it, or it was given whole.
    Begun,
}

/// The name of a counter of a line.
#[derive(Clone, Copy, PartialEq, Eq, Debug)]
pub enum Counter {
    /// Frames of this kind. What is dropped before its check is found good (`Abort`, `Ragged`, `Short`, `Fcs`) is no frame,
    /// and one that is too long is counted as `Overlong` alone.
    Frames(Way, Kind),
    /// Octets of these frames, from the address to the information.
    Octets(Way),
    /// Those of them that ask for an answer in states 7 and 8: I-frames, and RR, RNR and REJ commands, with P=1 (Q.921
    /// clauses 3.5.1 and 5.6).
    Polls(Way),
    /// Frames heard that are longer than N201 allows by so much that they are not kept, but otherwise good.
    Overlong,
    /// What was dropped without effect, for this cause.
    Dropped(Cause),
    /// MDL-ERROR indications with this code (appendix II, table II.1).
    Errors(ErrorCode),
    /// DL-ESTABLISH indications.
    EstablishIndications,
    /// DL-ESTABLISH confirms.
    EstablishConfirms,
    /// DL-RELEASE indications.
    ReleaseIndications,
    /// DL-RELEASE confirms.
    ReleaseConfirms,
    /// DL-DATA indications: I-frames whose contents were delivered.
    Data,
    /// DL-UNIT DATA indications: UI frames whose contents were delivered.
    Units,
    /// XID frames that were told.
    Xids,
    /// TEIs that were assigned to terminals that asked for one.
    Assigned,
    /// TEIs that left the line, since no terminal answered a check.
    Removed,
    /// TEIs that left the line, since two terminals answered a check.
    Doubled,
    /// How often the network had no TEI for this terminal.
    Denied,
    /// How often the network assigned no TEI, as often as this terminal asked.
    Unassigned,
    /// How often the network removed all TEIs of this terminal, when more than one was on the line.
    RemovedAll,
    /// Control frames and messages of TEI management that found no room to wait.
    Lost,
    /// Messages of TEI management, of this name: good UI frames with SAPI 63 and TEI 127 that have one (Q.921 clause 5.3.6).
    Messages(Way, MessageType),
}

impl Counter {
    /// Its place among the counters: those of frames heard and of frames begun by their kinds, then the others in the order
    /// above, the messages heard before those begun. `include/lapd.h` has them by name.
    #[inline(always)]
    pub fn place(self) -> usize
        ensures value { result ≡ place self }
        ensures bound { result < 79 }
    {
        match self {
            Counter::Frames(Way::Heard, kind) => kind as usize,
            Counter::Frames(Way::Begun, kind) => 12 + kind as usize,
            Counter::Octets(Way::Heard) => 24,
            Counter::Octets(Way::Begun) => 25,
            Counter::Polls(Way::Heard) => 26,
            Counter::Polls(Way::Begun) => 27,
            Counter::Overlong => 28,
            Counter::Dropped(cause) => 29 + (cause as usize - 1),
            Counter::Errors(code) => 37 + code as usize,
            Counter::EstablishIndications => 51,
            Counter::EstablishConfirms => 52,
            Counter::ReleaseIndications => 53,
            Counter::ReleaseConfirms => 54,
            Counter::Data => 55,
            Counter::Units => 56,
            Counter::Xids => 57,
            Counter::Assigned => 58,
            Counter::Removed => 59,
            Counter::Doubled => 60,
            Counter::Denied => 61,
            Counter::Unassigned => 62,
            Counter::RemovedAll => 63,
            Counter::Lost => 64,
            Counter::Messages(Way::Heard, message) => 65 + message as usize,
            Counter::Messages(Way::Begun, message) => 72 + message as usize,
        }
    }
}
