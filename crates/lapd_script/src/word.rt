//! The first words of the lines.

ghost use Rattle.std.specs.Prelude.{◌≡◌, map};
ghost use Rattle.lapd_script.specs.Word.{word_named, word_rows, named_in, row, carries_octets};

use crate::command::Asked;
use crate::words::is;
use lapd_frame::Service;
use lapd_transcript::CounterGroup;
use model_card::CardKind;

/// The first word of a line.
#[derive(Clone, Copy)]
pub(crate) enum Word {
    Card(CardKind),
    Rx,
    In,
    Failed,
    Next,
    Down,
    AskTei,
    Pull,
    Wait,
    Timers,
    Stored,
    Losses,
    Save,
    Restore,
    Counters(CounterGroup),
    Ask(Asked),
}

/// The words with their names.
static WORDS: [(&[u8], Word); 36] = [
    (b"card", Word::Card(CardKind::Octets)),
    (b"frames", Word::Card(CardKind::Frames)),
    (b"rx", Word::Rx),
    (b"in", Word::In),
    (b"failed", Word::Failed),
    (b"next", Word::Next),
    (b"down", Word::Down),
    (b"ask", Word::AskTei),
    (b"pull", Word::Pull),
    (b"wait", Word::Wait),
    (b"timers", Word::Timers),
    (b"stored", Word::Stored),
    (b"losses", Word::Losses),
    (b"save", Word::Save),
    (b"restore", Word::Restore),
    (b"counters", Word::Counters(CounterGroup::Line)),
    (b"messages", Word::Counters(CounterGroup::Messages)),
    (b"assign", Word::Ask(Asked::Assign)),
    (b"remove", Word::Ask(Asked::Remove)),
    (b"check", Word::Ask(Asked::Check)),
    (b"disown", Word::Ask(Asked::Disown)),
    (b"verify", Word::Ask(Asked::Verify)),
    (b"establish", Word::Ask(Asked::Establish(Service::Call))),
    (b"establish16", Word::Ask(Asked::Establish(Service::Packet))),
    (b"release", Word::Ask(Asked::Release(Service::Call))),
    (b"release16", Word::Ask(Asked::Release(Service::Packet))),
    (b"busy", Word::Ask(Asked::SetBusy(Service::Call))),
    (b"busy16", Word::Ask(Asked::SetBusy(Service::Packet))),
    (b"ready", Word::Ask(Asked::ClearBusy(Service::Call))),
    (b"ready16", Word::Ask(Asked::ClearBusy(Service::Packet))),
    (b"deactivate", Word::Ask(Asked::Deactivate(Service::Call))),
    (
        b"deactivate16",
        Word::Ask(Asked::Deactivate(Service::Packet)),
    ),
    (b"data", Word::Ask(Asked::Data(Service::Call))),
    (b"data16", Word::Ask(Asked::Data(Service::Packet))),
    (b"unit", Word::Ask(Asked::Unit(Service::Call))),
    (b"unit16", Word::Ask(Asked::Unit(Service::Packet))),
];

impl Word {
    /// The word of this name.
    pub(crate) fn named(name: &[u8]) -> Option<Word>
        ensures { result ≡ word_named name.now }
    {
        named_in(name, rows())
    }
}

impl Asked {
    /// Whether octets follow the TEI.
    pub(crate) fn carries_octets(self) -> bool
        ensures { result ≡ carries_octets self }
    {
        matches!(self, Asked::Data(_) | Asked::Unit(_))
    }
}

fn rows() -> &'static [(&'static [u8], Word)]
    ensures { map row result.now ≡ word_rows }
{
    &WORDS
}

/// The word of the first row with this name.
fn named_in(name: &[u8], rows: &[(&'static [u8], Word)]) -> Option<Word>
    ensures { result ≡ named_in name.now (map row rows.now) }
{
    for (own, word) in rows {
        if is(name, own) {
            return Some(*word);
        }
    }
    None
}
