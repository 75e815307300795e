//! The counters of a line.

ghost use Rattle.std.specs.Option.{option_map_or};
ghost use Rattle.std.specs.Prelude.{◌≡◌, ◌<◌, ◌∷◌, ◌++◌, [], map, set};
ghost use Rattle.lapd_count.specs.declared.counter.Way.TheVariants.{Begun};
ghost use Rattle.model_bits.specs.Heard.{heard_of};
ghost use Rattle.lapd_count.specs.Counters.{value_in, with_more, with_all, none_counted};
ghost use Rattle.lapd_count.specs.Messages.{has_message};
ghost use Rattle.lapd_count.specs.Shown.{frame_shown, is_poll, head_shown, heard_shown, octets_shown, begun_shown, type_shown, counter_of, note_shown, told_shown, drop_shown, lost_shown};

use crate::counter::{Counter, Way};
use crate::kinds::Kind;
use crate::messages::MessageType;
use lapd_frame::{Note, Side, octet_at};
use model_bits::{Cause, Head, Heard};

/// How many counters there are.
pub(crate) const COUNT: usize = 79;

/// What was counted of a line: a number of 64 bits for each [`Counter`], which stays at its greatest value once it is there.
#[derive(Clone, Copy, PartialEq, Eq, Debug)]
pub struct Counters {
    pub(crate) values: [u64; COUNT],
}

impl Counters {
    /// Nothing was counted yet.
    pub fn new() -> Counters
        ensures { result ≡ none_counted }
    {
        Counters { values: [0; COUNT] }
    }

    /// How many there were.
    pub fn value(&self, counter: Counter) -> u64
        ensures { result ≡ value_in self.now counter }
    {
        self.values[counter.place()]
    }

    /// All of them, each at its [`place`](Counter::place).
    pub fn values(&self) -> [u64; 79]
        ensures { result ≡ self.now.values }
    {
        self.values
    }

    /// So many more of one.
    #[inline(always)]
    fn add(&mut self, counter: Counter, amount: u64)
        ensures { self.new ≡ with_more self.old (counter, amount) }
    {
        let place = counter.place();
        let sum = self.values[place].wrapping_add(amount);
        self.values[place] = sum;
        if sum < amount {
            self.fill(place);
        }
    }

    /// A number that has become too great stays at the greatest. It stands apart, so that to count is one step in memory.
    #[cold]
    #[inline(never)]
    fn fill(&mut self, place: usize)
        requires { place < 79 }
        ensures { self.new.values ≡ set self.old.values place 18446744073709551615 }
    {
        self.values[place] = u64::MAX;
    }

    /// A frame of its sender, by the octets in which its C/R bit and its control field stand, and its length.
    #[inline(always)]
    fn frame(&mut self, sender: Side, way: Way, first: u8, control: u8, second: u8, length: usize)
        ensures { self.new ≡ with_all self.old (frame_shown sender way (first ∷ 0 ∷ control ∷ second ∷ []) length) }
    {
        let kind = Kind::of(control);
        self.add(Counter::Frames(way, kind), 1);
        self.add(Counter::Octets(way), length as u64);
        if is_poll(sender, first, kind, second) {
            self.add(Counter::Polls(way), 1);
        }
    }

    /// What is heard at a line of this side.
    #[inline(always)]
    pub fn heard(&mut self, side: Side, heard: Heard<'_>)
        ensures { self.new ≡ with_all self.old (heard_shown side (heard_of heard.entry)) }
    {
        match heard {
            Heard::Nothing | Heard::Dropped(_) => {}
            Heard::Overlong(_) => self.add(Counter::Overlong, 1),
            Heard::Frame(octets) => self.octets(side.other(), Way::Heard, octets),
        }
    }

    /// A frame whose octets are all there.
    #[inline(always)]
    fn octets(&mut self, sender: Side, way: Way, octets: &[u8])
        ensures { self.new ≡ with_all self.old (octets_shown sender way octets.now) }
    {
        self.frame(
            sender,
            way,
            octet_at(octets, 0),
            octet_at(octets, 2),
            octet_at(octets, 3),
            octets.len(),
        );
        if has_message(octets) {
            self.message(way, octet_at(octets, 6));
        }
    }

    /// A message of TEI management, by its type; nothing where no message has it. It stands apart, since few frames have one.
    #[inline(never)]
    fn message(&mut self, way: Way, kind: u8)
        ensures { self.new ≡ with_all self.old (type_shown way kind) }
    {
        if let Some(message) = MessageType::of(kind) {
            self.add(Counter::Messages(way, message), 1);
        }
    }

    /// A frame is begun, of which the head is there, and if it is a message of TEI management, its type.
    pub fn begun(&mut self, side: Side, head: &Head, message: Option<u8>)
        ensures { self.new ≡ with_all self.old (head_shown side head.now ++ option_map_or (type_shown Begun) message []) }
    {
        let [first, _, control, second] = head.octets;
        self.frame(
            side,
            Way::Begun,
            first,
            control,
            second,
            usize::from(head.length),
        );
        if let Some(kind) = message {
            self.message(Way::Begun, kind);
        }
    }

    /// A frame is given whole: from its address to its information.
    pub fn given(&mut self, side: Side, octets: &[u8])
        ensures { self.new ≡ with_all self.old (begun_shown side octets.now) }
    {
        if !octets.is_empty() {
            self.octets(side, Way::Begun, octets);
        }
    }

    /// What is told of an event.
    #[inline(always)]
    pub fn told(&mut self, notes: &[Note], cause: Option<Cause>, lost: u8)
        ensures { self.new ≡ with_all self.old (told_shown notes.now cause lost) }
    {
        self.notes(notes);
        self.dropped(cause);
        self.lost(lost);
    }

    fn notes(&mut self, notes: &[Note])
        ensures { self.new ≡ with_all self.old (map note_shown notes.now) }
    {
        for note in notes {
            self.add(counter_of(note), 1);
        }
    }

    fn dropped(&mut self, cause: Option<Cause>)
        ensures { self.new ≡ with_all self.old (drop_shown cause) }
    {
        if let Some(cause) = cause {
            self.add(Counter::Dropped(cause), 1);
        }
    }

    fn lost(&mut self, lost: u8)
        ensures { self.new ≡ with_all self.old (lost_shown lost) }
    {
        if lost > 0 {
            self.add(Counter::Lost, u64::from(lost));
        }
    }
}

/// The counter of a note.
fn counter_of(note: &Note) -> Counter
    ensures { result ≡ counter_of note.now }
{
    match *note {
        Note::EstablishIndication(..) => Counter::EstablishIndications,
        Note::EstablishConfirm(..) => Counter::EstablishConfirms,
        Note::ReleaseIndication(..) => Counter::ReleaseIndications,
        Note::ReleaseConfirm(..) => Counter::ReleaseConfirms,
        Note::Data(..) => Counter::Data,
        Note::Unit(..) => Counter::Units,
        Note::Error(_, _, code) => Counter::Errors(code),
        Note::Assigned(_) => Counter::Assigned,
        Note::Removed(_) => Counter::Removed,
        Note::Doubled(_) => Counter::Doubled,
        Note::Denied => Counter::Denied,
        Note::Unassigned => Counter::Unassigned,
        Note::RemoveAll => Counter::RemovedAll,
        Note::Xid(..) => Counter::Xids,
    }
}

/// Whether it is a poll.
fn is_poll(sender: Side, first: u8, kind: Kind, second: u8) -> bool
    ensures { result ≡ is_poll sender first kind second }
{
    second % 2 == 1 && first / 2 % 2 == sender.command_bit() && kind.asks()
}

/// Whether a frame has a message of TEI management. Of most frames the first octet says that it has none.
#[inline(always)]
fn has_message(octets: &[u8]) -> bool
    ensures { result ≡ has_message octets.now }
{
    octet_at(octets, 0) / 4 == 63
        && octet_at(octets, 1) == 0xFF
        && (octet_at(octets, 2) == 0x03 || octet_at(octets, 2) == 0x13)
        && octet_at(octets, 3) == 15
}
