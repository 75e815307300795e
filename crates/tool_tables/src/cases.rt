//! The tables of a link: for each state, with the flags that matter, and for each event what is sent, told and ordered,
//! and the state after. Frames are octets of TEI 64 as the user's side sends them.

use crate::bench::Event::{Ask, Clear, Command, Expire, Heard, Overlong};
use crate::bench::{Case, Event};
use lapd_link::{LinkRequest, LinkTimer};

/// A table of links: what stands above its rows, whether a link is up there, and the states across.
#[derive(Clone, Copy)]
pub struct Table {
    pub head: &'static str,
    pub is_up: bool,
    pub cases: &'static [Case],
}

const SABME: Event = Command(true, &[0, 129, 127]);

const ESTABLISH: Event = Ask(LinkRequest::Establish);

const RELEASE: Event = Ask(LinkRequest::Release);

const DATA: Event = Ask(LinkRequest::Data(&[1]));

const T200: Event = Expire(LinkTimer::T200);

const T203: Event = Expire(LinkTimer::T203);

const DM: Event = Heard(&[2, 129, 15]);

const PEER_BUSY: Event = Command(false, &[0, 129, 5, 0]);

const OWN_BUSY: Event = Ask(LinkRequest::SetBusy);

const REJECT: Event = Command(false, &[0, 129, 2, 0]);

const ENQUIRY: Event = Command(true, &[0, 129, 1, 1]);

/// The tables of links.
pub fn tables() -> &'static [Table] {
    &TABLES
}

static TABLES: [Table; 5] = [
    Table {
        head: DOWN_HEAD,
        is_up: false,
        cases: &DOWN,
    },
    Table {
        head: UP_HEAD,
        is_up: true,
        cases: &UP,
    },
    Table {
        head: UP_BUSY_HEAD,
        is_up: true,
        cases: &UP_BUSY,
    },
    Table {
        head: RECOVERY_HEAD,
        is_up: true,
        cases: &RECOVERY,
    },
    Table {
        head: RECOVERY_BUSY_HEAD,
        is_up: true,
        cases: &RECOVERY_BUSY,
    },
];

const DOWN_HEAD: &str = "# What a card does, printed by itself

For a reader who has the standard's state tables at hand. `tool_tables` prints this page: it plays each event on the
proved `Link` and `Teis`, by their public calls, and tells what they answer. A test compares. A link is the same on both
sides of a line; the tables of TEI management are of the network's side. docs/MACHINE.md has the rules in words.

Readers of the standard differ in some rows. Where the two readings of docs/MACHINE.md do, an event has two rows: the
profile's, and that of annex B.

## Links

Events stand down, states across; events with the same row stand beside each other. A cell has, in this order:

- the control frames that are sent, where F=P says that F is P of the event; or how many found no room to wait and are
  lost;
- `unserved`, where the state does not serve the frame; or, with a hyphen, why a request is refused;
- what layer 3 and layer management are told;
- which timers are started (+) and stopped (-);
- the I-frames that are sent, each with its N(S) and N(R), P=0, and with what it starts and stops;
- the state after, in bold, where it is another.

An empty cell: nothing is sent, told or ordered, and the state stays. A ditto mark (\"): as in the cell to the left. The
window is 2, and so are the contents that a link keeps and the control frames that may wait; N200 is 3, N201 is 8
octets; V(A) and V(R) are 0. Each column begins where what waited has been sent, except two answers where it says that
they wait.

### States 4, 5 and 6

The numbers of a frame, and P and F of those that are not served, do not matter here. In the columns of a release layer 3
has asked for the establishment and then for the release: by annex B it is owed, and the profile refuses it.

|Event|4|5, layer 3 asked|5, RC = N200|5, release|5, release, RC = N200|5 again, one outstanding|5 again, one unsent|6|6, RC = N200|
|---|---|---|---|---|---|---|---|---|---|";

const UP_HEAD: &str = "
### State 7

|Event|7, nothing outstanding|7, one outstanding|7, two outstanding|7, reject exception|
|---|---|---|---|---|";

const UP_BUSY_HEAD: &str = "
### State 7, where someone is busy or no control frame finds room

|Event|7, own busy|7, peer busy, one unsent|7, peer busy, one outstanding|7, both busy, one unsent|7, two answers wait|
|---|---|---|---|---|---|";

const RECOVERY_HEAD: &str = "
### State 8

|Event|8, nothing outstanding|8, one outstanding|8, reject exception|8, T200 for the third time|8, RC = N200|
|---|---|---|---|---|---|";

const RECOVERY_BUSY_HEAD: &str = "
### State 8, where someone is busy or no control frame finds room

|Event|8, own busy|8, peer busy, one unsent|8, peer busy, one outstanding|8, both busy, one unsent|8, two answers wait|
|---|---|---|---|---|---|";

/// States 4, 5 and 6.
const DOWN: [Case; 9] = [
    Case {
        events: &[],
        held: &[],
    },
    Case {
        events: &[ESTABLISH],
        held: &[],
    },
    Case {
        events: &[ESTABLISH, T200, T200, T200],
        held: &[],
    },
    Case {
        events: &[ESTABLISH, RELEASE],
        held: &[],
    },
    Case {
        events: &[ESTABLISH, RELEASE, T200, T200, T200],
        held: &[],
    },
    Case {
        events: &[SABME, DATA, DM],
        held: &[],
    },
    Case {
        events: &[SABME, PEER_BUSY, DATA, DM],
        held: &[],
    },
    Case {
        events: &[SABME, RELEASE],
        held: &[],
    },
    Case {
        events: &[SABME, RELEASE, T200, T200, T200],
        held: &[],
    },
];

/// State 7 while nobody is busy.
const UP: [Case; 4] = [
    Case {
        events: &[SABME],
        held: &[],
    },
    Case {
        events: &[SABME, DATA],
        held: &[],
    },
    Case {
        events: &[SABME, DATA, DATA],
        held: &[],
    },
    Case {
        events: &[SABME, REJECT],
        held: &[],
    },
];

/// State 7 while someone is busy, or no control frame finds room.
const UP_BUSY: [Case; 5] = [
    Case {
        events: &[SABME, OWN_BUSY],
        held: &[],
    },
    Case {
        events: &[SABME, PEER_BUSY, DATA],
        held: &[],
    },
    Case {
        events: &[SABME, DATA, PEER_BUSY],
        held: &[],
    },
    Case {
        events: &[SABME, OWN_BUSY, PEER_BUSY, DATA],
        held: &[],
    },
    Case {
        events: &[SABME],
        held: &[ENQUIRY, ENQUIRY],
    },
];

/// State 8 while nobody is busy.
const RECOVERY: [Case; 5] = [
    Case {
        events: &[SABME, T203],
        held: &[],
    },
    Case {
        events: &[SABME, DATA, T200],
        held: &[],
    },
    Case {
        events: &[SABME, REJECT, T203],
        held: &[],
    },
    Case {
        events: &[SABME, DATA, T200, T200, T200],
        held: &[],
    },
    Case {
        events: &[SABME, T203, T200, T200, T200],
        held: &[],
    },
];

/// State 8 while someone is busy, or no control frame finds room.
const RECOVERY_BUSY: [Case; 5] = [
    Case {
        events: &[SABME, OWN_BUSY, T203],
        held: &[],
    },
    Case {
        events: &[SABME, PEER_BUSY, DATA, T200],
        held: &[],
    },
    Case {
        events: &[SABME, DATA, PEER_BUSY, T200],
        held: &[],
    },
    Case {
        events: &[SABME, OWN_BUSY, PEER_BUSY, DATA, T200],
        held: &[],
    },
    Case {
        events: &[SABME, T203],
        held: &[ENQUIRY, ENQUIRY],
    },
];

/// Frames without numbers, and what is no frame of the exchange.
pub fn unnumbered() -> &'static [(&'static str, Event)] {
    &UNNUMBERED
}

static UNNUMBERED: [(&str, Event); 16] = [
    ("SABME P=1", SABME),
    ("SABME P=0", Command(false, &[0, 129, 111])),
    ("DISC P=1", Command(true, &[0, 129, 83])),
    ("DISC P=0", Command(false, &[0, 129, 67])),
    ("UA F=1", Heard(&[2, 129, 115])),
    ("UA F=0", Heard(&[2, 129, 99])),
    ("UI P=0", Command(false, &[0, 129, 3])),
    (
        "UI over N201",
        Heard(&[0, 129, 3, 1, 2, 3, 4, 5, 6, 7, 8, 9]),
    ),
    ("UI F=0", Heard(&[2, 129, 3, 65])),
    ("XID P=0", Command(false, &[0, 129, 175])),
    ("DM F=1", Heard(&[2, 129, 31])),
    ("DM F=0", DM),
    ("FRMR F=0", Heard(&[2, 129, 135, 0, 0, 0, 0, 0])),
    ("control field undefined", Heard(&[0, 129, 11])),
    ("frame of wrong size", Heard(&[0, 129, 1, 0, 0])),
    ("I over N201", Overlong),
];

/// Frames with numbers, of a table where a link is up or not.
pub fn numbered(is_up: bool) -> &'static [(&'static str, Event)] {
    if is_up { &NUMBERED } else { &NUMBERED_DOWN }
}

/// Frames with numbers, if no link is up: the numbers do not matter.
static NUMBERED_DOWN: [(&str, Event); 7] = [
    ("I P=1", Command(true, &[0, 129, 0, 1])),
    ("RR P=1", ENQUIRY),
    ("RR F=1", Heard(&[2, 129, 1, 1])),
    ("RNR P=1", Command(true, &[0, 129, 5, 1])),
    ("RNR F=1", Heard(&[2, 129, 5, 1])),
    ("REJ P=1", Command(true, &[0, 129, 9, 1])),
    ("REJ F=1", Heard(&[2, 129, 9, 1])),
];

/// Frames with numbers.
static NUMBERED: [(&str, Event); 32] = [
    ("I P=0 N(S)=0 N(R)=0", Command(false, &[0, 129, 0, 0])),
    ("I P=1 N(S)=0 N(R)=0", Command(true, &[0, 129, 0, 1])),
    ("I P=0 N(S)=0 N(R)=1", Command(false, &[0, 129, 0, 2])),
    ("I P=1 N(S)=0 N(R)=1", Command(true, &[0, 129, 0, 3])),
    ("I P=0 N(S)=1 N(R)=0", REJECT),
    ("I P=1 N(S)=1 N(R)=0", Command(true, &[0, 129, 2, 1])),
    ("I P=0 N(S)=1 N(R)=1", Command(false, &[0, 129, 2, 2])),
    ("I P=1 N(S)=1 N(R)=1", Command(true, &[0, 129, 2, 3])),
    ("RR P=0 N(R)=0", Command(false, &[0, 129, 1, 0])),
    ("RR F=0 N(R)=0", Heard(&[2, 129, 1, 0])),
    ("REJ P=0 N(R)=0", Command(false, &[0, 129, 9, 0])),
    ("REJ F=0 N(R)=0", Heard(&[2, 129, 9, 0])),
    ("RNR P=0 N(R)=0", PEER_BUSY),
    ("RNR F=0 N(R)=0", Heard(&[2, 129, 5, 0])),
    ("RR P=1 N(R)=0", ENQUIRY),
    ("REJ P=1 N(R)=0", Command(true, &[0, 129, 9, 1])),
    ("RNR P=1 N(R)=0", Command(true, &[0, 129, 5, 1])),
    ("RR F=1 N(R)=0", Heard(&[2, 129, 1, 1])),
    ("REJ F=1 N(R)=0", Heard(&[2, 129, 9, 1])),
    ("RNR F=1 N(R)=0", Heard(&[2, 129, 5, 1])),
    ("RR P=0 N(R)=1", Command(false, &[0, 129, 1, 2])),
    ("REJ P=0 N(R)=1", Command(false, &[0, 129, 9, 2])),
    ("RNR P=0 N(R)=1", Command(false, &[0, 129, 5, 2])),
    ("RR F=0 N(R)=1", Heard(&[2, 129, 1, 2])),
    ("REJ F=0 N(R)=1", Heard(&[2, 129, 9, 2])),
    ("RNR F=0 N(R)=1", Heard(&[2, 129, 5, 2])),
    ("RR P=1 N(R)=1", Command(true, &[0, 129, 1, 3])),
    ("REJ P=1 N(R)=1", Command(true, &[0, 129, 9, 3])),
    ("RNR P=1 N(R)=1", Command(true, &[0, 129, 5, 3])),
    ("RR F=1 N(R)=1", Heard(&[2, 129, 1, 3])),
    ("REJ F=1 N(R)=1", Heard(&[2, 129, 9, 3])),
    ("RNR F=1 N(R)=1", Heard(&[2, 129, 5, 3])),
];

/// Timers and requests, and the end of the TEI.
pub fn others() -> &'static [(&'static str, Event)] {
    &OTHERS
}

static OTHERS: [(&str, Event); 10] = [
    ("T200 expires", T200),
    ("T203 expires", T203),
    ("clear busy", Ask(LinkRequest::ClearBusy)),
    ("set busy", OWN_BUSY),
    ("data request", DATA),
    (
        "data request over N201",
        Ask(LinkRequest::Data(&[1, 2, 3, 4, 5, 6, 7, 8, 9])),
    ),
    ("establish request", ESTABLISH),
    ("release request", RELEASE),
    ("the TEI leaves the line", Clear),
    ("the line is down", Clear),
];
