//! The table of TEI management.

use crate::bench::Event::Manage;
use crate::bench::Managed::{Assign, Check, Disown, Down, Expire, Message, Remove};
use crate::bench::{Case, Event};

/// What stands above the rows.
pub const HEAD: &str = "
## TEI management

A line with room for two TEIs. A cell has, in this order: the messages that are sent, or how many found no room and are
lost; `unserved` where a message is not served, or why a request is refused; what layer management is told; what is
ordered of T201; and which TEI comes to the line (+) or leaves it (-). Ri is the reference number of a request; that of
TEI 64 is 1, that of TEI 65 is 2. A check has two periods of T201. By annex B one that was due settles before that; in the
profile none is due. What waited has been sent, except where a column says that it waits.

|Event|no TEI|64|64 and 65|64, checked|64, checked, one response|64, second period|64, second period, one response before|64 and 65, 64 checked|64 and 65, second period, 65 verified|64 and 65, 65 settles|64, whose message waits|64, four messages wait|
|---|---|---|---|---|---|---|---|---|---|---|---|---|";

const FIRST: Event = Manage(Message(&[15, 0, 1, 1, 255]));

const SECOND: Event = Manage(Message(&[15, 0, 2, 1, 255]));

const RESPONSE: Event = Manage(Message(&[15, 0, 0, 5, 129]));

const CHECK: Event = Manage(Check(64));

const VERIFY: Event = Manage(Message(&[15, 0, 0, 7, 131]));

const DISOWN: Event = Manage(Disown(66));

/// The states across.
pub fn cases() -> &'static [Case] {
    &CASES
}

static CASES: [Case; 12] = [
    Case {
        events: &[],
        held: &[],
    },
    Case {
        events: &[FIRST],
        held: &[],
    },
    Case {
        events: &[FIRST, SECOND],
        held: &[],
    },
    Case {
        events: &[FIRST, CHECK],
        held: &[],
    },
    Case {
        events: &[FIRST, CHECK, RESPONSE],
        held: &[],
    },
    Case {
        events: &[FIRST, CHECK, Manage(Expire)],
        held: &[],
    },
    Case {
        events: &[FIRST, CHECK, RESPONSE, Manage(Expire)],
        held: &[],
    },
    Case {
        events: &[FIRST, SECOND, CHECK],
        held: &[],
    },
    Case {
        events: &[FIRST, SECOND, CHECK, Manage(Expire), VERIFY],
        held: &[],
    },
    Case {
        events: &[
            FIRST,
            SECOND,
            CHECK,
            VERIFY,
            RESPONSE,
            Manage(Expire),
            Manage(Expire),
        ],
        held: &[],
    },
    Case {
        events: &[],
        held: &[FIRST],
    },
    Case {
        events: &[FIRST],
        held: &[DISOWN, DISOWN, DISOWN, DISOWN],
    },
];

/// The events down. Messages are octets: what they are known by, two of Ri, a type, and Ai.
pub fn events() -> &'static [(&'static str, Event)] {
    &EVENTS
}

static EVENTS: [(&str, Event); 22] = [
    ("identity request, Ri 1", FIRST),
    ("identity request, Ri 2", SECOND),
    (
        "identity request, Ri 3",
        Manage(Message(&[15, 0, 3, 1, 255])),
    ),
    (
        "identity request, Ai 64",
        Manage(Message(&[15, 0, 4, 1, 129])),
    ),
    (
        "identity request, Ai 5",
        Manage(Message(&[15, 0, 4, 1, 11])),
    ),
    (
        "identity request of six octets",
        Manage(Message(&[15, 0, 4, 1, 255, 0])),
    ),
    (
        "identity verify, Ai 64",
        Manage(Message(&[15, 0, 0, 7, 129])),
    ),
    ("identity verify, Ai 65", VERIFY),
    ("check response, Ai 64", RESPONSE),
    (
        "check response, Ai 65",
        Manage(Message(&[15, 0, 0, 5, 131])),
    ),
    (
        "check response, Ai 65 and 64",
        Manage(Message(&[15, 0, 0, 5, 130, 129])),
    ),
    (
        "message of another type",
        Manage(Message(&[15, 0, 0, 9, 129])),
    ),
    ("T201 expires", Manage(Expire)),
    ("assign 64", Manage(Assign(64))),
    ("assign 65", Manage(Assign(65))),
    ("remove 64", Manage(Remove(64))),
    ("check 64", CHECK),
    ("check 65", Manage(Check(65))),
    ("disown 64", Manage(Disown(64))),
    ("disown 66", DISOWN),
    ("disown 127", Manage(Disown(127))),
    ("the line is down", Manage(Down)),
];
