//! What faults say. The words of a fault of a script are in `tests/scripts/faults.txt`.

use lapd_card::{CardFault, Field, RoomTooSmall, SinkFailed, SinkFault};
use lapd_script::{FaultKind, PlayFault};
use std::alloc::Global;
use std::fmt::Display;
use std::process::Abort;

/// Whether a fault is shown so.
fn says(rt: &impl Abort, alloc: Global, fault: &impl Display, text: &str) {
    let said = fault.to_string(alloc).expect(rt, "memory");
    assert!(rt; said.as_str() == text);
}

#[test]
fn faults_of_starts(rt: HostRuntime) {
    let text = "out of memory";
    says(&rt, rt.alloc(), &lapd_bits::StartFault::OutOfMemory, text);
    says(&rt, rt.alloc(), &lapd_store::StartFault::OutOfMemory, text);
    says(&rt, rt.alloc(), &lapd_clock::StartFault::OutOfMemory, text);
    says(&rt, rt.alloc(), &lapd_tei::StartFault::OutOfMemory, text);
}

#[test]
fn faults_of_a_card(rt: HostRuntime) {
    let faults = [
        (CardFault::OutOfMemory, "out of memory"),
        (CardFault::ShelfTooSmall, "the shelf is too small"),
        (
            CardFault::BadConfig(Field::UnitQueue),
            "unit_queue is out of range",
        ),
    ];
    for (fault, text) in faults {
        says(&rt, rt.alloc(), &fault, text);
    }
    let text = "the sink failed on the reply to event 2";
    says(&rt, rt.alloc(), &SinkFault { at: 2 }, text);
    says(&rt, rt.alloc(), &SinkFailed, "the sink failed");
    let text = "a frame has up to 264 octets";
    says(&rt, rt.alloc(), &RoomTooSmall { room: 264 }, text);
}

/// A fault of a script says what its line tells.
#[test]
fn faults_of_a_script(rt: HostRuntime) {
    let (line, kind) = (12, FaultKind::BadLine);
    let faults = [
        (PlayFault::Read, "read failed"),
        (PlayFault::Write, "write failed"),
        (PlayFault::Script { line, kind }, "line 12: bad line"),
        (PlayFault::OutOfMemory, "out of memory"),
    ];
    for (fault, text) in faults {
        says(&rt, rt.alloc(), &fault, text);
    }
}
