//! A check of a TEI, and how it ends.

use lapd_frame::{Note, Order, ShortList, Side, Timer};
use lapd_tei::Teis;
use std::test::Fail;

const ASKED: [u8; 8] = [0xFE, 0xFF, 0x03, 0x0F, 0x00, 0x00, 0x04, 0x81];

const REMOVED: [u8; 8] = [0xFE, 0xFF, 0x03, 0x0F, 0x00, 0x00, 0x06, 0x81];

const STARTED: ShortList<Order> = ShortList::One([Order::Start(Timer::T201)]);

const STOPPED: ShortList<Order> = ShortList::One([Order::Stop(Timer::T201)]);

/// The identity check response of a terminal with TEI 64.
const RESPONSE: [u8; 5] = [0x0F, 0x00, 0x01, 0x05, 0x81];

// Whether a check of TEI 64 begins, and its second period as T201 expires. Each asks for it.
fn begins(teis: &mut Teis) -> bool {
    let is_asked = teis.check(64).is_ok() && teis.offer(Side::Network) == Some(ASKED);
    is_asked && teis.expire_t201().orders == STARTED && teis.offer(Side::Network) == Some(ASKED)
}

// Whether a response takes the TEI off the line, which is told and sent.
fn takes_off(teis: &mut Teis) -> bool {
    let outcome = teis.message(&RESPONSE);
    outcome.notes == ShortList::One([Note::Doubled(64)])
        && outcome.orders == STOPPED
        && teis.offer(Side::Network) == Some(REMOVED)
}

#[test]
fn two_terminals_with_one_tei_lose_it(rt: HostRuntime) -> Result<(), Fail> {
    let mut teis = Teis::start(rt.alloc(), 8)?;
    assert!(rt; teis.assign(64).is_ok());
    assert!(rt; begins(&mut teis));
    assert!(rt; teis.message(&RESPONSE).change.is_none());
    assert!(rt; takes_off(&mut teis));
    assert!(rt; teis.place(64).is_none());
    Ok(())
}
