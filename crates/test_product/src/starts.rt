//! Starts at the ends of their ranges. Those of a card are in `tests/scripts/card.txt`.

ghost use Rattle.std.specs.Prelude.{◌≤◌};

use lapd_bits::{Deframer, Framer};
use lapd_clock::Clock;
use lapd_store::{RawShelf, SlabShelf, SlotQueue};
use lapd_tei::Teis;
use std::alloc::Global;
use std::test::Fail;

fn start_bits(alloc: Global, n201: u16) -> Result<(), Fail>
    requires { n201 ≤ 1024 }
{
    let _ = Framer::start(alloc, n201)?;
    let _ = Deframer::start(alloc, n201)?;
    Ok(())
}

fn start_shelves(alloc: Global, slots: u32, width: u16) -> Result<(), Fail>
    requires slots { slots ≤ 8192 }
    requires least { 8 ≤ width }
    requires most { width ≤ 260 }
{
    let _ = SlabShelf::start(alloc, slots, width)?;
    let _ = RawShelf::start(alloc, slots, width)?;
    let _ = SlotQueue::start(alloc, slots as usize)?;
    Ok(())
}

#[test]
fn of_bits(rt: HostRuntime) -> Result<(), Fail> {
    start_bits(rt.alloc(), 0)?;
    start_bits(rt.alloc(), 1024)
}

#[test]
fn of_shelves(rt: HostRuntime) -> Result<(), Fail> {
    start_shelves(rt.alloc(), 0, 8)?;
    start_shelves(rt.alloc(), 8192, 260)
}

#[test]
fn of_clocks(rt: HostRuntime) -> Result<(), Fail> {
    let _ = Clock::start(rt.alloc(), 1, 1)?;
    let _ = Clock::start(rt.alloc(), 64, 8)?;
    Ok(())
}

#[test]
fn of_teis(rt: HostRuntime) -> Result<(), Fail> {
    let _ = Teis::start(rt.alloc(), 1)?;
    let _ = Teis::start(rt.alloc(), 8)?;
    Ok(())
}
