//! Contents that are put on a shelf, lent and released.

use crate::done::Done;
use crate::fault::Fault;
use crate::line::information;
use crate::size::Size;
use lapd_store::{RawShelf, Shelf, SlabShelf};
use std::alloc::Global;

/// How many contents are kept in a round.
const KEPT: u32 = 1000;

/// The kinds of shelves.
#[derive(Clone, Copy)]
pub enum Shelves {
    /// `RawShelf`.
    Raw,
    /// `SlabShelf`.
    Slab,
}

/// Puts contents on a shelf of this kind, lends and releases them, so many rounds.
pub fn keep(alloc: Global, shelves: Shelves, size: Size, rounds: u32) -> Result<Done, Fault> {
    match shelves {
        Shelves::Raw => Ok(rounds_on(RawShelf::start(alloc, 128, 260)?, size, rounds)),
        Shelves::Slab => Ok(rounds_on(SlabShelf::start(alloc, 128, 260)?, size, rounds)),
    }
}

fn rounds_on<S: Shelf + Drop>(mut shelf: S, size: Size, rounds: u32) -> Done {
    let contents = information();
    let len = size.octets();
    let mut done = Done::new();
    for _ in 0..rounds {
        done.add(keep_all(&mut shelf, &contents[..len]));
        done.count(len.saturating_mul(KEPT as usize), u64::from(KEPT), 0);
    }
    done
}

/// Keeps contents for a moment, one after the other. Out of line, so that a compiler does not know how long they are.
#[inline(never)]
fn keep_all<S: Shelf>(shelf: &mut S, octets: &[u8]) -> u64 {
    let mut sum = 0u64;
    for _ in 0..KEPT {
        sum = sum.wrapping_add(pass(shelf, octets));
    }
    sum
}

/// Puts contents on a shelf, reads the last of them and releases them.
fn pass<S: Shelf>(shelf: &mut S, octets: &[u8]) -> u64 {
    if octets.len() > usize::from(shelf.width()) {
        return 0;
    }
    let Some(slot) = shelf.put(octets) else {
        return 0;
    };
    let last = last_of(shelf.get(&slot));
    shelf.release(slot);
    last
}

fn last_of(octets: &[u8]) -> u64 {
    match octets.last() {
        Some(last) => u64::from(*last),
        None => 0,
    }
}
