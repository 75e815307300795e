//! Runs of octets that are written.
//!
//! A run of 8 to 256 octets goes as two blocks that may lie one over the other. A block has a size that is known where
//! the code is compiled, and is a value before it is written. So it goes by a few wide instructions and no loop, whose
//! end a processor would have to guess anew for each length.
ghost use Rattle.std.specs.Prelude.{◌≡◌, ℕ, ◌+◌, ◌^◌, ◌<◌, ◌≤◌, length, slice_get};
ghost use Rattle.lapd_store.specs.Region.{Holds, SameOutside};

use crate::octets::{Base, Octets};

/// Writes octets from a place on, over whatever was there.
pub(crate) fn write_run(memory: &mut Octets, base: Base, from: usize, octets: &[u8])
    requires base { base.ptr ≡ memory.old.at }
    requires within { from + length octets.now ≤ length memory.old.written }
    requires small { length memory.old.written < 2 ^ 63 }
    ensures at { memory.new.at ≡ memory.old.at }
    ensures written { Holds memory.new.written from octets.now }
    ensures others { SameOutside memory.old.written memory.new.written from (length octets.now) }
{
    match octets.len() {
        8..=16 => write_ends::<8>(memory, base, from, octets),
        17..=32 => write_ends::<16>(memory, base, from, octets),
        33..=64 => write_ends::<32>(memory, base, from, octets),
        65..=128 => write_ends::<64>(memory, base, from, octets),
        129..=256 => write_ends::<128>(memory, base, from, octets),
        _ => write_each(memory, base, from, octets),
    }
}

// Writes the first N octets and the last N, which are all of them.
fn write_ends<const N: usize>(memory: &mut Octets, base: Base, from: usize, octets: &[u8])
    requires enough { N ≤ length octets.now }
    requires all { length octets.now ≤ N + N }
    requires base { base.ptr ≡ memory.old.at }
    requires within { from + length octets.now ≤ length memory.old.written }
    requires small { length memory.old.written < 2 ^ 63 }
    ensures at { memory.new.at ≡ memory.old.at }
    ensures written { Holds memory.new.written from octets.now }
    ensures others { SameOutside memory.old.written memory.new.written from (length octets.now) }
{
    let last = octets.len() - N;
    write_block::<N>(memory, base, from, &block_of(octets, 0));
    write_block::<N>(memory, base, from + last, &block_of(octets, last));
}

// The N octets from a place on, as a value.
fn block_of<const N: usize>(octets: &[u8], at: usize) -> [u8; N]
    requires within { at + N ≤ length octets.now }
    ensures len { length result ≡ N }
    ensures octets { (k : ℕ) → k < N → slice_get result k ≡ slice_get octets.now (at + k) }
{
    let mut block = [0; N];
    block.copy_from_slice(&octets[at..at + N]);
    block
}

// Writes the octets of a block.
fn write_block<const N: usize>(memory: &mut Octets, base: Base, from: usize, block: &[u8; N])
    requires base { base.ptr ≡ memory.old.at }
    requires within { from + N ≤ length memory.old.written }
    requires small { length memory.old.written < 2 ^ 63 }
    ensures at { memory.new.at ≡ memory.old.at }
    ensures written { Holds memory.new.written from block.now }
    ensures others { SameOutside memory.old.written memory.new.written from N }
{
    for i in 0..N {
        memory.write(base, from + i, block[i]);
    }
}

// Writes octets one by one.
fn write_each(memory: &mut Octets, base: Base, from: usize, octets: &[u8])
    requires base { base.ptr ≡ memory.old.at }
    requires within { from + length octets.now ≤ length memory.old.written }
    requires small { length memory.old.written < 2 ^ 63 }
    ensures at { memory.new.at ≡ memory.old.at }
    ensures written { Holds memory.new.written from octets.now }
    ensures others { SameOutside memory.old.written memory.new.written from (length octets.now) }
{
    for i in 0..octets.len() {
        memory.write(base, from + i, octets[i]);
    }
}
