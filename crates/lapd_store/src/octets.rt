//! The memory of a region. Raw pointers stand in this file alone, inside four functions that are proved by hand.
ghost use Rattle.std.specs.Prelude.{◌≡◌, ℕ, ◌+◌, ◌^◌, ◌<◌, ◌≤◌, List, Option, Some, None, map, length, take, drop, replicate, slice_set, IfOk};
ghost use denote.RawPtr.{Ptr};
ghost use Rattle.lapd_store.specs.Memory.{octets_own, octets_lent, block_of};

use std::alloc::{AllocError, Allocator};
use std::marker::{Model, PhantomData};
use std::slice;

/// The beginning of a block. It owns nothing.
#[derive(Clone, Copy)]
pub(crate) struct Base {
    ptr: *mut u8,
}

/// The owner of a block's octets, each of them written or not. It takes no space.
pub(crate) struct Octets {
    ghost at: { Ptr },
    ghost written: { List (Option ℕ) },
}

impl Model for Octets {
    ghost also_owns = { λ o. octets_own o.at o.written };

    ghost also_shares = { λ o _ κ. octets_lent o.at o.written κ };
}

/// The right to give a block of so many octets back. It takes no space.
pub(crate) struct Deed<A: Allocator> {
    mark: PhantomData<A>,
    ghost at: { Ptr },
    ghost size: { ℕ },
    ghost alloc: { A },
}

impl<A: Allocator> Model for Deed<A> {
    ghost also_owns = { λ d. A.dealloc_token d.alloc (block_of d.size) d.at };
}

/// Takes a block of `size` octets, none of them written.
pub(crate) fn take<A: Allocator>(
    alloc: &A,
    size: usize,
) -> Result<(Base, Octets, Deed<A>), AllocError>
    requires { size < 2 ^ 63 }
    ensures { IfOk result (λ r. (r.1.at ≡ r.0.ptr) × (r.1.written ≡ replicate size None) × (r.2.at ≡ r.0.ptr) × (r.2.size ≡ size) × (r.2.alloc ≡ alloc.now)) }
{
    match alloc.allocate(size, 1) {
        Ok(ptr) => {
            let mark = PhantomData;
            Ok((Base { ptr }, Octets {}, Deed { mark }))
        }
        Err(refused) => Err(refused),
    }
}

/// Gives the block back, whatever was written there. The owner and the deed end with it, so this happens once.
pub(crate) fn give_back<A: Allocator>(
    alloc: &A,
    base: Base,
    size: usize,
    octets: Octets,
    deed: Deed<A>,
)
    requires { (octets.at ≡ base.ptr) × (length octets.written ≡ size) × (size < 2 ^ 63) × (deed.at ≡ base.ptr) × (deed.size ≡ size) × (deed.alloc ≡ alloc.now) }
{
    let Octets {} = octets;
    let Deed { mark: _ } = deed;
    unsafe { alloc.deallocate(base.ptr, size, 1) }
}

impl Octets {
    /// Writes the octet at an index, over whatever was there.
    pub(crate) fn write(&mut self, base: Base, index: usize, octet: u8)
        requires { (base.ptr ≡ self.old.at) × (index < length self.old.written) }
        ensures { (self.new.at ≡ self.old.at) × (self.new.written ≡ slice_set self.old.written index (Some octet)) }
    {
        unsafe { *base.ptr.add(index) = octet };
    }

    /// Lends the `len` octets from `from` on, all of which were written.
    pub(crate) fn lend(&self, base: Base, from: usize, len: usize) -> &[u8]
        requires { (base.ptr ≡ self.now.at) × (from + len ≤ length self.now.written) × ((octets : List ℕ) × (take len (drop from self.now.written) ≡ map Some octets)) × (length self.now.written < 2 ^ 63) }
        ensures { take len (drop from self.now.written) ≡ map Some result.now }
    {
        unsafe { slice::from_raw_parts(base.ptr.add(from), len) }
    }
}
