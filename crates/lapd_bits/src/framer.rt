//! What goes out on a line (clauses 2.2, 2.6 and 2.7): frames, and idle flags between them.
ghost use Rattle.std.specs.Prelude.{◌≡◌, ℕ, ◌+◌, ◌<◌, ◌≤◌, ◌↔◌, List, [], ◌∷◌, ◌++◌, length, take, drop, min, IsTrue, None, IfNone, IfOk, IfSome};
ghost use Rattle.model_bits.specs.Bits.{low_bits, flag, number_of};
ghost use Rattle.model_bits.specs.Heads.{head_of};
ghost use Rattle.model_bits.specs.Sent.{Item, frame, item_text};
ghost use Rattle.model_bits.specs.Framer.{Framing, FramerStands, refilled, with_idle, still_held};

use crate::check::fcs_of_both;
use crate::heads::keep_first_four;
use crate::reading::Reading;
use crate::start_fault::StartFault;
use crate::stuffed_text::StuffedText;
use crate::waiting::{FLAG, Waiting};
use model_bits::Head;
use std::alloc::Global;
use std::marker::Model;

/// The bits of an octet.
const OCTET_BITS: u8 = 8;

/// Gives the octets of a line: one opening flag, then each frame that is loaded, stuffed, with its check and a
/// closing flag, and idle flags if no frame waits (Q.921 clauses 2.2, 2.6 and 2.7).
///
/// All its memory is taken by [`Framer::start`].
#[derive(Drop, Debug)]
pub struct Framer {
    /// Room for the longest frame, stuffed and with its check and flag.
    octets: Vec<u8>,
    /// Which of the octets goes next.
    next: usize,
    /// Before which they end.
    end: usize,
    /// The bits after them, fewer than eight.
    after: Waiting,
    /// How many bits of the first octet are of what went before the latest frame.
    lead: u8,
    /// The octets, without check, of the latest frame.
    latest: u16,
    /// Its first four octets. No frame has fewer than three, so where `latest` is 0 there was none.
    first: [u8; 4],
    n201: u16,
}

impl Model for Framer {
    ghost use Rattle.model_bits.specs.Framer.{Framing};

    ghost Value = { Framing };

    ghost use Rattle.lapd_bits.specs.FramerFields.{framing_of, IsSound};

    ghost view = { framing_of };

    ghost invariant = { IsSound };
}

impl Framer {
    /// A framer for information fields of at most `n201` octets (at most 1,024), which begins with a flag.
    ///
    /// # Errors
    /// [`StartFault::OutOfMemory`] if there is no memory for the longest frame.
    pub fn start(alloc: Global, n201: u16) -> Result<Framer, StartFault>
        requires { n201 ≤ 1024 }
        ensures begins { IfOk result (λ framer. framer ≡ record { left = flag; held = 0; begun = None; loaded = []; room = n201 }) }
        ensures stands { IfOk result (λ framer. FramerStands framer [] []) }
    {
        // A 0 more for five 1s at most, the bits that were left, and a flag.
        let room = (usize::from(n201) + 6) * 6 / 5 + 2;
        let mut octets = vec![in alloc; 0u8; room].map_err(|_| StartFault::OutOfMemory)?;
        octets[0] = FLAG;
        Ok(Framer {
            octets,
            next: 0,
            end: 1,
            after: Waiting { bits: 0, count: 0 },
            lead: 0,
            latest: 0,
            first: [0; 4],
            n201,
        })
    }

    /// Whether eight bits or more are left: no frame can be loaded then.
    #[tactic(auto, using(crate::proofs::FramerGiven::busy_rules))]
    pub fn busy(&self) -> bool
        ensures { IsTrue result ↔ (8 ≤ length self.now.left) }
    {
        self.next < self.end
    }

    /// The number of bits that are left, if it is below 8; otherwise 8.
    #[tactic(auto, using(crate::proofs::FramerGiven::length_to_give))]
    pub fn left(&self) -> u8
        ensures { result ≡ min 8 (length self.now.left) }
    {
        if self.busy() {
            OCTET_BITS
        } else {
            self.after.count as u8
        }
    }

    /// The octets, without check, of the latest item, where that is a frame and eight bits or more of it are left.
    pub fn held(&self) -> u32
        ensures held { result ≡ self.now.held }
        ensures bounded { result ≤ self.now.room + 4 }
    {
        if self.busy() {
            u32::from(self.latest)
        } else {
            0
        }
    }

    /// How the latest frame that was loaded begins, and how long it is; none if none was.
    pub fn begun(&self) -> Option<Head>
        ensures { result ≡ self.now.begun }
    {
        if 0 < self.latest {
            Some(Head {
                octets: self.first,
                length: self.latest,
            })
        } else {
            None
        }
    }

    /// Writes the octets of the latest frame that was loaded, without its check, in front of `out`, and answers how many they
    /// are: 0 if none was loaded. None if `out` has too little room; then nothing is written. They are read back out of the
    /// frame's text, which stays until another is loaded.
    pub fn write_loaded(&self, out: &mut [u8]) -> Option<usize>
        ensures none { IfNone result ((length out.old < length self.now.loaded) × (out.new ≡ out.old)) }
        ensures written { IfSome result (λ count. (count ≡ length self.now.loaded) × (out.new ≡ self.now.loaded ++ drop count out.old)) }
    {
        let count = usize::from(self.latest);
        if out.len() < count {
            return None;
        }
        let text = &self.octets[..self.end];
        Reading::at_bit(self.lead).octets(text, &mut out[..count]);
        Some(count)
    }

    /// Takes the frame of these octets, without its check: `head`, its address and control field, and then `info`, its
    /// information. It goes out after the bits that are left, with its check and a closing flag.
    ///
    /// Fewer than eight bits may be left ([`Framer::busy`] is false). `head` has at most 4 octets, `info` at most the
    /// `n201` of the start, and both together at least 3.
    // Apart, so that a loop over the octets of a bare framer keeps its registers.
    #[inline(never)]
    #[tactic(auto, using(crate::proofs::StuffingAtOnce::last_ones_none))]
    pub fn load(&mut self, head: &[u8], info: &[u8])
        requires not_busy { length self.old.left < 8 }
        requires head { length head.now ≤ 4 }
        requires info { length info.now ≤ self.old.room }
        requires a_frame { 3 ≤ length head.now + length info.now }
        ensures left { self.new.left ≡ self.old.left ++ item_text (frame (head.now ++ info.now)) }
        ensures held { self.new.held ≡ length head.now + length info.now }
        ensures begun { self.new.begun ≡ head_of (head.now ++ info.now) }
        ensures loaded { self.new.loaded ≡ head.now ++ info.now }
        ensures room { self.new.room ≡ self.old.room }
        ensures stands { (items : List Item) (given : List ℕ) → FramerStands self.old items given
            → FramerStands self.new (items ++ frame (head.now ++ info.now) ∷ []) given }
    {
        let check = fcs_of_both(head, info);
        // No 1 of the bits that are left counts.
        let mut text = StuffedText {
            end: 0,
            waiting: self.after,
            latest: 0,
        };
        let octets = self.octets.as_mut_slice();
        text.stuff(octets, head);
        text.end_with(octets, info, check);
        self.lead = self.after.count as u8;
        self.next = 0;
        self.end = text.end;
        self.after = text.waiting;
        self.latest = (head.len() + info.len()) as u16;
        keep_first_four(&mut self.first, head, info);
    }

    /// The next octet of the line, low bit first. If fewer than eight bits are left, an idle flag goes on
    /// after them first, and otherwise nothing.
    #[inline(always)]
    #[tactic(auto, using(crate::proofs::FramerGiven::length_to_give))]
    pub fn octet(&mut self) -> u8
        ensures octet { result ≡ number_of (take 8 (refilled self.old.left)) }
        ensures bits { low_bits 8 result ++ self.new.left ≡ refilled self.old.left }
        ensures held { self.new.held ≡ still_held self.new.left self.old.held }
        ensures begun { self.new.begun ≡ self.old.begun }
        ensures loaded { self.new.loaded ≡ self.old.loaded }
        ensures room { self.new.room ≡ self.old.room }
        ensures stands { (items : List Item) (given : List ℕ) → FramerStands self.old items given
            → FramerStands self.new (with_idle self.old.left items) (given ++ result ∷ []) }
    {
        if self.busy() {
            let octet = self.octets[self.next];
            self.next += 1;
            octet
        } else {
            self.after.push_flag();
            self.after.octet()
        }
    }
}
