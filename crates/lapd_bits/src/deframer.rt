//! What is heard on a line (clauses 2.2 to 2.10): octets go in one by one, and the frames in them come out.
ghost use Rattle.std.specs.Prelude.{◌≡◌, ℕ, ◌<◌, ◌≤◌, ◌^◌, Bool, List, [], ◌∷◌, ◌++◌, length, vec_len, IsTrue, IfOk, Option, None, option_to_list, option_map};
ghost use Rattle.std.specs.Option.{ForSome};
ghost use Rattle.model_bits.specs.Bits.{low_bits};
ghost use Rattle.lapd_bits.specs.Ended.{FitsIn};
ghost use Rattle.model_bits.specs.Stream.{heard_in};

use crate::ended::Ended;
use crate::flag_end::{FlagEnd, flag_end};
use crate::gap::Gap;
use crate::start_fault::StartFault;
use crate::unstuffer::{Content, at_once};
use model_bits::{Cause, Heard};
use std::alloc::Global;

/// The octets of a line of flags, by the number of bits of each flag that the octet before has.
static IDLE: [u8; 8] = [0x7E, 0x3F, 0x9F, 0xCF, 0xE7, 0xF3, 0xF9, 0xFC];

/// Hears the frames of a line in its octets: finds the flags, takes the stuffed 0s out, and checks what
/// stands between (Q.921 clauses 2.2 to 2.10). Frames may begin and end at any bit of an octet.
///
/// All its memory is taken by [`Deframer::start`].
#[derive(Drop, Debug)]
pub struct Deframer {
    octets: Vec<u8>,
    /// The contiguous 1s up to now; 7 stands for 7 and more, and for no bit at all.
    ones: u8,
    gap: Option<Gap>,
    /// What the latest octet ended. It lies in `octets` until the next.
    ended: Ended,
    ghost room: { 6 ≤ vec_len octets },
    ghost room_counts: { vec_len octets ≤ 1030 },
    ghost ones_counted: { ones ≤ 7 },
    ghost gap_fits: { ForSome gap (λ g. g.count ≤ vec_len octets) },
    ghost ended_fits: { FitsIn (vec_len octets) ended },
}

impl Deframer {
    ghost use Rattle.std.specs.Borrow.{sem};
    ghost use Rattle.std.specs.Io.BufRead.{Rests};
    ghost use Rattle.lapd_bits.specs.contracts.deframer.Deframer.{the_row};
    ghost use Rattle.lapd_bits.specs.Deframer.{DeframerStands, HoldsGap, latest_of};
    ghost use Rattle.model_bits.specs.OpenGap.{open_gap, octets_held, given_up_event, closed_event};
    ghost use Rattle.model_bits.specs.Heard.{heard_of};
    ghost use Rattle.lapd_bits.specs.Ended.{event_in, without_octets};
    ghost use Rattle.lapd_bits.specs.FlagEnd.{IsFlagEnd};
    ghost use Rattle.lapd_bits.specs.Steps.{EndsFlag, Hears, IsJoined, IsYoung, Takes, with_bits};

    /// A deframer for frames with information fields of `n201` octets at most, which is 1,024 at most. Its line
    /// has brought no octet yet.
    ///
    /// # Errors
    /// [`StartFault::OutOfMemory`] where the memory for the longest frame can't be had.
    pub fn start(alloc: Global, n201: u16) -> Result<Deframer, StartFault>
        requires { n201 ≤ 1024 }
        ensures fresh { IfOk result (λ deframer. DeframerStands n201 deframer []) }
        // No octet has ended anything.
        ensures silent { IfOk result (λ deframer. latest_of deframer ≡ None) }
    {
        let octets = vec![in alloc; 0u8; n201 as usize + 6].map_err(|_| StartFault::OutOfMemory)?;
        Ok(Deframer {
            octets,
            ones: 7,
            gap: None,
            ended: Ended::Nothing,
        })
    }

    /// Takes the next octet of the line, low bit first, and tells what it has ended: one event at most.
    /// A frame is lent until the next octet.
    #[inline(always)]
    pub fn octet(&mut self, octet: u8) -> Heard<'_>
        // What is heard in all the octets so far has gained exactly this event.
        ensures heard { (n201 : ℕ) (past : List ℕ) → DeframerStands n201 self.old past
            → heard_in n201 (past ++ octet ∷ []) ≡ heard_in n201 past ++ option_to_list (heard_of result) }
        // The deframer stands for the octets with this one, once the loan is over.
        ensures* after { sem 𝓛 (Rests the_row self.entry
            (λ v. (n201 : ℕ) (past : List ℕ) → DeframerStands n201 self.old past → DeframerStands n201 v (past ++ octet ∷ []))) }
    {
        // All changes are made in a step that answers without references, since the toolchain proves no loan
        // beside a later write.
        self.step(octet);
        self.latest()
    }

    /// Takes the next octet of the line as [`Deframer::octet`] does, and answers without references, for a caller
    /// that has more to change before it looks at a frame. [`Deframer::latest`] lends what the octet ended.
    #[inline(always)]
    pub fn step(&mut self, octet: u8) -> Ended
        // What is heard in all the octets so far has gained exactly what the deframer lends now,
        ensures heard { (n201 : ℕ) (past : List ℕ) → DeframerStands n201 self.old past
            → heard_in n201 (past ++ octet ∷ []) ≡ heard_in n201 past ++ option_to_list (latest_of self.new) }
        // for which the deframer stands for the octets with this one.
        ensures after { (n201 : ℕ) (past : List ℕ) → DeframerStands n201 self.old past → DeframerStands n201 self.new (past ++ octet ∷ []) }
        // The answer tells what it is, and how long where it is a frame.
        ensures told { result ≡ without_octets (latest_of self.new) }
    {
        // Most octets end nothing. They are taken here, and all others apart, so that a caller has little to do for them.
        if let Some(content) = at_once(self.ones, octet) {
            self.take_content(content);
            self.ended = Ended::Nothing;
        } else if self.is_idle(octet) {
            self.ended = Ended::Nothing;
        } else {
            self.take_ending(octet);
        }
        self.ended
    }

    /// Lends again what the latest octet ended, until the next octet; nothing if no octet has come.
    #[inline(always)]
    pub fn latest(&self) -> Heard<'_>
        ensures lent { heard_of result ≡ latest_of self.now }
        // It is what the latest octet brought.
        ensures heard { (n201 : ℕ) (past : List ℕ) (octet : ℕ) → DeframerStands n201 self.now (past ++ octet ∷ [])
            → heard_in n201 (past ++ octet ∷ []) ≡ heard_in n201 past ++ option_to_list (heard_of result) }
    {
        match self.ended {
            Ended::Nothing => Heard::Nothing,
            Ended::Dropped(cause) => Heard::Dropped(cause),
            Ended::Frame(len) => Heard::Frame(&self.octets[..usize::from(len)]),
            Ended::Overlong => {
                let octets = &self.octets;
                Heard::Overlong([octets[0], octets[1], octets[2], octets[3]])
            }
        }
    }

    /// How many whole octets of the open gap are kept, four once there are too many to keep; 0 if none is open.
    pub fn held(&self) -> u32
        ensures held { (n201 : ℕ) (past : List ℕ) → DeframerStands n201 self.now past → result ≡ octets_held n201 past }
    {
        match self.gap {
            Some(gap) => gap.held() as u32,
            None => 0,
        }
    }

    /// Whether the octet leaves all as it is, since it goes on with flags: the bits since the latest flag begin another, and
    /// the octet has that flag's other bits and as many of the next.
    #[inline(always)]
    fn is_idle(&self, octet: u8) -> bool
        ensures stays { IsTrue result → Takes octet self.now self.now Ended.Nothing }
    {
        let Some(gap) = &self.gap else {
            return false;
        };
        if gap.since >= 8 {
            return false;
        }
        // The first bit of a flag is a 0, and the others up to its last are 1s.
        if self.ones != gap.since.saturating_sub(1) {
            return false;
        }
        octet == IDLE[gap.since as usize]
    }

    /// Takes what an octet brings that ends nothing.
    #[inline(always)]
    fn take_content(&mut self, content: Content)
        ensures room { length self.new.octets.items ≡ length self.old.octets.items }
        ensures ones { self.new.ones ≡ content.ones }
        ensures stands { (octet : ℕ) (gap : Option (List Bool)) → IsJoined (low_bits 8 octet) (low_bits content.count content.bits) gap
            → HoldsGap self.old.octets.items self.old.gap gap
            → HoldsGap self.new.octets.items self.new.gap (option_map (with_bits 8 octet) gap) }
    {
        self.ones = content.ones;
        if let Some(gap) = &mut self.gap {
            gap.since = 8;
            gap.join(&mut self.octets, content.bits, content.count);
        }
    }

    /// Takes an octet that may end something, and keeps what it has ended: an answer would take the caller room and time at
    /// each octet, also if this is not called. It is marked as rare, so that a caller's loop goes straight on for all other
    /// octets.
    #[inline(never)]
    #[cold]
    fn take_ending(&mut self, octet: u8)
        ensures takes { Takes octet self.old self.new self.new.ended }
    {
        // Mostly a flag ends. Taking such an octet at once is there for speed alone: bit by bit it brings the same.
        self.ended = match flag_end(self.ones, octet) {
            Some(flag) => self.take_flag_end(flag),
            None => self.bit_by_bit(octet),
        };
    }

    /// Takes an octet in which a flag ends and nothing else does.
    fn take_flag_end(&mut self, flag: FlagEnd) -> Ended
        ensures fits { FitsIn (vec_len self.new.octets) result }
        ensures takes { (octet : ℕ) → IsFlagEnd self.old.ones octet flag.before flag.front flag.behind flag.ones
            → Takes octet self.old self.new result }
    {
        let ended = self.close_after(flag.front, flag.before);
        self.gap = Some(Gap::begun(flag.behind, 7 - flag.before));
        self.ones = flag.ones;
        ended
    }

    /// Takes an octet bit by bit.
    #[inline(never)]
    fn bit_by_bit(&mut self, octet: u8) -> Ended
        ensures fits { FitsIn (vec_len self.new.octets) result }
        ensures takes { Takes octet self.old self.new result }
    {
        // At most one bit of an octet ends something, and the fewer than eight bits after it fill no octet. So what
        // it lies in is still whole when it is lent.
        let mut ended = Ended::Nothing;
        for place in 0..8u8 {
            match self.bit((octet >> place) & 1 == 1) {
                Ended::Nothing => {}
                event => ended = event,
            }
        }
        ended
    }

    fn bit(&mut self, bit: bool) -> Ended
        ensures fits { FitsIn (vec_len self.new.octets) result }
        ensures hears { Hears bit self.old self.new result }
    {
        let ones = self.ones;
        self.ones = if bit { (ones + 1).min(7) } else { 0 };
        // A bit after six 1s ends something: a seventh gives the gap up, and a 0 is a flag's last bit.
        if ones == 6 {
            if bit {
                return self.given_up();
            }
            let ended = self.close_after(0, 0);
            self.gap = Some(Gap::begun(0, 0));
            return ended;
        }
        if let Some(gap) = &mut self.gap {
            gap.since = (gap.since + 1).min(8);
            let bits = u8::from(bit);
            // After five 1s a 0 is a stuffed one, which does not stay.
            let count = if ones == 5 { bits } else { 1 };
            gap.join(&mut self.octets, bits, count);
        }
        Ended::Nothing
    }

    /// Gives the open gap up, at the seventh contiguous 1.
    fn given_up(&mut self) -> Ended
        ensures fits { FitsIn (vec_len self.new.octets) result }
        ensures octets { self.new.octets ≡ self.old.octets }
        ensures ones { self.new.ones ≡ self.old.ones }
        ensures gap { self.new.gap ≡ None }
        ensures quiet { IsYoung 7 self.old.gap → result ≡ Ended.Nothing }
        ensures told { (gap : Option (List Bool)) → HoldsGap self.old.octets.items self.old.gap gap
            → event_in self.old.octets.items result ≡ given_up_event gap }
    {
        match self.gap.take() {
            Some(gap) if gap.since >= 7 => Ended::Dropped(Cause::Abort),
            _ => Ended::Nothing,
        }
    }

    /// What a flag closes whose last bit comes after these bits more, the first of them lowest.
    fn close_after(&mut self, front: u8, before: u8) -> Ended
        requires at_most { before ≤ 7 }
        requires below { front < 2 ^ before }
        ensures fits { FitsIn (vec_len self.new.octets) result }
        ensures room { length self.new.octets.items ≡ length self.old.octets.items }
        ensures untouched { before ≡ 0 → self.new.octets.items ≡ self.old.octets.items }
        ensures ones { self.new.ones ≡ self.old.ones }
        ensures quiet { before ≡ 0 → IsYoung 7 self.old.gap → result ≡ Ended.Nothing }
        ensures told { (past : List Bool) → EndsFlag (low_bits before front) past
            → HoldsGap self.old.octets.items self.old.gap (open_gap past)
            → event_in self.new.octets.items result
            ≡ closed_event (length self.old.octets.items) (open_gap (with_bits before front past)) }
    {
        let Some(gap) = &mut self.gap else {
            return Ended::Nothing;
        };
        // Nothing stands between two flags that follow one another or share their 0.
        if gap.since + before < 8 {
            return Ended::Nothing;
        }
        gap.since = 8;
        gap.join(&mut self.octets, front, before);
        gap.closed(&self.octets)
    }
}
