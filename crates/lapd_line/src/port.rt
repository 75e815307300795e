//! The port of a line: what stands between its octets and its frames.

ghost use Rattle.std.specs.Prelude.{◌≡◌, ℕ, ◌+◌, ◌*◌, ◌<◌, ◌≤◌, ◌^◌, ◌∷◌, ◌++◌, [], length, drop, IsTrue, Option, Some, IfNone, IfOk, IfSome};
ghost use Rattle.lapd_line.specs.{without_octets, head_of, heard_of, Answer, head_begun, head_heard, gained, is_due, fresh_port, held_at, orders_taken, PortStands, IsSaid, latest_in, latest_frame, or_latest, with_frame};
ghost use Rattle.model_bits.specs.Heads as heads;
ghost use Rattle.model_card.specs.ports.Port as machine;

use crate::came::octets_of;
use crate::fault::StartFault;
use crate::pulled::Pulled;
use lapd_bits::{Deframer, Ended, Framer};
use lapd_frame::{Order, ShortList, octet_at};
use model_bits::{Head, Heard};
use std::alloc::Global;

/// The port of a line: it hears frames in the octets that come, and puts frames on the line, with flags, stuffed 0s and checks
/// (Q.921 clause 2).
///
/// All its memory is taken by [`Port::start`]; no other call takes any. What an octet has ended is for
/// [`FrameLine::heard`](crate::FrameLine::heard); what a pull is to begin comes from
/// [`FrameLine::load_next`](crate::FrameLine::load_next).
#[derive(Debug, Drop)]
pub struct Port {
    pub(crate) deframer: Deframer,
    pub(crate) framer: Framer,
    /// How the frame began that was heard last.
    heard: Option<Head>,
    /// The least length of a frame that is too long to be kept.
    too_long: u16,
}

impl Port {
    ghost use Rattle.lapd_line.specs.Ports.{Pulls};

    /// A port for information fields of `n201` octets at most, which is 1,024 at most. No octet has come, and none was given.
    ///
    /// # Errors
    ///
    /// `OutOfMemory` if there is no memory for the longest frame each way.
    pub fn start(alloc: Global, n201: u16) -> Result<Port, StartFault>
        requires { n201 ≤ 1024 }
        ensures fresh { IfOk result (λ port. PortStands n201 port fresh_port) }
    {
        let deframer = Deframer::start(alloc, n201)?;
        let framer = Framer::start(alloc, n201)?;
        Ok(Port {
            deframer,
            framer,
            heard: None,
            too_long: n201 + 5,
        })
    }

    /// Takes an octet that came from the line, low bit first, and tells whether it has ended anything. [`Port::latest`] lends
    /// what.
    #[inline(always)]
    pub fn octet(&mut self, octet: u8) -> Ended
        ensures gained { (n201 : ℕ) (p : machine.Port) → PortStands n201 self.old p → gained n201 p.received octet ≡ latest_in self.new }
        ensures after { (n201 : ℕ) (p : machine.Port) → PortStands n201 self.old p
            → PortStands n201 self.new (record p { received = p.received ++ octet ∷ [] }) }
        ensures told { result ≡ without_octets (latest_in self.new) }
    {
        let ended = self.deframer.step(octet);
        match ended {
            Ended::Nothing | Ended::Dropped(_) => {}
            Ended::Frame(_) | Ended::Overlong => self.heard = self.latest_head(),
        }
        ended
    }

    /// What the latest octet has ended; nothing if none has come. A frame is lent until the next octet.
    #[inline(always)]
    pub fn latest(&self) -> Heard<'_>
        ensures { heard_of result ≡ latest_in self.now }
    {
        self.deframer.latest()
    }

    /// The octets of the frame that the latest octet has ended, lent until the next octet; none where it ended no frame.
    pub fn latest_frame(&self) -> &[u8]
        ensures { result.now ≡ latest_frame self.now }
    {
        octets_of(self.latest())
    }

    /// Whether fewer than eight bits are left to send, so that the next pull needs a frame to begin.
    #[inline(always)]
    pub fn is_due(&self) -> bool
        ensures due { (n201 : ℕ) (p : machine.Port) → PortStands n201 self.now p → result ≡ is_due p }
        ensures few { IsTrue result → length self.now.framer.left < 8 }
    {
        !self.framer.busy()
    }

    /// Gives the next octet of the line, low bit first, with the orders of the frame that was loaded for it, if one was; where
    /// fewer than eight bits are left to send and none was, an idle flag goes on first.
    #[inline(always)]
    pub fn give(&mut self, taken: Option<ShortList<Order>>) -> Pulled
        ensures { (n201 : ℕ) (p : machine.Port) (said : Option Answer) → IsSaid p said (orders_taken taken)
            → PortStands n201 self.old (with_frame (machine.frame_begun said) p) → Pulls n201 p said result self.new }
    {
        Pulled {
            octet: self.framer.octet(),
            begun: taken.is_some(),
            orders: taken.unwrap_or(ShortList::none()),
        }
    }

    /// How the frame that a pull began last begins, and how long it is; none if none was begun yet. So after a pull that
    /// has [`begun`](Pulled::begun) a frame, this is that frame, until a pull begins another.
    pub fn begun(&self) -> Option<Head>
        ensures is { result ≡ self.now.framer.begun }
        ensures begun { (n201 : ℕ) (p : machine.Port) → PortStands n201 self.now p → result ≡ head_begun p }
    {
        self.framer.begun()
    }

    /// Writes that frame, without its check, in front of `out`, and answers how many octets it has: 0 if none was begun yet. None
    /// if `out` has too little room; then nothing is written.
    pub fn write_begun(&self, out: &mut [u8]) -> Option<usize>
        ensures none { IfNone result (out.new ≡ out.old) }
        ensures empty { result ≡ Some 0 → out.new ≡ out.old }
        ensures short { IfNone result ((n201 : ℕ) (p : machine.Port) → PortStands n201 self.now p → length out.old < length (heads.latest_frame p.items)) }
        ensures written { IfSome result (λ count. (n201 : ℕ) (p : machine.Port) → PortStands n201 self.now p
            → (count ≡ length (heads.latest_frame p.items)) × (out.new ≡ heads.latest_frame p.items ++ drop count out.old)) }
    {
        self.framer.write_loaded(out)
    }

    /// How the frame that was heard last begins, and how long it is, also if it was dropped afterwards; none if none was heard
    /// yet. Of a frame that is too long to be kept, the length is N201 and five octets, whatever it was.
    pub fn heard(&self) -> Option<Head>
        ensures { (n201 : ℕ) (p : machine.Port) → PortStands n201 self.now p → result ≡ head_heard n201 p }
    {
        self.heard
    }

    /// The same with what the latest octet has ended, which is not kept yet. It stands apart, since few octets end a frame.
    #[inline(never)]
    fn latest_head(&self) -> Option<Head>
        ensures { (n201 : ℕ) → self.now.too_long ≡ n201 + 5 → result ≡ or_latest n201 self.now.heard (latest_in self.now) }
    {
        match self.deframer.latest() {
            Heard::Nothing | Heard::Dropped(_) => self.heard,
            Heard::Frame(octets) => head_of(octets),
            Heard::Overlong(octets) => Some(Head {
                octets,
                length: self.too_long,
            }),
        }
    }

    /// How many octets the port stores: of the frame that is received, and of the frame that is sent.
    pub fn held(&self) -> u32
        requires { (n201 : ℕ) × (n201 ≤ 1024) × ((p : machine.Port) × PortStands n201 self.now p) }
        ensures held { (n201 : ℕ) (p : machine.Port) → PortStands n201 self.now p → result ≡ held_at n201 p }
        ensures few { (n201 : ℕ) (p : machine.Port) → PortStands n201 self.now p → result ≤ 2 * n201 + 10 }
    {
        self.deframer.held() + self.framer.held()
    }
}

/// How a frame of these octets begins, and how long it is.
fn head_of(octets: &[u8]) -> Option<Head>
    requires { length octets.now < 2 ^ 16 }
    ensures { result ≡ head_of octets.now }
{
    if octets.is_empty() {
        return None;
    }
    Some(Head {
        octets: [
            octet_at(octets, 0),
            octet_at(octets, 1),
            octet_at(octets, 2),
            octet_at(octets, 3),
        ],
        length: octets.len() as u16,
    })
}
