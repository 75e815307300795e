//! The state and the variables of a link.

use circular_buffer::HeapCircularBuffer;
use lapd_seq::{Seq, Window};
use model_link::{ControlFrame, LinkCounts, LinkTimer, State};
use std::alloc::{AllocError, Global};

/// The data link layer entity of one link, without its queue of contents.
///
/// Calls that take the link's `Terms` say nothing where `terms.control` is not the `control` of the start.
#[derive(Drop, Debug)]
pub struct Entity {
    pub(crate) state: State,
    // V(A) and V(S)
    pub(crate) window: Window,
    // V(R)
    pub(crate) vr: Seq,
    // how many of the contents from V(S) on were sent before
    pub(crate) again: u8,
    // the terminal can take no I-frames
    pub(crate) peer_busy: bool,
    // this side can take no I-frames
    pub(crate) own_busy: bool,
    // REJ was sent, and the I-frame that it asks for has not come
    pub(crate) rejecting: bool,
    // an acknowledgement is owed for I-frames received
    pub(crate) pending: bool,
    // layer 3 asked for the establishment that is awaited
    pub(crate) asked: bool,
    // layer 3 asked for the release in state 5, and it is to be carried out (annex B)
    pub(crate) owed: bool,
    // RC
    pub(crate) repeats: u8,
    pub(crate) running: Option<LinkTimer>,
    pub(crate) counts: LinkCounts,
    // control frames that wait to be sent, oldest first
    pub(crate) waiting: HeapCircularBuffer<ControlFrame>,
}

impl Entity {
    ghost use Rattle.std.specs.Prelude.{◌≡◌, IfOk};
    ghost use Rattle.lapd_link_steps.specs.{IsFresh, va_of};

    /// An entity as it begins, with room for `control` control frames that wait.
    ///
    /// # Errors
    ///
    /// `AllocError` if there is no room for them.
    pub fn start(alloc: Global, control: usize) -> Result<Entity, AllocError>
        ensures { IfOk result (λ entity. IsFresh control entity) }
    {
        let waiting = HeapCircularBuffer::with_capacity(alloc, control)?;
        Ok(Entity {
            state: State::TeiAssigned,
            window: Window::new(),
            vr: Seq::zero(),
            again: 0,
            peer_busy: false,
            own_busy: false,
            rejecting: false,
            pending: false,
            asked: false,
            owed: false,
            repeats: 0,
            running: None,
            counts: LinkCounts::none(),
            waiting,
        })
    }

    /// The state.
    pub fn state(&self) -> State
        ensures { result ≡ self.now.state }
    {
        self.state
    }

    /// Whether a release is owed.
    pub fn is_owed(&self) -> bool
        ensures { result ≡ self.now.owed }
    {
        self.owed
    }

    /// The timer that runs.
    pub fn running(&self) -> Option<LinkTimer>
        ensures { result ≡ self.now.running }
    {
        self.running
    }

    /// What was counted.
    pub fn counts(&self) -> LinkCounts
        ensures { result ≡ self.now.counts }
    {
        self.counts
    }

    /// V(A).
    pub fn va(&self) -> Seq
        ensures { result ≡ va_of self.now.window }
    {
        self.window.va()
    }
}

impl Entity {
    ghost use Rattle.std.specs.Prelude.{◌≡◌, ◌≤◌, length, slice_get, Some, sum_by};
    ghost use Rattle.lapd_link_steps.specs.{Network, spelling, start_of, ControlFrame, Terms, frame_of};

    /// The octets of the control frames that wait, of which there are at most 16.
    pub fn held(&self) -> u32
        requires { length self.now.waiting.items ≤ 16 }
        ensures { (terms : Terms) → result ≡ sum_by (λ f. length (spelling Network (frame_of terms f))) self.now.waiting.items }
    {
        let mut octets = 0;
        for place in 0..self.waiting.len() {
            octets += self.octets_at(place);
        }
        octets
    }

    // The octets of the frame at a place of the ring.
    fn octets_at(&self, place: usize) -> u32
        ensures octets { (frame : ControlFrame) → slice_get self.now.waiting.items place ≡ Some frame → result ≡ start_of frame.control }
        ensures bound { result ≤ 4 }
    {
        match self.waiting.get(place) {
            Some(frame) => frame.control.start() as u32,
            None => 0,
        }
    }
}
