//! The next frame that is sent.

ghost use Rattle.std.specs.Prelude.{◌≡◌, [], ℕ, ◌<◌, ◌≤◌, true, List, length, None, Some, IfSome, IsTrue, is_some};
ghost use Rattle.lapd_link_steps.specs.{outstanding_of, Terms, Link, queue_of, given, BareReport, awaiting, link_of, Fits, Gives, Rests, given_of};
ghost use Rattle.model_link.specs.Offers as offers;
ghost use Rattle.lapd_link_steps.specs.Past.{Past};
ghost use Rattle.lapd_link_steps.specs.Does.{Does};

use crate::entity::Entity;
use crate::report::BareReport;
use lapd_frame::Control;
use model_link::{ControlFrame, LinkTimer, State, Terms};

/// A frame that is sent.
#[derive(Clone, Copy)]
pub struct Given {
    /// Command or response, and the control field.
    pub frame: ControlFrame,
    /// The place of its contents in the queue, if it is an I-frame; 0 is the oldest.
    pub place: Option<usize>,
}

impl Entity {
    /// The next frame, if there is one, while so many contents are queued: the control frame that has waited longest;
    /// otherwise an I-frame; otherwise the acknowledgement that is owed.
    #[inline(always)]
    pub fn offer(&mut self, terms: &Terms, told: &mut BareReport, queued: usize) -> Option<Given>
        requires { terms.now.k ≤ 127 }
        ensures gives { Gives terms.now (offers.offer_step terms.now) queued self.old told.old self.new told.new result }
        // An I-frame alone has to do with timers.
        ensures quiet { IfSome result (λ given. given.place ≡ None → (self.new.running ≡ self.old.running) × (told.new.started ≡ told.old.started)) }
    {
        match self.waiting.pop_front() {
            Some(frame) => {
                self.counts.control_sent(frame.control);
                Some(Given { frame, place: None })
            }
            None => self.offer_numbered(terms, told, queued),
        }
    }

    /// Whether there is a frame to give, while so many contents are queued.
    #[inline(always)]
    pub fn has_frame(&self, terms: &Terms, queued: usize) -> bool
        ensures { (m : Link) → Rests terms.now self.now m → length (queue_of m) ≡ queued → queued ≤ 127 → result ≡ is_some (given terms.now m) }
    {
        if !self.waiting.is_empty() {
            return true;
        }
        self.may_send_information(terms, queued) || self.pending
    }

    // The next frame while no control frame waits.
    #[inline(always)]
    fn offer_numbered(
        &mut self,
        terms: &Terms,
        told: &mut BareReport,
        queued: usize,
    ) -> Option<Given>
        requires { terms.now.k ≤ 127 }
        ensures gives { Gives terms.now (offers.offer_among terms.now []) queued self.old told.old self.new told.new result }
        ensures quiet { IfSome result (λ given. given.place ≡ None → (self.new.running ≡ self.old.running) × (told.new.started ≡ told.old.started)) }
    {
        if self.may_send_information(terms, queued) {
            return Some(self.send_information(told));
        }
        if !self.pending {
            return None;
        }
        self.pending = false;
        Some(Given {
            frame: ControlFrame {
                command: false,
                control: Control::ReceiveReady {
                    nr: self.vr,
                    pf: false,
                },
            },
            place: None,
        })
    }

    // Whether an I-frame may be sent.
    fn may_send_information(&self, terms: &Terms, queued: usize) -> bool
        ensures window { IsTrue result → outstanding_of self.now.window < terms.now.k }
        ensures machine { (messages : List (List ℕ)) (t : BareReport) (p : Past) → length messages ≡ queued → t.released ≡ 0 →
            Fits terms.now messages self.now t p → result ≡ offers.may_send_information terms.now (link_of self.now p) }
    {
        usize::from(self.window.outstanding()) < queued
            && matches!(self.state, State::Established)
            && !self.peer_busy
            && self.window.may_send(terms.k)
    }

    // Sends the I-frame with the first contents that are unsent. It carries the acknowledgement.
    #[inline(always)]
    fn send_information(&mut self, told: &mut BareReport) -> Given
        requires { outstanding_of self.old.window < 127 }
        ensures gives { (terms : Terms) (queued : ℕ) → Gives terms offers.send_information queued self.old told.old self.new told.new (Some result) }
        ensures numbered { is_some result.place ≡ true }
    {
        let given = self.next_information();
        self.window.advance();
        self.counts.information_sent(self.again);
        self.again = self.again.saturating_sub(1);
        self.pending = false;
        self.await_acknowledgement(told);
        given
    }

    fn next_information(&self) -> Given
        ensures numbered { is_some result.place ≡ true }
        ensures given { (terms : Terms) (messages : List (List ℕ)) (t : BareReport) (p : Past) → t.released ≡ 0 → Fits terms messages self.now t p →
            given_of messages (Some result) ≡ Some (record { frame = offers.next_information (link_of self.now p); contents = offers.first_unsent (link_of self.now p) }) }
    {
        let frame = ControlFrame {
            command: true,
            control: Control::Information {
                ns: self.window.vs(),
                nr: self.vr,
                pf: false,
            },
        };
        Given {
            frame,
            place: Some(usize::from(self.window.outstanding())),
        }
    }

    // T200 is started unless it runs.
    #[tactic(auto, using(crate::proofs::Steps::where_no))]
    fn await_acknowledgement(&mut self, told: &mut BareReport)
        ensures { (terms : Terms) (info : List ℕ) → Does terms info awaiting self.old told.old self.new told.new }
    {
        if !self.runs(LinkTimer::T200) {
            self.start_timer(told, LinkTimer::T200);
        }
    }
}
