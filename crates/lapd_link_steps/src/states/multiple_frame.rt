//! What states 7 and 8 have in common: multiple-frame operation.

ghost use Rattle.std.specs.Prelude.{◌≡◌, ℕ, List, length};
ghost use Rattle.lapd_link_steps.specs.{by_number, HasRoom, Tells, particulars, effect_of, supervisory, renewed};
ghost use Rattle.model_link.specs.MultipleFrame as row;
ghost use Rattle.model_link.specs.Words as word;
ghost use Rattle.lapd_link_steps.specs.Does.{Does};

use crate::entity::Entity;
use crate::report::BareReport;
use lapd_frame::{Control, ErrorCode, Note, Reading};
use lapd_seq::Seq;
use model_link::{LinkTimer, State, Terms};

// A frame that brings an N(R), which has its effect by it.
#[derive(Clone, Copy)]
pub(crate) enum Bearer {
    Information,
    Rr,
    Rnr,
    Rej,
}

impl Entity {
    // A frame with so many octets of information, in state 8 (`recovering`) or in state 7.
    #[inline(always)]
    pub(crate) fn frame_in_7_8(
        &mut self,
        terms: &Terms,
        told: &mut BareReport,
        recovering: bool,
        command: bool,
        control: Control,
        octets: usize,
    )
        requires { HasRoom 2 2 told.old }
        ensures tells { Tells 2 2 told.old told.new }
        ensures does { (info : List ℕ) → length info ≡ octets →
            Does terms.now info (row.frame_in_7_8 (particulars recovering terms.now) terms.now command info control) self.old told.old self.new told.new }
    {
        match control {
            Control::Information { ns, nr, pf } => {
                if usize::from(terms.n201) < octets {
                    return self.failed(terms, told, ErrorCode::O);
                }
                let is_final = false;
                self.contents_in_7_8(terms, told, ns, pf);
                self.number(terms, told, recovering, nr, Bearer::Information, is_final);
            }
            Control::ReceiveReady { nr, pf } => {
                self.peer_busy = false;
                self.supervisory(terms, told, recovering, Bearer::Rr, command, nr, pf);
            }
            Control::ReceiveNotReady { nr, pf } => {
                self.peer_busy = true;
                self.supervisory(terms, told, recovering, Bearer::Rnr, command, nr, pf);
            }
            Control::Reject { nr, pf } => {
                self.counts.reject_received();
                self.peer_busy = false;
                self.supervisory(terms, told, recovering, Bearer::Rej, command, nr, pf);
            }
            Control::Sabme { pf } => self.sabme_in_7_8(terms, told, pf),
            Control::Disc { pf } => self.disc_in_7_8(terms, told, pf),
            Control::Ua { pf: true } => told.error(terms, ErrorCode::C),
            Control::Ua { pf: false } => told.error(terms, ErrorCode::D),
            Control::Dm { pf: true } => self.dm_in_7_8(terms, told, recovering),
            Control::Dm { pf: false } => self.failed(terms, told, ErrorCode::E),
            Control::Frmr { .. } => self.failed(terms, told, ErrorCode::K),
            Control::Ui { .. } => self.unit_in_7_8(terms, told, octets),
            Control::Xid { .. } => told.note(Note::Xid(terms.service, terms.tei)),
        }
    }

    // Handles the P/F bit and N(R) of RR, RNR and REJ; the caller has already set peer-busy. `is_final` means a response with
    // F=1, which answers a command.
    #[inline(always)]
    fn supervisory(
        &mut self,
        terms: &Terms,
        told: &mut BareReport,
        recovering: bool,
        by: Bearer,
        command: bool,
        nr: Seq,
        pf: bool,
    )
        requires { HasRoom 2 2 told.old }
        ensures tells { Tells 2 2 told.old told.new }
        ensures does { (info : List ℕ) →
            Does terms.now info (supervisory (particulars recovering terms.now) terms.now by command nr pf) self.old told.old self.new told.new }
    {
        let is_final = !command && pf;
        self.answer_if(terms, told, command && pf);
        told.unsolicited(terms, !recovering && is_final);
        self.number(terms, told, recovering, nr, by, is_final);
    }

    // An N(R): it is not valid, or it has its effect.
    #[inline(always)]
    fn number(
        &mut self,
        terms: &Terms,
        told: &mut BareReport,
        recovering: bool,
        nr: Seq,
        by: Bearer,
        is_final: bool,
    )
        requires { HasRoom 1 1 told.old }
        ensures tells { Tells 1 1 told.old told.new }
        ensures does { (info : List ℕ) →
            Does terms.now info (by_number terms.now nr (effect_of (particulars recovering terms.now) by is_final)) self.old told.old self.new told.new }
    {
        if !self.names(nr) {
            return self.failed(terms, told, ErrorCode::J);
        }
        if recovering {
            return self.acknowledged_in_8(told, nr, by, is_final);
        }
        self.acknowledged_in_7(told, nr, by);
    }

    // UI: unit data, if it is not too long.
    #[cold]
    fn unit_in_7_8(&mut self, terms: &Terms, told: &mut BareReport, octets: usize)
        requires { HasRoom 1 1 told.old }
        ensures tells { Tells 1 1 told.old told.new }
        ensures does { (info : List ℕ) → length info ≡ octets →
            Does terms.now info (word.unit_data terms.now (row.long_unit_in_7_8 terms.now) info) self.old told.old self.new told.new }
    {
        if usize::from(terms.n201) < octets {
            return self.long_unit_in_7_8(terms, told);
        }
        told.deliver_unit(terms);
    }

    fn long_unit_in_7_8(&mut self, terms: &Terms, told: &mut BareReport)
        requires { HasRoom 1 1 told.old }
        ensures tells { Tells 1 1 told.old told.new }
        ensures does { (info : List ℕ) → Does terms.now info (row.long_unit_in_7_8 terms.now) self.old told.old self.new told.new }
    {
        match terms.reading {
            Reading::Profile => told.leave_unserved(),
            Reading::AnnexB => self.failed(terms, told, ErrorCode::O),
        }
    }

    // DM with F=1.
    #[cold]
    fn dm_in_7_8(&mut self, terms: &Terms, told: &mut BareReport, recovering: bool)
        requires { HasRoom 1 1 told.old }
        ensures tells { Tells 1 1 told.old told.new }
        ensures does { (info : List ℕ) → Does terms.now info (particulars recovering terms.now).by_dm self.old told.old self.new told.new }
    {
        if recovering {
            return self.failed(terms, told, ErrorCode::B);
        }
        told.error(terms, ErrorCode::B);
    }

    // Layer 3 asks for the release.
    pub(crate) fn release_in_7_8(&mut self, terms: &Terms, told: &mut BareReport)
        requires { HasRoom 0 1 told.old }
        ensures tells { Tells 0 1 told.old told.new }
        ensures does { (info : List ℕ) → Does terms.now info (row.release_in_7_8 terms.now) self.old told.old self.new told.new }
    {
        self.discard(told);
        self.pending = false;
        self.command(terms, told, Control::Disc { pf: true });
        self.repeats = 0;
        self.start_timer(told, LinkTimer::T200);
        self.state = State::AwaitingRelease;
    }

    /// Layer 3 can take no more contents, in states 7 and 8.
    pub fn set_busy_in_7_8(&mut self, terms: &Terms, told: &mut BareReport)
        requires { HasRoom 0 1 told.old }
        ensures tells { Tells 0 1 told.old told.new }
        ensures does { (info : List ℕ) → Does terms.now info (row.set_busy_in_7_8 terms.now) self.old told.old self.new told.new }
    {
        if self.own_busy {
            return;
        }
        self.own_busy = true;
        self.report_receiver_status(terms, told, false);
    }

    /// Layer 3 can take contents again, in states 7 and 8.
    pub fn clear_busy_in_7_8(&mut self, terms: &Terms, told: &mut BareReport)
        requires { HasRoom 0 1 told.old }
        ensures tells { Tells 0 1 told.old told.new }
        ensures does { (info : List ℕ) → Does terms.now info (row.clear_busy_in_7_8 terms.now) self.old told.old self.new told.new }
    {
        if !self.own_busy {
            return;
        }
        self.own_busy = false;
        self.report_receiver_status(terms, told, false);
    }

    // The terminal establishes the link again.
    #[cold]
    pub(crate) fn sabme_in_7_8(&mut self, terms: &Terms, told: &mut BareReport, pf: bool)
        requires { HasRoom 2 1 told.old }
        ensures tells { Tells 2 1 told.old told.new }
        ensures does { (info : List ℕ) → Does terms.now info (row.sabme_in_7_8 terms.now pf) self.old told.old self.new told.new }
    {
        self.response(terms, told, Control::Ua { pf });
        self.clear_flags();
        told.error(terms, ErrorCode::F);
        self.discard_outstanding(terms, told);
        self.zero_numbers(told);
        self.start_timer(told, LinkTimer::T203);
        self.state = State::Established;
    }

    // Where contents are outstanding, all are lost, and layer 3 is told.
    pub(crate) fn discard_outstanding(&mut self, terms: &Terms, told: &mut BareReport)
        requires { HasRoom 1 0 told.old }
        ensures tells { Tells 1 0 told.old told.new }
        ensures does { (info : List ℕ) → Does terms.now info (renewed terms.now) self.old told.old self.new told.new }
    {
        if self.window.is_settled() {
            return;
        }
        self.discard(told);
        told.note(Note::EstablishIndication(terms.service, terms.tei));
    }

    // The terminal releases the link.
    #[cold]
    pub(crate) fn disc_in_7_8(&mut self, terms: &Terms, told: &mut BareReport, pf: bool)
        requires { HasRoom 1 1 told.old }
        ensures tells { Tells 1 1 told.old told.new }
        ensures does { (info : List ℕ) → Does terms.now info (row.disc_in_7_8 terms.now pf) self.old told.old self.new told.new }
    {
        self.discard(told);
        self.pending = false;
        self.response(terms, told, Control::Ua { pf });
        told.note(Note::ReleaseIndication(terms.service, terms.tei));
        self.no_timer(told);
        self.state = State::TeiAssigned;
    }

    // An error that is told, and after which the link is established again.
    #[cold]
    pub(crate) fn failed(&mut self, terms: &Terms, told: &mut BareReport, code: ErrorCode)
        requires { HasRoom 1 1 told.old }
        ensures tells { Tells 1 1 told.old told.new }
        ensures does { (info : List ℕ) → Does terms.now info (row.failed terms.now code) self.old told.old self.new told.new }
    {
        told.error(terms, code);
        self.establish(terms, told, false);
    }

    // The contents of an I-frame: those next in sequence are delivered.
    fn contents_in_7_8(&mut self, terms: &Terms, told: &mut BareReport, ns: Seq, pf: bool)
        requires { HasRoom 1 1 told.old }
        ensures tells { Tells 1 1 told.old told.new }
        ensures does { (info : List ℕ) → Does terms.now info (row.contents_in_7_8 terms.now ns pf info) self.old told.old self.new told.new }
    {
        if self.own_busy {
            return self.answer_if(terms, told, pf);
        }
        if ns.value != self.vr.value {
            return self.out_of_sequence(terms, told, pf);
        }
        self.count_received();
        self.rejecting = false;
        told.deliver(terms);
        if pf {
            self.report_receiver_status(terms, told, true);
        } else {
            self.pending = true;
        }
    }

    // P=1 is answered.
    #[inline(always)]
    #[tactic(auto, using(crate::proofs::Steps::bit_yes, crate::proofs::Steps::bit_no))]
    fn answer_if(&mut self, terms: &Terms, told: &mut BareReport, pf: bool)
        requires { HasRoom 0 1 told.old }
        ensures tells { Tells 0 1 told.old told.new }
        ensures does { (info : List ℕ) → Does terms.now info (row.dropped terms.now pf) self.old told.old self.new told.new }
    {
        if pf {
            self.report_receiver_status(terms, told, true);
        }
    }

    // Another is asked for again, once.
    #[cold]
    fn out_of_sequence(&mut self, terms: &Terms, told: &mut BareReport, pf: bool)
        requires { HasRoom 0 1 told.old }
        ensures tells { Tells 0 1 told.old told.new }
        ensures does { (info : List ℕ) → Does terms.now info (row.out_of_sequence terms.now pf) self.old told.old self.new told.new }
    {
        if self.rejecting {
            return self.answer_if(terms, told, pf);
        }
        self.rejecting = true;
        self.reject(terms, told, pf);
    }
}
