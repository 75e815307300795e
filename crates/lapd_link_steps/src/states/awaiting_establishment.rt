//! State 5, awaiting establishment: SABME was sent.

ghost use Rattle.std.specs.Prelude.{◌≡◌, ℕ, List, true, length};
ghost use Rattle.lapd_link_steps.specs.{Ua, Dm, HasRoom, Tells, Terms, told_of_establishment};
ghost use Rattle.model_link.specs.AwaitingEstablishment as row;
ghost use Rattle.lapd_link_steps.specs.Does.{Does};

use crate::entity::Entity;
use crate::report::BareReport;
use lapd_frame::{Control, ErrorCode, Note};
use model_link::{LinkTimer, State, Terms};

impl Entity {
    // A frame with so many octets of information.
    #[cold]
    pub(crate) fn frame_in_5(
        &mut self,
        terms: &Terms,
        told: &mut BareReport,
        control: Control,
        octets: usize,
    )
        requires { HasRoom 1 1 told.old }
        ensures tells { Tells 1 1 told.old told.new }
        ensures does { (info : List ℕ) → length info ≡ octets →
            Does terms.now info (row.frame_in_5 terms.now info control) self.old told.old self.new told.new }
    {
        match control {
            Control::Sabme { pf } => self.response(terms, told, Control::Ua { pf }),
            Control::Disc { pf } => self.response(terms, told, Control::Dm { pf }),
            Control::Ua { pf: true } => self.answered_in_5(terms, told),
            Control::Dm { pf: true } => self.declined_in_5(terms, told),
            Control::Dm { pf: false } => told.leave_unserved(),
            Control::Ua { pf: false } => told.error(terms, ErrorCode::D),
            Control::Ui { .. } => told.unit_data(terms, octets),
            Control::Xid { .. } => told.note(Note::Xid(terms.service, terms.tei)),
            Control::Information { .. } => told.unexpected(terms, octets),
            Control::ReceiveReady { .. } => told.leave_unserved(),
            Control::ReceiveNotReady { .. } => told.leave_unserved(),
            Control::Reject { .. } => told.leave_unserved(),
            Control::Frmr { .. } => told.leave_unserved(),
        }
    }

    // The terminal accepts the SABME.
    fn answered_in_5(&mut self, terms: &Terms, told: &mut BareReport)
        requires { HasRoom 1 1 told.old }
        ensures tells { Tells 1 1 told.old told.new }
        ensures does { (info : List ℕ) → Does terms.now info (row.frame_in_5 terms.now info (Ua true)) self.old told.old self.new told.new }
    {
        if self.owed {
            self.carry_out(terms, told);
        } else {
            self.accepted_in_5(terms, told);
        }
    }

    // The release that is owed: the link is established, and released at once.
    fn carry_out(&mut self, terms: &Terms, told: &mut BareReport)
        requires { HasRoom 0 1 told.old }
        ensures tells { Tells 0 1 told.old told.new }
        ensures does { (info : List ℕ) → Does terms.now info (row.carry_out terms.now) self.old told.old self.new told.new }
    {
        self.reset_numbers(told);
        self.owed = false;
        self.release_in_7_8(terms, told);
    }

    // The link is established, and stays so.
    fn accepted_in_5(&mut self, terms: &Terms, told: &mut BareReport)
        requires { HasRoom 1 0 told.old }
        ensures tells { Tells 1 0 told.old told.new }
        ensures does { (info : List ℕ) → Does terms.now info (row.accepted_in_5 terms.now) self.old told.old self.new told.new }
    {
        self.tell_establishment(terms, told);
        self.zero_numbers(told);
        self.start_timer(told, LinkTimer::T203);
        self.state = State::Established;
    }

    // Layer 3 is told where it asked, or where contents are lost.
    fn tell_establishment(&mut self, terms: &Terms, told: &mut BareReport)
        requires { HasRoom 1 0 told.old }
        ensures tells { Tells 1 0 told.old told.new }
        ensures does { (info : List ℕ) → Does terms.now info (told_of_establishment terms.now) self.old told.old self.new told.new }
    {
        if self.asked {
            told.note(Note::EstablishConfirm(terms.service, terms.tei));
        } else {
            self.discard_outstanding(terms, told);
        }
    }

    // The terminal declines it.
    fn declined_in_5(&mut self, terms: &Terms, told: &mut BareReport)
        requires { HasRoom 1 0 told.old }
        ensures tells { Tells 1 0 told.old told.new }
        ensures does { (info : List ℕ) → Does terms.now info (row.frame_in_5 terms.now info (Dm true)) self.old told.old self.new told.new }
    {
        self.discard(told);
        self.tell_failure(terms, told);
        self.no_timer(told);
        self.state = State::TeiAssigned;
    }

    pub(crate) fn t200_in_5(&mut self, terms: &Terms, told: &mut BareReport)
        requires { HasRoom 2 1 told.old }
        ensures tells { Tells 2 1 told.old told.new }
        ensures does { (info : List ℕ) → Does terms.now info (row.t200_in_5 terms.now) self.old told.old self.new told.new }
    {
        if self.may_repeat(terms) {
            self.command(terms, told, Control::Sabme { pf: true });
            self.repeats += 1;
            self.start_timer(told, LinkTimer::T200);
            return;
        }
        self.discard(told);
        told.error(terms, ErrorCode::G);
        self.tell_failure(terms, told);
        self.no_timer(told);
        self.state = State::TeiAssigned;
    }

    // Layer 3 is told that the link is down, or that it is released if it asked for that.
    pub(crate) fn tell_failure(&mut self, terms: &Terms, told: &mut BareReport)
        requires { HasRoom 1 0 told.old }
        ensures tells { Tells 1 0 told.old told.new }
        ensures does { (info : List ℕ) → Does terms.now info (row.tell_failure terms.now) self.old told.old self.new told.new }
    {
        if self.owed {
            self.owed = false;
            told.note(Note::ReleaseConfirm(terms.service, terms.tei));
        } else {
            told.note(Note::ReleaseIndication(terms.service, terms.tei));
        }
    }

    // Layer 3 asks for the establishment that is awaited: none of what waits is for the link that it gets.
    pub(crate) fn establish_in_5(&mut self, told: &mut BareReport)
        ensures tells { Tells 0 0 told.old told.new }
        ensures does { (terms : Terms) (info : List ℕ) → Does terms info row.establish_in_5 self.old told.old self.new told.new }
    {
        self.discard(told);
        self.asked = true;
        self.owed = false;
    }

    // Layer 3 asks for the release: DISC goes once the terminal accepted.
    pub(crate) fn release_in_5(&mut self, told: &mut BareReport)
        ensures tells { Tells 0 0 told.old told.new }
        ensures does { (terms : Terms) (info : List ℕ) → Does terms info row.release_in_5 self.old told.old self.new told.new }
    {
        self.discard(told);
        self.asked = false;
        self.owed = true;
    }
}
