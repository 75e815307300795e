//! State 6, awaiting release: DISC was sent.

ghost use Rattle.std.specs.Prelude.{◌≡◌, ℕ, List, true, length};
ghost use Rattle.lapd_frame.specs.declared.controls.Control.TheVariants.{Ua};
ghost use Rattle.model_link.specs.AwaitingRelease as row;
ghost use Rattle.lapd_link_steps.specs.Does.{Does, HasRoom, Tells};

use crate::entity::Entity;
use crate::report::BareReport;
use lapd_frame::{Control, ErrorCode, Note};
use model_link::{LinkTimer, State, Terms};

impl Entity {
    // A frame with so many octets of information.
    #[cold]
    pub(crate) fn frame_in_6(
        &mut self,
        terms: &Terms,
        told: &mut BareReport,
        control: Control,
        octets: usize,
    )
        requires { HasRoom 1 1 told.old }
        ensures tells { Tells 1 1 told.old told.new }
        ensures does { (info : List ℕ) → length info ≡ octets →
            Does terms.now info (row.frame_in_6 terms.now info control) self.old told.old self.new told.new }
    {
        match control {
            Control::Sabme { pf } => self.response(terms, told, Control::Dm { pf }),
            Control::Disc { pf } => self.response(terms, told, Control::Ua { pf }),
            Control::Ua { pf: true } => self.released_in_6(terms, told),
            Control::Dm { pf: true } => self.released_in_6(terms, told),
            Control::Dm { pf: false } => told.leave_unserved(),
            Control::Ua { pf: false } => told.error(terms, ErrorCode::D),
            Control::Ui { .. } => told.unit_data(terms, octets),
            Control::Xid { .. } => told.note(Note::Xid(terms.service, terms.tei)),
            Control::Information { .. } => told.unexpected(terms, octets),
            Control::ReceiveReady { .. } => told.leave_unserved(),
            Control::ReceiveNotReady { .. } => told.leave_unserved(),
            Control::Reject { .. } => told.leave_unserved(),
            Control::Frmr { .. } => told.leave_unserved(),
        }
    }

    // The terminal answers the DISC.
    fn released_in_6(&mut self, terms: &Terms, told: &mut BareReport)
        requires { HasRoom 1 0 told.old }
        ensures tells { Tells 1 0 told.old told.new }
        ensures does { (info : List ℕ) → Does terms.now info (row.frame_in_6 terms.now info (Ua true)) self.old told.old self.new told.new }
    {
        told.note(Note::ReleaseConfirm(terms.service, terms.tei));
        self.no_timer(told);
        self.state = State::TeiAssigned;
    }

    pub(crate) fn t200_in_6(&mut self, terms: &Terms, told: &mut BareReport)
        requires { HasRoom 2 1 told.old }
        ensures tells { Tells 2 1 told.old told.new }
        ensures does { (info : List ℕ) → Does terms.now info (row.t200_in_6 terms.now) self.old told.old self.new told.new }
    {
        if self.may_repeat(terms) {
            self.command(terms, told, Control::Disc { pf: true });
            self.repeats += 1;
            self.start_timer(told, LinkTimer::T200);
            return;
        }
        told.error(terms, ErrorCode::H);
        told.note(Note::ReleaseConfirm(terms.service, terms.tei));
        self.no_timer(told);
        self.state = State::TeiAssigned;
    }
}
