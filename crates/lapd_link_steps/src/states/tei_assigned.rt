//! State 4, TEI assigned: the link is down.

ghost use Rattle.std.specs.Prelude.{◌≡◌, ℕ, List, false, length};
ghost use Rattle.lapd_frame.specs.declared.controls.Control.TheVariants.{Sabme, Dm};
ghost use Rattle.model_link.specs.TeiAssigned as row;
ghost use Rattle.lapd_link_steps.specs.Does.{Does, HasRoom, Tells};

use crate::entity::Entity;
use crate::report::BareReport;
use lapd_frame::{Control, ErrorCode, Note, Reading};
use model_link::{LinkTimer, State, Terms};

impl Entity {
    // A frame with so many octets of information.
    #[cold]
    pub(crate) fn frame_in_4(
        &mut self,
        terms: &Terms,
        told: &mut BareReport,
        control: Control,
        octets: usize,
    )
        requires { HasRoom 1 1 told.old }
        ensures tells { Tells 1 1 told.old told.new }
        ensures does { (info : List ℕ) → length info ≡ octets →
            Does terms.now info (row.frame_in_4 terms.now info control) self.old told.old self.new told.new }
    {
        match control {
            Control::Sabme { pf } => self.sabme_in_4(terms, told, pf),
            Control::Disc { pf } => self.response(terms, told, Control::Dm { pf }),
            Control::Ua { pf: true } => told.error(terms, ErrorCode::C),
            Control::Ua { pf: false } => told.error(terms, ErrorCode::D),
            Control::Dm { pf: false } => self.dm_in_4(terms, told),
            Control::Dm { pf: true } => told.leave_unserved(),
            Control::Ui { .. } => told.unit_data(terms, octets),
            Control::Xid { .. } => told.note(Note::Xid(terms.service, terms.tei)),
            Control::Information { .. } => told.unexpected(terms, octets),
            Control::ReceiveReady { .. } => told.leave_unserved(),
            Control::ReceiveNotReady { .. } => told.leave_unserved(),
            Control::Reject { .. } => told.leave_unserved(),
            Control::Frmr { .. } => told.leave_unserved(),
        }
    }

    // The terminal establishes the link.
    fn sabme_in_4(&mut self, terms: &Terms, told: &mut BareReport, pf: bool)
        requires { HasRoom 1 1 told.old }
        ensures tells { Tells 1 1 told.old told.new }
        ensures does { (info : List ℕ) → Does terms.now info (row.frame_in_4 terms.now info (Sabme pf)) self.old told.old self.new told.new }
    {
        self.response(terms, told, Control::Ua { pf });
        self.clear_flags();
        self.zero_numbers(told);
        self.start_timer(told, LinkTimer::T203);
        told.note(Note::EstablishIndication(terms.service, terms.tei));
        self.state = State::Established;
    }

    // By annex B, DM with F=0 asks for an establishment.
    fn dm_in_4(&mut self, terms: &Terms, told: &mut BareReport)
        requires { HasRoom 0 1 told.old }
        ensures tells { Tells 0 1 told.old told.new }
        ensures does { (info : List ℕ) → Does terms.now info (row.frame_in_4 terms.now info (Dm false)) self.old told.old self.new told.new }
    {
        match terms.reading {
            Reading::Profile => told.leave_unserved(),
            Reading::AnnexB => self.establish_in_4(terms, told),
        }
    }

    // Layer 3 asks for the establishment.
    pub(crate) fn establish_in_4(&mut self, terms: &Terms, told: &mut BareReport)
        requires { HasRoom 0 1 told.old }
        ensures tells { Tells 0 1 told.old told.new }
        ensures does { (info : List ℕ) → Does terms.now info (row.establish_in_4 terms.now) self.old told.old self.new told.new }
    {
        self.establish(terms, told, true);
    }
}
