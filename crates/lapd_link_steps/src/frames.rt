//! What comes from the terminal.

ghost use Rattle.std.specs.Prelude.{◌≡◌, ℕ, List, length};
ghost use Rattle.lapd_link_steps.specs.{frame_step, HasRoom, Tells, malformed_by_state};
ghost use Rattle.lapd_link_steps.specs.Does.{Does};

use crate::entity::Entity;
use crate::report::BareReport;
use lapd_frame::{Control, ErrorCode};
use model_link::{State, Terms};

impl Entity {
    /// A frame came with so many octets of information.
    #[inline(always)]
    pub fn frame(
        &mut self,
        terms: &Terms,
        told: &mut BareReport,
        command: bool,
        control: Control,
        octets: usize,
    )
        requires { HasRoom 2 2 told.old }
        ensures tells { Tells 2 2 told.old told.new }
        ensures does { (info : List ℕ) → length info ≡ octets →
            Does terms.now info (frame_step terms.now command info control) self.old told.old self.new told.new }
    {
        match self.state {
            State::TeiAssigned => self.frame_in_4(terms, told, control, octets),
            State::AwaitingEstablishment => self.frame_in_5(terms, told, control, octets),
            State::AwaitingRelease => self.frame_in_6(terms, told, control, octets),
            State::Established => {
                let recovering = false;
                self.frame_in_7_8(terms, told, recovering, command, control, octets);
            }
            State::TimerRecovery => self.frame_in_8(terms, told, command, control, octets),
        }
    }

    /// A frame came that is undefined (error L), of wrong size (N), or an I-frame or UI that was too long to keep (O).
    pub fn malformed(&mut self, terms: &Terms, told: &mut BareReport, code: ErrorCode)
        requires { HasRoom 2 2 told.old }
        ensures tells { Tells 2 2 told.old told.new }
        ensures does { (info : List ℕ) →
            Does terms.now info (malformed_by_state terms.now code) self.old told.old self.new told.new }
    {
        match self.state {
            State::Established | State::TimerRecovery => self.failed(terms, told, code),
            State::TeiAssigned | State::AwaitingEstablishment | State::AwaitingRelease => {
                told.malformed(terms, code);
            }
        }
    }
}
