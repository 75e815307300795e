//! What is told.

ghost use Rattle.std.specs.Prelude.{◌≡◌, ℕ, List, length};
ghost use Rattle.lapd_frame.specs.declared.notes.ErrorCode.TheVariants as code;
ghost use Rattle.model_link.specs.Words as word;
ghost use Rattle.lapd_link_steps.specs.declared.entity.Entity.{Entity};
ghost use Rattle.lapd_link_steps.specs.Does.{Does, Adds, HasRoom, Tells};

use crate::report::BareReport;
use lapd_frame::{ErrorCode, Note, Reading};
use model_link::Terms;

impl BareReport {
    #[inline(always)]
    pub(crate) fn note(&mut self, note: Note)
        requires { HasRoom 1 0 self.old }
        ensures tells { Tells 1 0 self.old self.new }
        ensures does { Adds (word.note note) self.old self.new }
    {
        self.notes.push(note);
    }

    pub(crate) fn error(&mut self, terms: &Terms, code: ErrorCode)
        requires { HasRoom 1 0 self.old }
        ensures tells { Tells 1 0 self.old self.new }
        ensures does { Adds (word.error terms.now code) self.old self.new }
    {
        self.note(Note::Error(terms.service, terms.tei, code));
    }

    // The information of an I-frame is delivered.
    pub(crate) fn deliver(&mut self, terms: &Terms)
        requires { HasRoom 1 0 self.old }
        ensures tells { Tells 1 0 self.old self.new }
        ensures does { (info : List ℕ) (e : Entity) → Does terms.now info (word.deliver terms.now info) e self.old e self.new }
    {
        self.notes.push(Note::Data(terms.service, terms.tei));
        self.delivered = true;
    }

    // That of a UI frame is told.
    pub(crate) fn deliver_unit(&mut self, terms: &Terms)
        requires { HasRoom 1 0 self.old }
        ensures tells { Tells 1 0 self.old self.new }
        ensures does { (info : List ℕ) (e : Entity) → Does terms.now info (word.deliver_unit terms.now info) e self.old e self.new }
    {
        self.notes.push(Note::Unit(terms.service, terms.tei));
        self.unit = true;
    }

    // The state does not serve the frame.
    pub(crate) fn leave_unserved(&mut self)
        ensures tells { Tells 0 0 self.old self.new }
        ensures does { Adds word.leave_unserved self.old self.new }
    {
        self.unserved = true;
    }

    // An undefined frame, one of wrong size and one over N201, in states 4, 5 and 6.
    #[cold]
    pub(crate) fn malformed(&mut self, terms: &Terms, code: ErrorCode)
        requires { HasRoom 1 0 self.old }
        ensures tells { Tells 1 0 self.old self.new }
        ensures does { Adds (word.malformed terms.now code) self.old self.new }
    {
        match terms.reading {
            Reading::Profile => self.leave_unserved(),
            Reading::AnnexB => self.error(terms, code),
        }
    }

    // An I-frame in states 4, 5 and 6: malformed, if it is too long.
    #[cold]
    pub(crate) fn unexpected(&mut self, terms: &Terms, octets: usize)
        requires { HasRoom 1 0 self.old }
        ensures tells { Tells 1 0 self.old self.new }
        ensures does { (info : List ℕ) (e : Entity) → length info ≡ octets →
            Does terms.now info (word.unexpected terms.now info) e self.old e self.new }
    {
        if usize::from(terms.n201) < octets {
            return self.malformed(terms, ErrorCode::O);
        }
        self.leave_unserved();
    }

    // UI in states 4, 5 and 6: unit data, if it is not too long.
    pub(crate) fn unit_data(&mut self, terms: &Terms, octets: usize)
        requires { HasRoom 1 0 self.old }
        ensures tells { Tells 1 0 self.old self.new }
        ensures does { (info : List ℕ) (e : Entity) → length info ≡ octets →
            Does terms.now info (word.unit_data terms.now (word.malformed terms.now code.O) info) e self.old e self.new }
    {
        if usize::from(terms.n201) < octets {
            return self.malformed(terms, ErrorCode::O);
        }
        self.deliver_unit(terms);
    }
}
