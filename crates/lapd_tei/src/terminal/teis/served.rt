//! What a message of the network leads to, and what an expiry of T202 does (Q.921 clause 5.3).

ghost use Rattle.std.specs.Prelude.{◌≡◌, true, Some, None, All};
ghost use Rattle.std.specs.List.{fold};
ghost use Rattle.lapd_tei.specs.{is_on};
ghost use Rattle.model_teis.specs.terminal.Words.{begun};
ghost use Rattle.model_teis.specs.Table.{named};
ghost use Rattle.model_teis.specs.terminal.Rows.{answered, assigned, denied, doubt, lowest_taken, take_tei, checked, removed, removed_each, ask_again, verify_again, take_off};
ghost use Rattle.model_teis.specs.terminal.Sound.{may_ask, may_verify};
ghost use Rattle.lapd_tei.specs.terminal.Outcome.{led_to, ordered};

use super::TerminalTeis;
use crate::outcome::TeiOutcome;
use crate::table::{LOWEST, left};
use lapd_frame::{LAST_TEI, Note, Order, Reading, ShortList};
use model_teis::Change;
use model_teis::terminal::Procedure;

// How often a TEI is asked for (N202, clause 5.9.4), and how often a verify is sent (clause 5.3.5).
const MOST_REQUESTS: u8 = 3;

const MOST_VERIFIES: u8 = 2;

impl TerminalTeis {
    // A TEI is assigned, to this terminal or to another.
    pub(super) fn assigned(&mut self, ri: u16, tei: u8) -> TeiOutcome
        ensures led { led_to self.new result ≡ assigned ri tei self.old.procedure (begun self.old) }
    {
        match self.procedure {
            None => self.doubt(tei),
            Some(Procedure::Asking { ri: own, .. }) if own == ri => self.take_tei(tei),
            Some(_) => TeiOutcome::unserved(),
        }
    }

    // Another terminal was assigned this TEI, while no procedure runs.
    fn doubt(&mut self, tei: u8) -> TeiOutcome
        requires { self.old.procedure ≡ None }
        ensures led { led_to self.new result ≡ doubt tei (begun self.old) }
    {
        if !self.table.is_on(tei) {
            return TeiOutcome::unserved();
        }
        self.verify_for(tei, 1)
    }

    // The TEI for which this terminal has asked.
    fn take_tei(&mut self, tei: u8) -> TeiOutcome
        ensures led { led_to self.new result ≡ take_tei tei (begun self.old) }
    {
        if tei < lowest_taken(self.reading) || tei > LAST_TEI || self.table.is_on(tei) {
            return TeiOutcome::unserved();
        }
        let Some(place) = self.table.free_place() else {
            return TeiOutcome::unserved();
        };
        self.join(tei, place);
        TeiOutcome {
            notes: ShortList::one(Note::Assigned(tei)),
            change: Some(Change::Gained { tei, place }),
            ..TeiOutcome::ordered(self.end_procedure())
        }
    }

    // The network has no TEI for the terminal that asked by this reference number.
    pub(super) fn denied(&mut self, ri: u16) -> TeiOutcome
        ensures led { led_to self.new result ≡ denied ri self.old.procedure (begun self.old) }
    {
        match self.procedure {
            Some(Procedure::Asking { ri: own, .. }) if own == ri => {
                TeiOutcome::noted(Note::Denied)
            }
            _ => TeiOutcome::unserved(),
        }
    }

    // The network checks a TEI, or all.
    pub(super) fn checked(&mut self, tei: u8) -> TeiOutcome
        ensures led { led_to self.new result ≡ checked (named tei self.old.places) (begun self.old) }
    {
        let teis = self.table.named(tei);
        if teis.is_empty() {
            return TeiOutcome::unserved();
        }
        TeiOutcome::ordered(self.answer_each(teis.as_slice()))
    }

    // Checks of TEIs on the line are answered, in their order.
    fn answer_each(&mut self, teis: &[u8]) -> Option<Order>
        requires { All (λ tei. is_on tei self.old.places ≡ true) teis.now }
        ensures { ordered self.new result ≡ fold answered (begun self.old) teis.now }
    {
        let mut order = None;
        for tei in teis {
            order = self.answer(*tei, order);
        }
        order
    }

    // The network removes a TEI, or all.
    pub(super) fn removed_each(&mut self, tei: u8) -> TeiOutcome
        ensures led { led_to self.new result ≡ removed_each (named tei self.old.places) (begun self.old) }
    {
        match *self.table.named(tei).as_slice() {
            [] => TeiOutcome::unserved(),
            [tei] => self.removed(tei),
            _ => TeiOutcome::noted(Note::RemoveAll),
        }
    }

    // A TEI leaves the line, and management is told.
    fn removed(&mut self, tei: u8) -> TeiOutcome
        ensures led { led_to self.new result ≡ removed tei (begun self.old) }
    {
        TeiOutcome {
            notes: ShortList::one(Note::Removed(tei)),
            ..self.take_off(tei)
        }
    }

    // A TEI leaves the line, and nothing is told but that T202 stops, if the TEI was verified.
    pub(super) fn take_off(&mut self, tei: u8) -> TeiOutcome
        ensures led { led_to self.new result ≡ take_off tei (begun self.old) }
    {
        let order = self.end_verifying_of(tei);
        let place = self.leave(tei);
        TeiOutcome {
            change: left(tei, place),
            ..TeiOutcome::ordered(order)
        }
    }

    // T202 has expired while the terminal asks for a TEI.
    pub(super) fn ask_again(&mut self, attempts: u8) -> TeiOutcome
        requires { may_ask self.old.procedure ≡ true }
        ensures led { led_to self.new result ≡ ask_again attempts (begun self.old) }
    {
        if attempts < MOST_REQUESTS {
            return self.ask_for(attempts + 1);
        }
        TeiOutcome {
            notes: ShortList::one(Note::Unassigned),
            ..TeiOutcome::ordered(self.end_procedure())
        }
    }

    // T202 has expired while it verifies one.
    pub(super) fn verify_again(&mut self, tei: u8, attempts: u8) -> TeiOutcome
        requires on_line { is_on tei self.old.places ≡ true }
        requires goes_on { may_verify tei self.old.procedure ≡ true }
        ensures led { led_to self.new result ≡ verify_again tei attempts (begun self.old) }
    {
        if attempts < MOST_VERIFIES {
            return self.verify_for(tei, attempts + 1);
        }
        self.removed(tei)
    }
}

// The lowest TEI that a terminal takes in answer to its request: by annex B any.
fn lowest_taken(reading: Reading) -> u8
    ensures { result ≡ lowest_taken reading }
{
    match reading {
        Reading::Profile => LOWEST,
        Reading::AnnexB => 0,
    }
}
