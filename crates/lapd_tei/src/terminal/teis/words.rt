//! The words of which the rows of the table are made.

ghost use Rattle.std.specs.Prelude.{◌≡◌, ◌≤◌, ◌<◌, true, false, Some, None};
ghost use Rattle.lapd_tei.specs.{is_on, free_place, left};
ghost use Rattle.model_teis.specs.terminal.Machine.{place};
ghost use Rattle.model_teis.specs.terminal.Numbers.{next_number};
ghost use Rattle.model_teis.specs.terminal.Words.{begun, ask, verify, end_procedure, end_verifying_of, is_verified, is_answered, respond, send_response, join, leave};
ghost use Rattle.model_teis.specs.terminal.Rows.{answer};
ghost use Rattle.model_teis.specs.terminal.Sound.{may_ask, may_verify};
ghost use Rattle.lapd_tei.specs.terminal.Outcome.{led_to, ordered};

use super::TerminalTeis;
use crate::outcome::TeiOutcome;
use crate::terminal::procedure::is_verified;
use lapd_frame::{Order, Timer};
use model_teis::terminal::Procedure;

impl TerminalTeis {
    // A TEI is asked for: with a new reference number, for one run of T202.
    pub(super) fn ask_for(&mut self, attempts: u8) -> TeiOutcome
        requires goes_on { may_ask self.old.procedure ≡ true }
        requires least { 1 ≤ attempts }
        requires most { attempts ≤ 3 }
        ensures led { led_to self.new result ≡ ask attempts (begun self.old) }
    {
        let ri = self.number;
        self.number = following(ri);
        self.procedure = Some(Procedure::Asking { ri, attempts });
        self.queue.send_request(ri);
        TeiOutcome::ordered(Some(Order::Start(Timer::T202)))
    }

    // A TEI on the line is verified, for one run of T202.
    pub(super) fn verify_for(&mut self, tei: u8, attempts: u8) -> TeiOutcome
        requires on_line { is_on tei self.old.places ≡ true }
        requires goes_on { may_verify tei self.old.procedure ≡ true }
        requires least { 1 ≤ attempts }
        requires most { attempts ≤ 2 }
        ensures led { led_to self.new result ≡ verify tei attempts (begun self.old) }
    {
        self.procedure = Some(Procedure::Verifying { tei, attempts });
        self.queue.send_verify(tei);
        TeiOutcome::ordered(Some(Order::Start(Timer::T202)))
    }

    // A procedure ends, and its message that waits is withdrawn.
    pub(super) fn end_procedure(&mut self) -> Option<Order>
        ensures ended { ordered self.new result ≡ end_procedure (begun self.old) }
    {
        self.procedure = None;
        self.queue.withdraw_others();
        Some(Order::Stop(Timer::T202))
    }

    // Verifying of a TEI ends, if it runs.
    pub(super) fn end_verifying_of(&mut self, tei: u8) -> Option<Order>
        ensures ended { ordered self.new result ≡ end_verifying_of tei (begun self.old) }
        ensures over { is_verified tei self.new.procedure ≡ false }
        ensures places { self.new.places ≡ self.old.places }
    {
        if is_verified(self.procedure, tei) {
            self.end_procedure()
        } else {
            None
        }
    }

    // A check of a TEI on the line is answered, unless an answer for it waits; verifying of it ends. Answers what is
    // ordered of T202, here or `before`.
    pub(super) fn answer(&mut self, tei: u8, before: Option<Order>) -> Option<Order>
        requires { is_on tei self.old.places ≡ true }
        ensures answered { ordered self.new result ≡ answer tei (ordered self.old before) }
        ensures places { self.new.places ≡ self.old.places }
    {
        let order = self.end_verifying_of(tei);
        self.respond(tei);
        match order {
            Some(order) => Some(order),
            None => before,
        }
    }

    // A check response is sent, unless one for the TEI waits.
    fn respond(&mut self, tei: u8)
        requires { is_on tei self.old.places ≡ true }
        ensures led { self.new ≡ (respond tei (begun self.old)).now }
        ensures places { self.new.places ≡ self.old.places }
    {
        if !self.queue.has_response(tei) {
            self.send_response(tei);
        }
    }

    // A check response is sent.
    fn send_response(&mut self, tei: u8)
        requires on_line { is_on tei self.old.places ≡ true }
        requires first { is_answered tei self.old ≡ false }
        ensures { self.new ≡ (send_response tei (begun self.old)).now }
    {
        let ri = self.number;
        self.number = following(ri);
        self.queue.send_response(ri, tei);
    }

    // A TEI comes to the line.
    pub(super) fn join(&mut self, tei: u8, place: usize)
        requires off { is_on tei self.old.places ≡ false }
        requires at { free_place self.old.places ≡ Some place }
        requires low { tei ≤ 126 }
        ensures { self.new ≡ (join tei place (begun self.old)).now }
    {
        self.table.put(place, tei);
    }

    // A TEI that is not verified leaves the line, and its answer to a check, if it waits, is withdrawn.
    pub(super) fn leave(&mut self, tei: u8) -> Option<usize>
        requires { is_verified tei self.old.procedure ≡ false }
        ensures place { result ≡ place tei self.old }
        ensures left { self.new ≡ (leave tei (begun self.old)).now }
    {
        self.queue.withdraw_response(tei);
        self.table.take(tei)
    }
}

// The reference number that follows.
fn following(number: u16) -> u16
    ensures { result ≡ next_number number }
{
    ((25173 * u32::from(number) + 13849) % 65536) as u16
}
