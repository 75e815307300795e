//! The check of a TEI: how it begins, goes on and ends (Q.921 clause 5.3.3).

ghost use Rattle.std.specs.Prelude.{◌≡◌, ◌≤◌, true, false, Some, None};
ghost use Rattle.lapd_frame.specs.declared.readings.Reading.TheVariants.{AnnexB};
ghost use Rattle.lapd_tei.specs.{First, Second, Settling, IdentityRemove, is_on, is_checked, begun, begin_check, check_next, settle, stop_check, end_check, end_check_of, check_is_due, left, verify, verify_beside, ask_once, respond, serve, count, counted, doubled, expire, expire_period, removed, read_as, nothing_happens, send, ◌then◌, responses_in, led_to, IsShort, IsOpen, AreSoundChecks, MayBeDue};

use super::Teis;
use crate::check;
use crate::heard::is_among;
use crate::outcome::TeiOutcome;
use crate::table::left;
use lapd_frame::{Note, Order, Reading, ShortList, Timer};
use model_teis::network::{Check, Message, Period};

impl Teis {
    // A terminal asks for a check of its TEI.
    pub(super) fn verify(&mut self, tei: u8) -> TeiOutcome
        ensures led { led_to self.new result ≡ verify tei (begun self.old) }
        ensures short { IsShort result }
    {
        if !self.table.is_on(tei) {
            return TeiOutcome::unserved();
        }
        match self.check {
            None => self.begin_check(tei),
            Some(own) => self.verify_beside(tei, own),
        }
    }

    // It does so while a check runs.
    fn verify_beside(&mut self, tei: u8, own: Check) -> TeiOutcome
        requires on { is_on tei self.old.places ≡ true }
        requires runs { self.old.check ≡ Some own }
        ensures led { led_to self.new result ≡ verify_beside tei (Some own) (begun self.old) }
        ensures short { IsShort result }
    {
        if own.tei == tei {
            return TeiOutcome::unserved();
        }
        match self.reading {
            Reading::Profile => TeiOutcome::unserved(),
            Reading::AnnexB => self.check_later(tei),
        }
    }

    // By annex B it is asked at once, and checked once the check that runs has ended.
    fn check_later(&mut self, tei: u8) -> TeiOutcome
        requires on { is_on tei self.old.places ≡ true }
        requires beside { MayBeDue (Some tei) self.old.check }
        requires read { self.old.reading ≡ AnnexB }
        ensures led { led_to self.new result ≡ (ask_once tei then check_is_due tei) (begun self.old) }
        ensures short { IsShort result }
    {
        let told = self.ask_once(tei);
        let place = self.table.place_of(tei);
        self.due.put(place, true);
        told
    }

    // A check request of a TEI waits, if none does.
    fn ask_once(&mut self, tei: u8) -> TeiOutcome
        requires { is_on tei self.old.places ≡ true }
        ensures led { led_to self.new result ≡ ask_once tei (begun self.old) }
        ensures short { IsShort result }
    {
        if self.queue.asks_for(tei) {
            return TeiOutcome::nothing();
        }
        let lost = self.queue.send(Message::IdentityCheckRequest { tei });
        TeiOutcome {
            lost,
            ..TeiOutcome::nothing()
        }
    }

    // A check of a TEI on the line begins.
    pub(super) fn begin_check(&mut self, tei: u8) -> TeiOutcome
        requires on { is_on tei self.old.places ≡ true }
        requires due { AreSoundChecks self.old.places (Some (record { tei = tei; period = First; first = 0; second = 0 })) self.old.to_check }
        ensures led { led_to self.new result ≡ begin_check tei (begun self.old) }
        ensures short { IsShort result }
    {
        let lost = self.queue.send(Message::IdentityCheckRequest { tei });
        let check = Check {
            tei,
            period: Period::First,
            first: 0,
            second: 0,
        };
        self.check = Some(check);
        TeiOutcome {
            orders: ShortList::one(Order::Start(Timer::T201)),
            lost,
            ..TeiOutcome::nothing()
        }
    }

    // A check of a TEI on the line settles, by annex B: it was due.
    fn settle(&mut self, tei: u8, told: TeiOutcome) -> TeiOutcome
        requires on { is_on tei self.old.places ≡ true }
        requires read { self.old.reading ≡ AnnexB }
        requires due { AreSoundChecks self.old.places (Some (record { tei = tei; period = Settling; first = 0; second = 0 })) self.old.to_check }
        requires open { IsOpen told }
        ensures led { led_to self.new result ≡ settle tei (led_to self.old told) }
        ensures short { IsShort result }
    {
        self.check = Some(Check {
            tei,
            period: Period::Settling,
            first: 0,
            second: 0,
        });
        TeiOutcome {
            orders: ShortList::one(Order::Start(Timer::T201)),
            ..told
        }
    }

    // A terminal answers a check.
    pub(super) fn respond(&mut self, tei: u8) -> TeiOutcome
        ensures led { led_to self.new result ≡ respond tei self.old.check (begun self.old) }
        ensures short { IsShort result }
    {
        let Some(own) = self.check else {
            return TeiOutcome::unserved();
        };
        if own.tei != tei {
            return TeiOutcome::unserved();
        }
        self.count(own)
    }

    // A terminal answers for more than one TEI.
    pub(super) fn respond_among(&mut self, information: &[u8]) -> TeiOutcome
        ensures led { led_to self.new result ≡ serve None (responses_in information.now) (begun self.old) }
        ensures short { IsShort result }
    {
        match (self.reading, self.check) {
            (Reading::AnnexB, Some(own)) if is_among(own.tei, information) => self.count(own),
            _ => TeiOutcome::unserved(),
        }
    }

    // A response counts.
    fn count(&mut self, own: Check) -> TeiOutcome
        requires runs { self.old.check ≡ Some own }
        requires first { own.first ≤ 1 }
        requires second { own.second ≤ 1 }
        ensures led { led_to self.new result ≡ count own.tei (counted own) (begun self.old) }
        ensures short { IsShort result }
    {
        let counted = check::counted(own);
        if check::responses(counted) >= 2 {
            return self.doubled(own.tei);
        }
        self.check = Some(counted);
        TeiOutcome::nothing()
    }

    // Two terminals have the TEI under check.
    fn doubled(&mut self, tei: u8) -> TeiOutcome
        requires { is_checked tei self.old.check ≡ true }
        ensures led { led_to self.new result ≡ doubled tei (begun self.old) }
        ensures short { IsShort result }
    {
        let lost = self.queue.send(Message::IdentityRemove { tei });
        let told = TeiOutcome {
            notes: ShortList::one(Note::Doubled(tei)),
            lost,
            ..TeiOutcome::nothing()
        };
        let told = self.end_check(tei, told);
        let place = self.leave(tei);
        TeiOutcome {
            change: left(tei, place),
            ..told
        }
    }

    // T201 has expired.
    pub(super) fn expire(&mut self) -> TeiOutcome
        ensures led { led_to self.new result ≡ expire (begun self.old) }
        ensures short { IsShort result }
    {
        let Some(own) = self.check else {
            return TeiOutcome::nothing();
        };
        match own.period {
            Period::First => self.ask_again(own),
            Period::Second if check::is_unanswered(own) => self.removed(own.tei),
            Period::Second => self.end_check(own.tei, TeiOutcome::nothing()),
            Period::Settling => self.begin_check(own.tei),
        }
    }

    // A check's first period is over.
    fn ask_again(&mut self, own: Check) -> TeiOutcome
        requires { self.old.check ≡ Some own }
        ensures led { led_to self.new result ≡ expire_period own First (begun self.old) }
        ensures short { IsShort result }
    {
        let lost = self
            .queue
            .send(Message::IdentityCheckRequest { tei: own.tei });
        self.check = Some(Check {
            period: Period::Second,
            ..own
        });
        TeiOutcome {
            orders: ShortList::one(Order::Start(Timer::T201)),
            lost,
            ..TeiOutcome::nothing()
        }
    }

    // No terminal has the TEI under check.
    fn removed(&mut self, tei: u8) -> TeiOutcome
        requires { is_checked tei self.old.check ≡ true }
        ensures led { led_to self.new result ≡ removed tei (begun self.old) }
        ensures short { IsShort result }
    {
        let told = TeiOutcome {
            notes: ShortList::one(Note::Removed(tei)),
            ..TeiOutcome::nothing()
        };
        let told = self.tell_removed(tei, told);
        let told = self.end_check(tei, told);
        let place = self.leave(tei);
        TeiOutcome {
            change: left(tei, place),
            ..told
        }
    }

    // By annex B the terminals are told so.
    fn tell_removed(&mut self, tei: u8, told: TeiOutcome) -> TeiOutcome
        requires runs { is_checked tei self.old.check ≡ true }
        requires open { IsOpen told }
        requires none { told.lost ≡ 0 }
        ensures led { led_to self.new result ≡ read_as nothing_happens (send (IdentityRemove tei)) (led_to self.old told) }
        ensures open { IsOpen result }
    {
        match self.reading {
            Reading::Profile => told,
            Reading::AnnexB => TeiOutcome {
                lost: self.queue.send(Message::IdentityRemove { tei }),
                ..told
            },
        }
    }

    // The check of a TEI ends, if one of it runs.
    pub(super) fn end_check_of(&mut self, tei: u8, told: TeiOutcome) -> TeiOutcome
        requires open { IsOpen told }
        ensures led { led_to self.new result ≡ end_check_of tei (led_to self.old told) }
        ensures other { is_checked tei self.new.check ≡ false }
        ensures short { IsShort result }
    {
        if self.check.is_some_and(|own| own.tei == tei) {
            return self.end_check(tei, told);
        }
        told
    }

    // The check that runs, of this TEI, ends.
    fn end_check(&mut self, tei: u8, told: TeiOutcome) -> TeiOutcome
        requires runs { is_checked tei self.old.check ≡ true }
        requires open { IsOpen told }
        ensures led { led_to self.new result ≡ end_check (led_to self.old told) }
        ensures other { is_checked tei self.new.check ≡ false }
        ensures short { IsShort result }
    {
        match self.reading {
            Reading::Profile => self.stop_check(told),
            Reading::AnnexB => self.check_next(tei, told),
        }
    }

    // By annex B the check at the lowest place of those that are due settles.
    fn check_next(&mut self, tei: u8, told: TeiOutcome) -> TeiOutcome
        requires runs { is_checked tei self.old.check ≡ true }
        requires read { self.old.reading ≡ AnnexB }
        requires open { IsOpen told }
        ensures led { led_to self.new result ≡ check_next (led_to self.old told) }
        ensures other { is_checked tei self.new.check ≡ false }
        ensures short { IsShort result }
    {
        let Some(place) = self.due.lowest() else {
            return self.stop_check(told);
        };
        let Some(next) = self.table.tei_at(place) else {
            return self.stop_check(told);
        };
        self.due.put(Some(place), false);
        self.settle(next, told)
    }

    // No check runs any more.
    fn stop_check(&mut self, told: TeiOutcome) -> TeiOutcome
        requires due { AreSoundChecks self.old.places None self.old.to_check }
        requires open { IsOpen told }
        ensures led { led_to self.new result ≡ stop_check (led_to self.old told) }
        ensures other { self.new.check ≡ None }
        ensures short { IsShort result }
    {
        self.check = None;
        TeiOutcome {
            orders: ShortList::one(Order::Stop(Timer::T201)),
            ..told
        }
    }
}
