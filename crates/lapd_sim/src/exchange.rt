//! What happens at the card that a script is played on: octets that come and go, requests, and timers that expire.

ghost use Rattle.std.specs.Prelude.{◌≡◌, ◌<◌, ◌≤◌, ◌^◌, List, Option, [], ℕ, length, take, None, option_copied, IfSome, IfNone};
ghost use Rattle.lapd_sim.specs.{kind_of, on, shown_losses, told_beside, told_text, written, IsClear, Puts};
ghost use Rattle.model_card.specs.declared.kinds.CardKind.TheVariants.{Octets};
ghost use Rattle.lapd_script.specs.Meaning as meaning;
ghost use Rattle.lapd_sim.specs.machine.Board as event;
ghost use Rattle.lapd_sim.specs.machine.Setup as machine;

use crate::parts::tei_asked;
use crate::setup::{Obeyed, Setup};
use lapd_card::{AnyCard, BareReport, Request};
use lapd_frame::{GROUP, Service};
use lapd_script::{FaultKind, LineFault};
use lapd_transcript::{Page, Put, Target, tei_noted};

/// The last moment of the clock, in milliseconds.
const LAST_MOMENT: u64 = (1 << 63) - 1;

impl Setup {
    ghost use Rattle.lapd_sim.specs.{Answers, SetupSays, after_rx, at, at_moment, downs, due_by, octet_in, pull, pulls, reply, request_of, teis_on, until, with_event, with_events, HasExpired};
    ghost use Rattle.lapd_sim.specs.Stands.{SetupStands};

    /// Octets come from a line of a card of octets.
    pub(crate) fn hear<T: Target>(&mut self, line: usize, octets: &[u8], page: &mut Page<T>) -> Put
        requires kind { kind_of self.old.timed.card ≡ Octets }
        requires line { line < self.old.config.lines }
        ensures { SetupSays result self.old self.new (on T.taken page.old) (on T.taken page.new) (after_rx line octets.now) }
    {
        for octet in octets {
            self.octet(line, *octet, page)?;
        }
        Ok(())
    }

    /// An octet comes from a line of a card of octets.
    fn octet<T: Target>(&mut self, line: usize, octet: u8, page: &mut Page<T>) -> Put
        requires kind { kind_of self.old.timed.card ≡ Octets }
        requires line { line < self.old.config.lines }
        ensures config { self.new.config ≡ self.old.config }
        ensures kind { kind_of self.new.timed.card ≡ kind_of self.old.timed.card }
        ensures told { SetupSays result self.old self.new (on T.taken page.old) (on T.taken page.new) (λ s. with_event s (at line (event.octet octet))) }
    {
        let Some(report) = self.timed.hear(line, octet) else {
            return Ok(());
        };
        let AnyCard::Octets(card) = self.timed.card() else {
            unreachable!();
        };
        tell(
            line,
            self.losses,
            None,
            &report,
            card.contents(line, &report),
            page,
        )
    }

    /// A line of a card of octets takes as many octets as there is room for.
    pub(crate) fn pull_all(&mut self, line: usize, room: &mut [u8])
        requires kind { kind_of self.old.timed.card ≡ Octets }
        requires line { line < self.old.config.lines }
        ensures config { self.new.config ≡ self.old.config }
        ensures kind { kind_of self.new.timed.card ≡ kind_of self.old.timed.card }
        ensures pulled { (m : machine.Setup) → SetupStands self.old m
            → room.new ≡ (pulls (length room.old) line (record { setup = m; octets = [] })).octets }
        ensures after { (m : machine.Setup) → SetupStands self.old m
            → SetupStands self.new (pulls (length room.old) line (record { setup = m; octets = [] })).setup }
    {
        for place in room.iter_mut() {
            *place = self.next_octet(line);
        }
    }

    /// A line of a card of octets takes one.
    fn next_octet(&mut self, line: usize) -> u8
        requires kind { kind_of self.old.timed.card ≡ Octets }
        requires line { line < self.old.config.lines }
        ensures config { self.new.config ≡ self.old.config }
        ensures kind { kind_of self.new.timed.card ≡ kind_of self.old.timed.card }
        ensures pulled { (m : machine.Setup) → SetupStands self.old m → result ≡ octet_in (reply (at line pull) m.board) }
        ensures after { (m : machine.Setup) → SetupStands self.old m → SetupStands self.new (machine.happened m (at line pull)) }
    {
        self.timed.pull(line).octet
    }

    /// Layer 3 asks for something.
    pub(crate) fn ask<T: Target>(
        &mut self,
        line: usize,
        request: Request<'_>,
        page: &mut Page<T>,
    ) -> Put
        requires { line < self.old.config.lines }
        ensures config { self.new.config ≡ self.old.config }
        ensures told { SetupSays result self.old self.new (on T.taken page.old) (on T.taken page.new)
            (λ s. with_event s (at line (event.request (request_of request.entry)))) }
    {
        let tei = tei_asked(&request);
        let mut report = BareReport::nothing();
        match self.timed.request(line, request, &mut report) {
            Ok(()) => tell(line, self.losses, tei, &report, None, page),
            Err(refusal) => page.put_refused(line as u16, refusal),
        }
    }

    /// The TEIs that are on a line, in order: they are put into the beginning of `room`. How many they are.
    pub(crate) fn teis_on(&self, line: usize, room: &mut [u8]) -> usize
        requires { 127 ≤ length room.old }
        ensures size { length room.new ≡ length room.old }
        ensures few { result ≤ 127 }
        ensures teis { (m : machine.Setup) → SetupStands self.now m → take result room.new ≡ teis_on line m.board }
    {
        let mut count = 0;
        let frames = self.timed.card().frames();
        for tei in 0..GROUP {
            if frames.state(line, Service::Call, tei).is_some() {
                room[count] = tei;
                count += 1;
            }
        }
        count
    }

    /// The line is down: both links of its TEIs, which these are, are given up, and then what waits and is of no link.
    pub(crate) fn give_up<T: Target>(&mut self, line: usize, teis: &[u8], page: &mut Page<T>) -> Put
        requires { line < self.old.config.lines }
        ensures { SetupSays result self.old self.new (on T.taken page.old) (on T.taken page.new) (with_events (downs line teis.now)) }
    {
        for tei in teis {
            self.ask(line, Request::Deactivate(Service::Call, *tei), page)?;
            self.ask(line, Request::Deactivate(Service::Packet, *tei), page)?;
        }
        self.ask(line, Request::Down, page)
    }

    /// So many milliseconds pass: what falls due does so, each at its moment.
    pub(crate) fn wait<T: Target>(&mut self, milliseconds: u32, page: &mut Page<T>) -> Obeyed
        requires stands { (m : machine.Setup) × SetupStands self.old m }
        ensures { Answers result self.old self.new (on T.taken page.old) (on T.taken page.new) (meaning.wait milliseconds) }
    {
        let end = self.timed.now() + u64::from(milliseconds);
        if end > LAST_MOMENT {
            return Err(LineFault::Faulty(FaultKind::TimeOver));
        }
        written(self.until(end, page))
    }

    /// All that falls due until a moment does so, each at its moment.
    // It comes to an end as an expiry starts one timer at most, by the machine for which the setup stands.
    fn until<T: Target>(&mut self, end: u64, page: &mut Page<T>) -> Put
        requires end { end < 2 ^ 63 }
        requires stands { (m : machine.Setup) × SetupStands self.old m × (m.clock.now ≤ end) }
        ensures { SetupSays result self.old self.new (on T.taken page.old) (on T.taken page.new) (until end) }
    {
        let mut report = BareReport::nothing();
        while let Some(line) = self.fall_due(end, &mut report) {
            tell(line, self.losses, None, &report, None, page)?;
            report = BareReport::nothing();
        }
        self.go_to(end);
        Ok(())
    }

    /// What falls due first does so, if it does until `end`: the line at which it was, and what it led to in the report.
    fn fall_due(&mut self, end: u64, report: &mut BareReport) -> Option<usize>
        requires end { end < 2 ^ 63 }
        requires stands { (m : machine.Setup) × SetupStands self.old m × (m.clock.now ≤ end) }
        requires clear { IsClear report.old }
        ensures config { self.new.config ≡ self.old.config }
        ensures line { IfSome result (λ line. line < self.new.config.lines) }
        ensures due { IfSome result (λ line. (m : machine.Setup) → SetupStands self.old m → HasExpired end line report.new self.new m) }
        ensures none { IfNone result ((m : machine.Setup) → SetupStands self.old m → (due_by end m.clock ≡ None) × SetupStands self.new m) }
    {
        let moment = self.timed.next_moment()?;
        if moment > end {
            return None;
        }
        let now = self.timed.now();
        self.go_to(now.max(moment));
        let (line, _) = self.timed.fall_due(report)?;
        Some(line)
    }

    /// The time is now a moment that is not before the last.
    fn go_to(&mut self, moment: u64)
        requires end { moment < 2 ^ 63 }
        requires stands { (m : machine.Setup) × SetupStands self.old m × (m.clock.now ≤ moment) }
        ensures config { self.new.config ≡ self.old.config }
        ensures after { (m : machine.Setup) → SetupStands self.old m → SetupStands self.new (record m { clock = at_moment moment m.clock }) }
    {
        if self.timed.go_to(moment).is_err() {
            unreachable!();
        }
    }
}

/// Writes what a report on a line tells, and if losses are shown, what is given up of a TEI: of the one that a request names, or
/// of the first note's.
pub(crate) fn tell<T: Target>(
    line: usize,
    losses: bool,
    tei: Option<u8>,
    report: &BareReport,
    contents: Option<&[u8]>,
    page: &mut Page<T>,
) -> Put
    requires number { line < 2 ^ 16 }
    ensures { Puts result (on T.taken page.old) (on T.taken page.new) (told_text losses line tei (told_beside (option_copied contents.entry) report.now)) }
{
    page.put_report(
        line as u16,
        report.notes(),
        contents,
        report.cause(),
        report.lost,
    )?;
    tell_losses(line as u16, losses, tei, report, page)
}

fn tell_losses<T: Target>(
    line: u16,
    losses: bool,
    tei: Option<u8>,
    report: &BareReport,
    page: &mut Page<T>,
) -> Put
    ensures { (contents : Option (List ℕ)) → Puts result (on T.taken page.old) (on T.taken page.new) (shown_losses losses line tei (told_beside contents report.now)) }
{
    if !losses {
        return Ok(());
    }
    let tei = tei.unwrap_or(tei_noted(report.notes()));
    page.put_losses(line, tei, report.given_up, report.given_up_16)
}

/// What a line comes to at which only a write can fail.
pub(crate) fn written(told: Put) -> Obeyed
    ensures { result ≡ written told }
{
    told.map_err(|_| LineFault::Write)
}
