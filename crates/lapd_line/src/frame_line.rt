//! The line: one call for each thing that happens.

ghost use Rattle.std.specs.Prelude.{◌≡◌, ◌≤◌, List, [], false, true, None, Some, IfOk, IfErr, OnOk, OnErr, nat_le};
ghost use Rattle.std.specs.Option.{option_copied};
ghost use Rattle.lapd_line.specs.{none_counted, Owned, Holds, Store, used_slots, heard_of, came, cause_of, dropped, told, hears, answer, refusal, request_of, IsInRange, starts, IsQuiet, bare_shown, with_counted, told_in, told_beside, delivered_in, octets_of, listed, IsClear, Leads, LeadsIfHeard, answer_if_heard, config_of};
ghost use Rattle.model_bits.specs.Stream as stream;
ghost use Rattle.model_line.specs.Event as line_event;
ghost use Rattle.model_line.specs.Line as machine;

use crate::came::{came, cause_of, octets_of};
use crate::fault::StartFault;
use crate::link_layer::{LinkLayer, start_links};
use crate::managing::Managing;
use crate::marks::Marks;
use crate::reports::tell_drop;
use crate::units::Units;
use lapd_count::Counters;
use lapd_frame::{Refusal, Timer};
use lapd_link::BareReport;
use lapd_store::Shelf;
use model_bits::{Cause, Heard};
use model_line::{Config, Fault, Request};
use std::alloc::Global;

/// A line: what it holds of its terminals now (Q.921 clauses 3 and 5, either side). It hears whole frames, and gives them.
///
/// Flags, stuffed 0s and checks are a controller's, or a [`Port`](crate::Port)'s. Contents that wait lie on a shelf, which is
/// handed to each call and is always the same one. All memory of the line itself is taken by [`FrameLine::start`]; no other
/// call takes any.
#[derive(Debug, Drop)]
pub struct FrameLine {
    pub(crate) layer: LinkLayer,
    /// What was counted since the start.
    pub(crate) counters: Counters,
}

impl FrameLine {
    ghost use Rattle.lapd_line.specs.Stands.{LineStands};

    /// A line of a card with these sizes and limits, all in range. No TEI is on it.
    ///
    /// # Errors
    ///
    /// `OutOfMemory` if there is no memory for all the room that it needs.
    pub fn start(alloc: Global, config: &Config) -> Result<FrameLine, StartFault>
        requires { IsInRange config.now }
        ensures config { IfOk result (λ line. config_of line ≡ config.now) }
        // On a shelf that is wide enough it stands for an empty past, whatever the others own.
        ensures fresh { IfOk result (λ line. (store : Store) (others : List Owned) → config.now.n201 ≤ store.width
            → Holds store others → LineStands line store others (machine.fresh_line config.now)) }
        ensures counters { IfOk result (λ line. line.counters ≡ none_counted) }
    {
        let teis = Managing::start(alloc, config)?;
        let links = start_links(alloc, config)?;
        let units = Units::start(alloc, usize::from(config.unit_queue))?;
        let layer = LinkLayer {
            config: *config,
            teis,
            links,
            units,
            turn: 0,
            has_frame: Marks::none(),
        };
        Ok(FrameLine {
            layer,
            counters: Counters::new(),
        })
    }

    /// Takes what is heard, as a deframer tells it, and tells in the report what it led to. If nothing is heard, nothing
    /// happens.
    #[inline(always)]
    pub fn heard<S: Shelf>(
        &mut self,
        heard: Heard<'_>,
        report: &mut BareReport,
        shelf: &mut S,
    ) -> bool
        requires clear { IsClear report.old }
        requires stands { (others : List Owned) × (m : machine.Line) × LineStands self.old (S.store shelf.old) others m }
        ensures told { (others : List Owned) (m : machine.Line) → LineStands self.old (S.store shelf.old) others m
            → told (told_in (octets_of (heard_of heard.entry)) report.new) ≡ answer_if_heard (config_of self.old) (heard_of heard.entry) m }
        ensures after { LeadsIfHeard (heard_of heard.entry) self.old (S.store shelf.old) self.new (S.store shelf.new) }
        ensures quiet { result ≡ true → IsQuiet report.new }
    {
        match heard {
            Heard::Nothing => false,
            Heard::Dropped(_) | Heard::Frame(_) | Heard::Overlong(_) => {
                // It is counted after it is served: so what was seen of its octets need not be looked at again.
                self.layer.serve(heard, report, shelf);
                self.counters.heard(self.layer.config.side, heard);
                self.count(report)
            }
        }
    }

    /// Counts what was told. If that is nothing but orders, it says so, and there is nothing to count.
    #[tactic(auto, using(crate::proofs::Quiet::quiet_shown))]
    #[inline(always)]
    fn count(&mut self, report: &BareReport) -> bool
        ensures counted { self.new ≡ with_counted self.old (bare_shown report.now) }
        ensures quiet { result ≡ true → IsQuiet report.now }
    {
        if report.delivered {
            // Mostly this is an I-frame's, whose note is counted at once.
            self.count_told(report);
            return false;
        }
        if report.is_quiet() {
            return true;
        }
        self.count_apart(report);
        false
    }

    /// The same of what tells more.
    #[inline(always)]
    fn count_told(&mut self, report: &BareReport)
        ensures { self.new ≡ with_counted self.old (bare_shown report.now) }
    {
        self.counters
            .told(report.notes(), report.cause(), report.lost);
    }

    /// The same. It stands apart, so that a report of orders alone is only looked at.
    #[inline(never)]
    fn count_apart(&mut self, report: &BareReport)
        ensures { self.new ≡ with_counted self.old (bare_shown report.now) }
    {
        self.count_told(report);
    }

    /// Takes a frame that a controller brings, from its address to its information, without its check, and tells in the report
    /// what it led to. [`FrameLine::contents`] lends contents that it delivers from these octets. If the answer is true, it
    /// tells nothing but orders for timers.
    ///
    /// What it is heard as is what a deframer would hear in its octets on an idle line (`frames_are_heard` of
    /// `model_card::ports`).
    #[inline(always)]
    pub fn frame<S: Shelf>(&mut self, octets: &[u8], report: &mut BareReport, shelf: &mut S) -> bool
        requires clear { IsClear report.old }
        requires stands { (others : List Owned) × (m : machine.Line) × LineStands self.old (S.store shelf.old) others m }
        ensures told { (others : List Owned) (m : machine.Line) → LineStands self.old (S.store shelf.old) others m
            → told (told_in (octets_of (Some (came (config_of self.old).n201 octets.now))) report.new) ≡ answer (config_of self.old) (hears (came (config_of self.old).n201 octets.now)) m }
        ensures after { Leads (hears (came (config_of self.old).n201 octets.now)) self.old (S.store shelf.old) self.new (S.store shelf.new) }
        ensures quiet { result ≡ true → IsQuiet report.new }
    {
        // Both ways do the same. An RR frame, as a poll is, is compiled apart, so that nothing is in its way that others need.
        if let [_, _, 0x01, _] = octets {
            return self.heard(came(octets, self.layer.config.n201), report, shelf);
        }
        self.heard(came(octets, self.layer.config.n201), report, shelf)
    }

    /// The contents that a frame of these octets delivered, which led to this report.
    #[inline(always)]
    pub fn contents<'a>(&self, octets: &'a [u8], report: &BareReport) -> Option<&'a [u8]>
        ensures { option_copied result ≡ delivered_in (octets_of (Some (came (config_of self.now).n201 octets.now))) report.now }
    {
        report.contents(octets_of(came(octets, self.layer.config.n201)))
    }

    /// A controller tells a fault in place of a frame. It is reported with its cause, and changes nothing.
    ///
    /// What it is heard as is what a deframer would hear in the octets of such a fault (`frames_are_heard` of
    /// `model_card::ports`).
    pub fn failed(&mut self, fault: Fault, report: &mut BareReport)
        requires clear { IsClear report.old }
        ensures told { (m : machine.Line)
            → told (told_beside None report.new) ≡ answer (config_of self.old) (hears (stream.dropped (cause_of fault))) m }
        ensures after { (store : Store) → Leads (hears (stream.dropped (cause_of fault))) self.old store self.new store }
    {
        self.dropped(cause_of(fault), report);
    }

    /// What stood on the line is dropped. It is reported with its cause and counted, and changes nothing.
    #[inline(always)]
    pub fn dropped(&mut self, cause: Cause, report: &mut BareReport)
        requires clear { IsClear report.old }
        ensures says { told_in [] report.new ≡ dropped cause }
        ensures told { (m : machine.Line) → told (told_in [] report.new) ≡ answer (config_of self.old) (hears (stream.dropped cause)) m }
        ensures after { (store : Store) → Leads (hears (stream.dropped cause)) self.old store self.new store }
    {
        tell_drop(report, cause);
        self.counters.told(&[], Some(cause), 0);
    }

    /// A timer expires: T200 or T203 of a link, T201 of the check of a TEI, or T202 of a terminal (Q.921 clause 5.9). If it
    /// does not run, nothing happens (profile).
    pub fn expire<S: Shelf>(&mut self, timer: Timer, report: &mut BareReport, shelf: &mut S)
        requires clear { IsClear report.old }
        requires stands { (others : List Owned) × (m : machine.Line) × LineStands self.old (S.store shelf.old) others m }
        ensures told { (others : List Owned) (m : machine.Line) → LineStands self.old (S.store shelf.old) others m
            → told (told_beside None report.new) ≡ answer (config_of self.old) (line_event.expiry timer) m }
        // It starts one timer at most.
        ensures starts { starts (listed report.new.orders) ≤ 1 }
        ensures after { Leads (line_event.expiry timer) self.old (S.store shelf.old) self.new (S.store shelf.new) }
    {
        self.layer.expire(timer, report, shelf);
        self.count(report);
    }

    /// Serves a request of layer 3 or management (Q.921 clause 4.1.1). One that is refused changes nothing. The whole
    /// card may hold `slots` contents, which is at most what the shelf has.
    ///
    /// # Errors
    ///
    /// The first row that holds of those that apply to the request ([`Refusal`] has them in order); `PoolFull` where
    /// `slots` or more of the shelf's slots are used.
    pub fn request<S: Shelf>(
        &mut self,
        request: Request<'_>,
        report: &mut BareReport,
        shelf: &mut S,
        slots: u32,
    ) -> Result<(), Refusal>
        requires clear { IsClear report.old }
        requires stands { (others : List Owned) × (m : machine.Line) × LineStands self.old (S.store shelf.old) others m }
        requires slots { slots ≤ (S.store shelf.old).slots }
        ensures refused { IfErr result (λ why. (others : List Owned) (m : machine.Line) → LineStands self.old (S.store shelf.old) others m
            → refusal (config_of self.old) (nat_le slots (used_slots (S.store shelf.old))) (request_of request.entry) m ≡ Some why) }
        ensures unchanged { OnErr result (self.new ≡ self.old) }
        ensures kept { OnErr result (shelf.new ≡ shelf.old) }
        ensures untold { OnErr result (report.new ≡ report.old) }
        ensures accepted { OnOk result ((others : List Owned) (m : machine.Line) → LineStands self.old (S.store shelf.old) others m
            → refusal (config_of self.old) (nat_le slots (used_slots (S.store shelf.old))) (request_of request.entry) m ≡ None) }
        ensures told { OnOk result ((others : List Owned) (m : machine.Line) → LineStands self.old (S.store shelf.old) others m
            → told (told_beside None report.new) ≡ answer (config_of self.old) (line_event.request (request_of request.entry)) m) }
        ensures after { OnOk result (
            Leads (line_event.request (request_of request.entry)) self.old (S.store shelf.old) self.new (S.store shelf.new)) }
    {
        self.layer.request(request, report, shelf, slots)?;
        self.count(report);
        Ok(())
    }
}
