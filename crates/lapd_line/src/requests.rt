//! What layer 3 and management ask for.

ghost use Rattle.std.specs.Prelude.{◌≡◌, ◌≤◌, ◌==◌, ◌||◌, ℕ, false, List, [], length, Some, None, IfErr, OnOk, OnErr, nat_le};
ghost use Rattle.lapd_line.specs.{Service, Owned, Store, used_slots, is_on, places_of, Line, at_units, refusal, request_of, aim_of_request, at_deactivated, at_requested, last_unit_tei, asked_aim, is_bad, link_refusal, request_asked, may_ask, Standing, Serves, always, IsClear};
ghost use Rattle.lapd_line.specs.Requests.{request_for};
ghost use Rattle.model_line.specs.Line as machine;
ghost use Rattle.model_line.specs.Request as asked;

use crate::addressing::is_network;
use crate::link_layer::{LinkLayer, link_number};
use crate::units::QueuedUnit;
use lapd_frame::{GROUP, LAST_TEI, Refusal, Service, Side};
use lapd_link::{BareReport, LinkRequest};
use lapd_store::Shelf;
use model_line::{Config, Request};

/// What is asked of TEI management about a TEI.
#[derive(Clone, Copy)]
pub(crate) enum TeiRequest {
    Assign,
    Remove,
    Check,
    Disown,
    Ask,
    Verify,
}

/// What is asked for, by whom it is asked of.
#[derive(Clone, Copy)]
pub(crate) enum AskedOf<'r> {
    /// Contents for the unit data that waits.
    Units(Service, u8, &'r [u8]),
    Management(TeiRequest, u8),
    Link(Service, u8, LinkRequest<'r>),
    /// The line of a link is down.
    LinkDown(Service, u8),
    /// The whole line is.
    LineDown,
}

/// Whom a request is for.
#[inline(always)]
fn asked_of(request: Request<'_>) -> AskedOf<'_>
    ensures { request_for result ≡ request_of request.entry }
{
    match request {
        Request::Establish(service, tei) => AskedOf::Link(service, tei, LinkRequest::Establish),
        Request::Release(service, tei) => AskedOf::Link(service, tei, LinkRequest::Release),
        Request::Data(service, tei, contents) => {
            AskedOf::Link(service, tei, LinkRequest::Data(contents))
        }
        Request::Unit(service, tei, contents) => AskedOf::Units(service, tei, contents),
        Request::Assign(tei) => AskedOf::Management(TeiRequest::Assign, tei),
        Request::Remove(tei) => AskedOf::Management(TeiRequest::Remove, tei),
        Request::Check(tei) => AskedOf::Management(TeiRequest::Check, tei),
        Request::Disown(tei) => AskedOf::Management(TeiRequest::Disown, tei),
        Request::AskTei => AskedOf::Management(TeiRequest::Ask, 0),
        Request::VerifyTei(tei) => AskedOf::Management(TeiRequest::Verify, tei),
        Request::SetBusy(service, tei) => AskedOf::Link(service, tei, LinkRequest::SetBusy),
        Request::ClearBusy(service, tei) => AskedOf::Link(service, tei, LinkRequest::ClearBusy),
        Request::Deactivate(service, tei) => AskedOf::LinkDown(service, tei),
        Request::Down => AskedOf::LineDown,
    }
}

/// The greatest TEI to which a side sends unit data: the network's to the group, the user's to no more than a terminal's.
fn last_unit_tei(side: Side) -> u8
    ensures { result ≡ last_unit_tei side }
{
    match side {
        Side::Network => GROUP,
        Side::User => LAST_TEI,
    }
}

impl TeiRequest {
    /// Whether a card may be asked for it.
    fn is_for(self, config: &Config) -> bool
        ensures { result ≡ may_ask config.now self }
    {
        match self {
            TeiRequest::Assign => true,
            TeiRequest::Remove => is_network(config.side) || config.is_terminal(),
            TeiRequest::Check | TeiRequest::Disown => is_network(config.side),
            TeiRequest::Ask | TeiRequest::Verify => config.is_terminal(),
        }
    }

    /// Whether it may not name this TEI: of those that name one, none names a TEI over 126, but 127 may be disowned.
    fn is_bad(self, tei: u8) -> bool
        ensures { result ≡ is_bad self tei }
    {
        match self {
            TeiRequest::Assign | TeiRequest::Remove | TeiRequest::Check | TeiRequest::Verify => tei
                > LAST_TEI,
            TeiRequest::Disown => tei > GROUP,
            TeiRequest::Ask => false,
        }
    }
}

impl LinkLayer {
    ghost use Rattle.lapd_link.specs.Events as link;
    ghost use Rattle.lapd_line.specs.LinkLayer.{LayerStands};

    /// Serves a request, or refuses it and changes nothing.
    #[inline(always)]
    pub(crate) fn request<S: Shelf>(
        &mut self,
        request: Request<'_>,
        report: &mut BareReport,
        shelf: &mut S,
        slots: u32,
    ) -> Result<(), Refusal>
        requires stands { Standing self.old (S.store shelf.old) }
        requires clear { IsClear report.old }
        requires slots { slots ≤ (S.store shelf.old).slots }
        ensures refused { IfErr result (λ why. (others : List Owned) (m : Line) → LayerStands self.old (S.store shelf.old) others m
            → refusal self.old.config (nat_le slots (used_slots (S.store shelf.old))) (request_of request.entry) m ≡ Some why) }
        ensures unchanged { OnErr result (self.new ≡ self.old) }
        ensures kept { OnErr result (shelf.new ≡ shelf.old) }
        ensures untold { OnErr result (report.new ≡ report.old) }
        ensures granted { OnOk result ((others : List Owned) (m : Line) → LayerStands self.old (S.store shelf.old) others m
            → refusal self.old.config (nat_le slots (used_slots (S.store shelf.old))) (request_of request.entry) m ≡ None) }
        ensures served { OnOk result (Serves (aim_of_request (request_of request.entry)) [] self.old (S.store shelf.old) self.new (S.store shelf.new) report.new) }
    {
        match asked_of(request) {
            AskedOf::Units(service, tei, contents) => {
                self.unit(service, tei, contents, report, shelf, slots)
            }
            AskedOf::Management(asked, tei) => self.manage(asked, tei, report, shelf),
            AskedOf::Link(service, tei, request) => {
                self.ask(service, tei, request, report, shelf, slots)
            }
            AskedOf::LinkDown(service, tei) => self.deactivate(service, tei, report, shelf),
            AskedOf::LineDown => {
                self.give_up(report, shelf);
                Ok(())
            }
        }
    }

    /// Asks the link of a service with a TEI.
    #[inline(always)]
    fn ask<S: Shelf>(
        &mut self,
        service: Service,
        tei: u8,
        request: LinkRequest<'_>,
        report: &mut BareReport,
        shelf: &mut S,
        slots: u32,
    ) -> Result<(), Refusal>
        requires stands { Standing self.old (S.store shelf.old) }
        requires clear { IsClear report.old }
        requires slots { slots ≤ (S.store shelf.old).slots }
        ensures refused { IfErr result (λ why. (others : List Owned) (m : Line) → LayerStands self.old (S.store shelf.old) others m
            → link_refusal self.old.config (nat_le slots (used_slots (S.store shelf.old))) service tei (link.request_of request.entry) m ≡ Some why) }
        ensures unchanged { OnErr result (self.new ≡ self.old) }
        ensures kept { OnErr result (shelf.new ≡ shelf.old) }
        ensures untold { OnErr result (report.new ≡ report.old) }
        ensures granted { OnOk result ((others : List Owned) (m : Line) → LayerStands self.old (S.store shelf.old) others m
            → link_refusal self.old.config (nat_le slots (used_slots (S.store shelf.old))) service tei (link.request_of request.entry) m ≡ None) }
        ensures served { OnOk result (Serves (λ m. at_requested service tei (link.request_of request.entry) (machine.place_in m tei)) [] self.old (S.store shelf.old) self.new (S.store shelf.new) report.new) }
    {
        if tei > LAST_TEI {
            return Err(Refusal::BadTei);
        }
        let Some(place) = self.teis.place(tei) else {
            return Err(Refusal::NoLink);
        };
        let number = link_number(place, service);
        let link = &mut self.links[number];
        match link.request(request, report, shelf, slots) {
            Ok(()) => {
                self.has_frame.set(number, link.has_frame());
                Ok(())
            }
            Err(why) => Err(why),
        }
    }

    /// Gives up the link of a service with a TEI, as its line is down.
    fn deactivate<S: Shelf>(
        &mut self,
        service: Service,
        tei: u8,
        report: &mut BareReport,
        shelf: &mut S,
    ) -> Result<(), Refusal>
        requires stands { Standing self.old (S.store shelf.old) }
        requires clear { IsClear report.old }
        ensures untold { OnErr result (report.new ≡ report.old) }
        ensures refused { IfErr result (λ why. (others : List Owned) (m : Line) → LayerStands self.old (S.store shelf.old) others m
            → refusal self.old.config false (asked.Deactivate service tei) m ≡ Some why) }
        ensures unchanged { OnErr result (self.new ≡ self.old) }
        ensures kept { OnErr result (shelf.new ≡ shelf.old) }
        ensures granted { OnOk result ((others : List Owned) (m : Line) → LayerStands self.old (S.store shelf.old) others m
            → refusal self.old.config false (asked.Deactivate service tei) m ≡ None) }
        ensures served { OnOk result (Serves (λ m. at_deactivated service tei (machine.place_in m tei)) [] self.old (S.store shelf.old) self.new (S.store shelf.new) report.new) }
    {
        if tei > LAST_TEI {
            return Err(Refusal::BadTei);
        }
        let Some(place) = self.teis.place(tei) else {
            return Err(Refusal::NoLink);
        };
        let number = link_number(place, service);
        let link = &mut self.links[number];
        link.clear(report, shelf);
        self.has_frame.set(number, link.has_frame());
        Ok(())
    }

    /// Asks TEI management for something about a TEI.
    fn manage<S: Shelf>(
        &mut self,
        asked: TeiRequest,
        tei: u8,
        report: &mut BareReport,
        shelf: &mut S,
    ) -> Result<(), Refusal>
        requires stands { Standing self.old (S.store shelf.old) }
        requires clear { IsClear report.old }
        ensures refused { IfErr result (λ why. (others : List Owned) (m : Line) → LayerStands self.old (S.store shelf.old) others m
            → refusal self.old.config false (request_asked asked tei) m ≡ Some why) }
        ensures unchanged { OnErr result (self.new ≡ self.old) }
        ensures kept { OnErr result (shelf.new ≡ shelf.old) }
        ensures untold { OnErr result (report.new ≡ report.old) }
        ensures granted { OnOk result ((others : List Owned) (m : Line) → LayerStands self.old (S.store shelf.old) others m
            → refusal self.old.config false (request_asked asked tei) m ≡ None) }
        ensures served { OnOk result (Serves (always (asked_aim asked tei)) [] self.old (S.store shelf.old) self.new (S.store shelf.new) report.new) }
    {
        if !asked.is_for(&self.config) {
            return Err(Refusal::WrongSide);
        }
        if asked.is_bad(tei) {
            return Err(Refusal::BadTei);
        }
        match self.teis.ask(asked, tei) {
            Ok(told) => {
                self.change(told, report, shelf);
                Ok(())
            }
            Err(why) => Err(why),
        }
    }

    /// Puts unit data at the end of those that wait.
    fn unit<S: Shelf>(
        &mut self,
        service: Service,
        tei: u8,
        contents: &[u8],
        report: &mut BareReport,
        shelf: &mut S,
        slots: u32,
    ) -> Result<(), Refusal>
        requires stands { Standing self.old (S.store shelf.old) }
        requires clear { IsClear report.old }
        requires slots { slots ≤ (S.store shelf.old).slots }
        ensures refused { IfErr result (λ why. (others : List Owned) (m : Line) → LayerStands self.old (S.store shelf.old) others m
            → refusal self.old.config (nat_le slots (used_slots (S.store shelf.old))) (asked.Unit service tei contents.now) m ≡ Some why) }
        ensures unchanged { OnErr result (self.new ≡ self.old) }
        ensures kept { OnErr result (shelf.new ≡ shelf.old) }
        ensures untold { OnErr result (report.new ≡ report.old) }
        ensures granted { OnOk result ((others : List Owned) (m : Line) → LayerStands self.old (S.store shelf.old) others m
            → refusal self.old.config (nat_le slots (used_slots (S.store shelf.old))) (asked.Unit service tei contents.now) m ≡ None) }
        ensures served { OnOk result (Serves (always (at_units (record { service = service; tei = tei; contents = contents.now }))) [] self.old (S.store shelf.old) self.new (S.store shelf.new) report.new) }
    {
        if let Some(why) = self.unit_refusal(tei, contents.len(), slots <= shelf.used()) {
            return Err(why);
        }
        // There is a free slot: fewer than `slots` are used.
        let Some(slot) = shelf.put(contents) else {
            return Err(Refusal::PoolFull);
        };
        self.units.push(QueuedUnit { service, tei, slot });
        Ok(())
    }

    /// Why unit data of so many octets is refused.
    fn unit_refusal(&self, tei: u8, octets: usize, pool_is_full: bool) -> Option<Refusal>
        ensures { (store : Store) (others : List Owned) (m : Line) (service : Service) (contents : List ℕ) → LayerStands self.now store others m → length contents ≡ octets
            → result ≡ refusal self.now.config pool_is_full (asked.Unit service tei contents) m }
    {
        if tei > last_unit_tei(self.config.side) {
            return Some(Refusal::BadTei);
        }
        if !self.has_receiver(tei) {
            return Some(Refusal::NoLink);
        }
        if octets > usize::from(self.config.n201) {
            return Some(Refusal::TooLong);
        }
        if self.units.len() >= usize::from(self.config.unit_queue) {
            return Some(Refusal::QueueFull);
        }
        if pool_is_full {
            return Some(Refusal::PoolFull);
        }
        None
    }

    /// Whether there may be someone for unit data: the group, or a terminal whose TEI is on the line.
    fn has_receiver(&self, tei: u8) -> bool
        ensures { result ≡ ((tei == 127) || is_on tei (places_of self.now.teis)) }
    {
        tei == GROUP || self.teis.place(tei).is_some()
    }
}
