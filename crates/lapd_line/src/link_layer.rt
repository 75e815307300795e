//! The data link layer entities of a line: TEI management, the links, and the unit data that waits.

ghost use Rattle.std.specs.Prelude.{◌≡◌, ℕ, ◌≤◌, List, drop, IfOk};
ghost use Rattle.lapd_line.specs.{at_link, received_of, info_of, AreBegun, IsAt, IsInRange, Standing, Serves, always, IsClear, places_of};
ghost use Rattle.model_link.specs.Events as event;
ghost use Rattle.model_line.specs.Line as machine;

mod saved;

use crate::fault::StartFault;
use crate::managing::Managing;
use crate::marks::Marks;
use crate::units::Units;
use lapd_frame::Service;
use lapd_link::{BareReport, Link, Received};
use lapd_store::Shelf;
use model_line::Config;
use std::alloc::Global;

/// What a line has beside its counters.
#[derive(Debug, Drop)]
pub(crate) struct LinkLayer {
    pub(crate) config: Config,
    pub(crate) teis: Managing,
    /// The links of all places of the TEI table, at each place that of call control before that of packet mode.
    pub(crate) links: Vec<Link>,
    pub(crate) units: Units,
    /// The link at which the next round begins.
    pub(crate) turn: usize,
    /// The links that have something to give, by their numbers.
    pub(crate) has_frame: Marks,
}

/// A link by its number: two links a place, that of call control first. No table has more than eight places.
pub(crate) fn link_number(place: usize, service: Service) -> usize
    ensures { place ≤ 8 → result ≡ machine.link_number place service }
{
    let call = place.wrapping_mul(2);
    match service {
        Service::Call => call,
        Service::Packet => call.wrapping_add(1),
    }
}

/// The links of a line on which no TEI is: two for each place.
pub(crate) fn start_links(alloc: Global, config: &Config) -> Result<Vec<Link>, StartFault>
    requires { IsInRange config.now }
    ensures { IfOk result (λ links. AreBegun config.now links.items) }
{
    let count = 2 * usize::from(config.terminals);
    let mut links = Vec::with_capacity(alloc, count)?;
    for _ in 0..count {
        let link = Link::start(alloc, config.queue as u8, config.control as u8)?;
        links.push_reserved(link);
    }
    Ok(links)
}

impl LinkLayer {
    /// Something came from the terminal for a link of the TEI at a place. Its information begins at `start` of the
    /// octets that came.
    #[inline(always)]
    pub(crate) fn receive<S: Shelf>(
        &mut self,
        service: Service,
        tei: u8,
        place: usize,
        received: Received<'_>,
        start: usize,
        report: &mut BareReport,
        shelf: &mut S,
    )
        requires at { IsAt (places_of self.old.teis) place tei }
        requires clear { IsClear report.old }
        requires stands { Standing self.old (S.store shelf.old) }
        ensures { (octets : List ℕ) → info_of received.entry ≡ drop start octets
            → Serves (always (at_link service tei place (event.received (received_of received.entry)))) octets self.old (S.store shelf.old) self.new (S.store shelf.new) report.new }
    {
        let number = link_number(place, service);
        let link = &mut self.links[number];
        link.receive(received, report, shelf);
        report.start = start;
        self.has_frame.set(number, link.has_frame());
    }

    /// The same where it is no frame that [`LinkLayer::serve`] takes to its link at once.
    // It stands apart, since few are.
    #[cold]
    #[inline(never)]
    pub(crate) fn receive_apart<S: Shelf>(
        &mut self,
        service: Service,
        tei: u8,
        place: usize,
        received: Received<'_>,
        start: usize,
        report: &mut BareReport,
        shelf: &mut S,
    )
        requires at { IsAt (places_of self.old.teis) place tei }
        requires clear { IsClear report.old }
        requires stands { Standing self.old (S.store shelf.old) }
        ensures { (octets : List ℕ) → info_of received.entry ≡ drop start octets
            → Serves (always (at_link service tei place (event.received (received_of received.entry)))) octets self.old (S.store shelf.old) self.new (S.store shelf.new) report.new }
    {
        self.receive(service, tei, place, received, start, report, shelf);
    }
}
