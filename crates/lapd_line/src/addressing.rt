//! What a line hears, and which of its entities it is for.

ghost use Rattle.std.specs.Prelude.{◌≡◌, ℕ, ◌≤◌, List, [], drop, length, Ok, Err};
ghost use Rattle.lapd_line.specs.{heard_of, parts_of, long_reading, start_of, Unserved, dropped, addressed, aim_of_long, aim_of_reading, aim_of_unnumbered, reaches_link, drop_for, heard_side, unless_at_link, is_network, serves_messages, places_of, told_at, is_ui, received_of, info_of, addressee, group_service, message_at, IsAtPlace, Standing, Serves, always, aim_of_event, octets_of, told_in, IsClear};
ghost use Rattle.lapd_frame.specs.Overlong.{is_unit};
ghost use Rattle.lapd_frame.specs.Senders.{reading};
ghost use Rattle.model_link.specs.Events as link;

use crate::link_layer::LinkLayer;
use crate::reports::tell_drop;
use lapd_frame::{
    Address, Control, Frame, GROUP, Long, MANAGEMENT, Note, ReadFault, Reading, Service, ShortList,
    Side, is_unit,
};
use lapd_link::{BareReport, Received};
use lapd_store::Shelf;
use model_bits::{Cause, Heard};

/// For whom a frame is, by its address.
#[derive(Clone, Copy)]
pub(crate) enum Addressee {
    /// Layer 2 management.
    Management,
    /// The link of a service, of the TEI at a place.
    Link(Service, u8, usize),
    /// Nobody on this line.
    Nobody(Cause),
}

/// Whether it is the control field of a UI frame.
fn is_ui(control: Control) -> bool
    ensures { result ≡ is_ui control }
{
    matches!(control, Control::Ui { .. })
}

/// Whether a UI frame, or if `unit` is false an XID frame, that is too long to keep is something to its link.
fn reaches_link(reading: Reading, unit: bool) -> bool
    ensures { result ≡ reaches_link reading unit }
{
    unit && matches!(reading, Reading::AnnexB)
}

/// Whether it is the network's side.
pub(crate) fn is_network(side: Side) -> bool
    ensures { result ≡ is_network side }
{
    matches!(side, Side::Network)
}

impl LinkLayer {
    /// Serves what is heard. Mostly it is a frame for a link.
    // A program with both kinds of cards calls it from two places, and would keep it apart.
    #[inline(always)]
    pub(crate) fn serve<S: Shelf>(
        &mut self,
        heard: Heard<'_>,
        report: &mut BareReport,
        shelf: &mut S,
    )
        requires stands { Standing self.old (S.store shelf.old) }
        requires clear { IsClear report.old }
        ensures { Serves (aim_of_event self.old.config (heard_of heard.entry)) (octets_of (heard_of heard.entry)) self.old (S.store shelf.old) self.new (S.store shelf.new) report.new }
    {
        let octets = match heard {
            Heard::Nothing => return,
            Heard::Dropped(cause) => return tell_drop(report, cause),
            Heard::Frame(octets) => octets,
            Heard::Overlong(head) => return self.overlong(&head, report, shelf),
        };
        if let Ok(frame) = self.config.heard_side().read(octets) {
            if let Addressee::Link(service, tei, place) = self.addressee(frame.address) {
                let received = Received::Frame(frame);
                return self.receive(
                    service,
                    tei,
                    place,
                    received,
                    frame.control.start(),
                    report,
                    shelf,
                );
            }
        }
        self.serve_any(octets, report, shelf);
    }

    /// Serves the octets of a frame, whatever they are.
    // They are read once more: so a frame for a link has no part of what else there may be in its way.
    #[cold]
    #[inline(never)]
    fn serve_any<S: Shelf>(&mut self, octets: &[u8], report: &mut BareReport, shelf: &mut S)
        requires stands { Standing self.old (S.store shelf.old) }
        requires clear { IsClear report.old }
        ensures { Serves (λ m. aim_of_reading self.old.config m (reading (heard_side self.old.config) octets.now)) octets.now self.old (S.store shelf.old) self.new (S.store shelf.new) report.new }
    {
        let frame = match self.config.heard_side().read(octets) {
            Ok(frame) => frame,
            Err(fault) => return self.faulty(fault, octets.len(), report, shelf),
        };
        match self.addressee(frame.address) {
            Addressee::Management => self.message(frame, report, shelf),
            Addressee::Link(service, tei, place) => {
                let received = Received::Frame(frame);
                self.receive_apart(
                    service,
                    tei,
                    place,
                    received,
                    frame.control.start(),
                    report,
                    shelf,
                )
            }
            Addressee::Nobody(cause) => self.for_nobody(frame, cause, report),
        }
    }

    /// A frame of the grammar that is for no link, nor for layer 2 management. On the user's side it may bring unit data
    /// that the network sends to the group.
    #[cold]
    fn for_nobody(&self, frame: Frame<'_>, cause: Cause, report: &mut BareReport)
        requires { IsClear report.old }
        ensures { (octets : List ℕ) → frame.entry.info.now ≡ drop (start_of frame.entry.control) octets
            → told_in octets report.new ≡ told_at self.now.config self.now.config.side (parts_of frame.entry) (dropped cause) }
    {
        match self.group_service(frame) {
            None => tell_drop(report, cause),
            Some(service) => {
                report.notes = ShortList::one(Note::Unit(service, GROUP));
                report.unit = true;
                report.start = frame.control.start();
            }
        }
    }

    /// The service whose unit data a frame brings that the network sends to the group.
    fn group_service(&self, frame: Frame<'_>) -> Option<Service>
        ensures { result ≡ group_service self.now.config (parts_of frame.entry) }
    {
        if is_network(self.config.side) || frame.address.tei != GROUP {
            return None;
        }
        if !is_ui(frame.control) || frame.info.len() > usize::from(self.config.n201) {
            return None;
        }
        Service::with_sapi(frame.address.sapi)
    }

    /// Octets that spell no frame: `len` of them.
    #[cold]
    fn faulty<S: Shelf>(
        &mut self,
        fault: ReadFault,
        len: usize,
        report: &mut BareReport,
        shelf: &mut S,
    )
        requires stands { Standing self.old (S.store shelf.old) }
        requires clear { IsClear report.old }
        ensures { (octets : List ℕ) → length octets ≤ len
            → Serves (λ m. aim_of_reading self.old.config m (Err fault)) octets self.old (S.store shelf.old) self.new (S.store shelf.new) report.new }
    {
        match fault {
            ReadFault::BadExtension => tell_drop(report, Cause::Extension),
            ReadFault::Undefined(address) => self.malformed(
                address,
                Received::Undefined,
                len,
                report,
                shelf,
            ),
            ReadFault::WrongSize(address) => self.malformed(
                address,
                Received::WrongSize,
                len,
                report,
                shelf,
            ),
            ReadFault::Short => tell_drop(report, Cause::Unserved),
        }
    }

    /// A frame that is longer than the line has room for, by its first four octets.
    #[cold]
    fn overlong<S: Shelf>(&mut self, head: &[u8; 4], report: &mut BareReport, shelf: &mut S)
        requires stands { Standing self.old (S.store shelf.old) }
        requires clear { IsClear report.old }
        ensures { Serves (λ m. aim_of_long self.old.config.reading (is_unit head.now) m (long_reading (heard_side self.old.config) head.now)) [] self.old (S.store shelf.old) self.new (S.store shelf.new) report.new }
    {
        match self.config.heard_side().read_long(head) {
            Ok(Long::Information(address)) => self.malformed(
                address,
                Received::Overlong,
                0,
                report,
                shelf,
            ),
            Ok(Long::Unnumbered(address)) => {
                self.unnumbered(address, is_unit(head), report, shelf)
            }
            Err(fault) => self.faulty(fault, 0, report, shelf),
        }
    }

    /// A frame with an address that is not served as a frame.
    #[cold]
    fn malformed<S: Shelf>(
        &mut self,
        address: Address,
        received: Received<'_>,
        len: usize,
        report: &mut BareReport,
        shelf: &mut S,
    )
        requires stands { Standing self.old (S.store shelf.old) }
        requires clear { IsClear report.old }
        requires no_frame { info_of received ≡ [] }
        ensures { (octets : List ℕ) → length octets ≤ len
            → Serves (λ m. addressed m address (received_of received.entry) (drop_for Unserved)) octets self.old (S.store shelf.old) self.new (S.store shelf.new) report.new }
    {
        match self.addressee(address) {
            Addressee::Management => tell_drop(report, Cause::Unserved),
            Addressee::Link(service, tei, place) => self.receive_apart(
                service, tei, place, received, len, report, shelf,
            ),
            Addressee::Nobody(cause) => tell_drop(report, cause),
        }
    }

    /// A UI or XID frame that is too long to keep. By annex B's reading UI is a frame over N201 to its link (Q.921 clause
    /// 5.8.5).
    #[cold]
    fn unnumbered<S: Shelf>(
        &mut self,
        address: Address,
        unit: bool,
        report: &mut BareReport,
        shelf: &mut S,
    )
        requires stands { Standing self.old (S.store shelf.old) }
        requires clear { IsClear report.old }
        ensures { Serves (λ m. aim_of_unnumbered self.old.config.reading unit (addressed m address link.overlong (drop_for Unserved))) [] self.old (S.store shelf.old) self.new (S.store shelf.new) report.new }
    {
        if reaches_link(self.config.reading, unit) {
            return self.malformed(address, Received::Overlong, 0, report, shelf);
        }
        self.unserved(address, report, shelf)
    }

    /// A UI or XID frame that is too long to keep, and that no link serves.
    #[cold]
    fn unserved<S: Shelf>(&mut self, address: Address, report: &mut BareReport, shelf: &mut S)
        requires stands { Standing self.old (S.store shelf.old) }
        requires clear { IsClear report.old }
        ensures { Serves (λ m. unless_at_link (addressed m address link.overlong (drop_for Unserved))) [] self.old (S.store shelf.old) self.new (S.store shelf.new) report.new }
    {
        match self.addressee(address) {
            Addressee::Management | Addressee::Link(..) => tell_drop(report, Cause::Unserved),
            Addressee::Nobody(cause) => tell_drop(report, cause),
        }
    }

    /// A frame of layer 2 management. UI of at most N201 octets alone is served.
    #[cold]
    fn message<S: Shelf>(&mut self, frame: Frame<'_>, report: &mut BareReport, shelf: &mut S)
        requires stands { Standing self.old (S.store shelf.old) }
        requires clear { IsClear report.old }
        ensures { (octets : List ℕ) → Serves (always (message_at self.old.config (parts_of frame.entry))) octets self.old (S.store shelf.old) self.new (S.store shelf.new) report.new }
    {
        if !is_ui(frame.control) || !self.serves_messages(frame) {
            return tell_drop(report, Cause::Unserved);
        }
        let told = self.teis.message(frame.info);
        self.change(told, report, shelf);
    }

    /// Whether the information of this frame is served as a message of TEI management, by its address and its size.
    fn serves_messages(&self, frame: Frame<'_>) -> bool
        ensures { result ≡ serves_messages self.now.config (parts_of frame.entry) }
    {
        if frame.info.len() > usize::from(self.config.n201) {
            return false;
        }
        is_network(self.config.side) || (self.config.is_terminal() && frame.address.command)
    }

    /// For whom a frame is.
    #[inline(always)]
    fn addressee(&self, address: Address) -> Addressee
        ensures is { result ≡ addressee (places_of self.now.teis) address }
        ensures at { IsAtPlace (places_of self.now.teis) result }
    {
        if address.sapi == MANAGEMENT {
            return if address.tei == GROUP {
                Addressee::Management
            } else {
                Addressee::Nobody(Cause::Tei)
            };
        }
        let Some(service) = Service::with_sapi(address.sapi) else {
            return Addressee::Nobody(Cause::Sapi);
        };
        match self.teis.place(address.tei) {
            Some(place) => Addressee::Link(service, address.tei, place),
            None => Addressee::Nobody(Cause::Tei),
        }
    }
}
