//! What TEI management leads to: links that open and links that are cleared.

ghost use Rattle.std.specs.Prelude.{◌≡◌, ℕ, ◌≤◌, ◌+◌, List, [], length, Some};
ghost use Rattle.lapd_line.specs.{listed, Gained, Left, told_of, IsShort, told_of_link, told_of_management, with_cleared, IsClear, told_in, IsAnswerTo, Changing, with_management, Serves, always};
ghost use Rattle.lapd_link.specs.Outcome as link;
ghost use Rattle.lapd_line.specs.declared.managing.Managing.{Managing};
ghost use Rattle.model_line.specs.Effect.{Aim};

use crate::link_layer::{LinkLayer, link_number};
use lapd_frame::Service;
use lapd_link::BareReport;
use lapd_store::Shelf;
use lapd_tei::{Change, TeiOutcome};

/// What TEI management tells.
fn tell_management(report: &mut BareReport, told: TeiOutcome)
    requires { IsClear report.old }
    ensures notes { listed report.new.notes ≡ listed told.notes }
    ensures orders { listed report.new.orders ≡ listed told.orders }
    ensures told { (octets : List ℕ) → told_in octets report.new ≡ told_of_management (told_of told) }
{
    report.notes = told.notes;
    report.lost = told.lost;
    report.unserved = told.unserved;
    report.orders = told.orders;
}

/// After that, what the two links of a TEI tell that leaves the line.
fn tell_cleared(report: &mut BareReport, call: &BareReport, packet: &BareReport)
    requires notes { length (listed report.old.notes) + length (listed call.now.notes) + length (listed packet.now.notes) ≤ 4 }
    requires orders { length (listed call.now.orders) + length (listed packet.now.orders) + length (listed report.old.orders) ≤ 4 }
    ensures { (octets : List ℕ) → told_in octets report.new
        ≡ with_cleared (told_of_link (link.told_with [] call.now)) (told_of_link (link.told_with [] packet.now)) (told_in octets report.old) }
{
    let mut notes = call.notes;
    notes.append(packet.notes);
    report.notes.append(notes);
    let mut orders = packet.orders;
    orders.append(report.orders);
    report.orders = call.orders;
    report.orders.append(orders);
    report.given_up = call.given_up;
    report.given_up_16 = packet.given_up_16;
}

impl LinkLayer {
    /// TEI management has served an event: what it told leads to changes of the links.
    pub(crate) fn change<S: Shelf>(
        &mut self,
        told: TeiOutcome,
        report: &mut BareReport,
        shelf: &mut S,
    )
        requires changing { Changing self.old (S.store shelf.old) told }
        requires clear { IsClear report.old }
        requires short { IsShort told }
        ensures { (aim : Aim) (before : Managing) (octets : List ℕ) → IsAnswerTo self.old.config aim before self.old.teis told
            → Serves (always aim) octets (with_management before self.old) (S.store shelf.old) self.new (S.store shelf.new) report.new }
    {
        match told.change {
            None => tell_management(report, told),
            Some(Change::Gained { tei, place }) => self.open(told, tei, place, report, shelf),
            Some(Change::Left { tei, place }) => self.clear(told, tei, place, report, shelf),
        }
    }

    /// A TEI has come to the line: its links begin.
    fn open<S: Shelf>(
        &mut self,
        told: TeiOutcome,
        tei: u8,
        place: usize,
        report: &mut BareReport,
        shelf: &mut S,
    )
        requires changing { Changing self.old (S.store shelf.old) told }
        requires clear { IsClear report.old }
        requires gained { told.change ≡ Some (Gained tei place) }
        ensures { (aim : Aim) (before : Managing) (octets : List ℕ) → IsAnswerTo self.old.config aim before self.old.teis told
            → Serves (always aim) octets (with_management before self.old) (S.store shelf.old) self.new (S.store shelf.new) report.new }
    {
        let call = link_number(place, Service::Call);
        self.links[call].with_terms(self.config.terms(Service::Call, tei));
        let packet = link_number(place, Service::Packet);
        self.links[packet].with_terms(self.config.terms(Service::Packet, tei));
        tell_management(report, told);
    }

    /// A TEI has left the line: its links are cleared, that of call control first.
    fn clear<S: Shelf>(
        &mut self,
        told: TeiOutcome,
        tei: u8,
        place: usize,
        report: &mut BareReport,
        shelf: &mut S,
    )
        requires changing { Changing self.old (S.store shelf.old) told }
        requires clear { IsClear report.old }
        requires short { IsShort told }
        requires left { told.change ≡ Some (Left tei place) }
        ensures { (aim : Aim) (before : Managing) (octets : List ℕ) → IsAnswerTo self.old.config aim before self.old.teis told
            → Serves (always aim) octets (with_management before self.old) (S.store shelf.old) self.new (S.store shelf.new) report.new }
    {
        let (first, second) = (
            link_number(place, Service::Call),
            link_number(place, Service::Packet),
        );
        let mut call = BareReport::nothing();
        let mut packet = BareReport::nothing();
        self.links[first].clear(&mut call, shelf);
        self.has_frame.set(first, false);
        self.links[second].clear(&mut packet, shelf);
        self.has_frame.set(second, false);
        tell_management(report, told);
        tell_cleared(report, &call, &packet);
    }
}
