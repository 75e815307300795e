//! A card as C holds it: with the links that were refused contents because their queues were full, each of which is told once
//! when it has room again.

ghost use Rattle.std.specs.Prelude.{◌≡◌, ◌<◌, true, None, IfSome};
ghost use Rattle.lapd_c.specs.Kept.{Settles, TakesFirst, orders_by, settled};
ghost use Rattle.lapd_c.specs.{listed, nothing, Shows, ShowsPull, first_fault, AreMarked, AreUnmarked, IsFirstOpen, WaitsFor, is_open, is_there, waits_there, with_reopened};
ghost use Rattle.lapd_timed.specs.Called.{keeps_timers};
ghost use Rattle.model_card.specs.Card as machine;
ghost use Rattle.lapd_card.specs.FrameCard.{line_count};
ghost use Rattle.lapd_card.specs.Kinds.{FrameCardStands};

use crate::link_marks::LinkMarks;
use crate::plain::{PlainReport, service_at};
use crate::refused::Refused;
use lapd_card::FrameCard;
use lapd_frame::{Order, ShortList};
use lapd_store::RawShelf;
use lapd_timed::TimedCard;
use model_line::Config;
use std::alloc::Global;

/// A card, with its timers if it keeps its own, and the marks of its links that wait for room.
#[derive(Drop)]
pub(crate) struct KeptCard {
    pub(crate) timed: TimedCard,
    pub(crate) refused: Refused,
}

impl KeptCard {
    /// A card as it begins, of which no link waits; none if there is no memory for it.
    pub(crate) fn begin(alloc: Global, timed: TimedCard, config: Config) -> Option<Box<KeptCard>>
        requires { first_fault config ≡ None }
        ensures timed { IfSome result (λ kept. kept.value.timed ≡ timed) }
        ensures marks { IfSome result (λ kept. AreUnmarked config.lines kept.value.refused) }
    {
        let refused = Refused::start(alloc, usize::from(config.lines)).ok()?;
        Box::new(alloc, KeptCard { timed, refused }).ok()
    }

    /// Ends a call of a line, in whose report the answer to an event is shown. If the card keeps its own timers, the report has
    /// no orders, as they have been carried out. Then it tells as [`KeptCard::tell_reopened`], with the TEI that the call names.
    #[inline(always)]
    pub(crate) fn settle(&mut self, line: usize, named: Option<u8>, report: &mut PlainReport)
        ensures settles { Settles line named self.old self.new report.new }
        ensures rest { report.new ≡ settled self.old.timed report.new report.old }
    {
        if self.timed.is_timed() {
            report.order_count = 0;
        }
        self.tell_reopened(line, named, report);
    }

    /// Ends a call of a line whose event led to nothing but orders, and shows them: as a report that shows the orders, and then
    /// [`KeptCard::settle`], but if the card keeps its own timers none is written.
    #[inline(always)]
    pub(crate) fn settle_orders(
        &mut self,
        line: usize,
        orders: &ShortList<Order>,
        report: &mut PlainReport,
    )
        ensures settles { Settles line None self.old self.new report.new }
        ensures shown { Shows report.new (record nothing { orders = orders_by (keeps_timers self.old.timed) (listed orders.now) }) }
    {
        if self.timed.is_timed() {
            report.show_nothing();
        } else {
            report.show_orders(orders);
        }
        self.tell_reopened(line, None, report);
    }

    /// Ends a call that gave the next frame of a line, and shows that with its orders, as [`KeptCard::settle_orders`] shows
    /// these.
    #[inline(always)]
    pub(crate) fn settle_given(
        &mut self,
        line: usize,
        orders: &ShortList<Order>,
        more: bool,
        report: &mut PlainReport,
    )
        ensures settles { Settles line None self.old self.new report.new }
        ensures shown { ShowsPull report.new true more (orders_by (keeps_timers self.old.timed) (listed orders.now)) }
    {
        report.show_begun(more);
        if !self.timed.is_timed() {
            report.add_orders(orders);
        }
        self.tell_reopened(line, None, report);
    }

    /// The link at a place of a line waits for room, if there is one.
    pub(crate) fn wait(&mut self, line: usize, place: Option<u8>)
        ensures timed { self.new.timed ≡ self.old.timed }
        ensures marked { WaitsFor place line self.old.refused self.new.refused }
    {
        let Some(place) = place else {
            return;
        };
        if let Some(mut links) = self.refused.of(line) {
            links.set(place, true);
            self.refused.put(line, links);
        }
    }

    /// Tells in the report of a call of a line which link has room again, if one that waits has, that no timer fell due, and of
    /// which TEI contents are given up.
    #[inline(always)]
    pub(crate) fn tell_reopened(&mut self, line: usize, named: Option<u8>, report: &mut PlainReport)
        ensures settles { Settles line named self.old self.new report.new }
        ensures rest { report.new ≡ with_reopened report.new report.old }
    {
        if !self.refused.any() {
            return report.show_reopened(line, named, None);
        }
        let told = self.take_first(line);
        report.show_reopened(line, named, told);
    }

    // It stands apart, since mostly no link waits.
    #[cold]
    fn take_first(&mut self, line: usize) -> Option<u8>
        ensures { TakesFirst line result self.old self.new }
    {
        if line >= self.timed.card().lines() {
            return None;
        }
        let mut links = self.refused.of(line)?;
        let frames = self.timed.card().frames();
        let told = first_open(frames, line, &links);
        drop_gone(frames, line, &mut links);
        if let Some(place) = told {
            links.set(place, false);
        }
        self.refused.put(line, links);
        told
    }
}

// The first link of a line that waits and has room.
fn first_open(card: &FrameCard<RawShelf>, line: usize, links: &LinkMarks) -> Option<u8>
    requires { line < line_count card.now }
    ensures { (m : machine.Card) → FrameCardStands card.now m → IsFirstOpen result line m links.now }
{
    let mut from = 0;
    while let Some(place) = links.next(from) {
        if has_room(card, line, place) {
            return Some(place);
        }
        from = place + 1;
    }
    None
}

fn has_room(card: &FrameCard<RawShelf>, line: usize, place: u8) -> bool
    requires { line < line_count card.now }
    ensures { (m : machine.Card) → FrameCardStands card.now m → result ≡ is_open line m place }
{
    match card.room(line, service_at(place), place / 2) {
        Ok(room) => room.queue > 0,
        Err(_) => false,
    }
}

// Takes the marks of links away whose TEI is no longer on the line.
fn drop_gone(card: &FrameCard<RawShelf>, line: usize, links: &mut LinkMarks)
    requires { line < line_count card.now }
    ensures { (m : machine.Card) → FrameCardStands card.now m → AreMarked links.new (waits_there line m links.old) }
{
    let mut from = 0;
    while let Some(place) = links.next(from) {
        links.set(place, is_there(card, line, place));
        from = place + 1;
    }
}

fn is_there(card: &FrameCard<RawShelf>, line: usize, place: u8) -> bool
    requires { line < line_count card.now }
    ensures { (m : machine.Card) → FrameCardStands card.now m → result ≡ is_there line m place }
{
    card.room(line, service_at(place), place / 2).is_ok()
}
