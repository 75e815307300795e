//! What a card has ordered of its timers is carried out.

ghost use Rattle.std.specs.Prelude.{◌≡◌, ◌<◌, [], ◌∷◌, true, false, IfSome};
ghost use Rattle.lapd_card.specs.FrameCard.{line_count};
ghost use Rattle.lapd_clock.specs.Timer.{Start, Stop, T200, T203};
ghost use Rattle.lapd_frame.specs.ShortLists.{listed};
ghost use Rattle.model_card.specs.Card.{Card, line_at};
ghost use Rattle.model_card.specs.Event.{Event};
ghost use Rattle.model_card.specs.Machine.{after};
ghost use Rattle.model_card.specs.Reached.{IsReached};
ghost use Rattle.model_line.specs.Runs.{IsPlaced};
ghost use Rattle.model_timed.specs.Clock as clock;
ghost use Rattle.model_timed.specs.Clock.{Clock, obeyed};
ghost use Rattle.model_timed.specs.Frames.{orders_at};

use crate::card_timers::CardTimers;
use crate::places::slot;
use lapd_card::FrameCard;
use lapd_frame::{Order, Service, ShortList, Timer};
use lapd_store::Shelf;

impl CardTimers {
    ghost use Rattle.lapd_timed.specs.Stands.{TimersStand, AreLeft, AreAmid, HasLedTo};

    /// Carries out what a card has ordered at a line, in the answer to an event, at the moment. The card is where the event has
    /// led; the event was no expiry but of the timer that [`CardTimers::due`] has just taken out.
    ///
    /// Mostly there is one order, for the T203 that falls due first of its line; or there are two, by which T200 and T203 of a
    /// link take turns. Then no place is looked for.
    // It stands apart, so that a card without timers of its own has no part of it in its way.
    #[inline(never)]
    pub fn obey<S: Shelf>(&mut self, card: &FrameCard<S>, line: usize, orders: &[Order])
        ensures lines { self.new.lines ≡ self.old.lines }
        ensures terminals { self.new.terminals ≡ self.old.terminals }
        ensures changes { self.new.changes ≡ self.old.changes }
        // So of each event at that line of which these are the orders, and that led the card to where it is.
        ensures after { (e : Event) (m : Card) (c : Clock) → HasLedTo S.store card.now line e m → orders.now ≡ orders_at e m → AreLeft e self.old m c
            → TimersStand self.new (after e m) (obeyed line orders.now c) }
    {
        if !self.restart_alone(line, orders) {
            self.obey_more(card, line, orders);
        }
    }

    /// The same, of the orders as a report has them.
    // It is compiled into its caller: so where one order starts the T203 that falls due first anew, nothing is called.
    #[inline(always)]
    pub(crate) fn obey_list<S: Shelf>(
        &mut self,
        card: &FrameCard<S>,
        line: usize,
        orders: &ShortList<Order>,
    )
        ensures lines { self.new.lines ≡ self.old.lines }
        ensures terminals { self.new.terminals ≡ self.old.terminals }
        ensures changes { self.new.changes ≡ self.old.changes }
        ensures after { (e : Event) (m : Card) (c : Clock) → HasLedTo S.store card.now line e m → listed orders.now ≡ orders_at e m → AreLeft e self.old m c
            → TimersStand self.new (after e m) (obeyed line (listed orders.now) c) }
    {
        if let ShortList::One(order) = orders {
            if self.restart_alone(line, order) {
                return;
            }
        }
        self.obey_more(card, line, orders.as_slice());
    }

    /// The same, if there are others than a start of the T203 that falls due first.
    #[inline(never)]
    fn obey_more<S: Shelf>(&mut self, card: &FrameCard<S>, line: usize, orders: &[Order])
        ensures lines { self.new.lines ≡ self.old.lines }
        ensures terminals { self.new.terminals ≡ self.old.terminals }
        ensures changes { self.new.changes ≡ self.old.changes }
        ensures after { (e : Event) (m : Card) (c : Clock) → HasLedTo S.store card.now line e m → orders.now ≡ orders_at e m → AreLeft e self.old m c
            → TimersStand self.new (after e m) (obeyed line orders.now c) }
    {
        if line >= self.lines || line >= card.lines() {
            return;
        }
        if !self.exchange(card, line, orders) {
            for order in orders {
                self.carry_out(card, line, *order);
            }
        }
    }

    /// Carries the orders out if there is one, which starts anew the T203 that falls due first of its line, and still does so
    /// then. Whether it is so; if not, nothing changes.
    #[inline(always)]
    fn restart_alone(&mut self, line: usize, orders: &[Order]) -> bool
        ensures lines { self.new.lines ≡ self.old.lines }
        ensures terminals { self.new.terminals ≡ self.old.terminals }
        ensures changes { self.new.changes ≡ self.old.changes }
        ensures after { result ≡ true → (e : Event) (m : Card) (c : Clock) → e.line ≡ line → line < m.config.lines
            → orders.now ≡ orders_at e m → AreLeft e self.old m c → TimersStand self.new (after e m) (obeyed line orders.now c) }
        ensures unchanged { result ≡ false → self.new ≡ self.old }
    {
        if orders.len() != 1 {
            return false;
        }
        let Order::Start(timer) = orders[0] else {
            return false;
        };
        if !matches!(timer, Timer::T203(_, _)) {
            return false;
        }
        let due_at = self.moment + self.lengths.of(timer);
        self.moments.restart(line, timer, due_at)
    }

    /// Carries the orders out if they start T200 of a link and stop its T203, or the other way round. If the one that stops falls
    /// due first of its line, and the other does so then, no place is looked for; else those of the link are, once. Whether it is
    /// so; if not, nothing changes.
    #[inline(always)]
    fn exchange<S: Shelf>(&mut self, card: &FrameCard<S>, line: usize, orders: &[Order]) -> bool
        requires line { line < self.old.lines }
        requires card { line < line_count card.now }
        ensures lines { self.new.lines ≡ self.old.lines }
        ensures terminals { self.new.terminals ≡ self.old.terminals }
        ensures changes { self.new.changes ≡ self.old.changes }
        ensures after { result ≡ true → (e : Event) (m : Card) (c : Clock) → HasLedTo S.store card.now line e m → orders.now ≡ orders_at e m → AreLeft e self.old m c
            → TimersStand self.new (after e m) (obeyed line orders.now c) }
        ensures unchanged { result ≡ false → self.new ≡ self.old }
    {
        if let Some((service, tei)) = link_sends(orders) {
            let (stopped, started) = (Timer::T203(service, tei), Timer::T200(service, tei));
            let due_at = self.moment + self.lengths.of(started);
            if self.moments.exchange(line, stopped, started, false, due_at) {
                return true;
            }
            let Some(number) = self.link(card, line, service, tei) else {
                return false;
            };
            self.moments
                .start(slot(self.terminals, line, number, 2), started, due_at);
            self.moments.stop(slot(self.terminals, line, number, 3));
            return true;
        }
        if let Some((service, tei)) = link_rests(orders) {
            let (stopped, started) = (Timer::T200(service, tei), Timer::T203(service, tei));
            let due_at = self.moment + self.lengths.of(started);
            if self.moments.exchange(line, stopped, started, true, due_at) {
                return true;
            }
            let Some(number) = self.link(card, line, service, tei) else {
                return false;
            };
            self.moments.stop(slot(self.terminals, line, number, 2));
            self.moments
                .start(slot(self.terminals, line, number, 3), started, due_at);
            return true;
        }
        false
    }

    /// Carries out one order.
    #[inline(always)]
    fn carry_out<S: Shelf>(&mut self, card: &FrameCard<S>, line: usize, order: Order)
        requires line { line < self.old.lines }
        requires card { line < line_count card.now }
        ensures lines { self.new.lines ≡ self.old.lines }
        ensures terminals { self.new.terminals ≡ self.old.terminals }
        ensures changes { self.new.changes ≡ self.old.changes }
        ensures after { (e : Event) (m : Card) (c : Clock) → IsReached m → HasLedTo S.store card.now line e m → IsPlaced (line_at line (after e m)) order
            → AreAmid e self.old m c → AreAmid e self.new m (clock.obey line c order) }
    {
        match order {
            Order::Start(timer) => {
                let moment = self.moment + self.lengths.of(timer);
                if self.moments.restart(line, timer, moment) {
                    return;
                }
                if let Some(place) = self.place(card, line, timer) {
                    self.moments.start(place, timer, moment);
                }
            }
            Order::Stop(timer) => {
                if let Some(place) = self.running_place(card, line, timer) {
                    self.moments.stop(place);
                }
            }
        }
    }
}

/// The link of which T200 is started and T203 stopped by these orders, if they do that alone.
#[inline(always)]
fn link_sends(orders: &[Order]) -> Option<(Service, u8)>
    ensures { IfSome result (λ link. orders.now ≡ Start (T200 link.0 link.1) ∷ Stop (T203 link.0 link.1) ∷ []) }
{
    if orders.len() != 2 {
        return None;
    }
    match (orders[0], orders[1]) {
        (Order::Start(Timer::T200(service, tei)), Order::Stop(Timer::T203(its, at)))
            if its == service && at == tei => { Some((service, tei)) }
        _ => None,
    }
}

/// The link of which T200 is stopped and T203 started by these orders, if they do that alone.
#[inline(always)]
fn link_rests(orders: &[Order]) -> Option<(Service, u8)>
    ensures { IfSome result (λ link. orders.now ≡ Stop (T200 link.0 link.1) ∷ Start (T203 link.0 link.1) ∷ []) }
{
    if orders.len() != 2 {
        return None;
    }
    match (orders[0], orders[1]) {
        (Order::Stop(Timer::T200(service, tei)), Order::Start(Timer::T203(its, at)))
            if its == service && at == tei => { Some((service, tei)) }
        _ => None,
    }
}
