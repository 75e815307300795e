//! Orders for the timers.

ghost use Rattle.std.specs.Prelude.{◌≡◌, ◌∷◌, [], Some};
ghost use Rattle.lapd_link.specs.{listed, timer_at, orders_for};

use lapd_frame::{Order, ShortList, Timer};
use lapd_link_steps::is_the;
use model_link::{LinkTimer, Terms};

// The orders of an event, as a list.
#[inline(always)]
pub(crate) fn orders(
    terms: &Terms,
    before: Option<LinkTimer>,
    started: Option<LinkTimer>,
    after: Option<LinkTimer>,
) -> ShortList<Order>
    ensures { listed result ≡ orders_for terms.now before started after }
{
    let mut list = ShortList::none();
    put_orders(&mut list, terms, before, started, after);
    list
}

// Start where the event started a timer and left it running, Stop where it ran before and does not after; T200 first. They are
// written where they belong, in place of what the list had, so that none is copied.
#[tactic(auto, using(crate::proofs::OrderSteps::unstarted, crate::proofs::OrderSteps::still_runs))]
#[inline(always)]
pub(crate) fn put_orders(
    list: &mut ShortList<Order>,
    terms: &Terms,
    before: Option<LinkTimer>,
    started: Option<LinkTimer>,
    after: Option<LinkTimer>,
)
    ensures { listed list.new ≡ orders_for terms.now before started after }
{
    match started {
        Some(timer) if is_the(timer, after) => put_start(list, terms, before, timer),
        _ => put_stop(list, terms, before, after),
    }
}

// Start, where the event started this timer and left it running. The other stops, if it ran.
#[inline(always)]
fn put_start(
    list: &mut ShortList<Order>,
    terms: &Terms,
    before: Option<LinkTimer>,
    timer: LinkTimer,
)
    ensures { listed list.new ≡ orders_for terms.now before (Some timer) (Some timer) }
{
    let start = Order::Start(line_timer(terms, timer));
    match (timer, before) {
        (LinkTimer::T200, Some(LinkTimer::T203)) => {
            let stop = Order::Stop(line_timer(terms, LinkTimer::T203));
            *list = ShortList::Two([start, stop]);
        }
        (LinkTimer::T203, Some(LinkTimer::T200)) => {
            let stop = Order::Stop(line_timer(terms, LinkTimer::T200));
            *list = ShortList::Two([stop, start]);
        }
        _ => put_one(list, start),
    }
}

// One order. All that write one do so here, so that it is put together in one way.
#[inline(always)]
fn put_one(list: &mut ShortList<Order>, order: Order)
    ensures { listed list.new ≡ order ∷ [] }
{
    *list = ShortList::One([order]);
}

// Stop, where the event started none.
#[inline(always)]
fn put_stop(
    list: &mut ShortList<Order>,
    terms: &Terms,
    before: Option<LinkTimer>,
    after: Option<LinkTimer>,
)
    ensures { listed list.new ≡ orders_for terms.now before None after }
{
    match before {
        Some(timer) if !is_the(timer, after) => {
            put_one(list, Order::Stop(line_timer(terms, timer)));
        }
        _ => *list = ShortList::None,
    }
}

// A link's timer, as one of the line's.
pub(crate) fn line_timer(terms: &Terms, timer: LinkTimer) -> Timer
    ensures { result ≡ timer_at terms.now timer }
{
    match timer {
        LinkTimer::T200 => Timer::T200(terms.service, terms.tei),
        LinkTimer::T203 => Timer::T203(terms.service, terms.tei),
    }
}
