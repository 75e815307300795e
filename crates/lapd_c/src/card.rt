//! A card in C: where it lies, how one of either kind begins, and how it ends.

ghost use Rattle.std.specs.Borrow.{sem};
ghost use Rattle.std.specs.Option.{option_copied_mut};
ghost use Rattle.std.specs.Prelude.{◌≡◌, Some, None, IfSome, IfNone, option_map};
ghost use Rattle.lapd_c.specs.{first_fault, fresh, Begins, IsFreed, IsCardStart, IsTimedStart, card_of, IsHandle};
ghost use Rattle.model_card.specs.declared.kinds.CardKind.{CardKind as Kind};
ghost use Rattle.model_card.specs.declared.kinds.CardKind.TheVariants as kinds;
ghost use Rattle.lapd_c.specs.Statuses as status;
ghost use Rattle.lapd_clock.specs.Given.{lengths_of};
ghost use Rattle.model_timed.specs.Changes.{unmarked};
ghost use Rattle.model_timed.specs.Clock.{stopped};
ghost use Rattle.lapd_card.specs.Kinds.{card_in};
ghost use Rattle.lapd_timed.specs.Stands.{AreOfLines, ChangesStandIn, TimersStandIn};

use crate::kept::KeptCard;
use crate::lend::or_answer;
use crate::plain::{NO_CARD, NO_MEMORY, OK, PlainConfig, PlainLengths, SECOND_START};
use crate::slot::CardSlot;
use lapd_card::{AnyCard, Card, CardKind, FrameCard};
use lapd_clock::Lengths;
use lapd_store::RawShelf;
use lapd_timed::{CardTimers, TimedCard};
use model_line::Config;
use std::alloc::Global;

/// A card, or none, as C holds it.
#[repr(C)]
pub struct CardHandle {
    started: bool,
    slot: CardSlot,
}

impl CardHandle {
    ghost use Rattle.lapd_c.specs.SlotLends.{LendsCardIf};

    /// Whether a card is there.
    pub(crate) fn is_started(&self) -> bool
        ensures { result ≡ self.now.started }
    {
        self.started
    }

    /// Takes the card out.
    pub(crate) fn take(&mut self, alloc: Global) -> Option<Box<KeptCard>>
        requires { IsHandle self.old }
        ensures card { card_of self.old ≡ option_map (λ kept. kept.value) result }
        ensures none { IfNone result (self.new ≡ self.old) }
        ensures empty { card_of self.new ≡ None }
        ensures handle { IsHandle self.new }
    {
        if !self.started {
            return None;
        }
        self.started = false;
        Some(self.slot.as_slot().take(alloc))
    }

    /// The card, where it lies.
    pub(crate) fn card(&mut self) -> Option<&mut KeptCard>
        requires { IsHandle self.old }
        ensures* lends { sem 𝓛 (LendsCardIf self.entry result) }
        ensures card { card_of self.old ≡ option_copied_mut result }
    {
        if self.started {
            Some(self.slot.as_slot().get_mut())
        } else {
            None
        }
    }

    /// Puts a card in, if none is.
    pub(crate) fn put(&mut self, kept: Box<KeptCard>)
        requires { card_of self.old ≡ None }
        ensures card { card_of self.new ≡ Some kept.value }
        ensures handle { IsHandle self.new }
    {
        self.started = true;
        self.slot.as_slot().put(kept);
    }
}

/// Starts a card of octets, on which no TEI is on any line.
#[unsafe(no_mangle)]
pub extern "C" fn lapd_card_start(
    alloc: Global,
    handle: &mut CardHandle,
    config: &PlainConfig,
) -> u32
    requires { IsHandle handle.old }
    ensures { IsCardStart kinds.Octets config.now handle.old handle.new result }
{
    start(alloc, handle, config, CardKind::Octets)
}

/// Starts a card of frames, on which no TEI is on any line.
#[unsafe(no_mangle)]
pub extern "C" fn lapd_card_start_frames(
    alloc: Global,
    handle: &mut CardHandle,
    config: &PlainConfig,
) -> u32
    requires { IsHandle handle.old }
    ensures { IsCardStart kinds.Frames config.now handle.old handle.new result }
{
    start(alloc, handle, config, CardKind::Frames)
}

// Starts a card of a kind.
fn start(alloc: Global, handle: &mut CardHandle, config: &PlainConfig, kind: CardKind) -> u32
    requires { IsHandle handle.old }
    ensures { IsCardStart kind config.now handle.old handle.new result }
{
    if handle.started {
        return SECOND_START;
    }
    let config = or_answer!(config.read());
    let kept = or_answer!(started(alloc, config, kind, None), NO_MEMORY);
    handle.put(kept);
    OK
}

// Such a card of a configuration that is in range, if there is memory for it.
fn started(
    alloc: Global,
    config: Config,
    kind: CardKind,
    timers: Option<CardTimers>,
) -> Option<Box<KeptCard>>
    requires config { first_fault config ≡ None }
    requires timers { AreOfLines config.lines timers }
    ensures begins { IfSome result (λ kept. Begins (fresh kind config) kept.value) }
    ensures timers { IfSome result (λ kept. kept.value.timed.timers ≡ timers) }
{
    let shelf = RawShelf::start(alloc, u32::from(config.slots), config.n201).ok()?;
    match kind {
        CardKind::Octets => {
            let card = Card::start(alloc, config, shelf).ok()?;
            KeptCard::begin(alloc, TimedCard::of(AnyCard::Octets(card), timers), config)
        }
        CardKind::Frames => {
            let card = FrameCard::start(alloc, config, shelf).ok()?;
            KeptCard::begin(alloc, TimedCard::of(AnyCard::Frames(card), timers), config)
        }
    }
}

/// Starts a card of octets that keeps its own timers, of which none runs, on which no TEI is on any line. It is at moment 0.
#[unsafe(no_mangle)]
pub extern "C" fn lapd_card_start_timed(
    alloc: Global,
    handle: &mut CardHandle,
    config: &PlainConfig,
    lengths: &PlainLengths,
) -> u32
    requires { IsHandle handle.old }
    ensures { IsTimedStart kinds.Octets config.now lengths.now handle.old handle.new result }
{
    start_timed(alloc, handle, config, lengths, CardKind::Octets)
}

/// Starts a card of frames that keeps its own timers, of which none runs, on which no TEI is on any line. It is at moment 0.
#[unsafe(no_mangle)]
pub extern "C" fn lapd_card_start_frames_timed(
    alloc: Global,
    handle: &mut CardHandle,
    config: &PlainConfig,
    lengths: &PlainLengths,
) -> u32
    requires { IsHandle handle.old }
    ensures { IsTimedStart kinds.Frames config.now lengths.now handle.old handle.new result }
{
    start_timed(alloc, handle, config, lengths, CardKind::Frames)
}

// Starts a card of a kind that keeps its own timers.
fn start_timed(
    alloc: Global,
    handle: &mut CardHandle,
    config: &PlainConfig,
    lengths: &PlainLengths,
    kind: CardKind,
) -> u32
    requires { IsHandle handle.old }
    ensures { IsTimedStart kind config.now lengths.now handle.old handle.new result }
{
    if handle.started {
        return SECOND_START;
    }
    let config = or_answer!(config.read());
    let lengths = or_answer!(lengths.read());
    let timers = or_answer!(timers_started(alloc, config, lengths), NO_MEMORY);
    let kept = or_answer!(started(alloc, config, kind, Some(timers)), NO_MEMORY);
    handle.put(kept);
    OK
}

// The timers of a card of a configuration that is in range, if there is memory for them.
fn timers_started(alloc: Global, config: Config, lengths: Lengths) -> Option<CardTimers>
    requires { first_fault config ≡ None }
    ensures lines { IfSome result (λ timers. timers.lines ≡ config.lines) }
    ensures stopped { IfSome result (λ timers. (kind : Kind) → TimersStandIn (Some timers) (card_in (fresh kind config)) (stopped (lengths_of lengths))) }
    ensures unmarked { IfSome result (λ timers. (kind : Kind) → ChangesStandIn (Some timers) (card_in (fresh kind config)) unmarked) }
{
    let (lines, terminals) = (usize::from(config.lines), usize::from(config.terminals));
    CardTimers::start(alloc, lines, terminals, lengths).ok()
}

/// Ends a card, and gives back its memory.
#[unsafe(no_mangle)]
pub extern "C" fn lapd_card_free(alloc: Global, handle: &mut CardHandle) -> u32
    requires { IsHandle handle.old }
    ensures { IsFreed IsHandle card_of status.no_card handle.old handle.new result }
{
    drop(or_answer!(handle.take(alloc), NO_CARD));
    OK
}
