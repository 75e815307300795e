//! How a card begins.

ghost use Rattle.std.specs.Prelude.{◌≡◌, ◌≤◌, replicate, IfOk, IfSome, IfNone, Err, IsOkUnless};
ghost use Rattle.lapd_card.specs.{IsInRange, fresh_port, none_counted, OutOfMemory, counters_in, AreFresh, PortsStand, start_fault, is_too_small};
ghost use Rattle.model_card.specs.Card as machine;
ghost use Rattle.model_card.specs.ports.Card as octets;

use crate::card::Card;
use crate::fault::CardFault;
use crate::frame_card::FrameCard;
use lapd_line::{Config, FrameLine, Marks, Port, StartFault};
use lapd_store::Shelf;
use std::alloc::Global;

impl<S: Shelf> FrameCard<S> {
    ghost use Rattle.lapd_card.specs.FrameStands.{FrameStands};

    /// A card with these sizes and limits, over a shelf on which nothing lies. No TEI is on any line.
    ///
    /// # Errors
    ///
    /// [`CardFault::BadConfig`] names the first field that is out of range. Otherwise [`CardFault::ShelfTooSmall`]
    /// where the shelf has fewer slots than `slots`, or they are narrower than `n201`, or any is in use. Otherwise
    /// [`CardFault::OutOfMemory`] where memory is refused. The shelf is dropped then.
    pub fn start(alloc: Global, config: Config, shelf: S) -> Result<FrameCard<S>, CardFault>
        ensures fault { IfSome (start_fault config (S.store shelf)) (λ fault. result ≡ Err fault) }
        ensures otherwise { IfNone (start_fault config (S.store shelf)) (IsOkUnless result OutOfMemory) }
        ensures config { IfOk result (λ card. card.config ≡ config) }
        ensures shelf { IfOk result (λ card. card.shelf ≡ shelf) }
        ensures fresh { IfOk result (λ card. FrameStands S.store card (machine.fresh config)) }
        ensures counters { IfOk result (λ card. counters_in card.lines ≡ replicate config.lines none_counted) }
    {
        if let Some(fault) = fault_of(&config, &shelf) {
            return Err(fault);
        }
        let lines = lines(alloc, &config)?;
        Ok(FrameCard {
            config,
            lines,
            shelf,
            waiting: Marks::none(),
        })
    }
}

impl<S: Shelf> Card<S> {
    ghost use Rattle.lapd_card.specs.Stands.{OctetCardStands};

    /// A card of octets with these sizes and limits, over a shelf on which nothing lies, as [`FrameCard::start`] has it. No
    /// octet has come.
    ///
    /// # Errors
    ///
    /// Those of [`FrameCard::start`].
    pub fn start(alloc: Global, config: Config, shelf: S) -> Result<Card<S>, CardFault>
        ensures fault { IfSome (start_fault config (S.store shelf)) (λ fault. result ≡ Err fault) }
        ensures otherwise { IfNone (start_fault config (S.store shelf)) (IsOkUnless result OutOfMemory) }
        ensures config { IfOk result (λ card. card.frames.config ≡ config) }
        ensures shelf { IfOk result (λ card. card.frames.shelf ≡ shelf) }
        ensures fresh { IfOk result (λ card. OctetCardStands S.store card (octets.fresh config)) }
        ensures counters { IfOk result (λ card. counters_in card.frames.lines ≡ replicate config.lines none_counted) }
    {
        let frames = FrameCard::start(alloc, config, shelf)?;
        let ports = ports(alloc, &config)?;
        Ok(Card { frames, ports })
    }
}

/// As many lines as the configuration says, each as it begins.
pub(crate) fn lines(alloc: Global, config: &Config) -> Result<Vec<FrameLine>, StartFault>
    requires { IsInRange config.now }
    ensures { IfOk result (λ lines. AreFresh config.now lines.items) }
{
    let count = usize::from(config.lines);
    let mut lines = Vec::with_capacity(alloc, count).map_err(|_| StartFault::OutOfMemory)?;
    for _ in 0..count {
        let line = FrameLine::start(alloc, config)?;
        lines.push(line).map_err(|_| StartFault::OutOfMemory)?;
    }
    Ok(lines)
}

/// A port for each of them.
pub(crate) fn ports(alloc: Global, config: &Config) -> Result<Vec<Port>, StartFault>
    requires { config.now.n201 ≤ 1024 }
    ensures { IfOk result (λ ports. PortsStand config.now.n201 ports.items (replicate config.now.lines fresh_port)) }
{
    let count = usize::from(config.lines);
    let mut ports = Vec::with_capacity(alloc, count).map_err(|_| StartFault::OutOfMemory)?;
    for _ in 0..count {
        let port = Port::start(alloc, config.n201)?;
        ports.push(port).map_err(|_| StartFault::OutOfMemory)?;
    }
    Ok(ports)
}

fn fault_of<S: Shelf>(config: &Config, shelf: &S) -> Option<CardFault>
    ensures { result ≡ start_fault config.now (S.store shelf.now) }
{
    if let Some(field) = config.fault() {
        return Some(CardFault::BadConfig(field));
    }
    if is_too_small(config, shelf) {
        return Some(CardFault::ShelfTooSmall);
    }
    None
}

pub(crate) fn is_too_small<S: Shelf>(config: &Config, shelf: &S) -> bool
    ensures { result ≡ is_too_small config.now (S.store shelf.now) }
{
    shelf.slots() < u32::from(config.slots) || shelf.width() < config.n201 || shelf.used() > 0
}
