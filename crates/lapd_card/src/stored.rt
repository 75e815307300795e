//! How many octets a card may store, and how many a card of octets does.

ghost use Rattle.std.specs.Prelude.{◌≡◌, ◌≤◌};
ghost use Rattle.model_card.specs.Stored as frames;
ghost use Rattle.model_card.specs.ports.Card as machine;
ghost use Rattle.model_card.specs.ports.Stored.{stored, limit};
ghost use Rattle.model_line.specs.Sound.{IsInRange};
ghost use Rattle.model_line.specs.Stored.{held_most};
ghost use Rattle.lapd_card.specs.Stands.{OctetCardStands};

use crate::card::Card;
use lapd_line::Config;
use lapd_store::Shelf;

/// The most octets that a card of octets of this configuration stores. The configuration is in range ([`Config::fault`] is
/// None). It is what a card of frames may store ([`frame_limit`]), and for each line a frame that is received, with its check,
/// and one that is sent.
pub fn limit(config: &Config) -> u32
    requires { IsInRange config.now }
    ensures { result ≡ limit config.now }
{
    frame_limit(config) + u32::from(config.lines) * (2 * u32::from(config.n201) + 10)
}

/// The most octets that a card of frames of this configuration stores. The configuration is in range ([`Config::fault`] is
/// None). It is for each line all control frames, messages and assignments that may wait; and for each slot, N201.
pub fn frame_limit(config: &Config) -> u32
    requires { IsInRange config.now }
    ensures { result ≡ frames.limit config.now }
{
    let control = 8 * u32::from(config.control) * u32::from(config.terminals);
    let line = control + most_held(config);
    u32::from(config.lines) * line + u32::from(config.slots) * u32::from(config.n201)
}

/// Of messages that wait on a line, and of assignments that are remembered.
fn most_held(config: &Config) -> u32
    requires { IsInRange config.now }
    ensures most { result ≡ held_most config.now }
    ensures few { result ≤ 72 }
{
    if config.is_terminal() {
        8 * (u32::from(config.terminals) + 1)
    } else {
        32 + 12
    }
}

impl<S: Shelf> Card<S> {
    /// How many octets the card stores now: of frames that are received and sent, of control frames and messages that wait,
    /// of assignments that are remembered, and of contents in slots. They are never more than [`limit`] says.
    pub fn stored(&self) -> u32
        ensures { (m : machine.OctetCard) → OctetCardStands S.store self.now m → result ≡ stored m }
    {
        let mut held = self.frames.stored();
        for port in &self.ports {
            held += port.held();
        }
        held
    }
}
