//! TEI management of a line, of either kind.

ghost use Rattle.std.specs.Prelude.{◌≡◌, ◌<◌, false, length, None, Some, IfOk, IfErr, IfSome, OnOk, OnErr, is_some};
ghost use Rattle.lapd_frame.specs.declared.addresses.Side.{Side as Spelt};
ghost use Rattle.lapd_line.specs.Managing.{places_of, offered_by, first_type, held_by, IsBegunBy, Gives};
ghost use Rattle.lapd_line.specs.Requests.{asked_aim, is_bad, refusal_at};
ghost use Rattle.lapd_line.specs.TeiChanges.{Answers};
ghost use Rattle.lapd_tei.specs.Outcome.{IsShort};
ghost use Rattle.model_teis.specs.Table.{place_of};
ghost use Rattle.model_teis.specs.network.Events as teis;
ghost use Rattle.model_teis.specs.terminal.Events as terminals;
ghost use Rattle.model_line.specs.Effect.{at_management, at_terminal};
ghost use Rattle.model_line.specs.Sound.{IsInRange};

mod saved;

use crate::fault::StartFault;
use crate::requests::TeiRequest;
use lapd_frame::{Refusal, Side};
use lapd_tei::{TeiOutcome, Teis, TerminalTeis};
use model_line::Config;
use std::alloc::Global;

/// TEI management of a line (Q.921 clause 5.3): the network's side of it, or that of a terminal. A trunk's end has the
/// table of the network's side alone.
#[derive(Debug, Drop)]
pub(crate) enum Managing {
    Network(Teis),
    Terminal(TerminalTeis),
}

impl Managing {
    /// TEI management of a line as it begins.
    pub fn start(alloc: Global, config: &Config) -> Result<Managing, StartFault>
        requires { IsInRange config.now }
        ensures { IfOk result (IsBegunBy config.now) }
    {
        let places = usize::from(config.terminals);
        match config.seed {
            Some(seed) if config.is_terminal() => {
                let own = TerminalTeis::start(places, seed, config.reading);
                Ok(Managing::Terminal(own))
            }
            _ => Ok(Managing::Network(Teis::start_as(alloc, places, config.reading)?)),
        }
    }

    /// Serves a message of the other side: the information of a UI command with SAPI 63 and the group TEI.
    pub fn message(&mut self, information: &[u8]) -> TeiOutcome
        ensures answers { Answers (at_management (teis.message information.now)) self.old self.new result }
        ensures short { IsShort result }
    {
        match self {
            Managing::Network(own) => own.message(information),
            Managing::Terminal(own) => own.message(information),
        }
    }

    /// T201 has expired, which runs at the network's side alone.
    pub fn expire_t201(&mut self) -> TeiOutcome
        ensures answers { Answers (at_management teis.expiry) self.old self.new result }
        ensures short { IsShort result }
    {
        match self {
            Managing::Network(own) => own.expire_t201(),
            Managing::Terminal(_) => TeiOutcome::nothing(),
        }
    }

    /// T202 has expired, which runs at a terminal alone.
    pub fn expire_t202(&mut self) -> TeiOutcome
        ensures answers { Answers (at_terminal terminals.expiry) self.old self.new result }
        ensures short { IsShort result }
    {
        match self {
            Managing::Network(_) => TeiOutcome::nothing(),
            Managing::Terminal(own) => own.expire_t202(),
        }
    }

    /// What is asked of it about a TEI.
    ///
    /// # Errors
    ///
    /// What either kind refuses; `WrongSide` if it has no such request.
    pub fn ask(&mut self, asked: TeiRequest, tei: u8) -> Result<TeiOutcome, Refusal>
        requires { is_bad asked tei ≡ false }
        ensures answers { IfOk result (Answers (asked_aim asked tei) self.old self.new) }
        ensures accepted { OnOk result (refusal_at asked tei self.old ≡ None) }
        ensures refused { IfErr result (λ why. refusal_at asked tei self.old ≡ Some why) }
        ensures unchanged { OnErr result (self.new ≡ self.old) }
        ensures short { IfOk result IsShort }
    {
        match self {
            Managing::Network(own) => match asked {
                TeiRequest::Assign => own.assign(tei),
                TeiRequest::Remove => own.remove(tei),
                TeiRequest::Check => own.check(tei),
                TeiRequest::Disown => own.disown(tei),
                TeiRequest::Ask | TeiRequest::Verify => Err(Refusal::WrongSide),
            },
            Managing::Terminal(own) => match asked {
                TeiRequest::Assign => own.assign(tei),
                TeiRequest::Remove => own.remove(tei),
                TeiRequest::Check | TeiRequest::Disown => Err(Refusal::WrongSide),
                TeiRequest::Ask => own.ask(),
                TeiRequest::Verify => own.verify(tei),
            },
        }
    }

    /// The line is down: the messages that wait are given up, and what it has going.
    pub fn give_up(&mut self) -> TeiOutcome
        ensures answers { Answers (at_management teis.down) self.old self.new result }
        ensures short { IsShort result }
    {
        match self {
            Managing::Network(own) => own.give_up(),
            Managing::Terminal(own) => own.give_up(),
        }
    }

    /// The place of a TEI in the table, `None` if it is not on the line.
    #[inline(always)]
    pub fn place(&self, tei: u8) -> Option<usize>
        ensures place { result ≡ place_of tei (places_of self.now) }
        ensures within { IfSome result (λ place. place < length (places_of self.now)) }
    {
        match self {
            Managing::Network(own) => own.place(tei),
            Managing::Terminal(own) => own.place(tei),
        }
    }

    /// Takes the message that has waited longest: the octets of its frame, without the frame check.
    #[inline(always)]
    pub fn offer(&mut self, side: Side) -> Option<[u8; 8]>
        ensures { Gives side result self.old self.new }
    {
        match self {
            Managing::Network(own) => own.offer(side),
            Managing::Terminal(own) => own.offer(),
        }
    }

    /// Whether a message waits to be sent.
    #[inline(always)]
    pub fn has_message(&self) -> bool
        ensures { (side : Spelt) → result ≡ is_some (offered_by side self.now) }
    {
        match self {
            Managing::Network(own) => own.has_message(),
            Managing::Terminal(own) => own.has_message(),
        }
    }

    /// The type of the message that [`Managing::offer`] takes next (Q.921 clause 5.3.6, table 8).
    pub fn next_type(&self) -> Option<u8>
        ensures { result ≡ first_type self.now }
    {
        match self {
            Managing::Network(own) => own.next_type(),
            Managing::Terminal(own) => own.next_type(),
        }
    }

    /// How many octets are held: eight for each message that waits, what is remembered, and one while a check is due.
    pub fn held(&self) -> u32
        ensures { result ≡ held_by self.now }
    {
        match self {
            Managing::Network(own) => own.held(),
            Managing::Terminal(own) => own.held(),
        }
    }
}
