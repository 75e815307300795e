//! TEI management of one line of a terminal.

ghost use Rattle.std.specs.Prelude.{◌≡◌, ◌≤◌, ◌<◌, Some, None, get_or, length, option_map, slice_get, is_some, IfOk, IfErr, IfSome, OnOk, OnErr};
ghost use Rattle.model_teis.specs.terminal.Events.{message, expiry, ask, verify, assign, remove, down, refusal, after, told, offered, after_offer};
ghost use Rattle.model_teis.specs.terminal.Machine.{fresh, place, held};
ghost use Rattle.model_teis.specs.terminal.Messages.{type_of};
ghost use Rattle.lapd_tei.specs.Outcome.{told_of};

mod saved;
mod served;
mod words;

use crate::outcome::TeiOutcome;
use crate::table::Table;
use crate::terminal::procedure::stop_of;
use crate::terminal::queue::Queue;
use crate::terminal::{heard, messages};
use lapd_frame::{Reading, Refusal};
use model_teis::terminal::{Heard, Procedure};
use std::marker::Model;

/// TEI management of one line of a terminal (Q.921 clause 5.3).
///
/// A line has a table of at most `terminals` TEIs, each at a place; runs at most one procedure at a time; and has one
/// reference number, which goes on with each message that has one. Its messages wait for the line: a place more than it
/// has TEIs is enough, so none is ever lost. No call takes memory.
#[derive(Drop, Debug)]
pub struct TerminalTeis {
    reading: Reading,
    table: Table,
    number: u16,
    procedure: Option<Procedure>,
    queue: Queue,
}

impl Model for TerminalTeis {
    ghost use Rattle.model_teis.specs.terminal.Machine.{Terminal};

    ghost Value = { Terminal };

    ghost use Rattle.lapd_tei.specs.terminal.Outcome.{terminal_of};
    ghost use Rattle.model_teis.specs.terminal.Sound.{IsSound};

    ghost view = { terminal_of };

    ghost invariant = { λ t. IsSound (terminal_of t) };
}

#[tactic(auto, unfolding(model_teis::specs::terminal::Events::course))]
impl TerminalTeis {
    /// TEI management of a line on which no TEI is, with room for `terminals` TEIs, 1 to 8, by the rows of this reading.
    /// The reference numbers go on from `seed`: two terminals that have one TEI are told apart by them alone, so it is
    /// best a random number.
    pub fn start(terminals: usize, seed: u16, reading: Reading) -> TerminalTeis
        requires { 1 ≤ terminals × terminals ≤ 8 }
        ensures { result ≡ fresh reading terminals seed }
    {
        TerminalTeis {
            reading,
            table: Table::empty(terminals),
            number: seed,
            procedure: None,
            queue: Queue::new(),
        }
    }

    /// Serves a message of the network: the information of a UI command with SAPI 63 and the group TEI.
    pub fn message(&mut self, information: &[u8]) -> TeiOutcome
        ensures told { told_of result ≡ told (message information.now) self.old }
        ensures after { self.new ≡ after (message information.now) self.old }
    {
        match heard::read(self.reading, information) {
            Some(Heard::IdentityAssigned { ri, tei }) => self.assigned(ri, tei),
            Some(Heard::IdentityDenied { ri }) => self.denied(ri),
            Some(Heard::IdentityCheckRequest { tei }) => self.checked(tei),
            Some(Heard::IdentityRemove { tei }) => self.removed_each(tei),
            None => TeiOutcome::unserved(),
        }
    }

    /// T202 has expired. If no procedure runs, T202 does not run, and nothing happens.
    #[tactic(auto, unfolding(model_teis::specs::terminal::Events::course), using(model_teis::proofs::OfTerminal::SoundWords::verified_on))]
    pub fn expire_t202(&mut self) -> TeiOutcome
        ensures told { told_of result ≡ told expiry self.old }
        ensures after { self.new ≡ after expiry self.old }
    {
        match self.procedure {
            None => TeiOutcome::nothing(),
            Some(Procedure::Asking { attempts, .. }) => self.ask_again(attempts),
            Some(Procedure::Verifying { tei, attempts }) => self.verify_again(tei, attempts),
        }
    }

    /// Asks the network for a TEI.
    ///
    /// # Errors
    ///
    /// `TableFull` if no place is free, otherwise `CheckRunning` if a procedure runs.
    pub fn ask(&mut self) -> Result<TeiOutcome, Refusal>
        ensures told { IfOk result (λ outcome. told_of outcome ≡ told ask self.old) }
        ensures accepted { OnOk result (refusal ask self.old ≡ None) }
        ensures refused { IfErr result (λ why. refusal ask self.old ≡ Some why) }
        ensures after { self.new ≡ after ask self.old }
        ensures unchanged { OnErr result (self.new ≡ self.old) }
    {
        if self.table.free_place().is_none() {
            return Err(Refusal::TableFull);
        }
        if self.procedure.is_some() {
            return Err(Refusal::CheckRunning);
        }
        Ok(self.ask_for(1))
    }

    /// Asks the network to check a TEI of this terminal.
    ///
    /// # Errors
    ///
    /// `NoLink` if it is not on the line, otherwise `CheckRunning` if a procedure runs.
    pub fn verify(&mut self, tei: u8) -> Result<TeiOutcome, Refusal>
        ensures told { IfOk result (λ outcome. told_of outcome ≡ told (verify tei) self.old) }
        ensures accepted { OnOk result (refusal (verify tei) self.old ≡ None) }
        ensures refused { IfErr result (λ why. refusal (verify tei) self.old ≡ Some why) }
        ensures after { self.new ≡ after (verify tei) self.old }
        ensures unchanged { OnErr result (self.new ≡ self.old) }
    {
        if !self.table.is_on(tei) {
            return Err(Refusal::NoLink);
        }
        if self.procedure.is_some() {
            return Err(Refusal::CheckRunning);
        }
        Ok(self.verify_for(tei, 1))
    }

    /// Puts a TEI on the line, at the lowest place that is free. The TEI is at most 126.
    ///
    /// # Errors
    ///
    /// `TeiTaken` if it is on the line, otherwise `TableFull` if no place is free.
    pub fn assign(&mut self, tei: u8) -> Result<TeiOutcome, Refusal>
        requires { tei ≤ 126 }
        ensures told { IfOk result (λ outcome. told_of outcome ≡ told (assign tei) self.old) }
        ensures accepted { OnOk result (refusal (assign tei) self.old ≡ None) }
        ensures refused { IfErr result (λ why. refusal (assign tei) self.old ≡ Some why) }
        ensures after { self.new ≡ after (assign tei) self.old }
        ensures unchanged { OnErr result (self.new ≡ self.old) }
    {
        if self.table.is_on(tei) {
            return Err(Refusal::TeiTaken);
        }
        let Some(place) = self.table.free_place() else {
            return Err(Refusal::TableFull);
        };
        self.join(tei, place);
        Ok(TeiOutcome::gained(tei, place))
    }

    /// Takes a TEI off the line. Nobody is told.
    ///
    /// # Errors
    ///
    /// `NoLink` if it is not on the line.
    pub fn remove(&mut self, tei: u8) -> Result<TeiOutcome, Refusal>
        ensures told { IfOk result (λ outcome. told_of outcome ≡ told (remove tei) self.old) }
        ensures accepted { OnOk result (refusal (remove tei) self.old ≡ None) }
        ensures refused { IfErr result (λ why. refusal (remove tei) self.old ≡ Some why) }
        ensures after { self.new ≡ after (remove tei) self.old }
        ensures unchanged { OnErr result (self.new ≡ self.old) }
    {
        if !self.table.is_on(tei) {
            return Err(Refusal::NoLink);
        }
        Ok(self.take_off(tei))
    }

    /// The line is down (Q.921 annex B, persistent deactivation): the messages that wait are given up, and a procedure
    /// that runs ends without a result. The TEIs stay on the line.
    #[tactic(auto, unfolding(model_teis::specs::terminal::Events::course), using(crate::proofs::OfTerminal::Down::down_is, model_teis::proofs::OfTerminal::GivenUp::given_up))]
    pub fn give_up(&mut self) -> TeiOutcome
        ensures told { told_of result ≡ told down self.old }
        ensures after { self.new ≡ after down self.old }
    {
        let outcome = TeiOutcome::ordered(stop_of(self.procedure));
        self.procedure = None;
        self.queue.clear();
        outcome
    }

    /// The place of a TEI in the table, `None` if it is not on the line.
    pub fn place(&self, tei: u8) -> Option<usize>
        ensures place { result ≡ place tei self.now }
        ensures within { IfSome result (λ place. place < length self.now.places) }
    {
        self.table.place_of(tei)
    }

    /// The TEI at a place.
    pub fn tei_at(&self, place: usize) -> Option<u8>
        ensures { result ≡ get_or self.now.places place None }
    {
        self.table.tei_at(place)
    }

    /// Whether a procedure runs, and so T202.
    pub fn has_procedure(&self) -> bool
        ensures { result ≡ is_some self.now.procedure }
    {
        self.procedure.is_some()
    }

    /// Takes the message that has waited longest: the octets of its frame, without the frame check.
    pub fn offer(&mut self) -> Option<[u8; 8]>
        ensures offered { result ≡ offered self.old }
        ensures after { self.new ≡ after_offer self.old }
    {
        let message = self.queue.take()?;
        Some(messages::frame(message))
    }

    /// Whether a message waits to be sent.
    pub fn has_message(&self) -> bool
        ensures { result ≡ is_some (offered self.now) }
    {
        self.queue.len() > 0
    }

    /// The type of the message that [`TerminalTeis::offer`] takes next (Q.921 clause 5.3.6, table 8).
    pub fn next_type(&self) -> Option<u8>
        ensures { result ≡ option_map type_of (slice_get self.now.waiting 0) }
    {
        let message = self.queue.first()?;
        Some(messages::kind(message))
    }

    /// How many octets are held: eight for each message that waits.
    pub fn held(&self) -> u32
        ensures { result ≡ held self.now }
    {
        8 * self.queue.len() as u32
    }
}
