//! TEI management of one line.

ghost use Rattle.std.specs.Prelude.{◌≡◌, ◌≤◌, ◌<◌, true, Some, None, length, get_or, option_map, slice_get, is_some, false, IfOk, IfErr, IfSome, OnOk, OnErr};
ghost use Rattle.lapd_tei.specs.{type_of, empty, place, held, is_on, begun, leave, left, take_off, is_checked, message, expiry, assign, remove, check, disown, down, refusal, after, told, offered, after_offer, told_of, led_to, IsShort};
ghost use Rattle.lapd_frame.specs.declared.readings.Reading.TheVariants.{Profile};
ghost use Rattle.lapd_frame.specs.declared.addresses.Side.{Side as Spelt};

mod checks;
mod requests;
mod saved;

use crate::due::Due;
use crate::fault::StartFault;
use crate::outcome::TeiOutcome;
use crate::queue::Queue;
use crate::remembered::Memory;
use crate::table::{Table, left};
use crate::{heard, messages};
use lapd_frame::{Order, Reading, Refusal, ShortList, Side, Timer};
use model_teis::Change;
use model_teis::network::{Check, Heard, Message};
use std::alloc::Global;
use std::marker::Model;

/// TEI management of one line (Q.921 clause 5.3), the network's side.
///
/// A line has a table of at most `terminals` TEIs, each at a place; remembers the latest assignments, at most four; and runs
/// at most one check of a TEI at a time. Its messages wait for the line, at most four. Which rows hold is its reading. No call
/// but a start takes memory.
#[derive(Drop, Debug)]
pub struct Teis {
    reading: Reading,
    table: Table,
    memory: Memory,
    check: Option<Check>,
    due: Due,
    queue: Queue,
}

impl Model for Teis {
    ghost use Rattle.model_teis.specs.network.Machine.{Management};

    ghost Value = { Management };

    ghost use Rattle.lapd_tei.specs.Outcome.{management_of};
    ghost use Rattle.model_teis.specs.network.Sound.{IsSound};

    ghost view = { management_of };

    ghost invariant = { λ t. IsSound (management_of t) };
}

#[tactic(auto, unfolding(model_teis::specs::network::Events::course, model_teis::specs::network::Events::refusal))]
impl Teis {
    /// TEI management of a line on which no TEI is, with room for `terminals` TEIs, 1 to 8, by the rows of the profile.
    ///
    /// # Errors
    ///
    /// `OutOfMemory` if there is no memory for the messages that wait.
    pub fn start(alloc: Global, terminals: usize) -> Result<Teis, StartFault>
        requires { 1 ≤ terminals × terminals ≤ 8 }
        ensures { IfOk result (λ teis. teis ≡ empty Profile terminals) }
    {
        Teis::start_as(alloc, terminals, Reading::Profile)
    }

    /// TEI management of a line on which no TEI is, with room for `terminals` TEIs, 1 to 8, by the rows of this reading.
    ///
    /// # Errors
    ///
    /// `OutOfMemory` if there is no memory for the messages that wait.
    pub fn start_as(alloc: Global, terminals: usize, reading: Reading) -> Result<Teis, StartFault>
        requires { 1 ≤ terminals × terminals ≤ 8 }
        ensures { IfOk result (λ teis. teis ≡ empty reading terminals) }
    {
        Ok(Teis {
            reading,
            table: Table::empty(terminals),
            memory: Memory::new(),
            check: None,
            due: Due::none(terminals),
            queue: Queue::start(alloc).map_err(|_| StartFault::OutOfMemory)?,
        })
    }

    /// Serves a message of a terminal: the information of a UI command with SAPI 63 and the group TEI.
    pub fn message(&mut self, information: &[u8]) -> TeiOutcome
        ensures told { told_of result ≡ told (message information.now) self.old }
        ensures after { self.new ≡ after (message information.now) self.old }
        ensures short { IsShort result }
    {
        match heard::read(self.reading, information) {
            Some(Heard::IdentityRequest { ri }) => self.request(ri),
            Some(Heard::IdentityRequestOf { ri, tei }) => self.request_of(ri, tei),
            Some(Heard::IdentityVerify { tei }) => self.verify(tei),
            Some(Heard::IdentityCheckResponse { tei }) => self.respond(tei),
            None => self.respond_among(information),
        }
    }

    /// T201 has expired. If no check runs, T201 does not run, and nothing happens.
    pub fn expire_t201(&mut self) -> TeiOutcome
        ensures told { told_of result ≡ told expiry self.old }
        ensures after { self.new ≡ after expiry self.old }
        ensures short { IsShort result }
    {
        self.expire()
    }

    /// Puts a TEI on the line, at the lowest place that is free. The TEI is at most 126.
    ///
    /// # Errors
    ///
    /// `TeiTaken` if it is on the line, otherwise `TableFull` if no place is free.
    pub fn assign(&mut self, tei: u8) -> Result<TeiOutcome, Refusal>
        requires { tei ≤ 126 }
        ensures told { IfOk result (λ outcome. told_of outcome ≡ told (assign tei) self.old) }
        ensures accepted { OnOk result (refusal (assign tei) self.old ≡ None) }
        ensures refused { IfErr result (λ why. refusal (assign tei) self.old ≡ Some why) }
        ensures after { self.new ≡ after (assign tei) self.old }
        ensures short { IfOk result IsShort }
        ensures unchanged { OnErr result (self.new ≡ self.old) }
    {
        if self.table.is_on(tei) {
            return Err(Refusal::TeiTaken);
        }
        let Some(place) = self.table.free_place() else {
            return Err(Refusal::TableFull);
        };
        self.table.put(place, tei);
        Ok(TeiOutcome {
            change: Some(Change::Gained { tei, place }),
            ..TeiOutcome::nothing()
        })
    }

    /// Takes a TEI off the line: the terminals with it are told so, and a check of it ends. The TEI is at most 126.
    ///
    /// # Errors
    ///
    /// `NoLink` if it is not on the line, otherwise `ControlFull` if no message more may wait.
    pub fn remove(&mut self, tei: u8) -> Result<TeiOutcome, Refusal>
        requires { tei ≤ 126 }
        ensures told { IfOk result (λ outcome. told_of outcome ≡ told (remove tei) self.old) }
        ensures accepted { OnOk result (refusal (remove tei) self.old ≡ None) }
        ensures refused { IfErr result (λ why. refusal (remove tei) self.old ≡ Some why) }
        ensures after { self.new ≡ after (remove tei) self.old }
        ensures short { IfOk result IsShort }
        ensures unchanged { OnErr result (self.new ≡ self.old) }
    {
        if !self.table.is_on(tei) {
            return Err(Refusal::NoLink);
        }
        if self.queue.is_full() {
            return Err(Refusal::ControlFull);
        }
        Ok(self.take_off(tei))
    }

    /// Begins a check of a TEI: its terminals are asked to answer. The TEI is at most 126.
    ///
    /// # Errors
    ///
    /// `NoLink` if it is not on the line, otherwise `CheckRunning` if a check runs, otherwise `ControlFull` if no message
    /// more may wait.
    pub fn check(&mut self, tei: u8) -> Result<TeiOutcome, Refusal>
        requires { tei ≤ 126 }
        ensures told { IfOk result (λ outcome. told_of outcome ≡ told (check tei) self.old) }
        ensures accepted { OnOk result (refusal (check tei) self.old ≡ None) }
        ensures refused { IfErr result (λ why. refusal (check tei) self.old ≡ Some why) }
        ensures after { self.new ≡ after (check tei) self.old }
        ensures short { IfOk result IsShort }
        ensures unchanged { OnErr result (self.new ≡ self.old) }
    {
        if !self.table.is_on(tei) {
            return Err(Refusal::NoLink);
        }
        if self.check.is_some() {
            return Err(Refusal::CheckRunning);
        }
        if self.queue.is_full() {
            return Err(Refusal::ControlFull);
        }
        Ok(self.begin_check(tei))
    }

    /// Disowns a TEI that is not on the line, at most 126, or 127 for all TEIs (Q.921 clause 5.3.4): the terminals that still
    /// use it are told to give it up. Nothing else changes.
    ///
    /// # Errors
    ///
    /// `TeiTaken` if it is on the line, or any TEI is if it is 127; otherwise `ControlFull` if no message more may
    /// wait.
    pub fn disown(&mut self, tei: u8) -> Result<TeiOutcome, Refusal>
        requires { tei ≤ 127 }
        ensures told { IfOk result (λ outcome. told_of outcome ≡ told (disown tei) self.old) }
        ensures accepted { OnOk result (refusal (disown tei) self.old ≡ None) }
        ensures refused { IfErr result (λ why. refusal (disown tei) self.old ≡ Some why) }
        ensures after { self.new ≡ after (disown tei) self.old }
        ensures short { IfOk result IsShort }
        ensures unchanged { OnErr result (self.new ≡ self.old) }
    {
        if self.table.is_in_use(tei) {
            return Err(Refusal::TeiTaken);
        }
        if self.queue.is_full() {
            return Err(Refusal::ControlFull);
        }
        self.queue.send(Message::IdentityRemove { tei });
        Ok(TeiOutcome::nothing())
    }

    /// The line is down (Q.921 annex B, persistent deactivation): the messages that wait are given up, a check that runs ends
    /// without a result, and none is due any more. The TEIs stay on the line.
    pub fn give_up(&mut self) -> TeiOutcome
        ensures told { told_of result ≡ told down self.old }
        ensures after { self.new ≡ after down self.old }
        ensures short { IsShort result }
    {
        self.queue.clear();
        self.due.clear();
        match self.check.take() {
            Some(_) => TeiOutcome {
                orders: ShortList::one(Order::Stop(Timer::T201)),
                ..TeiOutcome::nothing()
            },
            None => TeiOutcome::nothing(),
        }
    }

    /// The place of a TEI in the table, `None` if it is not on the line.
    pub fn place(&self, tei: u8) -> Option<usize>
        ensures place { result ≡ place tei self.now }
        ensures within { IfSome result (λ place. place < length self.now.places) }
    {
        self.table.place_of(tei)
    }

    /// Whether a check runs.
    pub fn is_checking(&self) -> bool
        ensures { result ≡ is_some self.now.check }
    {
        self.check.is_some()
    }

    /// The TEI at a place.
    pub fn tei_at(&self, place: usize) -> Option<u8>
        ensures { result ≡ get_or self.now.places place None }
    {
        self.table.tei_at(place)
    }

    /// Takes the message that has waited longest: the octets of its frame, without the frame check, as `side` sends it.
    pub fn offer(&mut self, side: Side) -> Option<[u8; 8]>
        ensures offered { result ≡ offered side self.old }
        ensures after { self.new ≡ after_offer self.old }
    {
        let message = self.queue.take()?;
        Some(messages::frame(message, side))
    }

    /// Whether a message waits to be sent.
    pub fn has_message(&self) -> bool
        ensures { (side : Spelt) → result ≡ is_some (offered side self.now) }
    {
        self.queue.len() > 0
    }

    /// The type of the message that [`Teis::offer`] takes next (Q.921 clause 5.3.6, table 8).
    pub fn next_type(&self) -> Option<u8>
        ensures { result ≡ option_map type_of (slice_get self.now.waiting 0) }
    {
        let message = self.queue.first()?;
        Some(messages::kind(message))
    }

    /// How many octets are held: eight for each message that waits, three for each assignment that is remembered, and one while
    /// any check is due.
    pub fn held(&self) -> u32
        ensures { result ≡ held self.now }
    {
        8 * self.queue.len() as u32 + 3 * self.memory.len() as u32 + self.due.is_any() as u32
    }

    // A TEI is taken off the line by request.
    fn take_off(&mut self, tei: u8) -> TeiOutcome
        requires { is_on tei self.old.places ≡ true }
        ensures led { led_to self.new result ≡ take_off tei (begun self.old) }
        ensures short { IsShort result }
    {
        let lost = self.queue.send(Message::IdentityRemove { tei });
        let told = TeiOutcome {
            lost,
            ..TeiOutcome::nothing()
        };
        let told = self.end_check_of(tei, told);
        let place = self.leave(tei);
        TeiOutcome {
            change: left(tei, place),
            ..told
        }
    }

    // A TEI that is not under check leaves the table, and its assignment is forgotten, and that a check of it is due.
    fn leave(&mut self, tei: u8) -> Option<usize>
        requires { is_checked tei self.old.check ≡ false }
        ensures place { result ≡ place tei self.old }
        ensures left { self.new ≡ (leave tei (begun self.old)).now }
    {
        self.memory.forget(tei);
        let place = self.table.take(tei);
        self.due.put(place, false);
        place
    }
}
