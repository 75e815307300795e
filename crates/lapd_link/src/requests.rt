//! What layer 3 asks for.

ghost use Rattle.std.specs.Prelude.{◌≡◌, ℕ, ◌<◌, ◌≤◌, nat_le, false, List, [], length, None, Some, ◌++◌, ◌∷◌, IfErr, IfNone, OnOk, OnErr};
ghost use Rattle.lapd_link.specs.{Store, used_slots, SameLimits, Owned, Keeps, begun, after, told, RisesByEvent, IsClear, Stays, Reaches, HasPlace, terms_of, request_of, told_with};
ghost use Rattle.model_link.specs.Link as machine;
ghost use Rattle.model_link.specs.Events as event;
ghost use Rattle.model_link.specs.Requests as asked;

use crate::link::Link;
use lapd_frame::{Reading, Refusal};
use lapd_link_steps::BareReport;
use lapd_store::Shelf;
use model_link::State;

/// What layer 3 asks of a link (Q.921 clauses 4.1.1 and 5.6.6).
#[derive(Clone, Copy)]
pub enum LinkRequest<'a> {
    /// DL-ESTABLISH request.
    Establish,
    /// DL-RELEASE request.
    Release,
    /// DL-DATA request: these contents are to be sent.
    Data(&'a [u8]),
    /// Layer 3 can take no more contents,
    SetBusy,
    /// or can take them again.
    ClearBusy,
}

impl Link {
    ghost use Rattle.lapd_link.specs.Stands.{LinkStands, HasRoom};

    /// Layer 3 asks for something. All users of the shelf together may hold `slots` contents, at most as many as
    /// the shelf has slots. In the report nothing is told yet.
    ///
    /// # Errors
    ///
    /// The first of these that holds; then nothing changes, neither link nor report nor shelf. `WrongState`: `Establish` not in
    /// state 4, `Release` not in 4, 7 or 8, the others not in 7 or 8; by annex B `Establish` is served in state 5, too, and
    /// `Release` once. `TooLong`: contents over N201. `QueueFull`: the link keeps as many contents as it may. `PoolFull`:
    /// `slots` contents are held.
    #[inline(always)]
    pub fn request<S: Shelf>(
        &mut self,
        request: LinkRequest<'_>,
        report: &mut BareReport,
        shelf: &mut S,
        slots: u32,
    ) -> Result<(), Refusal>
        requires stands { (others : List Owned) × (m : machine.Link) × LinkStands self.old (S.store shelf.old) others m }
        requires clear { IsClear report.old }
        requires slots { slots ≤ (S.store shelf.old).slots }
        ensures refused { IfErr result (λ refusal. (others : List Owned) (m : machine.Link) → LinkStands self.old (S.store shelf.old) others m →
            asked.refusal (terms_of self.old) m (nat_le slots (used_slots (S.store shelf.old))) (request_of request.entry) ≡ Some refusal) }
        ensures unchanged { OnErr result (self.new ≡ self.old) }
        ensures shelf_unchanged { OnErr result (shelf.new ≡ shelf.old) }
        ensures untold { OnErr result (report.new ≡ report.old) }
        ensures granted { OnOk result ((others : List Owned) (m : machine.Link) → LinkStands self.old (S.store shelf.old) others m →
            asked.refusal (terms_of self.old) m (nat_le slots (used_slots (S.store shelf.old))) (request_of request.entry) ≡ None) }
        ensures stands { OnOk result ((others : List Owned) (m : machine.Link) → LinkStands self.old (S.store shelf.old) others m →
            LinkStands self.new (S.store shelf.new) others (after (terms_of self.old) (event.requested (request_of request.entry) (nat_le slots (used_slots (S.store shelf.old)))) m)) }
        ensures told { OnOk result ((others : List Owned) (m : machine.Link) → LinkStands self.old (S.store shelf.old) others m →
            told_with [] report.new ≡ told (terms_of self.old) (event.requested (request_of request.entry) (nat_le slots (used_slots (S.store shelf.old)))) m) }
        ensures cause { OnOk result ((others : List Owned) (m : machine.Link) → LinkStands self.old (S.store shelf.old) others m → report.new.cause ≡ None) }
        ensures frames { (others : List Owned) (m : machine.Link) → LinkStands self.old (S.store shelf.old) others m →
            RisesByEvent (terms_of self.old) (event.requested (request_of request.entry) (nat_le slots (used_slots (S.store shelf.old)))) m }
        ensures terms { terms_of self.new ≡ terms_of self.old }
        ensures limits { SameLimits (S.store shelf.old) (S.store shelf.new) }
    {
        match self.refusal(request, slots <= shelf.used()) {
            Some(refusal) => Err(refusal),
            None => {
                self.grant(request, report, shelf);
                Ok(())
            }
        }
    }

    // Why a request is refused.
    fn refusal(&self, request: LinkRequest<'_>, pool_is_full: bool) -> Option<Refusal>
        ensures machine { (store : Store) (others : List Owned) (m : machine.Link) → LinkStands self.now store others m →
            result ≡ asked.refusal (terms_of self.now) m pool_is_full (request_of request.entry) }
        ensures room { IfNone result (HasRoom (request_of request.entry) self.now pool_is_full) }
    {
        let owed = self.entity.is_owed();
        if !serves(self.terms.reading, self.entity.state(), owed, request) {
            return Some(Refusal::WrongState);
        }
        match request {
            LinkRequest::Data(octets) => self.refusal_of_contents(octets.len(), pool_is_full),
            _ => None,
        }
    }

    // Why so many octets of contents are refused.
    fn refusal_of_contents(&self, octets: usize, pool_is_full: bool) -> Option<Refusal>
        ensures machine { (store : Store) (others : List Owned) (m : machine.Link) (contents : List ℕ) → LinkStands self.now store others m → length contents ≡ octets →
            result ≡ asked.refusal_of_contents (terms_of self.now) m pool_is_full contents }
        ensures room { IfNone result ((octets ≤ (terms_of self.now).n201) × (length self.now.queue.slots < (terms_of self.now).queue) × (pool_is_full ≡ false)) }
    {
        if usize::from(self.terms.n201) < octets {
            return Some(Refusal::TooLong);
        }
        if usize::from(self.terms.queue) <= self.queue.len() {
            return Some(Refusal::QueueFull);
        }
        if pool_is_full {
            return Some(Refusal::PoolFull);
        }
        None
    }

    // Does what is asked for, which is not refused.
    #[inline(always)]
    fn grant<S: Shelf>(&mut self, request: LinkRequest<'_>, report: &mut BareReport, shelf: &mut S)
        requires stands { (others : List Owned) × (m : machine.Link) × LinkStands self.old (S.store shelf.old) others m }
        requires clear { IsClear report.old }
        requires place { HasPlace (request_of request) self.old (S.store shelf.old) }
        ensures reaches { (others : List Owned) (m : machine.Link) → LinkStands self.old (S.store shelf.old) others m →
            Reaches [] m (asked.granted (terms_of self.old) (request_of request.entry) (begun m)) self.new (S.store shelf.new) others report.new }
        ensures stays { Stays self.old self.new }
        ensures limits { SameLimits (S.store shelf.old) (S.store shelf.new) }
    {
        let before = self.entity.running();
        match request {
            LinkRequest::Establish => self.entity.ask_establishment(&self.terms, report),
            LinkRequest::Release => self.entity.release(&self.terms, report),
            LinkRequest::Data(octets) => self.keep(octets, shelf),
            LinkRequest::SetBusy => self.entity.set_busy_in_7_8(&self.terms, report),
            LinkRequest::ClearBusy => self.entity.clear_busy_in_7_8(&self.terms, report),
        }
        self.settle(before, report, shelf);
    }

    // The contents go to the end of the queue.
    pub(crate) fn keep<S: Shelf>(&mut self, octets: &[u8], shelf: &mut S)
        requires { HasPlace (event.Data octets.now) self.old (S.store shelf.old) }
        ensures kept { (messages : List (List ℕ)) (others : List Owned) → Keeps (S.store shelf.old) self.old.queue.slots messages others →
            Keeps (S.store shelf.new) self.new.queue.slots (messages ++ octets.now ∷ []) others }
        ensures entity { self.new.entity ≡ self.old.entity }
        ensures stays { Stays self.old self.new }
        ensures limits { SameLimits (S.store shelf.old) (S.store shelf.new) }
    {
        // The request was not refused, so the shelf has a free slot (`place`), and `put` answers it.
        if let Some(slot) = shelf.put(octets) {
            self.queue.push(slot);
        }
    }
}

// Whether the state serves the request, while a release is owed or none is.
fn serves(reading: Reading, state: State, owed: bool, request: LinkRequest<'_>) -> bool
    ensures { result ≡ asked.serves reading state owed (request_of request.entry) }
{
    let is_awaiting = is_awaiting_5(reading, state);
    let is_down = matches!(state, State::TeiAssigned);
    let is_up = matches!(state, State::Established | State::TimerRecovery);
    match request {
        LinkRequest::Establish => is_down || is_awaiting,
        LinkRequest::Release => is_down || is_up || (is_awaiting && !owed),
        LinkRequest::Data(_) | LinkRequest::SetBusy | LinkRequest::ClearBusy => is_up,
    }
}

// Whether the establishment is awaited by annex B, which then serves more.
fn is_awaiting_5(reading: Reading, state: State) -> bool
    ensures { result ≡ asked.is_awaiting_5 reading state }
{
    match reading {
        Reading::Profile => false,
        Reading::AnnexB => matches!(state, State::AwaitingEstablishment),
    }
}
