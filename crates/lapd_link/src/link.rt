//! A link.

ghost use Rattle.std.specs.Prelude.{◌≡◌, List, ◌≤◌, IfOk};
ghost use Rattle.std.specs.Option.{option_to_list};
ghost use Rattle.lapd_link.specs.{Store, Owned, Holds, TeiAssigned, address_at, held, terms_of};
ghost use Rattle.lapd_frame.specs.declared.readings.Reading.TheVariants.{Profile};
ghost use Rattle.model_link.specs.Image.{timer_of};
ghost use Rattle.model_link.specs.Link as machine;
ghost use Rattle.model_link.specs.Sound.{IsInRange};

use crate::fault::StartFault;
use crate::orders::line_timer;
use lapd_frame::{Address, Reading, Service, Timer};
use lapd_link_steps::Entity;
use lapd_store::SlotQueue;
use model_link::{LinkCounts, Terms};
use std::alloc::Global;

/// A data link of one TEI and one service.
///
/// To drop it frees no slot on the shelf: [`Link::clear`] releases what it keeps there.
#[derive(Drop, Debug)]
pub struct Link {
    pub(crate) terms: Terms,
    pub(crate) entity: Entity,
    // The slots of the contents that are not acknowledged.
    pub(crate) queue: SlotQueue,
}

impl Link {
    ghost use Rattle.lapd_link.specs.Stands.{LinkStands};

    /// A link that is down, with room for `queue` contents (1 to 127) and `control` control frames that wait (2 to 16).
    /// It is opened before it serves: until then its service and its TEI are any.
    ///
    /// # Errors
    ///
    /// `OutOfMemory` if there is no room for them.
    pub fn start(alloc: Global, queue: u8, control: u8) -> Result<Link, StartFault>
        requires queue_low { 1 ≤ queue }
        requires queue_high { queue ≤ 127 }
        requires control_low { 2 ≤ control }
        requires control_high { control ≤ 16 }
        ensures fresh { IfOk result (λ link. (store : Store) (others : List Owned) → 8 ≤ store.width → Holds store others → LinkStands link store others machine.fresh) }
        ensures queue { IfOk result (λ link. (terms_of link).queue ≡ queue) }
        ensures control { IfOk result (λ link. (terms_of link).control ≡ control) }
    {
        let entity = Entity::start(alloc, usize::from(control)).map_err(
            |_| StartFault::OutOfMemory,
        )?;
        let slots = SlotQueue::start(alloc, usize::from(queue)).map_err(
            |_| StartFault::OutOfMemory,
        )?;
        Ok(Link {
            terms: Terms {
                service: Service::Call,
                tei: 0,
                k: 1,
                n201: 8,
                n200: 0,
                queue,
                control,
                reading: Reading::Profile,
            },
            entity,
            queue: slots,
        })
    }

    /// The TEI (0 to 126) comes to the line, and the link is its from now on. The link has to be in state 4, and is as one that
    /// begins, with a window of `k` (1 to its queue's capacity), `n200` repeats (0 to 10) and at most `n201` octets of
    /// information (8 to 260, and no wider than the shelf). It reads the tables as the profile does; [`Link::with_terms`]
    /// says another reading.
    pub fn open(&mut self, service: Service, tei: u8, k: u8, n200: u8, n201: u16)
        requires tei { tei ≤ 126 }
        requires k_low { 1 ≤ k }
        requires k_high { k ≤ (terms_of self.old).queue }
        requires n200 { n200 ≤ 10 }
        requires n201_low { 8 ≤ n201 }
        requires n201_high { n201 ≤ 260 }
        requires down { (store : Store) × (others : List Owned) × (m : machine.Link) × LinkStands self.old store others m × (m.state ≡ TeiAssigned) }
        ensures terms { terms_of self.new ≡ record (terms_of self.old) { service = service; tei = tei; k = k; n200 = n200; n201 = n201; reading = Profile } }
        ensures fresh { (store : Store) (others : List Owned) (m : machine.Link) → n201 ≤ store.width → LinkStands self.old store others m → LinkStands self.new store others machine.fresh }
    {
        let Terms { queue, control, .. } = self.terms;
        self.with_terms(Terms {
            service,
            tei,
            k,
            n201,
            n200,
            queue,
            control,
            reading: Reading::Profile,
        });
    }

    /// The same with these parameters, which have to be in range (`range`), with the capacities of the start. That holds on
    /// the shelf for which it stood, if that is at least as wide as N201 (`fresh`).
    pub fn with_terms(&mut self, terms: Terms)
        requires range { IsInRange terms }
        requires queue { terms.queue ≡ (terms_of self.old).queue }
        requires control { terms.control ≡ (terms_of self.old).control }
        requires down { (store : Store) × (others : List Owned) × (m : machine.Link) × LinkStands self.old store others m × (m.state ≡ TeiAssigned) }
        ensures terms { terms_of self.new ≡ terms }
        ensures fresh { (store : Store) (others : List Owned) (m : machine.Link) → terms.n201 ≤ store.width → LinkStands self.old store others m → LinkStands self.new store others machine.fresh }
    {
        self.terms = terms;
        self.entity.begin();
    }

    /// The link's state, 4 to 8 (annex B).
    pub fn state(&self) -> u8
        ensures { (store : Store) (others : List Owned) (m : machine.Link) → LinkStands self.now store others m → result ≡ machine.state_number m.state }
    {
        self.entity.state().number()
    }

    /// Its timer that runs, as one of the line's.
    pub fn timer(&self) -> Option<Timer>
        ensures { (store : Store) (others : List Owned) (m : machine.Link) → LinkStands self.now store others m →
            option_to_list result ≡ timer_of (terms_of self.now).service (terms_of self.now).tei m.running }
    {
        Some(line_timer(&self.terms, self.entity.running()?))
    }

    /// What was counted of it.
    pub fn counts(&self) -> LinkCounts
        ensures { (store : Store) (others : List Owned) (m : machine.Link) → LinkStands self.now store others m → result ≡ m.counts }
    {
        self.entity.counts()
    }

    /// The octets of the control frames that wait, without frame checks: 3 or 4 each.
    pub fn held(&self) -> u32
        requires { (store : Store) × (others : List Owned) × (m : machine.Link) × LinkStands self.now store others m }
        ensures { (store : Store) (others : List Owned) (m : machine.Link) → LinkStands self.now store others m → result ≡ held (terms_of self.now) m }
    {
        self.entity.held()
    }

    /// The address of the frames that the link sends: of its service and its TEI, in a command or a response (Q.921
    /// clause 3.3).
    pub fn address(&self, command: bool) -> Address
        ensures { result ≡ address_at (terms_of self.now) command }
    {
        Address {
            sapi: self.terms.service.usual_sapi(),
            command,
            tei: self.terms.tei,
        }
    }
}
