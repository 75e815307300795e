//! What a call for the next frame takes: a message of TEI management, unit data, or a frame of a link.

ghost use Rattle.std.specs.Prelude.{◌≡◌, ◌+◌, ◌<◌, ◌≤◌, Bool, true, [], length, IsSome};
ghost use Rattle.lapd_line.specs.{IsFrame, spelling, own_side, Store, frame_of, Terms, link_count, message_taken, unit_taken, link_taken, first_taken, round, taken, TellsOf, HasTerms, IsMark, Sets, IsFree, Loads, room_in, reference_in, Takes, orders_taken, Standing};

use crate::link_layer::LinkLayer;
use crate::outlet::Outlet;
use lapd_frame::{Address, Control, Frame, Order, Sender, ShortList};
use lapd_store::Shelf;
use model_link::ControlFrame;

/// Loads a frame of a sender, whose information is apart from it.
#[inline(always)]
fn load<O: Outlet>(out: &mut O, sender: Sender, address: Address, control: Control, info: &[u8])
    requires free { IsFree (O.loading out.old) }
    requires frame { IsFrame (record { address = address; control = control; info = [] }) }
    requires info { length info.now ≤ room_in (O.loading out.old) }
    ensures room { room_in (O.loading out.new) ≡ room_in (O.loading out.old) }
    ensures reference { reference_in (O.loading out.new) ≡ reference_in (O.loading out.old) }
    ensures loaded { Loads (spelling sender (record { address = address; control = control; info = info.now })) (O.loading out.old) (O.loading out.new) }
{
    let mut head = [0; 4];
    let frame = Frame {
        address,
        control,
        info: &[],
    };
    let len = sender.write(&frame, &mut head);
    out.load(&head[..len], info);
}

/// Loads a message of TEI management: its address and control field have four octets together with the first of its
/// information.
fn load_message<O: Outlet>(out: &mut O, octets: [u8; 8])
    requires free { IsFree (O.loading out.old) }
    requires room { 4 ≤ room_in (O.loading out.old) }
    ensures room { room_in (O.loading out.new) ≡ room_in (O.loading out.old) }
    ensures reference { reference_in (O.loading out.new) ≡ reference_in (O.loading out.old) }
    ensures loaded { Loads octets (O.loading out.old) (O.loading out.new) }
{
    out.load(&octets[..4], &octets[4..]);
}

impl LinkLayer {
    /// Takes the frame that is next, if there is one, and loads it: the oldest message of TEI management, otherwise
    /// the oldest unit data, otherwise what the first of the links has to give, going round from the one after that
    /// which was served last. Answers the orders for timers.
    pub(crate) fn take<O: Outlet, S: Shelf>(
        &mut self,
        out: &mut O,
        shelf: &mut S,
    ) -> Option<ShortList<Order>>
        requires stands { Standing self.old (S.store shelf.old) }
        requires free { IsFree (O.loading out.old) }
        requires room { self.old.config.n201 ≤ room_in (O.loading out.old) }
        ensures { Takes taken self.old (S.store shelf.old) (O.loading out.old) self.new (S.store shelf.new) (O.loading out.new) (orders_taken result) }
    {
        if let Some(orders) = self.take_message(out) {
            return Some(orders);
        }
        if let Some(orders) = self.take_unit(out, shelf) {
            return Some(orders);
        }
        self.take_first(out, shelf)
    }

    /// What the first of these links has to give. It is the first that has a frame; if none is, that costs no call.
    #[inline(always)]
    fn take_first<O: Outlet, S: Shelf>(
        &mut self,
        out: &mut O,
        shelf: &S,
    ) -> Option<ShortList<Order>>
        requires stands { Standing self.old (S.store shelf.now) }
        requires free { IsFree (O.loading out.old) }
        requires room { self.old.config.n201 ≤ room_in (O.loading out.old) }
        ensures { Takes (λ c m. first_taken c m (round c m)) self.old (S.store shelf.now) (O.loading out.old) self.new (S.store shelf.now) (O.loading out.new) (orders_taken result) }
    {
        let number = self.has_frame.first_around(self.turn)?;
        self.take_link(number, out, shelf)
    }

    /// What a link that has a frame has to give.
    // It is compiled into the rounds, so that what it answers is not copied on its way.
    #[inline(always)]
    fn take_link<O: Outlet, S: Shelf>(
        &mut self,
        number: usize,
        out: &mut O,
        shelf: &S,
    ) -> Option<ShortList<Order>>
        requires stands { Standing self.old (S.store shelf.now) }
        requires free { IsFree (O.loading out.old) }
        requires room { self.old.config.n201 ≤ room_in (O.loading out.old) }
        requires within { number < link_count self.old.config }
        requires has_frame { IsMark self.old.has_frame number true }
        ensures given { IsSome result }
        ensures taken { Takes (λ c m. link_taken c m number) self.old (S.store shelf.now) (O.loading out.old) self.new (S.store shelf.now) (O.loading out.new) (orders_taken result) }
    {
        let offer = self.links[number].offer()?;
        match offer.contents {
            None => self.send(number, offer.frame, &[], out),
            Some(slot) => self.send(number, offer.frame, shelf.get(&slot), out),
        }
        Some(offer.orders)
    }

    /// Loads the frame that a link has given, and turns to the next link.
    // It is compiled into both places: one that has no information, as mostly, is given without a look at any.
    #[inline(always)]
    fn send<O: Outlet>(&mut self, number: usize, frame: ControlFrame, info: &[u8], out: &mut O)
        requires within { number < length self.old.links.items }
        requires low { number < 64 }
        requires free { IsFree (O.loading out.old) }
        requires frame { (terms : Terms) × HasTerms self.old.links.items number terms × IsFrame (frame_of terms frame) }
        requires info { length info.now ≤ room_in (O.loading out.old) }
        ensures has_frame { (looked : Bool) × TellsOf number self.old.links.items looked × Sets number looked self.old.has_frame self.new.has_frame }
        ensures rest { self.new ≡ record self.old { has_frame = self.new.has_frame; turn = number + 1 } }
        ensures room { room_in (O.loading out.new) ≡ room_in (O.loading out.old) }
        ensures reference { reference_in (O.loading out.new) ≡ reference_in (O.loading out.old) }
        ensures loaded { (terms : Terms) → HasTerms self.old.links.items number terms
            → Loads (spelling (own_side self.old.config) (record (frame_of terms frame) { info = info.now })) (O.loading out.old) (O.loading out.new) }
    {
        let link = &self.links[number];
        let address = link.address(frame.command);
        self.has_frame.set(number, link.has_frame());
        // This comes first, so that what was loaded last is at hand where it is counted.
        self.turn = number + 1;
        load(out, self.config.own_side(), address, frame.control, info);
    }

    /// The oldest message of TEI management.
    // Mostly none waits.
    #[inline(always)]
    fn take_message<O: Outlet>(&mut self, out: &mut O) -> Option<ShortList<Order>>
        requires free { IsFree (O.loading out.old) }
        requires room { 4 ≤ room_in (O.loading out.old) }
        ensures { (store : Store) → Takes (λ c m. message_taken c m) self.old store (O.loading out.old) self.new store (O.loading out.new) (orders_taken result) }
    {
        if !self.teis.has_message() {
            return None;
        }
        self.take_waiting_message(out)
    }

    /// The same where one may wait.
    // It is compiled into its caller, too, so that `out` has no address; it is apart, so that octets are laid out only if
    // one waits.
    #[inline(always)]
    fn take_waiting_message<O: Outlet>(&mut self, out: &mut O) -> Option<ShortList<Order>>
        requires free { IsFree (O.loading out.old) }
        requires room { 4 ≤ room_in (O.loading out.old) }
        ensures { (store : Store) → Takes (λ c m. message_taken c m) self.old store (O.loading out.old) self.new store (O.loading out.new) (orders_taken result) }
    {
        let octets = self.teis.offer(self.config.side)?;
        load_message(out, octets);
        Some(ShortList::none())
    }

    /// The oldest unit data, in a UI command.
    fn take_unit<O: Outlet, S: Shelf>(
        &mut self,
        out: &mut O,
        shelf: &mut S,
    ) -> Option<ShortList<Order>>
        requires stands { Standing self.old (S.store shelf.old) }
        requires free { IsFree (O.loading out.old) }
        requires room { self.old.config.n201 ≤ room_in (O.loading out.old) }
        ensures { Takes (λ c m. unit_taken c m) self.old (S.store shelf.old) (O.loading out.old) self.new (S.store shelf.new) (O.loading out.new) (orders_taken result) }
    {
        let unit = self.units.oldest()?;
        let address = Address {
            sapi: unit.service.usual_sapi(),
            command: true,
            tei: unit.tei,
        };
        load(
            out,
            self.config.own_side(),
            address,
            Control::Ui { pf: false },
            shelf.get(&unit.slot),
        );
        self.units.pop();
        shelf.release(unit.slot);
        Some(ShortList::none())
    }
}
