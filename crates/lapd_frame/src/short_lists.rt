//! Short lists that an answer holds by value.

ghost use Rattle.std.specs.Prelude.{◌≡◌, ◌+◌, ◌≤◌, ◌<◌, [], ◌∷◌, ◌++◌, length};

/// At most four items, in order: the notes of an event, or its timer orders.
///
/// A variant for each length, so that no place is ever without its item, and two lists are equal where their
/// items are. A list is copied with the answer that holds it, also if that answer is lent.
#[derive(Clone, Copy, PartialEq, Eq, Debug)]
pub enum ShortList<T> {
    /// No item.
    None,
    /// One item.
    One([T; 1]),
    /// Two items.
    Two([T; 2]),
    /// Three items.
    Three([T; 3]),
    /// Four items, as many as there may be.
    Four([T; 4]),
}

impl<T: Copy> ShortList<T> {
    ghost use Rattle.lapd_frame.specs.ShortLists.{listed};

    /// No item.
    pub fn none() -> ShortList<T>
        ensures { listed result ≡ [] }
    {
        ShortList::None
    }

    /// One item.
    pub fn one(item: T) -> ShortList<T>
        ensures { listed result ≡ item ∷ [] }
    {
        ShortList::One([item])
    }

    /// The list with one item more at its end. There has to be room: fewer than four items.
    pub fn with(self, item: T) -> ShortList<T>
        requires room { length (listed self) < 4 }
        ensures { listed result ≡ listed self ++ item ∷ [] }
    {
        match self {
            ShortList::None => ShortList::One([item]),
            ShortList::One(items) => ShortList::Two([items[0], item]),
            ShortList::Two(items) => ShortList::Three([items[0], items[1], item]),
            ShortList::Three(items) => ShortList::Four([items[0], items[1], items[2], item]),
            ShortList::Four(items) => ShortList::Four(items),
        }
    }

    /// Puts an item at the end. There has to be room: fewer than four items.
    // The first item is put where it belongs; the others, which are rare, by a call.
    #[inline(always)]
    pub fn push(&mut self, item: T)
        requires room { length (listed self.old) < 4 }
        ensures { listed self.new ≡ listed self.old ++ item ∷ [] }
    {
        match self {
            ShortList::None => *self = ShortList::One([item]),
            ShortList::One(_) | ShortList::Two(_) | ShortList::Three(_) | ShortList::Four(_) => {
                self.push_more(item);
            }
        }
    }

    #[inline(never)]
    fn push_more(&mut self, item: T)
        requires room { length (listed self.old) < 4 }
        ensures { listed self.new ≡ listed self.old ++ item ∷ [] }
    {
        *self = self.with(item);
    }

    /// Puts the items of another list at the end. There has to be room: at most four items in both.
    pub fn append(&mut self, more: ShortList<T>)
        requires room { length (listed self.old) + length (listed more) ≤ 4 }
        ensures { listed self.new ≡ listed self.old ++ listed more }
    {
        *self = match more {
            ShortList::None => *self,
            ShortList::One(items) => self.with(items[0]),
            ShortList::Two(items) => self.with(items[0]).with(items[1]),
            ShortList::Three(items) => self.with(items[0]).with(items[1]).with(items[2]),
            ShortList::Four(items) => ShortList::Four(items),
        };
    }

    /// How many items there are: at most four.
    pub fn len(&self) -> usize
        ensures { result ≡ length (listed self.now) }
    {
        self.as_slice().len()
    }

    /// The items, in order.
    pub fn as_slice(&self) -> &[T]
        ensures { result.now ≡ listed self.now }
    {
        match self {
            ShortList::None => &[],
            ShortList::One(items) => items,
            ShortList::Two(items) => items,
            ShortList::Three(items) => items,
            ShortList::Four(items) => items,
        }
    }
}
