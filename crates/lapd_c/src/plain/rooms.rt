//! How much room a link has.

ghost use Rattle.std.specs.Prelude.{◌≡◌};
ghost use Rattle.lapd_c.specs.Rooms.{plain_room};

use model_link::Room;

/// How much room a link has for contents: [`Room`] in C.
#[repr(C)]
#[derive(Clone, Copy)]
pub struct PlainRoom {
    /// Slots of the card that are free: 0 to 8192.
    pub pool: u32,
    /// Places of the link's queue that are left: 0 to 127.
    pub queue: u8,
    /// V(A): 0 to 127.
    pub va: u8,
    /// For a later version: 0.
    pub reserved: [u8; 10],
}

impl PlainRoom {
    /// The same for C.
    pub fn of(room: Room) -> PlainRoom
        ensures { result ≡ plain_room room }
    {
        PlainRoom {
            pool: room.pool,
            queue: room.queue,
            va: room.va,
            reserved: [0; 10],
        }
    }
}
