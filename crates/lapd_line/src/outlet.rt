//! What an outgoing frame is written to: a framer or a buffer.

ghost use Rattle.std.specs.Prelude.{◌≡◌, ◌+◌, ◌≤◌, ◌++◌, length};
ghost use Rattle.lapd_line.specs.Loading.{Loading, in_bits, IsFree, Loads, room_in, reference_in};

use lapd_bits::Framer;

/// Takes a frame to be sent.
pub(crate) trait Outlet {
    /// What it is: a framer, or octets.
    ghost loading: { Self → Loading };

    /// Takes the frame of these octets: `head`, its address and control field, and then `info`, its information.
    fn load(&mut self, head: &[u8], info: &[u8])
        requires free { IsFree (loading self.old) }
        requires head { length head.now ≤ 4 }
        requires info { length info.now ≤ room_in (loading self.old) }
        requires a_frame { 3 ≤ length head.now }
        ensures loaded { Loads (head.now ++ info.now) (loading self.old) (loading self.new) }
        ensures room { room_in (loading self.new) ≡ room_in (loading self.old) }
        ensures reference { reference_in (loading self.new) ≡ reference_in (loading self.old) };
}

/// A framer gives the octets of the line.
impl Outlet for Framer {
    ghost loading = { in_bits };

    #[inline(always)]
    fn load(&mut self, head: &[u8], info: &[u8]) {
        Framer::load(self, head, info);
    }
}
