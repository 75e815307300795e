//! How many octets the links of a line hold beside contents in slots.

ghost use Rattle.std.specs.Prelude.{◌≡◌, ◌≤◌, List};
ghost use Rattle.lapd_line.specs.{Owned, Store, sum_of_links, held_by_link, Standing};
ghost use Rattle.model_line.specs.Line as machine;

use crate::link_layer::LinkLayer;

impl LinkLayer {
    ghost use Rattle.lapd_line.specs.LinkLayer.{LayerStands};

    /// How many the links hold, of control frames that wait.
    pub(crate) fn held_by_links(&self) -> u32
        requires { (store : Store) × Standing self.now store }
        ensures held { (store : Store) (others : List Owned) (m : machine.Line) → LayerStands self.now store others m
            → result ≡ sum_of_links self.now.config (held_by_link self.now.config m) }
        ensures few { result ≤ 1024 }
    {
        let mut octets = 0;
        for number in 0..2 * usize::from(self.config.terminals) {
            octets += self.links[number].held();
        }
        octets
    }
}
