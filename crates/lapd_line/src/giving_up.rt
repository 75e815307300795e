//! What waits on a line and is of no link is given up, as the line is down.

ghost use Rattle.std.specs.Prelude.{◌≡◌, List, [], drop};
ghost use Rattle.lapd_line.specs.{Owned, SameLimits, at_no_link, without_units, Line, Standing, Serves, always, IsClear};

use crate::link_layer::LinkLayer;
use lapd_link::BareReport;
use lapd_store::Shelf;

impl LinkLayer {
    ghost use Rattle.lapd_line.specs.LinkLayer.{LayerStands};

    /// Gives up the unit data that waits, and what TEI management has going. Links and TEIs stay.
    pub(crate) fn give_up<S: Shelf>(&mut self, report: &mut BareReport, shelf: &mut S)
        requires stands { Standing self.old (S.store shelf.old) }
        requires clear { IsClear report.old }
        ensures { Serves (always at_no_link) [] self.old (S.store shelf.old) self.new (S.store shelf.new) report.new }
    {
        self.give_up_units(shelf);
        let told = self.teis.give_up();
        self.change(told, report, shelf);
    }

    /// Gives up the unit data that waits: its slots on the shelf are free.
    fn give_up_units<S: Shelf>(&mut self, shelf: &mut S)
        requires { Standing self.old (S.store shelf.old) }
        ensures config { self.new.config ≡ self.old.config }
        ensures limits { SameLimits (S.store shelf.old) (S.store shelf.new) }
        ensures after { (others : List Owned) (m : Line) → LayerStands self.old (S.store shelf.old) others m
            → LayerStands self.new (S.store shelf.new) others (without_units m) }
    {
        for given_up in 0..self.units.len() {
            self.give_up_unit(shelf);
        }
    }

    /// Gives up the oldest unit data, if any waits.
    fn give_up_unit<S: Shelf>(&mut self, shelf: &mut S)
        requires { Standing self.old (S.store shelf.old) }
        ensures config { self.new.config ≡ self.old.config }
        ensures limits { SameLimits (S.store shelf.old) (S.store shelf.new) }
        ensures after { (others : List Owned) (m : Line) → LayerStands self.old (S.store shelf.old) others m
            → LayerStands self.new (S.store shelf.new) others (record m { units = drop 1 m.units }) }
    {
        if let Some(unit) = self.units.oldest() {
            shelf.release(unit.slot);
            self.units.pop();
        }
    }
}
