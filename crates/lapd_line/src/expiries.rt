//! Timers that expire.

ghost use Rattle.std.specs.Prelude.{[]};
ghost use Rattle.lapd_line.specs.{aim_of_expiry, at_timer, Standing, Serves, IsClear};
ghost use Rattle.model_line.specs.Line as machine;

use crate::link_layer::{LinkLayer, link_number};
use lapd_frame::{Service, Timer};
use lapd_link::{BareReport, LinkTimer};
use lapd_store::Shelf;

impl LinkLayer {
    /// A timer expires. If it does not run, nothing happens.
    pub(crate) fn expire<S: Shelf>(&mut self, timer: Timer, report: &mut BareReport, shelf: &mut S)
        requires stands { Standing self.old (S.store shelf.old) }
        requires clear { IsClear report.old }
        ensures { Serves (aim_of_expiry timer) [] self.old (S.store shelf.old) self.new (S.store shelf.new) report.new }
    {
        match timer {
            Timer::T200(service, tei) => self.at_link(service, tei, LinkTimer::T200, report, shelf),
            Timer::T203(service, tei) => self.at_link(service, tei, LinkTimer::T203, report, shelf),
            Timer::T201 => {
                let told = self.teis.expire_t201();
                self.change(told, report, shelf);
            }
            Timer::T202 => {
                let told = self.teis.expire_t202();
                self.change(told, report, shelf);
            }
        }
    }

    /// A timer of a link expires, where its TEI is on the line.
    fn at_link<S: Shelf>(
        &mut self,
        service: Service,
        tei: u8,
        timer: LinkTimer,
        report: &mut BareReport,
        shelf: &mut S,
    )
        requires stands { Standing self.old (S.store shelf.old) }
        requires clear { IsClear report.old }
        ensures { Serves (λ m. at_timer service tei timer (machine.place_in m tei)) [] self.old (S.store shelf.old) self.new (S.store shelf.new) report.new }
    {
        let Some(place) = self.teis.place(tei) else {
            return;
        };
        let number = link_number(place, service);
        let link = &mut self.links[number];
        link.expire(timer, report, shelf);
        self.has_frame.set(number, link.has_frame());
    }
}
