//! What of a line runs, and where: the TEIs at the places of the table, the states and the timers of their links, and the timers
//! of the line.

ghost use Rattle.std.specs.Prelude.{◌≡◌, ◌<◌, List, IfSome, option_to_list};
ghost use Rattle.lapd_line.specs.Running.{own_timers, states_at, timers_of};
ghost use Rattle.lapd_line.specs.{Owned, Store, config_of, link_count};
ghost use Rattle.model_line.specs.Image.{timer_numbered};
ghost use Rattle.model_line.specs.Line as machine;

use crate::frame_line::FrameLine;
use crate::link_layer::link_number;
use crate::managing::Managing;
use lapd_frame::{Service, Timer};

impl FrameLine {
    ghost use Rattle.lapd_line.specs.Stands.{LineStands};

    /// The TEI at a place of the table.
    pub fn tei_at(&self, place: usize) -> Option<u8>
        ensures is { (store : Store) (others : List Owned) (m : machine.Line) → LineStands self.now store others m
            → result ≡ machine.tei_at place m }
        ensures few { (store : Store) (others : List Owned) (m : machine.Line) → LineStands self.now store others m
            → IfSome result (λ tei. tei < 127) }
    {
        self.layer.teis.tei_at(place)
    }

    /// The states of the two links of the TEI at a place of the table, that of call control first, by their numbers in Q.921
    /// (annex B): 4 to 8. None where the place is free, or the table has no such place.
    #[inline(always)]
    pub fn states_at(&self, place: usize) -> Option<(u8, u8)>
        ensures { (store : Store) (others : List Owned) (m : machine.Line) → LineStands self.now store others m
            → result ≡ states_at place m }
    {
        self.layer.teis.tei_at(place)?;
        let call = self.layer.links.get(link_number(place, Service::Call))?;
        let packet = self.layer.links.get(link_number(place, Service::Packet))?;
        Some((call.state(), packet.state()))
    }

    /// The timer that a link runs, T200 or T203, by the number of the link: twice the place of its TEI, and 1 more for packet
    /// mode. None where it runs none, or no TEI is at its place.
    pub fn timer(&self, number: usize) -> Option<Timer>
        ensures { (store : Store) (others : List Owned) (m : machine.Line) → LineStands self.now store others m
            → number < link_count (config_of self.now) → option_to_list result ≡ timer_numbered m number }
    {
        self.layer.teis.tei_at(number / 2)?;
        self.layer.links.get(number)?.timer()
    }

    /// The timer that the line itself runs, T201 or at a terminal T202, if it runs it.
    pub fn own_timer(&self) -> Option<Timer>
        ensures { (store : Store) (others : List Owned) (m : machine.Line) → LineStands self.now store others m
            → option_to_list result ≡ own_timers m }
    {
        self.layer.teis.timer()
    }
}

impl Managing {
    /// The timer of TEI management that runs.
    pub(crate) fn timer(&self) -> Option<Timer>
        ensures { option_to_list result ≡ timers_of self.now }
    {
        match self {
            Managing::Network(own) => own.is_checking().then_some(Timer::T201),
            Managing::Terminal(own) => own.has_procedure().then_some(Timer::T202),
        }
    }
}
