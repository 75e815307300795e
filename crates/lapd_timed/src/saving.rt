//! The timers of a card in an image.

ghost use Rattle.std.specs.Prelude.{ℕ, ◌*◌, ◌<◌, ◌≤◌, List, length};
ghost use Rattle.lapd_clock.specs.Given.{lengths_of};
ghost use Rattle.lapd_image.specs.Puts.{Puts};
ghost use Rattle.lapd_timed.specs.MomentsImage.{all_moments, line_moments, link_moments, links_moments};
ghost use Rattle.lapd_timed.specs.Image.{timers_part};
ghost use Rattle.model_card.specs.Card.{Card};
ghost use Rattle.model_image.specs.Clocks as clocks;
ghost use Rattle.model_timed.specs.Clock.{Clock};

use crate::card_timers::CardTimers;
use crate::places::slot;
use lapd_clock::Lengths;
use lapd_frame::{Service, Timer};
use lapd_image::put_number;

impl CardTimers {
    ghost use Rattle.lapd_timed.specs.Image.{AreSaved, MayStandBeside};

    /// Writes the lengths of its timers, the moment, the moments of those that run, and the moments at which states of links
    /// changed last into a room, from a place on. It answers the place after. What does not fit is left out.
    pub(crate) fn save(&self, out: &mut [u8], at: usize) -> usize
        requires { at ≤ length out.old }
        ensures within { result ≤ length out.new }
        ensures puts { (m : Card) (c : Clock) (changed : List (List ℕ)) → AreSaved self.now m c changed → Puts (timers_part m c changed) at out.old result out.new }
        // And these may be saved, so that a restore takes them.
        ensures saved { (m : Card) (c : Clock) (changed : List (List ℕ)) → AreSaved self.now m c changed → MayStandBeside m c changed }
    {
        let at = save_lengths(self.lengths, out, at);
        let at = put_number(out, at, 8, self.moment);
        let at = self.save_moments(out, at);
        self.changes.save(out, at)
    }

    /// Writes the moments of the timers that run.
    fn save_moments(&self, out: &mut [u8], at: usize) -> usize
        requires { at ≤ length out.old }
        ensures { Puts (all_moments self.now.lines self.now.terminals self.now.moments) at out.old result out.new }
    {
        let mut end = at;
        for line in 0..self.lines {
            end = self.save_line(line, out, end);
        }
        end
    }

    /// Writes those of the timers of a line: of its links, by their numbers, and then its own.
    fn save_line(&self, line: usize, out: &mut [u8], at: usize) -> usize
        requires line { line < self.now.lines }
        requires within { at ≤ length out.old }
        ensures { Puts (line_moments self.now.terminals self.now.moments line) at out.old result out.new }
    {
        let at = self.save_links(line, out, at);
        let at = self.moments.save(slot(self.terminals, line, 0, 0), out, at);
        self.moments.save(slot(self.terminals, line, 0, 1), out, at)
    }

    /// Writes those of the timers of the links of a line.
    fn save_links(&self, line: usize, out: &mut [u8], at: usize) -> usize
        requires line { line < self.now.lines }
        requires within { at ≤ length out.old }
        ensures { Puts (links_moments self.now.terminals line self.now.moments (2 * self.now.terminals)) at out.old result out.new }
    {
        let mut end = at;
        for number in 0..2 * self.terminals {
            end = self.save_link(line, number, out, end);
        }
        end
    }

    /// Writes that of T200 or T203 of a link, if it runs one.
    fn save_link(&self, line: usize, number: usize, out: &mut [u8], at: usize) -> usize
        requires line { line < self.now.lines }
        requires number { number < 2 * self.now.terminals }
        requires within { at ≤ length out.old }
        ensures { Puts (link_moments self.now.terminals line self.now.moments number) at out.old result out.new }
    {
        let at = self
            .moments
            .save(slot(self.terminals, line, number, 2), out, at);
        self.moments
            .save(slot(self.terminals, line, number, 3), out, at)
    }
}

/// Writes how long T200, T203, T201 and T202 run that are started.
fn save_lengths(lengths: Lengths, out: &mut [u8], at: usize) -> usize
    requires { at ≤ length out.old }
    ensures { Puts (clocks.lengths (lengths_of lengths)) at out.old result out.new }
{
    let at = put_number(out, at, 4, lengths.of(Timer::T200(Service::Call, 0)));
    let at = put_number(out, at, 4, lengths.of(Timer::T203(Service::Call, 0)));
    let at = put_number(out, at, 4, lengths.of(Timer::T201));
    put_number(out, at, 4, lengths.of(Timer::T202))
}
