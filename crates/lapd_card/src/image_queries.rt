//! What the owner of a card asks beside its events: its configuration, how long its image is, which TEIs and timers are at the
//! places of a line, and in which states its links are.

ghost use Rattle.std.specs.Prelude.{◌≡◌, ◌<◌, option_to_list, IfSome};
ghost use Rattle.lapd_card.specs.Kinds.{config_of};
ghost use Rattle.lapd_card.specs.Running.{own_timers, states_at};
ghost use Rattle.model_card.specs.Card as machine;
ghost use Rattle.model_card.specs.Card.{line_at};
ghost use Rattle.model_line.specs.Image.{timer_numbered};
ghost use Rattle.model_line.specs.Most.{most_octets};
ghost use Rattle.model_line.specs.Line.{link_count, tei_at};
ghost use Rattle.model_line.specs.Sound.{IsInRange};

use crate::frame_card::FrameCard;
use crate::kinds::AnyCard;
use lapd_frame::Timer;
use lapd_line::Config;
use lapd_store::Shelf;

impl AnyCard {
    /// How many octets an image of this card takes at most; a `timed` one has timers of its own.
    pub fn image_octets(&self, timed: bool) -> usize
        ensures { result ≡ most_octets (config_of self.now) timed }
    {
        crate::saved::image_octets(self.frames().config(), timed)
    }
}

impl<S: Shelf> FrameCard<S> {
    ghost use Rattle.lapd_card.specs.FrameCard.{line_count};
    ghost use Rattle.lapd_card.specs.FrameStands.{FrameStands};

    /// The configuration with which it began.
    pub fn config(&self) -> &Config
        ensures config { result.now ≡ self.now.config }
        ensures range { IsInRange result.now }
    {
        &self.config
    }

    /// The timer that a link of a line runs, T200 or T203, by the number of the link: twice the place of its TEI, and 1 more for
    /// packet mode. None is answered where it runs none, or no TEI is at its place.
    pub fn timer(&self, line: usize, number: usize) -> Option<Timer>
        requires { line < line_count self.now }
        ensures { (m : machine.Card) → FrameStands S.store self.now m → number < link_count m.config
            → option_to_list result ≡ timer_numbered (line_at line m) number }
    {
        self.lines[line].timer(number)
    }

    /// The timer that a line itself runs, T201 or at a terminal T202, if it runs it.
    pub fn own_timer(&self, line: usize) -> Option<Timer>
        requires { line < line_count self.now }
        ensures { (m : machine.Card) → FrameStands S.store self.now m → option_to_list result ≡ own_timers (line_at line m) }
    {
        self.lines[line].own_timer()
    }

    /// The TEI at a place of a line, in the table of the line's TEIs; none where the place is free, or the table has no
    /// such place.
    pub fn tei_at(&self, line: usize, place: usize) -> Option<u8>
        requires { line < line_count self.now }
        ensures is { (m : machine.Card) → FrameStands S.store self.now m → result ≡ tei_at place (line_at line m) }
        ensures few { IfSome result (λ tei. tei < 127) }
    {
        self.lines[line].tei_at(place)
    }

    /// The states of the two links of the TEI at a place of a line, that of call control first, by their numbers in Q.921: 4 to
    /// 8. None where the place is free, or the table has no such place.
    #[inline(always)]
    pub fn states_at(&self, line: usize, place: usize) -> Option<(u8, u8)>
        requires { line < line_count self.now }
        ensures { (m : machine.Card) → FrameStands S.store self.now m → result ≡ states_at place (line_at line m) }
    {
        self.lines[line].states_at(place)
    }
}
