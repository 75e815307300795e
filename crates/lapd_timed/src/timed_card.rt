//! A card with its timers, if it keeps its own.

ghost use Rattle.std.specs.Prelude.{◌≡◌, ◌⊎◌, ◌^◌, ◌<◌, ◌≤◌, ◌↔◌, [], true, false, None, Some, length, IfOk, IfErr, IfSome, IfNone, IsErr, OnErr, OnOk, option_map};
ghost use Rattle.lapd_card.specs.{answer_of_request, came, cause_of, gave_in, octets_of, pulled_of, request_of, told_beside, told_if_at, told_in, IsClear, IsQuiet};
ghost use Rattle.lapd_clock.specs.Given.{lengths_of};
ghost use Rattle.lapd_card.specs.Kinds.{card_in, config_of, frames_of, kind_of, line_count, AnyStands, Machine};
ghost use Rattle.model_card.specs.declared.kinds.CardKind.TheVariants.{Frames, Octets};
ghost use Rattle.model_bits.specs.Stream as stream;
ghost use Rattle.model_card.specs.Card.{Card, line_at};
ghost use Rattle.model_card.specs.Event.{at};
ghost use Rattle.model_card.specs.ports.Event as octet_event;
ghost use Rattle.model_card.specs.ports.Port as port;
ghost use Rattle.model_line.specs.Event as line_event;
ghost use Rattle.model_line.specs.Event.{told, hears, next};
ghost use Rattle.model_timed.specs.Changes.{Marks};
ghost use Rattle.model_timed.specs.Clock.{Clock, due, next_moment, with_lengths};
ghost use Rattle.model_timed.specs.Timed.{falls_due};
ghost use Rattle.lapd_image.specs.Puts.{Puts};
ghost use Rattle.lapd_timed.specs.Image.{AreAllMarks, StandsFor};
ghost use Rattle.lapd_timed.specs.Marked.{moment_in};
ghost use Rattle.model_image.specs.Images.{image_of, Saved};
ghost use Rattle.model_image.specs.Sound.{IsSaved};
ghost use Rattle.lapd_timed.specs.Places.{link_on, named_by};
ghost use Rattle.lapd_frame.specs.ShortLists.{listed};
ghost use Rattle.lapd_timed.specs.Stands.{moment_of, AreOfLines, ChangesStandIn, TimersStandIn};
ghost use Rattle.lapd_timed.specs.Kinds.{ports_of, room_of};

use crate::card_timers::{CardTimers, LAST_MOMENT};
use crate::saved::{MOST_LINES, save_card};
use crate::touches::{tei_of_frame, tei_of_heard, tei_of_request, tei_of_timer};
use crate::wrong_time::WrongTime;
use lapd_card::{AnyCard, BareReport, Fault, NextFrame, Pulled, Request, RoomTooSmall};
use lapd_clock::Lengths;
use lapd_frame::{Order, Refusal, Service, ShortList, Timer};

/// A card of either kind that keeps its own timers, or one that keeps none. Its calls are those of [`AnyCard`] and of the card of
/// its kind.
///
/// What happens to one that keeps its timers happens at the moment that it was told last, and what it orders of them is carried
/// out then. Of the orders in its answers nothing is left to do. No call says that a timer expired: what is due falls due by
/// [`TimedCard::fall_due`].
///
/// The timers of one that keeps none are its owner's, who carries out the orders in its answers, and says which timer expired
/// ([`TimedCard::expire`]). It has no moments, and nothing falls due.
#[derive(Debug, Drop)]
pub struct TimedCard {
    card: AnyCard,
    timers: Option<CardTimers>,
    ghost same_lines: { AreOfLines (line_count card) timers },
}

impl TimedCard {
    ghost use Rattle.lapd_card.specs.Called.{AnyCalled};
    ghost use Rattle.lapd_card.specs.Given.{GivenIn, NoRoom};
    ghost use Rattle.lapd_timed.specs.Carried.{AreCarriedOut, AreNoted, AreStillNoted};
    ghost use Rattle.lapd_timed.specs.Called.{keeps_timers, CalledOfBoth, CalledOfFrames, CalledOfOctets, Fell, FindsNone, Went};
    ghost use Rattle.lapd_timed.specs.TimedStands.{Steps};

    /// A card that has just begun, and the timers of it: of as many lines and terminals, none of which runs. With timers of
    /// fewer terminals nothing would start those that are missing, and few clauses speak of such a card.
    pub fn new(card: AnyCard, timers: CardTimers) -> TimedCard
        requires { timers.lines ≡ line_count card }
        ensures card { result.card ≡ card }
        ensures timers { result.timers ≡ Some timers }
    {
        TimedCard::of(card, Some(timers))
    }

    /// The same; or a card that keeps no timers.
    pub fn of(card: AnyCard, timers: Option<CardTimers>) -> TimedCard
        requires { AreOfLines (line_count card) timers }
        ensures card { result.card ≡ card }
        ensures timers { result.timers ≡ timers }
    {
        TimedCard { card, timers }
    }

    /// The card, for what it tells of itself.
    pub fn card(&self) -> &AnyCard
        ensures { result.now ≡ self.now.card }
    {
        &self.card
    }

    /// Whether it keeps its own timers.
    pub fn is_timed(&self) -> bool
        ensures { result ≡ keeps_timers self.now }
    {
        self.timers.is_some()
    }

    /// The moment, in milliseconds; 0 if it keeps no timers.
    pub fn now(&self) -> u64
        ensures { result ≡ moment_of self.now.timers }
    {
        match &self.timers {
            Some(timers) => timers.now(),
            None => 0,
        }
    }

    /// Writes its image into a room, from its front on, and answers how many octets it has. `waits` says of each line which links
    /// wait for room, as [`Restored`](crate::Restored) has it; if one is marked whose TEI is not on the line, no restore
    /// takes the image. What does not fit is left out; `image_octets` of `lapd_card` says how much room is enough.
    pub fn save(&self, waits: &[u16; MOST_LINES], out: &mut [u8]) -> usize
        ensures within { result ≤ length out.new }
        ensures puts { (s : Saved) → StandsFor self.now.card waits.now self.now.timers s → Puts (image_of s) 0 out.old result out.new }
        // And what stands there may be saved, if links wait only where there is a TEI: so a restore takes it.
        ensures saved { (s : Saved) → StandsFor self.now.card waits.now self.now.timers s → AreAllMarks s → IsSaved s }
    {
        match &self.timers {
            Some(timers) => {
                let at = save_card(&self.card, waits, true, out);
                timers.save(out, at)
            }
            None => save_card(&self.card, waits, false, out),
        }
    }

    /// Has timers that are started from now on run so long. Those that run keep their moments.
    pub fn set_lengths(&mut self, lengths: Lengths)
        ensures card { self.new.card ≡ self.old.card }
        ensures timed { keeps_timers self.new ≡ keeps_timers self.old }
        ensures after { (m : Card) (c : Clock) → TimersStandIn self.old.timers m c → TimersStandIn self.new.timers m (with_lengths (lengths_of lengths) c) }
        ensures noted { (m : Card) (marks : Marks) → ChangesStandIn self.old.timers m marks → ChangesStandIn self.new.timers m marks }
    {
        if let Some(timers) = &mut self.timers {
            timers.set_lengths(lengths);
        }
    }

    /// The time is now this moment, in milliseconds. Nothing changes if it keeps no timers.
    ///
    /// # Errors
    ///
    /// [`WrongTime`] if it is before the last moment ([`TimedCard::now`]), or from `2^63` on. Nothing has changed then.
    pub fn go_to(&mut self, moment: u64) -> Result<(), WrongTime>
        ensures refused { IsErr result ↔ ((moment < moment_of self.old.timers) ⊎ (2 ^ 63 ≤ moment)) }
        ensures unchanged { OnErr result (self.new ≡ self.old) }
        ensures went { OnOk result (Went moment self.old self.new) }
    {
        let Some(timers) = &mut self.timers else {
            return if moment > LAST_MOMENT {
                Err(WrongTime)
            } else {
                Ok(())
            };
        };
        if timers.go_to(moment) {
            Ok(())
        } else {
            Err(WrongTime)
        }
    }

    /// The time is now this moment, if it may be, and none is due then, as is known without a look. Whether it is so; if not,
    /// nothing changes. It never is so of a card that keeps no timers.
    #[inline(always)]
    pub fn pass(&mut self, moment: u64) -> bool
        ensures passed { result ≡ true → FindsNone moment self.old self.new }
        ensures stays { result ≡ false → self.new ≡ self.old }
    {
        match &mut self.timers {
            Some(timers) => timers.pass(moment),
            None => false,
        }
    }

    /// What is due first, if anything is: it expires, and the report tells what this led to. The answer is which timer of which
    /// line it was; none if none is due, or it keeps no timers, and then nothing changes.
    pub fn fall_due(&mut self, report: &mut BareReport) -> Option<(usize, Timer)>
        requires clear { IsClear report.old }
        ensures due { (m : Card) (c : Clock) → TimersStandIn self.old.timers m c → result ≡ option_map named_by (due c) }
        ensures without { self.old.timers ≡ None → result ≡ None }
        ensures timed { keeps_timers self.new ≡ keeps_timers self.old }
        ensures fell { IfSome result (λ d. Fell d report.new self.old.card self.new.card) }
        ensures after { Steps falls_due falls_due self.old self.new }
        ensures none { IfNone result ((self.new ≡ self.old) × (report.new ≡ report.old)) }
    {
        let Some(timers) = &mut self.timers else {
            return None;
        };
        let Some((line, timer)) = timers.due() else {
            return None;
        };
        self.card.expire(line, timer, report);
        self.carry_out(line, report.orders());
        self.note(line, tei_of_timer(timer));
        Some((line, timer))
    }

    /// The moment, in milliseconds, of the timer that falls due first, due or not, and `None` if no timer runs, or it keeps none.
    pub fn next_moment(&mut self) -> Option<u64>
        ensures next { (m : Card) (c : Clock) → TimersStandIn self.old.timers m c → result ≡ next_moment c }
        ensures without { self.old.timers ≡ None → result ≡ None }
        ensures unchanged { self.new ≡ self.old }
    {
        match &mut self.timers {
            Some(timers) => timers.next_moment(),
            None => None,
        }
    }

    /// The moment, in milliseconds, at which the state of a link changed last; 0 if before a moment was told. There are states 4
    /// to 8, and that its TEI is not on the line counts as one more. So its coming is a change. The answer is `None` where
    /// the TEI is not on the line, or no timers are kept.
    pub fn changed_at(&self, line: usize, service: Service, tei: u8) -> Option<u64>
        requires within { line < line_count self.now.card }
        ensures changed { (m : Machine) (marks : Marks) → AnyStands self.now.card m → ChangesStandIn self.now.timers (card_in m) marks
            → result ≡ option_map (moment_in marks line) (link_on service tei (line_at line (card_in m))) }
        ensures without { self.now.timers ≡ None → result ≡ None }
    {
        match &self.timers {
            Some(timers) => timers.changed_at(self.card.frames(), line, service, tei),
            None => None,
        }
    }

    /// A timer of a line expired, of a card whose timers are its owner's.
    pub fn expire(&mut self, line: usize, timer: Timer, report: &mut BareReport)
        requires timers { self.old.timers ≡ None }
        requires within { line < line_count self.old.card }
        requires clear { IsClear report.old }
        ensures called { AnyCalled (at line (line_event.expiry timer)) (told (told_beside None report.new)) self.old.card self.new.card }
        ensures timers { self.new.timers ≡ None }
    {
        self.card.expire(line, timer, report);
    }

    /// Serves a request of layer 3 or management at a line.
    ///
    /// # Errors
    ///
    /// Those of [`AnyCard::request`]. Nothing has changed then.
    #[inline(always)]
    pub fn request(
        &mut self,
        line: usize,
        request: Request<'_>,
        report: &mut BareReport,
    ) -> Result<(), Refusal>
        requires within { line < line_count self.old.card }
        requires clear { IsClear report.old }
        ensures called { CalledOfBoth (octet_event.at line (port.request (request_of request.entry))) (at line (line_event.request (request_of request.entry)))
            (answer_of_request result report.new) self.old self.new }
        ensures untold { OnErr result (report.new ≡ report.old) }
    {
        let touched = tei_of_request(&request);
        self.card.request(line, request, report)?;
        self.carry_out(line, report.orders());
        if let Some(tei) = touched {
            self.note(line, tei);
        }
        Ok(())
    }

    /// Takes an octet that came from a line of a card of octets, as `Card::hear` does; none is answered where it ended nothing.
    #[inline(always)]
    pub fn hear(&mut self, line: usize, octet: u8) -> Option<BareReport>
        requires kind { kind_of self.old.card ≡ Octets }
        requires within { line < line_count self.old.card }
        ensures called { CalledOfOctets (octet_event.at line (port.octet octet)) (port.told (told_if_at (ports_of self.new.card) line result)) self.old self.new }
    {
        let AnyCard::Octets(card) = &mut self.card else {
            unreachable!();
        };
        match card.hear(line, octet) {
            Some(report) => {
                let tei = tei_of_heard(card.ended(line));
                self.carry_out(line, report.orders());
                self.note(line, tei);
                Some(report)
            }
            None => None,
        }
    }

    /// Gives the next octet of a line of a card of octets, as `Card::pull` does.
    #[inline(always)]
    pub fn pull(&mut self, line: usize) -> Pulled
        requires kind { kind_of self.old.card ≡ Octets }
        requires within { line < line_count self.old.card }
        ensures called { CalledOfOctets (octet_event.at line port.pull) (pulled_of result) self.old self.new }
    {
        let AnyCard::Octets(card) = &mut self.card else {
            unreachable!();
        };
        let pulled = card.pull(line);
        self.carry_out(line, pulled.orders());
        pulled
    }

    /// Takes a frame that came from a line of a card of frames, as [`FrameCard::frame`](lapd_card::FrameCard::frame) does. If
    /// the answer is true, the report tells nothing but orders for timers, which have been carried out.
    #[inline(always)]
    pub fn frame(&mut self, line: usize, octets: &[u8], report: &mut BareReport) -> bool
        requires kind { kind_of self.old.card ≡ Frames }
        requires within { line < line_count self.old.card }
        requires clear { IsClear report.old }
        ensures called { CalledOfFrames (at line (hears (came (config_of self.old.card).n201 octets.now)))
            (told (told_in (octets_of (Some (came (config_of self.old.card).n201 octets.now))) report.new)) self.old self.new }
        ensures quiet { result ≡ true → IsQuiet report.new }
    {
        let AnyCard::Frames(card) = &mut self.card else {
            unreachable!();
        };
        let is_quiet = card.frame(line, octets, report);
        self.carry_out_list(line, &report.orders);
        self.note(line, tei_of_frame(octets));
        is_quiet
    }

    /// The controller of a line of a card of frames told a fault in place of a frame, as
    /// [`FrameCard::failed`](lapd_card::FrameCard::failed) has it.
    pub fn failed(&mut self, line: usize, fault: Fault, report: &mut BareReport)
        requires kind { kind_of self.old.card ≡ Frames }
        requires within { line < line_count self.old.card }
        requires clear { IsClear report.old }
        ensures called { CalledOfFrames (at line (hears (stream.dropped (cause_of fault)))) (told (told_beside None report.new)) self.old self.new }
    {
        let AnyCard::Frames(card) = &mut self.card else {
            unreachable!();
        };
        card.failed(line, fault, report);
        self.carry_out(line, report.orders());
    }

    /// Writes the next frame to be sent on a line of a card of frames in front of `out`, as
    /// [`FrameCard::next_frame`](lapd_card::FrameCard::next_frame) does.
    ///
    /// # Errors
    ///
    /// [`RoomTooSmall`] where `out` is shorter than `FrameCard::frame_room` says. Nothing has changed then.
    #[inline(always)]
    pub fn next_frame(
        &mut self,
        line: usize,
        out: &mut [u8],
    ) -> Result<Option<NextFrame>, RoomTooSmall>
        requires kind { kind_of self.old.card ≡ Frames }
        requires within { line < line_count self.old.card }
        ensures called { IfOk result (λ given. CalledOfFrames (at line next) (gave_in out.new given) self.old self.new) }
        ensures given { IfOk result (λ given. GivenIn (room_of self.old.card) given out.old out.new) }
        ensures refused { IfErr result (λ fault. NoRoom (room_of self.old.card) fault self.old self.new out.old out.new) }
        ensures none { IfOk result (λ given. IfNone given (self.new.timers ≡ self.old.timers)) }
    {
        let AnyCard::Frames(card) = &mut self.card else {
            unreachable!();
        };
        let given = card.next_frame(line, out)?;
        if let Some(next) = &given {
            self.carry_out_list(line, &next.order_list());
        }
        Ok(given)
    }

    /// Carries out what the card has ordered at a line. Mostly it orders nothing.
    #[inline(always)]
    fn carry_out(&mut self, line: usize, orders: &[Order])
        ensures card { self.new.card ≡ self.old.card }
        ensures carried { AreCarriedOut (frames_of self.old.card) line orders.now self.old.timers self.new.timers }
        ensures none { orders.now ≡ [] → self.new.timers ≡ self.old.timers }
        ensures still { AreStillNoted self.old.timers self.new.timers }
    {
        if orders.is_empty() {
            return;
        }
        if let Some(timers) = &mut self.timers {
            timers.obey(self.card.frames(), line, orders);
        }
    }

    /// The same, of the orders as a report has them. They are copied here, so they lie in memory only if there are some.
    #[inline(always)]
    fn carry_out_list(&mut self, line: usize, orders: &ShortList<Order>)
        ensures card { self.new.card ≡ self.old.card }
        ensures carried { AreCarriedOut (frames_of self.old.card) line (listed orders.now) self.old.timers self.new.timers }
        ensures still { AreStillNoted self.old.timers self.new.timers }
    {
        if matches!(orders, ShortList::None) {
            return;
        }
        if let Some(timers) = &mut self.timers {
            let orders = *orders;
            timers.obey_list(self.card.frames(), line, &orders);
        }
    }

    /// Notes the states of the links that an event may have changed: those of a TEI, or of all where it is the group's.
    #[inline(always)]
    fn note(&mut self, line: usize, tei: u8)
        requires { line < line_count self.old.card }
        ensures card { self.new.card ≡ self.old.card }
        ensures noted { AreNoted (frames_of self.old.card) line tei self.old.timers self.new.timers }
    {
        if let Some(timers) = &mut self.timers {
            timers.note(self.card.frames(), line, tei);
        }
    }
}
