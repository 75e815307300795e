//! What a script is played on, and how it obeys the lines of the script.

ghost use Rattle.std.specs.Prelude.{◌≡◌, ◌≢◌, ◌<◌, ◌≤◌, ◌^◌, length, true, vec_len, MatchResult};
ghost use Rattle.lapd_card.specs.Kinds.{config_of, kind_of};
ghost use Rattle.lapd_script.specs.Meaning as meaning;
ghost use Rattle.model_card.specs.declared.kinds.CardKind.TheVariants.{Frames, Octets};
ghost use Rattle.lapd_sim.specs.machine.Setup as machine;
ghost use Rattle.model_line.specs.Most.{most_octets};
ghost use Rattle.model_line.specs.Sound.{IsInRange};

use crate::exchange::{tell, written};
use crate::images::room_for_images;
use crate::parts::{Plan, begin, lengths_of, listeners, request_for, terminals};
use lapd_bits::Deframer;
use lapd_card::{AnyCard, BareReport, Config, Fault, Request, limit};
use lapd_clock::Lengths;
use lapd_script::{Asked, Command, Durations, FaultKind, LineFault};
use lapd_timed::{CardTimers, TimedCard};
use lapd_transcript::{CounterGroup, LONGEST_FRAME, Page, SHORTEST_FRAME, Target, Terminal};
use std::alloc::Global;

/// A line of a script was obeyed, or why it was not.
pub(crate) type Obeyed = Result<(), LineFault>;

/// A card that keeps its own timers. For each line it has the terminal that sends, and what listens to the octets that are
/// pulled.
#[derive(Drop)]
pub(crate) struct Setup {
    pub(crate) config: Config,
    pub(crate) timed: TimedCard,
    terminals: Vec<Terminal>,
    listeners: Vec<Deframer>,
    /// Whether it is shown how many contents are given up.
    pub(crate) losses: bool,
    pub(crate) alloc: Global,
    /// Where images of the card are written.
    pub(crate) image: Vec<u8>,
    ghost in_range: { IsInRange config },
    ghost same_config: { config_of timed.card ≡ config },
    ghost each_sends: { vec_len terminals ≡ config.lines },
    ghost each_listens: { vec_len listeners ≡ config.lines },
    ghost image_room: { most_octets config true < vec_len image },
    ghost image_few: { vec_len image < 2 ^ 32 },
}

impl Setup {
    ghost use Rattle.lapd_sim.specs.{Answers, AnswersLine, BadLine, Begins, Output, WrongCard, on};
    ghost use Rattle.lapd_sim.specs.Stands.{SetupStands};

    /// A card as a card line has it begin, at which nothing has happened.
    pub(crate) fn start(alloc: Global, plan: Plan) -> Result<Setup, LineFault>
        ensures { Begins result plan.kind plan.config SetupStands }
    {
        let board = begin(alloc, plan)?;
        let lines = usize::from(plan.config.lines);
        let timers = CardTimers::start(
            alloc,
            lines,
            plan.config.terminals.into(),
            Lengths::standard(),
        )?;
        let terminals = terminals(alloc, lines)?;
        let listeners = listeners(alloc, lines)?;
        let image = room_for_images(alloc, &plan.config)?;
        Ok(Setup {
            config: plan.config,
            timed: TimedCard::new(board, timers),
            terminals,
            listeners,
            losses: false,
            alloc,
            image,
        })
    }

    /// Obeys a line of a script. The octets that it brings stand at the beginning of `room`.
    #[tactic(auto, using(crate::proofs::Playing::takes_none))]
    pub(crate) fn obey<T: Target>(
        &mut self,
        command: Command,
        room: &mut [u8],
        page: &mut Page<T>,
    ) -> Obeyed
        requires counted { meaning.IsCounted (length room.old) command }
        requires room { 4096 ≤ length room.old }
        requires stands { (m : machine.Setup) × SetupStands self.old m }
        ensures { AnswersLine result self.old self.new (on T.taken page.old) (on T.taken page.new) (meaning.meant room.old command) }
    {
        match command {
            Command::Skip => Ok(()),
            Command::Card(_, _) => Err(LineFault::Faulty(FaultKind::SecondCard)),
            Command::Rx { line, octets } => self.receive(line, &room[..octets], page),
            Command::In { line, octets } => self.come(line, &room[..octets], page),
            Command::Failed { line, fault } => self.fail(line, fault, page),
            Command::Next(line) => self.take(line, room, page),
            Command::Down(line) => self.bring_down(line, room, page),
            Command::AskTei(line) => self.ask_for_tei(line, page),
            Command::Pull { line, count } => self.pull(line, count as usize, room, page),
            Command::Wait(milliseconds) => self.wait(milliseconds, page),
            Command::Timers(durations) => self.set_timers(durations),
            Command::Stored => {
                written(page.put_stored(self.timed.card().stored(), limit(&self.config)))
            }
            Command::Losses => self.show_losses(),
            Command::Save => self.show_image(page),
            Command::Restore => self.restore(),
            Command::Counters { line, group } => self.show_counters(line, group, page),
            Command::Ask {
                line,
                tei,
                what,
                octets,
            } => self.ask_for(line, tei, what, &room[..octets], page),
        }
    }

    /// Tests that the card is one for octets.
    fn for_octets(&self) -> Result<(), FaultKind>
        ensures { MatchResult result (λ _. kind_of self.now.timed.card ≡ Octets)
            (λ fault. (fault ≡ WrongCard) × (kind_of self.now.timed.card ≢ Octets)) }
    {
        match self.timed.card() {
            AnyCard::Octets(_) => Ok(()),
            AnyCard::Frames(_) => Err(FaultKind::WrongCard),
        }
    }

    /// Tests that the card is one for frames.
    pub(crate) fn for_frames(&self) -> Result<(), FaultKind>
        ensures { MatchResult result (λ _. kind_of self.now.timed.card ≡ Frames)
            (λ fault. (fault ≡ WrongCard) × (kind_of self.now.timed.card ≢ Frames)) }
    {
        match self.timed.card() {
            AnyCard::Frames(_) => Ok(()),
            AnyCard::Octets(_) => Err(FaultKind::WrongCard),
        }
    }

    /// The number of a line of the card.
    fn line(&self, line: u16) -> Result<usize, FaultKind>
        ensures { MatchResult result (λ number. (number ≡ line) × (number < self.now.config.lines))
            (λ kind. (kind ≡ BadLine) × (self.now.config.lines ≤ line)) }
    {
        if line < self.config.lines {
            Ok(line.into())
        } else {
            Err(FaultKind::BadLine)
        }
    }

    /// Octets come from a line.
    fn receive<T: Target>(&mut self, line: u16, octets: &[u8], page: &mut Page<T>) -> Obeyed
        ensures { Answers result self.old self.new (on T.taken page.old) (on T.taken page.new) (meaning.rx line octets.now) }
    {
        self.for_octets()?;
        let line = self.line(line)?;
        written(self.hear(line, octets, page))
    }

    /// A frame comes from a line. At a card of octets the terminal of the line sends it, up to and with the last bit of its
    /// closing flag.
    fn come<T: Target>(&mut self, line: u16, frame: &[u8], page: &mut Page<T>) -> Obeyed
        ensures { Answers result self.old self.new (on T.taken page.old) (on T.taken page.new) (meaning.into line frame.now) }
    {
        let line = self.line(line)?;
        match self.timed.card() {
            AnyCard::Frames(_) => {
                let mut report = BareReport::nothing();
                self.timed.frame(line, frame, &mut report);
                let contents = self.timed.card().frames().contents(line, frame, &report);
                written(tell(line, self.losses, None, &report, contents, page))
            }
            AnyCard::Octets(_) => {
                if frame.len() < SHORTEST_FRAME || frame.len() > LONGEST_FRAME {
                    return Err(LineFault::Faulty(FaultKind::BadFrame));
                }
                let octets = self.terminals[line].send(frame);
                written(self.hear(line, octets.as_slice(), page))
            }
        }
    }

    /// The controller of a line tells a fault in place of a frame.
    fn fail<T: Target>(&mut self, line: u16, fault: Fault, page: &mut Page<T>) -> Obeyed
        ensures { Answers result self.old self.new (on T.taken page.old) (on T.taken page.new) (meaning.failed line fault) }
    {
        self.for_frames()?;
        let line = self.line(line)?;
        let mut report = BareReport::nothing();
        self.timed.failed(line, fault, &mut report);
        written(tell(line, self.losses, None, &report, None, page))
    }

    /// A line takes the next frame, which is put into the beginning of `room`: there is room for each frame that a card has.
    fn take<T: Target>(&mut self, line: u16, room: &mut [u8], page: &mut Page<T>) -> Obeyed
        requires { 264 ≤ length room.old }
        ensures { Answers result self.old self.new (on T.taken page.old) (on T.taken page.new) (meaning.next line) }
    {
        self.for_frames()?;
        let number = self.line(line)?;
        match self.timed.next_frame(number, room) {
            Ok(Some(next)) => written(page.put_frame(line, &room[..next.length])),
            Ok(None) => written(page.put_nothing(line)),
            Err(_) => unreachable!(),
        }
    }

    /// A line is down: its links are given up, and all that waits on it. The TEIs that are on it are put into the beginning of
    /// `room` meanwhile.
    fn bring_down<T: Target>(&mut self, line: u16, room: &mut [u8], page: &mut Page<T>) -> Obeyed
        requires { 127 ≤ length room.old }
        ensures { Answers result self.old self.new (on T.taken page.old) (on T.taken page.new) (meaning.down line) }
    {
        let line = self.line(line)?;
        let count = self.teis_on(line, room);
        written(self.give_up(line, &room[..count], page))
    }

    /// A line takes so many octets, which are put into the beginning of `room`.
    fn pull<T: Target>(
        &mut self,
        line: u16,
        count: usize,
        room: &mut [u8],
        page: &mut Page<T>,
    ) -> Obeyed
        requires { count ≤ length room.old }
        ensures { Answers result self.old self.new (on T.taken page.old) (on T.taken page.new) (meaning.pull line count) }
    {
        self.for_octets()?;
        let number = self.line(line)?;
        let octets = &mut room[..count];
        self.pull_all(number, octets);
        written(page.tell(&mut self.listeners[number], line, octets))
    }

    /// Timers that are started from now on run so long; each has to run a millisecond to an hour.
    fn set_timers(&mut self, durations: Durations) -> Obeyed
        ensures { (before : Output) → Answers result self.old self.new before before (meaning.timers durations) }
    {
        let Ok(lengths) = lengths_of(durations) else {
            return Err(LineFault::Faulty(FaultKind::BadNumber));
        };
        self.timed.set_lengths(lengths);
        Ok(())
    }

    /// From now on it is shown how many contents are given up.
    fn show_losses(&mut self) -> Obeyed
        ensures { (before : Output) → Answers result self.old self.new before before meaning.losses }
    {
        self.losses = true;
        Ok(())
    }

    /// Shows what was counted of a line.
    fn show_counters<T: Target>(&self, line: u16, group: CounterGroup, page: &mut Page<T>) -> Obeyed
        ensures { Answers result self.now self.now (on T.taken page.old) (on T.taken page.new) (meaning.counters line group) }
    {
        let counters = self.timed.card().frames().counters(self.line(line)?);
        written(page.put_counters(line, group, counters))
    }

    /// Layer 3 asks for something, with the octets that it carries.
    fn ask_for<T: Target>(
        &mut self,
        line: u16,
        tei: u8,
        what: Asked,
        octets: &[u8],
        page: &mut Page<T>,
    ) -> Obeyed
        ensures { Answers result self.old self.new (on T.taken page.old) (on T.taken page.new) (meaning.ask line tei what octets.now) }
    {
        let line = self.line(line)?;
        written(self.ask(line, request_for(what, tei, octets), page))
    }

    /// A terminal asks for a TEI.
    fn ask_for_tei<T: Target>(&mut self, line: u16, page: &mut Page<T>) -> Obeyed
        ensures { Answers result self.old self.new (on T.taken page.old) (on T.taken page.new) (meaning.ask_tei line) }
    {
        let line = self.line(line)?;
        written(self.ask(line, Request::AskTei, page))
    }
}
