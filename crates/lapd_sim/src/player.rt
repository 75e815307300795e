//! Plays a script on a card.

ghost use Rattle.std.specs.Prelude.{◌≡◌, ◌≤◌, ◌<◌, ℕ, List, [], Some, None, Option, length, vec_len, IfOk, IsTrue};
ghost use Rattle.lapd_sim.specs.{meant, without_card, reads_failed_by, writes_failed_by, Does, StartsBy, said, PutsNone, PutsSome, Reaches, is_cut, AreLeft, on, Output, Has};
ghost use Rattle.lapd_sim.specs.Plays.{Plays, PlaysOn};
ghost use Rattle.lapd_sim.specs.machine.Setup as machine;

use crate::parts::Plan;
use crate::setup::{Obeyed, Setup};
use lapd_script::{Command, FaultKind, LineFault, PlayFault, ScriptLines, read_line};
use lapd_transcript::{Page, Source, Target, WriteFailed};
use std::alloc::{AllocError, Global};

/// As many octets as one line of a script can have pulled: more than it can bring.
const ROOM: usize = 4096;

/// Plays the script that `source` gives on a card, and writes the transcript to `target`. It writes the answer of each
/// line before more is read than that line needs (no clause says when; it is tested). It ends with the script, or with the
/// first fault; what the lines before the fault brought has been written by then.
///
/// All memory is taken at the start, at the card line and at `restore`: if it is refused nothing has been read, or the line
/// that starts the card is the one that is answered.
#[tactic(auto, using(crate::proofs::Ending::same_target))]
pub fn play<S: Source, T: Target>(
    alloc: Global,
    source: &mut S,
    target: &mut T,
) -> Result<(), PlayFault>
    ensures reads { S.failures source.new ≡ reads_failed_by result (S.failures source.old) }
    ensures writes { (T.taken target.new).failures ≡ writes_failed_by result (T.taken target.old).failures }
    // Where the source tells what it will still give, that is the script, and this has been written.
    ensures played { (text : List ℕ) → S.remaining source.old ≡ Some text
        → Plays result text (S.remaining source.new) (T.taken target.old) (T.taken target.new) }
{
    let mut lines = ScriptLines::start(alloc)?;
    let mut player = Player::start(alloc)?;
    let mut page = Page::new(target);
    let played = player.play(&mut lines, source, &mut page);
    end(&mut page, played)
}

/// What stands on the page goes out at the end of a script, whatever its end. Before a read it has gone out already, and
/// after a failed write nothing more does.
fn end<T: Target>(page: &mut Page<T>, played: Result<(), PlayFault>) -> Result<(), PlayFault>
    ensures same { (on T.taken page.new).name ≡ (on T.taken page.old).name }
    ensures reads { (count : ℕ) → reads_failed_by result count ≡ reads_failed_by played count }
    ensures writes { (before : Output) → before.page ≡ [] → PutsSome played before (on T.taken page.old)
        → (on T.taken page.new).taken.failures ≡ writes_failed_by result before.taken.failures }
    ensures played { (before : Output) (text : List ℕ) (remaining : Option (List ℕ)) → before.page ≡ []
        → PutsSome played before (on T.taken page.old) → PlaysOn played text remaining before (on T.taken page.old)
        → Plays result text remaining before.taken (on T.taken page.new).taken }
{
    if is_cut(played) {
        return played;
    }
    match page.send() {
        Ok(()) => played,
        Err(WriteFailed) => Err(PlayFault::Write),
    }
}

/// Whether a read or a write failed.
fn is_cut(played: Result<(), PlayFault>) -> bool
    ensures { result ≡ is_cut played }
{
    matches!(played, Err(PlayFault::Read | PlayFault::Write))
}

/// Goes on to the next line, and tells whether there is one. What stands on the page goes out before more is read.
fn advance<S: Source, T: Target>(
    lines: &mut ScriptLines,
    source: &mut S,
    page: &mut Page<T>,
) -> Result<bool, PlayFault>
    ensures reads { S.failures source.new ≡ reads_failed_by result (S.failures source.old) }
    ensures put { PutsNone result (on T.taken page.old) (on T.taken page.new) }
    ensures goes_on { IfOk result (λ more. IsTrue more → lines.old.octets < lines.new.octets) }
    ensures read { (text : List ℕ) → AreLeft lines.old (S.remaining source.old) text
        → Reaches result lines.old lines.new (S.remaining source.new) text }
{
    match lines.ready() {
        Ok(true) => return Ok(true),
        Ok(false) => {}
        Err(fault) => return Err(fault),
    }
    match page.send() {
        Ok(()) => lines.advance(source),
        Err(WriteFailed) => Err(PlayFault::Write),
    }
}

/// What obeys the lines of a script.
#[derive(Drop)]
struct Player {
    alloc: Global,
    /// The octets that the line brings, or has pulled.
    octets: Vec<u8>,
    setup: Option<Setup>,
    ghost room: { vec_len octets ≡ 4096 },
}

impl Player {
    fn start(alloc: Global) -> Result<Player, AllocError>
        ensures { IfOk result (λ player. player.setup ≡ None) }
    {
        Ok(Player {
            alloc,
            octets: vec![in alloc; 0; ROOM]?,
            setup: None,
        })
    }

    /// Plays the lines, and puts the transcript onto the page.
    fn play<S: Source, T: Target>(
        &mut self,
        lines: &mut ScriptLines,
        source: &mut S,
        page: &mut Page<T>,
    ) -> Result<(), PlayFault>
        requires none { self.old.setup ≡ None }
        requires number { lines.old.number ≡ 0 }
        requires octets { lines.old.octets ≡ 0 }
        ensures reads { S.failures source.new ≡ reads_failed_by result (S.failures source.old) }
        ensures put { PutsSome result (on T.taken page.old) (on T.taken page.new) }
        ensures played { (text : List ℕ) → AreLeft lines.old (S.remaining source.old) text
            → PlaysOn result text (S.remaining source.new)
            (on T.taken page.old) (on T.taken page.new) }
    {
        loop {
            match advance(lines, source, page) {
                Ok(true) => {}
                Ok(false) => return Ok(()),
                Err(fault) => return Err(fault),
            }
            if let Err(fault) = self.obey(lines.line(), page) {
                return Err(fault.at(lines.number()));
            }
        }
    }

    /// Obeys one line.
    fn obey<T: Target>(&mut self, line: &[u8], page: &mut Page<T>) -> Obeyed
        requires short { length line.now ≤ 4096 }
        requires stands { (m : Option machine.Setup) × Has self.old.setup m }
        ensures { (m : Option machine.Setup) → Has self.old.setup m
            → Does result (on T.taken page.old) (on T.taken page.new) line.now
            m (Has self.new.setup) (said line.now m) }
    {
        let command = match read_line(line, self.octets.as_mut_slice()) {
            Ok(command) => command,
            Err(kind) => return Err(LineFault::Faulty(kind)),
        };
        match &mut self.setup {
            Some(setup) => setup.obey(command, self.octets.as_mut_slice(), page),
            None => {
                self.setup = without_card(self.alloc, command)?;
                Ok(())
            }
        }
    }
}

/// Obeys a line if there is no card yet: it starts one, or needs one.
fn without_card(alloc: Global, command: Command) -> Result<Option<Setup>, LineFault>
    ensures { (buffer : List ℕ) → StartsBy result (without_card (meant buffer command)) }
{
    match command {
        Command::Skip => Ok(None),
        Command::Card(kind, config) => Ok(Some(Setup::start(alloc, Plan { kind, config })?)),
        _ => Err(LineFault::Faulty(FaultKind::NoCard)),
    }
}
