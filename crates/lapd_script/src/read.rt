//! Reads a line of a script.

ghost use Rattle.std.specs.Prelude.{◌≡◌, ◌*◌, ◌/◌, ◌≤◌, ℕ, List, [], ◌∷◌, take, drop, length, codes, bytes_eq, All, Ok, Err, IfOk, MatchResult};
ghost use Rattle.lapd_script.specs.{texts, rx, into, meant_by, IsCounted, Rx, In, Failed, Pull, Ask};
ghost use Rattle.lapd_script.specs.Read.{read, read_words, read_as, duration, durations, four_durations, card_numbers, for_annex_b, for_sapi, for_terminal, for_user, is_user, line_of, more_numbers, nine_numbers, sapi_numbers, side_numbers, ten_numbers, three_numbers};

use crate::command::{Asked, Command, Durations};
use crate::kind::FaultKind;
use crate::values::{cause, number, octet, octets, short};
use crate::word::Word;
use crate::words::{is, none, one, three, two, words_of};
use lapd_frame::{Reading, Side};
use model_line::Config;

/// What a line of a script says, without its line feed.
///
/// The octets that a word of hexadecimal digits stands for are put into the beginning of `room`, and the command tells
/// how many they are; `room` has at least half as many places as the line has octets.
///
/// # Errors
///
/// The first that holds of `UnknownWord`, `BadNumberOfWords`, `BadNumber`, `BadOctets` and `BadCause`, which are what
/// can be wrong with a line by itself.
pub fn read_line(line: &[u8], room: &mut [u8]) -> Result<Command, FaultKind>
    requires room { length line.now ≤ 2 * length room.old }
    ensures read { meant_by room.new result ≡ read line.now }
    ensures counted { IfOk result (IsCounted (length room.new)) }
    // Behind as many places as a word of the line can fill, all stays.
    ensures rest { drop (length line.now / 2) room.new ≡ drop (length line.now / 2) room.old }
{
    if line.is_empty() || line[0] == b'#' {
        return Ok(Command::Skip);
    }
    let words = words_of(line);
    read_words(words.as_slice(), room)
}

/// What the words of a line say, of which those past the seventeenth may be left out.
fn read_words(words: &[&[u8]], room: &mut [u8]) -> Result<Command, FaultKind>
    requires room { All (λ word. length word.now ≤ 2 * length room.old) words.now }
    ensures read { (all : List (List ℕ)) → texts words.now ≡ take 17 all → meant_by room.new result ≡ read_words all }
    ensures counted { IfOk result (IsCounted (length room.new)) }
    ensures rest { (n : ℕ) → All (λ word. length word.now ≤ n) words.now → drop (n / 2) room.new ≡ drop (n / 2) room.old }
{
    let Some((name, words)) = words.split_first() else {
        return Err(FaultKind::UnknownWord);
    };
    match Word::named(name) {
        Some(word) => read_as(word, words, room),
        None => Err(FaultKind::UnknownWord),
    }
}

/// What the words after the first one say.
fn read_as(word: Word, words: &[&[u8]], room: &mut [u8]) -> Result<Command, FaultKind>
    requires room { All (λ word. length word.now ≤ 2 * length room.old) words.now }
    ensures read { meant_by room.new result ≡ read_as word (texts words.now) }
    ensures counted { IfOk result (IsCounted (length room.new)) }
    ensures rest { (n : ℕ) → All (λ word. length word.now ≤ n) words.now → drop (n / 2) room.new ≡ drop (n / 2) room.old }
{
    match word {
        Word::Card(kind) => Ok(Command::Card(kind, card_numbers(words)?)),
        Word::Rx => {
            let (line, octets) = heard(words, room)?;
            Ok(Command::Rx { line, octets })
        }
        Word::In => {
            let (line, octets) = heard(words, room)?;
            Ok(Command::In { line, octets })
        }
        Word::Failed => failed(words),
        Word::Next => Ok(Command::Next(line_of(words)?)),
        Word::Down => Ok(Command::Down(line_of(words)?)),
        Word::AskTei => Ok(Command::AskTei(line_of(words)?)),
        Word::Pull => pull(words),
        Word::Wait => Ok(Command::Wait(number(0, 3_600_000, one(words)?)?)),
        Word::Timers => Ok(Command::Timers(durations(words)?)),
        Word::Stored => {
            none(words)?;
            Ok(Command::Stored)
        }
        Word::Losses => {
            none(words)?;
            Ok(Command::Losses)
        }
        Word::Save => {
            none(words)?;
            Ok(Command::Save)
        }
        Word::Restore => {
            none(words)?;
            Ok(Command::Restore)
        }
        Word::Counters(group) => {
            let line = line_of(words)?;
            Ok(Command::Counters { line, group })
        }
        Word::Ask(what) => ask(what, words, room),
    }
}

/// LINE alone.
fn line_of(words: &[&[u8]]) -> Result<u16, FaultKind>
    ensures { result ≡ line_of (texts words.now) }
{
    short(one(words)?)
}

/// LINE, and the octets that come from it, of `rx` and of `in`.
#[tactic(auto, using(crate::proofs::Rests::second_kept))]
fn heard(words: &[&[u8]], room: &mut [u8]) -> Result<(u16, usize), FaultKind>
    requires room { All (λ word. length word.now ≤ 2 * length room.old) words.now }
    ensures rx { MatchResult result (λ of. read_as Rx (texts words.now) ≡ Ok (rx of.0 (take of.1 room.new))) (λ kind. read_as Rx (texts words.now) ≡ Err kind) }
    ensures frame { MatchResult result (λ of. read_as In (texts words.now) ≡ Ok (into of.0 (take of.1 room.new))) (λ kind. read_as In (texts words.now) ≡ Err kind) }
    ensures counted { IfOk result (λ of. of.1 ≤ length room.new) }
    ensures rest { (n : ℕ) → All (λ word. length word.now ≤ n) words.now → drop (n / 2) room.new ≡ drop (n / 2) room.old }
{
    let (line, digits) = two(words)?;
    let line = short(line)?;
    let octets = octets(digits, room)?;
    Ok((line, octets))
}

/// LINE and CAUSE.
fn failed(words: &[&[u8]]) -> Result<Command, FaultKind>
    ensures read { (buffer : List ℕ) → meant_by buffer result ≡ read_as Failed (texts words.now) }
    ensures counted { (room : ℕ) → IfOk result (IsCounted room) }
{
    let (line, name) = two(words)?;
    let line = short(line)?;
    let fault = cause(name)?;
    Ok(Command::Failed { line, fault })
}

/// LINE, and how many octets it takes.
fn pull(words: &[&[u8]]) -> Result<Command, FaultKind>
    ensures read { (buffer : List ℕ) → meant_by buffer result ≡ read_as Pull (texts words.now) }
    ensures counted { (room : ℕ) → IfOk result (IsCounted room) }
{
    let (line, count) = two(words)?;
    let line = short(line)?;
    let count = number(1, 4096, count)?;
    Ok(Command::Pull { line, count })
}

/// A request: LINE and TEI, and the octets that it carries.
fn ask(what: Asked, words: &[&[u8]], room: &mut [u8]) -> Result<Command, FaultKind>
    requires room { All (λ word. length word.now ≤ 2 * length room.old) words.now }
    ensures read { meant_by room.new result ≡ read_as (Ask what) (texts words.now) }
    ensures counted { IfOk result (IsCounted (length room.new)) }
    ensures rest { (n : ℕ) → All (λ word. length word.now ≤ n) words.now → drop (n / 2) room.new ≡ drop (n / 2) room.old }
{
    if what.carries_octets() {
        let (line, tei, digits) = three(words)?;
        let line = short(line)?;
        let tei = octet(tei)?;
        let octets = octets(digits, room)?;
        return Ok(Command::Ask {
            line,
            tei,
            what,
            octets,
        });
    }
    let (line, tei) = two(words)?;
    let line = short(line)?;
    let tei = octet(tei)?;
    Ok(Command::Ask {
        line,
        tei,
        what,
        octets: 0,
    })
}

/// How long T200, T203 and T201 run, and T202, which runs two seconds if it is left out.
fn durations(words: &[&[u8]]) -> Result<Durations, FaultKind>
    ensures read { result ≡ durations (texts words.now) }
{
    match words {
        [t200, t203, t201] => four_durations(t200, t203, t201, Ok(2_000)),
        [t200, t203, t201, t202] => four_durations(t200, t203, t201, duration(t202)),
        _ => Err(FaultKind::BadNumberOfWords),
    }
}

fn four_durations(
    t200: &[u8],
    t203: &[u8],
    t201: &[u8],
    t202: Result<u32, FaultKind>,
) -> Result<Durations, FaultKind>
    ensures { result ≡ four_durations t200.now t203.now t201.now t202 }
{
    Ok(Durations {
        t200: duration(t200)?,
        t203: duration(t203)?,
        t201: duration(t201)?,
        t202: t202?,
    })
}

/// How long a timer runs: a millisecond to an hour.
fn duration(word: &[u8]) -> Result<u32, FaultKind>
    ensures { result ≡ duration word.now }
{
    number(1, 3_600_000, word)
}

/// What a card line says after its first word; `annex-b` stands last if the tables are read by annex B.
fn card_numbers(words: &[&[u8]]) -> Result<Config, FaultKind>
    ensures read { result ≡ card_numbers (texts words.now) }
{
    let count = words.len();
    if count >= 1 && is_annex_b(words[count - 1]) {
        return for_annex_b(sapi_numbers(&words[..count - 1]));
    }
    sapi_numbers(words)
}

fn is_annex_b(word: &[u8]) -> bool
    ensures { result ≡ bytes_eq word.now (codes "annex-b") }
{
    is(word, b"annex-b")
}

/// The same by annex B.
fn for_annex_b(numbers: Result<Config, FaultKind>) -> Result<Config, FaultKind>
    ensures { result ≡ for_annex_b numbers }
{
    let mut numbers = numbers?;
    numbers.reading = Reading::AnnexB;
    Ok(numbers)
}

/// The numbers of a card line, and who it is on its lines if it is the user's side; and `sapi` with the SAPI of the second
/// service if that is not 16.
fn sapi_numbers(words: &[&[u8]]) -> Result<Config, FaultKind>
    ensures read { result ≡ sapi_numbers (texts words.now) }
{
    let count = words.len();
    if count >= 2 && is_sapi(words[count - 2]) {
        return for_sapi(side_numbers(&words[..count - 2]), words[count - 1]);
    }
    side_numbers(words)
}

fn is_sapi(word: &[u8]) -> bool
    ensures { result ≡ bytes_eq word.now (codes "sapi") }
{
    is(word, b"sapi")
}

/// The same with another SAPI.
fn for_sapi(numbers: Result<Config, FaultKind>, sapi: &[u8]) -> Result<Config, FaultKind>
    ensures { result ≡ for_sapi numbers sapi.now }
{
    let mut numbers = numbers?;
    numbers.sapi = short(sapi)?;
    Ok(numbers)
}

/// The nine or ten numbers of a card line. If the card is the user's side, `user` stands after them, and if it is a terminal,
/// then its seed.
fn side_numbers(words: &[&[u8]]) -> Result<Config, FaultKind>
    ensures read { result ≡ side_numbers (texts words.now) }
{
    match words.len() {
        10 => ten_words(&words[..9], words[9]),
        11 => eleven_words(&words[..9], words[9], words[10]),
        12 => twelve_words(&words[..9], words[9], words[10], words[11]),
        _ => nine_numbers(words),
    }
}

/// Nine numbers and a word: the window of packet links, or `user`.
fn ten_words(nine: &[&[u8]], last: &[u8]) -> Result<Config, FaultKind>
    ensures { result ≡ more_numbers (texts nine.now) (last.now ∷ []) }
{
    if is_user(last) {
        for_user(nine_numbers(nine))
    } else {
        ten_numbers(nine, last)
    }
}

/// Nine numbers and two words: the window of packet links and `user`, or `user` and the seed of a terminal.
fn eleven_words(nine: &[&[u8]], word: &[u8], last: &[u8]) -> Result<Config, FaultKind>
    ensures { result ≡ more_numbers (texts nine.now) (word.now ∷ last.now ∷ []) }
{
    if is_user(last) {
        for_user(ten_numbers(nine, word))
    } else if is_user(word) {
        for_terminal(nine_numbers(nine), last)
    } else {
        Err(FaultKind::BadNumberOfWords)
    }
}

/// Nine numbers and three words: the window of packet links, `user`, and the seed of a terminal.
fn twelve_words(nine: &[&[u8]], k16: &[u8], word: &[u8], last: &[u8]) -> Result<Config, FaultKind>
    ensures { result ≡ more_numbers (texts nine.now) (k16.now ∷ word.now ∷ last.now ∷ []) }
{
    if is_user(word) && !is_user(last) {
        for_terminal(ten_numbers(nine, k16), last)
    } else {
        Err(FaultKind::BadNumberOfWords)
    }
}

fn is_user(word: &[u8]) -> bool
    ensures { result ≡ is_user word.now }
{
    is(word, b"user")
}

/// The same of a card that is the user's side.
fn for_user(numbers: Result<Config, FaultKind>) -> Result<Config, FaultKind>
    ensures { result ≡ for_user numbers }
{
    let mut numbers = numbers?;
    numbers.side = Side::User;
    Ok(numbers)
}

/// The same of a card that is a terminal: its first reference number.
fn for_terminal(numbers: Result<Config, FaultKind>, seed: &[u8]) -> Result<Config, FaultKind>
    ensures { result ≡ for_terminal numbers seed.now }
{
    let mut numbers = for_user(numbers)?;
    numbers.seed = Some(short(seed)?);
    Ok(numbers)
}

/// Nine numbers, and the window of packet links.
fn ten_numbers(nine: &[&[u8]], k16: &[u8]) -> Result<Config, FaultKind>
    ensures { result ≡ ten_numbers (texts nine.now) k16.now }
{
    let mut numbers = nine_numbers(nine)?;
    numbers.k16 = short(k16)?;
    Ok(numbers)
}

/// Nine numbers, where the window of packet links is that of call control.
fn nine_numbers(words: &[&[u8]]) -> Result<Config, FaultKind>
    ensures read { result ≡ nine_numbers (texts words.now) }
{
    let [lines, teis, k, queue, units, control, slots, n201, n200] = words else {
        return Err(FaultKind::BadNumberOfWords);
    };
    let first = three_numbers(lines, teis, k)?;
    let second = three_numbers(queue, units, control)?;
    let third = three_numbers(slots, n201, n200)?;
    Ok(Config {
        lines: first.0,
        terminals: first.1,
        k: first.2,
        queue: second.0,
        unit_queue: second.1,
        control: second.2,
        slots: third.0,
        n201: third.1,
        n200: third.2,
        k16: first.2,
        ..Config::USUAL
    })
}

fn three_numbers(a: &[u8], b: &[u8], c: &[u8]) -> Result<(u16, u16, u16), FaultKind>
    ensures { result ≡ three_numbers a.now b.now c.now }
{
    Ok((short(a)?, short(b)?, short(c)?))
}
