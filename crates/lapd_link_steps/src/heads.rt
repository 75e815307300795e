//! What an image of a card has of a link before its contents.

ghost use Rattle.std.specs.Prelude.{◌≡◌, ◌↔◌, ◌⊎◌, ℕ, ◌<◌, ◌≤◌, [], ◌++◌, length, All, Bool, IsTrue, Option, IfOk, OnOk, OnErr};
ghost use Rattle.lapd_image.specs.Numbers.{number};
ghost use Rattle.lapd_image.specs.Puts.{Puts};
ghost use Rattle.lapd_image.specs.Reads.{HasNone};
ghost use Rattle.lapd_link_steps.specs.{Link, Rests, Terms, link_of, outstanding_of, va_of};
ghost use Rattle.lapd_link_steps.specs.Image.{IsFit, IsHead, IsSettled, IsSmall, IsTimed, OwesRightly, head, octets_of, restored, timer_bits};
ghost use Rattle.lapd_link_steps.specs.Past.{Past};
ghost use Rattle.model_bits.specs.Bits.{bit_value, number_of};
ghost use Rattle.model_link.specs.Image as image;
ghost use Rattle.model_link.specs.declared.states.State.{State};
ghost use Rattle.model_link.specs.declared.timers.LinkTimer.{LinkTimer};
ghost use Rattle.model_link.specs.Link.{state_number};

use crate::entity::Entity;
use crate::timers::most_repeats;
use lapd_frame::Reading;
use lapd_image::{BadImage, Reader, put_number, put_octet};
use lapd_seq::{Seq, Window};
use model_link::{LinkCounts, LinkTimer, State, Terms};

// The first octets of a link, as they are.
#[derive(Clone, Copy)]
struct Octets {
    state: u8,
    flags: u8,
    repeats: u8,
    va: u8,
    outstanding: u8,
    vr: u8,
    again: u8,
}

impl Entity {
    /// Writes what an image has of the link before its contents, from a place of the room on, and answers the place after. What
    /// does not fit is left out.
    pub fn save(&self, out: &mut [u8], at: usize) -> usize
        requires { at ≤ length out.old }
        ensures puts { (terms : Terms) (m : Link) → Rests terms self.now m → Puts (head m) at out.old result out.new }
        ensures small { IsSmall self.now }
    {
        let at = put_octet(out, at, self.state_octet());
        let at = put_octet(out, at, self.flags());
        let at = put_octet(out, at, self.repeats);
        let at = put_octet(out, at, self.window.va().value);
        let at = put_octet(out, at, self.window.outstanding());
        let at = put_octet(out, at, self.vr.value);
        let at = put_octet(out, at, self.again);
        put_counts(out, at, self.counts)
    }

    /// Reads what an image has of a link before its contents. The control frames that wait stay as they are.
    ///
    /// # Errors
    ///
    /// [`BadImage`] if it is at the front of no link's image. Then it is of any state.
    pub fn restore(&mut self, reader: &mut Reader<'_>) -> Result<(), BadImage>
        ensures read { OnOk result (reader.old ≡ head (restored self.new []) ++ reader.new) }
        ensures small { OnOk result (IsSmall self.new) }
        ensures none { OnErr result (HasNone head IsHead reader.old) }
        ensures waiting { self.new.waiting ≡ self.old.waiting }
    {
        let octets = read_octets(reader)?;
        let counts = read_counts(reader)?;
        self.fill(octets, counts)
    }

    // It is as these octets say, and has counted this.
    fn fill(&mut self, octets: Octets, counts: LinkCounts) -> Result<(), BadImage>
        requires again { octets.again ≤ 255 }
        requires counts { All (λ n. n ≤ 65535) (image.counted_of counts) }
        ensures read { OnOk result (octets_of octets ++ image.counts counts ≡ head (restored self.new [])) }
        ensures small { OnOk result (IsSmall self.new) }
        ensures none { OnErr result ((m : Link) → IsHead m → octets_of octets ++ image.counts counts ≡ head m → ⊥) }
        ensures waiting { self.new.waiting ≡ self.old.waiting }
    {
        self.state = state_of(octets.state % 64)?;
        self.owed = owed_of(octets.state / 64)?;
        self.running = timer_of(octets.flags / 32)?;
        self.window = window_of(octets.va, octets.outstanding)?;
        self.vr = seq_of(octets.vr)?;
        self.peer_busy = octets.flags % 2 == 1;
        self.own_busy = octets.flags / 2 % 2 == 1;
        self.rejecting = octets.flags / 4 % 2 == 1;
        self.pending = octets.flags / 8 % 2 == 1;
        self.asked = octets.flags / 16 % 2 == 1;
        self.repeats = octets.repeats;
        self.again = octets.again;
        self.counts = counts;
        Ok(())
    }

    /// Whether a link with these parameters can be so while so many contents are queued.
    pub fn is_fit(&self, terms: &Terms, queued: usize) -> bool
        ensures { IsTrue result ↔ IsFit terms.now queued (outstanding_of self.now.window) self.now.again self.now.state self.now.own_busy self.now.pending
            self.now.asked self.now.owed self.now.repeats self.now.running }
    {
        let outstanding = self.window.outstanding();
        usize::from(outstanding) + usize::from(self.again) <= queued
            && outstanding <= terms.k
            && (queued == 0 || self.may_keep())
            && !(self.own_busy && self.pending)
            && self.owes_rightly(terms, queued)
            && self.repeats <= most_repeats(terms)
            && self.is_timed(outstanding)
    }

    // Whether contents may be queued in its state.
    fn may_keep(&self) -> bool
        ensures { (queued : ℕ) → IsSettled self.now.state self.now.asked queued ↔ ((queued ≡ 0) ⊎ IsTrue result) }
    {
        match self.state {
            State::TeiAssigned | State::AwaitingRelease => false,
            State::AwaitingEstablishment => !self.asked,
            State::Established | State::TimerRecovery => true,
        }
    }

    // Whether a release may be owed if one is, while so many contents are queued.
    fn owes_rightly(&self, terms: &Terms, queued: usize) -> bool
        ensures { IsTrue result ↔ OwesRightly terms.now queued self.now.state self.now.asked self.now.owed }
    {
        if !self.owed {
            return true;
        }
        let may_owe = matches!(self.state, State::AwaitingEstablishment)
            && matches!(terms.reading, Reading::AnnexB);
        may_owe && !self.asked && queued == 0
    }

    // Whether its timer is that of its state, while so many are outstanding.
    fn is_timed(&self, outstanding: u8) -> bool
        ensures { IsTrue result ↔ IsTimed self.now.state self.now.running outstanding }
    {
        match self.state {
            State::TeiAssigned => self.running.is_none(),
            State::Established => {
                self.runs(LinkTimer::T200) || self.runs(LinkTimer::T203) && outstanding == 0
            }
            State::AwaitingEstablishment | State::AwaitingRelease | State::TimerRecovery => {
                self.runs(LinkTimer::T200)
            }
        }
    }

    // The octet of the state.
    fn state_octet(&self) -> u8
        ensures { (past : Past) → result ≡ image.state_octet (link_of self.now past) }
    {
        self.state.number() + 64 * bit(self.owed)
    }

    // The octet of the flags.
    fn flags(&self) -> u8
        ensures { (past : Past) → result ≡ number_of (image.link_flags (link_of self.now past)) }
    {
        bit(self.peer_busy)
            + 2 * bit(self.own_busy)
            + 4 * bit(self.rejecting)
            + 8 * bit(self.pending)
            + 16 * bit(self.asked)
            + 32 * bit(self.runs(LinkTimer::T200))
            + 64 * bit(self.runs(LinkTimer::T203))
    }
}

fn bit(b: bool) -> u8
    ensures value { result ≡ bit_value b }
    ensures bound { result ≤ 1 }
{
    u8::from(b)
}

// What was counted, in two octets each.
fn put_counts(out: &mut [u8], at: usize, counts: LinkCounts) -> usize
    requires { at ≤ length out.old }
    ensures puts { Puts (image.counts counts) at out.old result out.new }
    ensures small { All (λ n. n ≤ 65535) (image.counted_of counts) }
{
    let at = put_count(out, at, counts.sent_again);
    let at = put_count(out, at, counts.t200_expired);
    let at = put_count(out, at, counts.rejects_sent);
    let at = put_count(out, at, counts.rejects_received);
    put_count(out, at, counts.established)
}

fn put_count(out: &mut [u8], at: usize, count: u16) -> usize
    requires { at ≤ length out.old }
    ensures puts { Puts (number 2 count) at out.old result out.new }
    ensures small { count ≤ 65535 }
{
    put_number(out, at, 2, u64::from(count))
}

// The first octets are read.
fn read_octets(reader: &mut Reader<'_>) -> Result<Octets, BadImage>
    ensures read { IfOk result (λ octets. reader.old ≡ octets_of octets ++ reader.new) }
    ensures again { IfOk result (λ octets. octets.again ≤ 255) }
    ensures short { OnErr result (length reader.old < 7) }
{
    Ok(Octets {
        state: reader.octet()?,
        flags: reader.octet()?,
        repeats: reader.octet()?,
        va: reader.octet()?,
        outstanding: reader.octet()?,
        vr: reader.octet()?,
        again: reader.octet()?,
    })
}

// What was counted is read.
fn read_counts(reader: &mut Reader<'_>) -> Result<LinkCounts, BadImage>
    ensures read { IfOk result (λ counts. reader.old ≡ image.counts counts ++ reader.new) }
    ensures small { IfOk result (λ counts. All (λ n. n ≤ 65535) (image.counted_of counts)) }
    ensures short { OnErr result (length reader.old < 10) }
{
    Ok(LinkCounts {
        sent_again: read_count(reader)?,
        t200_expired: read_count(reader)?,
        rejects_sent: read_count(reader)?,
        rejects_received: read_count(reader)?,
        established: read_count(reader)?,
    })
}

fn read_count(reader: &mut Reader<'_>) -> Result<u16, BadImage>
    ensures read { IfOk result (λ n. reader.old ≡ number 2 n ++ reader.new) }
    ensures small { IfOk result (λ n. n ≤ 65535) }
    ensures short { OnErr result (length reader.old < 2) }
{
    let count = reader.number(2)?;
    Ok(count as u16)
}

// The state of a number.
fn state_of(octet: u8) -> Result<State, BadImage>
    ensures is { IfOk result (λ state. state_number state ≡ octet) }
    ensures none { OnErr result ((state : State) → state_number state ≡ octet → ⊥) }
{
    match octet {
        4 => Ok(State::TeiAssigned),
        5 => Ok(State::AwaitingEstablishment),
        6 => Ok(State::AwaitingRelease),
        7 => Ok(State::Established),
        8 => Ok(State::TimerRecovery),
        _ => Err(BadImage),
    }
}

// Whether a release is owed, by what stands above the state.
fn owed_of(bits: u8) -> Result<bool, BadImage>
    ensures is { IfOk result (λ owed. bit_value owed ≡ bits) }
    ensures none { OnErr result ((owed : Bool) → bit_value owed ≡ bits → ⊥) }
{
    match bits {
        0 => Ok(false),
        1 => Ok(true),
        _ => Err(BadImage),
    }
}

// The timer that runs, by the flags of T200 and T203.
fn timer_of(bits: u8) -> Result<Option<LinkTimer>, BadImage>
    ensures is { IfOk result (λ timer. timer_bits timer ≡ bits) }
    ensures none { OnErr result ((timer : Option LinkTimer) → timer_bits timer ≡ bits → ⊥) }
{
    match bits {
        0 => Ok(None),
        1 => Ok(Some(LinkTimer::T200)),
        2 => Ok(Some(LinkTimer::T203)),
        _ => Err(BadImage),
    }
}

// V(A), and how many I-frames are outstanding.
fn window_of(va: u8, outstanding: u8) -> Result<Window, BadImage>
    ensures first { IfOk result (λ window. (va_of window).value ≡ va) }
    ensures count { IfOk result (λ window. outstanding_of window ≡ outstanding) }
    ensures none { OnErr result (va < 128 → outstanding < 128 → ⊥) }
{
    if outstanding > 127 {
        return Err(BadImage);
    }
    Ok(Window::at(seq_of(va)?, outstanding))
}

fn seq_of(octet: u8) -> Result<Seq, BadImage>
    ensures is { IfOk result (λ number. number.value ≡ octet) }
    ensures none { OnErr result (octet < 128 → ⊥) }
{
    if octet > 127 {
        return Err(BadImage);
    }
    Ok(Seq::new(octet))
}
