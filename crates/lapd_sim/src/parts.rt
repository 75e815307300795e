//! What a setup begins with, and what the words of a script ask of it.

ghost use Rattle.std.specs.Prelude.{◌≡◌, [], vec_len, replicate, None, Some, IfOk, IfErr};
ghost use Rattle.lapd_clock.specs.Given as given;
ghost use Rattle.lapd_clock.specs.Timer.{first_out_of_range};
ghost use Rattle.lapd_sim.specs.{config_of, counters_of, kind_of, lengths_of, request_for, tei_asked, Begins, Each, Hears, OnBoard, Sends};
ghost use Rattle.model_line.specs.Request as asking;

use lapd_bits::Deframer;
use lapd_card::{AnyCard, Card, Config, FrameCard, Request};
use lapd_clock::{LengthFault, Lengths};
use lapd_script::{Asked, CardKind, Durations, FaultKind, LineFault};
use lapd_store::RawShelf;
use lapd_transcript::{LONGEST_INFORMATION, Terminal};
use std::alloc::{AllocError, Global};

/// What a card line says.
#[derive(Clone, Copy)]
pub(crate) struct Plan {
    pub(crate) kind: CardKind,
    pub(crate) config: Config,
}

/// A card as a card line has it begin.
pub(crate) fn begin(alloc: Global, plan: Plan) -> Result<AnyCard, LineFault>
    ensures kind { IfOk result (λ card. kind_of card ≡ plan.kind) }
    ensures config { IfOk result (λ card. config_of card ≡ plan.config) }
    ensures begun { Begins result plan.kind plan.config (λ card m. OnBoard card m.board × (counters_of card ≡ m.counters)) }
{
    let config = plan.config;
    if config.fault().is_some() {
        return Err(LineFault::Faulty(FaultKind::BadCard));
    }
    let Ok(shelf) = RawShelf::start(alloc, config.slots.into(), config.n201) else {
        return Err(LineFault::OutOfMemory);
    };
    match plan.kind {
        CardKind::Octets => match Card::start(alloc, config, shelf) {
            Ok(card) => Ok(AnyCard::Octets(card)),
            Err(_) => Err(LineFault::OutOfMemory),
        },
        CardKind::Frames => match FrameCard::start(alloc, config, shelf) {
            Ok(card) => Ok(AnyCard::Frames(card)),
            Err(_) => Err(LineFault::OutOfMemory),
        },
    }
}

/// A terminal for each line.
pub(crate) fn terminals(alloc: Global, lines: usize) -> Result<Vec<Terminal>, AllocError>
    ensures count { IfOk result (λ terminals. vec_len terminals ≡ lines) }
    ensures begun { IfOk result (λ terminals. Each Sends terminals.items (replicate lines (record { items = []; given = 0 }))) }
{
    let mut terminals = Vec::with_capacity(alloc, lines)?;
    for _ in 0..lines {
        if terminals.push(Terminal::start(alloc)?).is_err() {
            return Err(AllocError);
        }
    }
    Ok(terminals)
}

/// A listener for each line.
pub(crate) fn listeners(alloc: Global, lines: usize) -> Result<Vec<Deframer>, AllocError>
    ensures count { IfOk result (λ listeners. vec_len listeners ≡ lines) }
    ensures begun { IfOk result (λ listeners. Each Hears listeners.items (replicate lines [])) }
{
    let mut listeners = Vec::with_capacity(alloc, lines)?;
    for _ in 0..lines {
        let Ok(listener) = Deframer::start(alloc, LONGEST_INFORMATION) else {
            return Err(AllocError);
        };
        if listeners.push(listener).is_err() {
            return Err(AllocError);
        }
    }
    Ok(listeners)
}

/// How long timers run by a line of a script, for the card's clock.
pub(crate) fn lengths_of(durations: Durations) -> Result<Lengths, LengthFault>
    ensures given { IfOk result (λ lengths. given.lengths_of lengths ≡ lengths_of durations) }
    ensures in_range { IfOk result (λ _. first_out_of_range (lengths_of durations) ≡ None) }
    ensures fault { IfErr result (λ fault. first_out_of_range (lengths_of durations) ≡ Some fault) }
{
    Lengths::new(durations.t200, durations.t203, durations.t201)?.with_t202(durations.t202)
}

/// The TEI that a request names.
pub(crate) fn tei_asked(request: &Request<'_>) -> Option<u8>
    ensures { result ≡ tei_asked (asking.request_of request.now) }
{
    match request {
        Request::Establish(_, tei)
        | Request::Release(_, tei)
        | Request::Data(_, tei, _)
        | Request::Unit(_, tei, _)
        | Request::Assign(tei)
        | Request::Remove(tei)
        | Request::Check(tei)
        | Request::Disown(tei)
        | Request::VerifyTei(tei)
        | Request::SetBusy(_, tei)
        | Request::ClearBusy(_, tei)
        | Request::Deactivate(_, tei) => Some(*tei),
        Request::AskTei | Request::Down => None,
    }
}

/// What a word of a script asks of the card.
pub(crate) fn request_for(what: Asked, tei: u8, octets: &[u8]) -> Request<'_>
    ensures { asking.request_of result ≡ request_for what tei octets.now }
{
    match what {
        Asked::Assign => Request::Assign(tei),
        Asked::Remove => Request::Remove(tei),
        Asked::Check => Request::Check(tei),
        Asked::Disown => Request::Disown(tei),
        Asked::Verify => Request::VerifyTei(tei),
        Asked::Establish(service) => Request::Establish(service, tei),
        Asked::Release(service) => Request::Release(service, tei),
        Asked::SetBusy(service) => Request::SetBusy(service, tei),
        Asked::ClearBusy(service) => Request::ClearBusy(service, tei),
        Asked::Deactivate(service) => Request::Deactivate(service, tei),
        Asked::Data(service) => Request::Data(service, tei, octets),
        Asked::Unit(service) => Request::Unit(service, tei, octets),
    }
}
