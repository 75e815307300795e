//! A sink that keeps replies.

ghost use Rattle.std.specs.Prelude.{◌≡◌, ◌≤◌, ◌↔◌, [], length, IsSome, IfSome, IfOk};
ghost use Rattle.lapd_card.specs.{kept_of, IsShort, report_told};
ghost use Rattle.lapd_card.specs.Reply.{answer_of};
ghost use Rattle.model_card.specs.ports.Port.{told};

use crate::replies::Reply;
use crate::sink::{Sink, SinkFailed};
use arrayvec::ArrayVec;
use lapd_frame::MOST_N201;
use lapd_line::Report;
use std::alloc::{AllocError, Global};

/// The longest contents that a frame delivers.
const LONGEST: usize = MOST_N201 as usize;

/// A reply that was kept.
#[derive(Debug, Drop)]
pub struct KeptReply {
    /// The line of its event.
    pub line: usize,
    /// The reply, except for the contents that it lent.
    pub reply: Reply<'static>,
    /// A copy of those contents.
    pub contents: Option<ArrayVec<u8, LONGEST>>,
}

/// A sink that keeps replies, whole and in order, exactly while it has room. All memory is taken by [`Kept::start`],
/// about 400 octets a reply.
#[derive(Debug, Drop)]
pub struct Kept {
    /// The replies that were kept.
    pub replies: Vec<KeptReply>,
    /// How many replies found no room.
    pub failures: u64,
}

impl Kept {
    ghost use Rattle.lapd_card.specs.Kept.{replies_in, room_in};

    /// A sink that has kept no reply, and has room for so many.
    ///
    /// # Errors
    ///
    /// `AllocError` if memory is refused.
    pub fn start(alloc: Global, room: usize) -> Result<Kept, AllocError>
        ensures empty { IfOk result (λ sink. replies_in sink ≡ []) }
        ensures room { IfOk result (λ sink. room_in sink ≡ room) }
    {
        let replies = Vec::with_capacity(alloc, room)?;
        Ok(Kept {
            replies,
            failures: 0,
        })
    }
}

impl Sink for Kept {
    ghost use Rattle.lapd_card.specs.Kept.{Keeps, Misses};

    ghost takes = { Keeps };

    ghost misses = { Misses };

    ghost failures = { λ s. s.failures };

    fn take(&mut self, line: usize, reply: &Reply<'_>) -> Result<(), SinkFailed> {
        if self.replies.len() < self.replies.capacity() {
            if let Some(kept) = copy_of(line, reply) {
                self.replies.push_reserved(kept);
                return Ok(());
            }
        }
        self.failures = self.failures.saturating_add(1);
        Err(SinkFailed)
    }
}

/// The reply as it is kept; none where it lends contents that are too long, which those of a card never are.
fn copy_of(line: usize, reply: &Reply<'_>) -> Option<KeptReply>
    ensures short { IsSome result ↔ IsShort (answer_of reply.now) }
    ensures whole { IfSome result (λ kept. kept_of kept ≡ (line, answer_of reply.now)) }
{
    match reply {
        Reply::Report(report) => kept_report(line, report),
        Reply::Refused(refusal) => Some(KeptReply {
            line,
            reply: Reply::Refused(*refusal),
            contents: None,
        }),
        Reply::Pulled(pulled) => Some(KeptReply {
            line,
            reply: Reply::Pulled(*pulled),
            contents: None,
        }),
    }
}

fn kept_report(line: usize, report: &Report<'_>) -> Option<KeptReply>
    ensures short { IsSome result ↔ IsShort (told (report_told report.now)) }
    ensures whole { IfSome result (λ kept. kept_of kept ≡ (line, told (report_told report.now))) }
{
    let contents = match report.delivered {
        Some(octets) => Some(copied(octets)?),
        None => None,
    };
    Some(KeptReply {
        line,
        reply: Reply::Report(report.without_contents()),
        contents,
    })
}

fn copied(octets: &[u8]) -> Option<ArrayVec<u8, LONGEST>>
    ensures short { IsSome result ↔ (length octets.now ≤ 260) }
    ensures whole { IfSome result (λ copy. copy.items ≡ octets.now) }
{
    let mut copy = ArrayVec::new();
    copy.try_extend_from_slice(octets).ok()?;
    Some(copy)
}
