//! Puts what was counted of a line onto a page.

ghost use Rattle.std.specs.Prelude.{◌≡◌, flat_map, map};
ghost use Rattle.std.specs.List.{list_all};
ghost use Rattle.lapd_transcript.specs.{Puts, on, is_zero, names_of, counters_text, row, row_text, value_text, with_name};

use crate::output::Page;
use crate::streams::{Put, Target};
use lapd_count::Counter::Messages;
use lapd_count::MessageType::{
    IdentityAssigned, IdentityCheckRequest as CheckRequest, IdentityCheckResponse as CheckResponse,
    IdentityDenied, IdentityRemove, IdentityRequest, IdentityVerify,
};
use lapd_count::Way::{Begun, Heard};
use lapd_count::{Counter, Counters, Kind};
use lapd_frame::ErrorCode;
use lapd_text::decimal;
use model_bits::Cause;

/// Which counters of a line are shown.
#[derive(Clone, Copy)]
pub enum CounterGroup {
    /// All but those of messages.
    Line,
    /// Those of messages of TEI management.
    Messages,
}

/// The counters of a line with their names, in the order of their places.
static COUNTERS: [(Counter, &[u8]); 65] = [
    (Counter::Frames(Heard, Kind::Information), b"heard-i"),
    (Counter::Frames(Heard, Kind::ReceiveReady), b"heard-rr"),
    (Counter::Frames(Heard, Kind::ReceiveNotReady), b"heard-rnr"),
    (Counter::Frames(Heard, Kind::Reject), b"heard-rej"),
    (Counter::Frames(Heard, Kind::Sabme), b"heard-sabme"),
    (Counter::Frames(Heard, Kind::Disc), b"heard-disc"),
    (Counter::Frames(Heard, Kind::Ui), b"heard-ui"),
    (Counter::Frames(Heard, Kind::Ua), b"heard-ua"),
    (Counter::Frames(Heard, Kind::Dm), b"heard-dm"),
    (Counter::Frames(Heard, Kind::Frmr), b"heard-frmr"),
    (Counter::Frames(Heard, Kind::Xid), b"heard-xid"),
    (Counter::Frames(Heard, Kind::Undefined), b"heard-undefined"),
    (Counter::Frames(Begun, Kind::Information), b"begun-i"),
    (Counter::Frames(Begun, Kind::ReceiveReady), b"begun-rr"),
    (Counter::Frames(Begun, Kind::ReceiveNotReady), b"begun-rnr"),
    (Counter::Frames(Begun, Kind::Reject), b"begun-rej"),
    (Counter::Frames(Begun, Kind::Sabme), b"begun-sabme"),
    (Counter::Frames(Begun, Kind::Disc), b"begun-disc"),
    (Counter::Frames(Begun, Kind::Ui), b"begun-ui"),
    (Counter::Frames(Begun, Kind::Ua), b"begun-ua"),
    (Counter::Frames(Begun, Kind::Dm), b"begun-dm"),
    (Counter::Frames(Begun, Kind::Frmr), b"begun-frmr"),
    (Counter::Frames(Begun, Kind::Xid), b"begun-xid"),
    (Counter::Frames(Begun, Kind::Undefined), b"begun-undefined"),
    (Counter::Octets(Heard), b"heard-octets"),
    (Counter::Octets(Begun), b"begun-octets"),
    (Counter::Polls(Heard), b"heard-polls"),
    (Counter::Polls(Begun), b"begun-polls"),
    (Counter::Overlong, b"heard-overlong"),
    (Counter::Dropped(Cause::Abort), b"dropped-abort"),
    (Counter::Dropped(Cause::Ragged), b"dropped-ragged"),
    (Counter::Dropped(Cause::Short), b"dropped-short"),
    (Counter::Dropped(Cause::Fcs), b"dropped-fcs"),
    (Counter::Dropped(Cause::Extension), b"dropped-extension"),
    (Counter::Dropped(Cause::Sapi), b"dropped-sapi"),
    (Counter::Dropped(Cause::Tei), b"dropped-tei"),
    (Counter::Dropped(Cause::Unserved), b"dropped-unserved"),
    (Counter::Errors(ErrorCode::A), b"errors-a"),
    (Counter::Errors(ErrorCode::B), b"errors-b"),
    (Counter::Errors(ErrorCode::C), b"errors-c"),
    (Counter::Errors(ErrorCode::D), b"errors-d"),
    (Counter::Errors(ErrorCode::E), b"errors-e"),
    (Counter::Errors(ErrorCode::F), b"errors-f"),
    (Counter::Errors(ErrorCode::G), b"errors-g"),
    (Counter::Errors(ErrorCode::H), b"errors-h"),
    (Counter::Errors(ErrorCode::I), b"errors-i"),
    (Counter::Errors(ErrorCode::J), b"errors-j"),
    (Counter::Errors(ErrorCode::K), b"errors-k"),
    (Counter::Errors(ErrorCode::L), b"errors-l"),
    (Counter::Errors(ErrorCode::N), b"errors-n"),
    (Counter::Errors(ErrorCode::O), b"errors-o"),
    (Counter::EstablishIndications, b"told-establish-indication"),
    (Counter::EstablishConfirms, b"told-establish-confirm"),
    (Counter::ReleaseIndications, b"told-release-indication"),
    (Counter::ReleaseConfirms, b"told-release-confirm"),
    (Counter::Data, b"told-data"),
    (Counter::Units, b"told-unit"),
    (Counter::Xids, b"told-xid"),
    (Counter::Assigned, b"told-assigned"),
    (Counter::Removed, b"told-removed"),
    (Counter::Doubled, b"told-doubled"),
    (Counter::Denied, b"told-denied"),
    (Counter::Unassigned, b"told-unassigned"),
    (Counter::RemovedAll, b"told-remove-all"),
    (Counter::Lost, b"lost"),
];

/// Those of messages.
static MESSAGES: [(Counter, &[u8]); 14] = [
    (Messages(Heard, IdentityRequest), b"heard-request"),
    (Messages(Heard, IdentityAssigned), b"heard-assigned"),
    (Messages(Heard, IdentityDenied), b"heard-denied"),
    (Messages(Heard, CheckRequest), b"heard-check-request"),
    (Messages(Heard, CheckResponse), b"heard-check-response"),
    (Messages(Heard, IdentityRemove), b"heard-remove"),
    (Messages(Heard, IdentityVerify), b"heard-verify"),
    (Messages(Begun, IdentityRequest), b"begun-request"),
    (Messages(Begun, IdentityAssigned), b"begun-assigned"),
    (Messages(Begun, IdentityDenied), b"begun-denied"),
    (Messages(Begun, CheckRequest), b"begun-check-request"),
    (Messages(Begun, CheckResponse), b"begun-check-response"),
    (Messages(Begun, IdentityRemove), b"begun-remove"),
    (Messages(Begun, IdentityVerify), b"begun-verify"),
];

impl<T: Target> Page<'_, T> {
    /// What was counted of a line: each counter of a group that is not 0, in the order of their places; or that none of them
    /// counted anything.
    pub fn put_counters(&mut self, line: u16, group: CounterGroup, counters: &Counters) -> Put
        ensures { Puts result (on T.taken self.old) (on T.taken self.new) (counters_text line group counters.now) }
    {
        let names = names_of(group);
        if are_zero(counters, names) {
            return self.put_nothing(line);
        }
        self.put_each(line, counters, names)
    }

    fn put_each(
        &mut self,
        line: u16,
        counters: &Counters,
        names: &[(Counter, &'static [u8])],
    ) -> Put
        ensures { Puts result (on T.taken self.old) (on T.taken self.new) (flat_map (λ name. row_text line counters.now (row name)) names.now) }
    {
        for (counter, name) in names {
            self.put_counter(line, counters.value(*counter), name)?;
        }
        Ok(())
    }

    /// A counter that is not 0.
    fn put_counter(&mut self, line: u16, value: u64, name: &'static [u8]) -> Put
        ensures { Puts result (on T.taken self.old) (on T.taken self.new) (value_text line name.now value) }
    {
        if value == 0 {
            return Ok(());
        }
        let digits = decimal(value);
        self.put_line(
            line,
            &[b"counter ".as_slice(), name, b" ", digits.as_slice()],
        )
    }
}

fn names_of(group: CounterGroup) -> &'static [(Counter, &'static [u8])]
    ensures { map row result.now ≡ map with_name (names_of group) }
{
    match group {
        CounterGroup::Line => &COUNTERS,
        CounterGroup::Messages => &MESSAGES,
    }
}

fn are_zero(counters: &Counters, names: &[(Counter, &'static [u8])]) -> bool
    ensures { result ≡ list_all (λ name. is_zero counters.now (row name).0) names.now }
{
    names.iter().all(|name| counters.value(name.0) == 0)
}
