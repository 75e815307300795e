//! How a call begins: what its handle holds is lent to it, or it answers at once what is wrong.

/// Lends the card of a handle, or answers that there is none. If a kind is named, it lends that card, too, or answers that it is
/// one of the other. If a line is named, it becomes a place among the card's lines, or the answer is that there is none.
///
/// These macros hold the `return`s of the call in which they stand: what is wrong with a handle, a kind, a line or an argument is
/// the call's status, and nothing has changed then.
macro_rules! lend {
    ($kept:ident of $handle:ident) => {
        let $kept = $crate::lend::or_answer!($handle.card(), $crate::plain::NO_CARD);
    };
    ($kept:ident of $handle:ident, $line:ident) => {
        lend!($kept of $handle);
        $crate::lend::within!($line, $kept.timed.card());
    };
    ($kept:ident of $handle:ident, $kind:ident($card:ident)) => {
        lend!($kept of $handle);
        let lapd_card::AnyCard::$kind($card) = $kept.timed.card() else {
            return $crate::plain::WRONG_CARD;
        };
    };
    ($kept:ident of $handle:ident, $kind:ident($card:ident), $line:ident) => {
        lend!($kept of $handle, $kind($card));
        $crate::lend::within!($line, $card);
    };
}

/// Makes a line a place among those of a card or a clock, or answers that it has no such line.
macro_rules! within {
    ($line:ident, $lines:expr) => {
        let $line = $line as usize;
        if $line >= $lines.lines() {
            return $crate::plain::WRONG_LINE;
        }
    };
}

/// What a result has, or answers the status that it has instead; or what an option has, or answers a status.
macro_rules! or_answer {
    ($result:expr) => {
        match $result {
            Ok(value) => value,
            Err(wrong) => return wrong,
        }
    };
    ($option:expr, $status:expr) => {
        match $option {
            Some(value) => value,
            None => return $status,
        }
    };
}

pub(crate) use lend;
pub(crate) use or_answer;
pub(crate) use within;
