//! How short answers are. The law is the contract of a call that does nothing.

ghost use Rattle.laws_line.specs.Short.{AnswersAreShort};

/// An answer has at most four notes and at most four orders for timers, so a list of four holds each. A line answers
/// most of both where a TEI leaves it: one of TEI management and one of each of its two links. That to a call for the next frame
/// has at most two orders, those of the link whose frame it takes. That to an expiry starts one timer at most, so whoever
/// applies the orders of what falls due comes to an end.
pub fn answers_are_short()
    ensures { AnswersAreShort }
{}
