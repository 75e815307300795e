//! Laws of the trace of a line: of what an observer of it sees, in order of time.
//!
//! Most laws hold from a fresh card of a configuration in range, for every list of events at its lines, and for every line;
//! the others say of what. `specs/` has the trace (`Trace`). It has what an observer knows of the TEIs of the line
//! (`Managing`), of a link (`Observer`) and of what it keeps (`Outgoing`), by the procedures of Q.921. What is due of a link by
//! that stands in four lists: notes (`News`), orders (`TimersAreTimely`), control frames that come to wait (`ControlFrames`)
//! and what goes next (`FramesAreDue`). There is a file for each law, with worked values of it. Each law is the contract of a
//! call that does nothing.
//!
//! - `laws`: the laws of what is heard, told and sent.
//! - `requests`: when a request is refused, what a granted one does, and how much is kept.
//! - `octets`: what they come to in the octets of a line.
//! - `words`: what the words mean that laws share with the machine.
//!
//! # Open
//!
//! That links take turns if the TEI of the link whose frames begin leaves the line meanwhile.
#![tactic(auto)]

mod laws;
mod octets;
mod requests;
mod words;

pub use laws::{
    answers_are_given, asking_ends, causes_are_told, counters_count, frames_are_octets,
    frames_are_read, given_up_is_told, link_counters_count, links_move, links_take_turns_meanwhile,
    news_is_told, nothing_is_lost_in_vain, ranges_are_served, services_have_their_sapis,
    teis_are_managed, the_other_side_is_heard, timers_are_timely, timers_run, units_go_out,
    values_are_in_range, what_is_due_joins_the_queue, what_is_given_is_due, what_is_told_was_heard,
};
pub use octets::{
    all_frames_go_out, answers_are_heard, frames_go_out, latest_is_begun, units_are_heard,
};
pub use requests::{
    answers_suit_events, granted_requests_take_effect, no_slot_is_lost, rooms_are_told,
};
pub use words::words_mean_this;
