//! The image of a card, as definitions: the octets in which a card of any kind is saved, so that another process can go on
//! from there.
//!
//! An image has what can't be worked out: the configuration, the lines, what was counted of them, and which links wait for
//! room. A timed card's also has the moments of its timers, and of the last changes of states. It is the same on every processor.
//! `specs/` has the whole (`Images`) and its clock (`Clocks`), when two cards are the same (`Same`), which cards are saved
//! (`Sound`), and what is proved of images (`Laws`) and of cards that are restored (`Restored`). The octets of a link stand in
//! `model_link`, those of TEI management in `model_teis`. Those of a line and of a configuration stand in `model_line` (`Image`,
//! `ConfigImage`). Those of a caller's clock stand in `lapd_clock`.
//!
//! What stands half received or half sent in a port of octets is not in it.
//!
//! - `laws`: what holds of images.
#![tactic(auto)]

mod laws;

pub use laws::{
    a_restored_card_goes_on, cards_begin_saved, cards_go_on, images_are_read, images_fit,
    links_go_on,
};
