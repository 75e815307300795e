//! Why an image is refused.

use thiserror::Error;

/// These octets are no image: they are cut or damaged so that their form shows it, or of no state that a card can hold.
#[derive(Clone, Copy, PartialEq, Eq, Debug, Error)]
#[error("not an image")]
pub struct BadImage;
