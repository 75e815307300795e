//! A time that is refused.

use thiserror::Error;

/// The time is before the last moment that the card was told, or from `2^63` milliseconds on.
#[derive(Clone, Copy, Debug, Eq, Error, PartialEq)]
#[error("the time is before the last moment, or 2^63 milliseconds or later")]
pub struct WrongTime;
