//! The words of the tables, a method each.

mod frames;
mod notes;
mod numbers;
mod timers;
