//! `tool_bench WORK ROUNDS` does one kind of work so many times, and prints how many octets and frames, or contents, there
//! were and how many octets the workers held at most. Its time is taken outside, by `tests/bench`.
//!
//! `WORK` is the word of one of the works (`work::works`), or `all`, which does each of them in turn.
//!
//! # Only tested
//!
//! A small run; its counts and sums, against those that another program worked out.
#![tactic(auto)]

mod busy;
mod clocks;
mod done;
mod fault;
mod frames;
mod line;
mod lines;
mod sender;
mod shelves;
mod size;
mod terminal;
mod work;

use crate::fault::Fault;
use crate::work::{Work, works};
use std::alloc::Global;
use std::env;

/// Does one kind of work, and prints how much it was.
fn report(
    rt: &impl Print,
    alloc: Global,
    name: &str,
    work: Work,
    rounds: u32,
) -> Result<(), Fault> {
    let done = work.run(alloc, rounds)?;
    println!(rt;
        "{} {} octets {} frames {} held sum {}",
        name, done.octets, done.frames, done.held, done.sum
    )?;
    Ok(())
}

/// Does the works of this word.
fn report_all(rt: &impl Print, alloc: Global, name: &str, rounds: u32) -> Result<(), Fault> {
    let mut is_known = false;
    for (word, work) in works() {
        if name == "all" || name == *word {
            is_known = true;
            report(rt, alloc, word, *work, rounds)?;
        }
    }
    if is_known { Ok(()) } else { Err(Fault::Words) }
}

fn main(rt: HostRuntime) -> Result<(), Fault> {
    let words = env::args(&rt)?.skip(1).collect::<Vec<String>>(rt.alloc())?;
    let [name, rounds] = words.as_slice() else {
        return Err(Fault::Words);
    };
    match rounds.parse::<u32>() {
        Ok(rounds) => report_all(&rt, rt.alloc(), name.as_str(), rounds),
        Err(_) => Err(Fault::Words),
    }
}
