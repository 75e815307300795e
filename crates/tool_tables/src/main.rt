//! `tool_tables` prints what a link and TEI management do in each state with each event, played on the proved `Link`
//! and `Teis` by their public calls. `stdout` beside `src` has it.
//!
//! - `cases`: the tables: the states of a link, and the events. `teis`: the same of TEI management.
//! - `bench`: a link and TEI management, and what happens to them.
//! - `words`: the words in which what they answer is told.
//! - `page`: words as cells, rows and a page.
//! - `fault`: why the page was not printed.
//!
//! # Only tested
//!
//! What it prints, against `stdout`.
#![tactic(auto)]

mod bench;
mod cases;
mod fault;
mod page;
mod teis;
mod words;

use crate::bench::{Bench, Case, Event};
use crate::cases::{numbered, others, tables, unnumbered};
use crate::fault::Fault;
use crate::page::Page;
use lapd_frame::Reading;
use std::alloc::Global;

fn main(rt: HostRuntime) -> Result<(), Fault> {
    let mut page = Page::new(rt.alloc());
    link_tables(&mut page, rt.alloc());
    teis_table(&mut page, rt.alloc());
    match page.whole() {
        Some(text) => {
            print!(rt; "{}", text)?;
            Ok(())
        }
        None => Err(Fault::OutOfMemory),
    }
}

fn link_tables(page: &mut Page, alloc: Global) {
    for table in tables() {
        page.print(table.head);
        rows(page, alloc, table.cases, unnumbered());
        rows(page, alloc, table.cases, numbered(table.is_up));
        rows(page, alloc, table.cases, others());
        page.end_table();
    }
}

fn teis_table(page: &mut Page, alloc: Global) {
    page.print(teis::HEAD);
    rows(page, alloc, teis::cases(), teis::events());
    page.end_table();
}

fn rows(page: &mut Page, alloc: Global, cases: &[Case], events: &[(&str, Event)]) {
    for (name, event) in events {
        row(page, alloc, cases, *event, Reading::Profile);
        row(page, alloc, cases, *event, Reading::AnnexB);
        page.end_row(name);
    }
}

fn row(page: &mut Page, alloc: Global, cases: &[Case], event: Event, reading: Reading) {
    page.begin_row();
    for case in cases {
        cell(page, alloc, *case, event, reading);
        page.end_cell();
    }
}

/// What one event leads to in one state.
fn cell(page: &mut Page, alloc: Global, case: Case, event: Event, reading: Reading) {
    match Bench::start(alloc, reading) {
        Some(mut bench) => bench.play(page, case, event),
        None => page.spoil(),
    }
}
