//! Runs whole scripts over objects in memory, where it matters how these are called, and which of their calls fail. The rows
//! stand in `stdin`, and what they must be answered in `stdout`.
//!
//! A row begins with `== TITLE`. Its script runs over an empty image, or, where the title begins with `then`, over the
//! image that the row before left. A line that begins with `@ ` is an order: it changes the script or the run, or asks for
//! more to be told. The README lists them. Other lines have the short forms of `shorthand`.
#![tactic(auto)]

mod asking;
mod failing;
mod generated;
mod orders;
mod rows;
mod runs;
mod shorthand;
mod telling;

use crate::rows::{Row, answer_row};
use std::io;

fn main(rt: HostRuntime) -> io::Result<()> {
    let mut row = Row::new(rt.alloc());
    for line in rt.lines(rt.alloc()) {
        let line = line?;
        let title = line.strip_prefix("== ");
        if title.is_none() {
            row.add(rt.alloc(), line.as_str())?;
        }
        if row.is_begun && title.is_some() {
            row = end_row(&rt, &row)?;
        }
        if let Some(title) = title {
            if !title.starts_with("then") {
                row = Row::new(rt.alloc());
            }
            println!(rt; "== {title}")?;
        }
    }
    if row.is_begun {
        end_row(&rt, &row)?;
    }
    Ok(())
}

/// Prints what a row is answered, and gives the next one, over the image that this one leaves.
fn end_row<R: Print + AllocGlobal>(rt: &R, row: &Row) -> io::Result<Row> {
    let mut answer = String::new(rt.alloc());
    let mut next = Row::new(rt.alloc());
    next.image = answer_row(rt.alloc(), row, &mut answer)?;
    let answer = answer.as_str();
    print!(rt; "{answer}")?;
    Ok(next)
}
