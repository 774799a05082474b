//! Takes media through the same steps: one in memory and one over an image, whose answers no proof compares with what a
//! person expects. The rows stand in `stdin`, and what they must be answered in `stdout`.
//!
//! A row begins with `== TITLE` and a line that says which media there are. Each line behind them is a step, and is
//! answered by one line. The README lists them.
#![tactic(auto)]

mod media;
mod rows;
mod steps;
mod uses;

use crate::rows::answer_row;
use std::fmt::Write;
use std::io;

fn main(rt: HostRuntime) -> io::Result<()> {
    let mut row = String::new(rt.alloc());
    for line in rt.lines(rt.alloc()) {
        let line = line?;
        if let Some(title) = line.strip_prefix("== ") {
            end_row(&rt, row.as_str())?;
            row.clear();
            println!(rt; "== {title}")?;
        } else {
            writeln!(row, "{line}")?;
        }
    }
    end_row(&rt, row.as_str())
}

/// Makes the steps of a row, and prints their answers.
fn end_row<R: Print + AllocGlobal>(rt: &R, row: &str) -> io::Result<()> {
    let mut answers = String::new(rt.alloc());
    answer_row(rt.alloc(), row, &mut answers)?;
    let answers = answers.as_str();
    print!(rt; "{answers}")
}
