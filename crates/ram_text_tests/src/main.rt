//! Reads lines and scripts, and prints answers, where no proof reaches: which lines come in pieces of each size, what a
//! line is read as, and which bytes an answer is. The rows stand in `stdin`, and what each must be answered in `stdout`.
//!
//! A line that begins with `== ` is a title, and is printed as it is. Each other line is a row. The README lists them.
#![tactic(auto)]

mod data;
mod escapes;
mod lines;
mod made;
mod mirror;
mod parsing;
mod printing;

use crate::lines::{answer_lines, answer_long, answer_made, answer_steps};
use crate::mirror::{answer_mirror, answer_told};
use crate::parsing::{answer_digits, answer_parse};
use crate::printing::answer_print;
use std::alloc::{AllocError, Global};
use std::io;

fn main(rt: HostRuntime) -> io::Result<()> {
    for row in rt.lines(rt.alloc()) {
        let row = row?;
        let mut answer = String::new(rt.alloc());
        answer_row(rt.alloc(), row.as_str(), &mut answer)?;
        println!(rt; "{answer}")?;
    }
    Ok(())
}

/// Adds the answer of a row, by its first word.
fn answer_row(alloc: Global, row: &str, answer: &mut String) -> Result<(), AllocError> {
    let (word, rest) = row.split_once(' ').unwrap_or((row, ""));
    match word {
        "==" => answer.push_str(row),
        "lines" => answer_lines(alloc, rest, answer),
        "long" => answer_long(alloc, rest, answer),
        "made" => answer_made(alloc, rest, answer),
        "steps" => answer_steps(alloc, rest, answer),
        "parse" => answer_parse(alloc, rest, answer),
        "digits" => answer_digits(alloc, rest, answer),
        "mirror" => answer_mirror(alloc, rest, answer),
        "told" => answer_told(alloc, rest, answer),
        "print" => answer_print(alloc, rest, answer),
        _ => answer.push_str("no such row"),
    }
}
