//! Runs in which it is told how it stood whenever more of the script was asked for.
use crate::rows::Row;
use crate::runs::{opener, run_in, sink, source};
use crate::telling::add_text;
use ram_outside::{MemAsked, MemConversation};
use std::alloc::{AllocError, Global};
use std::fmt::Write;

/// Adds the lines that were written, one behind the other.
fn add_written(written: &[u8], answer: &mut String) -> Result<(), AllocError> {
    let written = str::from_utf8(written).unwrap_or("no text");
    for line in written.lines() {
        write!(answer, " {line};")?;
    }
    answer.push_str("\n")
}

/// Adds how it stood each time: how many bytes of the script had come, and what was written by then.
fn add_asked(script_len: usize, asked: &[MemAsked], answer: &mut String) -> Result<(), AllocError> {
    for ask in asked {
        let came = script_len.saturating_sub(ask.left.len());
        write!(answer, "asked behind {came} bytes:")?;
        add_written(&ask.written, answer)?;
    }
    Ok(())
}

/// Adds what the script of a row is answered, and how it stood whenever more was asked for.
pub fn answer_asking(alloc: Global, row: &Row, answer: &mut String) -> Result<(), AllocError> {
    let script = source(alloc, row.script.as_bytes(), row.given, row.failure)?;
    let report = sink(alloc, row.taken, row.failure)?;
    let mut opener = opener(alloc, &row.image, row.failure)?;
    let mut talk = MemConversation::new(alloc, script, report);
    let status = run_in(alloc, &mut talk, &mut opener)?;
    add_text(talk.report().bytes(), status, answer)?;
    add_asked(row.script.len(), talk.asked(), answer)
}
