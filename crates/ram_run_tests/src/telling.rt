//! What is told of a run: its report, its exit status, and more where that is asked for.
use crate::rows::{Row, Told};
use crate::runs::{PIECE, Ran};
use ram_machine::status::Status;
use std::alloc::AllocError;
use std::fmt::Write;

/// Whether the source was asked once for each piece of a script of this many bytes, the report was put in pieces of that
/// size, and neither much oftener.
fn took_few_calls(ran: &Ran, script_len: usize) -> bool {
    let takes = script_len.div_ceil(PIECE) as u64;
    let puts = ran.report.len().div_ceil(PIECE) as u64;
    ran.calls.source <= takes.saturating_add(2)
        && ran.calls.sink <= puts.saturating_add(ran.calls.source)
}

/// Whether a line of this number is told, of this many.
fn is_told(told: Told, number: usize, lines: usize) -> bool {
    let is_last = told
        .last
        .is_none_or(|last| number.saturating_add(last) >= lines);
    let is_first = told.first.is_none_or(|first| number < first);
    is_last && is_first
}

/// Adds the lines of a report that are told.
fn add_lines(told: Told, report: &str, answer: &mut String) -> Result<(), AllocError> {
    let lines = report.lines().count();
    for (number, line) in report.lines().enumerate() {
        if is_told(told, number, lines) {
            writeln!(answer, "{line}")?;
        }
    }
    Ok(())
}

/// Adds the bytes of a report, and an exit status.
pub fn add_text(report: &[u8], status: Status, answer: &mut String) -> Result<(), AllocError> {
    let report = str::from_utf8(report).unwrap_or("no text\n");
    writeln!(answer, "{report}exit status {}", status.exit_number())
}

/// Adds a report and an exit status.
pub fn add_report(ran: &Ran, answer: &mut String) -> Result<(), AllocError> {
    add_text(&ran.report, ran.status, answer)
}

/// Adds the report of a run, as much as is told of it, and its exit status.
fn add_told(told: Told, ran: &Ran, answer: &mut String) -> Result<(), AllocError> {
    if told.last.is_none() && told.first.is_none() {
        return add_report(ran, answer);
    }
    let report = str::from_utf8(&ran.report).unwrap_or("no text\n");
    add_lines(told, report, answer)?;
    writeln!(answer, "exit status {}", ran.status.exit_number())
}

/// Adds what is told of a run.
pub fn tell(row: &Row, ran: &Ran, answer: &mut String) -> Result<(), AllocError> {
    add_told(row.told, ran, answer)?;
    if row.told.puts {
        writeln!(answer, "{} calls of the sink", ran.calls.sink)?;
    }
    if row.told.few {
        let few = took_few_calls(ran, row.script.len());
        writeln!(answer, "few calls of source and sink: {few}")?;
    }
    Ok(())
}
