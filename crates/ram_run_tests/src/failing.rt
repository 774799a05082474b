//! Runs in which an object fails at each of its calls in turn.
use crate::rows::Row;
use crate::runs::{CallCounts, Failure, Outside, Ran, run_script};
use crate::telling::add_report;
use std::alloc::{AllocError, Global};
use std::fmt::Write;

/// How often an object is called, of the calls that may fail. An opener is asked once.
fn calls_of(calls: CallCounts, of: Outside) -> u64 {
    match of {
        Outside::Source => calls.source,
        Outside::Sink => calls.sink,
        Outside::Opener => 1,
        Outside::Image => calls.image,
    }
}

/// Runs the script of a row with this failure.
fn run_failing(alloc: Global, row: &Row, failure: Option<Failure>) -> Result<Ran, AllocError> {
    let piece = (row.given, row.taken);
    run_script(alloc, row.script.as_bytes(), &row.image, piece, failure)
}

/// Adds how many lines of the whole report were told in a run that failed.
fn add_beginning(whole: &Ran, ran: &Ran, answer: &mut String) -> Result<(), AllocError> {
    if !whole.report.starts_with(&ran.report) {
        return answer.push_str("other lines told, ");
    }
    let report = str::from_utf8(&ran.report).unwrap_or("no text\n");
    write!(answer, "{} lines told, ", report.lines().count())
}

/// What a run with this failure is like: how many lines of the whole report it tells, its status, and what is told later
/// over the image that it leaves.
fn outcome(alloc: Global, row: &Row, whole: &Ran, failure: Failure) -> Result<String, AllocError> {
    let mut text = String::new(alloc);
    let ran = run_failing(alloc, row, Some(failure))?;
    if row.is_later {
        add_beginning(whole, &ran, &mut text)?;
    } else if !whole.report.starts_with(&ran.report) {
        text.push_str("other lines told, ")?;
    }
    writeln!(text, "exit status {}", ran.status.exit_number())?;
    if row.is_later {
        let script = row.later.as_bytes();
        let later = run_script(alloc, script, &ran.image, (row.given, row.taken), None)?;
        add_report(&later, &mut text)?;
    }
    Ok(text)
}

/// Adds the outcomes where the object fails at each of these calls, but each that is like the one before it only once.
fn add_outcomes(
    alloc: Global,
    row: &Row,
    whole: &Ran,
    of: Outside,
    calls: u64,
    answer: &mut String,
) -> Result<(), AllocError> {
    let mut last = String::new(alloc);
    for call in 1..calls.saturating_add(1) {
        let text = outcome(alloc, row, whole, Failure { of, call })?;
        if text.as_str() != last.as_str() {
            answer.push_str(text.as_str())?;
        }
        last = text;
    }
    Ok(())
}

/// Adds what the script of a row is answered, whether it calls the object oftener than this, the outcomes where each of
/// these calls fails, and where the one after them were to fail.
pub fn answer_each(
    alloc: Global,
    row: &Row,
    of: Outside,
    more_than: u64,
    answer: &mut String,
) -> Result<(), AllocError> {
    let whole = run_failing(alloc, row, None)?;
    add_report(&whole, answer)?;
    let calls = calls_of(whole.calls, of);
    writeln!(answer, "more than {more_than} calls: {}", calls > more_than)?;
    add_outcomes(alloc, row, &whole, of, calls, answer)?;
    answer.push_str("none of its calls: ")?;
    let call = calls.saturating_add(1);
    answer.push_str(outcome(alloc, row, &whole, Failure { of, call })?.as_str())
}
