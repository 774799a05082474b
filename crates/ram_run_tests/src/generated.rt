//! Scripts that are drawn from a number, and their summaries.
use crate::runs::{PIECE, Ran, run_script, run_words};
use ram_generate::{SCRIPT_ROOM, draw_script};
use std::alloc::{AllocError, Global};
use std::fmt::Write;

/// The words of this line of a report, where it answers a command of the script.
fn command_answer<'a>(script: &[&str], line: &'a str) -> Option<&'a str> {
    let (number, words) = line.split_once(' ')?;
    let place = number.parse::<usize>().ok()?.checked_sub(1)?;
    script.get(place)?.starts_with("cdb").then_some(words)
}

/// How many of the answers begin with these words, and how many there are.
fn count_answers(script: &[&str], report: &str, words: &str) -> (u64, u64) {
    let mut found = 0u64;
    let mut all = 0u64;
    for line in report.lines() {
        if let Some(answer) = command_answer(script, line) {
            all = all.saturating_add(1);
            if answer.starts_with(words) {
                found = found.saturating_add(1);
            }
        }
    }
    (found, all)
}

/// Whether each count of a summary is that of a report, and they are all of its answers to commands.
fn counts_are_those(script: &[&str], report: &str, summary: &str) -> bool {
    let (_, all) = count_answers(script, report, "");
    let mut sum = 0u64;
    for line in summary.lines() {
        let Some((words, number)) = line.rsplit_once(' ') else {
            return false;
        };
        if words == "generated" || words == "end" {
            continue;
        }
        let (found, _) = count_answers(script, report, words);
        if number.parse::<u64>().ok() != Some(found) {
            return false;
        }
        sum = sum.saturating_add(found);
    }
    sum == all
}

/// Whether the summary of a run has the counts of the report of its script.
fn has_counts(
    alloc: Global,
    script: &[u8],
    report: &[u8],
    summary: &[u8],
) -> Result<bool, AllocError> {
    let (Ok(script), Ok(report), Ok(summary)) = (
        str::from_utf8(script),
        str::from_utf8(report),
        str::from_utf8(summary),
    ) else {
        return Ok(false);
    };
    let lines: Vec<&str> = script.lines().collect(alloc)?;
    Ok(counts_are_those(&lines, report, summary))
}

/// The run of the program's words for the script of this number.
fn summed(alloc: Global, number: u64) -> Result<Ran, AllocError> {
    let mut words = String::new(alloc);
    write!(words, "generate|disc|{number}")?;
    run_words(alloc, words.as_str(), None)
}

/// Adds whether the summary of the script of this number is the same twice, has the counts of its report, and comes with
/// the same image.
pub fn answer_generated(alloc: Global, number: u64, answer: &mut String) -> Result<(), AllocError> {
    let mut script = Vec::with_capacity(alloc, SCRIPT_ROOM)?;
    draw_script(&mut script, number);
    let reported = run_script(alloc, &script, b"", (PIECE, PIECE), None)?;
    let first = summed(alloc, number)?;
    let again = summed(alloc, number)?;
    let is_same = again.has(first.status, &first.report);
    writeln!(answer, "the same again: {is_same}")?;
    let has_counts = has_counts(alloc, &script, &reported.report, &first.report)?;
    writeln!(answer, "its counts are those of the report: {has_counts}")?;
    let has_image = reported.image.as_slice() == first.image.as_slice();
    writeln!(answer, "its image is that of the script: {has_image}")
}
