//! Short forms of the script's lines, for rows and tests: `R L N` is READ(10) of N sectors from sector L on, and
//! `W L N ..` is WRITE(10), with its data behind. Every other line stands as it is.
use std::alloc::AllocError;
use std::fmt::Write;

/// Adds a line, and its line feed, to a script.
pub fn add_line(script: &mut String, line: &str) -> Result<(), AllocError> {
    if let Some(words) = line.strip_prefix("R ") {
        return add_transfer(script, "28", words);
    }
    if let Some(words) = line.strip_prefix("W ") {
        return add_transfer(script, "2a", words);
    }
    writeln!(script, "{line}")
}

/// Adds the command of this code that moves sectors: the first one, how many, and the data if there are any.
fn add_transfer(script: &mut String, code: &str, words: &str) -> Result<(), AllocError> {
    let (first, words) = words.split_once(' ').unwrap_or((words, "0"));
    let (count, payload) = words.split_once(' ').unwrap_or((words, ""));
    let first: u32 = first.parse().unwrap_or(0);
    let count: u16 = count.parse().unwrap_or(0);
    writeln!(script, "cdb {code}00{first:08x}00{count:04x}00 {payload}")
}
