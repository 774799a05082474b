//! The orders of a row.
use crate::rows::{Row, Runs};
use crate::runs::{Failure, Outside};
use std::alloc::{AllocError, Global};

/// A number, 0 where the word is none.
fn number_of(word: &str) -> usize {
    word.parse().unwrap_or(0)
}

/// A call, counted from 1 on.
fn call_of(word: &str) -> u64 {
    word.parse().unwrap_or(0)
}

/// The object of this name.
fn object_of(word: &str) -> Outside {
    match word {
        "source" => Outside::Source,
        "sink" => Outside::Sink,
        "opener" => Outside::Opener,
        _ => Outside::Image,
    }
}

/// Obeys an order on what is told. False where it is none.
fn change_told(row: &mut Row, words: &[&str]) -> bool {
    match *words {
        ["last", lines] => row.told.last = Some(number_of(lines)),
        ["first", lines] => row.told.first = Some(number_of(lines)),
        ["puts"] => row.told.puts = true,
        ["few"] => row.told.few = true,
        _ => return false,
    }
    true
}

/// Has something else run than a script.
fn run(row: &mut Row, runs: Runs) {
    row.runs = runs;
    row.is_begun = true;
}

/// Obeys an order on what is run. False where it is none.
fn change_runs(row: &mut Row, words: &[&str]) -> bool {
    match *words {
        ["generated", number] => run(
            row,
            Runs::Generated {
                number: call_of(number),
            },
        ),
        ["asks"] => row.runs = Runs::Asking,
        ["each", of, more_than] => {
            row.runs = Runs::EachFailure {
                of: object_of(of),
                more_than: call_of(more_than),
            };
        }
        _ => return false,
    }
    true
}

/// Obeys an order on how it is run.
fn change_run(row: &mut Row, words: &[&str]) {
    match *words {
        ["given", count] => row.given = number_of(count),
        ["taken", count] => row.taken = number_of(count),
        ["fail", of, call] => {
            row.failure = Some(Failure {
                of: object_of(of),
                call: call_of(call),
            });
        }
        ["later"] => row.is_later = true,
        _ => {}
    }
}

/// Adds a text to the script this many times, in which `\n`, `\r` and `\t` stand for what ends a line and for a tab.
fn add_text(alloc: Global, row: &mut Row, times: usize, text: &str) -> Result<(), AllocError> {
    let text = text.replace(alloc, "\\n", "\n")?;
    let text = text.replace(alloc, "\\r", "\r")?;
    let text = text.replace(alloc, "\\t", "\t")?;
    for _ in 0..times {
        row.script.push_str(text.as_str())?;
    }
    row.is_begun = true;
    Ok(())
}

/// Obeys an order on a text. False where it is none.
fn change_text(alloc: Global, row: &mut Row, order: &str) -> Result<bool, AllocError> {
    if let Some(text) = order.strip_prefix("exact ") {
        add_text(alloc, row, 1, text)?;
        return Ok(true);
    }
    if let Some(words) = order.strip_prefix("repeat ") {
        let (times, text) = words.split_once(' ').unwrap_or((words, ""));
        add_text(alloc, row, number_of(times), text)?;
        return Ok(true);
    }
    if let Some(words) = order.strip_prefix("words ") {
        row.words.push_str(words)?;
        run(row, Runs::Words);
        return Ok(true);
    }
    Ok(false)
}

/// Obeys an order.
pub fn obey(alloc: Global, row: &mut Row, order: &str) -> Result<(), AllocError> {
    if change_text(alloc, row, order)? {
        return Ok(());
    }
    let words: Vec<&str> = order.split(' ').collect(alloc)?;
    if !change_told(row, &words) && !change_runs(row, &words) {
        change_run(row, &words);
    }
    Ok(())
}
