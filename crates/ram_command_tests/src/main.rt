//! Reads command blocks and parameter lists, and fills replies, where no proof reaches: that the tables are the ones that
//! are meant. The rows stand in `stdin`, and what each must be answered in `stdout`.
//!
//! A line that begins with `== ` is a title, and is printed as it is. Each other line is a row. The README lists them.
#![tactic(auto)]

mod blocks;
mod decoding;
mod modes;
mod words;

use crate::blocks::{answer_block, answer_cdb, answer_numbers};
use crate::decoding::{answer_data, answer_decode, answer_lengths, answer_zeros};
use crate::modes::{answer_select, answer_sense, answer_sense_6};
use std::alloc::{AllocError, Global};
use std::io;

fn main(rt: HostRuntime) -> io::Result<()> {
    for row in rt.lines(rt.alloc()) {
        let row = row?;
        let mut answer = String::new(rt.alloc());
        answer_row(rt.alloc(), row.as_str(), &mut answer)?;
        println!(rt; "{answer}")?;
    }
    Ok(())
}

/// Adds the answer of a row on a block, a number or a command block, by its first word.
fn answer_bytes_row(
    alloc: Global,
    word: &str,
    words: &[&str],
    answer: &mut String,
) -> Result<(), AllocError> {
    match word {
        "numbers" => answer_numbers(answer),
        "block" => answer_block(alloc, answer),
        "cdb" => answer_cdb(alloc, words, answer),
        _ => answer.push_str("no such row"),
    }
}

/// Adds the answer of a row, by its first word.
fn answer_row(alloc: Global, row: &str, answer: &mut String) -> Result<(), AllocError> {
    let words: Vec<&str> = row.split(' ').collect(alloc)?;
    let Some((word, words)) = words.split_first() else {
        return Ok(());
    };
    match *word {
        "==" => answer.push_str(row),
        "data" => answer_data(alloc, words, answer),
        "decode" => answer_decode(alloc, words, answer),
        "zeros" => answer_zeros(alloc, words, answer),
        "lengths" => answer_lengths(alloc, words, answer),
        "sense" => answer_sense(alloc, words, answer),
        "sense6" => answer_sense_6(alloc, words, answer),
        "select" => answer_select(alloc, words, answer),
        word => answer_bytes_row(alloc, word, words, answer),
    }
}
