//! Rows on what command blocks ask for, and why they are refused.
use crate::words::{add_sense, bytes_of, number_of};
use ram_bytes::Cdb;
use ram_cdb::{Command, decode, known, out_length};
use ram_sense::Sense;
use std::alloc::{AllocError, Global};
use std::fmt::Write;

/// Adds what a command block asks for, or why it is refused.
fn add_decoded(answer: &mut String, decoded: &Result<Command, Sense>) -> Result<(), AllocError> {
    match decoded {
        Ok(command) => write!(answer, "{command:?}"),
        Err(sense) => add_sense(answer, sense),
    }
}

/// Adds what a command block with this data asks for.
fn add_command(answer: &mut String, cdb: &[u8], data: &[u8]) -> Result<(), AllocError> {
    match Cdb::from_bytes(cdb) {
        Some(cdb) => add_decoded(answer, &decode(&cdb, data)),
        None => answer.push_str("no command block"),
    }
}

/// `CDB DATA`: what it asks for with this data.
pub fn answer_decode(alloc: Global, words: &[&str], answer: &mut String) -> Result<(), AllocError> {
    match words {
        [cdb, data] => add_command(answer, &bytes_of(alloc, cdb), &bytes_of(alloc, data)),
        _ => Ok(()),
    }
}

/// `CDB COUNT`: what it asks for with data of that many zeros.
pub fn answer_zeros(alloc: Global, words: &[&str], answer: &mut String) -> Result<(), AllocError> {
    let [cdb, count] = words else {
        return Ok(());
    };
    let data = vec![in alloc; 0; number_of(count) as usize]?;
    add_command(answer, &bytes_of(alloc, cdb), &data)
}

/// `CDB`: whether it is known, and how many bytes of data go with it.
pub fn answer_data(alloc: Global, words: &[&str], answer: &mut String) -> Result<(), AllocError> {
    let [cdb] = words else {
        return Ok(());
    };
    match Cdb::from_bytes(&bytes_of(alloc, cdb)) {
        Some(cdb) => write!(answer, "known {}, {} bytes", known(&cdb), out_length(&cdb)),
        None => answer.push_str("no command block"),
    }
}

/// Adds the answer to a command block of this length, with this code and zeros, with three bytes of data.
fn add_length(
    alloc: Global,
    code: u8,
    length: usize,
    answer: &mut String,
) -> Result<(), AllocError> {
    let mut cdb = vec![in alloc; 0; length]?;
    if let Some(first) = cdb.first_mut() {
        *first = code;
    }
    answer.push_str(" ")?;
    add_command(answer, &cdb, &[1, 2, 3])
}

/// `CODE`: what command blocks of 1 to 12 bytes are answered, of this code and else zeros, with
/// three bytes of data.
pub fn answer_lengths(
    alloc: Global,
    words: &[&str],
    answer: &mut String,
) -> Result<(), AllocError> {
    let [code] = words else {
        return Ok(());
    };
    let code = u8::from_str_radix(code, 16).unwrap_or(0);
    for length in 1..13usize {
        add_length(alloc, code, length, answer)?;
    }
    Ok(())
}
