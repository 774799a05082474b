//! Rows on what one line is read as.
use crate::data::add_data;
use crate::escapes::bytes_of;
use crate::lines::number_of;
use ram_text::{LINE_LIMIT, Line, PAYLOAD_ROOM, Unread, parse_line};
use std::alloc::{AllocError, Global};
use std::fmt::Write;

/// Adds what a line was read as: a command by its bytes in hexadecimal digits.
fn add_read(answer: &mut String, read: &Result<Line, Unread>) -> Result<(), AllocError> {
    match read {
        Ok(Line::Command { cdb }) => {
            answer.push_str("cdb ")?;
            for byte in cdb.bytes() {
                write!(answer, "{byte:02x}")?;
            }
            Ok(())
        }
        Ok(line) => write!(answer, "{line:?}"),
        Err(unread) => write!(answer, "{unread:?}"),
    }
}

/// Adds what a line is read as, and its data.
fn answer_line(alloc: Global, line: &[u8], answer: &mut String) -> Result<(), AllocError> {
    if line.len() > LINE_LIMIT {
        return answer.push_str("too long");
    }
    let mut payload = Vec::with_capacity(alloc, PAYLOAD_ROOM)?;
    let read = parse_line(line, &mut payload);
    add_read(answer, &read)?;
    add_data(answer, &payload)
}

/// `BYTES`: what this line is read as.
pub fn answer_parse(alloc: Global, words: &str, answer: &mut String) -> Result<(), AllocError> {
    let line = bytes_of(alloc, words)?;
    answer_line(alloc, &line, answer)
}

/// `COUNT LETTER BEGINNING`: how a line is read that begins with BEGINNING, followed by COUNT times this letter.
pub fn answer_digits(alloc: Global, words: &str, answer: &mut String) -> Result<(), AllocError> {
    let (count, words) = words.split_once(' ').unwrap_or((words, ""));
    let (letter, beginning) = words.split_once(' ').unwrap_or((words, ""));
    let mut line = bytes_of(alloc, beginning)?;
    for _ in 0..number_of(count) {
        line.extend_from_slice(letter.as_bytes())?;
    }
    answer_line(alloc, &line, answer)
}
