//! Rows on the lines of a script.
use crate::escapes::{add_bytes, bytes_of};
use crate::made::Made;
use ram_bytes::Budget;
use ram_outside::{BothEnds, Conversation, MemSink, MemSource};
use ram_text::{LineReader, NextLine};
use std::alloc::{AllocError, Global};
use std::fmt::Write;

/// A number, 0 where the word is none.
pub fn number_of(word: &str) -> u64 {
    word.parse().unwrap_or(0)
}

/// A conversation that gives these bytes, at most `piece` of them at once, and fails at the call of this number.
fn talk_of(
    alloc: Global,
    bytes: Vec<u8>,
    piece: u64,
    failing: u64,
) -> Result<BothEnds<MemSource, MemSink>, AllocError> {
    let failing = [failing].to_vec(alloc)?;
    let source = MemSource::new(bytes, (piece as usize).max(1), failing);
    Ok(BothEnds::new(source, MemSink::new(alloc, 1, Vec::new(alloc))))
}

/// Adds the lines that come, each with a bar behind it, a mark where it failed, and the last answer.
fn add_lines<T: Conversation>(
    alloc: Global,
    talk: &mut T,
    answer: &mut String,
) -> Result<(), AllocError> {
    let mut reader = LineReader::new(&mut Budget::ample(alloc))?;
    for _ in 0..100u32 {
        match reader.next_line(talk) {
            NextLine::Line => {
                add_bytes(answer, reader.line())?;
                answer.push_str("|")?;
            }
            NextLine::Failed => answer.push_str("!")?,
            last => return write!(answer, " {last:?}"),
        }
    }
    Ok(())
}

/// `PIECE FAILING BYTES`: the lines of these bytes.
pub fn answer_lines(alloc: Global, words: &str, answer: &mut String) -> Result<(), AllocError> {
    let (piece, words) = words.split_once(' ').unwrap_or((words, ""));
    let (failing, text) = words.split_once(' ').unwrap_or((words, ""));
    let bytes = bytes_of(alloc, text)?;
    let mut talk = talk_of(alloc, bytes, number_of(piece), number_of(failing))?;
    add_lines(alloc, &mut talk, answer)
}

/// Adds the first answer, and how many bytes the line has that was found.
fn add_first<T: Conversation>(
    alloc: Global,
    talk: &mut T,
    answer: &mut String,
) -> Result<(), AllocError> {
    let mut reader = LineReader::new(&mut Budget::ample(alloc))?;
    let first = reader.next_line(talk);
    write!(answer, "{first:?}, {} bytes", reader.line().len())
}

/// `PIECE LENGTH END`: the first line of a script whose first line has this length, with this behind it.
pub fn answer_long(alloc: Global, words: &str, answer: &mut String) -> Result<(), AllocError> {
    let (piece, words) = words.split_once(' ').unwrap_or((words, ""));
    let (length, end) = words.split_once(' ').unwrap_or((words, ""));
    let mut script = vec![in alloc; b'a'; number_of(length) as usize]?;
    let end = bytes_of(alloc, end)?;
    script.extend_from_slice(&end)?;
    let mut talk = talk_of(alloc, script, number_of(piece), 0)?;
    add_first(alloc, &mut talk, answer)
}

/// Adds how many lines come, and the last answer.
fn add_count<T: Conversation>(
    alloc: Global,
    talk: &mut T,
    answer: &mut String,
) -> Result<(), AllocError> {
    let mut reader = LineReader::new(&mut Budget::ample(alloc))?;
    for count in 0..2_000u32 {
        let last = reader.next_line(talk);
        if last != NextLine::Line {
            return write!(answer, "{count} lines, {last:?}");
        }
    }
    Ok(())
}

/// `LENGTH`: the lines of a script of LENGTH bytes, in lines of 65,536.
pub fn answer_made(alloc: Global, words: &str, answer: &mut String) -> Result<(), AllocError> {
    let source = Made::new(number_of(words) as usize);
    let mut talk = BothEnds::new(source, MemSink::new(alloc, 1, Vec::new(alloc)));
    add_count(alloc, &mut talk, answer)
}

/// Asks for a line, and adds whether one was buffered, the answer, the line, and how many bytes were taken. True where
/// there was a line.
fn add_step<T: Conversation>(
    reader: &mut LineReader,
    talk: &mut T,
    answer: &mut String,
) -> Result<bool, AllocError> {
    let has_line = reader.has_line();
    let next = reader.next_line(talk);
    write!(answer, "{has_line} {next:?} ")?;
    add_bytes(answer, reader.line())?;
    write!(answer, " {}", reader.taken())?;
    Ok(next == NextLine::Line)
}

/// `PIECE BYTES`: each line of these bytes, with what was buffered before, what is taken then, and how often more
/// was asked for.
pub fn answer_steps(alloc: Global, words: &str, answer: &mut String) -> Result<(), AllocError> {
    let (piece, text) = words.split_once(' ').unwrap_or((words, ""));
    let bytes = bytes_of(alloc, text)?;
    let mut talk = talk_of(alloc, bytes, number_of(piece), 0)?;
    let mut reader = LineReader::new(&mut Budget::ample(alloc))?;
    for _ in 0..100u32 {
        let goes_on = add_step(&mut reader, &mut talk, answer)?;
        write!(answer, " {}", talk.source().calls())?;
        if !goes_on {
            break;
        }
        answer.push_str(" | ")?;
    }
    Ok(())
}
