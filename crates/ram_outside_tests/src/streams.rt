//! Rows on sources and sinks in memory.
ghost use Rattle.std.specs.Prelude.{◌<◌};

use ram_outside::{MemSink, MemSource, Put, Sink, Source, Take};
use std::alloc::{AllocError, Global};
use std::fmt::Write;

/// A number, 0 where the word is none.
pub fn number_of(word: &str) -> u64 {
    word.parse().unwrap_or(0)
}

/// How many bytes a source or a sink moves at once, at least one.
fn piece_of(word: &str) -> usize
    ensures { 0 < result }
{
    (number_of(word) as usize).max(1)
}

/// The numbers of a word, with commas between them.
pub fn numbers_of(alloc: Global, word: &str) -> Result<Vec<u64>, AllocError> {
    let mut numbers = Vec::new(alloc);
    for number in word.split(',') {
        numbers.push(number_of(number))?;
    }
    Ok(numbers)
}

/// Puts all bytes into a sink, and says how many pieces that took.
fn put_all<K: Sink>(sink: &mut K, bytes: &[u8]) -> u64 {
    let mut rest = bytes;
    for pieces in 0..1_000 {
        if rest.is_empty() {
            return pieces;
        }
        let Put::Took(count) = sink.put(rest) else {
            return pieces;
        };
        rest = &rest[count..];
    }
    1_000
}

/// Moves what the source gives, at most seven bytes at once, into the sink, and says how many pieces that took.
fn copy<S: Source, K: Sink>(source: &mut S, sink: &mut K) -> u64 {
    let mut buffer = [0; 7];
    let mut pieces = 0u64;
    for _ in 0..1_000 {
        let Take::Got(count) = source.take(&mut buffer) else {
            break;
        };
        pieces = pieces.saturating_add(put_all(sink, &buffer[..count]));
    }
    pieces
}

/// The bytes of a text, in which a bar stands for a line feed.
fn bytes_of(alloc: Global, text: &str) -> Result<Vec<u8>, AllocError> {
    let mut bytes = Vec::new(alloc);
    for byte in text.as_bytes() {
        bytes.push(if *byte == b'|' { b'\n' } else { *byte })?;
    }
    Ok(bytes)
}

/// `GIVEN TAKEN TEXT`: the text goes from a source that gives this many bytes at once into a sink that takes as many.
pub fn answer_copy(alloc: Global, words: &str, answer: &mut String) -> Result<(), AllocError> {
    let (given, words) = words.split_once(' ').unwrap_or((words, ""));
    let (taken, text) = words.split_once(' ').unwrap_or((words, ""));
    let bytes = bytes_of(alloc, text)?;
    let mut source = MemSource::new(bytes.to_vec(alloc)?, piece_of(given), Vec::new(alloc));
    let mut sink = MemSink::new(alloc, piece_of(taken), Vec::new(alloc));
    let reserved = sink.reserve(text.len());
    let pieces = copy(&mut source, &mut sink);
    let are_same = sink.bytes() == bytes.as_slice();
    write!(
        answer,
        "{reserved:?}, {pieces} pieces, {} takes, {} puts, the same bytes: {are_same}",
        source.calls(),
        sink.calls()
    )
}

/// Adds what a source gives into five bytes, and the bytes that are then there.
fn add_take<S: Source>(source: &mut S, answer: &mut String) -> Result<(), AllocError> {
    let mut into = *b"-----";
    let take = source.take(&mut into);
    let bytes = str::from_utf8(&into).unwrap_or("no text");
    write!(answer, " {take:?} {bytes}")
}

/// `PIECE FAILING TIMES TEXT`: what a source gives that fails at these calls.
pub fn answer_source(alloc: Global, words: &str, answer: &mut String) -> Result<(), AllocError> {
    let words: Vec<&str> = words.split(' ').collect(alloc)?;
    let [piece, failing, times, text] = words.as_slice() else {
        return Ok(());
    };
    let bytes = text.as_bytes().to_vec(alloc)?;
    let mut source = MemSource::new(bytes, piece_of(piece), numbers_of(alloc, failing)?);
    for _ in 0..number_of(times) {
        add_take(&mut source, answer)?;
    }
    Ok(())
}

/// Puts a text into a sink, and adds what it took.
fn add_put<K: Sink>(sink: &mut K, text: &str, answer: &mut String) -> Result<(), AllocError> {
    if text.is_empty() {
        return Ok(());
    }
    let put = sink.put(text.as_bytes());
    write!(answer, " {put:?}")
}

/// `PIECE FAILING TIMES TEXT`: what a sink takes of a text that fails at these calls, and the bytes that it then has.
pub fn answer_sink(alloc: Global, words: &str, answer: &mut String) -> Result<(), AllocError> {
    let words: Vec<&str> = words.split(' ').collect(alloc)?;
    let [piece, failing, times, text] = words.as_slice() else {
        return Ok(());
    };
    let mut sink = MemSink::new(alloc, piece_of(piece), numbers_of(alloc, failing)?);
    for _ in 0..number_of(times) {
        add_put(&mut sink, text, answer)?;
        let came = str::from_utf8(sink.bytes()).unwrap_or("no text");
        write!(answer, " {came}")?;
    }
    Ok(())
}
