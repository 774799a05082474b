//! The words of a row, and of an answer: bytes in hexadecimal digits, `-` where there are none, and sense by its three
//! numbers.
use ram_sense::Sense;
use std::alloc::{AllocError, Global};
use std::fmt::Write;

/// The bytes of a word, none where it is `-` or no digits.
pub fn bytes_of(alloc: Global, word: &str) -> Vec<u8> {
    match hex::decode(alloc, word) {
        Ok(bytes) => bytes,
        Err(_) => Vec::new(alloc),
    }
}

/// A decimal number, 0 where the word is none.
pub fn number_of(word: &str) -> u32 {
    word.parse().unwrap_or(0)
}

/// Adds bytes.
pub fn add_bytes(answer: &mut String, bytes: &[u8]) -> Result<(), AllocError> {
    if bytes.is_empty() {
        return answer.push_str("-");
    }
    for byte in bytes {
        write!(answer, "{byte:02x}")?;
    }
    Ok(())
}

/// Adds a sense.
pub fn add_sense(answer: &mut String, sense: &Sense) -> Result<(), AllocError> {
    write!(
        answer,
        "{:x}/{:02x}/{:02x}",
        sense.key, sense.asc, sense.ascq
    )
}
