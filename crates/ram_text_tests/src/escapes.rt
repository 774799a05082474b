//! Bytes in a row: `\n`, `\r` and `\t` stand for a line feed, a carriage return and a tab.
use std::alloc::{AllocError, Global};

/// The byte for which a letter behind a backslash stands.
fn byte_of(letter: u8) -> u8 {
    match letter {
        b'n' => b'\n',
        b'r' => b'\r',
        b't' => b'\t',
        other => other,
    }
}

/// The bytes for which a text stands.
pub fn bytes_of(alloc: Global, text: &str) -> Result<Vec<u8>, AllocError> {
    let mut bytes = Vec::new(alloc);
    let mut is_escaped = false;
    for byte in text.as_bytes() {
        if is_escaped {
            bytes.push(byte_of(*byte))?;
            is_escaped = false;
        } else if *byte == b'\\' {
            is_escaped = true;
        } else {
            bytes.push(*byte)?;
        }
    }
    Ok(bytes)
}

/// Adds bytes as such a text.
pub fn add_bytes(text: &mut String, bytes: &[u8]) -> Result<(), AllocError> {
    for byte in bytes {
        match *byte {
            b'\n' => text.push_str("\\n")?,
            b'\r' => text.push_str("\\r")?,
            b'\t' => text.push_str("\\t")?,
            other => text.push(char::from(other))?,
        }
    }
    Ok(())
}
