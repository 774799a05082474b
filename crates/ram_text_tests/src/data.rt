//! Data in a row: `2048*fe+1*1a` is the byte fe 2,048 times, and then 1a once.
use std::alloc::{AllocError, Global};
use std::fmt::Write;

/// Adds one part of data: a byte, repeated.
fn add_part(data: &mut Vec<u8>, part: &str) -> Result<(), AllocError> {
    let (count, byte) = part.split_once('*').unwrap_or(("0", ""));
    let count: usize = count.parse().unwrap_or(0);
    let byte = u8::from_str_radix(byte, 16).unwrap_or(0);
    data.resize(data.len().saturating_add(count), byte)
}

/// The data for which a word stands.
pub fn data_of(alloc: Global, word: &str) -> Result<Vec<u8>, AllocError> {
    let mut data = Vec::new(alloc);
    for part in word.split('+') {
        add_part(&mut data, part)?;
    }
    Ok(data)
}

/// Adds how many bytes there are, and the byte that each of them is, or the first and the last.
pub fn add_data(answer: &mut String, data: &[u8]) -> Result<(), AllocError> {
    let (Some(first), Some(last)) = (data.first(), data.last()) else {
        return answer.push_str(", no data");
    };
    write!(answer, ", {} bytes {first:02x}", data.len())?;
    if data.iter().any(|byte| *byte != *first) {
        write!(answer, " to {last:02x}")?;
    }
    Ok(())
}
