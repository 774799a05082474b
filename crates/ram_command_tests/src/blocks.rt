//! Rows on numbers of several bytes, blocks and command blocks.
use crate::words::{add_bytes, bytes_of};
use ram_bytes::{
    Block, Budget, Cdb, get_u16, get_u24, get_u32, is_zero, put_u16, put_u24, put_u32,
};
use std::alloc::{AllocError, Global};
use std::fmt::Write;

/// Numbers are put into twelve bytes and taken out of them, and it is told where the bytes are zeros.
pub fn answer_numbers(answer: &mut String) -> Result<(), AllocError> {
    let mut bytes = [0u8; 12];
    put_u16(&mut bytes, 1, 0x0102);
    put_u24(&mut bytes, 3, 0x030405);
    put_u32(&mut bytes, 7, 0x0607_0809);
    add_bytes(answer, &bytes)?;
    let two = get_u16(&bytes, 0);
    let three = get_u24(&bytes, 3);
    let four = get_u32(&bytes, 8);
    write!(answer, " {two:04x} {three:06x} {four:08x}")?;
    write!(
        answer,
        " {} {}",
        is_zero(&bytes[11..]),
        is_zero(&bytes[10..])
    )
}

/// Adds the byte that bytes are full of, or that they are not.
fn add_filled(answer: &mut String, bytes: &[u8]) -> Result<(), AllocError> {
    match bytes.first() {
        Some(first) if bytes.iter().all(|byte| *byte == *first) => {
            write!(answer, "{} of {first:02x}, ", bytes.len())
        }
        _ => answer.push_str("mixed, "),
    }
}

/// Adds what a block has in which one sector is written, and a number over the seam of two.
fn add_sectors(alloc: Global, answer: &mut String) -> Result<(), AllocError> {
    let mut block = Block::zeros(&mut Budget::ample(alloc))?;
    add_filled(answer, block.bytes())?;
    block.set_sector(15, &[7; 2_048]);
    add_filled(answer, block.sector(15))?;
    add_filled(answer, block.sector(14))?;
    put_u32(block.bytes_mut(), 2_046, 0x0102_0304);
    let last = get_u16(block.sector(0), 2_046);
    let first = get_u16(block.sector(1), 0);
    write!(answer, "{last:04x} {first:04x}, ")
}

/// Adds whether two blocks are the same: both new, one filled, the other copied from it.
fn add_copies(alloc: Global, answer: &mut String) -> Result<(), AllocError> {
    let mut block = Block::zeros(&mut Budget::ample(alloc))?;
    let mut other = Block::zeros(&mut Budget::ample(alloc))?;
    let are_new = block.same(&other);
    block.fill(0x5a);
    add_filled(answer, block.bytes())?;
    let is_other = block.same(&other);
    other.copy_from(&block);
    write!(answer, "{are_new} {is_other} {}", block.same(&other))
}

/// Blocks are read and written by sectors, filled, copied and compared.
pub fn answer_block(alloc: Global, answer: &mut String) -> Result<(), AllocError> {
    add_sectors(alloc, answer)?;
    add_copies(alloc, answer)
}

/// `BYTES`: whether they are a command block, its length, its code, its last byte, and all.
pub fn answer_cdb(alloc: Global, words: &[&str], answer: &mut String) -> Result<(), AllocError> {
    let [bytes] = words else {
        return Ok(());
    };
    match Cdb::from_bytes(&bytes_of(alloc, bytes)) {
        Some(cdb) => {
            let last = cdb.byte(cdb.len() - 1);
            write!(
                answer,
                "{} {:02x} {last:02x} ",
                cdb.len(),
                cdb.operation_code()
            )?;
            add_bytes(answer, cdb.bytes())
        }
        None => answer.push_str("no command block"),
    }
}
