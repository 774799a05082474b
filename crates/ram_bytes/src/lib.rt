//! Big-endian numbers in bytes, blocks of sixteen sectors, command blocks, and memory within a budget.
//!
//! # What is proved
//!
//! - `get_u16`, `get_u24`, `get_u32`: the number at that place, the highest byte first.
//! - `put_u16`, `put_u24`, `put_u32`: the bytes of the number stand at that place, and no other byte changed.
//! - `encode_hex`: the digits are exactly those of the bytes (`encode_lower` of the kit's `hex`).
//! - `is_zero`: exactly whether each byte is zero.
//! - `Budget::new`: this many bytes may be asked for.
//! - `room`, `zeros`, `boxed`: what is asked for is no more than is left, and it is taken off, also where it is refused. Then
//!   there is the room, or the zeros, or the value. Only a request that the system refused makes a `MemoryRefused`, since the
//!   type has a private field.
//! - `ample`: a budget for tests: 10^12 bytes.
//! - `Block::zeros`: a block of 32,768 zeros, whose bytes are taken off the budget; or the system refused them.
//! - `bytes`, `bytes_mut`, `sector`: the block's bytes; those of a sector are its sixteenth. A block has 32,768 bytes always.
//! - `set_sector`, `copy_from`, `fill`: exactly which bytes it then has.
//! - `same`: exactly whether both have the same bytes.
//! - `Cdb::from_bytes`: the command block of 1 to 16 bytes; none for none, or for more.
//! - `len`, `byte`, `bytes`, `operation_code`: its bytes, and the first of them.
//! - `limits_are_these`: a sector has 2,048 bytes, a block 16 sectors and 32,768 bytes, a command block at most 16 bytes.
//!
//! # What is neither
//!
//! How fast it is.
//!
//! # What is trusted
//!
//! `byteorder`, `arrayvec` and `hex` of the kit, by their contracts.
#![tactic(auto)]

ghost use Rattle.std.specs.Prelude.{◌≡◌};
ghost use Rattle.ram_bytes.specs.declared.block.TheConstants.{BLOCK_BYTES, SECTOR_BYTES, SECTORS_PER_BLOCK};
ghost use Rattle.ram_bytes.specs.declared.cdb.TheConstants.{CDB_LIMIT};

pub mod block;
pub mod budget;
pub mod cdb;
pub mod digits;
pub mod number;

pub use block::{BLOCK_BYTES, Block, SECTOR_BYTES, SECTORS_PER_BLOCK};
pub use budget::{Budget, MemoryRefused};
pub use cdb::{CDB_LIMIT, Cdb};
pub use digits::encode_hex;
pub use number::{get_u16, get_u24, get_u32, is_zero, put_u16, put_u24, put_u32};

/// The numbers that contracts share with the code.
pub fn limits_are_these()
    ensures sector { SECTOR_BYTES ≡ 2048 }
    ensures sectors { SECTORS_PER_BLOCK ≡ 16 }
    ensures block { BLOCK_BYTES ≡ 32768 }
    ensures command_block { CDB_LIMIT ≡ 16 }
{}
