//! The arithmetic of requests: which part of each logical block a request for sectors covers, and the copies between
//! the bytes of a block and those of a request. It knows neither medium nor drive, and takes no memory.
//!
//! - `Request`: sectors that end at sector 2^28 at the latest (`low`), however many they are.
//! - `Part`: the sectors of a request in one block: from the first to the end of them (`start_is`, `end_is`), at least one
//!   (`some`).
//!
//! These facts are fields of the types, so no call asks for them again.
//!
//! - `Request::within`: the request, or nothing exactly where some sector lies past the capacity (its one clause).
//! - `Request::blocks`: how many blocks it covers (`blocks_covered`). That a block is covered exactly where it holds a sector of
//!   the request is a law: `a_block_is_covered_where_it_holds_a_sector` of `model_sectors`.
//! - `Request::part`: the part in the block after `k` others (`request`, `block`).
//! - `Part::is_partly`: whether it is less than the whole block (its one clause).
//! - `Part::skipped`: the byte of the request at which it begins (its one clause).
//! - `Part::copy_out`: its bytes of the block, and no others, are put to their places in the request's (its one clause,
//!   `filled_by`).
//! - `Part::merge`: its bytes of the request, and no others, are put to their places in the block (`merged`, `merged_in`).
//! - `Part::merged`: the bytes of the block with those of the part in their places (`merged`, `merged_in`), as many as a block
//!   has (`whole`). What the caller's block has then is not said.
//!
//! That merging the parts one after another makes the disc with the whole request is in `model_sectors` (`replaced-with_part` in
//! `proofs/Merges.antt`). That copying them out one after another gives the disc's sectors is in `proofs/ReadBytes.antt`, with
//! the uses of a medium that the blocks take: lemmas over numbers and lists, for every drive that reads by parts.
//!
//! - **Only tested:** nothing; every result is exact.
//! - **Neither proved nor tested:** how long a call takes, and that `merged` moves no byte where the part is the whole block.
//! - **Trusted:** the toolchain, and what it knows of slices.
//! - **Stands on:** `ram_bytes`, `model_sectors`, `model_buffer`, `model_bytes`.
#![tactic(auto)]

mod parts;
mod requests;

pub use model_sectors::MOST_SECTORS;
pub use parts::Part;
pub use requests::Request;
