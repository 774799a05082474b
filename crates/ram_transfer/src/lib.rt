//! Transfers: the logical blocks of a request are read, written or verified one after another, on any medium, over the lists in
//! use and the buffer. What a drive with its power on works in is taken once.
//!
//! Here is also what a drive works in: `Workspace`, which has the buffer, the layout with its cursors, and the room for blocks
//! and lists; and `Memory`, which is all of it with the lists in use. It is taken once, when a drive is made, and goes from state
//! to state with the drive.
//!
//! # What is proved
//!
//! The private functions have clauses too, on any medium: `specs/Blocks.antt` has the fetch of a block, `specs/Reading.antt` and
//! `specs/Writing.antt` what is done with one part.
//!
//! A read is a loop over the parts of its request (`ram_requests`).
//!
//! - A block that is buffered is copied out of the buffer.
//! - Of a request that covers sixteen blocks or more, none of them buffered (`is_long`), one that is covered wholly and is not
//!   among the last eight is read from its home straight to its place among the request's bytes (`read_past`): the last eight
//!   push it out in any case.
//! - Every other one is read into the drive's own block, its sectors are copied out, and into the buffer it goes by an exchange.
//! - Where a block of such a request cannot be read, up to eight before it are put into the buffer out of the request's bytes
//!   (`put_before`): so the buffer is the same as if each block had gone through it, as the clause `rule` says.
//! - `proofs/ReadAhead.antt` has the turns of the loop with a buffer that is behind, over those of `proofs/ReadTurns.antt`; which
//!   numbers it has then is in `proofs/Behind.antt`.
//!
//! A verification is a loop over the same parts (`src/verifying.rt`): the home of each block is read into the drive's own block,
//! past the buffer. `specs/Verifying.antt` says what it does, and `proofs/VerifyTurns.antt` has its turns.
//!
//! A write is a loop over the logical blocks of its request (`src/writing.rt`).
//!
//! - The home of a block is looked up once, for the read of its rest and for the write.
//! - A block that is covered wholly is written straight from the bytes of the request; the rest of any other one is in the
//!   drive's own block, and the part is merged into it (`Part::merged`).
//! - A block is buffered by an exchange with the room into which it was read back, from its home or from the spare to which it
//!   moved.
//! - So a write of whole blocks copies no byte.
//! - What the write of one part comes to is told as the answer of a write of this part alone (`WritesPart`): the first that is
//!   not good is the answer of the whole.
//! - What is buffered are the bytes that were written, where cells are known (`PutsPart`).
//! - `specs/Writing.antt` has what the look for the rest of a block and the write of its part do; `proofs/Rests.antt`,
//!   `WriteTurns.antt` and `WriteEnds.antt` take them to the turns of `model_drive`.
//!
//! What the caller's bytes are after another end than that of a whole read is not said.
//!
//! # What is neither
//!
//! How often the bytes of a block are moved.
//!
//! # What is trusted
//!
//! The definitions of `model_drive` and of those below it. That homes are after linear replacement is ECMA-330's; the rest is
//! this project's own.
#![tactic(auto)]

mod fetching;
mod homes;
mod memory;
mod reading;
mod verifying;
mod writing;

pub use memory::{Memory, VOLUME_MEMORY, WORKSPACE_MEMORY, Workspace};
pub use reading::{ended_at, read_parts};
pub use verifying::read_homes;
pub use writing::write_parts;
