//! The write of one logical block with linear replacement: to its home, or, where that is dead, to a spare, with the
//! update of the secondary list that says so. It takes no memory.
//!
//! - Where the home is dead, one free spare after another is tried, until one has the bytes; then the secondary list that says so
//!   is updated, and taken over.
//! - This is linear replacement, for one block, on any medium.
//! - It works over any layout (`Layout` of `ram_layout`) that is the disc's. The search begins at the cursor of the block's pool,
//!   and the cursor stands behind the spare once the block is there, so no spare is looked at again by a later write.
//! - The loop over the blocks of a request is not here, and neither is the buffer; which spare comes next is in `ram_spare`, and
//!   what an update of a list does in `ram_copies`.
//!
//! The list of a move is made in a list of its own, the draft, and the list in use changes only once a copy of the new one can be
//! read.
//!
//! - The draft gets a counter one greater; then the spares that failed are retired, in their order; then the block gets its pair
//!   with the spare; then its former replacement is retired, if it had one.
//! - In this order each step is a valid list, so none has more entries than there are spares, and no memory is taken.
//! - The new list has the version of the one in use.
//!
//! So wherever it is stopped, the cells give the lists before, under which the disc is as it was or has the new block, or the
//! lists after, under which it has the new block. That is one record over discs that differ in one block (`StopsAtBlock`), with
//! no list and no spare in it.
//!
//! # What is proved
//!
//! Of `place_block`, which crates call with the power on and which answers a `Result`, and of `write_home`, a border over it
//! (`src/writing.rt`), on any medium:
//!
//! - Done: the block went to its home, or, where that is dead, to the first free spare that was not; more below: `rule`
//!   (`PlacesBlock`, with `PutsBlock` of `model_drive`).
//! - NoSpare: the home and all free spares are dead. NoUpdate: the home is dead, and a spare has the bytes, but all copies of the
//!   secondary list are dead, or its counter is the last one; the answer has that counter. In both the lists and the disc are as
//!   before and settled, also where no copy of the list in use is left, and the uses are exact: `rule` (`MeetsNoSpare`,
//!   `MeetsNoCopy`).
//! - Cut, Fault, at any use: the lists in memory are as before; the cells give the lists before or those of a move, and no
//!   others, and the disc before or the one after fits under them. The copies are settled still; or the update was stopped, and
//!   in the areas before one each cell is done, and in those after it as it was or dead (`LeavesPlacing` of `model_drive`). The
//!   count of cuts rose by one, or that of faults rose, within as many uses as all free spares and an update take: `rule`
//!   (`PlacingStopped`, with `StopsAtBlock`).
//! - Off: the power was off, and nothing was done. Every other answer says that the power was on: `rule` (`FoundOff`).
//! - no cell changes but those of the home, of free spares and of the secondary list: `rule` (`only` in each record).
//! - after Done, where cells are known, `back` has just the block's bytes: `back` (`LeavesReadBack`).
//! - Done: either the block is in the home that it had, and neither the secondary list nor a cursor changed; or the list is the
//!   next one, and the cursor of the block's pool stands behind the spare that is its home now. Every other answer leaves the
//!   cursors: `cursors` (`LeavesCursors`, `CursorsPlaced`).
//! - after every answer the cursors fit the list in use: each spare before them is named; the pools of the layout are the disc's;
//!   the lists are valid and the secondary one is of its grammar, and the number of blocks of the medium is as before: `fit`
//!   (`IsFit` of `ram_lists`).
//!
//! After Done:
//!
//! - The lists are just those that this makes, and each of their copies is exactly its text or dead.
//! - A disc that fitted before fits with the new bytes in this block.
//! - The uses are 2 for the home and, where it is dead, 2 for each spare that was tried and 8 for each part of the list: one
//!   part, or two.
//! - A list that is taken over has a copy that can be read, and a block that went home leaves the copies as they were.
//!
//! Where a block went, and what is dead or has bytes, is said where cells are known.
//!
//! `back` has them because the block was read back into it, from its home or from the spare. The update of a list reads back into
//! a room of its own, so no byte is copied.
//!
//! The private functions have clauses too, over the pools of any layout: `find_spare` (`specs/Spares.antt`), which tries the free
//! spares of one pool, and `draft_moved` and what it is made of (`src/drafts.rt`), which ask that the entries are valid under the
//! pools, that each block of these is a data block, and that they have no more spares than a list of the version has entries.
//!
//! - That the lists of a move are valid, that one home moves and no other, and which discs fit while a block is written are laws
//!   of `model_volume`.
//! - `proofs/Placing.antt` puts the steps together, `proofs/Moving.antt` has the draft, `proofs/Behind.antt` the cursors.
//!
//! # What is neither
//!
//! Speed: each spare that is tried is looked for again when it is retired.
//!
//! # What is trusted
//!
//! The definitions of `model_drive`, `model_volume` and those below them. Linear replacement is after ECMA-330; the order of the
//! spares and of the steps is this project's own.
#![tactic(auto)]

mod drafts;
mod spares;
mod writing;

pub use writing::{Outcome, Placed, place_block, write_home};
