//! The expansion of the supplementary spare area: a formatted disc has fewer sectors then, and its last blocks become
//! spares. It takes no memory.
//!
//! The new secondary list is made in a list of its own, the draft: a copy of the list in use, with a counter one greater and the
//! larger area, in which each defective block that is a spare now is retired.
//!
//! - So a pair whose block becomes a spare loses its replacement, which is free again; every other entry is as before, and so is
//!   the home of each block that stays.
//! - It keeps the version, and so the number of parts. The draft is updated by `ram_copies`, and the list in use changes only
//!   once a copy of the new one can be read.
//!
//! So wherever the update is stopped, the disc as it was fits under the lists before, and its first sectors under the lists
//! after.
//!
//! # What is proved
//!
//! Of `grow`, which crates call with the power on and which answers a `Result`, and of `expand_lists`, a border over it
//! (`src/expanding.rt`), on any medium:
//!
//! - Good: the capacity is the present one, nothing was done, and the lists are as before; or it is smaller and the counter had
//!   room, and in 8 uses for each of its parts, one or two, the secondary list was updated. Then the lists are just the new ones,
//!   each of their copies is exactly its text or dead, and one of the secondary list can be read. Of a disc that fitted before
//!   the first sectors fit: `rule` (`KeepsSize`, `HasGrown`).
//! - Refused, exactly for a capacity of 0, no multiple of 16, greater than the present one, one that leaves more spares in all
//!   than a disc of its version may have, 4,092 or 8,184, or with a group of spares in each zone one smaller than the present
//!   one: nothing was done: `rule` (`RefusesCapacity`, with `IsLawfulSize` of `model_drive`).
//! - NoUpdate: the capacity is smaller, and no copy of the secondary list is left now, after these uses, or its counter is the
//!   last one, and there was no use; the answer has that counter. The lists and the disc are as before, and settled: `rule`
//!   (`LacksUpdate`).
//! - Cut, Fault, at any use of the update: the lists in memory are as before; the cells give those or the new ones, and no
//!   others, and the disc or its first sectors fit under them. The count of cuts rose by one, or that of faults rose, within the
//!   uses of the update. In the areas before one each cell of the copies is done, and in those after it as it was or dead
//!   (`LeavesSdl` of `model_survival`): `rule` (`StopsGrowing`).
//! - Off: the power was off, and nothing was done. Every other answer says that the power was on: `rule` (`FindsOff`).
//! - no cell changes but those of the secondary list's copies; after Good and NoUpdate neither a cut nor a fault is counted:
//!   `rule` (`CallEnds`, `StoppedWithin`).
//! - after every answer the lists are valid and the secondary one is of its grammar, and the number of blocks of the medium is as
//!   before: `fit` (`AreFit`).
//!
//! That a copy can be read is said where cells are known.
//!
//! The private functions have clauses too: `size_of` and `area_for` (`src/sizes.rt`) decide what a capacity is to a disc;
//! `draft_expanded` and what it is made of (`src/drafts.rt`) make the new list.
//!
//! - That the new lists are valid, that no home moves, and which discs fit while the list is written are laws of `model_volume`.
//! - `proofs/Drafting.antt` has the draft, entry after entry, and `proofs/Growing.antt` puts the steps together on the cells.
//!
//! # What is neither
//!
//! Speed: each entry is looked up in the draft by halving, and its block among the spares by sums.
//!
//! # What is trusted
//!
//! The definitions of `model_drive`, `model_volume` and those below them. Spare areas are after ECMA-330; the expansion is this
//! project's own.
#![tactic(auto)]

mod drafts;
mod expanding;
mod sizes;

pub use expanding::{ExpandEnd, Grown, expand_lists, grow};
