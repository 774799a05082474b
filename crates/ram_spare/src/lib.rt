//! Spares and homes over any layout: the next free spare, cursors in the order of spares, the home of a logical block; and how
//! many spares are free.
//!
//! # What is proved
//!
//! `home`, `free_from`, `next_free` and `set_to_first_free` ask that the defective blocks of the entries rise, and the last two
//! for one cursor for each pool. `next_free` asks also that they fit: each spare before a cursor is named by an entry.
//! `set_to_first_free` asks for room for as many numbers as there are entries. `counts` asks for valid lists.
//! `proofs/Passed.antt` has the walk by turns, for a loop that tries one free spare after another: a turn tells how many free
//! spares were passed, and the next that is found is the one after them.
//!
//! # What is neither
//!
//! How fast they are. A search looks at one spare after another from the cursor on, and for each at the entries: by halving for a
//! retired one, at one after another for a replacement. `set_to_first_free` sorts the replacements once, and looks each spare up
//! by halving. `counts` looks at each entry once.
//!
//! # What is trusted
//!
//! The definitions of `model_pools`, `model_places` and `model_geometry`: that they are the numbering and the order that are
//! meant. Slipping and linear replacement are after ECMA-330; pools and the order of spares are this project's own.
#![tactic(auto)]

mod count;
mod cursors;
mod first_free;
mod homes;
mod laws;
mod spare;

pub use count::{SpareCounts, counts};
pub use cursors::{CURSORS_MEMORY, Cursors};
pub use homes::home;
pub use laws::next_free_walks_through_the_free_spares;
pub use spare::{FreeSpare, free_from, next_free};
