//! Blocks that may fail: what any medium is, what a controllable one is, and one in memory.
//!
//! - `Medium` is a row of blocks that are read and written whole, with a power that can be cut.
//! - `MediumControl` is a `Medium` that is told when a block dies and when the power is cut.
//! - `MemMedium` is such a medium in memory. Only the uses that were named when it was made can fail.
//!
//! A **use** is one read or write with the power on, however it ends. A **cell** is what a block holds: nothing yet (blank),
//! whole bytes (good), the rest of an interrupted write (torn), or nothing ever again (dead).
//!
//! Layers above see no arms: they are written over `Medium`. A `MediumControl` says more, namely what each event does exactly to
//! cells, arms and armed cut. The medium in memory and the one over an image share the arms (`Armed`).
//!
//! # What is proved
//!
//! Any medium, in `src/blocks.rt`:
//!
//! - all four, `rule`: one use is counted. No other cell changes, and a dead cell stays dead. Every answer but `Failed` leaves
//!   the count of faults exactly as it was, and every answer but `Cut` the count of cuts.
//! - all four, `continues`: how far the call went: one use, none with the power off, or one use that failed (`Span`). What can
//!   follow by k uses composes (`MediumLaws`).
//! - all four, `event`: what happened; what it does exactly, a controllable medium says.
//! - `happened`: a law: whatever follows by k uses, or by one that failed, nothing but events happened in between, one after
//!   another (`Happened` of `model_medium`).
//!
//! A controllable medium, in `src/control.rt`:
//!
//! - all four, `told`: what was done (`was_told` of `Fails`, `Arms` or `Syncs`); what that makes of the bytes that the medium lies
//!   on, a medium over them says.
//! - `control_laws`, `exactly`: what each event does exactly. A use is counted; then the arms of its block count down, and a
//!   block whose arm runs out is dead in that very use; then the armed cut counts down.
//! - `reach`: what can follow by k uses: a cell dies by an arm alone, the armed cut falls just at its use, and one cell at most
//!   is torn.
//!
//! The medium in memory, in `src/memory.rt`:
//!
//! - all, `same_names`: the named uses stay as they are.
//!
//! # What is neither
//!
//! How fast it is, and that there is memory enough. A count stands still at 2^64 - 1.
//!
//! # What is trusted
//!
//! The definitions in `specs/` here and in `model_medium` and `model_stops`, and `arrayvec` of the kit, by its contracts.
#![tactic(auto)]

mod blocks;
mod control;
mod countdown;
mod memory;
mod slots;
mod whole_blocks;

pub use blocks::Medium;
pub use control::{Arm, FailEnd, MediumControl, SyncEnd};
pub use countdown::{Armed, Due, MOST_ARMS, limits_are_these};
pub use memory::MemMedium;
pub use model_medium::{ArmedCut, Fate, ReadEnd, WornBlock, WriteEnd};
pub use model_stops::Stop;
pub use whole_blocks::{read_whole, read_whole_into, write_whole};
