//! A mirror of two discs: what is written goes to both, and what one cannot give the other does.
//!
//! What to read: `src/mirror.rt`, then `src/writing.rt`, `src/reading.rt`, `src/power.rt`, `src/starting.rt`, `src/resync.rt`. What each
//! call may answer, and why, is defined in `model_mirror`. The lines of a script for a mirror stand on it (`ram_pair`).
//!
//! - A read goes block after block to the lead, and where that lacks the bytes to the other side, if that is up and the block is
//!   not apart.
//! - A write goes to the lead, and where that is good to the other side. Blocks that one side may lack are apart from then on.
//! - A lead that is cut or fails gives the lead to the other side where that is up, no block is apart, and its record of the lead
//!   could be written with a greater number; else the mirror is off.
//! - The power comes on for both, and the record of each is read. The greater number leads, and stays the lead in this run. Then every
//!   block is apart, until a write of it or `resync` makes it alike. `resync` also gives the lead the blocks that it lacks and the other
//!   side has.
//! - Before the power on answers, the number of the lead is above any that the other side may have. So a side that was left behind
//!   does not lead again, in any run and in either order of the sides. Where that cannot be told the answer is `Unknown`, and
//!   `give_lead` tells it by hand.
//!
//! Nothing but events happens to the media of its sides, whatever a call answers (`underwent`).
//!
//! All memory is taken by `MirrorRooms::new`, out of a budget: a table for the blocks of any disc, one block, and three records,
//! 186,586 bytes (`MIRROR_MEMORY`).
//!
//! # What is neither
//!
//! - That the side to which the lead is given by hand has the newer bytes, or that the two sides are of one pair.
#![tactic(auto)]

mod copying;
mod following;
mod formatting;
mod giving;
mod mending;
mod mirror;
mod noted;
mod power;
mod reading;
mod resync;
mod starting;
mod table;
mod taking;
mod writing;

pub use mirror::{MIRROR_MEMORY, Mirror, MirrorRooms};
pub use model_mirror::{GiveOut, Leader, MirrorPowerOut, Resync};
