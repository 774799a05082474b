//! Slipping: what a block is to a disc, by sums over the zones and the blocks that are slipped, without a list of all data
//! blocks.
//!
//! # What is proved
//!
//! No call takes memory.
//!
//! # What is neither
//!
//! How fast it is. `role_of` and `spare_turn` look at about twelve entries of a list of 4,092, and go over the zones once.
//!
//! # What is trusted
//!
//! The definitions of `model_places` and `model_geometry`: that they are the numbering that is meant. Slipping is after ECMA-330,
//! by whole blocks; the rest is this project's own.
#![tactic(auto)]

mod entries;
mod few;
mod role;
mod slip;
mod valid;
mod zones;

pub use few::{is_inside, slipped_in, slips_few};
pub use role::{Role, a_block_has_one_role};
pub use slip::{data_block, primary_left, role_of, spare_turn};
pub use valid::{is_valid_pdl, is_valid_ssa};
pub use zones::{shares_pool, zone_count, zone_first};
