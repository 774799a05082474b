//! Where logical blocks and spares lie with a group of spares in each zone; and one layout for both kinds.
//!
//! # What is proved
//!
//! With a group in each zone a spare is told as a primary one.
//!
//! # What is neither
//!
//! How fast the calls are. `physical`, `pool_of`, `spare` and `role` find the zone by halving, in at most six steps, and search
//! the runs as slipping does; `rebuild` goes over the zones and the slipped blocks once. `AnyLayout` adds one `match` to each
//! call.
//!
//! # What is trusted
//!
//! The definitions of `model_pools`, `model_places` and `model_geometry`. A group for each zone is after ECMA-272; its place at
//! the end of the zone, pools, and the table are this project's own.
#![tactic(auto)]

mod any_layout;
mod filling;
mod kinds;
mod laws;
mod numbers;
mod zone_layout;

pub use any_layout::AnyLayout;
pub use kinds::layout_of_kind;
pub use laws::{a_layout_has_the_pools_of_its_disc, a_table_of_zones_has_the_pools_of_its_disc};
pub use zone_layout::{LAYOUT_MEMORY, ZoneLayout};
