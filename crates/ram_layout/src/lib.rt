//! Where logical blocks and spares lie: the trait for all layouts, and slipping by a table of runs.
//!
//! # How it fits in
//!
//! `Layout` is the trait of whatever knows where blocks lie. It has one meaning beside its calls, the pools as data, and each
//! clause is an equation over them. So `home`, the search for a spare and the write of a block (`ram_spare`, `ram_replace`) work
//! over any layout, and know neither a geometry nor a list of slipped blocks.
//!
//! - `SlipLayout` is slipping: the data blocks that are not slipped, as the longest runs. Its room is taken once, for as many
//!   runs as any disc may have. It is made anew in its place, without memory, where a disc is mounted, was formatted, or got
//!   another capacity.
//! - `ZoneLayout` (`ram_groups`) is a group of spares in each zone: the same runs, with the place where each zone begins. A drive
//!   has `AnyLayout`, which is one of the two, by the kind of the geometry.
//! - A cursor for each pool says before which spare all are named. Where a layout is made, it is set to the first free spare of
//!   its pool; where a write finds its spare, it is set behind that one. That the cursors fit the list in use is one of the
//!   standing conditions of a write (`IsFit` of `ram_lists`), and so is that the pools of the layout are those of the disc.
//!
//! # What is proved
//!
//! That the runs are the longest is the invariant of the type: none is empty, and between two of them a number is missing. `new`
//! takes memory once, for as many runs as zones and primary spares, which are at most `RUNS_MEMORY` bytes of a budget (`left`);
//! `rebuild`, `set_ssa` and all other calls take none.
//!
//! A block that is no spare and no logical block is told as slipped where it is a data block, and as outside where it is none. A
//! spare is told as a primary or a supplementary one; the clause says of both that the block is a spare.
//!
//! # What is neither
//!
//! How fast the calls are. `physical`, `spare` and `role` search the runs by halving, so they take about as many steps as the
//! number of runs has binary digits, at most fourteen; `rebuild` goes over the zones and the slipped blocks once.
//!
//! # What is trusted
//!
//! The definitions of `model_pools`, `model_places` and `model_geometry`: that they are the layout that is meant. Slipping is
//! after ECMA-330; pools, and the table, are this project's own.
#![tactic(auto)]

mod filling;
mod laws;
mod layout;
mod slip_layout;

pub use filling::{fill, put_zone};
pub use laws::a_table_has_the_pools_of_its_disc;
pub use layout::Layout;
pub use ram_runs::Run;
pub use slip_layout::{MOST_RUNS, RUNS_MEMORY, SlipLayout};
