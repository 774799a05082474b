//! That no cut loses a disc: what stopped calls leave of its lists, from below, and that lists are found again. Definitions
//! alone, and their laws.
//!
//! - `specs/Stops.antt`: what a stopped update or repair leaves (`LeavesDds`, `LeavesSdl`, `MendsDds`, `MendsSdl`), and a stopped
//!   mount (`StopsMounting`). Both go area by area, and in an area write the first part before the second. So a stop has one
//!   area: before it each cell is exactly the text or dead, behind it each is as it was or dead, and one cell is torn at most. A
//!   repair writes no cell that was exactly its part. Calls cite these as the fields of their answers.
//! - `specs/Findable.antt`: what holds of a disc's cells from one full format to the next (`IsFindable`). The structure is
//!   settled; the copies of the secondary list part at one area, before which those without a dead cell hold the newer text, and
//!   behind which the older one. The copy at that area is free: a cut may have spoiled it.
//! - `specs/Losing.antt`: that one copy of a list is lost at most, but for those that die (`LosesOneAtMost`).
//!
//! Cell by cell would not be enough: a repair of all first parts before all second ones leaves, at a cut half way, one copy and
//! three mixtures, and nothing whole once the block of that copy dies. So the order of areas stands in `StopsAt`
//! (`model_copies/specs/Stops.antt`).
//!
//! The laws are functions with an empty body in `src/laws.rt`, whose contract is the law, so the build fails where one is not
//! proved. The comment at each says what it is, and `make docs` lists them.
//!
//! # How it fits in
//!
//! That no cut loses the disc is said in four steps, each over the one before.
//!
//! 1. `ram_copies` writes a list area after area, and in an area the first part before the second. So a stop has one area
//!    (`StopsAt`, `StopsInArea` of `model_copies`): before it the copies are done, behind it they are as they were or dead.
//! 2. This crate says that of the lists of a disc, for an update, a repair and a mount, and each call passes it on in its answers
//!    to the causes of `model_drive` (`left`). What may be found is said beside it, from above (`given`).
//! 3. The invariant over cells is `IsFindable`. Updates, repairs and mounts that are stopped keep it, and while two copies live a
//!    mount finds one of both lists. `model_lasting` has it over the calls of a drive (`StaysFormatted`).
//! 4. `ram_machine` has it over the lines of a script and over whole runs (`src/survival.rt`). It speaks of cells alone while the
//!    power is off, so it goes through an image that is handed back and opened again.
#![tactic(auto)]

mod laws;

pub use laws::{
    a_findable_disc_has_its_lists, a_stopped_repair_keeps_a_disc_findable,
    a_stopped_update_keeps_a_disc_findable, dead_cells_keep_a_disc_findable,
    of_two_copies_one_is_left, one_copy_is_lost_at_most, settled_lists_are_findable,
};
