//! The drive that a host calls: it owns its medium, and holds one of the typed states of `ram_states`.
//!
//! # What is proved
//!
//! `Volume::capacity`, `read`, `write`, `power`, `format`, `expand`, `verify`, `counts`, `dds_block`, `exchange_room`, all of
//! `Sectors` and `Disc`:
//!
//! - With the power off the other calls answer Off, and on a disc that is not formatted `read`, `write`, `expand` and `verify`
//!   answer NotFormatted; nothing was done then.
//! - `dds_block` answers false in both cases, and leaves the caller's block.
//!
//! `src/calls.rt` has one function for each call of a host, by the state. `Volume` takes its state out of its slot and puts the
//! next one in (`src/holding.rt`). `proofs/CallSteps.antt` has what a call does that its state refuses, and that the power was
//! off in between is not seen; `proofs/Somes.antt` that a drive stands for something after each call; `proofs/Held.antt` takes
//! both to what a volume shows.
//!
//! # What is trusted
//!
//! The definitions of `model_drive` and of those below it, and those in `specs/` of `ram_states`. All of it is this project's
//! own.
//!
//! # Answers
//!
//! `Volume` holds a state of ram_states, and is a `Disc`: its other calls answer as those of ram_sectors.
#![tactic(auto)]

mod calls;
mod holding;
mod volume;

pub use volume::Volume;
