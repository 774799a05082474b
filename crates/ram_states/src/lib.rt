//! The typed states of a drive that owns its medium: with its power off, or on with a formatted disc, or with one that is
//! not formatted. Each call takes its state and gives the next.
//!
//! # What the types keep
//!
//! - all: the medium has as many blocks as the geometry says.
//! - `PoweredOff`: the power is off; the memory is for discs with a layout of the geometry's kind, and what it holds does not
//!   matter.
//! - `Ready`: the power is on; the lists in use are valid and of their grammar; they are settled: each cell of their copies is
//!   exactly its part of the text, or dead, but for a secondary list that has no copy left; the layout is that of the disc, there
//!   is a cursor for each of its pools, and each spare before it is named.
//! - `NotFormatted`: the power is on; the cells give no lists; no copy of a list that can be read has or names a greater counter
//!   than the mark; the memory is for discs with a layout of the geometry's kind.
//!
//! What each state shows (`specs/Shown.antt`) is the data of `model_drive`: `shown_off`, `shown_ready`, `shown_bare`, and
//! `shown_state` for any of them.
//!
//! # What is proved
//!
//! The clauses speak of any controllable medium, whether its cells are known or not. A call of a state is the call of that name
//! in the traits `Sectors` and `Disc`, and has the same clauses: `cause`, `step`, `quiet`, `completes`, `same_shape` (the traits
//! of `ram_sectors`). The comment at each call has its answers, of which each state gives those that its type allows: a `Ready`
//! drive answers neither `Off` nor `NotFormatted`. A cause also says the exact number of uses, or of a stopped call the most, and
//! which cells may have changed.
//!
//! - `counts` of each state: what it tells of the disc (`CountsRule` of `model_drive`): the capacity, the spares of both areas
//!   and how many of them are free, and what a full format gives. Without lists in use all that depends on them is 0.
//! - `into_parts` of each state, `medium`, `kind`: its medium, and the memory, for discs with a layout of the same kind.
//!
//! A read, a write and a verification are loops over the parts of their request, in `ram_transfer`. Here the state is taken apart
//! for one and put together again, and what it did is taken to what a drive shows: `proofs/ReadShown.antt`,
//! `proofs/VerifyShown.antt`; of a write the loop says it itself. An expansion is one call of `ram_expand`;
//! `proofs/ExpandCauses.antt` takes its rule to what a drive shows. The record of the lead is chosen and repaired, or written, by
//! `ram_copies`; `proofs/RecordCauses.antt` takes that to what a drive shows. `src/telling.rt` has the calls that only tell, and
//! `src/control.rt` what is done to the medium beside a host's calls. A call that was stopped ends in `stopped` (`src/stops.rt`):
//! the power is off, what the memory holds does not matter any more, and the outcome tells the cause.
//!
//! All memory that a drive works in is taken before it is made (`Memory` of `ram_transfer`), and goes from state to state as it
//! is. So no call here has an answer for want of it. A drive that goes `Ready` empties the buffer and makes the layout anew; one
//! that did not would show what it does not stand for, and is refused (`must-fail/`). What the caller's bytes are after another
//! answer than `Good` is not said.
//!
//! # What is neither
//!
//! How often the bytes of a block are moved, in a read or a write. That the call of `fail` on a medium that lies on something
//! answers Failed is met by no test here: the medium in memory never does.
//!
//! # What is trusted
//!
//! The definitions of `model_drive` and of those below it. All of it is this project's own; the lists are after ECMA-330.
//!
//! # Answers
//!
//! The states give the answers of ram_sectors, each those that its type allows: `Ready` is on and formatted, so it never answers
//! `Off` or `NotFormatted`; `NotFormatted` is on, so it never answers `Off`. A call that consumes a state hands back the next
//! one: `Off` after `Cut`, `Fault` and `Failed`.
#![tactic(auto)]

mod control;
mod expanding;
mod formats;
mod laws;
mod power;
mod reading;
mod records;
mod states;
mod stops;
mod telling;
mod verifying;
mod writing;

pub use laws::what_a_state_shows_is_sound;
pub use states::{NotFormatted, PowerOn, PoweredOff, Ready, State};
