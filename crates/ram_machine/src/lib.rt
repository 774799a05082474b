//! The machine that the lines of a script work: what lies in the drive, what a line does with it, and the laws of runs.
//!
//! What to read: `specs/States.antt` and `specs/LineSteps.antt` (what one line does), `specs/Answered.antt` and `specs/Runs.antt`
//! (what a run is), `specs/Register.antt` (what a user may rely on of a sector). Then `src/inserted.rt` and `src/drive.rt`.
//!
//! - `Drive` (`src/drive.rt`): What a script does to a disc beside its host's commands: open and hand back an image, `fail`,
//!   `wear` and `arm_cut`; and `sync`, which no line of a script does: a client that is told that its bytes last is not told before
//!   the image says so. It tells the bytes that it lies in (`lies_in`), which always have the cells that it shows
//!   (`drive_laws`): those of the image that was opened, and those of the image that is handed back. The events that it underwent
//!   change them by the medium's rule (`by_events`). The loop over the lines is proved over any `Drive`; `run` picks a write
//!   cache over the volume over an image (`src/volume.rt`), in one line.
//!
//! # How it fits in
//!
//! - **The drive.** A script does things beside its commands that no host can do: it presses and opens images, makes blocks fail,
//!   wears them and cuts the power. The trait `Drive` (`src/drive.rt`) adds just that to `Caching`.
//! - **What is inserted.** `Inserted<D>` is an image that was not opened as a disc, or a target over a drive `D`, each with the
//!   kind of layout that its discs have. Beside the target stands the scrubber of its blocks (`ram_scrub`), which no host
//!   reaches; its room is one of the rooms. The loop over lines is generic over `D`; `ram_run` picks the drive in one line, and
//!   `src/volume.rt` shows that it is one.
//! - **One line.** `Inserted::answer` does what a line says, in one `match` over its forms: for every state that is inserted, the
//!   outcome is a step of that state, and what is then inserted stands for the state after it. The outcome is a `Reply`, or why
//!   the run is `Stopped`.
//!
//! # The words
//!
//! - **A state** is an image that is no disc's, with the kind of layout that a disc in it would have, or a disc in the drive. The
//!   kind stays over a run (`kind_of`).
//!   - A disc has what the drive shows (its pending blocks, and whether the write cache is on; its geometry, with the kind of its
//!     layout; the cell of each block, the power, how many uses and cuts there were, and what is armed; the lists in use, the
//!     mark, and the buffered blocks), what the drive stands for, what is remembered for its host, the scrubber of its blocks,
//!     and the bytes of its image, which have this geometry and these cells.
//!   - With the power on the drive stands for a list of sectors, with the older values of blocks that were written since their
//!     last synchronisation.
//!   - With the power off it stands for some such lists, one of which is found when the power goes on.
//! - **What is shown and what is stood for agree** (`CacheStandsFor` of `model_cache`, `StandsFor` of `model_drive`): each home
//!   that has whole bytes has a value of its logical block, the last one where it is not pending. A home without whole bytes
//!   leaves the logical block as it was last acknowledged.
//! - **A run begins** with the disc of the image, where its bytes are those of a disc of the run's kind: the power off, nothing
//!   armed, and one disc for each pair of lists that its cells may give, in their order. Its host remembers a power that just
//!   came on. Else it begins with the image.
//! - **A run** is a list of lines, each without a line feed and within the limit, which reads as it says by the grammar and is a
//!   step: from the state before, with its answer and the data that it gives, to the state after.
//! - **The image of a state** has just the bytes of the state, also under cells that are not good: nothing is written when it is
//!   handed back.
//! - **The bytes of a state** change in a `power` or `cdb` line by events of the medium alone, however it ends (`LineBytes`,
//!   `UnderwentEvents`): a list of uses, and of the power going on and off, each of which does to the cells, the arms and the
//!   armed cut exactly what it is to do, and to the bytes what the medium's rule says of it (`BytesAt` of `ram_image`). A body
//!   that tidies up under a block that is not good is refused where the image is reached (`torn_fate_writes_the_data_first` of
//!   `ram_image`).
//!
//! # A step by its line (`Step`)
//!
//! - `press`: `pressed`: the geometry of these numbers, with the kind of the run, is lawful, and the state is the new disc with
//!   blank cells, in an image of its header and zeros. `not pressed`: it is not, and nothing changed but that the scrubber is
//!   new. Where the image failed it is as it was, or no disc's, or a disc's with blank cells.
//! - `power`: `IsPoweredAgain` of `model_target`: the write cache is off, and nothing is pending; the mount of `model_drive`,
//!   with its cause, and what it makes of what the drive stood for. The attention stands, the disc is in, its removal is allowed,
//!   and no sense is kept. The scrubber is new.
//! - `fail`, `wear`, `cut`: The cell is dead, the block is armed, or the cut is, and nothing else changed; or there is no such
//!   block, or no room for one more, and nothing changed. The host is not told. Of the image's bytes a `fail` changes the state
//!   byte of its block alone, and the others none (`LineBytes`).
//! - `scrub`: One step of the scrubber (`StepLine`, with `StepRule` of `model_scrub` in `ScrubberRule`): one verification of the
//!   next block, whole. What the drive stands for stays, but that after a cut the power is off; the host is not told, also while
//!   the disc is out.
//! - `scrub all`: The same for a pass (`PassLine`, `PassRule`). Where it is done, the line gives the found blocks as its data.
//! - `tick`: The oldest pending block is written, or there is none (`TickLine`): no value of a block changes, and the host is not
//!   told.
//! - `cdb`: `IsStep` of `model_target`: with the power off the answer is off, and nothing changed. Else it is the first reason
//!   against the command that applies, or what the command does on the disc, with the cause of each answer. The comment at
//!   `Target::execute` of `ram_mmc` has the answers, and their order.
//!
//! The cells before and after each line are tied together: the cause of every call of the disc says by how many uses of the
//! medium it went, and what these may have changed (`Reach` of `model_medium`).
//!
//! Where the image fails in a line, that line counts as one in which the power was cut, and the run ends. Where it fails in
//! `fail`, the power is off and the block is as it was or dead. No line takes memory: a drive works in rooms (`TargetRooms`,
//! which ask for at most `TARGET_MEMORY` bytes of a budget, for discs with a layout of one kind), and a `press` hands those of
//! the old disc on to the new one. What they held does not matter.
//!
//! # Laws of runs
//!
//! What a user may rely on, as functions with an empty body (`src/laws.rt`, over `specs/Acknowledged.antt`, `Fairness.antt`,
//! `Alone.antt`, `PlainRuns.antt` and `PlainCommands.antt`; `src/promise.rt`, over `specs/Register.antt`). That no cut loses the
//! disc, and that a block can be read until it dies, is said above, in `ram_survival`.
//!
//! The comment at each law says what it is, `make docs` lists them, and [HEADLINE](../../docs/HEADLINE.md) has them in a user's
//! words. Where a law speaks of lines that ask for a format, a rewriting one counts too: of a disc that is not formatted it is a
//! full one.
//!
//! # How a new line of the script is added
//!
//! 1. `specs/LineSteps.antt`: what it does, as a case of `DiscRule` where it needs a disc, else of `Step`; and whether it counts
//!    uses (`CountsUses`). `src/inserted.rt`: its case in `Inserted::answer`.
//! 2. `specs/Acknowledged.antt`, `specs/Register.antt`, and `specs/Survival.antt` and `Living.antt` of `ram_survival`: whether it may
//!    write a sector or a block (`LeavesSector`, `LeavesBlock`), what it does to the register (`Turn`), and whether it makes a disc
//!    anew (`KeepsDisc`); a line without a case does none of this.
//! 3. `proofs`: one case in each lemma that goes through the forms of a line.
//!    - `KeptPower.antt`, `FallenBack.antt`, `Alone.antt`: what is shown while the power stays, what a block may fall back to,
//!      and that with the cache off it is a line of a drive without one (`PlainRule` of `specs/PlainRuns.antt`).
//!    - `Scrubbed.antt`: what holds of lines that verify blocks alone.
//!    - `StatesAfter.antt`, `LineCounts.antt`, `Labels.antt`: what the drive stands for then, the image's count, the label.
//!    - `Acknowledged.antt`, `FairRuns.antt`, and `LastingRuns.antt` of `ram_survival`: what was acknowledged stays, dead blocks
//!      alone are given up, and the disc stays formatted.
//!    - `OnlyTold.antt`: it is not answered as a command that was only told that it is not done.
//!    - `Answering.antt`: it lacks no disc where there is one.
//!    - `SectorTurns.antt`, `SectorBoth.antt`, `SectorRuns.antt`, `SectorNothing.antt`, `SectorSettled.antt`: what it does to the
//!      register.
#![tactic(auto)]

mod drive;
mod inserted;
pub mod laws;
pub mod promise;
mod reply;
mod rooms;
pub mod status;
mod stopped;
mod volume;

pub use drive::Drive;
pub use inserted::{Inserted, begin};
pub use reply::Reply;
pub use rooms::{DRIVE_MEMORY, DriveRooms, TARGET_MEMORY, TargetRooms};
pub use stopped::Stopped;
