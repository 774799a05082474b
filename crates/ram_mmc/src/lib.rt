//! The target of commands: what a command block asks for, whether it is done, what is done on the disc for it, and what is
//! replied. It stands over any disc that can be formatted, expanded and verified.
//!
//! The definitions are those of `model_target`: `Host.antt` has what is remembered, `Judging.antt` the reasons against a command
//! in their order, `Replies.antt` the bytes, `Steps.antt` one command (`IsStep`). `specs/Looks.antt` has what the parts of a
//! target share.
//!
//! A target is generic over its disc, and knows nothing of lists and spares. One command is one step over what the disc shows and
//! stands for, and over the four things that are remembered (`IsStep` of `model_target`).
//!
//! # What is proved
//!
//! `Target::execute`, `step`: `IsStep`:
//!
//! - Else the answer is the first reason against the command that applies, in the order of the docstring, and the disc is as it
//!   was; or the command is done: by one call of the disc with its cause and what it makes of the disc, each of its answers told
//!   as sense; or by its reply, cut to the allocation length.
//! - The host's four things (attention, removal prevented, disc out, kept sense) are those of the definition.
//! - READ(10), READ(12): a read of the disc: its sectors are the data.
//! - WRITE(10), WRITE(12): a write of the drive: into its cache, where that is on; with FUA through it.
//! - WRITE AND VERIFY(10): a write through the cache.
//! - SYNCHRONIZE CACHE: a synchronisation of the drive: all pending blocks are written. So it is before an ejection, and before MODE
//!   SELECT turns the write cache off: where it is refused the disc stays in, and the cache on.
//! - MODE SELECT(10): the write cache is turned on or off, or left as it was.
//! - VERIFY(10): a verification of the disc: each block is read from its home, and no data are given.
//! - FORMAT UNIT: a format of the disc, or an expansion of its spares, by the type in its list.
//! - READ CAPACITY, READ FORMAT CAPACITIES: what the disc tells: its number of sectors; or the one that a format gives, where it is
//!   not formatted or out, and also, behind it, where the disc is in.
//! - GET CONFIGURATION: the features that are asked for: which are current, and what they say, by whether the disc is in and
//!   formatted, and by its number of sectors.
//! - READ DISC INFORMATION: whether the disc is formatted.
//! - READ DVD STRUCTURE: what the disc tells: by format 08h the first 2,048 bytes of its definition structure, by 0Ah its free
//!   spares.
//! - REQUEST SENSE, INQUIRY, GET EVENT STATUS NOTIFICATION, MODE SENSE(6), MODE SENSE(10): a reply that needs no disc, by what is
//!   remembered.
//! - START STOP UNIT, PREVENT ALLOW MEDIUM REMOVAL: what is remembered.
//! - TEST UNIT READY, SET STREAMING: nothing.
//!
//! The comment at `Target::execute` has each of its answers, and when it comes. Data come with `Good` alone.
//!
//! That a command leaves a drive standing for one thing, that an answer of fault is counted and no other answer counts one, and
//! that a command that was done is as long as its table says, are laws of `model_target`.
//!
//! Whether the power is on, and whether the disc is formatted, a target learns from the drive's counts (`look_at`).
//!
//! # What is neither
//!
//! Speed. Replies are put straight where the caller wants them, and a read makes zeros only where `data_in` grows. No call takes
//! memory: `new` keeps one block of its caller's for the text of a structure, and `into_parts` hands it back.
//!
//! # What is trusted
//!
//! The definitions of `model_target` and of the crates below it, after INCITS MMC and SPC where they say so, and `std`.
//!
//! # How a command is added
//!
//! 1. `model_commands`: its name in `Operation`, and its row in the table (`command`, `operations`).
//! 2. `ram_cdb`: its code and its lengths in `src/lib.rt`, its fields in `src/decoding.rt`; its name in `Command` and its fields
//!    in `specs/Decoding.antt` of `model_cdb`.
//! 3. `model_target`: in `Steps.antt` what is done for it and what is replied; in `Judging.antt` whether it needs a disc.
//! 4. `src/judging.rt`: whether it needs a disc; `src/target.rt`: its arm in `do_command`.
//! 5. One case in each lemma that goes through the commands.
//!    - `ram_cdb/proofs/Limits.antt`.
//!    - `model_target/proofs`: `Counted.antt`, `Found.antt` and `Sensed.antt`.
//!    - `proofs/Judged.antt`.
//!    - `ram_machine/proofs`: `Acknowledged.antt`, `Alone.antt`, `FairRuns.antt`, `FallenBack.antt`, `KeptPower.antt`,
//!      `Labels.antt`, `SectorBoth.antt`, `SectorCommands.antt`, `SectorNothing.antt`, `SectorSettled.antt`; and its row in
//!      `ram_machine/specs/PlainCommands.antt`. `ram_survival/proofs`: `FormattedLines.antt`, `LastingRuns.antt`,
//!      `LivingRuns.antt`.
//! 6. Rows of `ram_command_tests` and `tests/rows`.
//! 7. `docs/SCRIPT.md`, `crates/ram_run/src/help.rt` and `man/ram_drive.1`.
#![tactic(auto)]

mod features;
mod judging;
mod replies;
pub mod target;
mod telling;
mod transfers;

pub use model_target::Host;
pub use ram_sense::{Answer, Sense};
pub use target::Target;
