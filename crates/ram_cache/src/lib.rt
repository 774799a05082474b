//! A write cache over any disc: writes of few blocks wait in memory, and go to the disc later, the oldest first.
//!
//! It shows what its disc shows, with the pending blocks and whether the cache is on (`shown_by` in `specs/Caches.antt`), and
//! stands for `Contents` (`stands_by`): the sectors last acknowledged, and the older values of each block.
//!
//! # How it fits in
//!
//! `model_cache` says of a drive with a write cache what `model_drive` says of one without: what is shown (`CacheShown`), what it
//! stands for (`Contents`), and the cause and the step of each answer. A cause is a chain of calls of the disc below, each by its
//! cause in `model_drive`.
//!
//! - One loop drains: the pending blocks that are among some numbers, or not among them, oldest first. Its invariant is that the
//!   first k of those that were due at its start were tried, that the others are due still, in front of those that were refused, and
//!   that no sector that is shown has changed.
//! - A write into the cache makes its blocks beside the pending ones. They become pending all at once, after everything that may
//!   be refused.
//! - Each step of a flush is one lemma over the predicate 'this disc, with these blocks over it, goes with these contents'
//!   (`IsUnder`). None of them knows what the disc below is.
//! - A flush writes the home of its block and leaves the others alone, since homes are apart. So after a chain of flushes each of
//!   its blocks is in its home (`what_is_flushed_is_in_its_home` of `model_cache`), and after a SYNCHRONIZE CACHE it is in the
//!   image.
//! - What a drive without a cache does is said once more, in the words of `model_drive` alone: `PlainCommands.antt` and
//!   `PlainRuns.antt` of `ram_machine`. A run in which the cache is never turned on is one of those, line by line.
//!
//! # What the types keep
//!
//! - `PendingBlocks`: there are 32 rooms for blocks, taken once (`many`); the first of them are pending, oldest first, and no
//!   more than there are rooms (`few`); no number is there twice (`apart`); each block has whole bytes (`whole`).
//! - `Cached`: no fact about its disc, so `disc` is a visible field: what is called on it beside the drive's calls is the
//!   caller's. What is pending stays then.
//!
//! `pending_of` (`specs/Rooms.antt`) is the list of pending blocks, as `model_cache` has it. Blocks are moved by exchange: a
//! block that leaves goes behind the pending ones, and one that comes is made in a room behind them. So only `PendingBlocks::new`
//! takes memory, and a drive is made over such rooms and hands them back. The room of a block that was written is exchanged for
//! one of the disc's, which may read the next block back there: what was written last is near. That is for speed alone, and no
//! clause says that a room is exchanged.
//!
//! # What is proved
//!
//! - the calls of `Caching`, `cause`, `step`, `same_shape` and the others of the trait: each as its trait says, in `model_cache`.
//! - `underwent`: nothing but events happened to the medium of the disc, whatever the answer: what the calls of the disc say of
//!   it, added up.
//! - laws `as_shown`, `sound`, `drive_sound`: the drive stands for just what goes with what it shows; what is pending is sound;
//!   the disc's laws.
//! - `underwent_laws`: those of the disc.
//!
//! How the calls come to that:
//!
//! While the cache is off and empty, `read`, `write` and `write_through` are the disc's calls and nothing else.
//!
//! `must-fail/` has four wrong changes that the prover refuses: a flush that is refused and forgets its block, a drive that is
//! made over used rooms and has a block of the drive before pending, a synchronisation that is good though a block was refused, and a
//! write through the cache that leaves a block pending which it covers, whose old bytes would come over the new ones later.
//!
//! - **Only tested:** that calls end well where nothing is in the way, and how many uses they take: by `tests/steps/cache.steps`,
//!   scripts on the built program: also cut at each use of a synchronisation, a tick and a write, and refused at each flush; and
//!   by random scripts beside the model (`checks/random`).
//! - **Neither proved nor tested:** how long a call takes, and that rooms are exchanged. Calls on a disc that is lent are met by
//!   clauses alone: the program lends its disc only to have blocks fail, and to arm wears and cuts.
//! - **Not said by `Caching`:** that a call ends well. For a synchronisation, a tick and a write through the cache it follows
//!   from the causes (`calls_that_flush_and_can_end_well_do` of `model_cache`).
//! - **Not a law:** that the drive stands for something. A disc that is lent may have lost pending blocks; until the next call
//!   drops them the drive stands for nothing.
//! - **Trusted:** the toolchain.
//! - **Stands on:** `ram_sectors`, `ram_requests`, `ram_bytes`, `model_cache` and what these stand on.
//!
//! # Answers
//!
//! The calls of `Cached` as a drive answer as those of `Caching`, in [ram_sectors](#ram_sectors).
#![tactic(auto)]

mod cached;
mod calls;
mod flushing;
mod pending;
mod reading;
mod writing;

pub use cached::Cached;
pub use pending::{PENDING_MEMORY, PendingBlocks};
