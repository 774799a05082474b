//! What a drive with a write cache shows and stands for, and what each of its calls may answer. Definitions alone, and their
//! laws.
//!
//! Begin with `specs/Values.antt`: the disc that is shown, and the values to which a block may fall back. Then
//! `specs/Shown.antt`.
//!
//! - **Causes are data.** A call is a chain: these pending blocks were drained, this was read, that was written. The uses of the
//!   medium, the lists in use and the buffered blocks follow from the links, each of which is a cause of `model_drive`, and are
//!   not said twice.
//! - **A drain goes on behind a refusal.** One recursion (`Tries` in `specs/Drains.antt`) serves all calls that flush: each due block
//!   is tried once, in turn, until enough have left; a refused one goes behind all others.
//! - **Each link says that the disc stays sound** (`LeavesSound`), since no cause says so of what a disc shows between two calls;
//!   and a read of the disc says that it was quiet where all its blocks were buffered (`ReadsDisc`).
//! - **Nothing new is said of the disc.** A read, a verification, an expansion and a rewriting format do with it what they do
//!   without a cache; the older values stay (`lifted`).
//! - **A stopped flush** leaves two candidates with the same values: the disc below may have the block or not, and either is a
//!   value.
//! - **A disc that is lent** may lose pending blocks. Calls drop these first (`dropped`); until then the drive stands for
//!   nothing.
//!
//! The laws are functions with an empty body in `src/laws.rt`, whose contract is the law, so the build fails where one is not
//! proved. The comment at each says what it is, and `make docs` lists them.
//!
//! Public lemmas for crates above stand in `proofs/`: that blocks that are flushed are in their homes (`FlushedHomes.antt`), that
//! what holds of each call of the disc, and of one after another, holds of each call of a drive with a cache (`Chained.antt`),
//! what a call leaves standing (`Found.antt`), where a write found no spare (`Lacking.antt`), the blocks of a disc after sectors
//! were replaced (`ReplacedBlocks.antt`), members of filtered lists (`Members.antt`), that discs with the same blocks are the
//! same (`SameBlocks.antt`), that pending blocks are apart has one proof (`OneProof.antt`), and that a drive with a cache stands
//! for just what goes with what it shows (`Standing.antt`).
//!
//! - **Neither proved nor tested here:** that a write of which the power is lost in the cache comes back. It need not.
//! - **Trusted:** the toolchain.
//! - **Stands on:** `model_drive` and what that stands on.
#![tactic(auto)]

mod laws;

pub use laws::{
    a_block_falls_back_to_its_values, a_chain_counts_faults_as_its_links_do,
    a_chain_keeps_the_label, a_drain_goes_on_behind_a_refusal,
    a_drive_with_an_empty_cache_stands_for_its_disc, a_refused_block_stays_pending,
    after_the_power_each_block_has_one_of_its_values, calls_that_flush_and_can_end_well_do,
    what_is_flushed_is_in_its_home, what_is_not_pending_is_settled,
    what_is_synchronised_is_never_older, without_the_cache_answers_have_the_causes_of_the_disc,
    without_the_cache_calls_are_steps_of_the_disc,
};

/// How many blocks are pending at most.
pub const CACHED_BLOCKS: u32 = 32;

/// How many blocks a write that goes into the cache covers at most.
pub const CACHED_AT_ONCE: u32 = 16;

/// How the synchronisation of a drive ended: all pending blocks are written to its disc.
#[derive(Clone, Copy, Debug, PartialEq, Eq)]
pub enum SyncOut {
    /// All of them were written.
    Good,
    /// The disc is not formatted.
    NotFormatted,
    /// The home of a block is dead, and so are all spares that are free for it. It is the first that was refused; all that were stay
    /// pending, behind the others.
    NoSpare {
        /// Its first sector.
        lba: u32,
    },
    /// The home of a block is dead, and the secondary list could not be updated. It is the first that was refused, and so on.
    NoUpdate {
        /// The counter of the list.
        counter: u32,
    },
    /// The power was cut.
    Cut,
    /// The power was off already, and nothing was done.
    Off,
    /// What the medium lies on failed, and counted it. The power is off.
    Fault,
}

/// How the writing of the oldest pending block ended.
#[derive(Clone, Copy, Debug, PartialEq, Eq)]
pub enum TickOut {
    /// Nothing is pending.
    Idle,
    /// It was written.
    Written {
        /// Its first sector.
        lba: u32,
    },
    /// Its home is dead, and so are all spares that are free for it. It stays pending, behind the others.
    NoSpare {
        /// Its first sector.
        lba: u32,
    },
    /// Its home is dead, and the secondary list could not be updated. It stays pending, behind the others.
    NoUpdate {
        /// The counter of the list.
        counter: u32,
    },
    /// The power was cut.
    Cut,
    /// The power was off already, and nothing was done.
    Off,
    /// What the medium lies on failed, and counted it. The power is off.
    Fault,
}
