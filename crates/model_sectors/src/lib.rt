//! A disc as a plain list of sectors: what a drive stands for, which blocks a request covers, and how calls end. Definitions,
//! and their laws.
#![tactic(auto)]

mod laws;

pub use laws::{
    a_block_is_covered_where_it_holds_a_sector, limits_of_requests_are_these,
    the_last_eight_uses_decide, what_is_replaced_reads_back,
};

/// How many sectors a disc has at most, so that the numbers of its bytes fit into 64 bits and those of its sectors into
/// 32, with room to spare.
pub const MOST_SECTORS: u32 = 268_435_456;

/// How a read of sectors ended.
#[derive(Clone, Copy, Debug, PartialEq, Eq)]
pub enum ReadOut {
    /// All of them were read.
    Good,
    /// The disc is not formatted.
    NotFormatted,
    /// Some of them are none of the disc's.
    Range {
        /// How many sectors the disc has.
        capacity: u32,
    },
    /// A block has no whole bytes.
    Unread {
        /// The first sector of the request in that block.
        lba: u32,
        /// The block of the medium.
        block: u32,
    },
    /// The power was cut in this read.
    Cut,
    /// The power was off already, and nothing was done.
    Off,
    /// What the medium lies on failed, and counted it. The power is off.
    Fault,
}

/// How the turning on of the power ended.
#[derive(Clone, Copy, Debug, PartialEq, Eq)]
pub enum PowerOut {
    /// The power is on, and the disc has n sectors.
    Ready {
        /// How many sectors the disc has.
        capacity: u32,
    },
    /// The power is on, and the disc is not formatted.
    NotFormatted,
    /// The power was cut again.
    Cut,
    /// What the medium lies on failed, and counted it. The power is off.
    Fault,
}
