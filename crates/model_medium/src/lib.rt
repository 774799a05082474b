//! What a medium holds, how its reads and writes end, and what they may do. Definitions alone, and their laws.
#![tactic(auto)]

mod laws;

pub use laws::{
    composes, none_is_no_use, one_read_counts_one_use, one_write_counts_one_use,
    steps_obey_the_rules,
};

/// How a read of a block ended.
#[derive(Clone, Copy, Debug, PartialEq, Eq)]
pub enum ReadEnd {
    /// The whole block was read.
    Done,
    /// The block has no whole bytes.
    Unreadable,
    /// The power was cut in this read.
    Cut,
    /// The power was off already, and nothing was done.
    Off,
    /// What the medium lies on failed, and counted it. The power is off.
    Failed,
}

/// How a write of a block ended.
#[derive(Clone, Copy, Debug, PartialEq, Eq)]
pub enum WriteEnd {
    /// The whole block was written, unless it is dead.
    Done,
    /// The power was cut in this write.
    Cut,
    /// The power was off already, and nothing was done.
    Off,
    /// What the medium lies on failed, and counted it. The power is off.
    Failed,
}

/// What a write in which the power is cut leaves of a block that is not dead.
#[derive(Clone, Copy, Debug, PartialEq, Eq)]
pub enum Fate {
    /// What it held.
    Old,
    /// The new bytes.
    New,
    /// No whole bytes.
    Torn,
}

/// A block that becomes dead at one of its next uses.
#[derive(Clone, Copy, Debug, Default, PartialEq, Eq)]
pub struct WornBlock {
    /// The block.
    pub block: u32,
    /// At which of its uses from now on it becomes dead, from 1 on.
    pub left: u32,
}

/// A cut of the power at one of the next uses.
#[derive(Clone, Copy, Debug, PartialEq, Eq)]
pub struct ArmedCut {
    /// At which use from now on the power is cut, from 1 on.
    pub left: u32,
    /// What a write that is then cut leaves.
    pub fate: Fate,
}
