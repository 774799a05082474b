//! How a step of a scrubber ends, and a pass.

/// How one step ended.
#[derive(Clone, Copy, Debug, PartialEq, Eq)]
pub enum StepEnd {
    /// The logical block could be read.
    Readable { i: u32 },
    /// It could not.
    Unreadable { i: u32 },
    /// The disc is not formatted.
    NotFormatted,
    /// The power was cut.
    Cut,
    /// The power is off.
    Off,
    /// What the medium lies on failed, and counted it. The power is off.
    Fault,
}

/// How a pass over all logical blocks ended.
#[derive(Clone, Copy, Debug, PartialEq, Eq)]
pub enum PassEnd {
    /// Each block was verified.
    Done,
    /// The disc is not formatted.
    NotFormatted,
    /// The power was cut.
    Cut,
    /// The power is off.
    Off,
    /// What the medium lies on failed, and counted it. The power is off.
    Fault,
}
