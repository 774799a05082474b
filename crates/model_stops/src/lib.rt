//! Why work on a medium was stopped, and what a part of that work did. Definitions alone.
#![tactic(auto)]

/// Why work on a medium was stopped. The power is off.
#[derive(Clone, Copy, Debug, PartialEq, Eq)]
pub enum Stop {
    /// The power was cut.
    Cut,
    /// The power was off already, and nothing was done.
    Off,
    /// What the medium lies on failed, and counted it.
    Fault,
}
