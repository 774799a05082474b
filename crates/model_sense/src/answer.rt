//! How a command was answered, as the layers above the drive see it.
use crate::Sense;

/// How a command was answered.
#[derive(Clone, Copy, Debug, PartialEq, Eq)]
pub enum Answer {
    /// It was done.
    Good,
    /// It was refused, or not done whole, for the reason that the sense data give.
    Check(Sense),
    /// The power was cut in this command.
    Cut,
    /// The power was off already, and nothing was done.
    Off,
    /// What the medium lies on failed, and counted it. The power is off.
    Fault,
}
