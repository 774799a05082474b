//! What a target remembers for its host between two commands.

use model_sense::Sense;

/// What a target remembers for its host between two commands. (This project's own.)
#[derive(Clone, Copy, Debug, PartialEq, Eq)]
pub struct Host {
    /// The power came on, and the host has not been told.
    pub attention: bool,
    /// The disc is not to be taken out.
    pub prevented: bool,
    /// The disc is out.
    pub out: bool,
    /// The sense of the last command, if it had one.
    pub kept: Option<Sense>,
}
