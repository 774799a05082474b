//! What a command block asks for, with its data, or why it is refused: the type of commands, and the definitions.
#![tactic(auto)]

pub mod commands;

pub use commands::{Command, Kind};
