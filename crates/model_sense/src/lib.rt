//! Why a command was not done, and how it was answered: the types, and the bytes by which a host is told.
#![tactic(auto)]

pub mod answer;
pub mod sense;

pub use answer::Answer;
pub use sense::{SENSE_BYTES, Sense};
