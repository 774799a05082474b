//! The senses that the drive gives. What sense data and answers are is in `model_sense`.
//!
//! # What is proved
//!
//! - `codes::unrecovered_read_error`: 3/11/00 with this sector.
//! - `codes::no_spare_location`: 3/32/00 with this sector.
//! - `codes::senses_are_these`, one for each constant: Its key, code and qualifier, and that it has no information.
//!
//! # What is neither
//!
//! - Which sense a command is given: that is `ram_mmc`.
//! - The texts of `Debug`, which nothing prints.
#![tactic(auto)]

pub mod codes;

pub use model_sense::{Answer, SENSE_BYTES, Sense};

#[cfg(test)]
mod tests;
