//! What a scrubber of a drive remembers, and what it asks of that drive. Definitions, and their laws.
//!
//! The laws are functions with an empty body in `src/laws.rt`, whose contract is the law, so the build fails where one is not
//! proved.
//!
//! `proofs/Chained.antt` goes from what holds of each verification, and of one after another, to each step and each pass
//! (`of_step`, `of_pass`): who has a property of verifications has it of scrubs.
//!
//! A block that was written meanwhile stays among the found blocks until a step meets it, and so does one whose home a format
//! slipped over: only steps change what is remembered.
#![tactic(auto)]

mod ends;
mod laws;

pub use ends::{PassEnd, StepEnd};
pub use laws::{
    a_pass_finds_what_cannot_be_read, a_read_meets_what_was_found, a_scrubber_remembers_what_it_met,
};
