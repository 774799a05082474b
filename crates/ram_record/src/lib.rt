//! The record of the lead, which each disc of a mirror has in four copies, and its text on the disc.
//!
//! - `LeadRecord` is the record with all the room that it needs; `record_of` (`specs/Record.antt`) is its value.
//! - The text is a relation between a value and a block (`IsRecordText` of `model_lists`).
#![tactic(auto)]

mod record;
mod regions;

pub use model_lists::REGIONS;
pub use record::LeadRecord;
pub use regions::Regions;
