//! Runs a script that is drawn from a number, and tells in a summary how often each answer came.
//!
//! What to read: `specs/Summary.antt` (the text of a summary), `specs/Generating.antt` (what stands with each status). Then
//! `src/generate.rt`.
//!
//! The script lies in memory as a source that never fails (`KeptScript`), and its report goes to a sink that keeps nothing
//! (`DroppedReport`).
//!
//! # What is proved
//!
//! The script is exactly `script_from N` of `ram_generate` (`GeneratedWith`).
//!
//! - Done: The lines of the script, to its end, are a run. Behind what was written before stands exactly the summary of these
//!   lines (`summary_text`), and the image handed back is that of the last state.
//! - SinkFault: The same, but of the summary only a beginning was written.
//! - Script, NotADisc: Nothing was written. The lines before are a run, with the cause as above, and the image handed back is
//!   that of the last state.
//! - ImageFault: Nothing was written. The run had not begun, and the image has the bytes that it had; or the lines before are a
//!   run, the image failed in the next line, and the image handed back is that of the state after it.
//! - Usage, NoMemory, SourceFault: They do not come.
//! - `put_summary`: The text of what was counted (`tally_text`).
//! - `GenerateRooms::new`: It asks for at most `GENERATE_MEMORY` bytes of a budget that has as many, and takes the rooms for the
//!   lines of a script, for the script, and for its summary (`AreReadyFor`). A refusal is the system's, by its type.
#![tactic(auto)]

mod dropped;
mod generate;
mod kept;
mod rooms;
mod summary;

pub use generate::generate_image;
pub use rooms::{GENERATE_MEMORY, GenerateRooms};
