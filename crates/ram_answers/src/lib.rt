//! Answers the lines of a script one after another, whatever answers them, and tells each answer in a report.
//!
//! What to read: `src/answers.rt` (the trait of what answers a line), `specs/Texts.antt` (lines that were answered), `specs/TextRuns.antt`
//! (what a run of them is), `specs/TextEnds.antt` (why lines end, and what stands then), `specs/Reports.antt` (what stands with each status of
//! a whole script). Then `src/serving.rt`.
//!
//! # How it fits in
//!
//! - What answers a line is known by its bytes alone: `Answers` has one relation between what it was, the line, the outcome and what it is
//!   then. So a run is over values of that type, and the loop knows neither states nor a language. Who says what these values stand for
//!   gets the run of the states from the run of the values (`StateRun`, `followed` in `proofs/States.antt`), and what stands with a status
//!   over states from what stands over values (`told_as` in `proofs/Simulated.antt`).
//! - A run of lines is a list of events, newest first. One turn of the loop takes a line, answers it, prints its reply, and extends the
//!   run by one event. The text of the report has the same recursion as the run.
//! - The conversation is had line by line (`Dialogue` of `ram_text`), which hands answers over before it asks for more.
#![tactic(auto)]

pub mod answers;
pub mod serving;

pub use answers::Answers;
pub use serving::{answer_all, serve_script};
