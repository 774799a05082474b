//! Answers the lines of a script one after another over a disc image, and tells each answer in a report.
//!
//! What to read: `specs/Promise.antt` (what a user may rely on); `specs/Answered.antt` and `specs/Run.antt` (lines that were
//! answered, and what a run of them is), `specs/Endings.antt` (what stands with each status), `specs/Leaving.antt` (what is left
//! of the image). Then `src/serve.rt`, `src/state.rt`. What a line does to a disc is said and proved in `ram_machine`.
//!
//! # How it fits in
//!
//! A run over an image begins with what it holds: a disc image is served at once; any other is kept as it is until a lawful
//! `press`.
//!
//! - A run of lines is a list of events, newest first, from the first state to the last. One turn of the loop takes a line,
//!   answers it, prints its reply, and extends the run by one event. The text of the report has the same recursion as the run.
//! - The loop's invariant is that what was read so far is such a run, and that what was written and gathered so far is its text.
//! - The loop has the conversation line by line (`Dialogue` of `ram_text`), which hands answers over before it asks for more. So whenever
//!   more was asked for, the lines so far were answered (`specs/Asking.antt`).
//! - A call that may end the run answers `Result<_, Stopped>`: one type for all reasons, with `From` for those of the calls
//!   below. `status_of` turns it into a status, and `finish` into a last line.
//!
//! # What is proved
//!
//! - Done: The lines of the script, to its end, are a run. What was written is exactly the text of its answers and `end N`, where
//!   N lines had an answer. The image handed back is that of the last state.
//! - Script: The lines before are a run. What was written is exactly the text of its answers and the last line. The image handed
//!   back is that of the last state. The last line is `L not in the script language` where line L ends within both limits and
//!   reads as nothing; `L too long` where it passes a line's limit first; `script too long` where it passes the script's limit
//!   first.
//! - NotADisc: The same. The next line ends within both limits and needs a disc where there is none; the last line is `L not a
//!   disc`.
//! - SourceFault: The lines before are a run. What was written is exactly the text of its answers. What follows these lines is
//!   bytes without a line feed, and then what the source has left: so every whole line that the source gave is answered. The
//!   image handed back is that of the last state.
//! - ImageFault: The run had not begun: nothing was written, and the image has the bytes that it had. Or the lines before are a
//!   run, what was written is exactly the text of its answers, and the next line is a step in which the image failed; the image
//!   handed back is that of the state after it.
//! - SinkFault: The lines so far are a run. What was written is the beginning of the text due: the answers, with a last line or
//!   without. Of the text that was due before the last of these lines at most 65,536 bytes are missing (`nearly`). The sink failed
//!   once, and none of the lines was answered after that (`IsOffered`). And one of three stood behind (`StoodBehind`): nothing else
//!   failed, and the image handed back is that of the last state; the source failed too, and every whole line that it gave is
//!   answered; the image failed too, in the next line, and the image handed back is that of the state after it.
//!
//! In every row the lines of the run end within the first 67,108,864 bytes of the script (`SoFar.within`). A step by its line,
//! and the laws of runs are those of `ram_machine`; its head tells them.
//!
//! # What is neither
//!
//! - How fast it is. What a line costs: the drive is worked on where it lies, and only a `press` moves it.
//! - In which order a call uses the medium. How many uses it takes is proved.
//!
//! # How a new line of the script is added
//!
//! `ram_text` has its words, `ram_report` its answers, and `ram_machine` what it does; their heads say where. Here
//! `proofs/LinesTaken.antt` and `proofs/Completes.antt` get a case: it counts uses from 1 if it counts any, and a run goes on
//! after it. Then rows of `tests/rows`, the example `whole-language`, `crates/ram_run/src/help.rt` and `man/ram_drive.1`,
//! `docs/SCRIPT.md`, `docs/REPORT.md`, and `FORMS` of the tools.
#![tactic(auto)]

mod counts;
mod ending;
mod printing;
pub mod promise;
mod rooms;
pub mod serve;
mod state;
mod telling;

pub use counts::{AnswerCounts, SenseCount};
pub use ending::{finish, status_of};
pub use rooms::{SCRIPT_MEMORY, ScriptRooms};
pub use state::{RunState, STATE_MEMORY, Tally};
pub use telling::write_text;
