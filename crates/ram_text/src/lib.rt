//! The lines of a script, and a conversation line by line: the script and its report.
//!
//! The pages of definitions that matter: `specs/Lines.antt` (what the next line is), `specs/Script.antt` (what a line reads as),
//! `specs/MirrorScript.antt` (the same for a mirror of two discs), `specs/Dialogue.antt` (how lines and answers come and go).
//!
//! # What is proved
//!
//! - `Dialogue`: A conversation with a reader of its lines and a writer of its report. Its fields are private, so who has the
//!   dialogue alone can neither read nor write past it: text that is gathered elsewhere cannot reach the sink.
//! - every call of `Dialogue` that may change it, `HasSameEnds`: Its conversation is where it was, so what happens to the dialogue
//!   happens to the conversation that it was made of.
//! - `Dialogue::next_line`, `AsksShown`: Whenever more was asked for, all that is due was written, and no whole line had come.
//!
//! # What is neither
//!
//! - How fast it is. A line is searched once for its end; it is read in place; an answer is put down in two to four pieces, and
//!   handed over 64 KiB at a time.
//! - When memory is refused. It is asked for only where a reader, a writer or room for data is made.
//!
//! # How a new line of the script is added
//!
//! 1. `specs/Script.antt`: the words that it has, and what it reads as. `src/script.rt`: its name in `Line`, in `Form`, and a
//!    function that reads its words.
//! 2. `specs/ScriptReading.antt`: how its words are read one after another, its first word in `form_of`, and its case in
//!    `line_by`. `proofs/Forms.antt`: that this is what `specs/Script.antt` says, in `form_word`, `form_named`, a lemma beside
//!    `power_found`, `by_form` and `form_given`.
//! 3. `ram_report`: the words of its answers. `ram_machine`: what the line does.
//!
//! A line of a script for a mirror (`parse_mirror`) stands in `specs/MirrorScript.antt`, `specs/MirrorReading.antt`, `src/mirror.rt` and
//! `proofs/MirrorForms.antt` in the same way. Words, numbers, data, and the lines that make a disc fail are the same.
#![tactic(auto)]

pub mod dialogue;
pub mod laws;
pub mod lines;
pub mod mirror;
pub mod payload;
pub mod script;
mod words;

pub use dialogue::{DIALOGUE_MEMORY, Dialogue, DialogueRoom};
pub use lines::{LINE_LIMIT, LineReader, NextLine, SCRIPT_LIMIT};
pub use mirror::{MirrorLine, parse_mirror};
pub use payload::PAYLOAD_ROOM;
pub use script::{Line, Unread, parse_fault, parse_line};
pub use words::{are_digits, decimal};
