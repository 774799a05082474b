//! The report, written to any sink: its lines, and the writer that gathers them.
//!
//! `specs/ReportLines.antt` says which bytes are an answer, `specs/MirrorLines.antt` which are one of a mirror, `specs/Writer.antt` what a
//! writer leaves.
//!
//! - `ReportWriter`, `few` (a fact of the type): At most 64 KiB (`GATHERED_ROOM`) are gathered at any time, also after a failure
//!   of the sink.
//! - `ReportWriter::put`, `IsCutShort`: Where the sink fails, it fails once, and was offered all that was due and a byte of the text at
//!   least.
//!
//! Only tested, by rows of `ram_text_tests`: the text of each answer, as bytes.
//!
//! Behind the answer to a read of a mirror its sectors are printed (`mirror_text`). Behind `found N` the blocks that were found are printed (`event_text`), behind every other answer to a line that is no command
//! nothing.
//!
//! A new answer gets its words in `specs/ReportLines.antt`, its name in `Event` of `src/printing.rt`, and its text in
//! `src/printing/events.rt`.
#![tactic(auto)]

pub mod gathered;
mod hexadecimal;
pub mod laws;
pub mod printing;
pub mod report;

pub use gathered::{GATHERED_ROOM, Print, SinkFailed, hand_over};
pub use printing::{
    Event, LastLine, MirrorEvent, digits_of, print_answer, print_event, print_last, print_line,
    print_mirror,
};
pub use report::{ReportWriter, WRITER_MEMORY};
