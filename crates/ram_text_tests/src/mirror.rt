//! Rows on what a line for a mirror is read as, and on the text of its answer.
use crate::data::{add_data, data_of};
use crate::escapes::bytes_of;
use crate::lines::number_of;
use ram_bytes::Budget;
use ram_outside::MemSink;
use ram_report::{Event, MirrorEvent, Print, ReportWriter, print_mirror};
use ram_text::{LINE_LIMIT, PAYLOAD_ROOM, parse_mirror};
use std::alloc::{AllocError, Global};
use std::fmt::Write;

/// How many bytes the longest text has for which a sink has room.
const TEXT_BYTES: usize = 65_536;

/// `BYTES`: what this line for a mirror is read as, and its data.
pub fn answer_mirror(alloc: Global, words: &str, answer: &mut String) -> Result<(), AllocError> {
    let line = bytes_of(alloc, words)?;
    if line.len() > LINE_LIMIT {
        return answer.push_str("too long");
    }
    let mut payload = Vec::with_capacity(alloc, PAYLOAD_ROOM)?;
    match parse_mirror(&line, &mut payload) {
        Ok(line) => write!(answer, "{line:?}")?,
        Err(unread) => write!(answer, "{unread:?}")?,
    }
    add_data(answer, &payload)
}

/// The answer of these words.
fn event_of(words: &str) -> Option<MirrorEvent> {
    match words {
        "pressed" => Some(MirrorEvent::OfDisc {
            event: Event::Pressed,
        }),
        "good" => Some(MirrorEvent::Good),
        "a" => Some(MirrorEvent::Leads { on_a: true }),
        "b" => Some(MirrorEvent::Leads { on_a: false }),
        "unknown" => Some(MirrorEvent::Unknown),
        _ => numbered_of(words),
    }
}

/// The answer of these words, which end with a number.
fn numbered_of(words: &str) -> Option<MirrorEvent> {
    let (kind, number) = words.rsplit_once(' ')?;
    let number = number.parse().ok()?;
    match kind {
        "shows" => Some(MirrorEvent::Shows { lba: number }),
        "unread" => Some(MirrorEvent::Unread { lba: number }),
        "no spare" => Some(MirrorEvent::NoSpare { lba: number }),
        "no update" => Some(MirrorEvent::NoUpdate { counter: number }),
        "range" => Some(MirrorEvent::Range { capacity: number }),
        "too many" => Some(MirrorEvent::TooMany { count: number }),
        "left" => Some(MirrorEvent::Left { count: number }),
        _ => None,
    }
}

/// `NUMBER DATA WORDS`: the text of this answer, where a read shows these data.
pub fn answer_told(alloc: Global, words: &str, answer: &mut String) -> Result<(), AllocError> {
    let (number, words) = words.split_once(' ').unwrap_or((words, ""));
    let (data, words) = words.split_once(' ').unwrap_or((words, ""));
    let Some(event) = event_of(words) else {
        return answer.push_str("no such answer");
    };
    let shown = data_of(alloc, data)?;
    let mut writer = ReportWriter::new(&mut Budget::ample(alloc))?;
    let mut sink = MemSink::new(alloc, TEXT_BYTES, Vec::new(alloc));
    let printed = print_mirror(&mut writer, &mut sink, number_of(number), &event, &shown);
    let flushed = writer.flush(&mut sink);
    let text = str::from_utf8(sink.bytes()).unwrap_or("no text");
    answer.push_str(text.strip_suffix('\n').unwrap_or("no line"))?;
    if printed != Print::Done || flushed != Print::Done {
        write!(answer, " {printed:?} {flushed:?}")?;
    }
    Ok(())
}
