//! The answers to lines for a mirror of two discs. Text alone.
ghost use Rattle.std.specs.Prelude.{◌++◌, codes};
ghost use Rattle.ram_report.specs.Reports.{Prints, PutsText};
ghost use Rattle.ram_report.specs.ReportLines.{numbered};
ghost use Rattle.ram_report.specs.MirrorLines.{mirror_words, mirror_text, shown_text};

use crate::gathered::{Print, SinkFailed, printed};
use crate::printing::MirrorEvent;
use crate::printing::data::print_sectors;
use crate::printing::events::print_event_words;
use crate::printing::parts::print_counted;
use crate::report::ReportWriter;
use ram_outside::Sink;

/// Prints the answer to a line for a mirror. Behind that of a read the sectors that were read are told, and behind no other.
///
/// # Clauses
///
/// - `Prints`: Exactly its text is due, and the sink counted nothing; or a prefix of it, and the sink's count rose.
///
/// # Answers
///
/// As for `print_answer`.
pub fn print_mirror<K: Sink>(
    writer: &mut ReportWriter,
    sink: &mut K,
    number: u64,
    event: &MirrorEvent,
    shown: &[u8],
) -> Print
    ensures { Prints K.Sink writer.old sink.old writer.new sink.new
        (mirror_text number event.now shown.now) result }
{
    printed(put_mirror(writer, sink, number, event, shown))
}

/// The same, by how it went.
fn put_mirror<K: Sink>(
    writer: &mut ReportWriter,
    sink: &mut K,
    number: u64,
    event: &MirrorEvent,
    shown: &[u8],
) -> Result<(), SinkFailed>
    ensures { PutsText K.Sink writer.old sink.old writer.new sink.new
        (mirror_text number event.now shown.now) result }
{
    put_mirror_line(writer, sink, number, event)?;
    print_shown(writer, sink, event, shown)
}

/// Prints the first line of the answer.
fn put_mirror_line<K: Sink>(
    writer: &mut ReportWriter,
    sink: &mut K,
    number: u64,
    event: &MirrorEvent,
) -> Result<(), SinkFailed>
    ensures { PutsText K.Sink writer.old sink.old writer.new sink.new
        (numbered number (mirror_words event.now)) result }
{
    writer.put_number(sink, number)?;
    print_mirror_words(writer, sink, event)
}

/// Prints the lines of the sectors that a read shows.
fn print_shown<K: Sink>(
    writer: &mut ReportWriter,
    sink: &mut K,
    event: &MirrorEvent,
    shown: &[u8],
) -> Result<(), SinkFailed>
    ensures { PutsText K.Sink writer.old sink.old writer.new sink.new (shown_text event.now shown.now) result }
{
    match event {
        MirrorEvent::Shows { lba } => print_sectors(writer, sink, *lba, shown),
        _ => Ok(()),
    }
}

/// Prints the words of an answer, after a space, and ends the line.
fn print_mirror_words<K: Sink>(
    writer: &mut ReportWriter,
    sink: &mut K,
    event: &MirrorEvent,
) -> Result<(), SinkFailed>
    ensures { PutsText K.Sink writer.old sink.old writer.new sink.new
        (codes " " ++ mirror_words event.now ++ codes "\n") result }
{
    match event {
        MirrorEvent::OfDisc { event } => print_event_words(writer, sink, event),
        MirrorEvent::Good => writer.put(sink, b" good\n"),
        MirrorEvent::Shows { .. } => writer.put(sink, b" good\n"),
        MirrorEvent::Unread { lba } => print_counted(writer, sink, b" unread ", *lba as u64),
        MirrorEvent::NoSpare { lba } => print_counted(writer, sink, b" no spare ", *lba as u64),
        MirrorEvent::NoUpdate { counter } => {
            print_counted(writer, sink, b" no update ", *counter as u64)
        }
        MirrorEvent::Range { capacity } => {
            print_counted(writer, sink, b" range ", *capacity as u64)
        }
        MirrorEvent::TooMany { count } => {
            print_counted(writer, sink, b" too many ", *count as u64)
        }
        MirrorEvent::Left { count } => print_counted(writer, sink, b" left ", *count as u64),
        MirrorEvent::Leads { on_a: true } => writer.put(sink, b" a\n"),
        MirrorEvent::Leads { on_a: false } => writer.put(sink, b" b\n"),
        MirrorEvent::Unknown => writer.put(sink, b" unknown\n"),
    }
}
