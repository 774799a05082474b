//! The answers to lines that are no commands: `pressed`, `ready`, `cut` and the like. Text alone.
ghost use Rattle.std.specs.Prelude.{◌++◌, codes, length};
ghost use Rattle.ram_report.specs.Reports.{Prints, PutsText};
ghost use Rattle.ram_report.specs.ReportLines.{numbered, event_words, event_text, found_text, lost_text};

use crate::gathered::{Print, SinkFailed, printed};
use crate::printing::Event;
use crate::printing::parts::print_counted;
use crate::report::ReportWriter;
use ram_outside::Sink;

/// Prints the answer to a line that is no command. The blocks that were found are told behind how many they are, and behind no
/// other answer.
///
/// # Clauses
///
/// - `Prints`: Exactly their text is due, and the sink counted nothing; or a prefix of it, and the sink's count rose.
///   `print_answer` is for answers that are printed: all but a fault, and with `good` of a READ for command blocks of at least 6
///   bytes.
///
/// # Answers
///
/// As for `print_answer`.
pub fn print_event<K: Sink>(
    writer: &mut ReportWriter,
    sink: &mut K,
    number: u64,
    event: &Event,
    found: &[u32],
) -> Print
    ensures { Prints K.Sink writer.old sink.old writer.new sink.new
        (event_text number event.now found.now) result }
{
    printed(put_event(writer, sink, number, event, found))
}

/// The same, by how it went.
fn put_event<K: Sink>(
    writer: &mut ReportWriter,
    sink: &mut K,
    number: u64,
    event: &Event,
    found: &[u32],
) -> Result<(), SinkFailed>
    ensures { PutsText K.Sink writer.old sink.old writer.new sink.new
        (event_text number event.now found.now) result }
{
    put_event_line(writer, sink, number, event)?;
    print_found(writer, sink, event, found)
}

/// Prints the first line of the answer.
fn put_event_line<K: Sink>(
    writer: &mut ReportWriter,
    sink: &mut K,
    number: u64,
    event: &Event,
) -> Result<(), SinkFailed>
    ensures { PutsText K.Sink writer.old sink.old writer.new sink.new
        (numbered number (event_words event.now)) result }
{
    writer.put_number(sink, number)?;
    print_event_words(writer, sink, event)
}

/// Prints the lines behind an answer that tells how many blocks were found.
fn print_found<K: Sink>(
    writer: &mut ReportWriter,
    sink: &mut K,
    event: &Event,
    found: &[u32],
) -> Result<(), SinkFailed>
    ensures { PutsText K.Sink writer.old sink.old writer.new sink.new
        (found_text event.now found.now) result }
{
    match event {
        Event::Found { .. } => print_lost(writer, sink, found),
        _ => Ok(()),
    }
}

/// Prints a line for each of these blocks.
fn print_lost<K: Sink>(
    writer: &mut ReportWriter,
    sink: &mut K,
    found: &[u32],
) -> Result<(), SinkFailed>
    ensures { PutsText K.Sink writer.old sink.old writer.new sink.new
        (lost_text found.now (length found.now)) result }
{
    for block in found {
        print_counted(writer, sink, b"lost ", 16 * *block as u64)?;
    }
    Ok(())
}

/// Prints the words of an event, after a space, and ends the line.
pub(crate) fn print_event_words<K: Sink>(
    writer: &mut ReportWriter,
    sink: &mut K,
    event: &Event,
) -> Result<(), SinkFailed>
    ensures { PutsText K.Sink writer.old sink.old writer.new sink.new
        (codes " " ++ event_words event.now ++ codes "\n") result }
{
    match event {
        Event::Pressed => writer.put(sink, b" pressed\n"),
        Event::NotPressed => writer.put(sink, b" not pressed\n"),
        Event::Ready { capacity } => print_counted(writer, sink, b" ready ", *capacity as u64),
        Event::NotFormatted => writer.put(sink, b" not formatted\n"),
        Event::Cut => writer.put(sink, b" cut\n"),
        Event::Failed => writer.put(sink, b" failed\n"),
        Event::NoSuchBlock => writer.put(sink, b" no such block\n"),
        Event::Armed => writer.put(sink, b" armed\n"),
        Event::Full => writer.put(sink, b" full\n"),
        Event::Idle => writer.put(sink, b" idle\n"),
        Event::Written { lba } => print_counted(writer, sink, b" written ", *lba as u64),
        Event::NoSpare { lba } => {
            print_counted(writer, sink, b" check 3/32/00 info ", *lba as u64)
        }
        Event::NoUpdate => writer.put(sink, b" check 3/32/01\n"),
        Event::Off => writer.put(sink, b" off\n"),
        Event::Readable { lba } => print_counted(writer, sink, b" readable ", *lba),
        Event::Unreadable { lba } => print_counted(writer, sink, b" unreadable ", *lba),
        Event::Found { count } => print_counted(writer, sink, b" found ", *count),
    }
}
