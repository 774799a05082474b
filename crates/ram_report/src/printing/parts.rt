//! What the lines of a report are put together from: words, numbers, the end of a line. Text alone.
ghost use Rattle.std.specs.Prelude.{◌++◌, codes, decimal};
ghost use Rattle.ram_report.specs.Reports.{Prints, PutsText};

use crate::gathered::{Print, SinkFailed, printed};
use crate::report::ReportWriter;
use ram_outside::Sink;

/// Prints a text of one line, and ends the line.
///
/// # Clauses
///
/// - `Prints`: Exactly their text is due, and the sink counted nothing; or a prefix of it, and the sink's count rose.
///   `print_answer` is for answers that are printed: all but a fault, and with `good` of a READ for command blocks of at least 6
///   bytes.
///
/// # Answers
///
/// As for `print_answer`.
pub fn print_line<K: Sink>(writer: &mut ReportWriter, sink: &mut K, text: &[u8]) -> Print
    ensures { Prints K.Sink writer.old sink.old writer.new sink.new (text.now ++ codes "\n") result }
{
    printed(put_line(writer, sink, text))
}

/// The same, by how it went.
fn put_line<K: Sink>(writer: &mut ReportWriter, sink: &mut K, text: &[u8]) -> Result<(), SinkFailed>
    ensures { PutsText K.Sink writer.old sink.old writer.new sink.new (text.now ++ codes "\n") result }
{
    writer.put(sink, text)?;
    writer.put(sink, b"\n")
}

/// Prints a number, and what comes behind it on its line.
pub(crate) fn print_numbered<K: Sink>(
    writer: &mut ReportWriter,
    sink: &mut K,
    number: u64,
    words: &[u8],
) -> Result<(), SinkFailed>
    ensures { PutsText K.Sink writer.old sink.old writer.new sink.new (decimal number ++ words.now) result }
{
    writer.put_number(sink, number)?;
    writer.put(sink, words)
}

/// Prints the words and a number, and ends the line.
pub(crate) fn print_counted<K: Sink>(
    writer: &mut ReportWriter,
    sink: &mut K,
    words: &[u8],
    number: u64,
) -> Result<(), SinkFailed>
    ensures { PutsText K.Sink writer.old sink.old writer.new sink.new
        (words.now ++ decimal number ++ codes "\n") result }
{
    print_labelled(writer, sink, words, number)?;
    writer.put(sink, b"\n")
}

/// Prints the words and a number.
pub(crate) fn print_labelled<K: Sink>(
    writer: &mut ReportWriter,
    sink: &mut K,
    words: &[u8],
    number: u64,
) -> Result<(), SinkFailed>
    ensures { PutsText K.Sink writer.old sink.old writer.new sink.new (words.now ++ decimal number) result }
{
    writer.put(sink, words)?;
    writer.put_number(sink, number)
}
