//! The last line of a report, by how the run ended. Text alone.
ghost use Rattle.ram_report.specs.Reports.{Prints, PutsText};
ghost use Rattle.ram_report.specs.ReportLines.{last_text};

use crate::gathered::{Print, SinkFailed, printed};
use crate::printing::LastLine;
use crate::printing::parts::{print_counted, print_numbered};
use crate::report::ReportWriter;
use ram_outside::Sink;

/// Prints the last line of a report.
///
/// # Clauses
///
/// - `Prints`: Exactly their text is due, and the sink counted nothing; or a prefix of it, and the sink's count rose.
///   `print_answer` is for answers that are printed: all but a fault, and with `good` of a READ for command blocks of at least 6
///   bytes.
///
/// # Answers
///
/// As for `print_answer`.
pub fn print_last<K: Sink>(writer: &mut ReportWriter, sink: &mut K, last: &LastLine) -> Print
    ensures { Prints K.Sink writer.old sink.old writer.new sink.new (last_text last.now) result }
{
    printed(put_last(writer, sink, last))
}

/// The same, by how it went.
fn put_last<K: Sink>(
    writer: &mut ReportWriter,
    sink: &mut K,
    last: &LastLine,
) -> Result<(), SinkFailed>
    ensures { PutsText K.Sink writer.old sink.old writer.new sink.new (last_text last.now) result }
{
    match last {
        LastLine::End { answered } => print_counted(writer, sink, b"end ", *answered),
        LastLine::NotInLanguage { line } => {
            print_numbered(writer, sink, *line, b" not in the script language\n")
        }
        LastLine::LineTooLong { line } => print_numbered(writer, sink, *line, b" too long\n"),
        LastLine::ScriptTooLong => writer.put(sink, b"script too long\n"),
        LastLine::NotADisc { line } => print_numbered(writer, sink, *line, b" not a disc\n"),
    }
}
