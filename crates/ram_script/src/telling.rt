//! A text that is written to the report as it is.
ghost use Rattle.ram_script.specs.Endings.{IsOfRun};
ghost use Rattle.ram_script.specs.Around.{WritesText, TextCount};

use ram_machine::status::Status;
use ram_outside::Sink;
use ram_report::hand_over;

/// Writes a text to the report. It takes no memory.
///
/// # Answers
///
/// - `Done`: all of it is written. (`WritesText`)
/// - `SinkFault`: the sink counted a failure; a beginning of it is written. (`WritesText`, `TextCount`)
/// - `Differs`, `Usage`, `Script`, `ImageFault`, `SourceFault`, `NoMemory`, `NotADisc`: never. (`WritesText`)
pub fn write_text<K: Sink>(report: &mut K, text: &[u8]) -> Status
    ensures other { IsOfRun result }
    ensures writes { WritesText (K.written report.old) (K.written report.new) text.now result }
    ensures count { TextCount (K.faults report.old) (K.faults report.new) result }
{
    match hand_over(report, text) {
        Ok(()) => Status::Done,
        Err(_) => Status::SinkFault,
    }
}
