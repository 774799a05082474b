//! The end of a report, and the status that tells how the run ended.
ghost use Rattle.std.specs.Prelude.{◌≡◌, ◌-◌, ◌<◌, ◌^◌};
ghost use Rattle.ram_text.specs.Dialogue.{HasSameEnds, AsksNothing, due_in, shown_of};
ghost use Rattle.ram_script.specs.Endings.{status_of, IsOfRun, LastLineRule, FinishRule};

use crate::state::Tally;
use ram_machine::Stopped;
use ram_machine::status::Status;
use ram_outside::Conversation;
use ram_report::{LastLine, Print};
use ram_text::Dialogue;

/// The status that an ending is told by.
///
/// # Answers
///
/// - `Done`, `Differs`, `Usage`, `Script`, `ImageFault`, `SourceFault`, `SinkFault`, `NoMemory`, `NotADisc`: the status of that
///   ending; never `Differs`, `Usage` or `NoMemory`. (`status_of`)
pub fn status_of(ending: Result<(), Stopped>) -> Status
    ensures status { result ≡ status_of ending }
    ensures other { IsOfRun result }
{
    match ending {
        Ok(()) => Status::Done,
        Err(Stopped::NotInLanguage | Stopped::LineTooLong | Stopped::ScriptTooLong) => {
            Status::Script
        }
        Err(Stopped::NotADisc) => Status::NotADisc,
        Err(Stopped::SourceFault) => Status::SourceFault,
        Err(Stopped::SinkFault) => Status::SinkFault,
        Err(Stopped::ImageFault) => Status::ImageFault,
    }
}

/// Ends a report, and tells how the run ended.
///
/// # Clauses
///
/// - `rule`: The last line, where there is one, is printed, and all that is due is handed over.
///
/// # Answers
///
/// - `SinkFault`: the sink failed in the end, or had failed before. (`FinishRule`)
/// - `Done`, `Script`, `ImageFault`, `SourceFault`, `NotADisc`: all that is due is written; the status of the ending. (`FinishRule`)
/// - `Differs`, `Usage`, `NoMemory`: never. (`IsOfRun`)
pub fn finish<T: Conversation>(
    dialogue: &mut Dialogue<T>,
    tally: Tally,
    ending: Result<(), Stopped>,
) -> Status
    requires { tally.lines < 2 ^ 64 - 1 }
    ensures other { IsOfRun result }
    ensures ends { HasSameEnds dialogue.old dialogue.new }
    ensures nothing { AsksNothing T.Conversation dialogue.old dialogue.new }
    ensures rule { FinishRule (due_in T.Conversation T.Sink.Sink dialogue.old)
        (shown_of T.Conversation T.Sink.Sink dialogue.old)
        (shown_of T.Conversation T.Sink.Sink dialogue.new) tally ending result }
{
    match print_ending(dialogue, tally, ending) {
        Print::Failed => return Status::SinkFault,
        Print::Done => {}
    }
    match dialogue.flush() {
        Print::Failed => Status::SinkFault,
        Print::Done => status_of(ending),
    }
}

/// Prints the last line of a report, where there is one.
fn print_ending<T: Conversation>(
    dialogue: &mut Dialogue<T>,
    tally: Tally,
    ending: Result<(), Stopped>,
) -> Print
    requires { tally.lines < 2 ^ 64 - 1 }
    ensures ends { HasSameEnds dialogue.old dialogue.new }
    ensures nothing { AsksNothing T.Conversation dialogue.old dialogue.new }
    ensures rule { LastLineRule (due_in T.Conversation T.Sink.Sink dialogue.old)
        (due_in T.Conversation T.Sink.Sink dialogue.new)
        (shown_of T.Conversation T.Sink.Sink dialogue.old)
        (shown_of T.Conversation T.Sink.Sink dialogue.new) tally ending result }
{
    let line = tally.lines + 1;
    let last = match ending {
        Ok(()) => LastLine::End {
            answered: tally.answered,
        },
        Err(Stopped::NotInLanguage) => LastLine::NotInLanguage { line },
        Err(Stopped::LineTooLong) => LastLine::LineTooLong { line },
        Err(Stopped::ScriptTooLong) => LastLine::ScriptTooLong,
        Err(Stopped::NotADisc) => LastLine::NotADisc { line },
        Err(Stopped::SinkFault) => return Print::Failed,
        Err(Stopped::SourceFault | Stopped::ImageFault) => return Print::Done,
    };
    dialogue.print_last(&last)
}
