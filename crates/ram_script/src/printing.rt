//! What a line is answered, printed behind what the report has.
ghost use Rattle.std.specs.Prelude.{◌≡◌, Ok};
ghost use Rattle.ram_text.specs.Dialogue.{Tells};
ghost use Rattle.ram_machine.specs.Replies.{CanPrint, data_told};
ghost use Rattle.ram_script.specs.Answered.{line_text};
ghost use Rattle.ram_script.specs.Printed.{printed};

use ram_machine::{Reply, Stopped};
use ram_outside::Conversation;
use ram_report::Print;
use ram_text::Dialogue;

/// Prints what a line of this number is answered, with the data that a command gave, or the blocks that a scrub found.
pub fn print_reply<T: Conversation>(
    dialogue: &mut Dialogue<T>,
    number: u64,
    reply: &Reply,
    data_in: &[u8],
    found: &[u32],
) -> Print
    requires { CanPrint reply.now }
    ensures { Tells T.Conversation T.Sink.Sink dialogue.old dialogue.new
        (line_text number reply.now (data_told (Ok reply.now) data_in.now found.now)) result }
{
    match reply {
        Reply::Nothing => Print::Done,
        Reply::Event(event) => dialogue.print_event(number, event, found),
        Reply::Command { cdb, answer } => dialogue.print_answer(number, answer, cdb, data_in),
    }
}

/// Whether a print was done, or why the run ends.
pub fn printed(print: Print) -> Result<(), Stopped>
    ensures { result ≡ printed print }
{
    match print {
        Print::Done => Ok(()),
        Print::Failed => Err(Stopped::SinkFault),
    }
}
