//! The state of a run beside what lies in the drive and what goes between script and report: room for the data of a
//! command both ways, and how many lines came.
ghost use Rattle.std.specs.Prelude.{◌≡◌, ◌^◌, ◌<◌, ◌≤◌, ◌+◌, ℕ, IfOk, is_some};
ghost use Rattle.ram_script.specs.declared.state.TheConstants.{STATE_MEMORY};
ghost use Rattle.ram_text.specs.Dialogue.{HasSameEnds, AsksNothing, AsksShown, due_in, reader_of, sink_of};
ghost use Rattle.ram_script.specs.Counting.{AreAtMost};
ghost use Rattle.ram_machine.specs.Replies.{PrintsWhere, data_told};
ghost use Rattle.ram_script.specs.RunCounts.{StopCounts, TellCount, counts_with};
ghost use Rattle.ram_script.specs.RunState.{IsFresh, HasRoom, TallyRule};
ghost use Rattle.ram_script.specs.Progress.{Beginning, SoFar, IsAt, NextRule, FoundCountsUses, TakesBytes, TellRule, run_view, tally_with};

use crate::counts::AnswerCounts;
use crate::printing::{print_reply, printed};
use ram_bytes::{Budget, MemoryRefused};
use ram_machine::{Reply, Stopped};
use ram_outside::Conversation;
use ram_report::SinkFailed;
use ram_text::{Dialogue, Line, NextLine, PAYLOAD_ROOM, parse_line};

/// How many bytes a [`RunState`] asks for: the data of a command, both ways.
pub const STATE_MEMORY: usize = 2 * PAYLOAD_ROOM;

/// How many lines came so far.
#[derive(Clone, Copy, Debug, PartialEq, Eq)]
pub struct Tally {
    /// All of them.
    pub lines: u64,
    /// Those that had an answer.
    pub answered: u64,
    /// How the commands among them were answered.
    pub counts: AnswerCounts,
}

/// The state of a run beside what lies in the drive and what goes between script and report.
#[derive(Drop)]
pub struct RunState {
    /// The data that go with a command.
    pub payload: Vec<u8>,
    /// The data that the last command gave, until a line comes that gives none.
    pub data_in: Vec<u8>,
    /// How many lines came so far.
    pub tally: Tally,
}

impl RunState {
    /// The state in which no line came yet. All its room is taken here.
    ///
    /// # Answers
    ///
    /// - `Ok`: no line came yet, and there is room for the data of any line. (`IsFresh`, `HasRoom`)
    /// - `Err`: the system refused memory that was asked for within the budget. (clause)
    pub fn new(budget: &mut Budget) -> Result<RunState, MemoryRefused>
        requires free { STATE_MEMORY ≤ budget.old }
        ensures left { budget.old ≤ budget.new + STATE_MEMORY }
        ensures fresh { IfOk result (λ state. IsFresh state) }
        ensures room { IfOk result (λ state. HasRoom state) }
    {
        Ok(RunState {
            payload: budget.room(PAYLOAD_ROOM)?,
            data_in: budget.room(PAYLOAD_ROOM)?,
            tally: Tally {
                lines: 0,
                answered: 0,
                counts: AnswerCounts::new(),
            },
        })
    }
}

impl Tally {
    /// One line more, and one answer more where it has one.
    ///
    /// # Clauses
    ///
    /// - Each count is how many lines were answered so (`counts_in`).
    fn add(&mut self, reply: &Reply)
        requires lines { self.old.lines < 2 ^ 63 }
        requires answered { self.old.answered < 2 ^ 63 }
        requires counts { AreAtMost self.old.counts self.old.lines }
        ensures tally { self.new ≡ tally_with self.old reply.now }
        ensures counts { AreAtMost self.new.counts self.new.lines }
    {
        let answers = match reply {
            Reply::Nothing => 0,
            Reply::Event(_) | Reply::Command { .. } => 1,
        };
        self.lines += 1;
        self.answered += answers;
        self.counts.count(reply);
    }
}

/// Takes the next line of the script, with its data; None where the script has ended. The data that
/// the line before gave are let go. Pending answers are flushed before more input is read.
///
/// # Clauses
///
/// - `next`, `counts`: The next line of the script, or why there is none.
/// - `asks`: Whenever more was asked for, all that is due was written, and no whole line had come.
pub fn take_line<T: Conversation>(
    state: &mut RunState,
    dialogue: &mut Dialogue<T>,
) -> Result<Option<Line>, Stopped>
    requires room { HasRoom state.old }
    ensures ends { HasSameEnds dialogue.old dialogue.new }
    ensures next { (first : Beginning) (far : SoFar first)
        → IsAt far (run_view T.Conversation T.Sink.Sink dialogue.old state.old.tally)
        → NextRule far (run_view T.Conversation T.Sink.Sink dialogue.new state.new.tally)
        state.new.payload.items result }
    ensures counts { (image : ℕ) → StopCounts (counts_with T.Conversation T.Sink.Sink dialogue.old image)
        (counts_with T.Conversation T.Sink.Sink dialogue.new image) result }
    ensures asks { AsksShown T.Conversation T.Sink.Sink dialogue.old dialogue.new }
    ensures takes { TakesBytes (reader_of dialogue.old).taken (reader_of dialogue.new).taken result }
    ensures uses { FoundCountsUses result }
    ensures same_due { due_in T.Conversation T.Sink.Sink dialogue.new ≡ due_in T.Conversation T.Sink.Sink dialogue.old }
    ensures same_tally { state.new.tally ≡ state.old.tally }
    ensures room { HasRoom state.new }
{
    match dialogue.next_line() {
        Ok(NextLine::Line) => {}
        Ok(NextLine::End) => return Ok(None),
        Ok(NextLine::LineTooLong) => return Err(Stopped::LineTooLong),
        Ok(NextLine::ScriptTooLong) => return Err(Stopped::ScriptTooLong),
        Ok(NextLine::Failed) => return Err(Stopped::SourceFault),
        Err(SinkFailed) => return Err(Stopped::SinkFault),
    }
    state.payload.clear();
    match parse_line(dialogue.line(), &mut state.payload) {
        Ok(line) => Ok(Some(line)),
        Err(_) => Err(Stopped::NotInLanguage),
    }
}

/// Tells what became of a line: its reply is printed, and the line counts; else the run ends. The scrubber has these blocks.
///
/// # Clauses
///
/// - `tells`, `count`, `tally`: The reply is printed with its number and the line counts; an outcome that ends the run is told as
///   it is.
pub fn tell<T: Conversation>(
    state: &mut RunState,
    dialogue: &mut Dialogue<T>,
    outcome: Result<Reply, Stopped>,
    found: &[u32],
) -> Result<(), Stopped>
    requires printable { PrintsWhere outcome }
    requires lines { state.old.tally.lines < 2 ^ 63 }
    requires answered { state.old.tally.answered < 2 ^ 63 }
    requires counts { AreAtMost state.old.tally.counts state.old.tally.lines }
    ensures ends { HasSameEnds dialogue.old dialogue.new }
    ensures nothing { AsksNothing T.Conversation dialogue.old dialogue.new }
    ensures tells { TellRule (run_view T.Conversation T.Sink.Sink dialogue.old state.old.tally)
        (run_view T.Conversation T.Sink.Sink dialogue.new state.new.tally)
        (data_told outcome state.old.data_in.items found.now) outcome result }
    ensures known { is_some (due_in T.Conversation T.Sink.Sink dialogue.new)
        ≡ is_some (due_in T.Conversation T.Sink.Sink dialogue.old) }
    ensures count { TellCount (T.Sink.faults (sink_of T.Conversation dialogue.old))
        (T.Sink.faults (sink_of T.Conversation dialogue.new)) outcome result }
    ensures tally { TallyRule state.old.tally state.new.tally result }
    ensures room { HasRoom state.old → HasRoom state.new }
{
    let reply = outcome?;
    let number = state.tally.lines + 1;
    printed(print_reply(dialogue, number, &reply, &state.data_in, found))?;
    state.tally.add(&reply);
    Ok(())
}
