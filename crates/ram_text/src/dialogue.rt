//! A conversation line by line: the script that comes, and the report that goes. The conversation is reached through it alone, and
//! nothing is asked for while text is gathered for the sink.
ghost use Rattle.std.specs.Prelude.{◌≡◌, ◌+◌, ◌≤◌, IfOk};
ghost use Rattle.ram_report.specs.ReportLines.{event_text, answer_text, last_text, IsPrinted, IsAddressed};
ghost use Rattle.ram_report.specs.MirrorLines.{mirror_text};
ghost use Rattle.ram_text.specs.declared.dialogue.TheConstants.{DIALOGUE_MEMORY};

use crate::lines::{LineReader, NextLine, ROOM};
use ram_bytes::{Budget, Cdb, MemoryRefused};
use ram_outside::Conversation;
use ram_report::{
    Event, LastLine, MirrorEvent, Print, ReportWriter, SinkFailed, WRITER_MEMORY, print_answer,
    print_event, print_last, print_mirror,
};
use ram_sense::Answer;

/// How many bytes the room for a dialogue asks for: a line with what was read behind it, and the writer of the report.
pub const DIALOGUE_MEMORY: usize = ROOM + WRITER_MEMORY;

/// Room for a dialogue: the lines that come, and the report that goes.
#[derive(Drop)]
pub struct DialogueRoom {
    reader: LineReader,
    writer: ReportWriter,
}

impl DialogueRoom {
    ghost use Rattle.ram_text.specs.DialogueRoom.{IsEmptyRoom};

    /// Nothing was read yet, and nothing is gathered. All room is taken here.
    ///
    /// # Clauses
    ///
    /// - `left`, `empty`: They ask for at most `DIALOGUE_MEMORY` bytes, or those of the reader's room, of a budget that has as
    ///   many. Nothing was read, and nothing is gathered.
    ///
    /// # Answers
    ///
    /// - `Ok`: nothing was read, and nothing is gathered. (`IsEmptyRoom`)
    /// - `Err`: the system refused memory that was asked for within the budget. (clause)
    pub fn new(budget: &mut Budget) -> Result<DialogueRoom, MemoryRefused>
        requires free { DIALOGUE_MEMORY ≤ budget.old }
        ensures left { budget.old ≤ budget.new + DIALOGUE_MEMORY }
        ensures empty { IfOk result (λ room. IsEmptyRoom room) }
    {
        Ok(DialogueRoom {
            reader: LineReader::new(budget)?,
            writer: ReportWriter::new(budget)?,
        })
    }
}

/// A conversation line by line.
#[derive(Drop)]
pub struct Dialogue<'a, T: Conversation> {
    talk: &'a mut T,
    room: &'a mut DialogueRoom,
}

impl<'a, T: Conversation> Dialogue<'a, T> {
    ghost use Rattle.ram_text.specs.Dialogue.{HasSameEnds, AsksNothing, AsksShown, ShowRule, SearchRule, Tells, HandsOverAll, reader_of};
    ghost use Rattle.ram_text.specs.DialogueRoom.{IsBetween};

    /// This conversation, line by line.
    pub fn new(talk: &'a mut T, room: &'a mut DialogueRoom) -> Dialogue<'a, T>
        ensures { IsBetween talk.entry room.entry result }
    {
        Dialogue { talk, room }
    }

    /// Looks for the next line. Where it may have to be waited for, all of the report is handed over first; where the
    /// sink fails then, nothing is asked.
    ///
    /// # Clauses
    ///
    /// - `AsksShown`: Whenever more was asked for, all that is due was written, and no whole line had come.
    /// - `LooksOn`: The next line as by `LineReader::next_line`. What is due stays, and the sink counted nothing.
    /// - `StopsAsking`: The sink failed before more was asked for, and was offered all that is due. Nothing was asked for, and what is due
    ///   stays.
    ///
    /// # Answers
    ///
    /// Unless a whole line is held, the report is handed over first.
    ///
    /// - `Ok`: a whole line was held, or all that is due was written. Then: the next line was looked for, as follows.
    ///   (`LooksOn`)
    /// - `Line`: as of `LineReader::next_line`. Then: as of it. (`LooksOn`)
    /// - `End`: as of `LineReader::next_line`. Then: as of it. (`LooksOn`)
    /// - `LineTooLong`: as of `LineReader::next_line`. Then: as of it. (`LooksOn`)
    /// - `ScriptTooLong`: as of `LineReader::next_line`. Then: as of it. (`LooksOn`)
    /// - `Failed`: as of `LineReader::next_line`. Then: as of it. (`LooksOn`)
    /// - `Err`: the sink counted a failure. Then: nothing was asked for; what is due is as before. (`StopsAsking`)
    pub fn next_line(&mut self) -> Result<NextLine, SinkFailed>
        ensures ends { HasSameEnds self.old self.new }
        ensures asks { AsksShown T.Conversation T.Sink.Sink self.old self.new }
        ensures rule { SearchRule T.Conversation T.Sink.Sink self.old self.new result }
    {
        self.show()?;
        Ok(self.room.reader.next_line(&mut *self.talk))
    }

    // Hands over all that is due, unless a whole line is held, so that more may be asked for.
    fn show(&mut self) -> Result<(), SinkFailed>
        ensures ends { HasSameEnds self.old self.new }
        ensures nothing { AsksNothing T.Conversation self.old self.new }
        ensures rule { ShowRule T.Conversation T.Sink.Sink self.old self.new result }
    {
        if self.room.reader.has_line() {
            return Ok(());
        }
        match self.room.writer.flush(self.talk.report_mut()) {
            Print::Done => Ok(()),
            Print::Failed => Err(SinkFailed),
        }
    }

    /// The line found last, without its line feed; empty where the last answer was no line.
    pub fn line(&self) -> &[u8]
        ensures { result.now ≡ (reader_of self.now).line }
    {
        self.room.reader.line()
    }

    /// Prints the answer of the line of this number, which is no command. The blocks that were found are told behind how many
    /// they are.
    ///
    /// # Clauses
    ///
    /// - `Tells`: As the calls of these names. Nothing was asked for.
    ///
    /// # Answers
    ///
    /// As for `Dialogue::print_answer`.
    pub fn print_event(&mut self, number: u64, event: &Event, found: &[u32]) -> Print
        ensures { Tells T.Conversation T.Sink.Sink self.old self.new (event_text number event.now found.now) result }
    {
        print_event(
            &mut self.room.writer,
            self.talk.report_mut(),
            number,
            event,
            found,
        )
    }

    /// Prints the answer to the line for a mirror of this number, and behind that of a read its sectors.
    ///
    /// # Clauses
    ///
    /// - `Tells`: As the calls of these names. Nothing was asked for.
    ///
    /// # Answers
    ///
    /// As for `Dialogue::print_answer`.
    pub fn print_mirror(&mut self, number: u64, event: &MirrorEvent, shown: &[u8]) -> Print
        ensures { Tells T.Conversation T.Sink.Sink self.old self.new (mirror_text number event.now shown.now) result }
    {
        print_mirror(
            &mut self.room.writer,
            self.talk.report_mut(),
            number,
            event,
            shown,
        )
    }

    /// Prints the answer to a command, and behind `good` its reply.
    ///
    /// # Clauses
    ///
    /// - `Tells`: As the calls of these names. Nothing was asked for.
    ///
    /// # Answers
    ///
    /// Nothing is asked for.
    ///
    /// - `Done`: the whole text is due. Then: it stands behind what was due. (`Tells`)
    /// - `Failed`: the sink counted a failure. Then: a prefix of the text stands behind what was due. (`Tells`)
    pub fn print_answer(&mut self, number: u64, answer: &Answer, cdb: &Cdb, reply: &[u8]) -> Print
        requires printed { IsPrinted answer.now }
        requires addressed { IsAddressed answer.now cdb.now }
        ensures { Tells T.Conversation T.Sink.Sink self.old self.new
            (answer_text number answer.now cdb.now reply.now) result }
    {
        print_answer(
            &mut self.room.writer,
            self.talk.report_mut(),
            number,
            answer,
            cdb,
            reply,
        )
    }

    /// Prints the last line of a report.
    ///
    /// # Clauses
    ///
    /// - `Tells`: As the calls of these names. Nothing was asked for.
    ///
    /// # Answers
    ///
    /// As for `Dialogue::print_answer`.
    pub fn print_last(&mut self, last: &LastLine) -> Print
        ensures { Tells T.Conversation T.Sink.Sink self.old self.new (last_text last.now) result }
    {
        print_last(&mut self.room.writer, self.talk.report_mut(), last)
    }

    /// Hands over what is gathered.
    ///
    /// # Clauses
    ///
    /// - `HandsOverAll`: As `ReportWriter::flush`. Nothing was asked for.
    ///
    /// # Answers
    ///
    /// Nothing is asked for.
    ///
    /// - `Done`: all was handed over. Then: what is due is as before; nothing is gathered. (`HandsOverAll`)
    /// - `Failed`: the sink counted a failure. Then: what is due is as before. (`HandsOverAll`)
    pub fn flush(&mut self) -> Print
        ensures { HandsOverAll T.Conversation T.Sink.Sink self.old self.new result }
    {
        self.room.writer.flush(self.talk.report_mut())
    }
}
