//! The lines of a script, one after another, from any conversation. It touches its own bytes, and the conversation by `take`
//! alone.
ghost use Rattle.std.specs.Prelude.{◌≡◌, ◌↔◌, ℕ, ◌+◌, ◌-◌, ◌<◌, ◌≤◌, Option, List, [], length, take, IfOk, IsTrue, vec_len, slice_range};
ghost use Rattle.ram_outside.specs.Source.{TakeRule};
ghost use Rattle.ram_outside.specs.Conversation.{AsksNow, AsksOnly, asked_with};
ghost use Rattle.ram_text.specs.Lines.{Reading, HoldsLine, NextLineRule, HasNoFeed, IsFirstFeed, IsOpenAsk, left_of};
ghost use Rattle.ram_text.specs.Steps.{IsOpen, CutRule, FillsReading, LastLineBytes, PassedFirst};
ghost use Rattle.ram_text.specs.declared.lines.TheConstants.{LINE_LIMIT, SCRIPT_LIMIT, PIECE, ROOM};

use memchr::memchr;
use ram_bytes::{Budget, MemoryRefused};
use ram_outside::{Conversation, Take};
use std::marker::Model;

/// How many bytes a line has at most, without its line feed. A carriage return counts.
pub const LINE_LIMIT: usize = 70_000;

/// How many bytes a script has at most.
pub const SCRIPT_LIMIT: usize = 67_108_864;

/// How many bytes are asked for at once.
const PIECE: usize = 65_536;

/// The room for the longest line that is not ended yet, and one more piece behind it.
pub(crate) const ROOM: usize = 135_536;

/// The answer of [`LineReader::next_line`].
#[derive(Clone, Copy, Debug, PartialEq, Eq)]
pub enum NextLine {
    /// The next line was found.
    Line,
    /// The script has ended.
    End,
    /// The next line has more than [`LINE_LIMIT`] bytes.
    LineTooLong,
    /// The script has more than [`SCRIPT_LIMIT`] bytes, and no further line ends within them.
    ScriptTooLong,
    /// The script failed to come, and that was counted.
    Failed,
}

/// Reads the lines of a script from a conversation. It asks for 64 KiB at once, searches each byte once,
/// and cuts lines where they lie; only an unfinished line is moved, once, where room is needed behind it.
#[derive(Drop)]
pub struct LineReader {
    bytes: Vec<u8>,
    line_start: usize,
    line_end: usize,
    start: usize,
    end: usize,
    feed: Option<usize>,
    taken: usize,
}

impl Model for LineReader {
    ghost use Rattle.ram_text.specs.Lines.{Reading};

    ghost Value = { Reading };

    ghost use Rattle.ram_text.specs.LineReader.{reading_by, IsWhole};

    ghost view = { reading_by };

    ghost invariant = { IsWhole };
}

impl LineReader {
    /// A reader that has read nothing. Its room is taken here, and none later.
    ///
    /// # Clauses
    ///
    /// - `left`, `empty`: They ask for at most `DIALOGUE_MEMORY` bytes, or those of the reader's room, of a budget that has as
    ///   many. Nothing was read, and nothing is gathered.
    ///
    /// # Answers
    ///
    /// - `Ok`: nothing was read. (clause)
    /// - `Err`: the system refused memory that was asked for within the budget. (clause)
    pub fn new(budget: &mut Budget) -> Result<LineReader, MemoryRefused>
        requires free { ROOM ≤ budget.old }
        ensures left { budget.old ≤ budget.new + ROOM }
        ensures empty { IfOk result (λ reader. reader ≡ record { line = []; buffered = []; taken = 0 }) }
    {
        Ok(LineReader {
            bytes: budget.zeros(ROOM)?,
            line_start: 0,
            line_end: 0,
            start: 0,
            end: 0,
            feed: None,
            taken: 0,
        })
    }

    /// The line found last, without its line feed; empty where the last answer was no line. A carriage return
    /// is part of it.
    pub fn line(&self) -> &[u8]
        ensures { result.now ≡ self.now.line }
    {
        &self.bytes[self.line_start..self.line_end]
    }

    /// How many bytes of the script the lines so far took, their line feeds among them.
    pub fn taken(&self) -> usize
        ensures { result ≡ self.now.taken }
    {
        self.taken
    }

    /// Whether the next `next_line` finds a line without asking for more.
    ///
    /// # Clauses
    ///
    /// - Exactly whether that is so.
    ///
    /// # Answers
    ///
    /// - `true`, `false`: `true` exactly when the next `next_line` finds a line without asking for more. (`HoldsLine`)
    pub fn has_line(&self) -> bool
        ensures { IsTrue result ↔ HoldsLine self.now }
    {
        match self.feed {
            Some(offset) => offset <= LINE_LIMIT && offset < SCRIPT_LIMIT - self.taken,
            None => false,
        }
    }

    /// Looks for the next line, and asks for more only where what is buffered does not decide the answer.
    /// Of the limits of a line and of the script the one that is passed by the earlier byte decides, and where
    /// one byte passes both, it is the script's.
    ///
    /// # Clauses
    ///
    /// - `rule`: `GivesLine`: The line is exactly what was left of the script up to its line feed, or to the end. What is left
    ///   afterwards follows it. Both limits are kept.
    /// - `rule`: `LineIsTooLong`, `ScriptIsTooLong`: A limit is told exactly where it is passed, the earlier byte first. Where
    ///   one byte passes both, it is the script's.
    /// - `rule`: `LineFails`: Nothing is lost. What is buffered has no line feed, so every whole line that came has been given.
    /// - `rule`: `count`: An answer other than `Failed` leaves the count of failures exactly as it was.
    /// - `asks`: Whenever more was asked for, no whole line was buffered, and what was written is what was written before
    ///   (`IsOpenAsk`).
    /// - `asks_nothing`: Where a whole line is buffered, it is given, and nothing is asked for.
    /// - `same`: The sink is not touched.
    ///
    /// # Answers
    ///
    /// Where a line is held already, `Line` comes and nothing is asked for.
    ///
    /// - `Line`: the next line came, within both limits; it ends with a line feed, or with the script and is not empty. Then: it
    ///   is no longer left. (`GivesLine`)
    /// - `End`: nothing was left. Then: nothing changed. (`NothingWent`)
    /// - `LineTooLong`: more than 70,000 bytes come without a line feed, and the script's limit is not passed by then. Then:
    ///   nothing went. (`LineIsTooLong`)
    /// - `ScriptTooLong`: more is left than the script may have, and no line ends within that; the line's limit is not passed
    ///   before. Then: nothing went. (`ScriptIsTooLong`)
    /// - `Failed`: a failure was counted. Then: nothing went; no whole line is buffered. (`LineFails`)
    pub fn next_line<T: Conversation>(&mut self, talk: &mut T) -> NextLine
        ensures rule { NextLineRule T.Conversation self.old self.new talk.old talk.new result }
        ensures asks { AsksOnly (IsOpenAsk (left_of T.Conversation self.old talk.old)
            (T.Sink.written (T.report talk.old))) (T.asked talk.old) (T.asked talk.new) }
        ensures asks_nothing { HoldsLine self.old → (result ≡ NextLine.Line) × (talk.new ≡ talk.old) }
        ensures same { T.report talk.new ≡ T.report talk.old }
    {
        loop {
            if let Some(answer) = self.cut() {
                return answer;
            }
            match self.fill(talk) {
                Take::Got(_) => {}
                Take::End => return self.last_line(),
                Take::Failed => return NextLine::Failed,
            }
        }
    }

    // What the buffered bytes decide. A line that they begin with is taken.
    fn cut(&mut self) -> Option<NextLine>
        ensures rule { CutRule self.old self.new result }
        ensures line { HoldsLine self.old → result ≡ Some NextLine.Line }
    {
        let held = self.end - self.start;
        let within = SCRIPT_LIMIT - self.taken;
        self.line_start = 0;
        self.line_end = 0;
        match self.feed {
            Some(offset) => {
                if offset >= within.min(LINE_LIMIT + 1) {
                    return Some(passed_first(self.taken));
                }
                self.line_start = self.start;
                self.line_end = self.start + offset;
                self.start = self.line_end + 1;
                self.feed = first_feed(&self.bytes[self.start..self.end], 0);
                self.taken += offset + 1;
                Some(NextLine::Line)
            }
            None => {
                if held > within.min(LINE_LIMIT) {
                    return Some(passed_first(self.taken));
                }
                None
            }
        }
    }

    // Asks for one more piece.
    fn fill<T: Conversation>(&mut self, talk: &mut T) -> Take
        requires { IsOpen self.old }
        ensures rule { FillsReading self.old self.new (T.left talk.old) (T.left talk.new)
            (T.faults talk.old) (T.faults talk.new) result }
        ensures asks { AsksNow (asked_with (T.left talk.old) (T.Sink.written (T.report talk.old)))
            (T.asked talk.old) (T.asked talk.new) }
        ensures same { T.report talk.new ≡ T.report talk.old }
    {
        let held = self.end - self.start;
        self.line_start = 0;
        self.line_end = 0;
        self.start = make_room(&mut self.bytes, self.start, self.end);
        self.end = self.start + held;
        match read_piece(&mut self.bytes, self.end, talk) {
            Take::Got(count) => {
                self.end += count;
                self.feed = first_feed(&self.bytes[self.start..self.end], held);
                Take::Got(count)
            }
            Take::End => Take::End,
            Take::Failed => Take::Failed,
        }
    }

    // What is buffered when the source has ended is the last line, unless nothing is.
    fn last_line(&mut self) -> NextLine
        requires { IsOpen self.old }
        ensures { LastLineBytes self.old self.new result }
    {
        self.line_start = self.start;
        self.line_end = self.end;
        if self.start == self.end {
            return NextLine::End;
        }
        self.taken += self.end - self.start;
        self.start = self.end;
        NextLine::Line
    }
}

/// Which limit is passed first by a line that does not end within both.
fn passed_first(taken: usize) -> NextLine
    requires { taken ≤ SCRIPT_LIMIT }
    ensures { PassedFirst taken result }
{
    if SCRIPT_LIMIT - taken <= LINE_LIMIT {
        NextLine::ScriptTooLong
    } else {
        NextLine::LineTooLong
    }
}

/// Asks for one piece, which goes into `bytes` from `at` on.
fn read_piece<T: Conversation>(bytes: &mut Vec<u8>, at: usize, talk: &mut T) -> Take
    requires whole { vec_len bytes.old ≡ ROOM }
    requires room { at ≤ LINE_LIMIT }
    ensures whole { vec_len bytes.new ≡ ROOM }
    ensures before { take at bytes.new.items ≡ take at bytes.old.items }
    ensures rule { TakeRule (T.left talk.old) (T.left talk.new)
        (T.faults talk.old) (T.faults talk.new) (slice_range bytes.new.items at (at + PIECE)) result }
    ensures asks { AsksNow (asked_with (T.left talk.old) (T.Sink.written (T.report talk.old)))
        (T.asked talk.old) (T.asked talk.new) }
    ensures same { T.report talk.new ≡ T.report talk.old }
{
    talk.take(&mut bytes[at..at + PIECE])
}

/// The first line feed of `bytes`, of which the first `searched` have none.
fn first_feed(bytes: &[u8], searched: usize) -> Option<usize>
    requires inside { searched ≤ length bytes.now }
    requires clear { HasNoFeed (take searched bytes.now) }
    ensures { IsFirstFeed bytes.now result }
{
    match memchr(b'\n', &bytes[searched..]) {
        Some(offset) => Some(searched + offset),
        None => None,
    }
}

/// Moves what lies from `start` to `end` to the start where less than a piece fits behind it, and gives its
/// first offset.
fn make_room(bytes: &mut Vec<u8>, start: usize, end: usize) -> usize
    requires whole { vec_len bytes.old ≡ ROOM }
    requires ordered { start ≤ end }
    requires inside { end ≤ ROOM }
    requires short { end - start ≤ LINE_LIMIT }
    ensures whole { vec_len bytes.new ≡ ROOM }
    ensures kept { slice_range bytes.new.items result (result + (end - start))
        ≡ slice_range bytes.old.items start end }
    ensures room { result + (end - start) ≤ LINE_LIMIT }
{
    if end <= LINE_LIMIT {
        return start;
    }
    bytes.copy_within(start..end, 0);
    0
}
