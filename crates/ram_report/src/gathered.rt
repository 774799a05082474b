//! Text that is gathered on its way to a sink. It touches its own bytes, and the sink's by `put` alone.
ghost use Rattle.std.specs.Prelude.{◌≡◌, ◌+◌, ◌<◌, ◌≤◌, ℕ, Option, List, [], ◌++◌, length, IfOk, MatchBool};
ghost use Rattle.ram_report.specs.Writer.{TextRule, PrintRule, FillRule, FlushRule, HandOverRule, due};
ghost use Rattle.ram_report.specs.declared.gathered.TheConstants.{GATHERED_ROOM};

use ram_bytes::{Budget, MemoryRefused};
use ram_outside::{Put, Sink};
use std::marker::Model;

/// How many bytes are gathered at most before they are handed to the sink.
pub const GATHERED_ROOM: usize = 65_536;

/// The answer of a call that prints.
#[derive(Clone, Copy, Debug, PartialEq, Eq)]
pub enum Print {
    /// The whole text is due.
    Done,
    /// The sink failed, and counted it.
    Failed,
}

/// The sink failed, and counted it: how a call that prints fails inside.
#[derive(Clone, Copy, Debug, PartialEq, Eq)]
pub struct SinkFailed;

/// The answer of a call that prints, by how it went inside.
pub(crate) fn printed(outcome: Result<(), SinkFailed>) -> Print
    ensures { (refused : Option ℕ) (before after : Option (List ℕ)) (faults faults' : ℕ) (text : List ℕ)
        → TextRule refused before after faults faults' text outcome
        → PrintRule refused before after faults faults' text result }
{
    match outcome {
        Ok(()) => Print::Done,
        Err(SinkFailed) => Print::Failed,
    }
}

/// Text on its way to a sink: it is gathered, and handed over in large pieces. Its room is taken once, when it is
/// made.
#[derive(Drop)]
pub struct Gathered {
    bytes: Vec<u8>,
    sent: usize,
}

impl Model for Gathered {
    ghost use Rattle.std.specs.Prelude.{ℕ, List, ◌<◌, ◌≤◌, drop, vec_len, vec_capacity};

    ghost Value = { List ℕ };

    ghost view = { λ g. drop g.sent g.bytes.items };

    ghost invariant = { λ g. (g.sent ≤ vec_len g.bytes) × (vec_len g.bytes < 65536) × (65536 ≤ vec_capacity g.bytes) };
}

impl Gathered {
    /// Nothing is gathered.
    ///
    /// # Answers
    ///
    /// - `Ok`: nothing is gathered. (clause)
    /// - `Err`: the system refused memory that was asked for within the budget. (clause)
    pub fn new(budget: &mut Budget) -> Result<Gathered, MemoryRefused>
        requires free { GATHERED_ROOM ≤ budget.old }
        ensures left { budget.old ≤ budget.new + GATHERED_ROOM }
        ensures empty { IfOk result (λ gathered. gathered ≡ []) }
    {
        Ok(Gathered {
            bytes: budget.room(GATHERED_ROOM)?,
            sent: 0,
        })
    }

    /// Puts a text behind what is gathered. As soon as the room is full, all of it goes to the sink; so where the sink fails, it was offered
    /// a byte of the text at least.
    ///
    /// # Answers
    ///
    /// - `Ok`: the whole text is due. (`IsPut`)
    /// - `Err`: the sink counted a failure; a prefix of the text is due. (`IsCutShort`)
    pub fn put<K: Sink>(&mut self, sink: &mut K, text: &[u8]) -> Result<(), SinkFailed>
        ensures rule { TextRule (K.refused sink.new)
            (due (K.written sink.old) self.old) (due (K.written sink.new) self.new)
            (K.faults sink.old) (K.faults sink.new) text.now result }
        ensures few { length self.new ≤ GATHERED_ROOM }
    {
        if self.gather(text) {
            return Ok(());
        }
        let first = self.hand_over_full(sink, text)?;
        let rest = &text[first..];
        if self.gather(rest) {
            return Ok(());
        }
        match hand_over(sink, rest) {
            Ok(()) => Ok(()),
            Err(_) => Err(SinkFailed),
        }
    }

    /// Hands over what is gathered.
    ///
    /// # Answers
    ///
    /// As for `ReportWriter::flush`.
    pub fn flush<K: Sink>(&mut self, sink: &mut K) -> Print
        ensures rule { FlushRule (K.refused sink.new)
            (due (K.written sink.old) self.old) (due (K.written sink.new) self.new)
            self.new (K.faults sink.old) (K.faults sink.new) result }
        ensures few { length self.new ≤ GATHERED_ROOM }
    {
        match hand_over(sink, &self.bytes[self.sent..]) {
            Ok(()) => {
                self.bytes.clear();
                self.sent = 0;
                Print::Done
            }
            Err(count) => {
                self.sent += count;
                Print::Failed
            }
        }
    }

    // Fills the room with the beginning of the text, hands all of it over, and tells how many bytes of the text went. Where the sink fails,
    // what it did not take of the text is taken back, so that the room is not left full.
    fn hand_over_full<K: Sink>(&mut self, sink: &mut K, text: &[u8]) -> Result<usize, SinkFailed>
        requires { 0 < length text.now }
        ensures rule { FillRule (K.refused sink.new)
            (due (K.written sink.old) self.old) (due (K.written sink.new) self.new)
            (K.faults sink.old) (K.faults sink.new) self.new text.now result }
        ensures few { length self.new ≤ GATHERED_ROOM }
    {
        let held = self.bytes.len();
        let first = text.len().min(GATHERED_ROOM - held);
        match self.bytes.extend_from_slice(&text[..first]) {
            Ok(()) => {}
            Err(_) => unreachable!(),
        }
        match hand_over(sink, &self.bytes[self.sent..]) {
            Ok(()) => {
                self.bytes.clear();
                self.sent = 0;
                Ok(first)
            }
            Err(count) => {
                self.bytes.truncate(held);
                self.sent = held.min(self.sent + count);
                Err(SinkFailed)
            }
        }
    }

    // Puts the text behind what is gathered, if there is room for it and one byte more.
    fn gather(&mut self, text: &[u8]) -> bool
        ensures rule { MatchBool result (self.new ≡ self.old ++ text.now)
            ((self.new ≡ self.old) × (0 < length text.now)) }
        ensures few { length self.new ≤ GATHERED_ROOM }
    {
        if text.len() >= GATHERED_ROOM - self.bytes.len() {
            return false;
        }
        match self.bytes.extend_from_slice(text) {
            Ok(()) => true,
            Err(_) => unreachable!(),
        }
    }
}

/// Hands the sink the whole text, or tells how many bytes it took before it failed, and counted it.
///
/// # Clauses
///
/// - `HandOverRule`: The whole text was written; or a prefix of it, and the sink failed once and refused the rest.
///
/// # Answers
///
/// - `Ok`: the whole text was written. (`HandOverRule`)
/// - `Err`: the sink counted a failure; exactly this many bytes of the text were written, which are not all. (`HandOverRule`)
pub fn hand_over<K: Sink>(sink: &mut K, text: &[u8]) -> Result<(), usize>
    ensures { HandOverRule (K.refused sink.new) (K.written sink.old) (K.written sink.new)
        (K.faults sink.old) (K.faults sink.new) text.now result }
{
    let mut sent = 0;
    while sent < text.len() {
        match sink.put(&text[sent..]) {
            Put::Took(count) => sent += count,
            Put::Failed => return Err(sent),
        }
    }
    Ok(())
}
