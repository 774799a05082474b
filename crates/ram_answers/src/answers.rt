//! What answers the lines of a script: one after another, by their bytes alone.
ghost use Rattle.std.specs.Prelude.{◌≡◌, ◌≤◌, ℕ, Bool, List, Result, length};
ghost use Rattle.ram_text.specs.Dialogue.{Tells};
ghost use Rattle.ram_text.specs.declared.lines.TheConstants.{LINE_LIMIT};
ghost use Rattle.ram_answers.specs.Outcomes.{LineStops};
ghost use Rattle.ram_machine.specs.declared.stopped.Stopped.{Stopped as WhyStopped};

use ram_machine::Stopped;
use ram_outside::Conversation;
use ram_report::Print;
use ram_text::Dialogue;

/// What answers the lines of a script.
pub trait Answers {
    /// What a line is answered.
    type Told: Drop;

    /// What a line does: what answers it before, the line, the outcome, and what answers lines then.
    ghost answered: { Self → List ℕ → Result Self.Told WhyStopped → Self → Type 0 };

    /// The text of a reply to the line of this number, where this answered it.
    ghost text: { Self → ℕ → Self.Told → List ℕ };

    /// Whether a reply is an answer; a comment has none.
    ghost is_answer: { Self.Told → Bool };

    /// How often the images have failed.
    ghost faults: { Self → ℕ };

    /// Answers a line, which comes without its line feed.
    ///
    /// # Answers
    ///
    /// - `Ok`: the line was answered. (`answered`)
    /// - `Err`: the run ends at it. (`answered`)
    /// - `NotInLanguage`, `NotADisc`: the line is none of the language, or needs a disc. Then: nothing failed. (`LineStops`)
    /// - `ImageFault`: an image counted a failure. (`LineStops`)
    /// - `LineTooLong`, `ScriptTooLong`, `SourceFault`, `SinkFault`: never. (`LineStops`)
    fn answer(&mut self, raw: &[u8]) -> Result<Self::Told, Stopped>
        requires short { length raw.now ≤ LINE_LIMIT }
        ensures answered { answered self.old raw.now result self.new }
        ensures count { LineStops (faults self.old) (faults self.new) result };

    /// Whether the reply is an answer.
    ///
    /// # Answers
    ///
    /// - `true`, `false`: whether it is one. (clause)
    fn has_answer(reply: &Self::Told) -> bool
        ensures { result ≡ is_answer reply.now };

    /// Prints a reply, with the number of its line.
    ///
    /// # Answers
    ///
    /// As for `Dialogue::print_answer`.
    fn print<T: Conversation>(
        &self,
        number: u64,
        reply: &Self::Told,
        dialogue: &mut Dialogue<T>,
    ) -> Print
        ensures { Tells T.Conversation T.Sink.Sink dialogue.old dialogue.new (text self.now number reply.now) result };
}
