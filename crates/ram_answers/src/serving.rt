//! The lines of a script, answered one after another.
ghost use Rattle.std.specs.Prelude.{◌≡◌, ◌<◌, ◌≤◌, ◌+◌, ◌^◌, ℕ, true, if◌then◌else◌, IfOk, length, is_some};
ghost use Rattle.ram_outside.specs.Conversation.{AsksOnly};
ghost use Rattle.ram_text.specs.Dialogue.{HasSameEnds, AsksShown, dialogue_room, due_in, reader_of, talk_of};
ghost use Rattle.ram_text.specs.DialogueRoom.{IsEmptyRoom};
ghost use Rattle.ram_text.specs.declared.lines.TheConstants.{LINE_LIMIT};
ghost use Rattle.ram_script.specs.Endings.{IsOfRun, StatusCounts};
ghost use Rattle.ram_script.specs.RunCounts.{StopCounts, counts_with};
ghost use Rattle.ram_script.specs.Progress.{run_view};
ghost use Rattle.ram_answers.specs.TextRuns.{TextBeginning, ToldSoFar};
ghost use Rattle.ram_answers.specs.TextAsks.{IsToldBy};
ghost use Rattle.ram_answers.specs.Telling.{HearsBeginning, TextsToldWith, heard_in};
ghost use Rattle.ram_answers.specs.TextEnds.{IsToldAt, BetweenTexts, TakesRaw, NextRaw, TextsEnd, TextTurns, TookSome, CountsLine};

use crate::answers::Answers;
use ram_machine::Stopped;
use ram_machine::status::Status;
use ram_outside::Conversation;
use ram_report::{Print, SinkFailed};
use ram_script::{AnswerCounts, Tally, finish};
use ram_text::{Dialogue, NextLine};

/// Answers the lines of a script one after another, and tells why they end.
///
/// # Clauses
///
/// - `ends`: The lines that were answered are a run of what answers them, and their answers are due; and why they end (`TextsEnd`). What is
///   due is said where the sink tells its bytes.
/// - `counts`: The count of what failed rose, and no other.
/// - `asks`: Where the sink tells its bytes: whenever more was asked for, all answers to the whole lines that had come were written.
/// - `known`: A sink that tells its bytes still tells them.
///
/// # Answers
///
/// - `Ok`: the script was answered to its end. (`TextsEnd`)
/// - `Err`, `LineTooLong`, `ScriptTooLong`, `SourceFault`: the lines end between two of them. (`TextsEnd`)
/// - `NotInLanguage`, `NotADisc`, `ImageFault`: the next line was not answered, and ends them. (`TextsEnd`)
/// - `SinkFault`: the sink failed; the beginning of the answers is due. (`TextsEnd`)
pub fn answer_all<A: Answers, T: Conversation>(
    answers: &mut A,
    tally: &mut Tally,
    dialogue: &mut Dialogue<T>,
) -> Result<(), Stopped>
    requires no_lines { tally.old.lines ≡ 0 }
    requires no_answers { tally.old.answered ≡ 0 }
    requires empty { IsEmptyRoom (dialogue_room dialogue.old) }
    ensures same { HasSameEnds dialogue.old dialogue.new }
    ensures ends { (first : TextBeginning A)
        → BetweenTexts A.Answers first answers.old (run_view T.Conversation T.Sink.Sink dialogue.old tally.old)
        → TextsEnd A.Answers first answers.new (run_view T.Conversation T.Sink.Sink dialogue.new tally.new) result }
    ensures counts { StopCounts
        (counts_with T.Conversation T.Sink.Sink dialogue.old (A.faults answers.old))
        (counts_with T.Conversation T.Sink.Sink dialogue.new (A.faults answers.new)) result }
    ensures asks { (first : TextBeginning A)
        → BetweenTexts A.Answers first answers.old (run_view T.Conversation T.Sink.Sink dialogue.old tally.old)
        → is_some (due_in T.Conversation T.Sink.Sink dialogue.old) ≡ true
        → AsksOnly (IsToldBy A.Answers first) (T.asked (talk_of dialogue.old)) (T.asked (talk_of dialogue.new)) }
    ensures known { is_some (due_in T.Conversation T.Sink.Sink dialogue.new)
        ≡ is_some (due_in T.Conversation T.Sink.Sink dialogue.old) }
    ensures few { tally.new.lines < 2 ^ 63 }
{
    loop {
        match take_raw::<A, T>(*tally, dialogue) {
            Err(stopped) => return Err(stopped),
            Ok(false) => return Ok(()),
            Ok(true) => match answer_raw(answers, tally, dialogue) {
                Ok(()) => {}
                Err(stopped) => return Err(stopped),
            },
        }
    }
}

/// Answers a whole script, tells each answer and how it ended, and hands over all that is due.
///
/// # Clauses
///
/// - `told`: What stands with each status (`TextsToldWith`).
/// - `counts`: By the status which count rose (`StatusCounts`).
/// - `asks`: Whenever more was asked for, all answers to the whole lines that had come were written.
///
/// # Answers
///
/// - `Done`, `Script`, `ImageFault`, `SourceFault`, `SinkFault`, `NotADisc`: as for `run` of ram_run. (`TextsToldWith`, `StatusCounts`)
/// - `Differs`, `Usage`, `NoMemory`: never. (`IsOfRun`)
pub fn serve_script<A: Answers, T: Conversation>(
    answers: &mut A,
    dialogue: &mut Dialogue<T>,
) -> Status
    requires empty { IsEmptyRoom (dialogue_room dialogue.old) }
    ensures same { HasSameEnds dialogue.old dialogue.new }
    ensures other { IsOfRun result }
    ensures told { (first : TextBeginning A)
        → HearsBeginning A.Answers first (heard_in T.Conversation T.Sink.Sink dialogue.old) answers.old
        → TextsToldWith A.Answers first (heard_in T.Conversation T.Sink.Sink dialogue.new) answers.new
        (counts_with T.Conversation T.Sink.Sink dialogue.old (A.faults answers.old))
        (counts_with T.Conversation T.Sink.Sink dialogue.new (A.faults answers.new)) result }
    ensures counts { StatusCounts
        (counts_with T.Conversation T.Sink.Sink dialogue.old (A.faults answers.old))
        (counts_with T.Conversation T.Sink.Sink dialogue.new (A.faults answers.new)) result }
    ensures asks { (first : TextBeginning A)
        → HearsBeginning A.Answers first (heard_in T.Conversation T.Sink.Sink dialogue.old) answers.old
        → AsksOnly (IsToldBy A.Answers first) (T.asked (talk_of dialogue.old)) (T.asked (talk_of dialogue.new)) }
{
    let mut tally = Tally {
        lines: 0,
        answered: 0,
        counts: AnswerCounts::new(),
    };
    let ending = answer_all(answers, &mut tally, dialogue);
    finish(dialogue, tally, ending)
}

/// Takes the next line of the script; false where the script has ended. Pending answers are flushed before more input is read.
fn take_raw<A: Answers, T: Conversation>(
    tally: Tally,
    dialogue: &mut Dialogue<T>,
) -> Result<bool, Stopped>
    ensures ends { HasSameEnds dialogue.old dialogue.new }
    ensures next { (first : TextBeginning A) (now : A) (far : ToldSoFar A.Answers first now)
        → IsToldAt A.Answers far (run_view T.Conversation T.Sink.Sink dialogue.old tally)
        → NextRaw A.Answers far (run_view T.Conversation T.Sink.Sink dialogue.new tally)
        (reader_of dialogue.new).line result }
    ensures counts { (image : ℕ) → StopCounts (counts_with T.Conversation T.Sink.Sink dialogue.old image)
        (counts_with T.Conversation T.Sink.Sink dialogue.new image) result }
    ensures asks { AsksShown T.Conversation T.Sink.Sink dialogue.old dialogue.new }
    ensures takes { TookSome (reader_of dialogue.old).taken (reader_of dialogue.new).taken result }
    ensures short { IfOk result (λ found. length (reader_of dialogue.new).line ≤ LINE_LIMIT) }
    ensures same_due { due_in T.Conversation T.Sink.Sink dialogue.new ≡ due_in T.Conversation T.Sink.Sink dialogue.old }
{
    match dialogue.next_line() {
        Ok(NextLine::Line) => Ok(true),
        Ok(NextLine::End) => Ok(false),
        Ok(NextLine::LineTooLong) => Err(Stopped::LineTooLong),
        Ok(NextLine::ScriptTooLong) => Err(Stopped::ScriptTooLong),
        Ok(NextLine::Failed) => Err(Stopped::SourceFault),
        Err(SinkFailed) => Err(Stopped::SinkFault),
    }
}

/// Answers the line that was taken, and prints the answer.
fn answer_raw<A: Answers, T: Conversation>(
    answers: &mut A,
    tally: &mut Tally,
    dialogue: &mut Dialogue<T>,
) -> Result<(), Stopped>
    requires short { length (reader_of dialogue.old).line ≤ LINE_LIMIT }
    requires lines { tally.old.lines < 2 ^ 63 }
    requires answered { tally.old.answered < 2 ^ 63 }
    ensures ends { HasSameEnds dialogue.old dialogue.new }
    ensures turn { (first : TextBeginning A) (far : ToldSoFar A.Answers first answers.old)
        → TakesRaw A.Answers far (run_view T.Conversation T.Sink.Sink dialogue.old tally.old)
        (reader_of dialogue.old).line
        → TextTurns A.Answers first answers.new (run_view T.Conversation T.Sink.Sink dialogue.new tally.new) result }
    ensures counts { StopCounts
        (counts_with T.Conversation T.Sink.Sink dialogue.old (A.faults answers.old))
        (counts_with T.Conversation T.Sink.Sink dialogue.new (A.faults answers.new)) result }
    ensures known { is_some (due_in T.Conversation T.Sink.Sink dialogue.new)
        ≡ is_some (due_in T.Conversation T.Sink.Sink dialogue.old) }
    ensures tally { CountsLine tally.old tally.new result }
    ensures same_asked { T.asked (talk_of dialogue.new) ≡ T.asked (talk_of dialogue.old) }
    ensures same_reading { reader_of dialogue.new ≡ reader_of dialogue.old }
{
    let reply = match answers.answer(dialogue.line()) {
        Ok(reply) => reply,
        Err(stopped) => return Err(stopped),
    };
    match answers.print(tally.lines + 1, &reply, dialogue) {
        Print::Failed => return Err(Stopped::SinkFault),
        Print::Done => {}
    }
    count_line(tally, A::has_answer(&reply));
    Ok(())
}

/// Counts a line, and its answer where it has one.
fn count_line(tally: &mut Tally, answers: bool)
    requires lines { tally.old.lines < 2 ^ 63 }
    requires answered { tally.old.answered < 2 ^ 63 }
    ensures lines { tally.new.lines ≡ tally.old.lines + 1 }
    ensures answered { tally.new.answered ≡ tally.old.answered + (if answers then 1 else 0) }
{
    tally.lines += 1;
    if answers {
        tally.answered += 1;
    }
}
