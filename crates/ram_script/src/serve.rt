//! The lines of a script, answered one after another.
ghost use Rattle.std.specs.Prelude.{◌^◌, ◌<◌, ◌≡◌, true, is_some};
ghost use Rattle.ram_outside.specs.Conversation.{AsksOnly};
ghost use Rattle.ram_text.specs.Dialogue.{HasSameEnds, due_in, reader_of, dialogue_room, sink_of, talk_of};
ghost use Rattle.ram_text.specs.DialogueRoom.{IsEmptyRoom};
ghost use Rattle.ram_machine.specs.LineSteps.{CountsUses};
ghost use Rattle.ram_script.specs.Counting.{AreAtMost};
ghost use Rattle.ram_machine.specs.Inserted.{Stands, faults_of};
ghost use Rattle.ram_script.specs.RunCounts.{StopCounts, counts_with};
ghost use Rattle.ram_script.specs.RunState.{IsFresh, HasRoom, TallyRule};
ghost use Rattle.ram_script.specs.Progress.{Beginning, SoFar, Between, Taken, TurnsTo, Ends, run_view};
ghost use Rattle.ram_script.specs.Leaving.{LeavesBy};
ghost use Rattle.ram_script.specs.Asking.{IsAnsweredBy};
ghost use Rattle.ram_script.specs.Endings.{Begins, BeginsWhereKnown, IsOfRun, StandsWith, StatusCounts, aftermath};

use crate::ending::finish;
use crate::state::{RunState, take_line, tell};
use ram_machine::status::Status;
use ram_machine::{Drive, Inserted, Stopped, TargetRooms, begin};
use ram_outside::{Conversation, Image};
use ram_text::{Dialogue, Line};

/// Answers a line, and prints the answer.
fn answer_line<D: Drive, T: Conversation>(
    inserted: &mut Inserted<D>,
    line: Line,
    state: &mut RunState,
    dialogue: &mut Dialogue<T>,
) -> Result<(), Stopped>
    requires uses { CountsUses line }
    requires lines { state.old.tally.lines < 2 ^ 63 }
    requires answered { state.old.tally.answered < 2 ^ 63 }
    requires few { AreAtMost state.old.tally.counts state.old.tally.lines }
    requires room { HasRoom state.old }
    ensures ends { HasSameEnds dialogue.old dialogue.new }
    ensures turn { (first : Beginning) (far : SoFar first)
        → Stands D.Caching D.lies_in D.Image.Image inserted.old far.now
        → Taken far (run_view T.Conversation T.Sink.Sink dialogue.old state.old.tally) line state.old.payload.items
        → TurnsTo first (Stands D.Caching D.lies_in D.Image.Image inserted.new)
        (run_view T.Conversation T.Sink.Sink dialogue.new state.new.tally) result }
    ensures counts { StopCounts
        (counts_with T.Conversation T.Sink.Sink dialogue.old (faults_of D.Caching D.Image.Image inserted.old))
        (counts_with T.Conversation T.Sink.Sink dialogue.new (faults_of D.Caching D.Image.Image inserted.new)) result }
    ensures known { is_some (due_in T.Conversation T.Sink.Sink dialogue.new)
        ≡ is_some (due_in T.Conversation T.Sink.Sink dialogue.old) }
    ensures tally { TallyRule state.old.tally state.new.tally result }
    ensures same_asked { T.asked (talk_of dialogue.new) ≡ T.asked (talk_of dialogue.old) }
    ensures same_reading { reader_of dialogue.new ≡ reader_of dialogue.old }
    ensures room { HasRoom state.new }
{
    let outcome = inserted.answer(line, &state.payload, &mut state.data_in);
    tell(state, dialogue, outcome, inserted.found())
}

/// Answers the lines of a script one after another, and tells why they end.
///
/// # Clauses
///
/// - `ends`, `counts`: The same over what is inserted. What is due is said where the sink tells its bytes (`IsDue`).
/// - `asks`: Where the sink tells its bytes: whenever more was asked for, all answers to the whole lines that had come were written.
/// - `known`: A sink that tells its bytes still tells them.
fn serve_lines<D: Drive, T: Conversation>(
    inserted: Inserted<D>,
    state: &mut RunState,
    dialogue: &mut Dialogue<T>,
) -> (Inserted<D>, Result<(), Stopped>)
    requires fresh { IsFresh state.old }
    requires empty { IsEmptyRoom (dialogue_room dialogue.old) }
    requires room { HasRoom state.old }
    ensures same { HasSameEnds dialogue.old dialogue.new }
    ensures ends { (first : Beginning)
        → Between first (Stands D.Caching D.lies_in D.Image.Image inserted)
        (run_view T.Conversation T.Sink.Sink dialogue.old state.old.tally)
        → Ends first (Stands D.Caching D.lies_in D.Image.Image result.0)
        (run_view T.Conversation T.Sink.Sink dialogue.new state.new.tally) result.1 }
    ensures counts { StopCounts
        (counts_with T.Conversation T.Sink.Sink dialogue.old (faults_of D.Caching D.Image.Image inserted))
        (counts_with T.Conversation T.Sink.Sink dialogue.new (faults_of D.Caching D.Image.Image result.0)) result.1 }
    ensures asks { (first : Beginning)
        → Between first (Stands D.Caching D.lies_in D.Image.Image inserted)
        (run_view T.Conversation T.Sink.Sink dialogue.old state.old.tally)
        → is_some (due_in T.Conversation T.Sink.Sink dialogue.old) ≡ true
        → AsksOnly (IsAnsweredBy first) (T.asked (talk_of dialogue.old)) (T.asked (talk_of dialogue.new)) }
    ensures known { is_some (due_in T.Conversation T.Sink.Sink dialogue.new)
        ≡ is_some (due_in T.Conversation T.Sink.Sink dialogue.old) }
    ensures few { state.new.tally.lines < 2 ^ 63 }
{
    let mut inserted = inserted;
    loop {
        match take_line(state, dialogue) {
            Err(stopped) => return (inserted, Err(stopped)),
            Ok(None) => return (inserted, Ok(())),
            Ok(Some(line)) => match answer_line(&mut inserted, line, state, dialogue) {
                Ok(()) => {}
                Err(stopped) => return (inserted, Err(stopped)),
            },
        }
    }
}

/// Answers the lines of a script over an image, whose discs have a layout of the kind that the rooms are for, and tells why they end.
/// The image is handed back as they leave it.
///
/// # Clauses
///
/// - `leaves`, `counts`: The lines that were answered are a run, why they end, and what they leave of the image (`LeavesBy`); no
///   last line is printed.
///
/// # Answers
///
/// - `Ok`: the script was answered to its end. (`LeavesBy`)
/// - `Err`, `NotInLanguage`, `LineTooLong`, `ScriptTooLong`, `NotADisc`, `SourceFault`, `SinkFault`, `ImageFault`: why the lines
///   end there, with the image as they leave it. (`LeavesBy`)
pub fn answer_lines<D: Drive, T: Conversation>(
    rooms: TargetRooms,
    image: D::Image,
    state: &mut RunState,
    dialogue: &mut Dialogue<T>,
) -> (D::Image, Result<(), Stopped>)
    requires fresh { IsFresh state.old }
    requires empty { IsEmptyRoom (dialogue_room dialogue.old) }
    requires room { HasRoom state.old }
    ensures same { HasSameEnds dialogue.old dialogue.new }
    ensures leaves { (first : Beginning) → first.kind ≡ rooms.drive.kind
        → BeginsWhereKnown first (T.left (talk_of dialogue.old)) (T.Sink.written (sink_of T.Conversation dialogue.old))
        (D.Image.bytes image)
        → LeavesBy first state.new.tally (D.Image.bytes result.0) result.1 }
    ensures counts { StopCounts (counts_with T.Conversation T.Sink.Sink dialogue.old (D.Image.faults image))
        (counts_with T.Conversation T.Sink.Sink dialogue.new (D.Image.faults result.0)) result.1 }
{
    let inserted = match begin::<D>(rooms, image) {
        Ok(inserted) => inserted,
        Err(image) => return (image, Err(Stopped::ImageFault)),
    };
    let (inserted, ending) = serve_lines(inserted, state, dialogue);
    let (image, _) = inserted.into_parts();
    (image, ending)
}

/// Serves a script over an image, whose discs have a layout of the kind that the rooms are for, and hands the image back as the lines
/// leave it.
///
/// # Clauses
///
/// - `leaves`, `counts`: What stands with each status (`StandsWith`); and by the status which count rose (`StatusCounts`).
/// - `asks`: Whenever more was asked for, all answers to the whole lines that had come were written (`IsAnsweredBy`).
///
/// # Answers
///
/// - `Done`, `Differs`, `Usage`, `Script`, `ImageFault`, `SourceFault`, `SinkFault`, `NoMemory`, `NotADisc`: as for `run` of
///   ram_run; never `Differs`, `Usage` or `NoMemory`. (`StandsWith`, `StatusCounts`)
pub fn serve<D: Drive, T: Conversation>(
    rooms: TargetRooms,
    image: D::Image,
    state: &mut RunState,
    dialogue: &mut Dialogue<T>,
) -> (D::Image, Status)
    requires fresh { IsFresh state.old }
    requires empty { IsEmptyRoom (dialogue_room dialogue.old) }
    requires room { HasRoom state.old }
    ensures other { IsOfRun result.1 }
    ensures same { HasSameEnds dialogue.old dialogue.new }
    ensures leaves { (first : Beginning) → first.kind ≡ rooms.drive.kind
        → Begins first (T.left (talk_of dialogue.old)) (T.Sink.written (sink_of T.Conversation dialogue.old))
        (D.Image.bytes image)
        → StandsWith first
        (aftermath (T.left (talk_of dialogue.new)) (T.Sink.written (sink_of T.Conversation dialogue.new))
        (T.Sink.refused (sink_of T.Conversation dialogue.new)) (D.Image.bytes result.0))
        (counts_with T.Conversation T.Sink.Sink dialogue.old (D.Image.faults image))
        (counts_with T.Conversation T.Sink.Sink dialogue.new (D.Image.faults result.0)) result.1 }
    ensures asks { (first : Beginning) → first.kind ≡ rooms.drive.kind
        → Begins first (T.left (talk_of dialogue.old)) (T.Sink.written (sink_of T.Conversation dialogue.old))
        (D.Image.bytes image)
        → AsksOnly (IsAnsweredBy first) (T.asked (talk_of dialogue.old)) (T.asked (talk_of dialogue.new)) }
    ensures counts { StatusCounts (counts_with T.Conversation T.Sink.Sink dialogue.old (D.Image.faults image))
        (counts_with T.Conversation T.Sink.Sink dialogue.new (D.Image.faults result.0)) result.1 }
{
    let inserted = match begin::<D>(rooms, image) {
        Ok(inserted) => inserted,
        Err(image) => return (image, Status::ImageFault),
    };
    let (inserted, ending) = serve_lines(inserted, state, dialogue);
    let status = finish(dialogue, state.tally, ending);
    let (image, _) = inserted.into_parts();
    (image, status)
}
