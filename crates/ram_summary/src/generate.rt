//! The run of a script that is drawn from a number, and its summary in place of the report.
ghost use Rattle.std.specs.Prelude.{◌≡◌, ◌≤◌, ◌⊎◌, ℕ, true, Option, Some, List, [], vec_capacity};
ghost use Rattle.model_geometry.specs.declared.kinds.LayoutKind.TheVariants.{OneGroup};
ghost use Rattle.ram_summary.specs.declared.summary.TheConstants.{SUMMARY_ROOM};
ghost use Rattle.ram_summary.specs.Rooms.{AreReadyFor};
ghost use Rattle.ram_script.specs.Rooms.{AreReady};
ghost use Rattle.ram_script.specs.Progress.{Beginning};
ghost use Rattle.ram_outside.specs.declared.opener.Access.TheVariants.{ReadWrite};
ghost use Rattle.ram_script.specs.Around.{AsksOnce, IsNotOpened, TextCount, WritesText};
ghost use Rattle.ram_script.specs.Opened.{EndsAtFailure};
ghost use Rattle.ram_machine.specs.declared.status.Status.TheVariants as statuses;
ghost use Rattle.ram_script.specs.Endings.{IsOfRun, StatusCounts};
ghost use Rattle.ram_summary.specs.Summary.{tally_text};
ghost use Rattle.ram_script.specs.Leaving.{LeavesBy};
ghost use Rattle.ram_summary.specs.Generating.{BeginsFrom, EndCount, Generates, Heard, beside};

use crate::dropped::DroppedReport;
use crate::kept::KeptScript;
use crate::rooms::GenerateRooms;
use crate::summary::put_summary;
use ram_cache::Cached;
use ram_generate::draw_script;
use ram_image::ImageMedium;
use ram_machine::Stopped;
use ram_machine::status::Status;
use ram_outside::{BothEnds, Image, Opened, Opener, Sink};
use ram_script::serve::answer_lines;
use ram_script::{ScriptRooms, Tally, status_of, write_text};
use ram_text::Dialogue;
use ram_volume::Volume;

/// Runs the script of the number `seed` over the image of this name, and writes a summary of the answers. The image is
/// closed on every way out.
///
/// # Answers
///
/// - `Done`: the whole script was answered, and the summary is written. (`Generates`)
/// - `SinkFault`: the whole script was answered, and a beginning of the summary is written. (`Generates`)
/// - `Script`, `ImageFault`, `NotADisc`: nothing is written, and the image is as the lines leave it, or was not opened. One that
///   failed has the bytes right after the first of its calls that did. (`Generates`, `EndsAtFailure`)
/// - `Differs`, `Usage`, `NoMemory`, `SourceFault`: never. (`Generates`)
pub fn generate_image<K: Sink, O: Opener>(
    rooms: GenerateRooms,
    name: &str,
    seed: u64,
    report: &mut K,
    opener: &mut O,
) -> Status
    requires ready { AreReadyFor rooms }
    ensures other { IsOfRun result }
    ensures causes { (heard : Heard) → StatusCounts
        (beside heard K.Sink O.Opener report.old opener.old).counts
        (beside heard K.Sink O.Opener report.new opener.new).counts result }
    ensures asks { (heard : Heard) → AsksOnce
        (beside heard K.Sink O.Opener report.old opener.old)
        (beside heard K.Sink O.Opener report.new opener.new) ReadWrite name.now result }
    ensures generate { (heard : Heard) (first : Beginning)
        → BeginsFrom O.Image.bytes seed first
        (beside heard K.Sink O.Opener report.old opener.old) O.returned_known
        → Generates O.Image.bytes seed first
        (beside heard K.Sink O.Opener report.old opener.old)
        (beside heard K.Sink O.Opener report.new opener.new) result }
    ensures fails { (heard : Heard) → O.returned_known ≡ true → result ≡ statuses.ImageFault
        → EndsAtFailure O.Image.bytes O.Image.past
        (beside heard K.Sink O.Opener report.new opener.new)
        ⊎ IsNotOpened
        (beside heard K.Sink O.Opener report.old opener.old)
        (beside heard K.Sink O.Opener report.new opener.new) }
{
    let GenerateRooms {
        lines,
        mut script,
        mut summary,
    } = rooms;
    draw_script(&mut script, seed);
    match opener.open(name) {
        Opened::Failed => Status::ImageFault,
        Opened::Image(image) => {
            let (image, tally, ending) = answer_script(lines, script, image);
            opener.close(image);
            match ending {
                Ok(()) => tell_summary(&mut summary, seed, &tally, report),
                Err(_) => status_of(ending),
            }
        }
    }
}

/// Answers the script over an image, and hands the image back, with the tally of the lines and why they ended. Nobody reads their
/// report.
fn answer_script<I: Image>(
    rooms: ScriptRooms,
    script: Vec<u8>,
    image: I,
) -> (I, Tally, Result<(), Stopped>)
    requires ready { AreReady OneGroup rooms }
    ensures ends { (first : Beginning) → first.kind ≡ OneGroup → first.script ≡ script.items
        → I.bytes image ≡ Some first.image
        → LeavesBy first result.1 (I.bytes result.0) result.2 }
    ensures count { EndCount (I.faults image) (I.faults result.0) result.2 }
{
    let ScriptRooms {
        mut state,
        dialogue: mut room,
        target,
    } = rooms;
    let mut talk = BothEnds::new(KeptScript::new(script), DroppedReport);
    let mut dialogue = Dialogue::new(&mut talk, &mut room);
    let (image, ending) = answer_lines::<
        Cached<Volume<ImageMedium<I>>>,
        BothEnds<KeptScript, DroppedReport>,
    >(target, image, &mut state, &mut dialogue);
    (image, state.tally, ending)
}

/// Writes the summary of the lines that were counted.
fn tell_summary<K: Sink>(room: &mut Vec<u8>, seed: u64, tally: &Tally, report: &mut K) -> Status
    requires room { SUMMARY_ROOM ≤ vec_capacity room.old }
    ensures other { IsOfRun result }
    ensures writes { WritesText (K.written report.old) (K.written report.new) (tally_text seed tally.now) result }
    ensures count { TextCount (K.faults report.old) (K.faults report.new) result }
{
    put_summary(room, seed, tally);
    write_text(report, room)
}
