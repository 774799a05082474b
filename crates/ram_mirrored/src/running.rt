//! A script is answered by a mirror of the discs in two images, which are opened by their names.
ghost use Rattle.std.specs.Prelude.{◌≡◌, ◌+◌};
ghost use Rattle.ram_outside.specs.Conversation.{AsksOnly};
ghost use Rattle.ram_script.specs.Around.{around};
ghost use Rattle.ram_script.specs.Endings.{IsOfRun, StatusCounts};
ghost use Rattle.ram_pair.specs.PairStates.{PairState};
ghost use Rattle.ram_pair.specs.Pairs.{HeldAs, LeavesPair, faults_held};
ghost use Rattle.ram_mirrored.specs.MirrorRuns.{MirrorBeginning, IsMirrorToldBy, MirrorStandsWith};
ghost use Rattle.ram_mirrored.specs.Running.{IsMirrorBeginning, RunsMirror, heard_of, counts_beside};
ghost use Rattle.ram_mirrored.specs.Rooms.{AreReadyToMirror};

use crate::rooms::MirroredRooms;
use ram_answers::serve_script;
use ram_image::ImageMedium;
use ram_machine::status::Status;
use ram_outside::{Conversation, Opened, Opener};
use ram_pair::{Held, Pair};
use ram_side::{Side, Watched};
use ram_text::Dialogue;
use ram_volume::Volume;

/// Answers a script for a mirror of the discs in the images of these names. Both images are closed on every way out, in this order.
///
/// # Clauses
///
/// - `other` (`IsOfRun`): which statuses there are, whatever is known.
/// - `causes` (`StatusCounts`): by the status which count rose.
/// - `keeps` (`RunsMirror`): what is promised of the run.
///
/// # Answers
///
/// - `Done`: the script was answered to its end. Then: all answers and the last line are written; both images are as the lines leave them.
///   (`EndsMirror`, `ToldWith`)
/// - `Script`, `NotADisc`: the next line is none of the language, or passes a limit; or it needs a mirror, and there is none. Then: all
///   answers and that last line are written; both images are as the lines leave them. (`EndsMirror`, `ToldWith`)
/// - `ImageFault`: the opener or an image counted a failure. Then: not both images were opened; or no line was begun; or all answers are
///   written, and the images are as the next line leaves them, in which one failed. (`FailsToOpen`, `IsNeverBegun`, `EndsMirror`)
/// - `SourceFault`: the source counted a failure. Then: every whole line that came is answered. (`IsCutAtSource`)
/// - `SinkFault`: the sink counted one failure. Then: no line was answered after it. (`IsCutAtSink`)
/// - `Differs`, `Usage`, `NoMemory`: never. (`IsOfRun`, `ToldWith`)
pub fn mirror_images<T: Conversation, O: Opener>(
    rooms: MirroredRooms,
    a: &str,
    b: &str,
    talk: &mut T,
    opener: &mut O,
) -> Status
    requires ready { AreReadyToMirror rooms }
    ensures other { IsOfRun result }
    ensures causes { StatusCounts
        (around T.Conversation T.Sink.Sink O.Opener talk.old opener.old).counts
        (around T.Conversation T.Sink.Sink O.Opener talk.new opener.new).counts result }
    ensures keeps { RunsMirror O.Image.bytes O.Image.past O.returned_known
        (around T.Conversation T.Sink.Sink O.Opener talk.old opener.old)
        (around T.Conversation T.Sink.Sink O.Opener talk.new opener.new) result a.now b.now }
{
    let first = match opener.open(a) {
        Opened::Failed => {
            drop(rooms);
            return Status::ImageFault;
        }
        Opened::Image(image) => image,
    };
    match opener.open(b) {
        Opened::Failed => {
            drop(rooms);
            opener.close(first);
            Status::ImageFault
        }
        Opened::Image(second) => {
            let (first, second, status) = serve_both::<Watched<Volume<ImageMedium<O::Image>>>, T>(
                rooms, first, second, talk,
            );
            opener.close(first);
            opener.close(second);
            status
        }
    }
}

/// Answers a script for a mirror of the discs in two images, and hands these back as the lines leave them.
fn serve_both<S: Side, T: Conversation>(
    rooms: MirroredRooms,
    a: S::Image,
    b: S::Image,
    talk: &mut T,
) -> (S::Image, S::Image, Status)
    requires ready { AreReadyToMirror rooms }
    ensures other { IsOfRun result.2 }
    ensures stands { (first : MirrorBeginning)
        → IsMirrorBeginning first (heard_of T.Conversation T.Sink.Sink talk.old) (S.Image.bytes a) (S.Image.bytes b)
        → MirrorStandsWith first (heard_of T.Conversation T.Sink.Sink talk.new)
        (S.Image.bytes result.0) (S.Image.bytes result.1)
        (counts_beside T.Conversation T.Sink.Sink talk.old (S.Image.faults a) (S.Image.faults b))
        (counts_beside T.Conversation T.Sink.Sink talk.new (S.Image.faults result.0) (S.Image.faults result.1))
        result.2 }
    ensures counts { StatusCounts
        (counts_beside T.Conversation T.Sink.Sink talk.old (S.Image.faults a) (S.Image.faults b))
        (counts_beside T.Conversation T.Sink.Sink talk.new (S.Image.faults result.0) (S.Image.faults result.1))
        result.2 }
    ensures asks { (first : MirrorBeginning)
        → IsMirrorBeginning first (heard_of T.Conversation T.Sink.Sink talk.old) (S.Image.bytes a) (S.Image.bytes b)
        → AsksOnly (IsMirrorToldBy first) (T.asked talk.old) (T.asked talk.new) }
{
    let MirroredRooms {
        payload,
        shown,
        dialogue: mut room,
        pair,
    } = rooms;
    match Held::<S>::begin(pair, a, b) {
        Err((a, b)) => (a, b, Status::ImageFault),
        Ok(held) => {
            let mut pair = Pair {
                held,
                payload,
                shown,
            };
            let mut dialogue = Dialogue::new(talk, &mut room);
            let status = serve_script(&mut pair, &mut dialogue);
            let (a, b) = take_images(pair);
            (a, b, status)
        }
    }
}

/// Both images, as a pair leaves them.
fn take_images<S: Side>(pair: Pair<S>) -> (S::Image, S::Image)
    ensures left { (s : PairState) → HeldAs S.Sectors S.lies_in S.Image.Image pair.held s
        → LeavesPair s (S.Image.bytes result.0) (S.Image.bytes result.1) }
    ensures count { S.Image.faults result.0 + S.Image.faults result.1 ≡ faults_held S.Sectors S.Image.Image pair.held }
{
    let (a, b, rooms) = pair.into_held().into_parts();
    drop(rooms);
    (a, b)
}
