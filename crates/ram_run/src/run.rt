//! What the program does for each form of its words.
ghost use Rattle.std.specs.Prelude.{◌≡◌, ◌⊎◌, ℕ, true, List, map};
ghost use Rattle.ram_outside.specs.declared.opener.Access.TheVariants.{ReadWrite};
ghost use Rattle.ram_outside.specs.Conversation.{AsksOnly};
ghost use Rattle.ram_script.specs.Asking.{IsAnsweredBy};
ghost use Rattle.ram_script.specs.Progress.{Beginning};
ghost use Rattle.ram_script.specs.Around.{IsNotOpened, AsksOnce, around};
ghost use Rattle.ram_script.specs.Endings.{IsUnopened, IsOfRun, StandsWith, StatusCounts};
ghost use Rattle.ram_script.specs.Opened.{IsBeginning, EndsAtFailure, aftermath_of};
ghost use Rattle.ram_machine.specs.declared.status.Status.TheVariants as statuses;
ghost use Rattle.ram_script.specs.Rooms.{AreReady};
ghost use Rattle.ram_run.specs.Rooms.{AreRoomsFor};
ghost use Rattle.ram_run.specs.Promises.{Promises};

use crate::form::{Form, form_of};
use crate::help::{HELP, VERSION};
use crate::rooms::{Rooms, of_certificate, of_mirror, of_number, of_script, of_session};
use ram_cache::Cached;
use ram_certificate::{audit_image, check_image};
use ram_client::serve_image;
use ram_image::ImageMedium;
use ram_machine::status::Status;
use ram_mirrored::mirror_images;
use ram_outside::{Conversation, Opened, Opener};
use ram_script::serve::serve;
use ram_script::{ScriptRooms, write_text};
use ram_summary::generate_image;
use ram_text::Dialogue;
use ram_volume::Volume;

/// Runs the words of the program: `run IMAGE` answers the script over the image of that name, and reports every answer; `groups IMAGE`
/// does the same for discs with a group of spares in each zone; `generate IMAGE N` answers the script that is drawn from the number N,
/// and tells how often each answer came; `audit IMAGE` tells what an image holds, and `check IMAGE` compares such a text with it;
/// `nbd IMAGE [FAULT]...` serves the disc in the image to a client of the NBD protocol; `mirror IMAGE IMAGE` answers a script for a mirror
/// of the discs in two images; `--help` and `--version` tell of the program. The rooms are those that the words ask for; no more memory is
/// taken.
///
/// # Answers
///
/// Of the words `run IMAGE` and `groups IMAGE`, where the bytes are known. `StatusCounts` says of every status which count rose, and
/// `UsageRule` which words it was.
///
/// - `Done`: the script was answered to its end. Then: all answers and the last line `end N` are written; the image is as the
///   lines leave it. (`IsEnded`)
/// - `Differs`: never: only `check` answers so. (`StandsWith`)
/// - `Usage`: exactly when the words have no known form. Then: nothing was opened, read or written. (`UsageRule`)
/// - `Script`: the next line is none of the language, or passes a limit, or the script does. Then: all answers and that last line
///   are written; the image is as the lines leave it. (`IsOfScript`, `IsEnded`)
/// - `ImageFault`: the opener or the image counted a failure. Then: nothing was opened; or no line was begun; or all answers are
///   written, and the image is as the next line, in which it failed, leaves it: it has the bytes right after the first of its calls that
///   failed. (`IsNotBegun`, `IsStoppedInLine`, `EndsAtFailure`)
/// - `SourceFault`: the source counted a failure. Then: every whole line that came is answered; the image is as the lines leave
///   it. (`IsBroken`)
/// - `SinkFault`: the sink counted one failure; image or source may have too. Then: no line was answered after it; a beginning of
///   the text due is written, of which at most 64 KiB are missing from before the last line done; the image is as the lines leave
///   it, or the next one in which it failed. (`IsReportCutOff`, `IsOffered`, `StoodBehind`)
/// - `NoMemory`: never: the memory was taken before. (`MemoryRule`)
/// - `NotADisc`: the next line needs a disc, and there is none. Then: all answers and that last line are written; the image is as
///   the lines leave it. (`IsEnded`)
///
/// Of `generate IMAGE N` (`Generates`). `Done`: the whole script was answered, and the summary is written. `SinkFault`: the whole
/// script was answered, and a beginning of the summary is written. `Script`, `ImageFault`, `NotADisc`: nothing is written, and the
/// image is as the lines leave it (`StopsWith`), or was not opened. `SourceFault` never comes.
///
/// Of `audit IMAGE` (`Audits`). The image is opened to be read alone, and is handed back with each byte as it was; the source is not
/// touched. `Done`: the text of the certificate is written. `NotADisc`: the image is no disc's, and that is written. `SinkFault`: a
/// beginning of one of these is written. `ImageFault`: nothing is written.
///
/// Of `check IMAGE` (`Checks`). The same of the image; the source is asked once the image was read. `Done`: the source's bytes are
/// the text of the certificate, and `yes` is written. `Differs`: they are not, and `no N` is written, with the first line that
/// differs. `NotADisc`: as for `audit`. `SinkFault`: a beginning of one of these is written. `ImageFault`, `SourceFault`: nothing is
/// written.
///
/// Of `nbd IMAGE [FAULT]...` (`ServesClient`). The source is what the client sends, and the sink what it is told. `Done`: the client left, or
/// what it sends ended behind a message. `Script`: the drive refused a fault that the words ask for, and no client was greeted; or what
/// the client sent is none of the protocol's messages, or has no answer. `ImageFault`: nothing was opened; or the image failed before the
/// greeting, or in a request, which has no reply. `SourceFault`: each whole message that came was answered. `SinkFault`: all answers but
/// the newest are written. `Differs`, `Usage`, `NoMemory`, `NotADisc` never come.
///
/// Of `mirror IMAGE IMAGE` (`RunsMirror`). `Done`, `Script`, `NotADisc`: as for `run IMAGE`, where a line other than `press` needs two discs
/// of one geometry; both images are as the lines leave them. `ImageFault`: the opener or an image counted a failure; then not both images
/// were opened, or no line was begun, or all answers are written, and each image that failed has the bytes right after the first of its
/// calls that failed. `SourceFault`, `SinkFault`: as for `run IMAGE`. `Differs`, `Usage`, `NoMemory` never come.
///
/// Of `--help` and `--version` (`TellsText`). `Done`: the text is written. `SinkFault`: a beginning of it is. Nothing is opened or
/// read.
pub fn run<T: Conversation, O: Opener>(
    rooms: Rooms,
    words: &[&str],
    talk: &mut T,
    opener: &mut O,
) -> Status
    requires rooms { AreRoomsFor (map (λ word. word.now) words.now) rooms }
    ensures keeps { Promises O.Image.bytes O.Image.past O.returned_known
        (around T.Conversation T.Sink.Sink O.Opener talk.old opener.old)
        (around T.Conversation T.Sink.Sink O.Opener talk.new opener.new) result
        (map (λ word. word.now) words.now) }
{
    match form_of(words) {
        Some(Form::Run(kind, name)) => {
            let rooms = of_script(rooms, kind);
            run_image(rooms, name, talk, opener)
        }
        Some(Form::Generate(name, seed)) => {
            generate_image(of_number(rooms), name, seed, talk.report_mut(), opener)
        }
        Some(Form::Audit(name)) => {
            audit_image(of_certificate(rooms), name, talk.report_mut(), opener)
        }
        Some(Form::Check(name)) => check_image(of_certificate(rooms), name, talk, opener),
        Some(Form::Nbd(name, faults)) => {
            serve_image(of_session(rooms), name, faults, talk, opener)
        }
        Some(Form::Mirror(a, b)) => mirror_images(of_mirror(rooms), a, b, talk, opener),
        Some(Form::Help) => {
            drop(rooms);
            write_text(talk.report_mut(), HELP)
        }
        Some(Form::Version) => {
            drop(rooms);
            write_text(talk.report_mut(), VERSION)
        }
        None => {
            drop(rooms);
            Status::Usage
        }
    }
}

/// Answers the script over the image of this name, whose discs have a layout of the kind that the rooms are for. The image is closed
/// on every way out.
fn run_image<T: Conversation, O: Opener>(
    rooms: ScriptRooms,
    name: &str,
    talk: &mut T,
    opener: &mut O,
) -> Status
    requires ready { AreReady rooms.target.drive.kind rooms }
    ensures other { IsOfRun result }
    ensures causes { StatusCounts
        (around T.Conversation T.Sink.Sink O.Opener talk.old opener.old).counts
        (around T.Conversation T.Sink.Sink O.Opener talk.new opener.new).counts result }
    ensures asks { AsksOnce
        (around T.Conversation T.Sink.Sink O.Opener talk.old opener.old)
        (around T.Conversation T.Sink.Sink O.Opener talk.new opener.new) ReadWrite name.now result }
    ensures run { (first : Beginning) → first.kind ≡ rooms.target.drive.kind
        → IsBeginning O.Image.bytes first
        (around T.Conversation T.Sink.Sink O.Opener talk.old opener.old) O.returned_known
        → StandsWith first (aftermath_of O.Image.bytes
        (around T.Conversation T.Sink.Sink O.Opener talk.new opener.new))
        (around T.Conversation T.Sink.Sink O.Opener talk.old opener.old).counts
        (around T.Conversation T.Sink.Sink O.Opener talk.new opener.new).counts result
        ⊎ (IsUnopened result × IsNotOpened
        (around T.Conversation T.Sink.Sink O.Opener talk.old opener.old)
        (around T.Conversation T.Sink.Sink O.Opener talk.new opener.new)) }
    ensures talks { (first : Beginning) → first.kind ≡ rooms.target.drive.kind
        → IsBeginning O.Image.bytes first
        (around T.Conversation T.Sink.Sink O.Opener talk.old opener.old) O.returned_known
        → AsksOnly (IsAnsweredBy first) (T.asked talk.old) (T.asked talk.new) }
    ensures fails { O.returned_known ≡ true → result ≡ statuses.ImageFault
        → EndsAtFailure O.Image.bytes O.Image.past
        (around T.Conversation T.Sink.Sink O.Opener talk.new opener.new)
        ⊎ IsNotOpened
        (around T.Conversation T.Sink.Sink O.Opener talk.old opener.old)
        (around T.Conversation T.Sink.Sink O.Opener talk.new opener.new) }
{
    let ScriptRooms {
        mut state,
        dialogue: mut room,
        target,
    } = rooms;
    match opener.open(name) {
        Opened::Failed => Status::ImageFault,
        Opened::Image(image) => {
            let mut dialogue = Dialogue::new(talk, &mut room);
            let (image, status) = serve::<Cached<Volume<ImageMedium<O::Image>>>, T>(
                target,
                image,
                &mut state,
                &mut dialogue,
            );
            opener.close(image);
            status
        }
    }
}
