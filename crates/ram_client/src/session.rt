//! The whole session of a client, over what lies in the drive and over an image.
ghost use Rattle.std.specs.Prelude.{◌≡◌, ℕ, ◌*◌, ◌<◌, ◌^◌, List, map};
ghost use Rattle.ram_outside.specs.Conversation.{AsksOnly};
ghost use Rattle.ram_text.specs.Faults.{AreFaultWords};
ghost use Rattle.ram_text.specs.declared.script.Line.{Line};
ghost use Rattle.ram_machine.specs.Inserted.{Stands, faults_of};
ghost use Rattle.ram_script.specs.Progress.{Beginning};
ghost use Rattle.ram_script.specs.Endings.{Begins, aftermath};
ghost use Rattle.ram_session.specs.Session.{IsToldBy, TalkEnds, SessionStands, SessionCounts};
ghost use Rattle.ram_opening.specs.Faults.{ReadAsFaults};
ghost use Rattle.ram_opening.specs.Exports.{FitsSectors};
ghost use Rattle.ram_opening.specs.Opens.{IsOpenedAs};
ghost use Rattle.ram_serve.specs.Rooms.{HasMessageRoom};
ghost use Rattle.ram_serve.specs.Turns.{BetweenRequests, counts_now};
ghost use Rattle.ram_client.specs.Ends.{IsBeforeTalk, IsToBegin, SessionEnds, IsOfSession};

use ram_machine::status::Status;
use ram_machine::{Drive, Inserted, begin};
use ram_opening::{Export, open_session};
use ram_outside::Conversation;
use ram_serve::handshake::shake_hands;
use ram_serve::transmission::serve_requests;
use ram_serve::{MessageRooms, SessionRooms};

/// Serves a client what lies in the drive: makes the faults that these words read as, greets the client, and answers its messages until
/// the session ends.
///
/// # Clauses
///
/// - `other` (`IsOfSession`): which statuses there are, whatever is known.
/// - `ends` (`SessionEnds`): from what a session begins with: how it ends, and which state it leaves.
/// - `counts` (`SessionCounts`): the count that the status tells of rose, and no other.
/// - `asks` (`IsToldBy`): whenever more was asked for, all that was due was told.
///
/// # Answers
///
/// - `Done`: the client left, or what it sends ended behind a message. (`HasEnded`)
/// - `Script`: a fault was refused, and no client was greeted (`EndsAtFault`); or what the client sends breaks the protocol, or is longer
///   than a session may be. (`BreaksProtocol`)
/// - `ImageFault`: the image failed, in a line before the greeting (`EndsInOpening`) or in a request. (`IsCutByImage`)
/// - `SourceFault`: the source counted a failure before a message was whole. (`IsCutBySource`)
/// - `SinkFault`: the sink counted a failure within an answer. (`IsCutBySink`)
/// - `Differs`, `Usage`, `NoMemory`: never. (`IsOfSession`)
/// - `NotADisc`: never where the bytes are known. (`SessionEnds`)
pub fn converse<D: Drive, T: Conversation>(
    inserted: &mut Inserted<D>,
    words: &[&str],
    talk: &mut T,
    rooms: &mut MessageRooms,
) -> Status
    requires reads { ReadAsFaults (map (λ word. word.now) words.now) }
    requires room { HasMessageRoom rooms.old }
    ensures other { IsOfSession result }
    ensures ends { (first : Beginning) (faults : List Line)
        → IsToBegin first faults (map (λ word. word.now) words.now)
        (Stands D.Caching D.lies_in D.Image.Image inserted.old)
        (T.left talk.old) (T.Sink.Sink.written (T.report talk.old))
        → SessionEnds first faults (Stands D.Caching D.lies_in D.Image.Image inserted.new)
        (T.left talk.new) (T.Sink.Sink.written (T.report talk.new)) result }
    ensures counts { SessionCounts
        (counts_now T.Conversation T.Sink.Sink talk.old (faults_of D.Caching D.Image.Image inserted.old))
        (counts_now T.Conversation T.Sink.Sink talk.new (faults_of D.Caching D.Image.Image inserted.new)) result }
    ensures asks { (first : Beginning) (faults : List Line)
        → IsToBegin first faults (map (λ word. word.now) words.now)
        (Stands D.Caching D.lies_in D.Image.Image inserted.old)
        (T.left talk.old) (T.Sink.Sink.written (T.report talk.old))
        → AsksOnly (IsToldBy first faults) (T.asked talk.old) (T.asked talk.new) }
{
    match open_session(inserted, words, &mut rooms.data_in) {
        Ok(export) => serve_export(inserted, export, talk, rooms),
        Err(status) => status,
    }
}

/// Greets a client and serves it this.
fn serve_export<D: Drive, T: Conversation>(
    inserted: &mut Inserted<D>,
    export: Export,
    talk: &mut T,
    rooms: &mut MessageRooms,
) -> Status
    requires small { FitsSectors export }
    requires room { HasMessageRoom rooms.old }
    ensures ends { (first : Beginning) (faults : List Line)
        → IsOpenedAs first faults (Stands D.Caching D.lies_in D.Image.Image inserted.old) export
        → IsBeforeTalk first (T.left talk.old) (T.Sink.Sink.written (T.report talk.old))
        → TalkEnds first faults (Stands D.Caching D.lies_in D.Image.Image inserted.new)
        (T.left talk.new) (T.Sink.Sink.written (T.report talk.new)) result }
    ensures counts { SessionCounts
        (counts_now T.Conversation T.Sink.Sink talk.old (faults_of D.Caching D.Image.Image inserted.old))
        (counts_now T.Conversation T.Sink.Sink talk.new (faults_of D.Caching D.Image.Image inserted.new)) result }
    ensures asks { (first : Beginning) (faults : List Line)
        → IsOpenedAs first faults (Stands D.Caching D.lies_in D.Image.Image inserted.old) export
        → IsBeforeTalk first (T.left talk.old) (T.Sink.Sink.written (T.report talk.old))
        → AsksOnly (IsToldBy first faults) (T.asked talk.old) (T.asked talk.new) }
{
    match shake_hands(talk, export.size(), export.reason(), rooms) {
        Ok(()) => match export.size() {
            Some(size) => serve_disc(inserted, size, talk, rooms),
            None => unreachable!(),
        },
        Err(status) => status,
    }
}

/// Answers the requests of a client to a disc of `size` bytes. As many as a session has messages at most break the protocol.
fn serve_disc<D: Drive, T: Conversation>(
    inserted: &mut Inserted<D>,
    size: u64,
    talk: &mut T,
    rooms: &mut MessageRooms,
) -> Status
    requires few { size < 2048 * 2 ^ 32 }
    requires room { HasMessageRoom rooms.old }
    ensures ends { (first : Beginning) (faults : List Line) (n : ℕ)
        → BetweenRequests first faults size n (Stands D.Caching D.lies_in D.Image.Image inserted.old)
        (T.left talk.old) (T.Sink.Sink.written (T.report talk.old))
        → TalkEnds first faults (Stands D.Caching D.lies_in D.Image.Image inserted.new)
        (T.left talk.new) (T.Sink.Sink.written (T.report talk.new)) result }
    ensures counts { SessionCounts
        (counts_now T.Conversation T.Sink.Sink talk.old (faults_of D.Caching D.Image.Image inserted.old))
        (counts_now T.Conversation T.Sink.Sink talk.new (faults_of D.Caching D.Image.Image inserted.new)) result }
    ensures asks { (first : Beginning) (faults : List Line) (n : ℕ)
        → BetweenRequests first faults size n (Stands D.Caching D.lies_in D.Image.Image inserted.old)
        (T.left talk.old) (T.Sink.Sink.written (T.report talk.old))
        → AsksOnly (IsToldBy first faults) (T.asked talk.old) (T.asked talk.new) }
{
    match serve_requests(inserted, size, talk, rooms) {
        Ok(()) => Status::Script,
        Err(status) => status,
    }
}

/// Serves a client the disc in an image, whose discs have a layout of the kind that the rooms are for, and hands the image back as the
/// session leaves it.
///
/// # Clauses
///
/// - `other` (`IsOfSession`): which statuses there are, whatever is known.
/// - `leaves` (`SessionStands`): what stands with each status.
/// - `counts` (`SessionCounts`): the count that the status tells of rose, and no other.
/// - `asks` (`IsToldBy`): whenever more was asked for, all that was due was told.
///
/// # Answers
///
/// - `ImageFault`: as for `converse`, or the image failed as it was looked at. (`EndsUnopened`)
/// - `Done`, `Script`, `SourceFault`, `SinkFault`, `Differs`, `Usage`, `NoMemory`, `NotADisc`: as for `converse`. (`SessionStands`)
pub fn serve_client<D: Drive, T: Conversation>(
    rooms: SessionRooms,
    image: D::Image,
    words: &[&str],
    talk: &mut T,
) -> (D::Image, Status)
    requires reads { ReadAsFaults (map (λ word. word.now) words.now) }
    requires room { HasMessageRoom rooms.messages }
    ensures other { IsOfSession result.1 }
    ensures leaves { (first : Beginning) (faults : List Line) → first.kind ≡ rooms.target.drive.kind
        → AreFaultWords (map (λ word. word.now) words.now) faults
        → Begins first (T.left talk.old) (T.Sink.Sink.written (T.report talk.old)) (D.Image.bytes image)
        → SessionStands first faults (aftermath (T.left talk.new) (T.Sink.Sink.written (T.report talk.new))
        (T.Sink.Sink.refused (T.report talk.new)) (D.Image.bytes result.0)) result.1 }
    ensures counts { SessionCounts (counts_now T.Conversation T.Sink.Sink talk.old (D.Image.faults image))
        (counts_now T.Conversation T.Sink.Sink talk.new (D.Image.faults result.0)) result.1 }
    ensures asks { (first : Beginning) (faults : List Line) → first.kind ≡ rooms.target.drive.kind
        → AreFaultWords (map (λ word. word.now) words.now) faults
        → Begins first (T.left talk.old) (T.Sink.Sink.written (T.report talk.old)) (D.Image.bytes image)
        → AsksOnly (IsToldBy first faults) (T.asked talk.old) (T.asked talk.new) }
{
    let SessionRooms {
        target,
        mut messages,
    } = rooms;
    let mut inserted = match begin::<D>(target, image) {
        Ok(inserted) => inserted,
        Err(image) => return (image, Status::ImageFault),
    };
    let status = converse(&mut inserted, words, talk, &mut messages);
    let (image, _) = inserted.into_parts();
    (image, status)
}
