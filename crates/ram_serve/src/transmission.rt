//! The requests of a client, each answered before the next one is taken.
ghost use Rattle.std.specs.Prelude.{◌≡◌, ℕ, ◌+◌, ◌*◌, ◌<◌, ◌^◌, List};
ghost use Rattle.ram_text.specs.declared.script.Line.{Line};
ghost use Rattle.ram_outside.specs.Conversation.{AsksOnly};
ghost use Rattle.ram_machine.specs.States.{Served, Disc};
ghost use Rattle.ram_machine.specs.Inserted.{Stands, faults_of};
ghost use Rattle.ram_script.specs.Progress.{Beginning};
ghost use Rattle.ram_session.specs.Talk.{Transmission};
ghost use Rattle.ram_session.specs.Session.{IsToldBy};
ghost use Rattle.ram_transmission.specs.Requests.{Fits};
ghost use Rattle.ram_serve.specs.declared.messages.TheConstants.{MOST_MESSAGES};
ghost use Rattle.ram_serve.specs.Rooms.{HasMessageRoom};
ghost use Rattle.ram_serve.specs.Taking.{IsAskWithin};
ghost use Rattle.ram_serve.specs.Turns.{BetweenRequests, RequestsLeadTo, ReplyRule, ReplyCount, AnswerRule, TurnCounts, counts_now};

use crate::incoming::{Incoming, take_request};
use crate::messages::{MOST_MESSAGES, tell};
use crate::rooms::MessageRooms;
use model_nbd::NbdOperation;
use ram_machine::status::Status;
use ram_machine::{Drive, Inserted};
use ram_outside::Conversation;
use ram_script::status_of;
use ram_transmission::answer_request;

/// Answers the requests of a client to a disc of `size` bytes, one after another, until the session ends.
///
/// # Clauses
///
/// - `turn` (`RequestsLeadTo`): from what stands between two requests: how the session ends; or `MOST_MESSAGES` more were answered.
/// - `counts` (`TurnCounts`): the count that tells why the session ends rose, and no other.
/// - `asks` (`IsToldBy`): whenever more was asked for, the answer to each message that had come whole was written.
///
/// # Answers
///
/// - `Ok`: as many requests as a session has messages at most were answered. (`RequestsLeadTo`)
/// - `Err`: the session ends. (`RequestsLeadTo`)
/// - `Done`, `Script`, `ImageFault`, `SourceFault`, `SinkFault`, `Differs`, `Usage`, `NoMemory`, `NotADisc`: as for `serve_request`.
///   (`RequestsLeadTo`)
pub fn serve_requests<D: Drive, T: Conversation>(
    inserted: &mut Inserted<D>,
    size: u64,
    talk: &mut T,
    rooms: &mut MessageRooms,
) -> Result<(), Status>
    requires few { size < 2048 * 2 ^ 32 }
    requires room { HasMessageRoom rooms.old }
    ensures turn { (first : Beginning) (faults : List Line) (n : ℕ)
        → BetweenRequests first faults size n (Stands D.Caching D.lies_in D.Image.Image inserted.old)
        (T.left talk.old) (T.Sink.Sink.written (T.report talk.old))
        → RequestsLeadTo first faults size (n + MOST_MESSAGES)
        (Stands D.Caching D.lies_in D.Image.Image inserted.new)
        (T.left talk.new) (T.Sink.Sink.written (T.report talk.new)) result }
    ensures counts { TurnCounts
        (counts_now T.Conversation T.Sink.Sink talk.old (faults_of D.Caching D.Image.Image inserted.old))
        (counts_now T.Conversation T.Sink.Sink talk.new (faults_of D.Caching D.Image.Image inserted.new)) result }
    ensures asks { (first : Beginning) (faults : List Line) (n : ℕ)
        → BetweenRequests first faults size n (Stands D.Caching D.lies_in D.Image.Image inserted.old)
        (T.left talk.old) (T.Sink.Sink.written (T.report talk.old))
        → AsksOnly (IsToldBy first faults) (T.asked talk.old) (T.asked talk.new) }
    ensures room { HasMessageRoom rooms.new }
{
    let mut answered: u64 = 0;
    while answered < MOST_MESSAGES {
        match serve_request(inserted, size, talk, rooms) {
            Ok(()) => {}
            Err(status) => return Err(status),
        }
        answered += 1;
    }
    Ok(())
}

/// Takes the next request of a client to a disc of `size` bytes, does it and tells its reply.
///
/// # Clauses
///
/// - `turn` (`RequestsLeadTo`): from what stands between two requests: the request is answered; or how the session ends.
/// - `counts` (`TurnCounts`): the count that tells why the session ends rose, and no other.
/// - `asks` (`IsAskWithin`): whenever more was asked for, the request had not come whole, and what was told before was written.
///
/// # Answers
///
/// - `Ok`: the request was answered. (`RequestsLeadTo`)
/// - `Err`: the session ends. (`RequestsLeadTo`)
/// - `Done`: the client left, or nothing comes any more. (`RequestsLeadTo`)
/// - `Script`: what came begins no request, or ends within one. (`RequestsLeadTo`)
/// - `ImageFault`: the image failed in a command of the request, or as all was to last; it has no reply. (`RequestsLeadTo`)
/// - `SourceFault`: the source counted a failure before a request was whole. (`RequestsLeadTo`)
/// - `SinkFault`: the sink counted a failure within the reply. (`RequestsLeadTo`)
/// - `Differs`, `Usage`, `NoMemory`, `NotADisc`: never. (`RequestsLeadTo`)
pub fn serve_request<D: Drive, T: Conversation>(
    inserted: &mut Inserted<D>,
    size: u64,
    talk: &mut T,
    rooms: &mut MessageRooms,
) -> Result<(), Status>
    requires few { size < 2048 * 2 ^ 32 }
    requires room { HasMessageRoom rooms.old }
    ensures turn { (first : Beginning) (faults : List Line) (n : ℕ)
        → BetweenRequests first faults size n (Stands D.Caching D.lies_in D.Image.Image inserted.old)
        (T.left talk.old) (T.Sink.Sink.written (T.report talk.old))
        → RequestsLeadTo first faults size (n + 1) (Stands D.Caching D.lies_in D.Image.Image inserted.new)
        (T.left talk.new) (T.Sink.Sink.written (T.report talk.new)) result }
    ensures counts { TurnCounts
        (counts_now T.Conversation T.Sink.Sink talk.old (faults_of D.Caching D.Image.Image inserted.old))
        (counts_now T.Conversation T.Sink.Sink talk.new (faults_of D.Caching D.Image.Image inserted.new)) result }
    ensures asks { AsksOnly
        (IsAskWithin (T.left talk.old) (T.Sink.Sink.written (T.report talk.old)) Transmission)
        (T.asked talk.old) (T.asked talk.new) }
    ensures room { HasMessageRoom rooms.new }
{
    match take_request(talk, size, &mut rooms.message) {
        Ok(incoming) => answer_incoming(inserted, incoming, talk, rooms),
        Err(status) => Err(status),
    }
}

/// Does a request that came, and tells its reply.
fn answer_incoming<D: Drive, T: Conversation>(
    inserted: &mut Inserted<D>,
    incoming: Incoming,
    talk: &mut T,
    rooms: &mut MessageRooms,
) -> Result<(), Status>
    requires fits { Fits incoming.operation rooms.old.message.items }
    requires room { HasMessageRoom rooms.old }
    ensures rule { (s : Served) → Stands D.Caching D.lies_in D.Image.Image inserted.old (Disc s)
        → AnswerRule (Stands D.Caching D.lies_in D.Image.Image inserted.new)
        (T.Sink.Sink.written (T.report talk.old)) (T.Sink.Sink.written (T.report talk.new))
        s incoming.operation rooms.old.message.items incoming.cookie result }
    ensures counts { TurnCounts
        (counts_now T.Conversation T.Sink.Sink talk.old (faults_of D.Caching D.Image.Image inserted.old))
        (counts_now T.Conversation T.Sink.Sink talk.new (faults_of D.Caching D.Image.Image inserted.new)) result }
    ensures same_left { T.left talk.new ≡ T.left talk.old }
    ensures same_asked { T.asked talk.new ≡ T.asked talk.old }
    ensures room { HasMessageRoom rooms.new }
{
    let Incoming { cookie, operation } = incoming;
    match answer_request(
        inserted,
        operation,
        cookie,
        &mut rooms.message,
        &mut rooms.data_in,
    ) {
        Ok(()) => tell_reply(talk, operation, rooms.message.as_slice()),
        Err(stopped) => Err(status_of(Err(stopped))),
    }
}

/// Tells the reply to a request that was done, unless the client leaves.
fn tell_reply<T: Conversation>(
    talk: &mut T,
    operation: NbdOperation,
    reply: &[u8],
) -> Result<(), Status>
    ensures rule { ReplyRule (T.Sink.Sink.written (T.report talk.old)) (T.Sink.Sink.written (T.report talk.new))
        operation reply.now result }
    ensures count { ReplyCount (T.Sink.Sink.faults (T.report talk.old))
        (T.Sink.Sink.faults (T.report talk.new)) result }
    ensures same_left { T.left talk.new ≡ T.left talk.old }
    ensures same_faults { T.faults talk.new ≡ T.faults talk.old }
    ensures same_asked { T.asked talk.new ≡ T.asked talk.old }
{
    match operation {
        NbdOperation::Disconnect => Err(Status::Done),
        _ => tell(talk, reply),
    }
}
