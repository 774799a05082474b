//! The handshake: a client is greeted, sends its flags and then options, each of which is answered before the next one is taken.
ghost use Rattle.std.specs.Prelude.{◌≡◌, ℕ, ◌+◌, ◌≤◌, IfOk, IsSome, List, length};
ghost use Rattle.model_nbd.specs.Handshake.{Export};
ghost use Rattle.ram_nbd.specs.Replies.{export_of};
ghost use Rattle.ram_nbd.specs.declared.handshake.TheConstants.{REASON_LIMIT};
ghost use Rattle.ram_text.specs.declared.script.Line.{Line};
ghost use Rattle.ram_outside.specs.Conversation.{AsksOnly};
ghost use Rattle.ram_machine.specs.States.{State};
ghost use Rattle.ram_script.specs.Progress.{Beginning};
ghost use Rattle.ram_session.specs.Talk.{Options, phase_after};
ghost use Rattle.ram_session.specs.Session.{IsToldBy};
ghost use Rattle.ram_serve.specs.Handshakes.{IsToBeGreeted, InHandshake, HandshakeLeadsTo, transmits, HasDiscFor};
ghost use Rattle.ram_serve.specs.Rooms.{HasMessageRoom};
ghost use Rattle.ram_serve.specs.Taking.{IsAskWithin, head_answer};
ghost use Rattle.ram_serve.specs.Turns.{TurnCounts, counts_now};

use crate::messages::{MOST_MESSAGES, tell};
use crate::options::{take_flags, take_option};
use crate::rooms::MessageRooms;
use model_nbd::{NextPhase, OPTION_LIMIT};
use ram_machine::status::Status;
use ram_nbd::handshake::{OptionHead, answer_long_option, answer_option, greeting};
use ram_outside::Conversation;

/// The handshake of a session with a disc of `size` bytes, or with none, for this reason: requests follow, or the session ends.
///
/// # Clauses
///
/// - `turn` (`HandshakeLeadsTo`): from a session that was opened: requests follow, or how it ends.
/// - `counts` (`TurnCounts`): the count that tells why the session ends rose, and no other.
/// - `asks` (`IsToldBy`): whenever more was asked for, the greeting was written, and the answer to each message that had come whole.
/// - `serves`: requests follow only where there is a disc.
///
/// # Answers
///
/// - `Ok`: the client wants the disc, and requests follow. (`HandshakeLeadsTo`)
/// - `Err`: the session ends. (`HandshakeLeadsTo`)
/// - `Done`: the client left, or nothing comes any more. (`HandshakeLeadsTo`)
/// - `Script`: as for `greet` and `choose_options`. (`HandshakeLeadsTo`)
/// - `SourceFault`: the source counted a failure before a message was whole. (`HandshakeLeadsTo`)
/// - `SinkFault`: the sink counted a failure within the greeting or an answer. (`HandshakeLeadsTo`)
/// - `ImageFault`, `Differs`, `Usage`, `NoMemory`, `NotADisc`: never. (`HandshakeLeadsTo`)
pub fn shake_hands<T: Conversation>(
    talk: &mut T,
    size: Option<u64>,
    reason: &[u8],
    rooms: &mut MessageRooms,
) -> Result<(), Status>
    requires short { length reason.now ≤ REASON_LIMIT }
    requires room { HasMessageRoom rooms.old }
    ensures turn { (first : Beginning) (faults : List Line) (ready : State)
        → IsToBeGreeted first faults (export_of size reason.now) ready
        (T.left talk.old) (T.Sink.Sink.written (T.report talk.old))
        → HandshakeLeadsTo first faults (export_of size reason.now) ready transmits 2
        (T.left talk.new) (T.Sink.Sink.written (T.report talk.new)) result }
    ensures counts { (image : ℕ) → TurnCounts (counts_now T.Conversation T.Sink.Sink talk.old image)
        (counts_now T.Conversation T.Sink.Sink talk.new image) result }
    ensures asks { (first : Beginning) (faults : List Line) (ready : State)
        → IsToBeGreeted first faults (export_of size reason.now) ready
        (T.left talk.old) (T.Sink.Sink.written (T.report talk.old))
        → AsksOnly (IsToldBy first faults) (T.asked talk.old) (T.asked talk.new) }
    ensures room { HasMessageRoom rooms.new }
    ensures serves { IfOk result (λ done. IsSome size) }
{
    match greet(talk) {
        Ok(zeros) => choose_options(talk, size, reason, zeros, rooms),
        Err(status) => Err(status),
    }
}

/// Greets a client and takes its flags: whether it wants the padding of EXPORT_NAME.
///
/// # Clauses
///
/// - `turn` (`HandshakeLeadsTo`): from a session that was opened: options follow; or how it ends.
/// - `counts` (`TurnCounts`): the count that tells why the session ends rose, and no other.
/// - `asks` (`IsToldBy`): whenever more was asked for, the greeting was written, and the flags had not come whole.
///
/// # Answers
///
/// - `Ok`: the flags of the client came. (`HandshakeLeadsTo`)
/// - `Err`: the session ends. (`HandshakeLeadsTo`)
/// - `Done`: nothing comes any more. (`HandshakeLeadsTo`)
/// - `Script`: what came is no client's flags, or ends within them. (`HandshakeLeadsTo`)
/// - `SourceFault`: the source counted a failure before the flags were whole. (`HandshakeLeadsTo`)
/// - `SinkFault`: the sink counted a failure within the greeting. (`HandshakeLeadsTo`)
/// - `ImageFault`, `Differs`, `Usage`, `NoMemory`, `NotADisc`: never. (`HandshakeLeadsTo`)
/// - `true`, `false`: `true` exactly when it wants the padding. (`HandshakeLeadsTo`)
pub fn greet<T: Conversation>(talk: &mut T) -> Result<bool, Status>
    ensures turn { (first : Beginning) (faults : List Line) (export : Export) (ready : State)
        → IsToBeGreeted first faults export ready (T.left talk.old) (T.Sink.Sink.written (T.report talk.old))
        → HandshakeLeadsTo first faults export ready Options 1
        (T.left talk.new) (T.Sink.Sink.written (T.report talk.new)) result }
    ensures counts { (image : ℕ) → TurnCounts (counts_now T.Conversation T.Sink.Sink talk.old image)
        (counts_now T.Conversation T.Sink.Sink talk.new image) result }
    ensures asks { (first : Beginning) (faults : List Line) (export : Export) (ready : State)
        → IsToBeGreeted first faults export ready (T.left talk.old) (T.Sink.Sink.written (T.report talk.old))
        → AsksOnly (IsToldBy first faults) (T.asked talk.old) (T.asked talk.new) }
{
    match tell(talk, &greeting()) {
        Ok(()) => take_flags(talk),
        Err(status) => Err(status),
    }
}

/// Answers the options of a client, one after another, until requests follow or the session ends.
///
/// # Clauses
///
/// - `turn` (`HandshakeLeadsTo`): from what stands between two options: requests follow, or how the session ends.
/// - `counts` (`TurnCounts`): the count that tells why the session ends rose, and no other.
/// - `asks` (`IsToldBy`): whenever more was asked for, the answer to each message that had come whole was written.
/// - `serves`: requests follow only where there is a disc.
///
/// # Answers
///
/// - `Ok`: the client wants the disc, and requests follow. (`HandshakeLeadsTo`)
/// - `Err`: the session ends. (`HandshakeLeadsTo`)
/// - `Done`: the client left by ABORT, or nothing comes any more. (`HandshakeLeadsTo`)
/// - `Script`: what came begins no option, or ends within one; or it has no answer; or as many options were answered as a session has
///   messages at most. (`HandshakeLeadsTo`)
/// - `SourceFault`, `SinkFault`, `ImageFault`, `Differs`, `Usage`, `NoMemory`, `NotADisc`: as for `serve_option`. (`HandshakeLeadsTo`)
pub fn choose_options<T: Conversation>(
    talk: &mut T,
    size: Option<u64>,
    reason: &[u8],
    zeros: bool,
    rooms: &mut MessageRooms,
) -> Result<(), Status>
    requires short { length reason.now ≤ REASON_LIMIT }
    requires room { HasMessageRoom rooms.old }
    ensures turn { (first : Beginning) (faults : List Line) (ready : State) (n : ℕ)
        → InHandshake first faults (export_of size reason.now) ready (Options zeros) n
        (T.left talk.old) (T.Sink.Sink.written (T.report talk.old))
        → HandshakeLeadsTo first faults (export_of size reason.now) ready transmits (n + 1)
        (T.left talk.new) (T.Sink.Sink.written (T.report talk.new)) result }
    ensures counts { (image : ℕ) → TurnCounts (counts_now T.Conversation T.Sink.Sink talk.old image)
        (counts_now T.Conversation T.Sink.Sink talk.new image) result }
    ensures asks { (first : Beginning) (faults : List Line) (ready : State) (n : ℕ)
        → InHandshake first faults (export_of size reason.now) ready (Options zeros) n
        (T.left talk.old) (T.Sink.Sink.written (T.report talk.old))
        → AsksOnly (IsToldBy first faults) (T.asked talk.old) (T.asked talk.new) }
    ensures room { HasMessageRoom rooms.new }
    ensures serves { IfOk result (λ done. IsSome size) }
{
    let mut answered: u64 = 0;
    while answered < MOST_MESSAGES {
        match serve_option(talk, size, reason, zeros, rooms) {
            Ok(NextPhase::Options) => {}
            Ok(NextPhase::Transmission) => return Ok(()),
            Ok(NextPhase::Left) => return Err(Status::Done),
            Ok(NextPhase::Violation) => return Err(Status::Script),
            Err(status) => return Err(status),
        }
        answered += 1;
    }
    Err(Status::Script)
}

/// Takes the next option of a client and tells its answer.
///
/// # Clauses
///
/// - `turn` (`HandshakeLeadsTo`): from what stands between two options: the option is answered; or how the session ends.
/// - `counts` (`TurnCounts`): the count that tells why the session ends rose, and no other.
/// - `asks` (`IsAskWithin`): whenever more was asked for, the option had not come whole, and what was told before was written.
/// - `serves` (`HasDiscFor`): requests follow only where there is a disc.
///
/// # Answers
///
/// - `Ok`: the option was answered. (`HandshakeLeadsTo`)
/// - `Options`, `Transmission`, `Left`, `Violation`: what follows. (`HandshakeLeadsTo`)
/// - `Err`: the session ends. (`HandshakeLeadsTo`)
/// - `Done`: nothing comes any more. (`HandshakeLeadsTo`)
/// - `Script`: what came begins no option, or ends within one. (`HandshakeLeadsTo`)
/// - `SourceFault`: the source counted a failure before an option was whole. (`HandshakeLeadsTo`)
/// - `SinkFault`: the sink counted a failure within the answer. (`HandshakeLeadsTo`)
/// - `ImageFault`, `Differs`, `Usage`, `NoMemory`, `NotADisc`: never. (`HandshakeLeadsTo`)
pub fn serve_option<T: Conversation>(
    talk: &mut T,
    size: Option<u64>,
    reason: &[u8],
    zeros: bool,
    rooms: &mut MessageRooms,
) -> Result<NextPhase, Status>
    requires short { length reason.now ≤ REASON_LIMIT }
    requires room { HasMessageRoom rooms.old }
    ensures turn { (first : Beginning) (faults : List Line) (ready : State) (n : ℕ)
        → InHandshake first faults (export_of size reason.now) ready (Options zeros) n
        (T.left talk.old) (T.Sink.Sink.written (T.report talk.old))
        → HandshakeLeadsTo first faults (export_of size reason.now) ready (phase_after zeros) (n + 1)
        (T.left talk.new) (T.Sink.Sink.written (T.report talk.new)) result }
    ensures counts { (image : ℕ) → TurnCounts (counts_now T.Conversation T.Sink.Sink talk.old image)
        (counts_now T.Conversation T.Sink.Sink talk.new image) result }
    ensures asks { AsksOnly
        (IsAskWithin (T.left talk.old) (T.Sink.Sink.written (T.report talk.old)) (Options zeros))
        (T.asked talk.old) (T.asked talk.new) }
    ensures room { HasMessageRoom rooms.new }
    ensures serves { IfOk result (HasDiscFor size) }
{
    let head = match take_option(talk, &mut rooms.message) {
        Ok(head) => head,
        Err(status) => return Err(status),
    };
    let next = answer_head(size, reason, zeros, head, rooms);
    match tell(talk, rooms.answer.as_slice()) {
        Ok(()) => Ok(next),
        Err(status) => Err(status),
    }
}

/// Answers an option that begins so, of which the data are in the room for messages unless they are too long.
fn answer_head(
    size: Option<u64>,
    reason: &[u8],
    zeros: bool,
    head: OptionHead,
    rooms: &mut MessageRooms,
) -> NextPhase
    requires short { length reason.now ≤ REASON_LIMIT }
    requires room { HasMessageRoom rooms.old }
    ensures answer { record { bytes = rooms.new.answer.items; next = result }
        ≡ head_answer (export_of size reason.now) zeros head rooms.old.message.items }
    ensures room { HasMessageRoom rooms.new }
    ensures serves { HasDiscFor size result }
{
    rooms.answer.clear();
    if head.length > OPTION_LIMIT {
        return answer_long_option(head.number, &mut rooms.answer);
    }
    answer_option(
        size,
        reason,
        zeros,
        head.number,
        rooms.message.as_slice(),
        &mut rooms.answer,
    )
}
