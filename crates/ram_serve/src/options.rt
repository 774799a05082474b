//! The flags and the options of a client, as they come.
ghost use Rattle.std.specs.Prelude.{◌≡◌, ◌≤◌, Bool, vec_capacity};
ghost use Rattle.ram_outside.specs.Conversation.{AsksOnly};
ghost use Rattle.ram_receive.specs.Receiving.{IsShortAsk};
ghost use Rattle.ram_session.specs.Talk.{Greeted, Options};
ghost use Rattle.ram_transmission.specs.declared.requests.TheConstants.{REQUEST_ROOM};
ghost use Rattle.ram_serve.specs.Taking.{IsAskWithin, TakeRule, FlagsCame, OptionHeadCame, OptionDataRule, OptionCame};

use crate::messages::{read_over, receive_data, receive_first};
use model_nbd::OPTION_LIMIT;
use ram_machine::status::Status;
use ram_nbd::handshake::{
    CLIENT_FLAGS_BYTES, OPTION_HEAD_BYTES, OptionHead, parse_client_flags, parse_option_head,
};
use ram_outside::Conversation;

/// Takes the flags of a client that was greeted: whether it wants the padding of EXPORT_NAME.
///
/// # Clauses
///
/// - `rule` (`TakeRule`): what came, and what is left to come.
/// - `asks` (`IsAskWithin`): whenever more was asked for, the flags had not come whole, and what is written by now was written.
///
/// # Answers
///
/// - `Ok`: the flags came whole, and no more was taken. (`FlagsCame`)
/// - `Err`: none did. (`TakeRule`)
/// - `Done`: nothing comes any more. (`TakeRule`)
/// - `Script`: what came is no client's flags, or ends within them. (`TakeRule`)
/// - `SourceFault`: the source counted a failure before the flags were whole. (`TakeRule`)
/// - `Differs`, `Usage`, `ImageFault`, `SinkFault`, `NoMemory`, `NotADisc`: never. (`TakeRule`)
/// - `true`, `false`: `true` exactly when it wants the padding. (`FlagsCame`)
pub fn take_flags<T: Conversation>(talk: &mut T) -> Result<bool, Status>
    ensures rule { TakeRule (T.left talk.old) (T.left talk.new) (T.faults talk.old) (T.faults talk.new)
        (FlagsCame (T.left talk.old) (T.left talk.new) (T.faults talk.old) (T.faults talk.new)) Greeted result }
    ensures same { T.report talk.new ≡ T.report talk.old }
    ensures asks { AsksOnly (IsAskWithin (T.left talk.old) (T.Sink.Sink.written (T.report talk.old)) Greeted)
        (T.asked talk.old) (T.asked talk.new) }
{
    let mut bytes = [0; CLIENT_FLAGS_BYTES];
    match receive_first(talk, &mut bytes) {
        Ok(()) => {}
        Err(status) => return Err(status),
    }
    match parse_client_flags(&bytes) {
        Some(zeros) => Ok(zeros),
        None => Err(Status::Script),
    }
}

/// Takes the next option of a client. Its data are then in the room; those that are too long are read over.
///
/// # Clauses
///
/// - `rule` (`TakeRule`): what came, and what is left to come.
/// - `asks` (`IsAskWithin`): whenever more was asked for, the option had not come whole, and what is written by now was written.
///
/// # Answers
///
/// - `Ok`: an option came whole, and no more was taken. (`OptionCame`)
/// - `Err`: none did. (`TakeRule`)
/// - `Done`: nothing comes any more. (`TakeRule`)
/// - `Script`: what came begins no option, or ends within one. (`TakeRule`)
/// - `SourceFault`: the source counted a failure before an option was whole. (`TakeRule`)
/// - `Differs`, `Usage`, `ImageFault`, `SinkFault`, `NoMemory`, `NotADisc`: never. (`TakeRule`)
pub fn take_option<T: Conversation>(talk: &mut T, room: &mut Vec<u8>) -> Result<OptionHead, Status>
    requires room { REQUEST_ROOM ≤ vec_capacity room.old }
    ensures rule { (zeros : Bool) → TakeRule (T.left talk.old) (T.left talk.new)
        (T.faults talk.old) (T.faults talk.new)
        (OptionCame (T.left talk.old) (T.left talk.new) (T.faults talk.old) (T.faults talk.new) room.new.items)
        (Options zeros) result }
    ensures same { T.report talk.new ≡ T.report talk.old }
    ensures asks { (zeros : Bool)
        → AsksOnly (IsAskWithin (T.left talk.old) (T.Sink.Sink.written (T.report talk.old)) (Options zeros))
        (T.asked talk.old) (T.asked talk.new) }
    ensures room { vec_capacity room.old ≤ vec_capacity room.new }
{
    let head = match take_option_head(talk) {
        Ok(head) => head,
        Err(status) => return Err(status),
    };
    match take_option_data(talk, head, room) {
        Ok(()) => Ok(head),
        Err(status) => Err(status),
    }
}

/// Takes the beginning of the next option.
fn take_option_head<T: Conversation>(talk: &mut T) -> Result<OptionHead, Status>
    ensures rule { (zeros : Bool) → TakeRule (T.left talk.old) (T.left talk.new)
        (T.faults talk.old) (T.faults talk.new)
        (OptionHeadCame (T.left talk.old) (T.left talk.new) (T.faults talk.old) (T.faults talk.new))
        (Options zeros) result }
    ensures same { T.report talk.new ≡ T.report talk.old }
    ensures asks { (zeros : Bool)
        → AsksOnly (IsAskWithin (T.left talk.old) (T.Sink.Sink.written (T.report talk.old)) (Options zeros))
        (T.asked talk.old) (T.asked talk.new) }
{
    let mut bytes = [0; OPTION_HEAD_BYTES];
    match receive_first(talk, &mut bytes) {
        Ok(()) => {}
        Err(status) => return Err(status),
    }
    match parse_option_head(&bytes) {
        Some(head) => Ok(head),
        None => Err(Status::Script),
    }
}

/// Takes the data of an option that begins so: they go into the room, and are read over where they are too long.
fn take_option_data<T: Conversation>(
    talk: &mut T,
    head: OptionHead,
    room: &mut Vec<u8>,
) -> Result<(), Status>
    requires room { REQUEST_ROOM ≤ vec_capacity room.old }
    ensures rule { OptionDataRule (T.left talk.old) (T.left talk.new) (T.faults talk.old) (T.faults talk.new)
        head room.new.items result }
    ensures same { T.report talk.new ≡ T.report talk.old }
    ensures asks { AsksOnly (IsShortAsk (T.left talk.old) (T.Sink.Sink.written (T.report talk.old)) head.length)
        (T.asked talk.old) (T.asked talk.new) }
    ensures room { vec_capacity room.old ≤ vec_capacity room.new }
{
    if head.length > OPTION_LIMIT {
        return read_over(talk, head.length, room);
    }
    receive_data(talk, head.length, room)
}
