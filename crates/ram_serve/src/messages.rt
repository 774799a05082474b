//! Messages that come and go.
ghost use Rattle.std.specs.Prelude.{◌≡◌, ◌<◌, ◌≤◌, length, vec_capacity};
ghost use Rattle.ram_outside.specs.Conversation.{AsksOnly};
ghost use Rattle.ram_receive.specs.Receiving.{IsShortAsk};
ghost use Rattle.ram_serve.specs.Messages.{ToldRule, FirstRule, MoreRule, OverRule};

use ram_machine::status::Status;
use ram_outside::Conversation;
use ram_receive::{Received, receive};
use ram_report::hand_over;

/// How many messages a session has at most.
pub const MOST_MESSAGES: u64 = u64::MAX;

/// Hands a message to the client.
///
/// # Answers
///
/// - `Ok`: all of it is written. (`ToldRule`)
/// - `Err`: a part of it is written. (`ToldRule`)
/// - `SinkFault`: the sink counted a failure. (`ToldRule`)
/// - `Done`, `Differs`, `Usage`, `Script`, `ImageFault`, `SourceFault`, `NoMemory`, `NotADisc`: never. (`ToldRule`)
pub fn tell<T: Conversation>(talk: &mut T, bytes: &[u8]) -> Result<(), Status>
    ensures rule { ToldRule (T.Sink.Sink.written (T.report talk.old)) (T.Sink.Sink.written (T.report talk.new))
        (T.Sink.Sink.faults (T.report talk.old)) (T.Sink.Sink.faults (T.report talk.new)) bytes.now result }
    ensures same_left { T.left talk.new ≡ T.left talk.old }
    ensures same_faults { T.faults talk.new ≡ T.faults talk.old }
    ensures same_asked { T.asked talk.new ≡ T.asked talk.old }
{
    match hand_over(talk.report_mut(), bytes) {
        Ok(()) => Ok(()),
        Err(_) => Err(Status::SinkFault),
    }
}

/// Fills the slice with the first bytes of a message.
///
/// # Answers
///
/// - `Ok`: they came, and no more was taken. (`FirstRule`)
/// - `Err`: they did not all come. (`FirstRule`)
/// - `Done`: nothing comes any more. (`FirstRule`)
/// - `Script`: a part came, and nothing comes any more. (`FirstRule`)
/// - `SourceFault`: the source counted a failure. (`FirstRule`)
/// - `Differs`, `Usage`, `ImageFault`, `SinkFault`, `NoMemory`, `NotADisc`: never. (`FirstRule`)
pub fn receive_first<T: Conversation>(talk: &mut T, into: &mut [u8]) -> Result<(), Status>
    ensures rule { FirstRule (T.left talk.old) (T.left talk.new) (T.faults talk.old) (T.faults talk.new)
        into.new result }
    ensures length { length into.new ≡ length into.old }
    ensures same { T.report talk.new ≡ T.report talk.old }
    ensures asks { AsksOnly
        (IsShortAsk (T.left talk.old) (T.Sink.Sink.written (T.report talk.old)) (length into.old))
        (T.asked talk.old) (T.asked talk.new) }
{
    match receive(talk, into) {
        Received::Whole => Ok(()),
        Received::Ended(0) => Err(Status::Done),
        Received::Ended(_) => Err(Status::Script),
        Received::Failed(_) => Err(Status::SourceFault),
    }
}

/// Fills the slice with further bytes of a message.
///
/// # Answers
///
/// - `Ok`: they came, and no more was taken. (`MoreRule`)
/// - `Err`: fewer came. (`MoreRule`)
/// - `Script`: nothing comes any more. (`MoreRule`)
/// - `SourceFault`: the source counted a failure. (`MoreRule`)
/// - `Done`, `Differs`, `Usage`, `ImageFault`, `SinkFault`, `NoMemory`, `NotADisc`: never. (`MoreRule`)
fn receive_more<T: Conversation>(talk: &mut T, into: &mut [u8]) -> Result<(), Status>
    ensures rule { MoreRule (T.left talk.old) (T.left talk.new) (T.faults talk.old) (T.faults talk.new)
        (length into.old) into.new result }
    ensures length { length into.new ≡ length into.old }
    ensures same { T.report talk.new ≡ T.report talk.old }
    ensures asks { AsksOnly
        (IsShortAsk (T.left talk.old) (T.Sink.Sink.written (T.report talk.old)) (length into.old))
        (T.asked talk.old) (T.asked talk.new) }
{
    match receive(talk, into) {
        Received::Whole => Ok(()),
        Received::Ended(_) => Err(Status::Script),
        Received::Failed(_) => Err(Status::SourceFault),
    }
}

/// Puts the next `count` bytes of a message in the room, in place of what it had.
///
/// # Answers
///
/// - `Ok`: they came, and are what the room then holds. (`MoreRule`)
/// - `Err`: fewer came. (`MoreRule`)
/// - `Script`: nothing comes any more. (`MoreRule`)
/// - `SourceFault`: the source counted a failure. (`MoreRule`)
/// - `Done`, `Differs`, `Usage`, `ImageFault`, `SinkFault`, `NoMemory`, `NotADisc`: never. (`MoreRule`)
pub fn receive_data<T: Conversation>(
    talk: &mut T,
    count: u32,
    room: &mut Vec<u8>,
) -> Result<(), Status>
    requires room { count ≤ vec_capacity room.old }
    ensures rule { MoreRule (T.left talk.old) (T.left talk.new) (T.faults talk.old) (T.faults talk.new) count
        room.new.items result }
    ensures same { T.report talk.new ≡ T.report talk.old }
    ensures asks { AsksOnly (IsShortAsk (T.left talk.old) (T.Sink.Sink.written (T.report talk.old)) count)
        (T.asked talk.old) (T.asked talk.new) }
    ensures room { vec_capacity room.old ≤ vec_capacity room.new }
{
    room.clear();
    match room.resize(count as usize, 0) {
        Ok(()) => {}
        Err(_) => unreachable!(),
    }
    receive_more(talk, room.as_mut_slice())
}

/// Skips the next `count` bytes of a message.
///
/// # Answers
///
/// - `Ok`: they came. (`OverRule`)
/// - `Err`: fewer came. (`OverRule`)
/// - `Script`: nothing comes any more. (`OverRule`)
/// - `SourceFault`: the source counted a failure. (`OverRule`)
/// - `Done`, `Differs`, `Usage`, `ImageFault`, `SinkFault`, `NoMemory`, `NotADisc`: never. (`OverRule`)
pub fn read_over<T: Conversation>(
    talk: &mut T,
    count: u32,
    room: &mut Vec<u8>,
) -> Result<(), Status>
    requires room { 32768 ≤ vec_capacity room.old }
    ensures rule { OverRule (T.left talk.old) (T.left talk.new) (T.faults talk.old) (T.faults talk.new) count
        result }
    ensures same { T.report talk.new ≡ T.report talk.old }
    ensures asks { AsksOnly (IsShortAsk (T.left talk.old) (T.Sink.Sink.written (T.report talk.old)) count)
        (T.asked talk.old) (T.asked talk.new) }
    ensures room { vec_capacity room.old ≤ vec_capacity room.new }
{
    let mut left = count;
    while left > 0 {
        let part = left.min(32_768);
        receive_data(talk, part, room)?;
        left -= part;
    }
    Ok(())
}
