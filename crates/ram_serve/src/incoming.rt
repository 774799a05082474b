//! The requests of a client, as they come.
ghost use Rattle.std.specs.Prelude.{◌≡◌, ◌*◌, ◌<◌, ◌≤◌, ◌^◌, vec_capacity};
ghost use Rattle.ram_outside.specs.Conversation.{AsksOnly};
ghost use Rattle.ram_receive.specs.Receiving.{IsShortAsk};
ghost use Rattle.ram_session.specs.Talk.{Transmission};
ghost use Rattle.ram_transmission.specs.declared.requests.TheConstants.{REQUEST_ROOM};
ghost use Rattle.ram_serve.specs.Messages.{OverRule};
ghost use Rattle.model_nbd.specs.Messages.{data_after};
ghost use Rattle.ram_serve.specs.Taking.{IsAskWithin, TakeRule, HeaderCame, DataRule, RequestCame, TakesData};

use crate::messages::{read_over, receive_data, receive_first};
use model_nbd::{Header, NbdOperation, WRITE};
use ram_machine::status::Status;
use ram_nbd::requests::{HEADER_BYTES, parse_header, request_asks};
use ram_outside::Conversation;

/// A request that came.
#[derive(Clone, Copy, Debug, PartialEq, Eq)]
pub struct Incoming {
    /// By what the client knows it.
    pub cookie: u64,
    /// What it asks of the disc.
    pub operation: NbdOperation,
}

/// Takes the next request to a disc of `size` bytes. The data of a write are then in the room.
///
/// # Clauses
///
/// - `rule` (`TakeRule`): what came, and what is left to come.
/// - `asks` (`IsAskWithin`): whenever more was asked for, the request had not come whole, and what is written by now was written.
///
/// # Answers
///
/// - `Ok`: a request came whole, and no more was taken. (`RequestCame`)
/// - `Err`: none did. (`TakeRule`)
/// - `Done`: nothing comes any more. (`TakeRule`)
/// - `Script`: what came begins no request, or ends within one. (`TakeRule`)
/// - `SourceFault`: the source counted a failure before a request was whole. (`TakeRule`)
/// - `Differs`, `Usage`, `ImageFault`, `SinkFault`, `NoMemory`, `NotADisc`: never. (`TakeRule`)
pub fn take_request<T: Conversation>(
    talk: &mut T,
    size: u64,
    room: &mut Vec<u8>,
) -> Result<Incoming, Status>
    requires few { size < 2048 * 2 ^ 32 }
    requires room { REQUEST_ROOM ≤ vec_capacity room.old }
    ensures rule { TakeRule (T.left talk.old) (T.left talk.new) (T.faults talk.old) (T.faults talk.new)
        (RequestCame (T.left talk.old) (T.left talk.new) (T.faults talk.old) (T.faults talk.new) size room.new.items)
        Transmission result }
    ensures same { T.report talk.new ≡ T.report talk.old }
    ensures asks { AsksOnly
        (IsAskWithin (T.left talk.old) (T.Sink.Sink.written (T.report talk.old)) Transmission)
        (T.asked talk.old) (T.asked talk.new) }
    ensures room { vec_capacity room.old ≤ vec_capacity room.new }
{
    let header = match take_header(talk) {
        Ok(header) => header,
        Err(status) => return Err(status),
    };
    let operation = request_asks(size, header);
    match take_data(talk, header, operation, room) {
        Ok(()) => Ok(Incoming {
            cookie: header.cookie,
            operation,
        }),
        Err(status) => Err(status),
    }
}

/// Takes the header of the next request.
fn take_header<T: Conversation>(talk: &mut T) -> Result<Header, Status>
    ensures rule { TakeRule (T.left talk.old) (T.left talk.new) (T.faults talk.old) (T.faults talk.new)
        (HeaderCame (T.left talk.old) (T.left talk.new) (T.faults talk.old) (T.faults talk.new)) Transmission result }
    ensures same { T.report talk.new ≡ T.report talk.old }
    ensures asks { AsksOnly
        (IsAskWithin (T.left talk.old) (T.Sink.Sink.written (T.report talk.old)) Transmission)
        (T.asked talk.old) (T.asked talk.new) }
{
    let mut bytes = [0; HEADER_BYTES];
    match receive_first(talk, &mut bytes) {
        Ok(()) => {}
        Err(status) => return Err(status),
    }
    match parse_header(&bytes) {
        Some(header) => Ok(header),
        None => Err(Status::Script),
    }
}

/// Takes the data that follow a header: those of a write go into the room, and are skipped where it is refused.
fn take_data<T: Conversation>(
    talk: &mut T,
    header: Header,
    operation: NbdOperation,
    room: &mut Vec<u8>,
) -> Result<(), Status>
    requires takes { TakesData header operation }
    requires room { REQUEST_ROOM ≤ vec_capacity room.old }
    ensures rule { DataRule (T.left talk.old) (T.left talk.new) (T.faults talk.old) (T.faults talk.new)
        header operation room.new.items result }
    ensures same { T.report talk.new ≡ T.report talk.old }
    ensures asks { AsksOnly
        (IsShortAsk (T.left talk.old) (T.Sink.Sink.written (T.report talk.old)) (data_after header))
        (T.asked talk.old) (T.asked talk.new) }
    ensures room { vec_capacity room.old ≤ vec_capacity room.new }
{
    match operation {
        NbdOperation::Write { .. } => receive_data(talk, header.len, room),
        _ => pass_data(talk, header, room),
    }
}

/// Skips the data that follow a header.
fn pass_data<T: Conversation>(
    talk: &mut T,
    header: Header,
    room: &mut Vec<u8>,
) -> Result<(), Status>
    requires room { REQUEST_ROOM ≤ vec_capacity room.old }
    ensures rule { OverRule (T.left talk.old) (T.left talk.new) (T.faults talk.old) (T.faults talk.new)
        (data_after header) result }
    ensures same { T.report talk.new ≡ T.report talk.old }
    ensures asks { AsksOnly
        (IsShortAsk (T.left talk.old) (T.Sink.Sink.written (T.report talk.old)) (data_after header))
        (T.asked talk.old) (T.asked talk.new) }
    ensures room { vec_capacity room.old ≤ vec_capacity room.new }
{
    let count = if header.kind == WRITE { header.len } else { 0 };
    read_over(talk, count, room)
}
