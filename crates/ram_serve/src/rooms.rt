//! The memory of a session. It is taken once, before the image is opened.
ghost use Rattle.std.specs.Prelude.{◌≡◌, ◌+◌, ◌≤◌, IfOk};
ghost use Rattle.ram_serve.specs.Rooms.{AreReadyToServe};
ghost use Rattle.ram_serve.specs.declared.rooms.TheConstants.{SESSION_MEMORY};

use ram_bytes::{Budget, MemoryRefused};
use ram_machine::{TARGET_MEMORY, TargetRooms};
use ram_nbd::handshake::ANSWER_BYTES;
use ram_text::PAYLOAD_ROOM;
use ram_transmission::REQUEST_ROOM;
use ram_zones::LayoutKind;

/// How many bytes the rooms for messages ask for: the data of a request or its reply, the data of a command, and the answer to an
/// option.
pub const MESSAGE_MEMORY: usize = REQUEST_ROOM + PAYLOAD_ROOM + ANSWER_BYTES;

/// How many bytes the rooms of a session ask for: those of the target, and those for messages.
pub const SESSION_MEMORY: usize = TARGET_MEMORY + MESSAGE_MEMORY;

/// The rooms of a session.
#[derive(Drop)]
pub struct SessionRooms {
    /// The memory of the target.
    pub target: TargetRooms,
    /// Room for messages.
    pub messages: MessageRooms,
}

/// Room for the messages of a session.
#[derive(Drop)]
pub struct MessageRooms {
    /// Room for the data of an option or a request, and for the reply to a request.
    pub message: Vec<u8>,
    /// Room for the data that a command gives.
    pub data_in: Vec<u8>,
    /// Room for the answer to an option.
    pub answer: Vec<u8>,
}

impl SessionRooms {
    /// The rooms of a session over discs with a layout of this kind.
    ///
    /// # Answers
    ///
    /// - `Ok`: the rooms are for discs with a layout of this kind, and for any message. (`AreReadyToServe`)
    /// - `Err`: the system refused memory that was asked for within the budget. (clause)
    pub fn new(budget: &mut Budget, kind: LayoutKind) -> Result<SessionRooms, MemoryRefused>
        requires free { SESSION_MEMORY ≤ budget.old }
        ensures left { budget.old ≤ budget.new + SESSION_MEMORY }
        ensures ready { IfOk result (AreReadyToServe kind) }
    {
        Ok(SessionRooms {
            target: TargetRooms::new(budget, kind)?,
            messages: MessageRooms {
                message: budget.room(REQUEST_ROOM)?,
                data_in: budget.room(PAYLOAD_ROOM)?,
                answer: budget.room(ANSWER_BYTES)?,
            },
        })
    }
}
