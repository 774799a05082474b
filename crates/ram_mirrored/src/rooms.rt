//! The memory of a run of a mirror. It is taken once, before an image is opened.
ghost use Rattle.std.specs.Prelude.{◌+◌, ◌≤◌, IfOk};
ghost use Rattle.ram_mirrored.specs.Rooms.{AreReadyToMirror};
ghost use Rattle.ram_mirrored.specs.declared.rooms.TheConstants.{MIRRORED_MEMORY};

use ram_bytes::{Budget, MemoryRefused};
use ram_pair::{PAIR_MEMORY, PairRooms};
use ram_text::{DIALOGUE_MEMORY, DialogueRoom, PAYLOAD_ROOM};

/// How many bytes a run of a mirror asks for: the data of a line both ways, the dialogue, and both sides.
pub const MIRRORED_MEMORY: usize = 2 * PAYLOAD_ROOM + DIALOGUE_MEMORY + PAIR_MEMORY;

/// The rooms of a run of a mirror.
#[derive(Drop)]
pub struct MirroredRooms {
    /// Room for the data that go with a line.
    pub payload: Vec<u8>,
    /// Room for the bytes that a read gives.
    pub shown: Vec<u8>,
    /// Room for a line of the script, and for a part of the report.
    pub dialogue: DialogueRoom,
    /// The memory of both sides.
    pub pair: PairRooms,
}

impl MirroredRooms {
    /// Takes the rooms.
    ///
    /// # Answers
    ///
    /// - `Ok`: the rooms are for discs with one group of spares, and no line came yet. (`AreReadyToMirror`)
    /// - `Err`: the system refused memory that was asked for within the budget. (clause)
    pub fn new(budget: &mut Budget) -> Result<MirroredRooms, MemoryRefused>
        requires free { MIRRORED_MEMORY ≤ budget.old }
        ensures left { budget.old ≤ budget.new + MIRRORED_MEMORY }
        ensures ready { IfOk result AreReadyToMirror }
    {
        Ok(MirroredRooms {
            payload: budget.room(PAYLOAD_ROOM)?,
            shown: budget.room(PAYLOAD_ROOM)?,
            dialogue: DialogueRoom::new(budget)?,
            pair: PairRooms::new(budget)?,
        })
    }
}
