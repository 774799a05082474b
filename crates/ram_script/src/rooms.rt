//! The memory that the lines of a script are answered in. It is taken once.
ghost use Rattle.std.specs.Prelude.{◌+◌, ◌≤◌, IfOk};
ghost use Rattle.ram_script.specs.Rooms.{AreReady};
ghost use Rattle.ram_script.specs.declared.rooms.TheConstants.{SCRIPT_MEMORY};

use crate::state::{RunState, STATE_MEMORY};
use ram_bytes::{Budget, MemoryRefused};
use ram_machine::{TARGET_MEMORY, TargetRooms};
use ram_text::{DIALOGUE_MEMORY, DialogueRoom};
use ram_zones::LayoutKind;

/// How many bytes the rooms for the lines of a script ask for: the data of a command, the dialogue, and the target.
pub const SCRIPT_MEMORY: usize = STATE_MEMORY + DIALOGUE_MEMORY + TARGET_MEMORY;

/// The rooms for the lines of a script.
#[derive(Drop)]
pub struct ScriptRooms {
    /// Room for the data of a command, and the tally.
    pub state: RunState,
    /// Room for a line of the script, and for a part of the report.
    pub dialogue: DialogueRoom,
    /// The memory of the target.
    pub target: TargetRooms,
}

impl ScriptRooms {
    /// The rooms for the lines of a script over discs with a layout of this kind.
    ///
    /// # Answers
    ///
    /// - `Ok`: no line came yet, and the rooms are for discs with a layout of this kind. (`AreReady`)
    /// - `Err`: the system refused memory that was asked for within the budget. (clause)
    pub fn new(budget: &mut Budget, kind: LayoutKind) -> Result<ScriptRooms, MemoryRefused>
        requires free { SCRIPT_MEMORY ≤ budget.old }
        ensures left { budget.old ≤ budget.new + SCRIPT_MEMORY }
        ensures ready { IfOk result (AreReady kind) }
    {
        Ok(ScriptRooms {
            state: RunState::new(budget)?,
            dialogue: DialogueRoom::new(budget)?,
            target: TargetRooms::new(budget, kind)?,
        })
    }
}
