//! The memory that a script from a number is answered in. It is taken once.
ghost use Rattle.std.specs.Prelude.{◌+◌, ◌≤◌, IfOk};
ghost use Rattle.ram_script.specs.declared.rooms.TheConstants.{SCRIPT_MEMORY};
ghost use Rattle.ram_summary.specs.Rooms.{AreReadyFor};
ghost use Rattle.ram_summary.specs.declared.rooms.TheConstants.{GENERATE_MEMORY};

use crate::summary::SUMMARY_ROOM;
use ram_bytes::{Budget, MemoryRefused};
use ram_generate::SCRIPT_ROOM;
use ram_script::{SCRIPT_MEMORY, ScriptRooms};
use ram_zones::LayoutKind;

/// How many bytes the rooms for a script that is drawn from a number ask for: those for its lines, the script, and its summary.
pub const GENERATE_MEMORY: usize = SCRIPT_MEMORY + SCRIPT_ROOM + SUMMARY_ROOM;

/// The rooms for a script that is drawn from a number.
#[derive(Drop)]
pub struct GenerateRooms {
    /// The rooms for its lines.
    pub lines: ScriptRooms,
    /// Room for the script itself.
    pub script: Vec<u8>,
    /// Room for the summary of its answers.
    pub summary: Vec<u8>,
}

impl GenerateRooms {
    /// The rooms for a script that is drawn from a number.
    ///
    /// # Answers
    ///
    /// - `Ok`: the rooms for the lines of a script, with room for it and for its summary. (`AreReadyFor`)
    /// - `Err`: the system refused memory that was asked for within the budget. (clause)
    pub fn new(budget: &mut Budget) -> Result<GenerateRooms, MemoryRefused>
        requires free { GENERATE_MEMORY ≤ budget.old }
        ensures left { budget.old ≤ budget.new + GENERATE_MEMORY }
        ensures ready { IfOk result AreReadyFor }
    {
        Ok(GenerateRooms {
            lines: ScriptRooms::new(budget, LayoutKind::OneGroup)?,
            script: budget.room(SCRIPT_ROOM)?,
            summary: budget.room(SUMMARY_ROOM)?,
        })
    }
}
