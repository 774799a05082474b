//! The memory of a side. It is taken once, goes by the limits of a disc, and is handed on from one disc to the next.
ghost use Rattle.std.specs.Prelude.{◌≡◌, ◌+◌, ◌≤◌, IfOk};
ghost use Rattle.ram_groups.specs.Layouts.{IsOfKind};
ghost use Rattle.ram_states.specs.OneProof.{kind-prop};
ghost use Rattle.ram_side.specs.declared.rooms.TheConstants.{SIDE_MEMORY};

use ram_bytes::{Budget, MemoryRefused};
use ram_image::{MEDIUM_MEMORY, MediumRooms};
use ram_transfer::{Memory, VOLUME_MEMORY};
use ram_zones::LayoutKind;

/// How many bytes a side asks for: those of its volume and of its medium.
pub const SIDE_MEMORY: usize = VOLUME_MEMORY + MEDIUM_MEMORY;

/// All the memory that a side takes for discs with a layout of this kind: that of its volume and that of its medium. What it held
/// before does not matter.
#[derive(Drop)]
pub struct SideRooms {
    /// The kind of layout that the discs have.
    pub kind: LayoutKind,
    /// The memory of the volume.
    pub memory: Memory,
    /// The memory of the medium.
    pub medium: MediumRooms,
    ghost of_kind: { IsOfKind kind memory.workspace.layout } by { kind-prop _ _ },
}

impl SideRooms {
    /// The memory of a side whose discs have a layout of this kind.
    ///
    /// # Answers
    ///
    /// - `Ok`: the memory of a side whose discs have a layout of this kind. (clause)
    /// - `Err`: the system refused memory that was asked for within the budget. (clause)
    pub fn new(budget: &mut Budget, kind: LayoutKind) -> Result<SideRooms, MemoryRefused>
        requires free { SIDE_MEMORY ≤ budget.old }
        ensures left { budget.old ≤ budget.new + SIDE_MEMORY }
        ensures kind { IfOk result (λ rooms. rooms.kind ≡ kind) }
    {
        Ok(SideRooms {
            kind,
            memory: Memory::new(budget, kind)?,
            medium: MediumRooms::new(budget)?,
        })
    }
}
