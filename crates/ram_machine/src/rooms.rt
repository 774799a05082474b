//! The memory of a drive. It is taken once, goes by the limits of a disc, and is handed on from one disc to the next.
ghost use Rattle.std.specs.Prelude.{◌≡◌, ◌+◌, ◌≤◌, IfOk};
ghost use Rattle.ram_groups.specs.Layouts.{IsOfKind};
ghost use Rattle.ram_states.specs.OneProof.{kind-prop};
ghost use Rattle.ram_machine.specs.declared.rooms.TheConstants.{DRIVE_MEMORY, TARGET_MEMORY};

use ram_bytes::{BLOCK_BYTES, Block, Budget, MemoryRefused};
use ram_cache::{PENDING_MEMORY, PendingBlocks};
use ram_image::{MEDIUM_MEMORY, MediumRooms};
use ram_scrub::{SCRUB_MEMORY, Scrub};
use ram_transfer::{Memory, VOLUME_MEMORY};
use ram_zones::LayoutKind;

/// How many bytes a drive asks for: those of its volume, of the pending blocks of its cache, and of its medium.
pub const DRIVE_MEMORY: usize = VOLUME_MEMORY + PENDING_MEMORY + MEDIUM_MEMORY;

/// How many bytes a target asks for: those of its drive, the text of a disc's structure, and the blocks that a scrub found.
pub const TARGET_MEMORY: usize = DRIVE_MEMORY + BLOCK_BYTES + SCRUB_MEMORY;

/// All the memory that a drive takes for discs with a layout of this kind: that of its volume, room for its pending blocks, and
/// that of its medium. What it held before does not matter.
#[derive(Drop)]
pub struct DriveRooms {
    /// The kind of layout that the discs have.
    pub kind: LayoutKind,
    /// The memory of the volume.
    pub memory: Memory,
    /// Room for the pending blocks of the write cache.
    pub pending: PendingBlocks,
    /// The memory of the medium.
    pub medium: MediumRooms,
    ghost of_kind: { IsOfKind kind memory.workspace.layout } by { kind-prop _ _ },
}

impl DriveRooms {
    /// The memory of a drive whose discs have a layout of this kind.
    ///
    /// # Answers
    ///
    /// - `Ok`: the memory of a drive whose discs have a layout of this kind. (clause)
    /// - `Err`: the system refused memory that was asked for within the budget. (clause)
    pub fn new(budget: &mut Budget, kind: LayoutKind) -> Result<DriveRooms, MemoryRefused>
        requires free { DRIVE_MEMORY ≤ budget.old }
        ensures left { budget.old ≤ budget.new + DRIVE_MEMORY }
        ensures kind { IfOk result (λ rooms. rooms.kind ≡ kind) }
    {
        Ok(DriveRooms {
            kind,
            memory: Memory::new(budget, kind)?,
            pending: PendingBlocks::new(budget)?,
            medium: MediumRooms::new(budget)?,
        })
    }
}

/// All the memory that a target takes: that of its drive, room for the text of a disc's structure, and that of a scrubber of its
/// blocks.
#[derive(Drop)]
pub struct TargetRooms {
    /// The memory of the drive.
    pub drive: DriveRooms,
    /// Room for the text of a disc's structure.
    pub block: Block,
    /// The scrubber. What it found before does not matter.
    pub scrub: Scrub,
}

impl TargetRooms {
    /// The memory of a target whose discs have a layout of this kind.
    ///
    /// # Answers
    ///
    /// - `Ok`: the memory of a target whose discs have a layout of this kind, and of a scrubber. (clause)
    /// - `Err`: the system refused memory that was asked for within the budget. (clause)
    pub fn new(budget: &mut Budget, kind: LayoutKind) -> Result<TargetRooms, MemoryRefused>
        requires free { TARGET_MEMORY ≤ budget.old }
        ensures left { budget.old ≤ budget.new + TARGET_MEMORY }
        ensures kind { IfOk result (λ rooms. rooms.drive.kind ≡ kind) }
    {
        Ok(TargetRooms {
            drive: DriveRooms::new(budget, kind)?,
            block: Block::zeros(budget)?,
            scrub: Scrub::new(budget)?,
        })
    }
}
