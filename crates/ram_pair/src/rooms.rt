//! The memory of a run of a mirror beside what goes between script and report. It is taken once.
ghost use Rattle.std.specs.Prelude.{◌+◌, ◌*◌, ◌≤◌, IfOk};
ghost use Rattle.ram_pair.specs.Pairs.{AreOfOneGroup};
ghost use Rattle.ram_pair.specs.declared.rooms.TheConstants.{PAIR_MEMORY};

use ram_bytes::{Budget, MemoryRefused};
use ram_mirror::{MIRROR_MEMORY, MirrorRooms};
use ram_side::{SIDE_MEMORY, SideRooms};
use ram_zones::LayoutKind;

/// How many bytes a mirror of two discs asks for: those of its two sides, and its own.
pub const PAIR_MEMORY: usize = 2 * SIDE_MEMORY + MIRROR_MEMORY;

/// The memory of a mirror of two discs.
#[derive(Drop)]
pub struct PairRooms {
    /// That of the side of the first image.
    pub a: SideRooms,
    /// That of the other side.
    pub b: SideRooms,
    /// That of the mirror itself.
    pub mirror: MirrorRooms,
}

impl PairRooms {
    /// Takes the memory of a mirror whose discs have one group of spares.
    ///
    /// # Answers
    ///
    /// - `Ok`: the rooms are for such discs. (`AreOfOneGroup`)
    /// - `Err`: the system refused memory that was asked for within the budget. (clause)
    pub fn new(budget: &mut Budget) -> Result<PairRooms, MemoryRefused>
        requires free { PAIR_MEMORY ≤ budget.old }
        ensures left { budget.old ≤ budget.new + PAIR_MEMORY }
        ensures kind { IfOk result AreOfOneGroup }
    {
        Ok(PairRooms {
            a: SideRooms::new(budget, LayoutKind::OneGroup)?,
            b: SideRooms::new(budget, LayoutKind::OneGroup)?,
            mirror: MirrorRooms::new(budget)?,
        })
    }
}
