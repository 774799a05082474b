//! The certification of a disc.

ghost use Rattle.std.specs.Prelude.{◌≡◌, ◌+◌, ◌≤◌, IfOk, [], vec_capacity};
ghost use Rattle.ram_bytes.specs.declared.block.TheConstants.{BLOCK_BYTES};
ghost use Rattle.model_geometry.specs.Geometry.{total};
ghost use Rattle.model_sectors.specs.Discs.{zeros};
ghost use Rattle.model_formats.specs.Defects.{AreKept};
ghost use Rattle.ram_certify.specs.Certifying.{CertifyRule};

use crate::blocks::certify_blocks;
use model_lists::PdlEntry;
use ram_bytes::{Block, Budget, MemoryRefused};
use ram_copies::Scratch;
use ram_medium::{Medium, Stop};
use ram_zones::Geometry;

/// How a certification ended.
#[derive(Clone, Copy, Debug, PartialEq, Eq)]
pub enum Certified {
    /// Each block that is not kept has zeros now, or is dead.
    Done {
        /// How many of them are dead, also where there was no room to note them.
        found: u32,
    },
    /// The power was cut.
    Cut,
    /// The power was off, and nothing was done.
    Off,
    /// What the medium lies on failed, and counted it. The power is off.
    Fault,
}

/// A block of zeros, for a certification.
///
/// # Answers
///
/// - `Ok`: a block of zeros. (clause)
/// - `Err`: the system refused memory that was asked for within the budget. (clause)
pub fn zero_block(budget: &mut Budget) -> Result<Block, MemoryRefused>
    requires free { BLOCK_BYTES ≤ budget.old }
    ensures left { budget.old ≤ budget.new + BLOCK_BYTES }
    ensures zeros { IfOk result (λ block. block ≡ zeros 32768) }
{
    Block::zeros(budget)
}

/// Certifies the data blocks that are not kept, as [`certify_blocks`] does, where the power is on. After Cut and Fault what
/// `found` has is not said.
///
/// # Answers
///
/// No cell changes but those that are certified.
///
/// - `Done`: each block that is not kept was written and read back. Then: it has zeros or is dead; told is how many are dead, and
///   the lowest of them as far as there was room. (`HasCertified`)
/// - `Cut`: the power was cut in the certification. Then: off; each certified cell is as before, zeros, torn or dead.
///   (`StopsCertifying`)
/// - `Off`: exactly when the power was off. Then: nothing changed, and nothing was found. (`IsOff`)
/// - `Fault`: what the medium lies on counted a failure. Then: as after `Cut`. (`StopsCertifying`)
pub fn certify<M: Medium>(
    medium: &mut M,
    geometry: &Geometry,
    kept: &[PdlEntry],
    zero: &Block,
    found: &mut Vec<u32>,
    scratch: &mut Scratch,
) -> Certified
    requires size { M.block_count medium.old ≡ total geometry.now }
    requires kept { AreKept geometry.now kept.now }
    requires zero { zero.now ≡ zeros 32768 }
    requires empty { found.old.items ≡ [] }
    ensures rule { CertifyRule M.world M.reaches geometry.now kept.now medium.old medium.new
        (vec_capacity found.old) found.new.items result }
    ensures room { vec_capacity found.old ≤ vec_capacity found.new }
    ensures as_many { M.block_count medium.new ≡ M.block_count medium.old }
{
    if !medium.powered() {
        return Certified::Off;
    }
    match certify_blocks(medium, geometry, kept, zero, found, &mut scratch.room) {
        Ok(found) => Certified::Done { found },
        Err(Stop::Cut) => Certified::Cut,
        Err(Stop::Off) => Certified::Off,
        Err(Stop::Fault) => Certified::Fault,
    }
}
