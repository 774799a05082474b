//! The data blocks one after another, of which those that are not kept are written with zeros and read back.

ghost use Rattle.std.specs.Prelude.{◌≡◌, ◌≤◌, ◌↔◌, IsTrue, MatchResult, [], ◌∷◌, ◌++◌, length, take, vec_capacity};
ghost use Rattle.model_geometry.specs.Geometry.{total, data_blocks};
ghost use Rattle.model_sectors.specs.Discs.{zeros};
ghost use Rattle.model_formats.specs.Defects.{AreKept};
ghost use Rattle.ram_certify.specs.Certifying.{HasCertified, StopsCertifying};
ghost use Rattle.ram_certify.specs.Blocks.{IsNextKept};

use model_lists::PdlEntry;
use ram_bytes::Block;
use ram_copies::put_block;
use ram_medium::{Medium, Stop};
use ram_slip::data_block;
use ram_zones::Geometry;

/// Whether this block is kept, where n kept ones lie before it.
fn is_next_kept(kept: &[PdlEntry], passed: usize, block: u32) -> bool
    ensures { IsTrue result ↔ IsNextKept kept.now passed block }
{
    match kept.get(passed) {
        Some(entry) => entry.block == block,
        None => false,
    }
}

/// Notes a block that was found, unless n are noted.
fn note(found: &mut Vec<u32>, block: u32, most: usize)
    requires few { length found.old.items ≤ most }
    requires room { most ≤ vec_capacity found.old }
    ensures found { found.new.items ≡ take most (found.old.items ++ block ∷ []) }
    ensures room { most ≤ vec_capacity found.new }
{
    if found.len() < most {
        match found.push(block) {
            Ok(()) => {}
            Err(_) => unreachable!(),
        }
    }
}

/// Writes zeros to each data block that is not kept, and reads it back, from the lowest on: two uses each. The numbers of
/// those that are dead then go into `found`, as far as it has room. How many they are.
///
/// `kept` names data blocks that rise, `zero` is a block of zeros, and `found` is empty. Where the work was stopped, what it
/// has is not said. (After ECMA-330's certification; the order is this project's own.)
///
/// # Answers
///
/// What `certify` does with the power on, which is asked for.
///
/// - `Ok`: each block that is not kept was written and read back; how many are dead. Then: as after `Done` of `certify`.
///   (`HasCertified`)
/// - `Err`: it was stopped: `Cut`, `Off` or `Fault`. Then: each certified cell is as before, zeros, torn or dead.
///   (`StopsCertifying`)
/// - `Cut`: the power was cut within the uses of the certification. Then: off. (`StopsByCut`)
/// - `Off`: the power was off. As the power is on at entry, this does not come. (`Stops`)
/// - `Fault`: what the medium lies on counted a failure within as many. Then: off. (`StopsByFault`)
pub fn certify_blocks<M: Medium>(
    medium: &mut M,
    geometry: &Geometry,
    kept: &[PdlEntry],
    zero: &Block,
    found: &mut Vec<u32>,
    room: &mut Block,
) -> Result<u32, Stop>
    requires size { M.block_count medium.old ≡ total geometry.now }
    requires on { IsTrue (M.world medium.old).power }
    requires kept { AreKept geometry.now kept.now }
    requires zero { zero.now ≡ zeros 32768 }
    requires empty { found.old.items ≡ [] }
    ensures rule { MatchResult result
        (HasCertified M.world M.reaches geometry.now kept.now medium.old medium.new (vec_capacity found.old)
        found.new.items)
        (StopsCertifying M.world M.reaches geometry.now kept.now medium.old medium.new) }
    ensures room { vec_capacity found.old ≤ vec_capacity found.new }
    ensures as_many { M.block_count medium.new ≡ M.block_count medium.old }
{
    let most = found.capacity();
    let mut passed = 0;
    let mut count = 0;
    for n in 0..geometry.data_blocks() {
        let block = data_block(geometry, n);
        if is_next_kept(kept, passed, block) {
            passed += 1;
        } else if !put_block(medium, block, zero.bytes(), room)? {
            count += 1;
            note(found, block, most);
        }
    }
    Ok(count)
}
