//! Verifications of the blocks of a request: the home of one after another is read, and nothing of it is given.

ghost use Rattle.std.specs.Prelude.{◌≡◌, ◌+◌, ◌≤◌, IsTrue};
ghost use Rattle.model_geometry.specs.Geometry.{total};
ghost use Rattle.model_places.specs.Places.{pools_under, capacity_of};
ghost use Rattle.model_places.specs.Valid.{AreValid};
ghost use Rattle.ram_groups.specs.Layouts.{layout_pools};
ghost use Rattle.ram_lists.specs.Lists.{lists_of};
ghost use Rattle.ram_transfer.specs.Verifying.{HomesEnd};

use crate::homes::home;
use ram_bytes::Block;
use ram_groups::AnyLayout;
use ram_lists::Lists;
use ram_medium::{Medium, Stop, read_whole};
use ram_requests::Request;
use ram_zones::Geometry;

/// Reads the homes of all blocks of a request, in order. How many were read before one that has no whole bytes, if there
/// is such a one.
///
/// # Clauses
///
/// - `rule` (`HomesEnd`): the home of each covered block was read by one use, and has whole bytes where cells are known; or that
///   of the block after the first k has none; or it was stopped there. At most the home at which it ended has changed, to dead.
/// - `as_many`: the medium has as many blocks as before.
///
/// # Answers
///
/// The power is on, which is asked for; the buffer is not looked at.
///
/// - `Ok`: it was not stopped. (`HomesEnd`)
/// - `None`: the home of each covered block was read, and has whole bytes where cells are known. Then: no cell changed.
///   (`HasVerifiedUpTo`)
/// - `Some`: the home of the block with this index has no whole bytes; those before it have. Then: at most that home died.
///   (`MeetsBadHome`)
/// - `Err`: it was stopped: `Cut`, `Off` or `Fault`. Then: at most the home of one covered block died. (`StopsAtHome`)
/// - `Cut`: the power was cut within one use for each covered block. Then: off. (`StopsByCut`)
/// - `Off`: the power was off. As the power is on at entry, this does not come. (`Stops`)
/// - `Fault`: what the medium lies on counted a failure within as many. Then: off. (`StopsByFault`)
pub fn read_homes<M: Medium>(
    medium: &mut M,
    geometry: &Geometry,
    layout: &AnyLayout,
    lists: &Lists,
    block: &mut Block,
    request: Request,
) -> Result<Option<u32>, Stop>
    requires size { M.block_count medium.old ≡ total geometry.now }
    requires on { IsTrue (M.world medium.old).power }
    requires valid { AreValid geometry.now (lists_of lists.now) }
    requires pools { layout_pools layout.now ≡ pools_under geometry.now (lists_of lists.now) }
    requires inside { request.lba + request.n ≤ capacity_of geometry.now (lists_of lists.now) }
    ensures rule { HomesEnd M.world M.reaches medium.old medium.new
        geometry.now (lists_of lists.now) request.lba request.n result }
    ensures as_many { M.block_count medium.new ≡ M.block_count medium.old }
{
    for k in 0..request.blocks() {
        let part = request.part(k);
        let home = home(geometry, layout, lists, part.block);
        if !read_whole(medium, home, block)? {
            return Ok(Some(k));
        }
    }
    Ok(None)
}
