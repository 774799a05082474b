//! Reads of the blocks of a request, one after another: out of the buffer, or from their homes.

ghost use Rattle.std.specs.Prelude.{◌≡◌, ◌↔◌, ℕ, ◌+◌, ◌-◌, ◌*◌, ◌<◌, ◌≤◌, IsTrue, IfSome, MatchResult, true, false, None, List, length};
ghost use Rattle.model_geometry.specs.Geometry.{total};
ghost use Rattle.model_sectors.specs.Requests.{block_with, blocks_covered, is_partly};
ghost use Rattle.model_buffer.specs.Buffer.{bytes_at};
ghost use Rattle.model_buffer.specs.declared.TheConstants.{BUFFERED_BLOCKS};
ghost use Rattle.model_places.specs.Places.{pools_under, logical_count, capacity_of, home_of};
ghost use Rattle.model_places.specs.Valid.{AreValid};
ghost use Rattle.ram_groups.specs.Layouts.{layout_pools};
ghost use Rattle.ram_lists.specs.Lists.{lists_of};
ghost use Rattle.ram_transfer.specs.Blocks.{FetchStopped};
ghost use Rattle.ram_transfer.specs.Reading.{ReadsPart, IsLong, MayPass, PutsNewest, PutsFrom, PartsEnd, read_end_at};

use crate::homes::home;
use model_sectors::ReadOut;
use ram_buffer::{BUFFERED_BLOCKS, BlockBuffer};
use ram_bytes::{BLOCK_BYTES, Block};
use ram_groups::AnyLayout;
use ram_lists::Lists;
use ram_medium::{Medium, Stop, read_whole, read_whole_into};
use ram_requests::{Part, Request};
use ram_zones::Geometry;

/// A request that covers fewer blocks has none that is read past the buffer.
const LONG_REQUEST: u32 = 16;

/// Reads a part that is a whole block from its home, past the buffer and straight to its place among the bytes of the request.
/// Whether the block can be read.
fn read_past<M: Medium>(
    medium: &mut M,
    part: Part,
    home: u32,
    into: &mut [u8],
) -> Result<bool, Stop>
    requires inside { home < M.block_count medium.old }
    requires all { is_partly part.request.lba part.request.n part.block ≡ false }
    requires whole { length into.old ≡ 2048 * part.request.n }
    ensures rule { (held : List (ℕ × List ℕ)) → length held ≤ BUFFERED_BLOCKS → bytes_at part.block held ≡ None
        → MatchResult result
        (λ found. ReadsPart M.world M.reaches medium.old medium.new held
        part.request.lba part.request.n part.block home true held into.old into.new found)
        (λ stop. FetchStopped M.world M.reaches medium.old medium.new held part.block home stop) }
    ensures as_many { M.block_count medium.new ≡ M.block_count medium.old }
{
    let at = part.skipped();
    let read = read_whole_into(medium, home, &mut into[at..at + BLOCK_BYTES]);
    read
}

/// Reads a part of a request, past the buffer, or out of it or from the home of its block, which is then buffered. Whether its
/// block can be read.
fn read_part<M: Medium>(
    medium: &mut M,
    geometry: &Geometry,
    layout: &AnyLayout,
    lists: &Lists,
    buffer: &mut BlockBuffer,
    block: &mut Block,
    part: Part,
    past: bool,
    into: &mut [u8],
) -> Result<bool, Stop>
    requires size { M.block_count medium.old ≡ total geometry.now }
    requires valid { AreValid geometry.now (lists_of lists.now) }
    requires pools { layout_pools layout.now ≡ pools_under geometry.now (lists_of lists.now) }
    requires inside { part.block < logical_count geometry.now (lists_of lists.now) }
    requires whole { length into.old ≡ 2048 * part.request.n }
    requires past { IsTrue past → MayPass part.request.lba part.request.n part.block buffer.old }
    ensures rule { MatchResult result
        (λ found. ReadsPart M.world M.reaches medium.old medium.new buffer.old
        part.request.lba part.request.n part.block (home_of geometry.now (lists_of lists.now) part.block)
        past buffer.new into.old into.new found)
        (λ stop. FetchStopped M.world M.reaches medium.old medium.new buffer.old
        part.block (home_of geometry.now (lists_of lists.now) part.block) stop) }
    ensures as_many { M.block_count medium.new ≡ M.block_count medium.old }
{
    let home = home(geometry, layout, lists, part.block);
    if past {
        return read_past(medium, part, home, into);
    }
    if buffer.lookup(part.block, block) {
        part.copy_out(block, into);
        return Ok(true);
    }
    if !read_whole(medium, home, block)? {
        return Ok(false);
    }
    part.copy_out(block, into);
    buffer.put(part.block, block);
    Ok(true)
}

/// Makes the block of a part the one used last, out of the request's bytes where it is not buffered.
fn put_part(buffer: &mut BlockBuffer, block: &mut Block, part: Part, into: &[u8])
    requires whole { length into.now ≡ 2048 * part.request.n }
    ensures { PutsNewest part.request.lba part.request.n part.block into.now block.old buffer.old buffer.new }
{
    if !buffer.lookup(part.block, block) {
        part.merge(into, block);
        buffer.put(part.block, block);
    }
}

/// Marks the first `k` blocks of a request as most recently used, in their order, as far as the buffer has room for them.
fn put_before(buffer: &mut BlockBuffer, block: &mut Block, request: Request, k: u32, into: &[u8])
    requires covered { k < blocks_covered request.lba request.n }
    requires whole { length into.now ≡ 2048 * request.n }
    ensures { PutsFrom request.lba request.n into.now (block_with request.lba + (k - BUFFERED_BLOCKS))
        (k - (k - BUFFERED_BLOCKS)) buffer.old buffer.new }
{
    for j in k.saturating_sub(BUFFERED_BLOCKS as u32)..k {
        put_part(buffer, block, request.part(j), into);
    }
}

/// Whether a request covers n blocks, and none of them buffered, that some are read past the buffer.
fn is_long(buffer: &BlockBuffer, request: Request) -> bool
    ensures long { IsTrue result ↔ IsLong request.lba request.n buffer.now }
    ensures few { length buffer.now ≤ BUFFERED_BLOCKS }
{
    let blocks = request.blocks();
    let none = buffer.holds_none(request.first(), blocks);
    none && LONG_REQUEST <= blocks
}

/// Whether the block after `k` others of a long request is read past the buffer: it is covered whole, and the buffer has room
/// for all that come after it and itself but not for more.
fn goes_past(long: bool, part: Part, k: u32, blocks: u32) -> bool
    requires { k < blocks }
    ensures { IsTrue result
        ↔ (IsTrue long × (k + BUFFERED_BLOCKS < blocks) × (is_partly part.request.lba part.request.n part.block ≡ false)) }
{
    long && BUFFERED_BLOCKS < (blocks - k) as usize && !part.is_partly()
}

/// Reads all parts of a request, in order. How many were read before one whose block cannot be, if there is such a one.
///
/// # Clauses
///
/// - `rule` (`PartsEnd`): all parts were read, each out of the buffer or from its home, with the exact number of uses; the bytes
///   are the sectors of the disc that lists, cells and buffer stood for; the buffer has the blocks used last, with the bytes of
///   that disc. Or the block after the first k has a home without whole bytes, and was not at hand: those before it were read. Or
///   it was stopped in a covered block that was not at hand. At most the home at which it ended has changed, to dead.
/// - `as_many`: the medium has as many blocks as before.
///
/// # Answers
///
/// The power is on, which is asked for.
///
/// - `Ok`: it was not stopped. (`PartsEnd`)
/// - `None`: each part was read, out of the buffer or from its home. Then: no cell changed; the bytes are the sectors of the
///   disc, and the blocks used last are buffered. (`ReadsParts`)
/// - `Some`: the block with this index was not buffered, and its home has no whole bytes; those before it were read. Then: these
///   are buffered; at most that home died. (`MeetsBlock`)
/// - `Err`: it was stopped: `Cut`, `Off` or `Fault`. Then: at most the home of one covered block died. (`StopsInBlock`)
/// - `Cut`: the power was cut within the uses of the read. Then: off. (`StopsByCut`)
/// - `Off`: the power was off. As the power is on at entry, this does not come. (`Stops`)
/// - `Fault`: what the medium lies on counted a failure within as many. Then: off. (`StopsByFault`)
pub fn read_parts<M: Medium>(
    medium: &mut M,
    geometry: &Geometry,
    layout: &AnyLayout,
    lists: &Lists,
    buffer: &mut BlockBuffer,
    block: &mut Block,
    request: Request,
    into: &mut [u8],
) -> Result<Option<u32>, Stop>
    requires size { M.block_count medium.old ≡ total geometry.now }
    requires on { IsTrue (M.world medium.old).power }
    requires valid { AreValid geometry.now (lists_of lists.now) }
    requires pools { layout_pools layout.now ≡ pools_under geometry.now (lists_of lists.now) }
    requires inside { request.lba + request.n ≤ capacity_of geometry.now (lists_of lists.now) }
    requires whole { length into.old ≡ 2048 * request.n }
    ensures rule { PartsEnd M.world M.reaches medium.old medium.new buffer.old
        geometry.now (lists_of lists.now) request.lba request.n buffer.new into.new result }
    ensures as_many { M.block_count medium.new ≡ M.block_count medium.old }
{
    let blocks = request.blocks();
    let long = is_long(buffer, request);
    for k in 0..blocks {
        let part = request.part(k);
        let past = goes_past(long, part, k, blocks);
        if !read_part(
            medium, geometry, layout, lists, buffer, block, part, past, into,
        )? {
            if long {
                put_before(buffer, block, request, k, into);
            }
            return Ok(Some(k));
        }
    }
    Ok(None)
}

/// How a read ended that was not stopped: at the block after n, where there is such a one.
///
/// # Clauses
///
/// - how a read or a verification ended that was not stopped: the block that was met is named by its first sector of the request,
///   and by its home.
///
/// # Answers
///
/// - `Good`: exactly when no block was met. (`read_end_at`)
/// - `Unread`: exactly when one was; it is named by its first sector of the request, and by its home. (`read_end_at`)
/// - `NotFormatted`, `Range`, `Cut`, `Off`, `Fault`: these do not come. (`read_end_at`)
pub fn ended_at(
    geometry: &Geometry,
    layout: &AnyLayout,
    lists: &Lists,
    request: Request,
    met: Option<u32>,
) -> ReadOut
    requires valid { AreValid geometry.now (lists_of lists.now) }
    requires pools { layout_pools layout.now ≡ pools_under geometry.now (lists_of lists.now) }
    requires inside { request.lba + request.n ≤ capacity_of geometry.now (lists_of lists.now) }
    requires covered { IfSome met (λ before. before < blocks_covered request.lba request.n) }
    ensures { result ≡ read_end_at geometry.now (lists_of lists.now) request.lba met }
{
    match met {
        Some(before) => {
            let part = request.part(before);
            ReadOut::Unread {
                lba: part.start,
                block: home(geometry, layout, lists, part.block),
            }
        }
        None => ReadOut::Good,
    }
}
