//! Writes of the blocks of a request, one after another, with linear replacement. A block that is covered in part is read,
//! modified and written.

ghost use Rattle.std.specs.Prelude.{◌≡◌, ◌↔◌, ◌+◌, ◌*◌, ◌<◌, ◌≤◌, IsTrue, MatchResult, length};
ghost use Rattle.model_medium.specs.Happened.{Happened};
ghost use Rattle.model_places.specs.Places.{logical_count, capacity_of};
ghost use Rattle.model_volume.specs.Given.{AreSettled};
ghost use Rattle.model_drive.specs.declared.WriteOut.TheVariants as outs;
ghost use Rattle.ram_medium.specs.Laws.{machine_shown};
ghost use Rattle.ram_groups.specs.Layouts.{layout_pools};
ghost use Rattle.ram_lists.specs.Lists.{lists_of};
ghost use Rattle.ram_lists.specs.Fit.{IsFit};
ghost use Rattle.ram_transfer.specs.Writing.{BringsRest, RestStopped, WritesPart, PartStops, EndsParts, StopsParts};

use crate::fetching::read_home;
use crate::homes::home;
use crate::memory::Workspace;
use model_drive::WriteOut;
use ram_buffer::BlockBuffer;
use ram_bytes::Block;
use ram_lists::Lists;
use ram_medium::{Medium, MediumControl, Stop};
use ram_replace::{Outcome, place_block};
use ram_requests::{Part, Request};
use ram_zones::Geometry;

/// Reads a block, out of the buffer or from its home, where a request covers it in part. Whether the block can be written.
fn fetch_rest<M: Medium>(
    medium: &mut M,
    buffer: &mut BlockBuffer,
    block: &mut Block,
    part: Part,
    home: u32,
) -> Result<bool, Stop>
    requires inside { home < M.block_count medium.old }
    ensures rule { MatchResult result
        (BringsRest M.world M.reaches medium.old buffer.old part.request.lba part.request.n part.block
        home medium.new block.new buffer.new)
        (RestStopped M.world M.reaches medium.old buffer.old part.request.lba part.request.n part.block
        home medium.new) }
    ensures as_many { M.block_count medium.new ≡ M.block_count medium.old }
{
    if !part.is_partly() {
        return Ok(true);
    }
    if buffer.lookup(part.block, block) {
        return Ok(true);
    }
    read_home(medium, buffer, block, part.block, home)
}

/// Writes a part of a request, and buffers its block once its home has it. The answer is that of a write of this part alone.
fn write_part<M: Medium>(
    medium: &mut M,
    geometry: &Geometry,
    lists: &mut Lists,
    workspace: &mut Workspace,
    part: Part,
    from: &[u8],
) -> Result<WriteOut, Stop>
    requires fit { IsFit geometry.now (M.block_count medium.old) (layout_pools workspace.old.layout)
        workspace.old.cursors
        lists.old }
    requires on { IsTrue (M.world medium.old).power }
    requires settled { AreSettled geometry.now (M.world medium.old).cells (lists_of lists.old) }
    requires inside { part.block < logical_count geometry.now (lists_of lists.old) }
    requires whole { length from.now ≡ 2048 * part.request.n }
    ensures rule { MatchResult result
        (WritesPart M.world M.reaches geometry.now medium.old medium.new (lists_of lists.old) (lists_of lists.new)
        workspace.old.buffer workspace.new.buffer part.request.lba part.request.n part.block from.now)
        (PartStops M.world M.reaches geometry.now medium.old medium.new (lists_of lists.old)
        workspace.old.buffer part.request.lba part.request.n part.block from.now) }
    ensures fit { IsFit geometry.now (M.block_count medium.new) (layout_pools workspace.new.layout)
        workspace.new.cursors
        lists.new }
    ensures same_layout { workspace.new.layout ≡ workspace.old.layout }
{
    let home = home(geometry, &workspace.layout, lists, part.block);
    let Workspace {
        draft,
        buffer,
        block,
        back,
        scratch,
        layout,
        cursors,
        kept: _,
        format: _,
    } = workspace;
    if !fetch_rest(medium, buffer, block, part, home)? {
        return Ok(WriteOut::Unread {
            lba: part.start,
            block: home,
        });
    }
    let bytes = part.merged(from, block);
    let sdl = &mut draft.sdl;
    let placed = place_block(
        medium, geometry, layout, cursors, lists, sdl, part.block, home, bytes, back, scratch,
    )?;
    match placed {
        Outcome::Done => {
            buffer.put(part.block, back);
            Ok(WriteOut::Good)
        }
        Outcome::NoSpare => Ok(WriteOut::NoSpare { lba: part.start }),
        Outcome::NoUpdate { counter } => Ok(WriteOut::NoUpdate { counter }),
    }
}

/// Whether all that was asked for is written.
fn is_good(out: WriteOut) -> bool
    ensures { IsTrue result ↔ (out ≡ outs.Good) }
{
    matches!(out, WriteOut::Good)
}

/// Writes all parts of a request, in order, up to one that is refused.
///
/// # Clauses
///
/// - `rule` (`EndsParts`, `StopsParts`): what a drive shows then, of what it showed before: `WriteCause` of `model_drive`, and
///   for each disc that it stood for the step of a write; the lists in use are settled, and the structure is the same. Where it
///   was stopped, the same of a drive that keeps nothing.
/// - `fit`: lists, layout, cursors and medium fit together as before (`IsFit` of `ram_lists`).
/// - `same_layout`: the layout stays.
/// - `happened`: nothing but events happened to the medium.
///
/// # Answers
///
/// The power is on, which is asked for. What a drive shows then of what it showed before is what a write of a drive says.
///
/// - `Ok`: it was not stopped. Then: lists and buffer are in use. (`EndsParts`)
/// - `Good`, `Unread`, `NoSpare`, `NoUpdate`: as of `Sectors::write`. Then: as there. (`WriteCause`)
/// - `NotFormatted`, `Range`, `Off`: these do not come, as the disc is formatted and the request lies in it. (`WriteCause`)
/// - `Err`: it was stopped: `Cut`, `Off` or `Fault`. Then: off; nothing is kept in memory. (`StopsParts`)
/// - `Cut`, `Fault`: as of `Sectors::write`. Then: as there. (`WriteCause`)
pub fn write_parts<M: MediumControl>(
    medium: &mut M,
    geometry: &Geometry,
    lists: &mut Lists,
    workspace: &mut Workspace,
    request: Request,
    from: &[u8],
) -> Result<WriteOut, Stop>
    requires fit { IsFit geometry.now (M.block_count medium.old) (layout_pools workspace.old.layout)
        workspace.old.cursors
        lists.old }
    requires on { IsTrue (M.world medium.old).power }
    requires settled { AreSettled geometry.now (M.world medium.old).cells (lists_of lists.old) }
    requires inside { request.lba + request.n ≤ capacity_of geometry.now (lists_of lists.old) }
    requires whole { length from.now ≡ 2048 * request.n }
    ensures rule { MatchResult result
        (EndsParts geometry.now (machine_shown M.world M.arms M.armed_cut medium.old)
        (machine_shown M.world M.arms M.armed_cut medium.new) (lists_of lists.old) workspace.old.buffer
        request.lba request.n from.now (lists_of lists.new) workspace.new.buffer)
        (StopsParts geometry.now (machine_shown M.world M.arms M.armed_cut medium.old)
        (machine_shown M.world M.arms M.armed_cut medium.new) (lists_of lists.old) workspace.old.buffer
        request.lba request.n from.now) }
    ensures happened { Happened M.takes medium.old medium.new }
    ensures fit { IsFit geometry.now (M.block_count medium.new) (layout_pools workspace.new.layout)
        workspace.new.cursors
        lists.new }
    ensures same_layout { workspace.new.layout ≡ workspace.old.layout }
{
    for k in 0..request.blocks() {
        let part = request.part(k);
        let out = write_part(medium, geometry, lists, workspace, part, from)?;
        if !is_good(out) {
            return Ok(out);
        }
    }
    Ok(WriteOut::Good)
}
