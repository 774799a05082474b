//! The write of one logical block, to its home or to a spare.

ghost use Rattle.std.specs.Prelude.{◌≡◌, ◌<◌, IsTrue, IfOk, MatchResult, length};
ghost use Rattle.model_places.specs.Places.{logical_count, home_of};
ghost use Rattle.model_volume.specs.Given.{AreSettled};
ghost use Rattle.ram_bytes.specs.declared.block.TheConstants.{BLOCK_BYTES};
ghost use Rattle.ram_lists.specs.Lists.{lists_of};
ghost use Rattle.ram_lists.specs.Fit.{IsFit};
ghost use Rattle.ram_sdl.specs.Sdl.{sdl_of};
ghost use Rattle.ram_replace.specs.Cursors.{LeavesCursors, CursorsPlaced};
ghost use Rattle.ram_replace.specs.Placing.{EndsPlacing, PlacingStopped, PlacedRule, EndsWithReadBack, LeavesReadBack};

use crate::drafts::draft_moved;
use crate::spares::find_spare;
use model_drive::LAST_COUNTER;
use ram_bytes::Block;
use ram_copies::{Purpose, Scratch, put_block, put_copies};
use ram_layout::Layout;
use ram_lists::Lists;
use ram_medium::{Medium, Stop};
use ram_sdl::Sdl;
use ram_spare::Cursors;
use ram_zones::Geometry;

/// How the write of a logical block ended.
#[derive(Clone, Copy, Debug, PartialEq, Eq)]
pub enum Placed {
    /// Its home has the bytes: the one that it had, or a spare.
    Done,
    /// The home is dead, and so are all free spares.
    NoSpare,
    /// The home is dead and a spare has the bytes, but the secondary list could not be updated: all its copies are
    /// dead, or its counter is the last one. The block stays where it was.
    NoUpdate {
        /// The counter of the list in use.
        counter: u32,
    },
    /// The power was cut.
    Cut,
    /// The power was off, and nothing was done.
    Off,
    /// What the medium lies on failed, and counted it. The power is off.
    Fault,
}

/// How a write ended that was not stopped.
#[derive(Clone, Copy)]
pub enum Outcome {
    /// Its home has the bytes: the one that it had, or a spare.
    Done,
    /// The home is dead, and so are all free spares.
    NoSpare,
    /// The home is dead and a spare has the bytes, but the secondary list could not be updated: all its copies are
    /// dead, or its counter is the last one. The block stays where it was.
    NoUpdate {
        /// The counter of the list in use.
        counter: u32,
    },
}

/// Writes logical block `i` to its home, which the caller has looked up, and reads it back: 2 uses. Where the home is
/// dead, one free spare after another is written and read back, 2 uses each, until one has the bytes; then the secondary
/// list that says so is updated, 8 uses for each of its parts, and taken over. `draft` holds that list until then, and
/// nothing of use before and after. After Done `back` has the bytes as they were read back. It takes no memory.
/// The layout is that of the disc, and the search for a free spare begins at the cursor of the block's pool; the cursor stands
/// behind the spare once the block is there.
///
/// The lists in memory change with Done alone, once a copy of the new list can be read. (Linear replacement after
/// ECMA-330; the order of the steps is this project's own.)
///
/// # Answers
///
/// What `write_home` does with the power on, which is asked for.
///
/// - `Ok`: it was not stopped. (`EndsPlacing`)
/// - `Done`: as of `write_home`. Then: as there. (`PlacesBlock`, `PutsBlock`)
/// - `NoSpare`: as of `write_home`. Then: as there. (`MeetsNoSpare`, `FindsNoSpare`)
/// - `NoUpdate`: as of `write_home`. Then: as there. (`MeetsNoCopy`, `FindsNoCopy`)
/// - `Err`: it was stopped: `Cut`, `Off` or `Fault`. Then: as after that answer of `write_home`. (`PlacingStopped`,
///   `StopsAtBlock`)
/// - `Cut`: the power was cut in this write. Then: off. (`StopsByCut`)
/// - `Off`: the power was off. As the power is on at entry, this does not come. (`Stops`)
/// - `Fault`: what the medium lies on counted a failure. Then: off. (`StopsByFault`)
pub fn place_block<M: Medium, L: Layout>(
    medium: &mut M,
    geometry: &Geometry,
    layout: &L,
    cursors: &mut Cursors,
    lists: &mut Lists,
    draft: &mut Sdl,
    i: u32,
    home: u32,
    from: &[u8],
    back: &mut Block,
    scratch: &mut Scratch,
) -> Result<Outcome, Stop>
    requires fit { IsFit geometry.now (M.block_count medium.old) (L.pools layout.now) cursors.old lists.old }
    requires on { IsTrue (M.world medium.old).power }
    requires settled { AreSettled geometry.now (M.world medium.old).cells (lists_of lists.old) }
    requires inside { i < logical_count geometry.now (lists_of lists.old) }
    requires home { home ≡ home_of geometry.now (lists_of lists.old) i }
    requires whole { length from.now ≡ BLOCK_BYTES }
    ensures rule { MatchResult result
        (EndsPlacing M.world M.reaches geometry.now medium.old medium.new (lists_of lists.old) i from.now
        (lists_of lists.new))
        (PlacingStopped M.world M.reaches geometry.now medium.old medium.new (lists_of lists.old) i from.now
        (lists_of lists.new)) }
    ensures cursors { MatchResult result
        (LeavesCursors (L.pools layout.now) (sdl_of lists.old.sdl) (sdl_of lists.new.sdl) i cursors.old cursors.new)
        (λ stop. cursors.new ≡ cursors.old) }
    ensures back { IfOk result (EndsWithReadBack (M.world medium.old).known from.now back.new) }
    ensures fit { IsFit geometry.now (M.block_count medium.new) (L.pools layout.now) cursors.new lists.new }
{
    if put_block(medium, home, from, back)? {
        return Ok(Outcome::Done);
    }
    let pool = layout.pool_of(i);
    let first = cursors.at(pool);
    let Some(found) = find_spare(medium, layout, &lists.sdl, pool, first, from, back)? else {
        return Ok(Outcome::NoSpare);
    };
    let counter = lists.sdl.counter;
    if counter == LAST_COUNTER {
        return Ok(Outcome::NoUpdate { counter });
    }
    draft_moved(geometry, layout, &lists.sdl, draft, i, home, first, found);
    if put_copies(medium, geometry, draft, Purpose::Update, scratch)? == 0 {
        return Ok(Outcome::NoUpdate { counter });
    }
    lists.sdl.copy_from(draft);
    cursors.set(pool, found.turn + 1);
    Ok(Outcome::Done)
}

/// Writes a logical block, as [`place_block`] does, where the power is on.
///
/// # Answers
///
/// The lists in memory change on `Done` alone.
///
/// - `Done`: the home, or a spare, has the bytes; a move has a readable copy of the list that says so. Then: the disc has the new
///   block; the lists are those after the move, if there was one, and the cursor stands behind the spare. (`PlacesBlock`,
///   `PutsBlock`)
/// - `NoSpare`: the home is dead, and so are all spares that are free for the block. Then: the disc and the lists are as before.
///   (`MeetsNoSpare`, `FindsNoSpare`)
/// - `NoUpdate`: the home is dead, a spare has the bytes, but the secondary list has no copy left, or its counter, which is told,
///   is the last. Then: the disc and the lists are as before. (`MeetsNoCopy`, `FindsNoCopy`)
/// - `Cut`: the power was cut in this write. Then: off; the cells give the lists before or after, and the disc before or after
///   fits under them. (`PlacingStopped`, `StopsAtBlock`)
/// - `Off`: exactly when the power was off. Then: nothing changed. (`FoundOff`)
/// - `Fault`: what the medium lies on counted a failure. Then: as after `Cut`. (`PlacingStopped`, `StopsAtBlock`)
pub fn write_home<M: Medium, L: Layout>(
    medium: &mut M,
    geometry: &Geometry,
    layout: &L,
    cursors: &mut Cursors,
    lists: &mut Lists,
    draft: &mut Sdl,
    i: u32,
    home: u32,
    from: &[u8],
    back: &mut Block,
    scratch: &mut Scratch,
) -> Placed
    requires fit { IsFit geometry.now (M.block_count medium.old) (L.pools layout.now) cursors.old lists.old }
    requires settled { AreSettled geometry.now (M.world medium.old).cells (lists_of lists.old) }
    requires inside { i < logical_count geometry.now (lists_of lists.old) }
    requires home { home ≡ home_of geometry.now (lists_of lists.old) i }
    requires whole { length from.now ≡ BLOCK_BYTES }
    ensures rule { PlacedRule M.world M.reaches geometry.now medium.old medium.new (lists_of lists.old) i
        from.now (lists_of lists.new) result }
    ensures cursors { CursorsPlaced (L.pools layout.now) (sdl_of lists.old.sdl) (sdl_of lists.new.sdl) i
        cursors.old cursors.new result }
    ensures back { LeavesReadBack (M.world medium.old).known from.now back.new result }
    ensures fit { IsFit geometry.now (M.block_count medium.new) (L.pools layout.now) cursors.new lists.new }
{
    if !medium.powered() {
        return Placed::Off;
    }
    let placed = place_block(
        medium, geometry, layout, cursors, lists, draft, i, home, from, back, scratch,
    );
    match placed {
        Ok(Outcome::Done) => Placed::Done,
        Ok(Outcome::NoSpare) => Placed::NoSpare,
        Ok(Outcome::NoUpdate { counter }) => Placed::NoUpdate { counter },
        Err(Stop::Cut) => Placed::Cut,
        Err(Stop::Off) => Placed::Off,
        Err(Stop::Fault) => Placed::Fault,
    }
}
