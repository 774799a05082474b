//! The expansion of the supplementary spare area.

ghost use Rattle.std.specs.Prelude.{◌≡◌, IsTrue, MatchResult};
ghost use Rattle.model_volume.specs.Given.{AreSettled};
ghost use Rattle.ram_lists.specs.Lists.{lists_of};
ghost use Rattle.ram_expand.specs.Standing.{AreFit};
ghost use Rattle.ram_expand.specs.Expanding.{EndsGrowing, StopsGrowing, ExpandRule};

use crate::drafts::draft_expanded;
use crate::sizes::{Size, area_for, size_of};
use model_drive::LAST_COUNTER;
use ram_copies::{Purpose, Scratch, put_copies};
use ram_lists::Lists;
use ram_medium::{Medium, Stop};
use ram_sdl::Sdl;
use ram_zones::Geometry;

/// How an expansion ended.
#[derive(Clone, Copy, Debug, PartialEq, Eq)]
pub enum ExpandEnd {
    /// The disc has the capacity.
    Good,
    /// The disc cannot have the capacity, and nothing was done.
    Refused,
    /// The secondary list could not be updated: all its copies are dead, or its counter is the last one. The lists are
    /// as before.
    NoUpdate {
        /// The counter of the list in use.
        counter: u32,
    },
    /// The power was cut.
    Cut,
    /// The power was off, and nothing was done.
    Off,
    /// What the medium lies on failed, and counted it. The power is off.
    Fault,
}

/// How an expansion ended that was not stopped.
#[derive(Clone, Copy)]
pub enum Grown {
    /// The disc has the capacity.
    Good,
    /// The disc cannot have the capacity, and nothing was done.
    Refused,
    /// The secondary list could not be updated: all its copies are dead, or its counter is the last one. The lists are
    /// as before.
    NoUpdate {
        /// The counter of the list in use.
        counter: u32,
    },
}

/// Gives a formatted disc a capacity of n sectors: the logical blocks behind them become supplementary spares. Where
/// the disc has just n, nothing is done. Else the new secondary list, with the larger area and a counter one greater,
/// is updated, in 8 uses for each of its parts, and taken over: an entry of a block that is a spare now says that it is
/// retired, and its replacement is free again. The version stays. `draft` holds that list until then, and nothing of use
/// before and after. It takes no memory.
///
/// Refused: a capacity of 0, no multiple of 16, greater than the disc has, or one that leaves more spares in all than a disc
/// of its version may have: 4,092, or 8,184; and with a group of spares in each zone each but the present one.
/// The lists in memory change with Good alone, once a copy of the new list can be read. (Spare areas after ECMA-330; how
/// one grows is this project's own.)
///
/// # Answers
///
/// What `expand_lists` does with the power on, which is asked for.
///
/// - `Ok`: it was not stopped. (`EndsGrowing`)
/// - `Good`: as of `expand_lists`. Then: as there. (`KeepsSize`, `HasGrown`)
/// - `Refused`: as of `expand_lists`. Then: as there. (`RefusesCapacity`)
/// - `NoUpdate`: as of `expand_lists`. Then: as there. (`LacksUpdate`)
/// - `Err`: it was stopped: `Cut`, `Off` or `Fault`. Then: as after that answer of `expand_lists`. (`StopsGrowing`)
/// - `Cut`: the power was cut in the update. Then: off. (`StopsByCut`)
/// - `Off`: the power was off. As the power is on at entry, this does not come. (`Stops`)
/// - `Fault`: what the medium lies on counted a failure. Then: off. (`StopsByFault`)
pub fn grow<M: Medium>(
    medium: &mut M,
    geometry: &Geometry,
    lists: &mut Lists,
    draft: &mut Sdl,
    capacity: u32,
    scratch: &mut Scratch,
) -> Result<Grown, Stop>
    requires fit { AreFit geometry.now (M.block_count medium.old) lists.old }
    requires on { IsTrue (M.world medium.old).power }
    requires settled { AreSettled geometry.now (M.world medium.old).cells (lists_of lists.old) }
    ensures rule { MatchResult result
        (EndsGrowing M.world M.reaches geometry.now medium.old medium.new (lists_of lists.old) capacity
        (lists_of lists.new))
        (StopsGrowing M.world M.reaches geometry.now medium.old medium.new (lists_of lists.old) capacity
        (lists_of lists.new)) }
    ensures fit { AreFit geometry.now (M.block_count medium.new) lists.new }
{
    match size_of(geometry, lists, capacity) {
        Size::Unlawful => return Ok(Grown::Refused),
        Size::Present => return Ok(Grown::Good),
        Size::Smaller => {}
    }
    let counter = lists.sdl.counter;
    if counter == LAST_COUNTER {
        return Ok(Grown::NoUpdate { counter });
    }
    let ssa = area_for(geometry, capacity);
    draft_expanded(geometry, lists, draft, ssa);
    if put_copies(medium, geometry, draft, Purpose::Update, scratch)? == 0 {
        return Ok(Grown::NoUpdate { counter });
    }
    lists.sdl.copy_from(draft);
    Ok(Grown::Good)
}

/// Gives a formatted disc a capacity, as [`grow`] does, where the power is on.
///
/// # Answers
///
/// No cell changes but those of the secondary list; the lists in memory change on `Good` alone.
///
/// - `Good`: the disc has this capacity already. Then: nothing changed. (`KeepsSize`)
/// - `Good` of a smaller one: the secondary list was updated, and has a copy. Then: the lists are the new ones; the first sectors
///   of a disc that fitted fit. (`HasGrown`)
/// - `Refused`: exactly when the power is on and the disc cannot have the capacity. Then: nothing changed. (`RefusesCapacity`)
/// - `NoUpdate`: no copy of the secondary list is left, or its counter, which is told, is the last. Then: the lists are as
///   before, and a disc that fitted fits. (`LacksUpdate`)
/// - `Cut`: the power was cut in the update. Then: off; the cells give the old lists or the new ones; the disc or its first
///   sectors fit. (`StopsGrowing`)
/// - `Off`: exactly when the power was off. Then: nothing changed. (`FindsOff`)
/// - `Fault`: what the medium lies on counted a failure. Then: as after `Cut`. (`StopsGrowing`)
pub fn expand_lists<M: Medium>(
    medium: &mut M,
    geometry: &Geometry,
    lists: &mut Lists,
    draft: &mut Sdl,
    capacity: u32,
    scratch: &mut Scratch,
) -> ExpandEnd
    requires fit { AreFit geometry.now (M.block_count medium.old) lists.old }
    requires settled { AreSettled geometry.now (M.world medium.old).cells (lists_of lists.old) }
    ensures rule { ExpandRule M.world M.reaches geometry.now medium.old medium.new (lists_of lists.old)
        capacity (lists_of lists.new) result }
    ensures fit { AreFit geometry.now (M.block_count medium.new) lists.new }
{
    if !medium.powered() {
        return ExpandEnd::Off;
    }
    match grow(medium, geometry, lists, draft, capacity, scratch) {
        Ok(Grown::Good) => ExpandEnd::Good,
        Ok(Grown::Refused) => ExpandEnd::Refused,
        Ok(Grown::NoUpdate { counter }) => ExpandEnd::NoUpdate { counter },
        Err(Stop::Cut) => ExpandEnd::Cut,
        Err(Stop::Off) => ExpandEnd::Off,
        Err(Stop::Fault) => ExpandEnd::Fault,
    }
}
