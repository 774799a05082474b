//! The choice of both lists, which a mount begins with. It reads, and writes nothing.

ghost use Rattle.std.specs.Prelude.{◌≡◌, ◌↔◌, IsTrue, IfOk, MatchResult};
ghost use Rattle.model_geometry.specs.Geometry.{total};
ghost use Rattle.model_lists.specs.declared.dds.DdsState.TheVariants.{Formatted};
ghost use Rattle.model_medium.specs.World.{UseContinues};
ghost use Rattle.model_places.specs.Valid.{IsValidPdl};
ghost use Rattle.ram_zones.specs.declared.list_kind.ListKind.TheVariants as kinds;
ghost use Rattle.ram_dds.specs.Dds.{dds_of};
ghost use Rattle.ram_sdl.specs.Sdl.{sdl_of};
ghost use Rattle.ram_copies.specs.Values.{SdlValue};
ghost use Rattle.ram_copies.specs.Choices.{best_in};
ghost use Rattle.ram_copies.specs.Chooses.{HasChosen, StopsChoosing};
ghost use Rattle.ram_copies.specs.ReadsAlone.{ReadsAlone};
ghost use Rattle.ram_lists.specs.Lists.{AcceptsSdl, lists_of};
ghost use Rattle.ram_lists.specs.Chosen.{ChoosesBoth, FoundRule};
ghost use Rattle.ram_lists.specs.Mounts.{WasStopped};

use crate::fits::{DdsFits, NoneFits, SdlFits};
use crate::lists::Lists;
use model_lists::DdsState;
use ram_copies::{Choice, Scratch, look_at_copies};
use ram_dds::DdsPdl;
use ram_medium::{Medium, Stop};
use ram_sdl::Sdl;
use ram_zones::Geometry;

/// What was chosen of both lists. The lists themselves are in the room that was given. They are those of a formatted disc where
/// both were chosen, and the structure says that a format has ended.
#[derive(Clone, Copy, Debug, PartialEq, Eq)]
pub struct ChosenLists {
    /// The area of the disc definition structure, if one is chosen.
    pub dds_area: Option<u32>,
    /// The area of the secondary list that is chosen under it, if one is.
    pub sdl_area: Option<u32>,
    /// The greatest counter of a disc definition structure that a readable copy has or names, and 0 where there is none.
    pub mark: u32,
}

/// What a choice of both lists found.
#[derive(Clone, Copy, Debug, PartialEq, Eq)]
pub enum FoundLists {
    /// The disc is formatted: the lists in the room that was given are chosen.
    Lists {
        /// The area of the disc definition structure.
        dds_area: u32,
        /// The area of the secondary list.
        sdl_area: u32,
    },
    /// The disc is not formatted.
    Bare {
        /// The greatest counter of a disc definition structure that a readable copy has or names, and 0 where there is
        /// none.
        mark: u32,
    },
}

/// Whether the structure says that a format has ended.
pub fn is_formatted(dds: &DdsPdl) -> bool
    ensures { IsTrue result ↔ (dds.now.state ≡ Formatted) }
{
    match dds.state {
        DdsState::Formatting => false,
        DdsState::Formatted => true,
    }
}

/// Chooses the secondary list under a structure.
fn choose_under<M: Medium>(
    medium: &mut M,
    geometry: &Geometry,
    dds: &DdsPdl,
    sdl: &mut Sdl,
    other: &mut Sdl,
    scratch: &mut Scratch,
) -> Result<Choice, Stop>
    requires valid { IsValidPdl geometry.now (dds_of dds.now) }
    requires size { M.block_count medium.old ≡ total geometry.now }
    requires on { IsTrue (M.world medium.old).power }
    ensures rule { MatchResult result
        (λ choice. HasChosen M.world M.reaches kinds.Sdl geometry.now medium.old medium.new
        (AcceptsSdl geometry.now (dds_of dds.now)) (best_in choice.area (SdlValue (sdl_of sdl.new))) choice.mark)
        (StopsChoosing M.world M.reaches kinds.Sdl geometry.now medium.old medium.new) }
    ensures reads { ReadsAlone M.takes medium.old medium.new }
    ensures as_many { M.block_count medium.new ≡ M.block_count medium.old }
{
    let fits = SdlFits { geometry, dds };
    look_at_copies::<Sdl, M, SdlFits>(medium, geometry, &fits, sdl, other, scratch)
}

/// Chooses the lists of a disc: 8 uses, and one more for each first part of a secondary list after which another follows. The
/// lists are in `lists` then; `other` is room for the copies that are looked at, and has any lists afterwards.
///
/// # Clauses
///
/// - `rule` (`ChoosesBoth`, `WasStopped`), `reads`, `as_many`: the same choice by its two steps, with which `mount_lists` and
///   `find_lists` begin.
///
/// # Answers
///
/// It only reads (`ReadsAlone`).
///
/// - `Ok`: all copies were looked at. Then: the structure that is chosen is in the room, if one is, and the secondary list under
///   it, if one is. (`ChoosesBoth`)
/// - `Err`: it was stopped: `Cut`, `Off` or `Fault`. Then: as after that answer of `mount`. (`WasStopped`)
/// - `Cut`: the power was cut. Then: off. (`WasStopped`)
/// - `Off`: the power was off. As the power is on at entry, this does not come. (`WasStopped`)
/// - `Fault`: what the medium lies on counted a failure. Then: off. (`WasStopped`)
pub fn choose_lists<M: Medium>(
    medium: &mut M,
    geometry: &Geometry,
    lists: &mut Lists,
    other: &mut Lists,
    scratch: &mut Scratch,
) -> Result<ChosenLists, Stop>
    requires size { M.block_count medium.old ≡ total geometry.now }
    requires on { IsTrue (M.world medium.old).power }
    ensures rule { MatchResult result
        (λ chosen. ChoosesBoth M.world M.reaches geometry.now medium.old medium.new (lists_of lists.new)
        chosen.dds_area chosen.sdl_area chosen.mark)
        (WasStopped M.world M.reaches geometry.now medium.old medium.new) }
    ensures reads { ReadsAlone M.takes medium.old medium.new }
    ensures as_many { M.block_count medium.new ≡ M.block_count medium.old }
{
    let Lists { dds, sdl } = lists;
    let Lists {
        dds: other_dds,
        sdl: other_sdl,
    } = other;
    let fits = DdsFits { geometry };
    let Choice { area, mark: first } = look_at_copies::<DdsPdl, M, DdsFits>(
        medium, geometry, &fits, dds, other_dds, scratch,
    )?;
    let Some(dds_area) = area else {
        let fits = NoneFits {};
        let last = look_at_copies::<Sdl, M, NoneFits>(
            medium, geometry, &fits, sdl, other_sdl, scratch,
        )?;
        return Ok(ChosenLists {
            dds_area: None,
            sdl_area: last.area,
            mark: first.max(last.mark),
        });
    };
    let last = choose_under(medium, geometry, &*dds, sdl, other_sdl, scratch)?;
    let mark = first.max(last.mark);
    Ok(ChosenLists {
        dds_area: Some(dds_area),
        sdl_area: last.area,
        mark,
    })
}

/// Finds the lists of a disc, as a mount does, and repairs none of their copies.
///
/// # Clauses
///
/// - `rule` (`FoundRule`, `WasStopped`): what a mount finds, over the cells as they are, and nothing is repaired: both lists,
///   valid, with their areas (`FindsBoth`), or none, and the mark (`FindsNeither`); or why it was stopped.
/// - `reads` (`ReadsAlone`), `counts`, `as_many`: nothing but reads happened to the medium; where it came to its end the power is
///   on, and neither a cut nor a fault is counted.
///
/// # Answers
///
/// It only reads (`ReadsAlone`).
///
/// - `Ok`: all copies were looked at. Then: the power is on, and neither a cut nor a fault is counted. (`FoundRule`)
/// - `Lists`: those in the room are chosen, in these areas. Then: they are valid. (`FindsBoth`)
/// - `Bare`: none are chosen. Then: its mark is that of the copies. (`FindsNeither`)
/// - `Err`: it was stopped: `Cut`, `Off` or `Fault`. Then: as after that answer of `mount`. (`WasStopped`)
/// - `Cut`: the power was cut. Then: off. (`WasStopped`)
/// - `Off`: the power was off. As the power is on at entry, this does not come. (`WasStopped`)
/// - `Fault`: what the medium lies on counted a failure. Then: off. (`WasStopped`)
pub fn find_lists<M: Medium>(
    medium: &mut M,
    geometry: &Geometry,
    lists: &mut Lists,
    other: &mut Lists,
    scratch: &mut Scratch,
) -> Result<FoundLists, Stop>
    requires size { M.block_count medium.old ≡ total geometry.now }
    requires on { IsTrue (M.world medium.old).power }
    ensures rule { MatchResult result
        (FoundRule geometry.now (M.world medium.new) (lists_of lists.new))
        (WasStopped M.world M.reaches geometry.now medium.old medium.new) }
    ensures counts { IfOk result (λ found. UseContinues (M.world medium.old) (M.world medium.new)) }
    ensures reads { ReadsAlone M.takes medium.old medium.new }
    ensures as_many { M.block_count medium.new ≡ M.block_count medium.old }
{
    let ChosenLists {
        dds_area,
        sdl_area,
        mark,
    } = choose_lists(medium, geometry, lists, other, scratch)?;
    let Some(dds_area) = dds_area else {
        return Ok(FoundLists::Bare { mark });
    };
    if !is_formatted(&lists.dds) {
        return Ok(FoundLists::Bare { mark });
    }
    let Some(sdl_area) = sdl_area else {
        return Ok(FoundLists::Bare { mark });
    };
    Ok(FoundLists::Lists { dds_area, sdl_area })
}
