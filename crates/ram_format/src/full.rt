//! The full format of a disc.

ghost use Rattle.std.specs.Prelude.{◌≡◌, ◌≤◌, ◌+◌, IsTrue, IfErr, MatchResult, vec_capacity};
ghost use Rattle.model_geometry.specs.Geometry.{total};
ghost use Rattle.model_copies.specs.Parts.{AreMarkedWithin};
ghost use Rattle.model_sectors.specs.Discs.{zeros};
ghost use Rattle.model_formats.specs.Defects.{AreKept};
ghost use Rattle.ram_format.specs.Phases.{kind_by};
ghost use Rattle.ram_lists.specs.Lists.{lists_of};
ghost use Rattle.ram_format.specs.Full.{MakesLists, HaltsFormat, FullRule, StaysWith};
ghost use Rattle.ram_format.specs.declared.full.TheConstants.{FORMAT_MEMORY};

use crate::halts::FormatHalt;
use crate::phases::{find_defects, with_copy};
use ram_bytes::{Block, Budget, MemoryRefused};
use ram_copies::{Purpose, Scratch, put_copies};
use ram_dds::{DdsState, PdlEntry, PdlKind};
use ram_lists::Lists;
use ram_medium::{Medium, Stop};
use ram_sdl::Version;
use ram_zones::Geometry;
use std::mem::size_of;

/// The greatest mark that has room for two more counters.
const GREATEST_MARK: u32 = 4_294_967_293;

/// The most found blocks that tell which zone is the first with too many: no more than the spares of all zones before it, and
/// than the blocks of the largest zone, and one.
const MOST_FOUND: usize = 9_993;

/// The most blocks that a disc may have slipped.
const MOST_SLIPPED: usize = 4_092;

/// How many bytes the memory of a full format asks for.
pub const FORMAT_MEMORY: usize = MOST_FOUND * size_of::<u32>()
    + MOST_SLIPPED * size_of::<PdlEntry>();

/// How a full format ended.
#[derive(Clone, Copy, Debug, PartialEq, Eq)]
pub enum FullEnd {
    /// The disc is formatted, and its lists are those in the room that was given.
    Good,
    /// More blocks are defective than may be slipped. The disc is not formatted.
    TooMany {
        /// How many blocks are defective, those that were kept among them: in all, or with a group of spares in each zone those of
        /// the first zone that has too many.
        found: u32,
        /// The mark from now on.
        mark: u32,
    },
    /// The mark has no room for two more counters, and nothing was done.
    NoRoom {
        /// The mark.
        mark: u32,
    },
    /// An update left no copy of its list. The disc is not formatted.
    NoCopy {
        /// The counter that was due.
        counter: u32,
        /// The mark from now on.
        mark: u32,
    },
    /// The power was cut.
    Cut,
    /// The power was off, and nothing was done.
    Off,
    /// What the medium lies on failed, and counted it. The power is off.
    Fault,
}

/// The kind of the blocks that are found.
fn kind_of(first: bool) -> PdlKind
    ensures { result ≡ kind_by first }
{
    if first { PdlKind::P } else { PdlKind::G1 }
}

/// The memory of a full format, beside its lists and its block of zeros.
#[derive(Drop)]
pub struct FormatRoom {
    /// Room for the numbers of the blocks that are found, or of the at most 8,184 that are replaced.
    pub found: Vec<u32>,
    /// Room for the entries of the new primary list.
    pub merged: Vec<PdlEntry>,
    ghost found_roomy: { 9993 ≤ vec_capacity found },
    ghost merged_roomy: { 4092 ≤ vec_capacity merged },
}

impl FormatRoom {
    /// Takes this memory.
    ///
    /// # Answers
    ///
    /// - `Ok`: room for what a full format finds of any disc. (clause)
    /// - `Err`: the system refused memory that was asked for within the budget. (clause)
    pub fn new(budget: &mut Budget) -> Result<FormatRoom, MemoryRefused>
        requires free { FORMAT_MEMORY ≤ budget.old }
        ensures left { budget.old ≤ budget.new + FORMAT_MEMORY }
    {
        Ok(FormatRoom {
            found: budget.room(MOST_FOUND)?,
            merged: budget.room(MOST_SLIPPED)?,
        })
    }
}

/// Formats a disc whose power is on and whose mark has room.
fn format_disc<M: Medium>(
    medium: &mut M,
    geometry: &Geometry,
    kept: &[PdlEntry],
    first: bool,
    mark: u32,
    zero: &Block,
    room: &mut FormatRoom,
    lists: &mut Lists,
    scratch: &mut Scratch,
) -> Result<(), FormatHalt>
    requires size { M.block_count medium.old ≡ total geometry.now }
    requires on { IsTrue (M.world medium.old).power }
    requires kept { AreKept geometry.now kept.now }
    requires small { mark + 2 ≤ 4294967295 }
    requires marked { AreMarkedWithin geometry.now (M.world medium.old).cells mark }
    requires zero { zero.now ≡ zeros 32768 }
    ensures rule { MatchResult result
        (λ done. MakesLists M.world M.reaches geometry.now kept.now (kind_by first) mark medium.old medium.new
        (lists_of lists.new))
        (HaltsFormat M.world M.reaches geometry.now kept.now (kind_by first) mark medium.old medium.new) }
    ensures as_many { M.block_count medium.new ≡ M.block_count medium.old }
{
    let FormatRoom { found, merged } = room;
    let Lists { dds, sdl } = lists;
    let psa = geometry.psa();
    dds.layout = geometry.layout();
    dds.version = Version::Two;
    dds.counter = mark + 1;
    dds.state = DdsState::Formatting;
    dds.psa = psa;
    dds.entries.clear();
    let readable = put_copies(medium, geometry, &*dds, Purpose::Update, scratch)?;
    with_copy(readable, mark + 1, mark)?;
    let kind = kind_of(first);
    find_defects(
        medium,
        geometry,
        kept,
        kind,
        mark + 1,
        zero,
        found,
        merged,
        &mut dds.entries,
        scratch,
    )?;
    sdl.version = Version::Two;
    sdl.counter = 1;
    sdl.dds_counter = mark + 2;
    sdl.ssa = 0;
    sdl.entries.clear();
    let readable = put_copies(medium, geometry, &*sdl, Purpose::Update, scratch)?;
    with_copy(readable, 1, mark + 2)?;
    dds.counter = mark + 2;
    dds.state = DdsState::Formatted;
    let readable = put_copies(medium, geometry, &*dds, Purpose::Update, scratch)?;
    with_copy(readable, mark + 2, mark + 2)?;
    Ok(())
}

/// Formats a disc: the structure says Formatting, each data block that is not kept is certified, and the secondary list
/// and the structure are written anew, with the kept and the dead blocks as the primary list. They are in `lists` then. It takes
/// no memory; where it does not come to its end, what `lists` says is not said, but for NoRoom, with which they stay.
///
/// `kept` names data blocks that rise, `first` says that the disc was not formatted before, `mark` is no less than the
/// disc's, and `zero` is a block of zeros. (After ECMA-330; the counters and the order are this project's own.)
///
/// # Answers
///
/// What `full_format` does with the power on, which is asked for.
///
/// - `Ok`: as `Good` of `full_format`. Then: as there. (`MakesLists`)
/// - `Err`: it did not come to its end. (`HaltsFormat`)
/// - `TooMany`: as of `full_format`. Then: as there. (`MeetsTooMany`)
/// - `NoRoom`: as of `full_format`. Then: as there, and the lists in the room stay. (`HasNoRoom`, `StaysWith`)
/// - `NoCopy`: as of `full_format`. Then: as there. (`LosesFirst`, `LosesSecond`, `LosesThird`)
/// - `Stopped`: for a cut or a fault. Then: off; as after `Cut` of `full_format`. (`FormatStopped`)
pub fn format_lists<M: Medium>(
    medium: &mut M,
    geometry: &Geometry,
    kept: &[PdlEntry],
    first: bool,
    mark: u32,
    zero: &Block,
    room: &mut FormatRoom,
    lists: &mut Lists,
    scratch: &mut Scratch,
) -> Result<(), FormatHalt>
    requires size { M.block_count medium.old ≡ total geometry.now }
    requires on { IsTrue (M.world medium.old).power }
    requires kept { AreKept geometry.now kept.now }
    requires marked { AreMarkedWithin geometry.now (M.world medium.old).cells mark }
    requires zero { zero.now ≡ zeros 32768 }
    ensures rule { MatchResult result
        (λ done. MakesLists M.world M.reaches geometry.now kept.now (kind_by first) mark medium.old medium.new
        (lists_of lists.new))
        (HaltsFormat M.world M.reaches geometry.now kept.now (kind_by first) mark medium.old medium.new) }
    ensures stays { IfErr result (λ halt. StaysWith halt lists.old lists.new) }
    ensures as_many { M.block_count medium.new ≡ M.block_count medium.old }
{
    if GREATEST_MARK < mark {
        return Err(FormatHalt::NoRoom { mark });
    }
    format_disc(
        medium, geometry, kept, first, mark, zero, room, lists, scratch,
    )
}

/// Formats a disc, as [`format_lists`] does, where the power is on.
///
/// # Answers
///
/// No cell changes but those of lists and of the blocks that are certified (`FormatGoes`).
///
/// - `Good`: the defective blocks are no more than may be slipped, and each list has a copy. Then: the lists in the room are new,
///   valid and settled, and name the defective blocks; the others have zeros or are dead. (`MakesLists`)
/// - `TooMany`: more blocks are defective than may be slipped; the number that is told of them, and the mark from now on. Then:
///   the cells give no lists. (`MeetsTooMany`)
/// - `NoRoom`: exactly when the power is on and the mark has no room for two more. Then: nothing changed. (`HasNoRoom`)
/// - `NoCopy`: an update left no copy of its list: the first of the structure, that of the secondary list, or the last. Then: the
///   cells give no lists; told are the counter and the mark from now on. (`LosesFirst`, `LosesSecond`, `LosesThird`)
/// - `Cut`: the power was cut in this format. Then: off; the cells give lists that they gave before, or the new ones, and the
///   lists are written up to there. (`FormatStopped`, `FormatsInPart`)
/// - `Off`: exactly when the power was off. Then: nothing changed. (`FoundOff`)
/// - `Fault`: what the medium lies on counted a failure. Then: as after `Cut`. (`FormatStopped`)
pub fn full_format<M: Medium>(
    medium: &mut M,
    geometry: &Geometry,
    kept: &[PdlEntry],
    first: bool,
    mark: u32,
    zero: &Block,
    room: &mut FormatRoom,
    lists: &mut Lists,
    scratch: &mut Scratch,
) -> FullEnd
    requires size { M.block_count medium.old ≡ total geometry.now }
    requires kept { AreKept geometry.now kept.now }
    requires marked { AreMarkedWithin geometry.now (M.world medium.old).cells mark }
    requires zero { zero.now ≡ zeros 32768 }
    ensures rule { FullRule M.world M.reaches geometry.now kept.now (kind_by first) mark medium.old medium.new
        (lists_of lists.new) result }
    ensures as_many { M.block_count medium.new ≡ M.block_count medium.old }
{
    if !medium.powered() {
        return FullEnd::Off;
    }
    match format_lists(
        medium, geometry, kept, first, mark, zero, room, lists, scratch,
    ) {
        Ok(()) => FullEnd::Good,
        Err(FormatHalt::TooMany { found, mark }) => FullEnd::TooMany { found, mark },
        Err(FormatHalt::NoRoom { mark }) => FullEnd::NoRoom { mark },
        Err(FormatHalt::NoCopy { counter, mark }) => FullEnd::NoCopy { counter, mark },
        Err(FormatHalt::Stopped { stop: Stop::Cut }) => FullEnd::Cut,
        Err(FormatHalt::Stopped { stop: Stop::Off }) => FullEnd::Off,
        Err(FormatHalt::Stopped { stop: Stop::Fault }) => FullEnd::Fault,
    }
}
