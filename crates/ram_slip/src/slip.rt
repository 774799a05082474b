//! From a block to what it is. Only the entries of the primary defect list are looked at; the data blocks are counted by sums.

ghost use Rattle.std.specs.Prelude.{◌≡◌, ◌<◌, length, slice_index};
ghost use Rattle.model_geometry.specs.declared.kinds.LayoutKind.TheVariants.{OneGroup};
ghost use Rattle.model_geometry.specs.Geometry.{IsLawful, data_blocks};
ghost use Rattle.model_places.specs.Places.{unslipped};
ghost use Rattle.model_places.specs.Valid.{IsValidPdl, IsValidOnSome};
ghost use Rattle.ram_dds.specs.Dds.{dds_of};
ghost use Rattle.ram_slip.specs.Roles.{HasRank, HasRole, HasTurn, primary_in};

use crate::entries::{count_before, is_named};
use crate::role::Role;
use crate::zones::{role_in_zone, turn_in_zone};
use ram_dds::DdsPdl;
use ram_zones::{Geometry, LayoutKind};

/// Data block `n`, counted from 0, which there is.
///
/// # Clauses
///
/// - data block `n`, counted from 0.
pub fn data_block(geometry: &Geometry, n: u32) -> u32
    requires { n < length (data_blocks geometry.now) }
    ensures { result ≡ slice_index (data_blocks geometry.now) n }
{
    match geometry.data_block(n) {
        Some(block) => block,
        None => unreachable!(),
    }
}

/// How many primary spares are left: each slipped block has taken one.
///
/// # Clauses
///
/// - `left`: how many primary spares are left.
/// - `lawful`: the geometry is lawful.
pub fn primary_left(geometry: &Geometry, dds: &DdsPdl) -> u32
    requires { IsValidPdl geometry.now (dds_of dds.now) }
    ensures lawful { IsLawful geometry.now }
    ensures left { result ≡ length (primary_in geometry.now (dds_of dds.now)) }
{
    geometry.spare_room() - dds.entries.len() as u32
}

/// Where a block stands among those that are not slipped.
enum Rank {
    /// It is no data block.
    Outside,
    /// It is slipped.
    Slipped,
    /// It is there, with n before it.
    At { place: u32 },
}

/// Where a block stands among those that are not slipped.
fn rank_of(geometry: &Geometry, dds: &DdsPdl, block: u32) -> Rank
    requires { IsValidPdl geometry.now (dds_of dds.now) }
    ensures { HasRank geometry.now (dds_of dds.now) block result }
{
    let Some(index) = geometry.data_index(block) else {
        return Rank::Outside;
    };
    let entries = dds.entries.as_slice();
    let before = count_before(entries, block);
    if is_named(entries, before, block) {
        return Rank::Slipped;
    }
    Rank::At {
        place: index - before as u32,
    }
}

/// What a block that is not slipped is on a disc with one group of spares, by where it stands among all such blocks.
fn role_in_group(geometry: &Geometry, dds: &DdsPdl, ssa: u32, place: u32) -> Role
    requires one { geometry.now.layout ≡ OneGroup }
    requires valid { IsValidPdl geometry.now (dds_of dds.now) }
    requires area { IsValidOnSome geometry.now ssa }
    requires inside { place < length (unslipped geometry.now (dds_of dds.now)) }
    ensures { HasRole geometry.now (dds_of dds.now) ssa
        (slice_index (unslipped geometry.now (dds_of dds.now)) place) result }
{
    let primary = primary_left(geometry, dds);
    if place < primary {
        return Role::Primary;
    }
    let i = place - primary;
    if i < geometry.data_blocks() - geometry.psa() - ssa {
        return Role::Logical { i };
    }
    Role::Supplementary
}

/// The turn of such a block on a disc with one group of spares, or none where it is no spare.
fn turn_in_group(geometry: &Geometry, dds: &DdsPdl, ssa: u32, place: u32) -> Option<u32>
    requires one { geometry.now.layout ≡ OneGroup }
    requires valid { IsValidPdl geometry.now (dds_of dds.now) }
    requires area { IsValidOnSome geometry.now ssa }
    requires inside { place < length (unslipped geometry.now (dds_of dds.now)) }
    ensures { HasTurn geometry.now (dds_of dds.now) ssa
        (slice_index (unslipped geometry.now (dds_of dds.now)) place) result }
{
    let primary = primary_left(geometry, dds);
    let logical = geometry.data_blocks() - geometry.psa() - ssa;
    if place < primary {
        return Some(primary - 1 - place);
    }
    if place - primary < logical {
        return None;
    }
    Some(primary + (primary + logical + ssa - 1 - place))
}

/// What a block is to a disc with n supplementary spares.
///
/// # Clauses
///
/// - what a block is: logical block `i`, a primary or a supplementary spare, slipped, or no data block.
///
/// # Answers
///
/// A block is one of these things at most (`a_block_has_one_role`), so each answer comes exactly when it says what the block is.
///
/// - `Logical`: the block is that logical block. (`HasRole`)
/// - `Primary`: it is a primary spare. (`HasRole`)
/// - `Supplementary`: it is a supplementary spare. (`HasRole`)
/// - `Slipped`: the primary list names it. (`HasRole`)
/// - `Outside`: it is no data block. (`HasRole`)
pub fn role_of(geometry: &Geometry, dds: &DdsPdl, ssa: u32, block: u32) -> Role
    requires valid { IsValidPdl geometry.now (dds_of dds.now) }
    requires area { IsValidOnSome geometry.now ssa }
    ensures { HasRole geometry.now (dds_of dds.now) ssa block result }
{
    let place = match rank_of(geometry, dds, block) {
        Rank::Outside => return Role::Outside,
        Rank::Slipped => return Role::Slipped,
        Rank::At { place } => place,
    };
    match geometry.layout() {
        LayoutKind::OneGroup => role_in_group(geometry, dds, ssa, place),
        LayoutKind::EachZone => role_in_zone(geometry, dds, ssa, place, block),
    }
}

/// The turn of a spare in the order in which spares are taken, counted from 0, or none where the block is no spare. Each spare
/// has a turn of its own, below the number of all spares.
///
/// # Clauses
///
/// - the turn of a spare in the order in which spares are taken; none exactly where the block is no spare.
///
/// # Answers
///
/// - `Some`, `None`: its turn in the order in which spares are taken; `None` exactly when it is no spare. (`HasTurn`)
pub fn spare_turn(geometry: &Geometry, dds: &DdsPdl, ssa: u32, block: u32) -> Option<u32>
    requires valid { IsValidPdl geometry.now (dds_of dds.now) }
    requires area { IsValidOnSome geometry.now ssa }
    ensures { HasTurn geometry.now (dds_of dds.now) ssa block result }
{
    let place = match rank_of(geometry, dds, block) {
        Rank::Outside => return None,
        Rank::Slipped => return None,
        Rank::At { place } => place,
    };
    match geometry.layout() {
        LayoutKind::OneGroup => turn_in_group(geometry, dds, ssa, place),
        LayoutKind::EachZone => turn_in_zone(geometry, dds, ssa, place, block),
    }
}
