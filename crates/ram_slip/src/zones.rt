//! What the blocks are of a disc with a group of spares in each zone.

ghost use Rattle.std.specs.Prelude.{◌≡◌, ◌↔◌, ◌<◌, ◌≤◌, IsTrue, length, slice_index, Some, slice_get};
ghost use Rattle.model_geometry.specs.declared.kinds.LayoutKind.TheVariants.{EachZone};
ghost use Rattle.model_places.specs.Places.{zone_count, zone_first, unslipped, zones_unslipped};
ghost use Rattle.model_places.specs.Valid.{IsValidPdl, IsValidOnSome};
ghost use Rattle.ram_dds.specs.Dds.{dds_of};
ghost use Rattle.ram_slip.specs.Roles.{HasRole, HasTurn, SharesPool};

use crate::entries::count_before;
use crate::role::Role;
use ram_dds::DdsPdl;
use ram_zones::{Geometry, LayoutKind};

/// How many blocks the lead-in has: the first zone begins after it.
const LEAD_IN_BLOCKS: u32 = 8;

/// How many blocks of each zone are guards, which are never used.
const GUARDS: u32 = 2;

/// How many logical blocks a zone has: its data blocks without its spares.
///
/// # Clauses
///
/// - `count`, `first`: with a group of spares in each zone: how many logical blocks a zone has, and the number of the first.
pub fn zone_count(geometry: &Geometry, zone: u32) -> u32
    requires each { geometry.now.layout ≡ EachZone }
    requires zone { zone < geometry.now.zones }
    ensures count { result ≡ zone_count geometry.now zone }
    ensures small { result ≤ 147008 }
{
    let start = geometry.zone_start(zone);
    geometry.zone_start(zone + 1) - start - GUARDS - geometry.psa()
}

/// The number of the first logical block of a zone; or, after the last zone, the number of all logical blocks.
///
/// # Clauses
///
/// - `count`, `first`: with a group of spares in each zone: how many logical blocks a zone has, and the number of the first.
pub fn zone_first(geometry: &Geometry, zone: u32) -> u32
    requires each { geometry.now.layout ≡ EachZone }
    requires zone { zone ≤ geometry.now.zones }
    ensures first { result ≡ zone_first geometry.now zone }
    ensures small { result ≤ 147008 }
{
    geometry.zone_start(zone) - LEAD_IN_BLOCKS - GUARDS * zone - zone * geometry.psa()
}

/// How many blocks of the zones before this one are not slipped.
fn kept_before(geometry: &Geometry, dds: &DdsPdl, zone: u32) -> u32
    requires valid { IsValidPdl geometry.now (dds_of dds.now) }
    requires zone { zone < geometry.now.zones }
    ensures { result ≡ length (zones_unslipped geometry.now (dds_of dds.now) zone) }
{
    let start = geometry.zone_start(zone);
    let slipped = count_before(dds.entries.as_slice(), start + 1);
    start - LEAD_IN_BLOCKS - GUARDS * zone - slipped as u32
}

/// What a block that is not slipped is, by where it stands among all such blocks.
pub fn role_in_zone(geometry: &Geometry, dds: &DdsPdl, ssa: u32, place: u32, block: u32) -> Role
    requires each { geometry.now.layout ≡ EachZone }
    requires valid { IsValidPdl geometry.now (dds_of dds.now) }
    requires area { IsValidOnSome geometry.now ssa }
    requires at { slice_get (unslipped geometry.now (dds_of dds.now)) place ≡ Some block }
    ensures { HasRole geometry.now (dds_of dds.now) ssa block result }
{
    let Some(zone) = geometry.zone_of(block) else {
        return Role::Outside;
    };
    let j = place - kept_before(geometry, dds, zone);
    if j < zone_count(geometry, zone) {
        return Role::Logical {
            i: zone_first(geometry, zone) + j,
        };
    }
    Role::Primary
}

/// The turn of such a block, or none where it is no spare. The spares of the zones before come first.
pub fn turn_in_zone(
    geometry: &Geometry,
    dds: &DdsPdl,
    ssa: u32,
    place: u32,
    block: u32,
) -> Option<u32>
    requires each { geometry.now.layout ≡ EachZone }
    requires valid { IsValidPdl geometry.now (dds_of dds.now) }
    requires area { IsValidOnSome geometry.now ssa }
    requires at { slice_get (unslipped geometry.now (dds_of dds.now)) place ≡ Some block }
    ensures { HasTurn geometry.now (dds_of dds.now) ssa block result }
{
    let Some(zone) = geometry.zone_of(block) else {
        return None;
    };
    if place - kept_before(geometry, dds, zone) < zone_count(geometry, zone) {
        return None;
    }
    Some(place - zone_first(geometry, zone + 1))
}

/// Whether a spare may replace a block by where they lie: with a group of spares in each zone both lie in one zone.
///
/// # Clauses
///
/// - exactly whether a spare may replace a block by where they lie: with a group in each zone both lie in one zone.
///
/// # Answers
///
/// - `true`, `false`: `true` exactly when the spare may replace the block by where they lie. (`SharesPool`)
pub fn shares_pool(geometry: &Geometry, block: u32, spare: u32) -> bool
    ensures { IsTrue result ↔ SharesPool geometry.now block spare }
{
    match geometry.layout() {
        LayoutKind::OneGroup => true,
        LayoutKind::EachZone => geometry.zone_of(block) == geometry.zone_of(spare),
    }
}
