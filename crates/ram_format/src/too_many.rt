//! Whether more blocks are defective than may be slipped, by the kind of the layout.

ghost use Rattle.std.specs.Prelude.{◌≡◌, ◌+◌, ◌<◌, ◌≤◌, length};
ghost use Rattle.model_places.specs.Valid.{slipped_in};
ghost use Rattle.ram_format.specs.TooMany.{TellsTooMany, TellsInAll, TellsZone};

use ram_dds::PdlEntry;
use ram_slip::{is_inside, slipped_in};
use ram_zones::{Geometry, LayoutKind};

/// How many of the blocks are data blocks of this zone.
fn found_in(geometry: &Geometry, found: &[u32], zone: u32) -> usize
    requires { zone < geometry.now.zones }
    ensures { result ≡ slipped_in geometry.now found.now zone }
{
    let mut count = 0usize;
    for k in 0..found.len() {
        if is_inside(geometry, zone, found[k]) {
            count += 1;
        }
    }
    count
}

/// How many of both are data blocks of the first zone where they are more than its spares. None where no zone has n.
fn first_zone_over(geometry: &Geometry, kept: &[PdlEntry], found: &[u32]) -> Option<u32>
    requires few { length kept.now + length found.now ≤ 4294967295 }
    ensures { TellsZone geometry.now kept.now found.now result }
{
    let most = geometry.psa() as usize;
    for zone in 0..geometry.zones() {
        let many = slipped_in(geometry, kept, zone) + found_in(geometry, found, zone);
        if most < many {
            return Some(many as u32);
        }
    }
    None
}

/// How many they are in all where they are more than the spares.
fn all_over(geometry: &Geometry, kept: &[PdlEntry], count: u32) -> Option<u32>
    requires few { length kept.now + count ≤ 4294967295 }
    ensures { TellsInAll geometry.now kept.now count result }
{
    let all = kept.len() as u32 + count;
    if geometry.psa() < all {
        return Some(all);
    }
    None
}

/// How many blocks are told where the kept ones and those that were found are more than may be slipped. `found` are the first of
/// `count` found ones, as many as there was room for.
pub fn too_many(geometry: &Geometry, kept: &[PdlEntry], found: &[u32], count: u32) -> Option<u32>
    requires few { length kept.now + count ≤ 4294967295 }
    requires some { length found.now ≤ count }
    ensures { TellsTooMany geometry.now kept.now found.now count result }
{
    match geometry.layout() {
        LayoutKind::OneGroup => all_over(geometry, kept, count),
        LayoutKind::EachZone => first_zone_over(geometry, kept, found),
    }
}
