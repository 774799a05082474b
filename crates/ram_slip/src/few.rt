//! Whether blocks are few enough to be slipped, by the kind of the layout.

ghost use Rattle.std.specs.Prelude.{◌≡◌, ◌↔◌, ℕ, ◌<◌, ◌≤◌, IsTrue};
ghost use Rattle.model_geometry.specs.Geometry.{is_inside};
ghost use Rattle.model_lists.specs.Values.{pdl_blocks};
ghost use Rattle.model_places.specs.Valid.{SlipsFew, slipped_in};

use ram_dds::PdlEntry;
use ram_zones::{Geometry, LayoutKind};

/// Whether the block is a data block of this zone.
///
/// # Clauses
///
/// - whether a block is a data block of a zone, and how many of the slipped ones are.
///
/// # Answers
///
/// - `true`, `false`: `true` exactly when the block is a data block of the zone. (clause)
pub fn is_inside(geometry: &Geometry, zone: u32, block: u32) -> bool
    requires { zone < geometry.now.zones }
    ensures { result ≡ is_inside geometry.now block zone }
{
    geometry.zone_start(zone) < block && block < geometry.zone_start(zone + 1) - 1
}

/// How many of the entries name data blocks of this zone.
///
/// # Clauses
///
/// - whether a block is a data block of a zone, and how many of the slipped ones are.
pub fn slipped_in(geometry: &Geometry, entries: &[PdlEntry], zone: u32) -> usize
    requires { zone < geometry.now.zones }
    ensures { result ≡ slipped_in geometry.now (pdl_blocks entries.now) zone }
{
    let mut count = 0usize;
    for k in 0..entries.len() {
        if is_inside(geometry, zone, entries[k].block) {
            count += 1;
        }
    }
    count
}

/// Whether each zone has no more of the entries than n.
fn zones_have_few(geometry: &Geometry, entries: &[PdlEntry], most: u32) -> bool
    ensures { IsTrue result ↔ ((zone : ℕ) → zone < geometry.now.zones
        → slipped_in geometry.now (pdl_blocks entries.now) zone ≤ most) }
{
    for zone in 0..geometry.zones() {
        if (most as usize) < slipped_in(geometry, entries, zone) {
            return false;
        }
    }
    true
}

/// Whether no more blocks are named than may be slipped: in all, or in each zone.
///
/// # Clauses
///
/// - exactly whether no more blocks are named than may be slipped: in all, or in each zone.
///
/// # Answers
///
/// - `true`, `false`: `true` exactly when no more blocks are named than may be slipped: in all, or in each zone. (`SlipsFew`)
pub fn slips_few(geometry: &Geometry, entries: &[PdlEntry]) -> bool
    ensures { IsTrue result ↔ SlipsFew geometry.now (pdl_blocks entries.now) }
{
    let psa = geometry.psa();
    match geometry.layout() {
        LayoutKind::OneGroup => entries.len() <= psa as usize,
        LayoutKind::EachZone => zones_have_few(geometry, entries, psa),
    }
}
