//! The tests of what the calls of this crate ask for.

ghost use Rattle.std.specs.Prelude.{◌≡◌, ◌↔◌, IsTrue};
ghost use Rattle.std.specs.List.{All, Contains};
ghost use Rattle.std.specs.List.Sorted.{IsStrictlyIncreasing};
ghost use Rattle.model_geometry.specs.Geometry.{IsLawful, data_blocks};
ghost use Rattle.model_lists.specs.Values.{pdl_blocks};
ghost use Rattle.model_places.specs.Valid.{IsValidPdl, IsValidSsa, area_fits_by};
ghost use Rattle.ram_dds.specs.Dds.{dds_of};

use crate::few::slips_few;
use ram_dds::{DdsPdl, PdlEntry, Version};
use ram_zones::{Geometry, LayoutKind};

/// Whether each entry names a data block.
fn are_data(geometry: &Geometry, entries: &[PdlEntry]) -> bool
    ensures { IsTrue result ↔ All (Contains (data_blocks geometry.now)) (pdl_blocks entries.now) }
{
    for entry in entries {
        match geometry.data_index(entry.block) {
            Some(_) => {}
            None => return false,
        }
    }
    true
}

/// Whether each entry names a later block than the one before.
fn rise(entries: &[PdlEntry]) -> bool
    ensures { IsTrue result ↔ IsStrictlyIncreasing (pdl_blocks entries.now) }
{
    for k in 1..entries.len() {
        if entries[k].block <= entries[k - 1].block {
            return false;
        }
    }
    true
}

/// Whether both kinds of layouts are one.
fn is_same(a: LayoutKind, b: LayoutKind) -> bool
    ensures { IsTrue result ↔ (a ≡ b) }
{
    match (a, b) {
        (LayoutKind::OneGroup, LayoutKind::OneGroup) => true,
        (LayoutKind::OneGroup, LayoutKind::EachZone) => false,
        (LayoutKind::EachZone, LayoutKind::OneGroup) => false,
        (LayoutKind::EachZone, LayoutKind::EachZone) => true,
    }
}

/// Whether the primary defect list is valid for the geometry: its structure has the kind of its layout and its primary spares,
/// and its blocks are data blocks that rise, no more than may be slipped.
///
/// # Clauses
///
/// - exactly whether the primary list is valid for the geometry, of the kind of its layout, which these calls ask for.
///
/// # Answers
///
/// - `true`, `false`: `true` exactly when the primary list is valid for the geometry. (`IsValidPdl`)
pub fn is_valid_pdl(geometry: &Geometry, dds: &DdsPdl) -> bool
    ensures { IsTrue result ↔ IsValidPdl geometry.now (dds_of dds.now) }
{
    let entries = dds.entries.as_slice();
    if !is_same(dds.layout, geometry.layout()) {
        return false;
    }
    if dds.psa != geometry.psa() {
        return false;
    }
    if !slips_few(geometry, entries) {
        return false;
    }
    if !rise(entries) {
        return false;
    }
    are_data(geometry, entries)
}

/// Whether the layout may have n supplementary spares.
fn may_have(geometry: &Geometry, ssa: u32) -> bool
    requires lawful { IsLawful geometry.now }
    ensures { IsTrue result ↔ area_fits_by geometry.now.layout geometry.now ssa }
{
    match geometry.layout() {
        LayoutKind::OneGroup => true,
        LayoutKind::EachZone => ssa == 0,
    }
}

/// Whether n supplementary spares are valid: the spares are no more than a disc of this version may have, a logical
/// block is left, and the layout may have them.
///
/// # Clauses
///
/// - exactly whether that number of supplementary spares is valid, which `role_of` and `spare_turn` ask for.
///
/// # Answers
///
/// - `true`, `false`: `true` exactly when this many supplementary spares are valid. (`IsValidSsa`)
pub fn is_valid_ssa(geometry: &Geometry, version: Version, ssa: u32) -> bool
    ensures { IsTrue result ↔ IsValidSsa geometry.now version ssa }
{
    let room = geometry.spare_room();
    if version.most_spares() - room < ssa {
        return false;
    }
    if geometry.data_blocks() - room <= ssa {
        return false;
    }
    may_have(geometry, ssa)
}
