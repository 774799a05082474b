//! How many spares are free.

ghost use Rattle.std.specs.Prelude.{◌≡◌, unwrap_or};
ghost use Rattle.model_places.specs.Places.{free_primary_count, free_supplementary_count};
ghost use Rattle.model_places.specs.Valid.{AreValid};
ghost use Rattle.ram_spare.specs.Spares.{both_lists};

use model_lists::SdlEntry;
use ram_dds::DdsPdl;
use ram_sdl::Sdl;
use ram_slip::{Role, primary_left, role_of};
use ram_zones::Geometry;

/// How many spares are free, in each of the two areas.
#[derive(Clone, Copy, Debug, PartialEq, Eq)]
pub struct SpareCounts {
    /// How many primary spares, at most 4,092.
    pub free_primary: u32,
    /// How many supplementary spares, at most 4,092 with the primary ones under version 1, and 8,184 under version 2.
    pub free_supplementary: u32,
}

/// The spare that an entry uses up: the replacement, or else the block itself, which is a spare then.
fn used_by(entry: SdlEntry) -> u32
    ensures { result ≡ unwrap_or entry.replacement entry.defective }
{
    match entry.replacement {
        Some(spare) => spare,
        None => entry.defective,
    }
}

/// How many spares are free. Each entry uses one up, so one pass over the entries tells.
///
/// # Clauses
///
/// - `primary`, `supplementary`: how many spares of each area are free; with a group of spares in each zone all count as primary
///   ones.
pub fn counts(geometry: &Geometry, dds: &DdsPdl, sdl: &Sdl) -> SpareCounts
    requires { AreValid geometry.now (both_lists dds.now sdl.now) }
    ensures primary { result.free_primary
        ≡ free_primary_count geometry.now (both_lists dds.now sdl.now) }
    ensures supplementary { result.free_supplementary
        ≡ free_supplementary_count geometry.now (both_lists dds.now sdl.now) }
{
    let mut free = SpareCounts {
        free_primary: primary_left(geometry, dds),
        free_supplementary: sdl.ssa,
    };
    for entry in sdl.entries.as_slice() {
        match role_of(geometry, dds, sdl.ssa, used_by(*entry)) {
            Role::Primary => free.free_primary -= 1,
            Role::Supplementary => free.free_supplementary -= 1,
            Role::Logical { i: _ } => {}
            Role::Slipped => {}
            Role::Outside => {}
        }
    }
    free
}
