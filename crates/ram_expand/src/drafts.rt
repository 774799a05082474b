//! The secondary list of an expansion, made in a list of its own: the one in use is not changed.

ghost use Rattle.std.specs.Prelude.{◌≡◌, ◌≤◌, ◌<◌};
ghost use Rattle.model_geometry.specs.Geometry.{IsLawful};
ghost use Rattle.model_lists.specs.Values.{IsLawfulSdl};
ghost use Rattle.model_pools.specs.Listed.{is_listed};
ghost use Rattle.model_pools.specs.Pools.{spares_in};
ghost use Rattle.model_places.specs.Places.{pools_of};
ghost use Rattle.model_places.specs.Valid.{IsValidPdl, IsValidSsa, IsValidOnSome, AreValid};
ghost use Rattle.model_volume.specs.Expansions.{lists_expanded};
ghost use Rattle.model_drive.specs.declared.TheConstants.{LAST_COUNTER};
ghost use Rattle.ram_dds.specs.Dds.{dds_of};
ghost use Rattle.ram_sdl.specs.Sdl.{sdl_of};
ghost use Rattle.ram_lists.specs.Lists.{lists_of};
ghost use Rattle.ram_expand.specs.Drafts.{with_spares_retired};

use ram_dds::DdsPdl;
use ram_lists::Lists;
use ram_sdl::{Sdl, SdlEntry};
use ram_slip::spare_turn;
use ram_zones::Geometry;

/// Whether the block is a spare where the supplementary spare area has this size.
fn is_spare(geometry: &Geometry, dds: &DdsPdl, ssa: u32, block: u32) -> bool
    requires valid { IsValidPdl geometry.now (dds_of dds.now) }
    requires area { IsValidOnSome geometry.now ssa }
    ensures { result ≡ is_listed (spares_in (pools_of geometry.now (dds_of dds.now) ssa)) block }
{
    match spare_turn(geometry, dds, ssa, block) {
        Some(_) => true,
        None => false,
    }
}

/// Retires each defective block that is a spare where the area has this size. Its replacement, where it had one, is free
/// again.
fn retire_spares(geometry: &Geometry, lists: &Lists, draft: &mut Sdl, ssa: u32)
    requires valid { AreValid geometry.now (lists_of lists.now) }
    requires area { IsValidSsa geometry.now lists.now.sdl.version ssa }
    requires same { draft.old.entries ≡ lists.now.sdl.entries }
    ensures value { sdl_of draft.new ≡ record (sdl_of draft.old) {
      entries = with_spares_retired geometry.now (dds_of lists.now.dds) ssa lists.now.sdl.entries;
    } }
{
    for entry in lists.sdl.entries.as_slice() {
        if is_spare(geometry, &lists.dds, ssa, entry.defective) {
            draft.set(SdlEntry {
                defective: entry.defective,
                replacement: None,
            });
        }
    }
}

/// Makes the secondary list with this size of the supplementary spare area: the counter is one greater, each defective
/// block that is a spare then is retired, and every other entry is as before.
pub fn draft_expanded(geometry: &Geometry, lists: &Lists, draft: &mut Sdl, ssa: u32)
    requires shape { IsLawful geometry.now }
    requires valid { AreValid geometry.now (lists_of lists.now) }
    requires lawful { IsLawfulSdl (sdl_of lists.now.sdl) }
    requires area { IsValidSsa geometry.now lists.now.sdl.version ssa }
    requires grows { lists.now.sdl.ssa ≤ ssa }
    requires counter { lists.now.sdl.counter < LAST_COUNTER }
    ensures value { sdl_of draft.new ≡ (lists_expanded geometry.now (lists_of lists.now) ssa).sdl }
    ensures lawful { IsLawfulSdl (sdl_of draft.new) }
{
    draft.copy_from(&lists.sdl);
    draft.counter += 1;
    draft.ssa = ssa;
    retire_spares(geometry, lists, draft, ssa);
}
