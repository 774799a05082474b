//! The secondary list of a move, made in a list of its own: the one in use is not changed.

ghost use Rattle.std.specs.Prelude.{◌≡◌, ℕ, ◌<◌, ◌≤◌, ◌⊎◌, length};
ghost use Rattle.std.specs.List.{Contains};
ghost use Rattle.std.specs.List.Sorted.{IsStrictlyIncreasing};
ghost use Rattle.model_geometry.specs.Geometry.{data_blocks};
ghost use Rattle.model_lists.specs.Values.{IsLawfulSdl, most_of, defectives, with_entry, retired};
ghost use Rattle.model_pools.specs.Pools.{ArePools, AreValidUnder, all_in, logical_in, spares_in, spares_at, spares_for, is_unnamed, free_at, free_in, home_in};
ghost use Rattle.model_pools.specs.Moves.{with_retired, tried_of, former, sdl_moved_in};
ghost use Rattle.model_drive.specs.declared.TheConstants.{LAST_COUNTER};
ghost use Rattle.ram_sdl.specs.Sdl.{sdl_of};
ghost use Rattle.ram_spare.specs.Turns.{AreUsed};
ghost use Rattle.ram_replace.specs.Spares.{StandsAt};

use crate::spares::Found;
use ram_layout::Layout;
use ram_sdl::{Sdl, SdlEntry};
use ram_spare::free_from;
use ram_zones::Geometry;

/// Retires a spare.
fn retire(list: &mut Sdl, spare: u32)
    requires rise { IsStrictlyIncreasing (defectives list.old.entries) }
    requires room { (length list.old.entries < 8184) ⊎ Contains (defectives list.old.entries) spare }
    ensures value { sdl_of list.new ≡ record (sdl_of list.old) {
      entries = with_entry (retired spare) list.old.entries;
    } }
    ensures rise { IsStrictlyIncreasing (defectives list.new.entries) }
{
    list.set(SdlEntry {
        defective: spare,
        replacement: None,
    });
}

/// Retires the first n of the free spares of a pool. Before the turn `first` no spare is free.
fn retire_tried<L: Layout>(
    layout: &L,
    sdl: &Sdl,
    draft: &mut Sdl,
    pool: u32,
    first: u32,
    tried: u32,
)
    requires pool { pool < length (L.pools layout.now) }
    requires rise { IsStrictlyIncreasing (defectives sdl.now.entries) }
    requires first { AreUsed (is_unnamed sdl.now.entries) (spares_at (L.pools layout.now) pool) 0 first }
    requires few { tried ≤ length (free_at (L.pools layout.now) sdl.now.entries pool) }
    requires same { draft.old.entries ≡ sdl.now.entries }
    requires room { (k : ℕ) → k ≤ tried → length (with_retired
        (tried_of (free_at (L.pools layout.now) sdl.now.entries pool) k) sdl.now.entries)
        ≤ 8184 }
    ensures value { sdl_of draft.new ≡ record (sdl_of draft.old) {
      entries = with_retired (tried_of (free_at (L.pools layout.now) sdl.now.entries pool) tried)
          sdl.now.entries;
    } }
    ensures rise { IsStrictlyIncreasing (defectives draft.new.entries) }
{
    let mut turn = first;
    for _ in 0..tried {
        let Some(free) = free_from(layout, sdl, pool, turn) else {
            unreachable!();
        };
        retire(draft, free.block);
        turn = free.turn + 1;
    }
}

/// Retires the former replacement of a block, where it had one.
fn retire_former(draft: &mut Sdl, own: u32, home: u32)
    requires rise { IsStrictlyIncreasing (defectives draft.old.entries) }
    requires room { length (with_retired (former own home) draft.old.entries) ≤ 8184 }
    ensures value { sdl_of draft.new ≡ record (sdl_of draft.old) {
      entries = with_retired (former own home) draft.old.entries;
    } }
{
    if home != own {
        retire(draft, home);
    }
}

/// Makes the secondary list under which logical block `i`, which was at `home`, is at the spare: the counter is one greater, the spares that
/// failed are retired, the block has its pair with the spare, and its former replacement is retired. In this order each
/// step is a valid list, so the entries are never more than there is room for. Before the turn `first` no spare is free.
pub fn draft_moved<L: Layout>(
    geometry: &Geometry,
    layout: &L,
    sdl: &Sdl,
    draft: &mut Sdl,
    i: u32,
    home: u32,
    first: u32,
    found: Found,
)
    requires pools { ArePools (L.pools layout.now) }
    requires valid { AreValidUnder (L.pools layout.now) sdl.now.entries }
    requires blocks { (block : ℕ) → Contains (all_in (L.pools layout.now)) block
        → Contains (data_blocks geometry.now) block }
    requires most { length (spares_in (L.pools layout.now)) ≤ most_of sdl.now.version }
    requires lawful { IsLawfulSdl (sdl_of sdl.now) }
    requires inside { i < length (logical_in (L.pools layout.now)) }
    requires home { home ≡ home_in (L.pools layout.now) sdl.now.entries i }
    requires first { AreUsed (is_unnamed sdl.now.entries) (spares_for (L.pools layout.now) i) 0 first }
    requires stands { StandsAt (free_in (L.pools layout.now) sdl.now.entries i) found }
    requires counter { sdl.now.counter < LAST_COUNTER }
    ensures value { sdl_of draft.new ≡ sdl_moved_in (L.pools layout.now) (sdl_of sdl.now) i
        (tried_of (free_in (L.pools layout.now) sdl.now.entries i) found.tried) found.spare }
    ensures lawful { IsLawfulSdl (sdl_of draft.new) }
{
    // A geometry that tells its size is lawful, so each block has a number that a list can hold.
    let _total = geometry.total();
    let own = layout.physical(i);
    let pool = layout.pool_of(i);
    draft.copy_from(sdl);
    draft.counter += 1;
    retire_tried(layout, sdl, draft, pool, first, found.tried);
    draft.set(SdlEntry {
        defective: own,
        replacement: Some(found.spare),
    });
    retire_former(draft, own, home);
}
