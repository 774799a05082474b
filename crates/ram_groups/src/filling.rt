//! The table of the data blocks that are not slipped, with the place where each zone begins.

ghost use Rattle.std.specs.Prelude.{◌≡◌, ◌+◌, ◌≤◌, ◌<◌, ◌++◌, ◌∷◌, [], length, vec_len, vec_capacity};
ghost use Rattle.std.specs.List.Sorted.{IsStrictlyIncreasing};
ghost use Rattle.model_geometry.specs.Geometry.{data_blocks};
ghost use Rattle.model_lists.specs.Values.{pdl_blocks};
ghost use Rattle.ram_groups.specs.Zoning.{AreStarts};
ghost use Rattle.ram_layout.specs.Filling.{kept_in};
ghost use Rattle.ram_runs.specs.Runs.{blocks_in, IsTable, end_of};

use model_lists::PdlEntry;
use ram_layout::{Run, put_zone};
use ram_runs::count_in;
use ram_zones::Geometry;

/// Puts a number behind the others. There is room for it.
fn put_start(starts: &mut Vec<u32>, start: u32)
    requires { vec_len starts.old < vec_capacity starts.old }
    ensures items { starts.new.items ≡ starts.old.items ++ (start ∷ []) }
    ensures len { vec_len starts.new ≡ vec_len starts.old + 1 }
    ensures room { vec_capacity starts.old ≤ vec_capacity starts.new }
{
    match starts.push(start) {
        Ok(()) => {}
        Err(_) => unreachable!(),
    }
}

/// Makes the table of the data blocks that are not slipped, and of the places where the zones begin in it, with its end as the
/// last. The entries rise, and there is room for their runs and for all places.
pub fn fill_zones(
    runs: &mut Vec<Run>,
    starts: &mut Vec<u32>,
    geometry: &Geometry,
    slipped: &[PdlEntry],
)
    requires rise { IsStrictlyIncreasing (pdl_blocks slipped.now) }
    requires room { geometry.now.zones + length slipped.now ≤ vec_capacity runs.old }
    requires starts { geometry.now.zones < vec_capacity starts.old }
    ensures table { IsTable runs.new.items }
    ensures blocks { blocks_in runs.new.items ≡ kept_in (pdl_blocks slipped.now) (data_blocks geometry.now) }
    ensures small { end_of 0 runs.new.items ≤ 147016 }
    ensures starts { AreStarts geometry.now (pdl_blocks slipped.now) (geometry.now.zones + 1) starts.new.items }
    ensures room { vec_capacity runs.old ≤ vec_capacity runs.new }
    ensures starts_room { vec_capacity starts.old ≤ vec_capacity starts.new }
{
    runs.clear();
    starts.clear();
    let _total = geometry.total();
    let mut passed = 0usize;
    for zone in 0..geometry.zones() {
        put_start(starts, count_in(runs.as_slice()));
        passed = put_zone(runs, geometry, slipped, zone, passed);
    }
    put_start(starts, count_in(runs.as_slice()));
}
