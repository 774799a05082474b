//! The zone of a logical block.

ghost use Rattle.std.specs.Prelude.{◌≡◌, ◌+◌, ◌≤◌, ◌<◌};
ghost use Rattle.model_places.specs.Places.{zone_count, zone_first};
ghost use Rattle.ram_groups.specs.Zoning.{IsZoned};

use ram_slip::zone_first;
use ram_zones::Geometry;

/// The zone of logical block `i`, by halving.
pub fn zone_of_number(geometry: &Geometry, i: u32) -> u32
    requires zoned { IsZoned geometry.now }
    requires inside { i < zone_first geometry.now geometry.now.zones }
    ensures inside { result < geometry.now.zones }
    ensures from { zone_first geometry.now result ≤ i }
    ensures before { i < zone_first geometry.now result + zone_count geometry.now result }
{
    let mut zone = 0;
    let mut end = geometry.zones();
    while zone + 1 < end {
        let middle = zone + (end - zone) / 2;
        if zone_first(geometry, middle) <= i {
            zone = middle;
        } else {
            end = middle;
        }
    }
    zone
}
