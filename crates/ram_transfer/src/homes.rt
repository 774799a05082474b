//! The homes of logical blocks under the lists in use.

ghost use Rattle.std.specs.Prelude.{◌≡◌, ◌<◌};
ghost use Rattle.model_places.specs.Places.{pools_under, logical_count, home_of};
ghost use Rattle.model_places.specs.Valid.{AreValid};
ghost use Rattle.ram_groups.specs.Layouts.{layout_pools};
ghost use Rattle.ram_lists.specs.Lists.{lists_of};

use ram_groups::AnyLayout;
use ram_lists::Lists;
use ram_zones::Geometry;

/// The home of logical block `i` of a disc with this layout: its replacement where it has one, else its own block.
pub fn home(geometry: &Geometry, layout: &AnyLayout, lists: &Lists, i: u32) -> u32
    requires valid { AreValid geometry.now (lists_of lists.now) }
    requires pools { layout_pools layout.now ≡ pools_under geometry.now (lists_of lists.now) }
    requires inside { i < logical_count geometry.now (lists_of lists.now) }
    ensures { result ≡ home_of geometry.now (lists_of lists.now) i }
{
    let _ = geometry;
    ram_spare::home(layout, &lists.sdl, i)
}
