//! The lines of the logical blocks whose home has no whole bytes.

ghost use Rattle.std.specs.Prelude.{◌≡◌, ◌+◌, ◌*◌, ◌<◌, ◌≤◌, IsTrue, MatchResult};
ghost use Rattle.model_geometry.specs.Geometry.{total};
ghost use Rattle.model_places.specs.Places.{pools_under, logical_count};
ghost use Rattle.model_places.specs.Valid.{AreValid};
ghost use Rattle.ram_groups.specs.Layouts.{layout_pools};
ghost use Rattle.ram_image.specs.Medium.{shape_of_medium, world_of, bytes_in};
ghost use Rattle.ram_lists.specs.Lists.{lists_of};
ghost use Rattle.ram_audit.specs.declared.telling.TheConstants.{TEXT_ROOM};
ghost use Rattle.ram_audit.specs.Leaving.{IsUnarmed, LooksOn, FailsLooking};
ghost use Rattle.ram_audit.specs.Telling.{AddsHome, AddsLost, bytes_of};

use crate::lines::Lines;
use crate::looking::{ImageFailed, is_good_here};
use model_audit::CertificateLine;
use ram_groups::AnyLayout;
use ram_image::ImageMedium;
use ram_layout::Layout;
use ram_lists::Lists;
use ram_outside::Image;
use ram_spare::home;
use ram_zones::Geometry;

/// Adds the line of a logical block with this home, if it is lost.
fn tell_home<I: Image>(
    lines: &mut Lines,
    medium: &mut ImageMedium<I>,
    home: u32,
    i: u32,
) -> Result<(), ImageFailed>
    requires fits { bytes_of lines.old + 16 ≤ TEXT_ROOM }
    requires number { i < 146930 }
    requires inside { home < total (shape_of_medium medium.old) }
    requires unarmed { IsUnarmed medium.old }
    ensures rule { MatchResult result
        (λ done. LooksOn medium.old medium.new
        × AddsHome lines.old lines.new (shape_of_medium medium.old) (bytes_in medium.old) home i)
        (λ failed. FailsLooking medium.old medium.new) }
    ensures len { bytes_of lines.new ≤ bytes_of lines.old + 16 }
{
    if !is_good_here(medium, home)? {
        lines.push(CertificateLine::Lost { lba: 16 * i });
    }
    Ok(())
}

/// Adds the lines of all logical blocks that are lost, rising.
pub fn tell_homes<I: Image>(
    lines: &mut Lines,
    medium: &mut ImageMedium<I>,
    geometry: &Geometry,
    lists: &Lists,
    layout: &AnyLayout,
) -> Result<(), ImageFailed>
    requires fits { bytes_of lines.old + 2350880 ≤ TEXT_ROOM }
    requires valid { AreValid geometry.now (lists_of lists.now) }
    requires pools { layout_pools layout.now ≡ pools_under geometry.now (lists_of lists.now) }
    requires size { total (shape_of_medium medium.old) ≡ total geometry.now }
    requires unarmed { IsUnarmed medium.old }
    ensures rule { MatchResult result
        (λ done. LooksOn medium.old medium.new
        × AddsLost lines.old lines.new geometry.now (bytes_in medium.old) (lists_of lists.now)
        (logical_count geometry.now (lists_of lists.now)))
        (λ failed. FailsLooking medium.old medium.new) }
    ensures len { bytes_of lines.new ≤ bytes_of lines.old + 2350880 }
{
    let _most = geometry.data_blocks();
    for i in 0..layout.logical() {
        let home = home(layout, &lists.sdl, i);
        tell_home(lines, medium, home, i)?;
    }
    Ok(())
}
