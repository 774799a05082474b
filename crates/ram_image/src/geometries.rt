//! Which geometries the image of a disc may have, by the kind of its layout.

ghost use Rattle.std.specs.Prelude.{◌≡◌, MatchOption};
ghost use Rattle.model_geometry.specs.Geometry.{IsLawful, shape_in};

use ram_zones::{Geometry, LayoutKind};

/// The geometry of these numbers with a layout of this kind, where that is within its limits.
///
/// # Clauses
///
/// - the geometry of three numbers with a layout of this kind; none exactly where that is not lawful.
///
/// # Answers
///
/// - `Some`, `None`: the geometry of these numbers, with a layout of this kind; `None` exactly when it is not lawful. (clause)
pub fn geometry_in(kind: LayoutKind, zones: u32, scale: u32, psa: u32) -> Option<Geometry>
    ensures { MatchOption result (¬ IsLawful (shape_in kind zones scale psa))
        (λ geometry. (geometry ≡ shape_in kind zones scale psa) × IsLawful geometry) }
{
    let Ok(geometry) = Geometry::new(zones, scale, psa) else {
        return None;
    };
    match kind {
        LayoutKind::OneGroup => Some(geometry),
        LayoutKind::EachZone => {
            if geometry.fits_zones() {
                Some(geometry.in_zones())
            } else {
                None
            }
        }
    }
}
