//! The header of an image, both ways, and the image's length.

ghost use Rattle.std.specs.Prelude.{◌≡◌, MatchOption};
ghost use Rattle.model_geometry.specs.Geometry.{Shape, IsLawful, total};
ghost use Rattle.model_image.specs.Cells.{image_len};
ghost use Rattle.model_image.specs.Image.{header_of};

use crate::geometries::geometry_in;
use ram_bytes::{BLOCK_BYTES, get_u16, put_u16};
use ram_zones::{Geometry, LayoutKind};

/// How many bytes the header of an image has.
pub const HEADER_BYTES: usize = 16;

/// The text at the start of a header.
const TEXT: &[u8; 8] = b"DVDRAM01";

/// Where the number of zones, the scale and the number of primary spares stand, two bytes each.
const ZONES_AT: usize = 8;

const SCALE_AT: usize = 10;

const SPARES_AT: usize = 12;

/// The header of an image of this geometry.
pub fn header(geometry: &Geometry) -> [u8; 16]
    ensures { result ≡ header_of geometry.now }
{
    let spares = geometry.psa();
    let mut header = [0u8; HEADER_BYTES];
    header[..ZONES_AT].copy_from_slice(TEXT);
    put_u16(&mut header, ZONES_AT, geometry.zones() as u16);
    put_u16(&mut header, SCALE_AT, geometry.scale() as u16);
    put_u16(&mut header, SPARES_AT, spares as u16);
    header
}

/// The geometry with a layout of this kind of which this is the header.
///
/// # Answers
///
/// - `Some`, `None`: the lawful geometry of which this is the header; `None` exactly when there is none. (clause)
pub fn geometry_of(bytes: &[u8; 16], kind: LayoutKind) -> Option<Geometry>
    ensures { MatchOption result
        ((shape : Shape) → shape.layout ≡ kind → IsLawful shape → bytes.now ≡ header_of shape → ⊥)
        (λ geometry. (geometry.layout ≡ kind) × IsLawful geometry × (bytes.now ≡ header_of geometry)) }
{
    let zones = u32::from(get_u16(bytes, ZONES_AT));
    let scale = u32::from(get_u16(bytes, SCALE_AT));
    let spares = u32::from(get_u16(bytes, SPARES_AT));
    let Some(geometry) = geometry_in(kind, zones, scale, spares) else {
        return None;
    };
    if header(&geometry) == *bytes {
        Some(geometry)
    } else {
        None
    }
}

/// How many bytes an image of this geometry has.
pub fn image_len(geometry: &Geometry) -> u64
    ensures bytes { result ≡ image_len (total geometry.now) }
    ensures lawful { IsLawful geometry.now }
{
    let blocks = u64::from(geometry.total());
    HEADER_BYTES as u64 + blocks + BLOCK_BYTES as u64 * blocks
}
