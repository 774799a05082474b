//! Opening an image that is there. It reads the image, and changes none of its bytes.

ghost use Rattle.std.specs.Prelude.{◌≡◌, ◌≤◌, MatchResult, IfSome, length, take};
ghost use Rattle.ram_image.specs.Opening.{HeaderRule, IsOpened, IsRefused};

use crate::header::{HEADER_BYTES, geometry_of, image_len};
use crate::medium::{ImageMedium, MediumRooms};
use ram_outside::{Image, Length, Moved};
use ram_zones::{Geometry, LayoutKind};
use thiserror::Error;

/// Why an image was not opened.
#[derive(Clone, Copy, Debug, PartialEq, Eq, Error)]
pub enum OpenFault {
    /// It has a header's bytes at its front, and they are no disc's with a layout of the kind that was asked for.
    #[error("the image does not begin with the header of a disc")]
    Header,
    /// It has fewer bytes than a header, or not those that go with its header.
    #[error("an image of {len} bytes is no disc")]
    Length { len: u64 },
    /// It failed, and counted it.
    #[error("the image failed")]
    Fault,
}

/// An image that was not opened, the memory that was to be used for it, and why.
pub struct Refused<I, R> {
    /// The image, with the bytes that it had.
    pub image: I,
    /// The memory.
    pub rooms: R,
    /// Why the image was not opened.
    pub fault: OpenFault,
}

/// What stands at the start of an image.
enum HeaderFound {
    Bytes { len: u64, header: [u8; 16] },
    Short { len: u64 },
    Failed,
}

/// Opens an image as the medium of a disc with a layout of this kind. The power is off. Where the image is refused it is handed
/// back as it was, with the memory.
///
/// # Clauses
///
/// - `IsOpened`: opened: the bytes are those of a disc with a layout of the kind that is asked for, and the medium shows that
///   disc's geometry, the label that goes with it, and its cells, with the power off, nothing counted and nothing armed.
/// - `IsRefused`: refused, for its cause: its first 16 bytes, its length, or a failure. The bytes are as before, and so is the
///   count, but for a failure.
///
/// # Answers
///
/// - `Ok`: the bytes are a disc image of the geometry that is given. Then: a medium with its cells; the power is off, nothing is
///   counted or armed. (`IsOpened`)
/// - `Err`: one of the next three. Then: the image is handed back with the bytes that it had, and the memory. (`IsRefused`)
/// - `Header`: it has 16 bytes at least, and the first 16 are no lawful header. Then: no failure is counted. (`IsRefused`)
/// - `Length`: it has fewer than 16 bytes, or a lawful header and another length than goes with it; it says the length. Then: no
///   failure is counted. (`IsRefused`)
/// - `Fault`: the image counted a failure. (`IsRefused`)
pub fn open<I: Image>(
    rooms: MediumRooms,
    image: I,
    kind: LayoutKind,
) -> Result<(ImageMedium<I>, Geometry), Refused<I, MediumRooms>>
    ensures { MatchResult result
        (λ opened. IsOpened image opened.0 kind opened.1)
        (λ refused. IsRefused kind (I.bytes image) (I.bytes refused.image)
        (I.faults image) (I.faults refused.image) refused.fault) }
{
    let mut image = image;
    let fault = match find_header(&mut image) {
        HeaderFound::Failed => OpenFault::Fault,
        HeaderFound::Short { len } => OpenFault::Length { len },
        HeaderFound::Bytes { len, header } => return open_disc(rooms, image, kind, len, &header),
    };
    Err(Refused {
        image,
        rooms,
        fault,
    })
}

/// Reads the header of an image, where it is long enough to have one.
fn find_header<I: Image>(image: &mut I) -> HeaderFound
    ensures { HeaderRule (I.bytes image.old) (I.bytes image.new) (I.faults image.old) (I.faults image.new) result }
{
    let len = match image.len() {
        Length::Failed => return HeaderFound::Failed,
        Length::Is(len) => len,
    };
    if len < HEADER_BYTES as u64 {
        return HeaderFound::Short { len };
    }
    let mut header = [0u8; HEADER_BYTES];
    match image.read_at(0, &mut header) {
        Moved::Failed => HeaderFound::Failed,
        Moved::Done => HeaderFound::Bytes { len, header },
    }
}

/// Opens an image of n bytes with these at its front.
fn open_disc<I: Image>(
    rooms: MediumRooms,
    image: I,
    kind: LayoutKind,
    len: u64,
    header: &[u8; 16],
) -> Result<(ImageMedium<I>, Geometry), Refused<I, MediumRooms>>
    requires { IfSome (I.bytes image)
        (λ held. (len ≡ length held) × (16 ≤ length held) × (header.now ≡ take 16 held)) }
    ensures { MatchResult result
        (λ opened. IsOpened image opened.0 kind opened.1)
        (λ refused. IsRefused kind (I.bytes image) (I.bytes refused.image)
        (I.faults image) (I.faults refused.image) refused.fault) }
{
    let fault = match geometry_of(header, kind) {
        None => OpenFault::Header,
        Some(geometry) if len == image_len(&geometry) => {
            return Ok((ImageMedium::new(image, geometry, rooms), geometry));
        }
        Some(_) => OpenFault::Length { len },
    };
    Err(Refused {
        image,
        rooms,
        fault,
    })
}
