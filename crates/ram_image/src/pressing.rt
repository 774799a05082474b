//! Pressing an image: all of its bytes are made anew.

ghost use Rattle.std.specs.Prelude.{◌≡◌};
ghost use Rattle.ram_image.specs.Press.{PressRule};

use crate::header::{header, image_len};
use ram_outside::{Image, Moved};
use ram_zones::Geometry;

/// The answer of [`press`].
#[derive(Clone, Copy, Debug, PartialEq, Eq)]
pub enum PressOut {
    /// The image is that of a new disc.
    Done,
    /// The image failed, and counted it.
    Failed,
}

/// Makes the image anew: a disc of this geometry with blank cells. Its length is set to 0, then to the full number,
/// and then the header is written.
///
/// # Clauses
///
/// - `PressRule`: `Done`: whatever the image had before, it is now exactly the header and zeros (`pressed_image`), so all its
///   cells are blank. `Failed`: its count rose; it is as before, or no disc's, or has blank cells alone.
///
/// # Answers
///
/// - `Done`: the image was made anew. Then: it is the header and zeros: a disc of this geometry with blank cells.
///   (`PressesImage`)
/// - `Failed`: the image counted a failure. Then: it is as before, or, where it is a disc image, all its cells are blank.
///   (`IsStoppedPress`)
pub fn press<I: Image>(image: &mut I, geometry: &Geometry) -> PressOut
    ensures { PressRule I.Image image.old image.new geometry.now result }
{
    let len = image_len(geometry);
    let header = header(geometry);
    match image.set_len(0) {
        Moved::Failed => return PressOut::Failed,
        Moved::Done => {}
    }
    match image.set_len(len) {
        Moved::Failed => return PressOut::Failed,
        Moved::Done => {}
    }
    match image.write_at(0, &header) {
        Moved::Failed => PressOut::Failed,
        Moved::Done => PressOut::Done,
    }
}
