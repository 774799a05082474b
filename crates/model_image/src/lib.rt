//! The bytes of a disc image, and the cells that they stand for. Definitions, and their laws.
#![tactic(auto)]

ghost use Rattle.std.specs.Prelude.{◌≡◌, ℕ, List};
ghost use Rattle.model_geometry.specs.Geometry.{Shape, total};
ghost use Rattle.model_medium.specs.Cells.{AreWhole};
ghost use Rattle.model_image.specs.Cells.{cells_of};
ghost use Rattle.model_image.specs.Image.{HasHeader, IsDiscImage};

/// Bytes are the image of a disc of one geometry of each kind of layout.
pub fn an_image_has_one_geometry()
    ensures { (a b : Shape) (bytes : List ℕ) → a.layout ≡ b.layout → HasHeader a bytes → HasHeader b bytes → a ≡ b }
{}

/// The good cells of a disc image have the bytes of whole blocks.
pub fn cells_of_an_image_are_whole()
    ensures { (shape : Shape) (bytes : List ℕ) → IsDiscImage shape bytes → AreWhole (cells_of (total shape) bytes) }
{}
