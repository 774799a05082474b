//! What follows for the layout of a disc.

ghost use Rattle.std.specs.Prelude.{◌≡◌, ℕ};
ghost use Rattle.model_geometry.specs.declared.kinds.LayoutKind.TheVariants.{EachZone};
ghost use Rattle.model_geometry.specs.Geometry.{Shape, data_blocks};
ghost use Rattle.model_lists.specs.Values.{Dds};
ghost use Rattle.model_places.specs.Places.{pools_of};
ghost use Rattle.model_places.specs.Valid.{IsValidPdl, IsValidOnSome};
ghost use Rattle.ram_groups.specs.Zoning.{ZoneTable, IsZoningOf, zone_pools};
ghost use Rattle.ram_groups.specs.declared.any_layout.AnyLayout.{AnyLayout};
ghost use Rattle.ram_groups.specs.Layouts.{IsLayoutOf, IsOfKind, MayHave, layout_pools, layout_blocks, with_ssa};

/// The pools of a table of zones are those of its disc.
///
/// # Clauses
///
/// - the pools of a table of zones are those that `model_places` gives to the disc.
pub fn a_table_of_zones_has_the_pools_of_its_disc()
    ensures { (shape : Shape) (dds : Dds) (ssa : ℕ) (table : ZoneTable) → shape.layout ≡ EachZone
        → IsValidOnSome shape ssa → IsZoningOf shape dds table
        → zone_pools table ≡ pools_of shape dds ssa }
{}

/// The pools of a layout are those of its disc, and its data blocks the disc's. It is of the disc's kind. It may have each valid
/// size of the supplementary spare area, and is then the layout with that size.
///
/// # Clauses
///
/// - the same of a layout of either kind (`pools`); its data blocks are those of the disc (`blocks`), it is of the disc's kind
///   (`kind`), has room for each disc of the geometry (`room`), may have each valid supplementary spare area (`may`), and is then
///   the layout with that (`resized`).
pub fn a_layout_has_the_pools_of_its_disc()
    ensures pools { (shape : Shape) (dds : Dds) (ssa : ℕ) (layout : AnyLayout)
        → IsValidPdl shape dds → IsValidOnSome shape ssa → IsLayoutOf shape dds ssa layout
        → layout_pools layout ≡ pools_of shape dds ssa }
    ensures blocks { (shape : Shape) (dds : Dds) (ssa : ℕ) (layout : AnyLayout) → IsLayoutOf shape dds ssa layout
        → layout_blocks layout ≡ data_blocks shape }
    ensures kind { (shape : Shape) (dds : Dds) (ssa : ℕ) (layout : AnyLayout) → IsLayoutOf shape dds ssa layout
        → IsOfKind shape.layout layout }
    ensures may { (shape : Shape) (dds : Dds) (before ssa : ℕ) (layout : AnyLayout)
        → IsValidPdl shape dds → IsValidOnSome shape ssa → IsLayoutOf shape dds before layout
        → MayHave ssa layout }
    ensures resized { (shape : Shape) (dds : Dds) (before ssa : ℕ) (layout : AnyLayout)
        → IsLayoutOf shape dds before layout → IsLayoutOf shape dds ssa (with_ssa ssa layout) }
{}
