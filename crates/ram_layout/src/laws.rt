//! What follows for slipping by a table.

ghost use Rattle.std.specs.Prelude.{◌≡◌, ℕ};
ghost use Rattle.model_geometry.specs.declared.kinds.LayoutKind.TheVariants.{OneGroup};
ghost use Rattle.model_geometry.specs.Geometry.{Shape};
ghost use Rattle.model_lists.specs.Values.{Dds};
ghost use Rattle.model_places.specs.Places.{count_of, pools_of};
ghost use Rattle.model_places.specs.Valid.{IsValidPdl, IsValidOnSome};
ghost use Rattle.ram_layout.specs.Slipping.{SlipTable, IsSlippingOf, slip_pools};

/// The pools of a table are those of its disc.
///
/// # Clauses
///
/// - the pools of a table are those that `model_places` gives to a disc with the structure and the given number of supplementary
///   spares.
pub fn a_table_has_the_pools_of_its_disc()
    ensures { (shape : Shape) (dds : Dds) (ssa : ℕ) (table : SlipTable) → shape.layout ≡ OneGroup
        → IsValidPdl shape dds
        → IsValidOnSome shape ssa
        → IsSlippingOf shape dds (count_of shape ssa) table
        → slip_pools table ≡ pools_of shape dds ssa }
{}
