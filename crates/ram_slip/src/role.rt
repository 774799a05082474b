//! What a block is to a disc with a primary defect list.

ghost use Rattle.std.specs.Prelude.{◌≡◌, ℕ};
ghost use Rattle.model_geometry.specs.Geometry.{Shape};
ghost use Rattle.model_lists.specs.Values.{Dds};
ghost use Rattle.model_places.specs.Valid.{IsValidPdl, IsValidOnSome};
ghost use Rattle.ram_slip.specs.declared.role.Role.{Role};
ghost use Rattle.ram_slip.specs.Roles.{HasRole};

/// What a block is to a disc.
#[derive(Clone, Copy, Debug, PartialEq, Eq)]
pub enum Role {
    /// A logical block.
    Logical {
        /// Its number, counted from 0.
        i: u32,
    },
    /// A primary spare.
    Primary,
    /// A supplementary spare.
    Supplementary,
    /// A block of the primary defect list, which is never used.
    Slipped,
    /// No data block.
    Outside,
}

/// A block is one of these things at most, and one logical block at most. So each answer of `role_of` comes exactly
/// where it says what the block is.
///
/// # Clauses
///
/// - a block is one of these at most, and one logical block at most: so each answer of `role_of` comes exactly where it is so.
pub fn a_block_has_one_role()
    ensures { (shape : Shape) (dds : Dds) (ssa block : ℕ) (a b : Role)
        → IsValidPdl shape dds → IsValidOnSome shape ssa
        → HasRole shape dds ssa block a → HasRole shape dds ssa block b → a ≡ b }
{}
