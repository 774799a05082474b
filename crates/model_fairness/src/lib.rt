//! That a drive gives up dead blocks alone. A definition, and its laws.
#![tactic(auto)]

mod drives;

ghost use Rattle.std.specs.Prelude.{◌≡◌, ℕ, List};
ghost use Rattle.model_geometry.specs.Geometry.{Shape};
ghost use Rattle.model_lists.specs.declared.dds.PdlEntry.{PdlEntry};
ghost use Rattle.model_medium.specs.Cells.{Cell, Dead, cell_at};
ghost use Rattle.model_places.specs.Places.{Lists};
ghost use Rattle.model_volume.specs.Expansions.{lists_expanded};
ghost use Rattle.model_formats.specs.Fresh.{fresh_lists};
ghost use Rattle.model_drive.specs.Course.{Placing, WentTo, lists_placed};
ghost use Rattle.model_fairness.specs.Fair.{IsFair};

pub use drives::{
    a_blank_disc_gives_up_none, a_drive_gives_up_dead_blocks_alone,
    no_spare_means_that_none_is_left,
};

/// A disc that the drive formatted is fair, and stays fair: a block is listed only after its home, or the spare that was
/// tried, is dead.
pub fn a_fair_disc_stays_fair()
    ensures formatted { (shape : Shape) (cells : List Cell) (mark : ℕ) (entries : List PdlEntry)
        → IsFair cells (fresh_lists shape mark entries) }
    ensures written { (shape : Shape) (cells : List Cell) (lists : Lists) → IsFair cells lists
        → (i : ℕ) (placing : Placing) → WentTo shape cells lists i placing
        → IsFair cells (lists_placed shape lists i placing) }
    ensures expanded { (shape : Shape) (cells : List Cell) (lists : Lists) → IsFair cells lists → (ssa : ℕ)
        → IsFair cells (lists_expanded shape lists ssa) }
    ensures later { (old new : List Cell) (lists : Lists)
        → ((block : ℕ) → cell_at old block ≡ Dead → cell_at new block ≡ Dead)
        → IsFair old lists → IsFair new lists }
{}
