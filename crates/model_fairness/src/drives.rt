//! That a drive gives up dead blocks alone, over each of its calls: functions with an empty body, of which the contract is the
//! law.

ghost use Rattle.std.specs.Prelude.{◌≡◌, ℕ, Some, None, List};
ghost use Rattle.std.specs.List.{Contains};
ghost use Rattle.model_pools.specs.Listed.{replacements};
ghost use Rattle.model_places.specs.Places.{Lists, spares_of};
ghost use Rattle.model_geometry.specs.Geometry.{Shape};
ghost use Rattle.model_medium.specs.Cells.{Cell, Dead, cell_at};
ghost use Rattle.model_sectors.specs.Requests.{block_with};
ghost use Rattle.model_sectors.specs.declared.ReadOut.{ReadOut};
ghost use Rattle.model_sectors.specs.declared.PowerOut.{PowerOut};
ghost use Rattle.model_volume.specs.Given.{GivesNone};
ghost use Rattle.model_drive.specs.declared.WriteOut.{WriteOut};
ghost use Rattle.model_drive.specs.declared.ExpandOut.{ExpandOut};
ghost use Rattle.model_drive.specs.declared.FormatOut.{FormatOut};
ghost use Rattle.model_drive.specs.declared.Kind.{Kind};
ghost use Rattle.model_drive.specs.Shown.{Shown, IsKnown, cells_in};
ghost use Rattle.model_drive.specs.Sound.{IsSound};
ghost use Rattle.model_drive.specs.Parts.{AreSameOrDead};
ghost use Rattle.model_drive.specs.Power.{PowerCause};
ghost use Rattle.model_drive.specs.Reads.{ReadCause, VerifyCause};
ghost use Rattle.model_drive.specs.Writes.{WriteCause};
ghost use Rattle.model_drive.specs.Course.{IsUsable};
ghost use Rattle.model_drive.specs.Expands.{ExpandCause};
ghost use Rattle.model_drive.specs.Formats.{FormatCause};
ghost use Rattle.model_fairness.specs.Fair.{GivesUpDeadAlone};

/// A disc that gives no lists gives up no block.
pub fn a_blank_disc_gives_up_none()
    ensures { (shown : Shown) → shown.lists ≡ None → GivesNone shown.shape (cells_in shown)
        → GivesUpDeadAlone shown }
{}

/// Whatever a drive is asked, and however that ends, it gives up dead blocks alone if it did so before; and so it does whatever
/// blocks die.
pub fn a_drive_gives_up_dead_blocks_alone()
    ensures power { (old new : Shown) (out : PowerOut) → new.shape ≡ old.shape
        → IsSound new → IsKnown old → IsKnown new → GivesUpDeadAlone old → PowerCause old new out
        → GivesUpDeadAlone new }
    ensures read { (old new : Shown) (lba n : ℕ) (out : ReadOut) → new.shape ≡ old.shape
        → IsSound new → IsKnown new → GivesUpDeadAlone old → ReadCause old new lba n out → GivesUpDeadAlone new }
    ensures verify { (old new : Shown) (lba n : ℕ) (out : ReadOut) → new.shape ≡ old.shape
        → IsSound new → IsKnown new → GivesUpDeadAlone old → VerifyCause old new lba n out → GivesUpDeadAlone new }
    ensures write { (old new : Shown) (lba n : ℕ) (out : WriteOut) → new.shape ≡ old.shape
        → IsSound new → IsKnown old → IsKnown new → GivesUpDeadAlone old → WriteCause old new lba n out
        → GivesUpDeadAlone new }
    ensures expand { (old new : Shown) (sectors : ℕ) (out : ExpandOut) → new.shape ≡ old.shape
        → IsSound new → IsKnown old → IsKnown new → GivesUpDeadAlone old → ExpandCause old new sectors out
        → GivesUpDeadAlone new }
    ensures format { (old new : Shown) (kind : Kind) (out : FormatOut) → new.shape ≡ old.shape
        → IsSound new → IsKnown old → IsKnown new → GivesUpDeadAlone old → FormatCause old new kind out
        → GivesUpDeadAlone new }
    ensures dies { (old new : Shown) → new.shape ≡ old.shape → new.lists ≡ old.lists
        → AreSameOrDead (cells_in old) (cells_in new) → GivesUpDeadAlone old → GivesUpDeadAlone new }
{}

/// So where no spare can be used for a logical block, each spare that it may go to, and that is the replacement of no block, is dead,
/// also those that the lists gave up.
pub fn no_spare_means_that_none_is_left()
    ensures { (shown : Shown) (i : ℕ) (lists : Lists) → GivesUpDeadAlone shown
        → ((spare : ℕ) → ¬ IsUsable shown i spare) → shown.lists ≡ Some lists → (spare : ℕ)
        → Contains (spares_of shown.shape lists i) spare → ¬ Contains (replacements lists.sdl.entries) spare
        → cell_at (cells_in shown) spare ≡ Dead }
{}
