//! That a formatted disc stays formatted, over each call of a drive but a full format: functions with an empty body, of which the
//! contract is the law.

ghost use Rattle.std.specs.Prelude.{◌≡◌, ℕ, Some, List, [], ◌∷◌};
ghost use Rattle.model_lists.specs.declared.versions.Version.{Version};
ghost use Rattle.model_places.specs.Places.{Lists};
ghost use Rattle.model_sectors.specs.declared.ReadOut.{ReadOut};
ghost use Rattle.model_sectors.specs.declared.PowerOut.{PowerOut};
ghost use Rattle.model_drive.specs.declared.WriteOut.{WriteOut};
ghost use Rattle.model_drive.specs.declared.ExpandOut.{ExpandOut};
ghost use Rattle.model_drive.specs.declared.FormatOut.{FormatOut};
ghost use Rattle.model_drive.specs.declared.Kind.TheVariants as kinds;
ghost use Rattle.model_drive.specs.Shown.{Shown, IsKnown, IsOn, cells_in};
ghost use Rattle.model_drive.specs.Sound.{IsSound};
ghost use Rattle.model_drive.specs.Parts.{AreSameOrDead};
ghost use Rattle.model_drive.specs.Reads.{ReadCause, VerifyCause};
ghost use Rattle.model_drive.specs.Power.{PowerCause};
ghost use Rattle.model_drive.specs.Writes.{WriteCause};
ghost use Rattle.model_drive.specs.Formats.{FormatCause};
ghost use Rattle.model_drive.specs.Expands.{ExpandCause};
ghost use Rattle.model_lasting.specs.Lasting.{KeepsTwoCopies, StaysFormatted, TellsSize, sizes_found, sizes_expanded};

/// A formatted disc stays formatted, whatever a drive is asked but a full format and however that ends, while two copies of each
/// list have no dead cell at the end of each mount: no mount finds it unformatted. Only an expansion changes the size of its area,
/// and so its capacity: to the one that it asks for, where it is good, and to that or none, where it was stopped.
pub fn a_formatted_disc_stays_formatted()
    ensures begins { (shown : Shown) (lists : Lists) → IsSound shown → IsKnown shown → shown.lists ≡ Some lists
        → StaysFormatted shown lists.sdl.version (lists.sdl.ssa ∷ []) }
    ensures power { (old new : Shown) (version : Version) (sizes : List ℕ) (out : PowerOut) → new.shape ≡ old.shape
        → IsSound new → IsKnown old → IsKnown new → StaysFormatted old version sizes → PowerCause old new out
        → KeepsTwoCopies new version
        → StaysFormatted new version (sizes_found old.shape out sizes) × TellsSize old.shape sizes out }
    ensures read { (old new : Shown) (version : Version) (sizes : List ℕ) (lba n : ℕ) (out : ReadOut)
        → new.shape ≡ old.shape
        → IsSound new → IsKnown new → StaysFormatted old version sizes → ReadCause old new lba n out
        → StaysFormatted new version sizes }
    ensures verify { (old new : Shown) (version : Version) (sizes : List ℕ) (lba n : ℕ) (out : ReadOut)
        → new.shape ≡ old.shape
        → IsSound new → IsKnown new → StaysFormatted old version sizes → VerifyCause old new lba n out
        → StaysFormatted new version sizes }
    ensures write { (old new : Shown) (version : Version) (sizes : List ℕ) (lba n : ℕ) (out : WriteOut)
        → new.shape ≡ old.shape
        → IsSound old → IsSound new → IsKnown old → IsKnown new → StaysFormatted old version sizes
        → WriteCause old new lba n out → StaysFormatted new version sizes }
    ensures expand { (old new : Shown) (version : Version) (sizes : List ℕ) (sectors : ℕ) (out : ExpandOut)
        → new.shape ≡ old.shape
        → IsSound old → IsSound new → IsKnown old → IsKnown new → StaysFormatted old version sizes
        → ExpandCause old new sectors out → StaysFormatted new version (sizes_expanded old.shape sectors out sizes) }
    ensures format { (old new : Shown) (version : Version) (sizes : List ℕ) (out : FormatOut) → new.shape ≡ old.shape
        → IsSound old → IsSound new → IsKnown old → IsKnown new → StaysFormatted old version sizes
        → FormatCause old new kinds.Rewrite out → StaysFormatted new version sizes }
    ensures dies { (old new : Shown) (version : Version) (sizes : List ℕ) → new.shape ≡ old.shape
        → (IsOn new → IsOn old)
        → (IsOn new → new.lists ≡ old.lists) → AreSameOrDead (cells_in old) (cells_in new)
        → StaysFormatted old version sizes → StaysFormatted new version sizes }
{}
