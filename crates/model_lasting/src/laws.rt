//! The laws of what lasts over the calls of a drive: functions with an empty body, of which the contract is the law.

ghost use Rattle.std.specs.Prelude.{◌≡◌, ℕ, ◌⊎◌, Some};
ghost use Rattle.model_lists.specs.Values.{Dds, Sdl};
ghost use Rattle.model_places.specs.Places.{Lists};
ghost use Rattle.model_stops.specs.declared.Stop.{Stop};
ghost use Rattle.model_drive.specs.Shown.{Shown, IsKnown};
ghost use Rattle.model_drive.specs.Sound.{IsSound};
ghost use Rattle.model_drive.specs.Power.{MountsLists, MountsNone, StopsInMount};
ghost use Rattle.model_drive.specs.Reads.{StopsInRead};
ghost use Rattle.model_drive.specs.Expands.{ssa_for, StopsInExpansion};
ghost use Rattle.model_drive.specs.Rewriting.{StopsInRewrite};
ghost use Rattle.model_drive.specs.Writes.{StopsInWrite};
ghost use Rattle.model_lasting.specs.Lasting.{CanBeFound, KeepsTwoCopies};

/// Lists in use can be found.
pub fn lists_in_use_can_be_found()
    ensures { (shown : Shown) (lists : Lists) → IsSound shown → IsKnown shown → shown.lists ≡ Some lists
        → CanBeFound shown lists.dds lists.sdl lists.sdl }
{}

/// Where lists can be found a mount that is not stopped finds the older ones or the newer ones, while two copies of each list
/// have no dead cell; and one that is stopped leaves them so that they can be found.
pub fn a_mount_finds_the_lists()
    ensures ready { (old new : Shown) (dds : Dds) (older newer : Sdl) (known : ℕ) → new.shape ≡ old.shape
        → IsKnown old → CanBeFound old dds older newer → MountsLists old new known
        → (lists : Lists) × (new.lists ≡ Some lists)
        × ((lists ≡ record { dds = dds; sdl = older }) ⊎ (lists ≡ record { dds = dds; sdl = newer })) }
    ensures never_bare { (old new : Shown) (dds : Dds) (older newer : Sdl) → new.shape ≡ old.shape
        → IsKnown old → CanBeFound old dds older newer → KeepsTwoCopies new older.version → MountsNone old new → ⊥ }
    ensures stopped { (old new : Shown) (dds : Dds) (older newer : Sdl) (stop : Stop) → new.shape ≡ old.shape
        → IsKnown old → CanBeFound old dds older newer → StopsInMount old new stop
        → CanBeFound new dds older newer }
{}

/// A call of a drive with lists in use that is stopped leaves lists that can be found: those in use, or those of the last update
/// that it made, or these and those of the update that was stopped.
pub fn stopped_calls_leave_lists_that_can_be_found()
    ensures read { (old new : Shown) (dds : Dds) (older newer : Sdl) (lba n most : ℕ) (stop : Stop)
        → new.shape ≡ old.shape → CanBeFound old dds older newer → StopsInRead old new lba n most stop
        → CanBeFound new dds older newer }
    ensures rewrite { (old new : Shown) (lists : Lists) (stop : Stop) → new.shape ≡ old.shape → IsSound old
        → IsKnown old → old.lists ≡ Some lists → StopsInRewrite old new lists stop
        → CanBeFound new lists.dds lists.sdl lists.sdl }
    ensures expand { (old new : Shown) (sectors : ℕ) (stop : Stop) → new.shape ≡ old.shape → IsSound old
        → IsKnown old → StopsInExpansion old new sectors stop
        → (lists : Lists) × (newer : Sdl) × (old.lists ≡ Some lists) × (newer.ssa ≡ ssa_for old.shape sectors)
        × CanBeFound new lists.dds lists.sdl newer }
    ensures write { (old new : Shown) (lba n : ℕ) (stop : Stop) → new.shape ≡ old.shape → IsSound old
        → IsKnown old → (stops : StopsInWrite old new lba n stop)
        → (newer : Sdl) × (newer.ssa ≡ stops.reached.sdl.ssa)
        × CanBeFound new stops.reached.dds stops.reached.sdl newer }
{}
