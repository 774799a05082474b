//! That a stopped call loses one copy of a list at most, over each call of a drive: a function with an empty body, of which the
//! contract is the law.

ghost use Rattle.std.specs.Prelude.{◌≡◌, ℕ, Bool};
ghost use Rattle.model_lists.specs.declared.versions.Version.{Version};
ghost use Rattle.model_lists.specs.declared.versions.Version.TheVariants.{Two};
ghost use Rattle.model_places.specs.Places.{Lists};
ghost use Rattle.model_stops.specs.declared.Stop.{Stop};
ghost use Rattle.model_survival.specs.Losing.{LosesOneAtMost, HaveOneVersion};
ghost use Rattle.model_drive.specs.Shown.{Shown, IsKnown, cells_in};
ghost use Rattle.model_drive.specs.Power.{StopsInMount};
ghost use Rattle.model_drive.specs.Reads.{StopsInRead};
ghost use Rattle.model_drive.specs.Writes.{StopsInWrite};
ghost use Rattle.model_drive.specs.Expands.{StopsInExpansion};
ghost use Rattle.model_drive.specs.Rewriting.{StopsInRewrite};
ghost use Rattle.model_drive.specs.FullFormats.{StopsInFormat};

/// Wherever a call was stopped, each copy of a list that could be read before it can be read after it, or has a dead cell, but
/// for one of each list at most. So of two copies that could be read one is left, unless the medium failed it
/// (`of_two_copies_one_is_left` of `model_survival`). Of the secondary list it is said of copies of the version that the call
/// writes: a mount that of all copies, where they are of one; a full format the second.
pub fn a_stopped_call_loses_one_copy_at_most()
    ensures mount { (old new : Shown) (stop : Stop) (version : Version) → IsKnown old
        → HaveOneVersion old.shape (cells_in old) version → StopsInMount old new stop
        → LosesOneAtMost old.shape (cells_in old) (cells_in new) version }
    ensures read { (old new : Shown) (lba n most : ℕ) (stop : Stop) (version : Version)
        → StopsInRead old new lba n most stop → LosesOneAtMost old.shape (cells_in old) (cells_in new) version }
    ensures write { (old new : Shown) (lba n : ℕ) (stop : Stop) → IsKnown old
        → (stops : StopsInWrite old new lba n stop)
        → LosesOneAtMost old.shape (cells_in old) (cells_in new) stops.reached.sdl.version }
    ensures expand { (old new : Shown) (sectors : ℕ) (stop : Stop) → IsKnown old
        → (stops : StopsInExpansion old new sectors stop)
        → LosesOneAtMost old.shape (cells_in old) (cells_in new) stops.lists.sdl.version }
    ensures rewrite { (old new : Shown) (lists : Lists) (stop : Stop) → IsKnown old
        → StopsInRewrite old new lists stop
        → LosesOneAtMost old.shape (cells_in old) (cells_in new) lists.sdl.version }
    ensures format { (old new : Shown) (drop_sdl : Bool) (stop : Stop) → IsKnown old
        → StopsInFormat old new drop_sdl stop → LosesOneAtMost old.shape (cells_in old) (cells_in new) Two }
{}
