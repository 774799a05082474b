//! The laws of survival: functions with an empty body, of which the contract is the law.

ghost use Rattle.std.specs.Prelude.{◌≡◌, ◌≢◌, ℕ, ◌<◌, ◌⊎◌, Option, List};
ghost use Rattle.model_geometry.specs.Geometry.{Shape, dds_block};
ghost use Rattle.model_medium.specs.Cells.{Cell, Dead, IsSameOrDead, cell_at};
ghost use Rattle.model_lists.specs.declared.versions.Version.{Version};
ghost use Rattle.model_lists.specs.Values.{Dds, Sdl};
ghost use Rattle.model_copies.specs.Copies.{IsArea, HasDdsCopy};
ghost use Rattle.model_copies.specs.Parts.{HasSdlCopy};
ghost use Rattle.model_places.specs.Places.{Lists};
ghost use Rattle.model_places.specs.Valid.{AreValid};
ghost use Rattle.model_volume.specs.Given.{IsWholePair, AreChosen, LacksLists, AreSettled, AreSeen, LosesListCells};
ghost use Rattle.model_survival.specs.Stops.{LeavesDds, LeavesSdl, MendsLists, StopsMounting};
ghost use Rattle.model_survival.specs.Findable.{DdsLives, SdlLives, HaveTwoCopies, IsFindable, ListCellsDie};
ghost use Rattle.model_survival.specs.Losing.{LosesOneDds, LosesOneSdl, LosesOneAtMost, HaveOneVersion};

/// Lists that are settled can be found.
pub fn settled_lists_are_findable()
    ensures { (shape : Shape) (cells : List Cell) (lists : Lists) → AreValid shape lists
        → AreSettled shape cells lists → IsFindable shape cells lists.dds lists.sdl lists.sdl }
{}

/// An update of a settled secondary list to one with a greater counter leaves the lists findable, wherever it is stopped.
pub fn a_stopped_update_keeps_a_disc_findable()
    ensures { (shape : Shape) (old new : List Cell) (lists : Lists) (sdl : Sdl) → AreValid shape lists
        → AreValid shape (record { dds = lists.dds; sdl = sdl }) → lists.sdl.counter < sdl.counter
        → AreSettled shape old lists
        → ((area : ℕ) → IsArea area
        → IsSameOrDead (cell_at old (dds_block shape area)) (cell_at new (dds_block shape area)))
        → LeavesSdl shape old new sdl → IsFindable shape new lists.dds lists.sdl sdl }
{}

/// A mount keeps the lists findable, wherever it is stopped; and so does a rewriting format of settled lists.
pub fn a_stopped_repair_keeps_a_disc_findable()
    ensures mount { (shape : Shape) (old new : List Cell) (dds : Dds) (older newer : Sdl)
        → IsFindable shape old dds older newer → StopsMounting shape old new
        → IsFindable shape new dds older newer }
    ensures rewriting { (shape : Shape) (old new : List Cell) (lists : Lists) → AreValid shape lists
        → AreSettled shape old lists → MendsLists shape old new lists
        → IsFindable shape new lists.dds lists.sdl lists.sdl }
{}

/// Cells of lists that turn dead leave the lists findable.
pub fn dead_cells_keep_a_disc_findable()
    ensures die { (shape : Shape) (old new : List Cell) (dds : Dds) (older newer : Sdl)
        → IsFindable shape old dds older newer → ListCellsDie shape old new
        → IsFindable shape new dds older newer }
    ensures lost { (shape : Shape) (old new : List Cell) (dds : Dds) (older newer : Sdl)
        → IsFindable shape old dds older newer → LosesListCells shape old new
        → IsFindable shape new dds older newer }
{}

/// Where the lists can be found and at least two copies of each list have no dead cell, there is a whole pair, and the choice
/// finds one: the disc is formatted, under the older lists or the newer ones.
pub fn a_findable_disc_has_its_lists()
    ensures whole { (shape : Shape) (cells : List Cell) (dds : Dds) (older newer : Sdl)
        → IsFindable shape cells dds older newer → HaveTwoCopies shape cells older.version
        → IsWholePair shape cells (record { dds = dds; sdl = older })
        ⊎ IsWholePair shape cells (record { dds = dds; sdl = newer }) }
    ensures chosen { (shape : Shape) (cells : List Cell) (dds : Dds) (older newer : Sdl)
        → IsFindable shape cells dds older newer → HaveTwoCopies shape cells older.version
        → (lists : Lists) × AreChosen shape cells lists }
    ensures mounted { (shape : Shape) (old seen new : List Cell) (dds : Dds) (older newer : Sdl) (chosen : Option Dds)
        → IsFindable shape old dds older newer → AreSeen shape old seen new
        → ((block : ℕ) → cell_at old block ≡ Dead → cell_at new block ≡ Dead) → HaveTwoCopies shape new older.version
        → LacksLists shape seen chosen → ⊥ }
    ensures one_of_two { (shape : Shape) (old seen new : List Cell) (dds : Dds) (older newer : Sdl) (lists : Lists)
        → IsFindable shape old dds older newer → AreSeen shape old seen new → AreChosen shape seen lists
        → (lists ≡ record { dds = dds; sdl = older }) ⊎ (lists ≡ record { dds = dds; sdl = newer }) }
{}

/// Of the copies that could be read before an update or a repair all can be read after it, wherever it was stopped, but for those
/// with a dead cell and for one at most; and so it is where both lists are settled then, or their cells died, and over a mount.
pub fn one_copy_is_lost_at_most()
    ensures dds { (shape : Shape) (old new : List Cell) (dds : Dds)
        → LeavesDds shape old new dds → LosesOneDds shape old new }
    ensures sdl { (shape : Shape) (old new : List Cell) (sdl : Sdl)
        → LeavesSdl shape old new sdl → LosesOneSdl shape old new sdl.version }
    ensures settled { (shape : Shape) (old new : List Cell) (lists : Lists)
        → AreSettled shape new lists → LosesOneAtMost shape old new lists.sdl.version }
    ensures died { (shape : Shape) (old new : List Cell) (version : Version)
        → ListCellsDie shape old new → LosesOneAtMost shape old new version }
    ensures mount { (shape : Shape) (old new : List Cell) (version : Version) → HaveOneVersion shape old version
        → StopsMounting shape old new → LosesOneAtMost shape old new version }
{}

/// So of two copies without a dead cell one is left that can be read.
pub fn of_two_copies_one_is_left()
    ensures dds { (shape : Shape) (old new : List Cell) (v w : Dds) (a b : ℕ) → LosesOneDds shape old new → a ≢ b
        → HasDdsCopy shape old v a → DdsLives shape new a → HasDdsCopy shape old w b → DdsLives shape new b
        → (now : Dds) × (area : ℕ) × HasDdsCopy shape new now area }
    ensures sdl { (shape : Shape) (old new : List Cell) (version : Version) (v w : Sdl) (a b : ℕ)
        → LosesOneSdl shape old new version → a ≢ b → v.version ≡ version → w.version ≡ version
        → HasSdlCopy shape old v a → SdlLives shape new version a → HasSdlCopy shape old w b
        → SdlLives shape new version b
        → (now : Sdl) × (area : ℕ) × HasSdlCopy shape new now area }
{}
