//! The laws about copies: functions with an empty body, of which the contract is the law.

ghost use Rattle.std.specs.Prelude.{◌≡◌, ◌≢◌, ℕ, ◌≤◌, ◌⊎◌, List, length};
ghost use Rattle.model_geometry.specs.Geometry.{Shape, dds_block, sdl_block, sdl_second_block};
ghost use Rattle.model_medium.specs.Cells.{Cell, IsSameOrDead, cell_at};
ghost use Rattle.model_lists.specs.Values.{Dds, Sdl, part_entries};
ghost use Rattle.model_lists.specs.Texts.{IsDdsText, IsTwo, IsSdlText, IsSdlSecond};
ghost use Rattle.model_copies.specs.Copies.{IsArea, MayHold, HasDdsCopy, Settled, AreBetween, IsGreatestMark, AllLost, IsSeen, good_count, Holds, Rewrites, RewritesDds};
ghost use Rattle.model_copies.specs.Parts.{counter_for, HasSdlParts, HasSdlCopy, SdlIsExact, SdlIsLost, SdlIsBetween, SdlIsSettled, AreHeldBy, MayLeaveParts, StayDead, PartsHoldNothingNew, NamesWithin, IsGreatestName, Mark, CountMores, RewritesSdl};

/// Two copies with one text tell one list, and two cells, also of two areas, tell one secondary list.
pub fn one_text_tells_one_list()
    ensures dds { (shape : Shape) (cells : List Cell) (v w : Dds) (a b : ℕ)
        → HasDdsCopy shape cells v a → HasDdsCopy shape cells w b
        → cell_at cells (dds_block shape a) ≡ cell_at cells (dds_block shape b) → v ≡ w }
    ensures sdl { (shape : Shape) (cells : List Cell) (v w : Sdl) (a b : ℕ)
        → HasSdlParts shape cells v a b → HasSdlParts shape cells w a b → v ≡ w }
{}

/// A list cell that turns dead adds no copy.
pub fn a_dead_copy_adds_none()
    ensures dds { (shape : Shape) (old new : List Cell) (v : Dds) (area : ℕ)
        → IsSameOrDead (cell_at old (dds_block shape area)) (cell_at new (dds_block shape area))
        → HasDdsCopy shape new v area → HasDdsCopy shape old v area }
    ensures sdl { (shape : Shape) (old new : List Cell) (v : Sdl) (a b : ℕ)
        → IsSameOrDead (cell_at old (sdl_block shape a)) (cell_at new (sdl_block shape a))
        → IsSameOrDead (cell_at old (sdl_second_block shape b)) (cell_at new (sdl_second_block shape b))
        → HasSdlParts shape new v a b → HasSdlParts shape old v a b }
{}

/// A copy that a call saw was there at entry.
pub fn what_is_seen_was_there()
    ensures dds { (shape : Shape) (old seen new : List Cell) (v : Dds) (area : ℕ)
        → IsSeen (dds_block shape) old seen new
        → HasDdsCopy shape seen v area → HasDdsCopy shape old v area }
    ensures sdl { (shape : Shape) (old seen new : List Cell) (v : Sdl) (a b : ℕ)
        → IsSeen (sdl_block shape) old seen new → IsSeen (sdl_second_block shape) old seen new
        → HasSdlParts shape seen v a b → HasSdlParts shape old v a b }
{}

/// Copies that are settled or exact hold that value alone, whichever areas its cells are of.
pub fn settled_copies_hold_one_value()
    ensures dds { (shape : Shape) (cells : List Cell) (v w : Dds) (area : ℕ)
        → Settled IsDdsText (dds_block shape) cells v → HasDdsCopy shape cells w area → w ≡ v }
    ensures sdl { (shape : Shape) (cells : List Cell) (v w : Sdl) (a b : ℕ)
        → SdlIsExact shape cells v → HasSdlParts shape cells w a b → w ≡ v }
    ensures lost { (shape : Shape) (cells : List Cell) (v u : Sdl) (area : ℕ)
        → SdlIsLost shape cells v → HasSdlCopy shape cells u area → u.version ≡ v.version → ⊥ }
    ensures named { (shape : Shape) (cells : List Cell) (v : Sdl)
        → SdlIsSettled shape cells v → NamesWithin shape cells v.dds_counter }
{}

/// Between two texts each copy holds the one or the other.
pub fn two_texts_are_held_between()
    ensures dds { (shape : Shape) (cells : List Cell) (a b v : Dds) (area : ℕ)
        → AreBetween IsDdsText (dds_block shape) cells a b
        → HasDdsCopy shape cells v area → (v ≡ a) ⊎ (v ≡ b) }
    ensures sdl { (shape : Shape) (cells : List Cell) (a b v : Sdl) (area : ℕ)
        → SdlIsBetween shape cells a b
        → HasSdlCopy shape cells v area → (v.version ≡ a.version) ⊎ (v.version ≡ b.version)
        → (v ≡ a) ⊎ (v ≡ b) }
{}

/// An update that is stopped leaves each text between both values: for the structure, where each readable copy held the
/// text of the first; for the secondary list, where no copy of either was left, or each cell of the first value's copies
/// that could be read held its part.
pub fn a_stopped_update_leaves_one_of_two()
    ensures dds { (shape : Shape) (old new : List Cell) (a b : Dds)
        → AreBetween IsDdsText (dds_block shape) old a a
        → ((area : ℕ) → IsArea area
        → MayHold IsDdsText (cell_at old (dds_block shape area)) b (cell_at new (dds_block shape area)))
        → AreBetween IsDdsText (dds_block shape) new a b }
    ensures sdl { (shape : Shape) (old new : List Cell) (a b : Sdl)
        → (a.counter ≢ b.counter) ⊎ (a.dds_counter ≢ b.dds_counter)
        → (IsTwo b → ¬ IsTwo a → length b.entries ≤ part_entries)
        → MayLeaveParts IsTwo IsSdlText IsSdlSecond (sdl_block shape) (sdl_second_block shape) old new b
        → StayDead IsTwo IsSdlText IsSdlSecond (sdl_block shape) (sdl_second_block shape) old new
        → (SdlIsLost shape old a × SdlIsLost shape old b)
        ⊎ AreHeldBy IsTwo IsSdlText IsSdlSecond (sdl_block shape) (sdl_second_block shape) old a
        → SdlIsBetween shape new a b }
{}

/// A settled list stays between itself and another of its version in an update that is stopped; and where the update left
/// no copy of the new list, it is settled still.
pub fn an_update_keeps_a_list_settled()
    ensures stopped { (shape : Shape) (old new : List Cell) (a b : Sdl) → SdlIsSettled shape old a
        → a.version ≡ b.version → (a.counter ≢ b.counter) ⊎ (a.dds_counter ≢ b.dds_counter)
        → MayLeaveParts IsTwo IsSdlText IsSdlSecond (sdl_block shape) (sdl_second_block shape) old new b
        → StayDead IsTwo IsSdlText IsSdlSecond (sdl_block shape) (sdl_second_block shape) old new
        → SdlIsBetween shape new a b }
    ensures lost { (shape : Shape) (cells : List Cell) (a b : Sdl) → a.version ≡ b.version
        → a.dds_counter ≡ b.dds_counter → SdlIsExact shape cells b → SdlIsLost shape cells b
        → SdlIsSettled shape cells a }
    ensures dies { (shape : Shape) (old new : List Cell) (v : Sdl)
        → ((area : ℕ) → IsArea area
        → IsSameOrDead (cell_at old (sdl_block shape area)) (cell_at new (sdl_block shape area)))
        → ((area : ℕ) → IsArea area
        → IsSameOrDead (cell_at old (sdl_second_block shape area)) (cell_at new (sdl_second_block shape area)))
        → SdlIsSettled shape old v → SdlIsSettled shape new v }
{}

/// A repair that is stopped, also between two parts, leaves no text, also of cells of two areas, that was not there.
pub fn a_stopped_repair_leaves_nothing_new()
    ensures nothing { (shape : Shape) (old new : List Cell) (v : Sdl) (home : ℕ) → HasSdlCopy shape old v home
        → MayLeaveParts IsTwo IsSdlText IsSdlSecond (sdl_block shape) (sdl_second_block shape) old new v
        → PartsHoldNothingNew IsTwo IsSdlText IsSdlSecond (sdl_block shape) (sdl_second_block shape) old new }
    ensures parts { (shape : Shape) (old new : List Cell) (w : Sdl) (a b : ℕ)
        → PartsHoldNothingNew IsTwo IsSdlText IsSdlSecond (sdl_block shape) (sdl_second_block shape) old new
        → HasSdlParts shape new w a b → (x : ℕ) × (y : ℕ) × HasSdlParts shape old w x y }
{}

/// Where all copies are dead none is counted.
pub fn lost_copies_count_none()
    ensures { (place : ℕ → ℕ) (cells : List Cell) → AllLost place cells → good_count place cells 4 ≡ 0 }
{}

/// The greater one of the greatest marks of both lists is the mark of the disc.
pub fn the_greater_mark_is_the_discs()
    ensures { (shape : Shape) (cells : List Cell) (a b mark : ℕ)
        → IsGreatestMark IsDdsText (dds_block shape) cells (counter_for shape) a
        → IsGreatestName shape cells b
        → a ≤ mark → b ≤ mark → (mark ≡ a) ⊎ (mark ≡ b) → Mark shape cells mark }
{}

/// The number of copies that a repair wrote again is one number, by the cells before and after, and so is that of the second
/// cells. How many first cells go on is one number too. So the numbers of uses of a repair and of a choice are exact.
pub fn rewritten_copies_are_one_number()
    ensures dds { (shape : Shape) (old new : List Cell) (v : Dds) (m n : ℕ)
        → RewritesDds shape old new v m → RewritesDds shape old new v n → m ≡ n }
    ensures sdl { (shape : Shape) (old new : List Cell) (v : Sdl) (m n : ℕ)
        → RewritesSdl shape old new v m → RewritesSdl shape old new v n → m ≡ n }
    ensures seconds { (shape : Shape) (old new : List Cell) (v : Sdl) (m n : ℕ)
        → Rewrites (λ cell. Holds IsSdlSecond cell v) (sdl_second_block shape) old new 4 m
        → Rewrites (λ cell. Holds IsSdlSecond cell v) (sdl_second_block shape) old new 4 n → m ≡ n }
    ensures mores { (shape : Shape) (cells : List Cell) (m n : ℕ)
        → CountMores shape cells 4 m → CountMores shape cells 4 n → m ≡ n }
{}
