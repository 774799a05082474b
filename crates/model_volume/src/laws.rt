//! The laws about given, chosen and settled lists: functions with an empty body, of which the contract is the law.

ghost use Rattle.std.specs.Prelude.{◌≡◌, ◌≢◌, ℕ, ◌<◌, ◌⊎◌, Option, List};
ghost use Rattle.model_geometry.specs.Geometry.{Shape, label_of, dds_block, sdl_block};
ghost use Rattle.model_medium.specs.Cells.{Cell, IsSameOrDead, cell_at};
ghost use Rattle.model_lists.specs.declared.dds.DdsState.TheVariants.{Formatting};
ghost use Rattle.model_lists.specs.declared.versions.Version.TheVariants.{One};
ghost use Rattle.model_lists.specs.Values.{Dds, Sdl};
ghost use Rattle.model_lists.specs.Texts.{IsDdsText, IsTwo, IsSdlText, IsSdlSecond};
ghost use Rattle.model_copies.specs.Copies.{IsArea, MayHold, HasDdsCopy, Settled, AreBetween, HoldNothingNew};
ghost use Rattle.model_geometry.specs.Geometry.{sdl_second_block};
ghost use Rattle.model_copies.specs.Parts.{HasSdlCopy, SdlIsExact, SdlIsBetween, SdlIsSettled, MayLeaveParts, PartsHoldNothingNew, AreMarkedWithin, Mark};
ghost use Rattle.model_places.specs.Places.{Lists, logical_count};
ghost use Rattle.model_places.specs.Valid.{AreValid};
ghost use Rattle.model_volume.specs.Given.{IsWholePair, SomeWholePair, IsGiven, GivesNone, IsChosenDds, IsChosenSdl, AreChosen, ChoosesNone, NoDdsChosen, NoSdlChosen, LacksLists, AreSettled, OnlyLists, AreSeen, LosesListCells};
ghost use Rattle.model_volume.specs.Covers.{FitsUnder, Cover};

/// The lists that are chosen are given, and still are where the cells have changed, while a copy of each can be read.
pub fn chosen_lists_are_given()
    ensures now { (shape : Shape) (cells : List Cell) (lists : Lists)
        → AreChosen shape cells lists → IsGiven shape cells lists }
    ensures later { (shape : Shape) (old new : List Cell) (lists : Lists) (dds_area sdl_area : ℕ)
        → AreChosen shape old lists
        → HasDdsCopy shape new lists.dds dds_area → HasSdlCopy shape new lists.sdl sdl_area
        → IsGiven shape new lists }
{}

/// Given and chosen lists are valid, and have a logical block. So a disc without sectors fits none.
pub fn given_lists_are_valid()
    ensures given { (shape : Shape) (cells : List Cell) (lists : Lists)
        → IsGiven shape cells lists → AreValid shape lists }
    ensures chosen { (shape : Shape) (cells : List Cell) (lists : Lists)
        → AreChosen shape cells lists → AreValid shape lists }
    ensures block { (shape : Shape) (cells : List Cell) (lists : Lists)
        → IsGiven shape cells lists → 0 < logical_count shape lists }
{}

/// Of each list one copy is chosen at most, and so one pair of lists.
pub fn one_pair_is_chosen()
    ensures dds { (shape : Shape) (cells : List Cell) (v w : Dds) (a b : ℕ)
        → IsChosenDds shape cells v a → IsChosenDds shape cells w b → v ≡ w }
    ensures sdl { (shape : Shape) (cells : List Cell) (dds : Dds) (v w : Sdl) (a b : ℕ)
        → IsChosenSdl shape cells dds v a → IsChosenSdl shape cells dds w b → v ≡ w }
    ensures pair { (shape : Shape) (cells : List Cell) (one two : Lists)
        → AreChosen shape cells one → AreChosen shape cells two → one ≡ two }
{}

/// No lists are chosen where no structure is, where the one that is chosen says Formatting, and where no secondary list
/// belongs to it.
pub fn three_causes_choose_none()
    ensures { (shape : Shape) (cells : List Cell) (dds : Option Dds)
        → LacksLists shape cells dds → ChoosesNone shape cells }
{}

/// A list cell that turns dead adds no given pair.
pub fn dead_list_cells_give_no_other_lists()
    ensures { (shape : Shape) (old new : List Cell) (lists : Lists)
        → ((area : ℕ) → IsArea area
        → IsSameOrDead (cell_at old (dds_block shape area)) (cell_at new (dds_block shape area)))
        → ((area : ℕ) → IsArea area
        → IsSameOrDead (cell_at old (sdl_block shape area)) (cell_at new (sdl_block shape area)))
        → ((area : ℕ) → IsArea area
        → IsSameOrDead (cell_at old (sdl_second_block shape area)) (cell_at new (sdl_second_block shape area)))
        → IsGiven shape new lists → IsGiven shape old lists }
{}

/// Lists that a call saw given were given at entry.
pub fn seen_lists_were_given()
    ensures { (shape : Shape) (old seen new : List Cell) (lists : Lists)
        → AreSeen shape old seen new → IsGiven shape seen lists → IsGiven shape old lists }
{}

/// Lists of one version that are settled leave themselves as the only given pair.
pub fn settled_lists_are_given_alone()
    ensures { (shape : Shape) (cells : List Cell) (lists other : Lists)
        → AreSettled shape cells lists → lists.sdl.version ≡ lists.dds.version → IsGiven shape cells other
        → other ≡ lists }
{}

/// Between two texts of one list each given pair has the one or the other; with the other list settled, these are two
/// pairs. In the first phase of a format the settled pair is given alone.
pub fn a_stopped_update_gives_one_of_two()
    ensures dds { (shape : Shape) (cells : List Cell) (a b : Dds) (lists : Lists)
        → AreBetween IsDdsText (dds_block shape) cells a b → IsGiven shape cells lists
        → (lists.dds ≡ a) ⊎ (lists.dds ≡ b) }
    ensures pair { (shape : Shape) (cells : List Cell) (dds : Dds) (a b : Sdl) (lists : Lists)
        → Settled IsDdsText (dds_block shape) cells dds → a.version ≡ dds.version
        → SdlIsBetween shape cells a b → IsGiven shape cells lists
        → (lists ≡ record { dds = dds; sdl = a }) ⊎ (lists ≡ record { dds = dds; sdl = b }) }
    ensures dds_pair { (shape : Shape) (cells : List Cell) (a b : Dds) (sdl : Sdl) (lists : Lists)
        → AreBetween IsDdsText (dds_block shape) cells a b
        → SdlIsExact shape cells sdl → IsGiven shape cells lists
        → (lists ≡ record { dds = a; sdl = sdl }) ⊎ (lists ≡ record { dds = b; sdl = sdl }) }
    ensures formatting { (shape : Shape) (cells : List Cell) (lists : Lists) (b : Dds) (other : Lists)
        → AreBetween IsDdsText (dds_block shape) cells lists.dds b → b.state ≡ Formatting
        → SdlIsSettled shape cells lists.sdl → lists.sdl.version ≡ lists.dds.version
        → IsGiven shape cells other → other ≡ lists }
{}

/// While chosen copies are repaired, wherever that is stopped, what is given was given before.
pub fn a_repair_gives_no_other_lists()
    ensures dds { (shape : Shape) (old new : List Cell) (chosen : Dds) (a : ℕ)
        → HasDdsCopy shape old chosen a
        → ((area : ℕ) → IsArea area
        → MayHold IsDdsText (cell_at old (dds_block shape area)) chosen (cell_at new (dds_block shape area)))
        → ((area : ℕ) → IsArea area
        → IsSameOrDead (cell_at old (sdl_block shape area)) (cell_at new (sdl_block shape area)))
        → ((area : ℕ) → IsArea area
        → IsSameOrDead (cell_at old (sdl_second_block shape area)) (cell_at new (sdl_second_block shape area)))
        → (lists : Lists) → IsGiven shape new lists → IsGiven shape old lists }
    ensures both { (shape : Shape) (old new : List Cell) (chosen : Lists) → IsWholePair shape old chosen
        → ((area : ℕ) → IsArea area
        → MayHold IsDdsText (cell_at old (dds_block shape area)) chosen.dds (cell_at new (dds_block shape area)))
        → MayLeaveParts IsTwo IsSdlText IsSdlSecond (sdl_block shape) (sdl_second_block shape) old new chosen.sdl
        → (lists : Lists) → IsGiven shape new lists → IsGiven shape old lists }
{}

/// Where the copies of both lists hold nothing new, and there was a whole pair, what is given was given before.
pub fn nothing_new_gives_no_other_lists()
    ensures { (shape : Shape) (old new : List Cell) (lists : Lists) → SomeWholePair shape old
        → HoldNothingNew IsDdsText (dds_block shape) old new
        → PartsHoldNothingNew IsTwo IsSdlText IsSdlSecond (sdl_block shape) (sdl_second_block shape) old new
        → IsGiven shape new lists → IsGiven shape old lists }
{}

/// A mount that chose lists, and repaired the copies of both to the end, leaves them valid and settled; and it gives no lists
/// that were not given at entry, wherever a repair of it was stopped.
pub fn a_mount_leaves_valid_and_settled_lists()
    ensures ended { (shape : Shape) (seen new : List Cell) (lists : Lists) → AreChosen shape seen lists
        → Settled IsDdsText (dds_block shape) new lists.dds → SdlIsExact shape new lists.sdl
        → AreValid shape lists × AreSettled shape new lists }
    ensures given { (shape : Shape) (old seen new : List Cell) (lists other : Lists) → AreSeen shape old seen new
        → AreChosen shape seen lists
        → ((area : ℕ) → IsArea area
        → MayHold IsDdsText (cell_at seen (dds_block shape area)) lists.dds (cell_at new (dds_block shape area)))
        → MayLeaveParts IsTwo IsSdlText IsSdlSecond (sdl_block shape) (sdl_second_block shape) seen new lists.sdl
        → IsGiven shape new other → IsGiven shape old other }
{}

/// While cells of lists alone change, a disc that fits under valid lists does so still; and discs that cover all lists
/// that were given cover all that are, where these are no others.
pub fn list_cells_hold_no_data()
    ensures fits { (shape : Shape) (old new : List Cell) (lists : Lists) (disc : List ℕ)
        → AreValid shape lists → OnlyLists shape old new
        → FitsUnder shape old lists disc → FitsUnder shape new lists disc }
    ensures covers { (shape : Shape) (old new : List Cell) (discs : List (List ℕ))
        → OnlyLists shape old new
        → ((lists : Lists) → IsGiven shape new lists → IsGiven shape old lists)
        → Cover shape old discs → Cover shape new discs }
{}

/// A disc gives no lists where no structure is chosen, and, once all copies of the chosen one are its text or dead, where
/// it says Formatting or no secondary list belongs to it.
pub fn a_bare_disc_gives_none()
    ensures no_dds { (shape : Shape) (cells : List Cell)
        → NoDdsChosen shape cells → GivesNone shape cells }
    ensures formatting { (shape : Shape) (cells : List Cell) (dds : Dds)
        → Settled IsDdsText (dds_block shape) cells dds → dds.state ≡ Formatting
        → GivesNone shape cells }
    ensures no_sdl { (shape : Shape) (cells : List Cell) (dds : Dds)
        → Settled IsDdsText (dds_block shape) cells dds → NoSdlChosen shape cells dds
        → GivesNone shape cells }
{}

/// The whole pairs are just those that a choice gives after some list cells have turned dead.
pub fn whole_pairs_are_what_a_choice_may_give()
    ensures may { (shape : Shape) (cells : List Cell) (lists : Lists) → IsWholePair shape cells lists
        → (after : List Cell) × LosesListCells shape cells after × AreChosen shape after lists }
    ensures no_other { (shape : Shape) (cells after : List Cell) (lists : Lists)
        → LosesListCells shape cells after → AreChosen shape after lists → IsWholePair shape cells lists }
{}

/// What a choice gives is a whole pair, and each whole pair is given. Of lists of version 1 no others are.
pub fn a_choice_gives_whole_pairs()
    ensures whole { (shape : Shape) (cells : List Cell) (lists : Lists)
        → AreChosen shape cells lists → IsWholePair shape cells lists }
    ensures given { (shape : Shape) (cells : List Cell) (lists : Lists)
        → IsWholePair shape cells lists → IsGiven shape cells lists }
    ensures one { (shape : Shape) (cells : List Cell) (lists : Lists) → lists.sdl.version ≡ One
        → IsGiven shape cells lists → IsWholePair shape cells lists }
{}

/// A disc whose lists are settled is formatted in one kind of layout, and gives no lists to a geometry of the same numbers and the
/// other kind.
pub fn a_disc_of_one_kind_is_none_of_the_other()
    ensures { (a b : Shape) → label_of a ≡ label_of b → a.layout ≢ b.layout
        → (cells : List Cell) (lists : Lists) → lists.dds.layout ≡ a.layout → AreSettled a cells lists
        → GivesNone b cells }
{}

/// Where settled lists belong together, no mark on the disc is greater than the structure's counter, and this is the mark
/// while a copy of the structure can be read, which is of the disc's kind.
pub fn settled_lists_have_the_mark()
    ensures within { (shape : Shape) (cells : List Cell) (lists : Lists)
        → AreSettled shape cells lists → lists.sdl.dds_counter ≡ lists.dds.counter
        → AreMarkedWithin shape cells lists.dds.counter }
    ensures mark { (shape : Shape) (cells : List Cell) (lists : Lists) (area : ℕ) → lists.dds.layout ≡ shape.layout
        → AreSettled shape cells lists → lists.sdl.dds_counter ≡ lists.dds.counter
        → HasDdsCopy shape cells lists.dds area → Mark shape cells lists.dds.counter }
{}
