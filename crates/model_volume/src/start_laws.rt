//! The laws about what a disc stands for when its image is opened, and about choices: functions with an empty body.

ghost use Rattle.std.specs.Prelude.{◌≡◌, ℕ, ◌≤◌, ◌⊎◌, Option, List, [], ◌∷◌, map, length};
ghost use Rattle.std.specs.List.{Contains};
ghost use Rattle.model_geometry.specs.Geometry.{Shape};
ghost use Rattle.model_medium.specs.Cells.{Cell, AreWhole};
ghost use Rattle.model_lists.specs.Values.{Dds};
ghost use Rattle.model_sectors.specs.Discs.{Standing, Off};
ghost use Rattle.model_places.specs.Places.{Lists};
ghost use Rattle.model_places.specs.Valid.{AreValid};
ghost use Rattle.model_volume.specs.Given.{IsWholePair, AreChosen, ChoosesNone, LacksLists, HaveOneStructure};
ghost use Rattle.model_volume.specs.Starts.{Found, disc_under, IsDiscStart};
ghost use Rattle.model_volume.specs.Covers.{FitsUnder, Cover};

/// Whatever cells a disc has, a pair of lists is chosen, or none is for one of three causes.
pub fn a_choice_is_made()
    ensures made { (shape : Shape) (cells : List Cell)
        → ((lists : Lists) × AreChosen shape cells lists) ⊎ ((dds : Option Dds) × LacksLists shape cells dds) }
    ensures none { (shape : Shape) (cells : List Cell)
        → ChoosesNone shape cells → (dds : Option Dds) × LacksLists shape cells dds }
{}

/// Whatever cells a disc has, it has a start.
pub fn a_disc_has_a_start()
    ensures { (shape : Shape) (cells : List Cell) → (all : List Found)
        × IsDiscStart shape cells all (Off (map (disc_under shape cells) all)) }
{}

/// A disc has one start, of the same pairs in the same order.
pub fn a_disc_has_one_start()
    ensures pairs { (shape : Shape) (cells : List Cell) (all more : List Found) (s t : Standing)
        → IsDiscStart shape cells all s → IsDiscStart shape cells more t → all ≡ more }
    ensures standing { (shape : Shape) (cells : List Cell) (all more : List Found) (s t : Standing)
        → IsDiscStart shape cells all s → IsDiscStart shape cells more t → s ≡ t }
{}

/// A disc gives no more than sixty-four pairs of lists, and where each is whole no more than sixteen.
pub fn a_disc_gives_sixty_four_pairs_at_most()
    ensures all { (shape : Shape) (cells : List Cell) (all : List Found) (standing : Standing)
        → IsDiscStart shape cells all standing → length all ≤ 64 }
    ensures whole { (shape : Shape) (cells : List Cell) (all : List Found) (standing : Standing)
        → IsDiscStart shape cells all standing
        → ((found : Found) → Contains all found → IsWholePair shape cells found.lists) → length all ≤ 16 }
{}

/// Where of one counter there is one structure, and each pair is whole, the lists that are chosen stand first in a start, so
/// their disc is tried first. Elsewhere they need not: under another structure of the same counter a greater secondary list
/// may be valid.
pub fn chosen_lists_stand_first()
    ensures { (shape : Shape) (cells : List Cell) (all : List Found) (standing : Standing) (lists : Lists)
        → IsDiscStart shape cells all standing → AreChosen shape cells lists → HaveOneStructure shape cells
        → ((found : Found) → Contains all found → IsWholePair shape cells found.lists)
        → (found : Found) × (rest : List Found) × (all ≡ found ∷ rest) × (found.lists ≡ lists) }
{}

/// The disc that lists show fits under them, so the discs of a start cover all lists that its cells give.
pub fn a_start_covers_what_is_given()
    ensures shown { (shape : Shape) (cells : List Cell) → AreWhole cells → (found : Found)
        → FitsUnder shape cells found.lists (disc_under shape cells found) }
    ensures covers { (shape : Shape) (cells : List Cell) → AreWhole cells
        → (all : List Found) (standing : Standing) → IsDiscStart shape cells all standing
        → Cover shape cells (map (disc_under shape cells) all) }
{}

/// A disc without sectors fits under no valid lists.
pub fn a_disc_without_sectors_fits_no_lists()
    ensures { (shape : Shape) (cells : List Cell) (lists : Lists)
        → AreValid shape lists → ¬ FitsUnder shape cells lists [] }
{}
