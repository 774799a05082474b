//! That a sector that was written good and not since shows its bytes in all later runs, or cannot be read.

ghost use Rattle.std.specs.Prelude.{◌≡◌, ◌⊎◌, ℕ, Bool, Option, Some, List};
ghost use Rattle.ram_machine.specs.declared.status.Status.{Status};
ghost use Rattle.ram_script.specs.RunCounts.{Counts};
ghost use Rattle.ram_answers.specs.Texts.{AnsweredText};
ghost use Rattle.ram_answers.specs.Reports.{Heard};
ghost use Rattle.ram_pair.specs.PairStates.{TwoImages, PairState, IsFirstPair};
ghost use Rattle.ram_pair.specs.PairTexts.{PairRun};
ghost use Rattle.ram_mirrored.specs.MirrorRuns.{MirrorBeginning, MirrorStandsWith};
ghost use Rattle.ram_mirror_runs.specs.Histories.{in_order, History, IsHistoryOf, StayAsTheyWere, GiveNoLead};
ghost use Rattle.ram_mirror_runs.specs.Keeping.{KeepsOver, WritesSector, ShowsSector};

/// Over runs of `mirror` on the same two images, which nothing else writes in between: a sector that was written good and
/// not since shows those bytes or cannot be read, whatever the order of the images, however often a run begins, and
/// wherever power is lost, while of each record a copy lasts. In the run that writes it no lead was given by hand before;
/// after that no line is `press`, `lead a` or `lead b`, no format is good or stopped, and no image fails in a line that
/// makes a block fail (`KeepsOver`).
pub fn a_written_sector_is_shown_over_runs()
    ensures { (images : TwoImages) (start : PairState) → IsFirstPair images start
        → (events : List AnsweredText) (before : PairState) → PairRun start events before → GiveNoLead events
        → (at : ℕ) (bytes : List ℕ) (after : PairState) → WritesSector at bytes before after
        → (steps : ℕ) (later : PairState) (history : History after later steps)
        → KeepsOver at after later steps history
        → (found : List ℕ) (last : PairState) → ShowsSector at found later last → found ≡ bytes }
{}

/// Each run of the word `mirror` is such a history, from images with the bytes that they had to images with those that
/// they have then; or it never began, and both have the bytes that they had.
pub fn a_run_of_a_mirror_is_a_history()
    ensures { (first : MirrorBeginning) (heard : Heard) (a b : Option (List ℕ)) (old new : Counts) (status : Status)
        → MirrorStandsWith first heard a b old new status
        → StayAsTheyWere first.images a b ⊎ IsHistoryOf first.images a b }
{}

/// Two histories of which the second begins on the images as the first left them, in this order or in the other one, are
/// one.
pub fn two_histories_are_one()
    ensures { (images : TwoImages) (a b : List ℕ) → IsHistoryOf images (Some a) (Some b)
        → (turned : Bool) (c d : Option (List ℕ)) → IsHistoryOf (in_order turned (record { a = a; b = b })) c d
        → IsHistoryOf images c d }
{}
