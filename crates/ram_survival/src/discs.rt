//! That no power cut loses the disc: laws of runs, functions with an empty body, of which the contract is the law.
ghost use Rattle.std.specs.Prelude.{◌≡◌, ◌*◌, ℕ, Option, List, [], ◌∷◌};
ghost use Rattle.model_geometry.specs.Geometry.{Shape, total};
ghost use Rattle.model_image.specs.Cells.{cells_of};
ghost use Rattle.model_lists.specs.Values.{Dds, Sdl};
ghost use Rattle.model_lists.specs.declared.versions.Version.{Version};
ghost use Rattle.model_places.specs.Places.{Lists, capacity_of};
ghost use Rattle.model_survival.specs.Findable.{IsFindable};
ghost use Rattle.ram_report.specs.declared.printing.Event.TheVariants as told;
ghost use Rattle.ram_text.specs.declared.script.Line.{Line};
ghost use Rattle.ram_text.specs.declared.script.Line.TheVariants as lines;
ghost use Rattle.ram_machine.specs.declared.reply.Reply.TheVariants as replies;
ghost use Rattle.ram_machine.specs.Replies.{Outcome};
ghost use Rattle.ram_machine.specs.States.{State, kind_of, IsFirst, IsLeft};
ghost use Rattle.ram_machine.specs.LineSteps.{Step};
ghost use Rattle.ram_machine.specs.Runs.{IsStep, Run};
ghost use Rattle.ram_machine.specs.Answered.{AnsweredStep};
ghost use Rattle.ram_survival.specs.Survival.{KeepsDisc, KeepDisc, LeaveCapacity, sizes_with, sizes_after, sizes_left, IsCapacityBy, HasShape, HasInUse, HasTwoCopies, LastsNow, IsReadyOrCut, RunLeaves};

/// No power cut loses the disc. It begins formatted wherever lists are in use, and wherever an image is opened whose lists can be
/// found. It stays so over each line but a press and a full format, however the line ends, wherever cuts come and whatever blocks
/// die, while at least two copies of each list have no dead block; also in an image that is handed back and opened again as one of
/// the same kind of layout. Only an expansion changes the size of its area, and only a line that tells a capacity settles which of
/// two it is.
pub fn a_run_keeps_the_disc_formatted()
    ensures begins { (s : State) (lists : Lists) → HasInUse s lists
        → LastsNow s lists.sdl.version (lists.sdl.ssa ∷ []) }
    ensures opened { (s : State) (shape : Shape) (bytes : List ℕ) (dds : Dds) (older newer : Sdl)
        → HasShape shape s → IsFirst bytes s → IsFindable shape (cells_of (total shape) bytes) dds older newer
        → LastsNow s older.version (older.ssa ∷ newer.ssa ∷ []) }
    ensures step { (s t : State) (shape : Shape) (line : Line) (payload data_in : List ℕ) (outcome : Outcome)
        (version : Version) (sizes : List ℕ) → HasShape shape s
        → Step s line payload outcome data_in t → KeepsDisc line payload → HasTwoCopies t version
        → LastsNow s version sizes → LastsNow t version (sizes_with shape line payload outcome sizes) }
    ensures run { (s t : State) (shape : Shape) (events : List AnsweredStep) (version : Version) (sizes : List ℕ)
        → HasShape shape s → Run s events t → KeepDisc events → HasTwoCopies t version
        → LastsNow s version sizes → LastsNow t version (sizes_after shape events sizes) }
    ensures image { (s t : State) (bytes : List ℕ) (version : Version) (sizes : List ℕ)
        → LastsNow s version sizes → IsLeft s bytes → IsFirst bytes t → kind_of t ≡ kind_of s
        → LastsNow t version sizes }
    ensures power { (s t : State) (event : AnsweredStep) (version : Version) (sizes : List ℕ)
        → LastsNow s version sizes → IsStep s event t → event.line ≡ lines.Power → HasTwoCopies t version
        → IsReadyOrCut event.reply }
{}

/// So over any lines but a press and a full format each `power` line that is not cut is ready, while at the end of it two copies of
/// each list have no dead block; and it tells a capacity that the expansions so far have left. So it is over a second run, which
/// opens the image that the first has left, after its lines or where the image failed in one.
pub fn no_cut_loses_the_disc()
    ensures ready { (s t u : State) (events : List AnsweredStep) (event : AnsweredStep) (version : Version)
        (sizes : List ℕ) → LastsNow s version sizes → Run s events t → KeepDisc events → IsStep t event u
        → event.line ≡ lines.Power → HasTwoCopies u version → IsReadyOrCut event.reply }
    ensures capacity { (s t u : State) (shape : Shape) (events : List AnsweredStep) (event : AnsweredStep)
        (version : Version) (sizes : List ℕ) (known : ℕ) → HasShape shape s → LastsNow s version sizes
        → Run s events t → KeepDisc events → IsStep t event u → event.line ≡ lines.Power → HasTwoCopies u version
        → event.reply ≡ replies.Event (told.Ready known)
        → IsCapacityBy shape (sizes_after shape events sizes) known }
    ensures ready_again { (s t u v w : State) (earlier later : List AnsweredStep)
        (last : Option (Line × List ℕ)) (event : AnsweredStep) (image : List ℕ) (version : Version) (sizes : List ℕ)
        → LastsNow s version sizes → RunLeaves s earlier last t → KeepDisc earlier → IsLeft t image
        → IsFirst image u → kind_of u ≡ kind_of t → Run u later v → KeepDisc later
        → IsStep v event w → event.line ≡ lines.Power → HasTwoCopies w version → IsReadyOrCut event.reply }
    ensures capacity_again { (s t u v w : State) (shape : Shape) (earlier later : List AnsweredStep)
        (last : Option (Line × List ℕ)) (event : AnsweredStep) (image : List ℕ) (version : Version) (sizes : List ℕ)
        (known : ℕ) → HasShape shape s → LastsNow s version sizes → RunLeaves s earlier last t → KeepDisc earlier
        → IsLeft t image → IsFirst image u → kind_of u ≡ kind_of t → Run u later v → KeepDisc later
        → IsStep v event w → event.line ≡ lines.Power → HasTwoCopies w version
        → event.reply ≡ replies.Event (told.Ready known)
        → IsCapacityBy shape (sizes_after shape later (sizes_left shape earlier last sizes)) known }
{}

/// From a state with lists in use, without an expansion, each `power` line that is ready tells the capacity that the disc had.
pub fn only_an_expansion_changes_the_capacity()
    ensures { (s t u : State) (shape : Shape) (lists : Lists) (events : List AnsweredStep) (event : AnsweredStep)
        (known : ℕ) → HasShape shape s → HasInUse s lists → Run s events t → KeepDisc events → LeaveCapacity events
        → IsStep t event u → event.line ≡ lines.Power → HasTwoCopies u lists.sdl.version
        → event.reply ≡ replies.Event (told.Ready known) → known ≡ capacity_of shape lists }
{}
