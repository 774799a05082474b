//! That nothing waits in a write cache that does not serve: a law of runs, a function with an empty body, of which the contract is the
//! law.
ghost use Rattle.std.specs.Prelude.{ℕ, List};
ghost use Rattle.ram_text.specs.declared.script.Line.{Line};
ghost use Rattle.ram_machine.specs.Replies.{Outcome};
ghost use Rattle.ram_machine.specs.States.{State, IsFirst};
ghost use Rattle.ram_machine.specs.LineSteps.{Step};
ghost use Rattle.ram_machine.specs.Runs.{Run};
ghost use Rattle.ram_machine.specs.Answered.{AnsweredStep};
ghost use Rattle.ram_survival.specs.Idle.{PendsNothingIdle};

/// While the write cache is off, or the disc is out, nothing is pending, whatever the lines were, wherever cuts came and whatever failed.
/// So a disc that was ejected has all that it was sent, or each block that it has not was told (3/32/00, 3/32/01) and the disc is in.
pub fn nothing_is_pending_in_an_idle_cache()
    ensures first { (bytes : List ℕ) (s : State) → IsFirst bytes s → PendsNothingIdle s }
    ensures step { (s t : State) (line : Line) (payload data_in : List ℕ) (outcome : Outcome)
        → Step s line payload outcome data_in t → PendsNothingIdle s → PendsNothingIdle t }
    ensures run { (s t : State) (events : List AnsweredStep)
        → Run s events t → PendsNothingIdle s → PendsNothingIdle t }
{}
