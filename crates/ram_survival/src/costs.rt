//! How many blocks the cuts of a run cost: a law of runs, a function with an empty body, of which the contract is the law.
ghost use Rattle.std.specs.Prelude.{◌≤◌, ℕ, List, length};
ghost use Rattle.std.specs.List.{Contains};
ghost use Rattle.ram_machine.specs.States.{State};
ghost use Rattle.ram_machine.specs.Runs.{Run};
ghost use Rattle.ram_machine.specs.Answered.{AnsweredStep};
ghost use Rattle.ram_survival.specs.Counted.{cuts_told, KeepBlocks, IsFormattedOn, HasLiving};

/// A run costs at most as many blocks as lines of it were told that the power was cut. Each other one that could be read until it died
/// still can: over all lines but a press and a full format.
pub fn a_cut_costs_one_block()
    ensures { (s t : State) (events : List AnsweredStep) → Run s events t → KeepBlocks events → IsFormattedOn s
        → (costs : List ℕ) × (length costs ≤ cuts_told events)
        × ((i : ℕ) → ¬ Contains costs i → HasLiving s i → HasLiving t i) }
{}
