//! The laws about media: functions with an empty body, of which the contract is the law.

ghost use Rattle.std.specs.Prelude.{◌≡◌, ℕ, ◌+◌, List};
ghost use Rattle.model_medium.specs.declared.ReadEnd.{ReadEnd};
ghost use Rattle.model_medium.specs.declared.WriteEnd.{WriteEnd};
ghost use Rattle.model_medium.specs.Cells.{Dead, cell_at};
ghost use Rattle.model_medium.specs.World.{World, ShowsNoneUnknown, ReadRule, WriteRule, ReadContinues, WriteContinues};
ghost use Rattle.model_medium.specs.Machine.{Machine, IsToCome};
ghost use Rattle.model_medium.specs.Exact.{ReadExactly, WriteExactly};
ghost use Rattle.model_medium.specs.Reach.{Follows, Reach, ReachBy};

/// One read of a controllable medium that did not fail goes one use further, and one with the power off none.
pub fn one_read_counts_one_use()
    ensures { (old new : Machine) (block : ℕ) (into after : List ℕ) (how : ReadEnd) → IsToCome old.cut
        → ReadExactly old new block into after how → ReadContinues (ReachBy old new) how }
{}

/// One write of a controllable medium that did not fail goes one use further, and one with the power off none.
pub fn one_write_counts_one_use()
    ensures { (old new : Machine) (block : ℕ) (bytes : List ℕ) (how : WriteEnd) → IsToCome old.cut
        → WriteExactly old new block bytes how → WriteContinues (ReachBy old new) how }
{}

/// Nothing at all is a reach by no use.
pub fn none_is_no_use()
    ensures machine { (machine : Machine) → IsToCome machine.cut → Reach machine machine 0 }
    ensures world { (world : World) → Follows world world 0 }
{}

/// A reach after another is one by the uses of both. Nothing is asked of cuts: after one the power is off, and while
/// it is off nothing happens.
pub fn composes()
    ensures machine { (a b c : Machine) (j k : ℕ) → Reach a b j → Reach b c k → Reach a c (j + k) }
    ensures world { (a b c : World) (j k : ℕ) → Follows a b j → Follows b c k → Follows a c (j + k) }
    ensures of_machines { (a b : Machine) (k : ℕ) → Reach a b k → Follows a.world b.world k }
    ensures dead_stays_dead { (a b : World) (k block : ℕ) → Follows a b k
        → cell_at a.cells block ≡ Dead → cell_at b.cells block ≡ Dead }
{}

/// The exact steps of a controllable medium are among what any medium may do.
pub fn steps_obey_the_rules()
    ensures read { (old new : Machine) (block : ℕ) (into after : List ℕ) (how : ReadEnd)
        → ShowsNoneUnknown old.world
        → ReadExactly old new block into after how → ReadRule old.world new.world block into after how }
    ensures write { (old new : Machine) (block : ℕ) (bytes : List ℕ) (how : WriteEnd)
        → WriteExactly old new block bytes how → WriteRule old.world new.world block bytes how }
{}
