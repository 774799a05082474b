//! The trait of a medium that is told when it fails.

ghost use Rattle.std.specs.Prelude.{◌≡◌, ℕ, ◌≤◌, Option, List};
ghost use Rattle.model_medium.specs.declared.WornBlock.{WornBlock};
ghost use Rattle.model_medium.specs.declared.ArmedCut.{ArmedCut};
ghost use Rattle.ram_medium.specs.Laws.{ControlLaws, machine_shown};
ghost use Rattle.ram_medium.specs.Control.{Told, Fails, Arms, Syncs, FailRule, WearRule, SyncOnMedium, with_armed_cut};

use crate::blocks::Medium;
use model_medium::Fate;

/// How the failure of a block ended.
#[derive(Clone, Copy, Debug, PartialEq, Eq)]
pub enum FailEnd {
    /// The block is dead.
    Done,
    /// There is no such block.
    NoBlock {
        /// How many blocks there are.
        blocks: u32,
    },
    /// What the medium lies on failed, and counted it. The power is off.
    Failed,
}

/// How the arming of a block ended.
#[derive(Clone, Copy, Debug, PartialEq, Eq)]
pub enum Arm {
    /// The arm stands.
    Set,
    /// There is no such block.
    NoBlock {
        /// How many blocks there are.
        blocks: u32,
    },
    /// As many arms stand as can.
    Full,
}

/// How the wait until all that was written lasts ended.
#[derive(Clone, Copy, Debug, PartialEq, Eq)]
pub enum SyncEnd {
    /// It lasts.
    Done,
    /// What the medium lies on failed, and counted it. The power is off.
    Failed,
}

/// A medium that is told when its blocks fail and when its power is cut. Arms and the armed cut outlive a power
/// cycle.
pub trait MediumControl: Medium {
    /// The arms that stand, in the order in which they were set.
    ghost arms: { Self → List WornBlock };

    /// The armed cut, if there is one.
    ghost armed_cut: { Self → Option ArmedCut };

    /// That it was told this in between. What that makes of what the medium lies on, the medium says.
    ghost was_told: { Self → Self → Told → Type 0 };

    /// Makes the block of this number, counted from 0, dead, with the power on or off. It is no use: nothing is counted
    /// and no arm counts down.
    ///
    /// # Clauses
    ///
    /// - `rule` (`FailRule`): `Done`: the block is dead, and nothing else changed, no count either. `NoBlock`: there is none, and
    ///   nothing changed. `Failed`: what the medium lies on failed and counted it; the power is off, and the block is as it was
    ///   or dead.
    /// - `never_fails`: it never answers `Failed`, since this medium lies on nothing.
    ///
    /// # Answers
    ///
    /// What it makes of the bytes of an image: `FailBytes` in `crates/ram_image/specs/EventBytes.antt`.
    ///
    /// - `Done`: there is such a block. Then: it is dead, and nothing else changed; it was no use. (`FailRule`)
    /// - `NoBlock`: exactly when there is no such block; it says how many there are. Then: nothing changed. (`FailRule`)
    /// - `Failed`: what the medium lies on counted a failure. Then: the power is off; the cell is as before or dead, and no other
    ///   changed. (`FailsInFail`)
    fn fail(&mut self, block: u32) -> FailEnd
        ensures rule { FailRule (Self.block_count self.old) (machine_shown Self.world arms armed_cut self.old)
            (machine_shown Self.world arms armed_cut self.new) block result }
        ensures told { was_told self.old self.new (Fails block result) }
        ensures as_many { Self.block_count self.new ≡ Self.block_count self.old };

    /// Makes a block dead at its `n`-th use from now on: 1 is the next. At most [`MOST_ARMS`](crate::MOST_ARMS) arms
    /// stand, and a block may have several.
    ///
    /// # Clauses
    ///
    /// - `rule` (`WearRule`): one arm more stands, behind the others: the block dies at its n-th use from now on. Or there is no
    ///   such block, or as many arms stand as can, and nothing changed.
    ///
    /// # Answers
    ///
    /// - `Set`: there is such a block, and fewer than 64 arms stand. Then: one arm more. (`WearRule`)
    /// - `NoBlock`: exactly when there is no such block; it says how many there are. Then: nothing changed. (`WearRule`)
    /// - `Full`: there is such a block, and 64 arms stand. Then: nothing changed. (`WearRule`)
    fn wear(&mut self, block: u32, n: u32) -> Arm
        requires { 1 ≤ n }
        ensures rule { WearRule (Self.block_count self.old) (machine_shown Self.world arms armed_cut self.old)
            (machine_shown Self.world arms armed_cut self.new) (record { block = block; left = n }) result }
        ensures told { was_told self.old self.new Arms }
        ensures as_many { Self.block_count self.new ≡ Self.block_count self.old };

    /// Cuts the power at the `n`-th use from now on, and a write that is then cut leaves its block by the fate. The
    /// cut takes the place of one that was armed.
    ///
    /// # Clauses
    ///
    /// - `rule`: the power is cut at the n-th use from now on, and a write that is then cut leaves its block by this fate. The
    ///   cut takes the place of one that was armed.
    fn arm_cut(&mut self, n: u32, fate: Fate)
        requires { 1 ≤ n }
        ensures rule { machine_shown Self.world arms armed_cut self.new
            ≡ with_armed_cut n fate (machine_shown Self.world arms armed_cut self.old) }
        ensures told { was_told self.old self.new Arms }
        ensures as_many { Self.block_count self.new ≡ Self.block_count self.old };

    /// Waits until all that was written is where no failure of the system can lose it, with the power on or off. It is no
    /// use: nothing is counted and no arm counts down.
    ///
    /// # Clauses
    ///
    /// - `rule` (`SyncOnMedium`): `Done`: nothing changed. `Failed`: what the medium lies on failed and counted it; the power is
    ///   off, and nothing else changed.
    /// - `never_fails`: it never answers `Failed`, since this medium lies on nothing.
    ///
    /// # Answers
    ///
    /// - `Done`: what the medium lies on says that it lasts. Then: nothing changed. (`SyncOnMedium`)
    /// - `Failed`: what the medium lies on counted a failure. Then: the power is off, and no cell changed; what lasts is not said.
    ///   (`FailsInSync`)
    fn sync(&mut self) -> SyncEnd
        ensures rule { SyncOnMedium (machine_shown Self.world arms armed_cut self.old)
            (machine_shown Self.world arms armed_cut self.new) result }
        ensures told { was_told self.old self.new (Syncs result) }
        ensures as_many { Self.block_count self.new ≡ Self.block_count self.old };

    ghost control_laws: { ControlLaws Self.world Self.reaches Self.takes arms armed_cut };
}
