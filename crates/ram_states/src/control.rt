//! What is done to the medium of a drive beside its host's calls, in whatever state it is: a block of it fails, is worn, a cut of
//! the power is armed, or all that was written is made to last.

ghost use Rattle.std.specs.Prelude.{◌≡◌, ◌≤◌};
ghost use Rattle.model_geometry.specs.Geometry.{total};
ghost use Rattle.model_sectors.specs.Discs.{Standing};
ghost use Rattle.model_drive.specs.Shown.{StandsFor};
ghost use Rattle.ram_medium.specs.Control.{Fails, Arms, Syncs, WearRule, with_armed_cut};
ghost use Rattle.ram_states.specs.Control.{KeepsMemory, FailOnDrive, FailStands, SyncOnDrive, SyncStands};
ghost use Rattle.ram_states.specs.Shown.{shown_off, shown_bare, shown_ready, shown_state, medium_under};

use crate::states::{NotFormatted, PoweredOff, Ready, State};
use ram_medium::{Arm, FailEnd, Fate, MediumControl, SyncEnd};

impl<M: MediumControl> PoweredOff<M> {
    /// [`State::fail`] with the power off: the state stays in any case.
    fn fail(mut self, block: u32) -> (State<M>, FailEnd)
        ensures rule { FailOnDrive (shown_off self) (shown_state result.0) block result.1 }
        ensures told { M.was_told self.medium (medium_under result.0) (Fails block result.1) }
        ensures stands { (s : Standing) → StandsFor (shown_off self) s
            → FailStands (shown_state result.0) s result.1 }
    {
        let end = self.medium.fail(block);
        (State::Off(self), end)
    }

    /// [`State::sync`] with the power off: the state stays in any case.
    fn sync(mut self) -> (State<M>, SyncEnd)
        ensures rule { SyncOnDrive (shown_off self) (shown_state result.0) result.1 }
        ensures told { M.was_told self.medium (medium_under result.0) (Syncs result.1) }
    {
        let end = self.medium.sync();
        (State::Off(self), end)
    }
}

impl<M: MediumControl> Ready<M> {
    /// [`State::fail`] of a formatted disc.
    fn fail(mut self, block: u32) -> (State<M>, FailEnd)
        ensures rule { FailOnDrive (shown_ready self) (shown_state result.0) block result.1 }
        ensures told { M.was_told self.medium (medium_under result.0) (Fails block result.1) }
        ensures stands { (s : Standing) → StandsFor (shown_ready self) s
            → FailStands (shown_state result.0) s result.1 }
    {
        match self.medium.fail(block) {
            FailEnd::Done => (State::Ready(self), FailEnd::Done),
            FailEnd::NoBlock { blocks } => (State::Ready(self), FailEnd::NoBlock { blocks }),
            FailEnd::Failed => {
                let Ready {
                    medium,
                    geometry,
                    memory,
                } = self;
                let off = PoweredOff {
                    medium,
                    geometry,
                    memory,
                };
                (State::Off(off), FailEnd::Failed)
            }
        }
    }

    /// [`State::sync`] of a formatted disc.
    fn sync(mut self) -> (State<M>, SyncEnd)
        ensures rule { SyncOnDrive (shown_ready self) (shown_state result.0) result.1 }
        ensures told { M.was_told self.medium (medium_under result.0) (Syncs result.1) }
    {
        match self.medium.sync() {
            SyncEnd::Done => (State::Ready(self), SyncEnd::Done),
            SyncEnd::Failed => {
                let Ready {
                    medium,
                    geometry,
                    memory,
                } = self;
                let off = PoweredOff {
                    medium,
                    geometry,
                    memory,
                };
                (State::Off(off), SyncEnd::Failed)
            }
        }
    }
}

impl<M: MediumControl> NotFormatted<M> {
    /// [`State::fail`] of a disc that is not formatted.
    fn fail(mut self, block: u32) -> (State<M>, FailEnd)
        ensures rule { FailOnDrive (shown_bare self) (shown_state result.0) block result.1 }
        ensures told { M.was_told self.medium (medium_under result.0) (Fails block result.1) }
        ensures stands { (s : Standing) → StandsFor (shown_bare self) s
            → FailStands (shown_state result.0) s result.1 }
    {
        match self.medium.fail(block) {
            FailEnd::Done => (State::NotFormatted(self), FailEnd::Done),
            FailEnd::NoBlock { blocks } => {
                (State::NotFormatted(self), FailEnd::NoBlock { blocks })
            }
            FailEnd::Failed => {
                let NotFormatted {
                    medium,
                    geometry,
                    mark: _,
                    memory,
                } = self;
                let off = PoweredOff {
                    medium,
                    geometry,
                    memory,
                };
                (State::Off(off), FailEnd::Failed)
            }
        }
    }

    /// [`State::sync`] of a disc that is not formatted.
    fn sync(mut self) -> (State<M>, SyncEnd)
        ensures rule { SyncOnDrive (shown_bare self) (shown_state result.0) result.1 }
        ensures told { M.was_told self.medium (medium_under result.0) (Syncs result.1) }
    {
        match self.medium.sync() {
            SyncEnd::Done => (State::NotFormatted(self), SyncEnd::Done),
            SyncEnd::Failed => {
                let NotFormatted {
                    medium,
                    geometry,
                    mark: _,
                    memory,
                } = self;
                let off = PoweredOff {
                    medium,
                    geometry,
                    memory,
                };
                (State::Off(off), SyncEnd::Failed)
            }
        }
    }
}

impl<M: MediumControl> State<M> {
    /// Makes the block of the medium of this number, counted from 0, dead: `Done`. There is no such block, and nothing
    /// changed: `NoBlock`. The state stays in both. What the medium lies on failed, and counted it: `Failed`; then the power
    /// is off. It is no use of the medium. (This project's own, as all here.)
    ///
    /// # Clauses
    ///
    /// - `rule`, `stands`: `FailOnDrive`, `FailStands`: after `Done` and `NoBlock` all that is kept in memory stays, and so does
    ///   what the drive stands for; after `Failed` the power is off, nothing is kept, and the same are candidates.
    /// - `told`: its medium was told this, and nothing else was done to it (`was_told` of the medium).
    ///
    /// # Answers
    ///
    /// - `Done`: there is such a block. Then: it is dead; lists, buffer and disc stay. (`FailOnDrive`, `FailStands`)
    /// - `NoBlock`: exactly when there is no such block; it says how many there are. Then: nothing changed. (`FailOnDrive`,
    ///   `FailStands`)
    /// - `Failed`: what the medium lies on counted a failure. Then: off; lists and buffer are gone, and the disc, or the
    ///   candidates, are the candidates. (`LosesMemory`, `FailStands`)
    pub fn fail(self, block: u32) -> (State<M>, FailEnd)
        ensures rule { FailOnDrive (shown_state self) (shown_state result.0) block result.1 }
        ensures told { M.was_told (medium_under self) (medium_under result.0) (Fails block result.1) }
        ensures stands { (s : Standing) → StandsFor (shown_state self) s
            → FailStands (shown_state result.0) s result.1 }
    {
        match self {
            State::Off(off) => off.fail(block),
            State::Ready(ready) => ready.fail(block),
            State::NotFormatted(bare) => bare.fail(block),
        }
    }

    /// Makes the block of the medium of this number dead at its `n`-th use from now on, the next one being the first:
    /// `Set`. There is no such block: `NoBlock`. As many arms stand as can, 64: `Full`.
    ///
    /// # Clauses
    ///
    /// - `rule`, `keeps`, `stands`: the arms, or the armed cut, change as `MediumControl` says, and nothing else.
    /// - `told`: its medium was told this, and nothing else was done to it (`was_told` of the medium).
    ///
    /// # Answers
    ///
    /// As for `MediumControl::wear`; lists, buffer and disc stay (`KeepsMemory`).
    pub fn wear(&mut self, block: u32, n: u32) -> Arm
        requires { 1 ≤ n }
        ensures rule { WearRule (total (shown_state self.old).shape) (shown_state self.old).medium
            (shown_state self.new).medium (record { block = block; left = n }) result }
        ensures told { M.was_told (medium_under self.old) (medium_under self.new) Arms }
        ensures keeps { KeepsMemory (shown_state self.old) (shown_state self.new) }
        ensures stands { (s : Standing) → StandsFor (shown_state self.old) s
            → StandsFor (shown_state self.new) s }
    {
        match self {
            State::Off(off) => off.medium.wear(block, n),
            State::Ready(ready) => ready.medium.wear(block, n),
            State::NotFormatted(bare) => bare.medium.wear(block, n),
        }
    }

    /// Cuts the power at the `n`-th use of any block from now on, the next one being the first, with this fate of a write
    /// that is cut then. It takes the place of a cut that was armed.
    ///
    /// # Clauses
    ///
    /// - `rule`, `keeps`, `stands`: the arms, or the armed cut, change as `MediumControl` says, and nothing else.
    /// - `told`: its medium was told this, and nothing else was done to it (`was_told` of the medium).
    pub fn arm_cut(&mut self, n: u32, fate: Fate)
        requires { 1 ≤ n }
        ensures rule { (shown_state self.new).medium ≡ with_armed_cut n fate (shown_state self.old).medium }
        ensures told { M.was_told (medium_under self.old) (medium_under self.new) Arms }
        ensures keeps { KeepsMemory (shown_state self.old) (shown_state self.new) }
        ensures stands { (s : Standing) → StandsFor (shown_state self.old) s
            → StandsFor (shown_state self.new) s }
    {
        match self {
            State::Off(off) => off.medium.arm_cut(n, fate),
            State::Ready(ready) => ready.medium.arm_cut(n, fate),
            State::NotFormatted(bare) => bare.medium.arm_cut(n, fate),
        }
    }
    /// Waits until all that was written is where no failure of the system can lose it: `Done`, and the state stays. What the
    /// medium lies on failed, and counted it: `Failed`; then the power is off. It is no use of the medium.
    ///
    /// # Clauses
    ///
    /// - `rule`, `stands`: `SyncOnDrive`, `SyncStands`: after `Done` nothing changed; after `Failed` the power is off, nothing is
    ///   kept, and the same are candidates.
    /// - `told`: its medium was told this, and nothing else was done to it (`was_told` of the medium).
    ///
    /// # Answers
    ///
    /// - `Done`: what the medium lies on says that it lasts. Then: nothing changed. (`SyncOnDrive`, `SyncStands`)
    /// - `Failed`: what the medium lies on counted a failure. Then: off; lists and buffer are gone, and the disc, or the
    ///   candidates, are the candidates. (`FailsInSync`, `LosesMemory`, `SyncStands`)
    pub fn sync(self) -> (State<M>, SyncEnd)
        ensures rule { SyncOnDrive (shown_state self) (shown_state result.0) result.1 }
        ensures told { M.was_told (medium_under self) (medium_under result.0) (Syncs result.1) }
        ensures stands { (s : Standing) → StandsFor (shown_state self) s
            → SyncStands (shown_state result.0) s result.1 }
    {
        match self {
            State::Off(off) => off.sync(),
            State::Ready(ready) => ready.sync(),
            State::NotFormatted(bare) => bare.sync(),
        }
    }
}
