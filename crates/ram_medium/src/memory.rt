//! A medium in memory: the same events as on a medium over an image, with failures at the uses that were named.

ghost use Rattle.std.specs.Prelude.{◌≡◌, ℕ, ◌+◌, ◌<◌, ◌≤◌, ◌^◌, length, vec_len};
ghost use Rattle.model_medium.specs.Cells.{AreWhole};
ghost use Rattle.ram_bytes.specs.declared.block.TheConstants.{BLOCK_BYTES};
ghost use Rattle.ram_medium.specs.Slots.{slot_cells};

use crate::blocks::Medium;
use crate::control::{Arm, FailEnd, MediumControl, SyncEnd};
use crate::countdown::Armed;
use crate::slots::{Slot, blank_slots, cut_slot, kill_where, read_slot, write_slot};
use model_medium::{Fate, ReadEnd, WriteEnd};
use ram_bytes::Block;
use std::alloc::{AllocError, Global};

/// A controllable medium whose blocks lie in memory. All its room is taken when it is made. It lies on nothing that can
/// fail: a use fails only where `new` was told its number.
#[derive(Drop)]
pub struct MemMedium {
    slots: Vec<Slot>,
    powered: bool,
    uses: u64,
    cuts: u64,
    faults: u64,
    armed: Armed,
    failing: Vec<u64>,
    ghost few: { vec_len slots < 2 ^ 32 },
    ghost whole: { AreWhole (slot_cells slots.items) },
}

/// How a use begins.
enum Begun {
    /// It goes on.
    On,
    /// The power is cut in it, with this fate.
    Cut(Fate),
    /// It is one that fails.
    Failed,
}

impl MemMedium {
    ghost use Rattle.std.specs.Prelude.{[], IfOk, false, true};
    ghost use Rattle.model_medium.specs.Exact.{Read, Write};
    ghost use Rattle.ram_medium.specs.Memory.{mem_world, mem_machine, failing_of, MemTakes};
    ghost use Rattle.ram_medium.specs.Begun.{IsNewInMemory, MemBeginRule};

    /// A medium of n blank blocks, with the power off. `failing` has the numbers, from 1 on, of the uses that
    /// fail.
    ///
    /// # Answers
    ///
    /// - `Ok`: this many blank blocks, with the power off and nothing counted or armed. (`IsNewInMemory`)
    /// - `Err`: memory was refused. (none)
    pub fn new(alloc: Global, blocks: u32, failing: Vec<u64>) -> Result<MemMedium, AllocError>
        ensures { IfOk result (IsNewInMemory blocks failing.items) }
    {
        Ok(MemMedium {
            slots: blank_slots(alloc, blocks)?,
            powered: false,
            uses: 0,
            cuts: 0,
            faults: 0,
            armed: Armed::new(),
            failing,
        })
    }

    /// Begins a use of the block: it is counted, the arms of the block count down, and then the armed cut does. A
    /// use that fails changes no block.
    fn begin(&mut self, block: u32) -> Begun
        requires { block < vec_len self.old.slots }
        ensures rule { MemBeginRule self.old self.new block result }
        ensures same_names { failing_of self.new ≡ failing_of self.old }
        ensures len { vec_len self.new.slots ≡ vec_len self.old.slots }
    {
        self.uses = self.uses.saturating_add(1);
        let due = self.armed.count(block);
        if self.failing.contains(&self.uses) {
            self.faults = self.faults.saturating_add(1);
            self.powered = false;
            return Begun::Failed;
        }
        kill_where(&mut self.slots, block, due.dies);
        match due.cut {
            None => Begun::On,
            Some(fate) => {
                self.cuts = self.cuts.saturating_add(1);
                self.powered = false;
                Begun::Cut(fate)
            }
        }
    }

    /// A read into bytes. They change only where all of the block was read.
    fn read_bytes(&mut self, block: u32, into: &mut [u8]) -> ReadEnd
        requires inside { block < vec_len self.old.slots }
        requires whole { length into.old ≡ BLOCK_BYTES }
        ensures event { MemTakes self.old self.new (Read block into.old into.new result) }
        ensures len { vec_len self.new.slots ≡ vec_len self.old.slots }
    {
        if !self.powered {
            return ReadEnd::Off;
        }
        match self.begin(block) {
            Begun::Failed => ReadEnd::Failed,
            Begun::Cut(_) => ReadEnd::Cut,
            Begun::On => {
                if read_slot(&self.slots, block, into) {
                    ReadEnd::Done
                } else {
                    ReadEnd::Unreadable
                }
            }
        }
    }

    /// A read into a block, as the trait has it.
    fn read_block(&mut self, block: u32, into: &mut Block) -> ReadEnd
        requires { block < vec_len self.old.slots }
        ensures event { MemTakes self.old self.new (Read block into.old into.new result) }
        ensures len { vec_len self.new.slots ≡ vec_len self.old.slots }
    {
        let bytes = into.bytes_mut();
        let end = self.read_bytes(block, bytes);
        end
    }

    /// A write, as the trait has it.
    fn write_bytes(&mut self, block: u32, from: &[u8]) -> WriteEnd
        requires inside { block < vec_len self.old.slots }
        requires whole { length from.now ≡ BLOCK_BYTES }
        ensures event { MemTakes self.old self.new (Write block from.now result) }
        ensures len { vec_len self.new.slots ≡ vec_len self.old.slots }
    {
        if !self.powered {
            return WriteEnd::Off;
        }
        match self.begin(block) {
            Begun::Failed => WriteEnd::Failed,
            Begun::Cut(fate) => {
                cut_slot(&mut self.slots, block, from, fate);
                WriteEnd::Cut
            }
            Begun::On => {
                write_slot(&mut self.slots, block, from);
                WriteEnd::Done
            }
        }
    }
}

impl Medium for MemMedium {
    ghost use Rattle.std.specs.Prelude.{vec_len};
    ghost use Rattle.ram_medium.specs.Memory.{mem_world, MemReaches, MemTakes, mem_machine};
    ghost use Rattle.std.proofs.Common.{arith};
    ghost use Rattle.std.proofs.lemmas.List.{length-map};
    ghost use Rattle.model_medium.proofs.Compose.{reach_none, reach_then, follows-reach};
    ghost use Rattle.ram_medium.specs.Slots.{slot_cell};
    ghost use Rattle.model_medium.proofs.Happening.{happened_none, happened_then};

    ghost world = { mem_world };

    ghost block_count = { λ medium. vec_len medium.slots };

    ghost reaches = { MemReaches };

    ghost takes = { MemTakes };

    fn blocks(&self) -> u32 {
        self.slots.len() as u32
    }

    fn powered(&self) -> bool {
        self.powered
    }

    fn read(&mut self, block: u32, into: &mut Block) -> ReadEnd {
        self.read_block(block, into)
    }

    fn read_into(&mut self, block: u32, into: &mut [u8]) -> ReadEnd {
        self.read_bytes(block, into)
    }

    fn write(&mut self, block: u32, from: &Block) -> WriteEnd {
        self.write_bytes(block, from.bytes())
    }

    fn write_from(&mut self, block: u32, from: &[u8]) -> WriteEnd {
        self.write_bytes(block, from)
    }

    fn power_on(&mut self) {
        self.powered = true;
    }

    fn power_off(&mut self) {
        self.powered = false;
    }

    ghost laws = { record {
      none = λ medium. record {
        reach = reach_none (mem_machine medium) medium.armed.to_come;
        happened = happened_none MemTakes medium;
      };
      adds_up = λ a b c j k one two. record {
        reach = reach_then (mem_machine a) (mem_machine b) (mem_machine c) j k one.reach two.reach;
        happened = happened_then MemTakes a b c one.happened two.happened;
      };
      follows = λ a b k one. follows-reach (mem_machine a) (mem_machine b) k one.reach;
      unknown = λ medium. tt;
      whole = λ medium. medium.whole;
      as_many = λ medium. Prim.omega (arith, length-map medium.slots.items slot_cell, medium.slots.ok.0);
    } };

    ghost happened = { λ a b span one. one.happened };
}

impl MediumControl for MemMedium {
    ghost use Rattle.std.specs.Prelude.{◌≢◌, vec_len};
    ghost use Rattle.ram_medium.specs.Control.{FailRule, WearRule, SyncOnMedium, with_armed_cut};
    ghost use Rattle.ram_medium.specs.Countdown.{arms_of, armed_cut_of};
    ghost use Rattle.ram_medium.specs.Memory.{mem_machine, failing_of};

    ghost arms = { λ medium. arms_of medium.armed };

    ghost armed_cut = { λ medium. armed_cut_of medium.armed };

    ghost was_told = { λ old new told. Unit {0} };

    fn fail(&mut self, block: u32) -> FailEnd
        ensures rule { FailRule (vec_len self.old.slots) (mem_machine self.old) (mem_machine self.new) block
            result }
        ensures never_fails { result ≢ FailEnd.Failed }
        ensures same_names { failing_of self.new ≡ failing_of self.old }
        ensures as_many { vec_len self.new.slots ≡ vec_len self.old.slots }
    {
        let blocks = self.blocks();
        if block >= blocks {
            return FailEnd::NoBlock { blocks };
        }
        kill_where(&mut self.slots, block, true);
        FailEnd::Done
    }

    fn wear(&mut self, block: u32, n: u32) -> Arm
        requires { 1 ≤ n }
        ensures rule { WearRule (vec_len self.old.slots) (mem_machine self.old) (mem_machine self.new)
            (record { block = block; left = n }) result }
        ensures same_names { failing_of self.new ≡ failing_of self.old }
        ensures as_many { vec_len self.new.slots ≡ vec_len self.old.slots }
    {
        let blocks = self.blocks();
        self.armed.wear(blocks, block, n)
    }

    fn arm_cut(&mut self, n: u32, fate: Fate)
        requires { 1 ≤ n }
        ensures rule { mem_machine self.new ≡ with_armed_cut n fate (mem_machine self.old) }
        ensures same_names { failing_of self.new ≡ failing_of self.old }
        ensures as_many { vec_len self.new.slots ≡ vec_len self.old.slots }
    {
        self.armed.arm_cut(n, fate);
    }

    fn sync(&mut self) -> SyncEnd
        ensures rule { SyncOnMedium (mem_machine self.old) (mem_machine self.new) result }
        ensures never_fails { result ≢ SyncEnd.Failed }
        ensures same_names { failing_of self.new ≡ failing_of self.old }
        ensures as_many { vec_len self.new.slots ≡ vec_len self.old.slots }
    {
        SyncEnd::Done
    }

    ghost control_laws = { record {
      exactly = λ a b event takes. takes.exactly;
      reach = λ a b k one. one.reach;
      to_come = λ medium. medium.armed.to_come;
      arms_to_come = λ medium. medium.armed.arms_to_come;
      few = λ medium. medium.armed.few;
    } };
}
