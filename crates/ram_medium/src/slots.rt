//! The blocks of a medium in memory: a state and the bytes of each. It knows neither power nor uses.

ghost use Rattle.std.specs.Prelude.{◌≡◌, ℕ, ◌<◌, IfOk, MatchBool, if◌then◌else◌, length, set, replicate, [], vec_len};
ghost use Rattle.ram_bytes.specs.declared.block.TheConstants.{BLOCK_BYTES};
ghost use Rattle.model_medium.specs.Cells.{Blank, Good, Dead, IsGood, cell_at, written, cut_short};
ghost use Rattle.ram_medium.specs.Slots.{slot_cell, slot_cells, ChangesSlot};

use model_medium::Fate;
use ram_bytes::{BLOCK_BYTES, Block, Budget};
use std::alloc::{AllocError, Global};

/// What a slot stands for.
#[derive(Clone, Copy, Debug, PartialEq, Eq)]
pub(crate) enum State {
    Blank,
    Good,
    Torn,
    Dead,
}

/// One block of a medium in memory. Its room is taken when it is made.
#[derive(Drop)]
pub(crate) struct Slot {
    state: State,
    block: Block,
}

/// So many blank slots.
pub(crate) fn blank_slots(alloc: Global, blocks: u32) -> Result<Vec<Slot>, AllocError>
    ensures { IfOk result
        (λ slots. (vec_len slots ≡ blocks) × (slot_cells slots.items ≡ replicate blocks Blank)) }
{
    let mut slots = Vec::with_capacity(alloc, blocks as usize)?;
    for _ in 0..blocks {
        slots.push(Slot {
            state: State::Blank,
            block: Block::zeros(&mut Budget::new(alloc, BLOCK_BYTES))?,
        })?;
    }
    Ok(slots)
}

/// Makes the block of a slot dead, where it is to die.
pub(crate) fn kill_where(slots: &mut Vec<Slot>, block: u32, dies: bool)
    requires { block < vec_len slots.old }
    ensures cells { slot_cells slots.new.items
        ≡ (if dies then set (slot_cells slots.old.items) block Dead else slot_cells slots.old.items) }
    ensures len { vec_len slots.new ≡ vec_len slots.old }
{
    if dies {
        slots[block as usize].state = State::Dead;
    }
}

/// Reads a slot with whole bytes. Whether it has any; else `into` is as it was.
pub(crate) fn read_slot(slots: &Vec<Slot>, block: u32, into: &mut [u8]) -> bool
    requires inside { block < vec_len slots.now }
    requires whole { length into.old ≡ BLOCK_BYTES }
    ensures { MatchBool result
        (cell_at (slot_cells slots.now.items) block ≡ Good into.new)
        ((¬ IsGood (cell_at (slot_cells slots.now.items) block)) × (into.new ≡ into.old)) }
{
    let slot = &slots[block as usize];
    match slot.state {
        State::Good => {
            into.copy_from_slice(slot.block.bytes());
            true
        }
        State::Blank => false,
        State::Torn => false,
        State::Dead => false,
    }
}

/// Writes a slot. A dead one stays dead.
pub(crate) fn write_slot(slots: &mut Vec<Slot>, block: u32, from: &[u8])
    requires inside { block < vec_len slots.old }
    requires whole { length from.now ≡ BLOCK_BYTES }
    ensures cells { ChangesSlot slots.old.items slots.new.items block (written from.now) }
    ensures len { vec_len slots.new ≡ vec_len slots.old }
{
    let slot = &mut slots[block as usize];
    slot.write(from);
}

/// Leaves a slot as a write in which the power is cut does, by its fate.
pub(crate) fn cut_slot(slots: &mut Vec<Slot>, block: u32, from: &[u8], fate: Fate)
    requires inside { block < vec_len slots.old }
    requires whole { length from.now ≡ BLOCK_BYTES }
    ensures cells { ChangesSlot slots.old.items slots.new.items block (cut_short fate from.now) }
    ensures len { vec_len slots.new ≡ vec_len slots.old }
{
    let slot = &mut slots[block as usize];
    slot.cut_short(from, fate);
}

impl Slot {
    fn write(&mut self, from: &[u8])
        requires whole { length from.now ≡ BLOCK_BYTES }
        ensures { slot_cell self.new ≡ written from.now (slot_cell self.old) }
    {
        match self.state {
            State::Dead => {}
            State::Blank | State::Good | State::Torn => {
                let bytes = self.block.bytes_mut();
                bytes.copy_from_slice(from);
                self.state = State::Good;
            }
        }
    }

    fn tear(&mut self)
        ensures { slot_cell self.new ≡ cut_short Fate.Torn [] (slot_cell self.old) }
    {
        match self.state {
            State::Dead => {}
            State::Blank | State::Good | State::Torn => self.state = State::Torn,
        }
    }

    fn cut_short(&mut self, from: &[u8], fate: Fate)
        requires whole { length from.now ≡ BLOCK_BYTES }
        ensures { slot_cell self.new ≡ cut_short fate from.now (slot_cell self.old) }
    {
        match fate {
            Fate::Old => {}
            Fate::New => self.write(from),
            Fate::Torn => self.tear(),
        }
    }
}
