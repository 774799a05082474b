//! The slots of a buffer: room for a block each. The blocks lie at the first `count` of them.

ghost use Rattle.std.specs.Prelude.{◌≡◌, ◌≢◌, ◌<◌, ◌≤◌, ℕ, [], ◌∷◌, MatchBool, MatchOption, length, vec_len, slice_index_or};
ghost use Rattle.model_buffer.specs.declared.TheConstants.{BUFFERED_BLOCKS};
ghost use Rattle.ram_buffer.specs.Held.{number_at, without, IsOneFrom, IsSlotFor};

use model_buffer::BUFFERED_BLOCKS;
use ram_bytes::Block;

/// The slot of this logical block.
pub fn slot_of(rooms: &[(u32, Block)], count: usize, i: u32) -> Option<usize>
    requires { count ≤ length rooms.now }
    ensures { MatchOption result
        ((j : ℕ) → j < count → number_at rooms.now j ≢ i)
        (λ k. (k < count) × (number_at rooms.now k ≡ i)) }
{
    for k in 0..count {
        if rooms[k].0 == i {
            return Some(k);
        }
    }
    None
}

/// The slot for this logical block: its own, or else the first one that is free, or else that of the block used longest ago.
pub fn slot_for(rooms: &[(u32, Block)], count: usize, i: u32) -> usize
    requires { count ≤ length rooms.now }
    ensures { IsSlotFor rooms.now count i result }
{
    match slot_of(rooms, count, i) {
        Some(slot) => slot,
        None => count.min(BUFFERED_BLOCKS - 1),
    }
}

/// Whether none of the blocks is one of `blocks` logical blocks from block `first` on.
pub fn lacks_all(rooms: &[(u32, Block)], count: usize, first: u32, blocks: u32) -> bool
    requires { count ≤ length rooms.now }
    ensures { MatchBool result
        ((j : ℕ) → j < count → ¬ IsOneFrom first blocks (number_at rooms.now j))
        ((k : ℕ) × (k < count) × IsOneFrom first blocks (number_at rooms.now k)) }
{
    for k in 0..count {
        let number = rooms[k].0;
        if first <= number && number - first < blocks {
            return false;
        }
    }
    true
}

/// Brings the room at this slot before the others.
pub fn to_front(rooms: &mut Vec<(u32, Block)>, k: usize)
    requires { k < vec_len rooms.old }
    ensures items { rooms.new.items ≡ slice_index_or rooms.old.items k (0, []) ∷ without k rooms.old.items }
    ensures len { vec_len rooms.new ≡ vec_len rooms.old }
{
    let rooms = rooms.as_mut_slice();
    rooms[0..k + 1].rotate_right(1);
}
