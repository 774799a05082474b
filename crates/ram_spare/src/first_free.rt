//! The cursors of a disc that is mounted: behind the first spares of each pool that entries name. The replacements are sorted once,
//! so that each spare is looked up by halving.

ghost use Rattle.std.specs.Prelude.{◌≡◌, ◌<◌, ◌≤◌, ◌++◌, ◌∷◌, [], length, vec_capacity};
ghost use Rattle.std.specs.List.Sorted.{IsNonDecreasing, IsStrictlyIncreasing};
ghost use Rattle.model_lists.specs.Values.{defectives};
ghost use Rattle.model_pools.specs.Listed.{is_listed, replacements};
ghost use Rattle.model_pools.specs.Pools.{is_unnamed, CursorsFit};
ghost use Rattle.ram_spare.specs.Turns.{AreSortedReplacements, first_free_turn, AreAtFirstFree};

use crate::cursors::Cursors;
use model_lists::SdlEntry;
use ram_layout::Layout;
use ram_sdl::Sdl;

/// Puts a number at the end, where there is room.
fn put(numbers: &mut Vec<u32>, number: u32)
    requires room { length numbers.old.items < vec_capacity numbers.old }
    ensures numbers { numbers.new.items ≡ numbers.old.items ++ number ∷ [] }
    ensures room { vec_capacity numbers.old ≤ vec_capacity numbers.new }
{
    match numbers.push(number) {
        Ok(()) => {}
        Err(_) => unreachable!(),
    }
}

/// Puts the replacements of the entries into the room.
fn put_replacements(entries: &[SdlEntry], blocks: &mut Vec<u32>)
    requires { length entries.now ≤ vec_capacity blocks.old }
    ensures blocks { blocks.new.items ≡ replacements entries.now }
    ensures room { vec_capacity blocks.old ≤ vec_capacity blocks.new }
{
    blocks.clear();
    for entry in entries {
        match entry.replacement {
            Some(spare) => put(blocks, spare),
            None => {}
        }
    }
}

/// Puts the replacements of the entries into the room, the least first.
fn sort_replacements(entries: &[SdlEntry], blocks: &mut Vec<u32>)
    requires { length entries.now ≤ vec_capacity blocks.old }
    ensures sorted { AreSortedReplacements entries.now blocks.new.items }
    ensures room { vec_capacity blocks.old ≤ vec_capacity blocks.new }
{
    put_replacements(entries, blocks);
    blocks.sort_unstable();
}

/// Whether the block is one of these, which rise, by halving.
fn is_among(blocks: &[u32], block: u32) -> bool
    requires { IsNonDecreasing blocks.now }
    ensures { result ≡ is_listed blocks.now block }
{
    blocks.binary_search(&block).is_ok()
}

/// Whether no entry names the block, by halving.
fn is_free_among(sdl: &Sdl, replaced: &[u32], block: u32) -> bool
    requires rise { IsStrictlyIncreasing (defectives sdl.now.entries) }
    requires sorted { AreSortedReplacements sdl.now.entries replaced.now }
    ensures { result ≡ is_unnamed sdl.now.entries block }
{
    !(sdl.is_defective(block) || is_among(replaced, block))
}

/// The turn of the first free spare of a pool. Where none is free it is how many spares the pool has.
fn first_free<L: Layout>(layout: &L, sdl: &Sdl, replaced: &[u32], pool: u32) -> u32
    requires pool { pool < length (L.pools layout.now) }
    requires rise { IsStrictlyIncreasing (defectives sdl.now.entries) }
    requires sorted { AreSortedReplacements sdl.now.entries replaced.now }
    ensures { result ≡ first_free_turn (L.pools layout.now) sdl.now.entries pool }
{
    let _pools = layout.pools();
    for turn in 0..u32::MAX {
        match layout.spare(pool, turn) {
            Some(block) => {
                if is_free_among(sdl, replaced, block) {
                    return turn;
                }
            }
            None => return turn,
        }
    }
    u32::MAX
}

impl Cursors {
    /// Moves each cursor behind the first spares of its pool that entries name: to the first free spare, or behind the last where
    /// none is free. `blocks` is room for the replacements.
    ///
    /// # Clauses
    ///
    /// - `first_free`: each cursor is at the first spare of its pool that no entry names, or behind the last where each is named:
    ///   as far as a mount may set it, and no less far.
    /// - `fit`, `one_each`: the cursors fit the list; there are as many as before.
    /// - `blocks_room`: the room for the replacements is at least as large as before.
    pub fn set_to_first_free<L: Layout>(&mut self, layout: &L, sdl: &Sdl, blocks: &mut Vec<u32>)
        requires one_each { length self.old ≡ length (L.pools layout.now) }
        requires rise { IsStrictlyIncreasing (defectives sdl.now.entries) }
        requires blocks_room { length sdl.now.entries ≤ vec_capacity blocks.old }
        ensures one_each { length self.new ≡ length self.old }
        ensures first_free { AreAtFirstFree (L.pools layout.now) sdl.now.entries self.new }
        ensures fit { CursorsFit (L.pools layout.now) sdl.now.entries self.new }
        ensures blocks_room { vec_capacity blocks.old ≤ vec_capacity blocks.new }
    {
        sort_replacements(sdl.entries.as_slice(), blocks);
        for pool in 0..layout.pools() {
            let turn = first_free(layout, sdl, blocks, pool);
            self.set(pool, turn);
        }
    }
}
