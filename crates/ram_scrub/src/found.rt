//! The blocks that were found unreadable, in their order. No call but `new` takes memory.

ghost use Rattle.std.specs.Prelude.{◌≡◌, ◌+◌, ◌<◌, ◌≤◌, MatchResult, vec_capacity};
ghost use Rattle.std.specs.List.{All};
ghost use Rattle.std.specs.List.Sorted.{IsStrictlyIncreasing};
ghost use Rattle.std.proofs.Props.{props};
ghost use Rattle.ram_sectors.specs.declared.TheConstants.{MOST_BLOCKS};
ghost use Rattle.ram_scrub.specs.Search.{IsFoundAt, IsGapAt};
ghost use Rattle.ram_scrub.specs.declared.found.TheConstants.{SCRUB_MEMORY};

use ram_bytes::{Budget, MemoryRefused};
use ram_sectors::MOST_BLOCKS;
use std::mem::size_of;

/// How many bytes a scrubber asks for: room for all blocks that it may find on any disc.
pub const SCRUB_MEMORY: usize = MOST_BLOCKS as usize * size_of::<u32>();

/// Logical blocks, each once and rising, all of them blocks that a disc may have. There is room for as many as there are of
/// these, so one more always finds a place.
#[derive(Drop)]
pub struct FoundBlocks {
    numbers: Vec<u32>,
    ghost rise: { IsStrictlyIncreasing numbers.items } by { Prim.hlevel props },
    ghost low: { All (λ block. block < MOST_BLOCKS) numbers.items } by { Prim.hlevel props },
    ghost room: { MOST_BLOCKS ≤ vec_capacity numbers },
}

/// The index of a block among blocks that rise, by halving, or else where it would stand.
fn search(found: &[u32], block: u32) -> Result<usize, usize>
    requires { IsStrictlyIncreasing found.now }
    ensures { MatchResult result (IsFoundAt found.now block) (IsGapAt found.now block) }
{
    found.binary_search(&block)
}

impl FoundBlocks {
    ghost use Rattle.std.specs.Prelude.{nat_lt, IfOk, []};
    ghost use Rattle.std.specs.List.{filter};
    ghost use Rattle.model_scrub.specs.Scrubs.{with_found, without_block};
    ghost use Rattle.ram_scrub.specs.Found.{blocks_of};

    /// No blocks, and room for all that may be found.
    pub fn new(budget: &mut Budget) -> Result<FoundBlocks, MemoryRefused>
        requires free { SCRUB_MEMORY ≤ budget.old }
        ensures left { budget.old ≤ budget.new + SCRUB_MEMORY }
        ensures empty { IfOk result (λ found. blocks_of found ≡ []) }
    {
        Ok(FoundBlocks {
            numbers: budget.room(MOST_BLOCKS as usize)?,
        })
    }

    /// Drops all blocks.
    pub fn clear(&mut self)
        ensures { blocks_of self.new ≡ [] }
    {
        self.numbers.clear();
    }

    /// The blocks, rising.
    pub fn as_slice(&self) -> &[u32]
        ensures { result.now ≡ blocks_of self.now }
    {
        self.numbers.as_slice()
    }

    /// Drops the blocks from this one on.
    pub fn drop_from(&mut self, block: u32)
        ensures { blocks_of self.new ≡ filter (λ j. nat_lt j block) (blocks_of self.old) }
    {
        match search(&self.numbers, block) {
            Ok(index) => self.numbers.truncate(index),
            Err(index) => self.numbers.truncate(index),
        }
    }

    /// Puts a block in its place, if it is not there.
    pub fn put(&mut self, block: u32)
        requires { block < MOST_BLOCKS }
        ensures { blocks_of self.new ≡ with_found block (blocks_of self.old) }
    {
        match search(&self.numbers, block) {
            Ok(_) => {}
            Err(index) => match self.numbers.insert(index, block) {
                Ok(()) => {}
                Err(_) => unreachable!(),
            },
        }
    }

    /// Takes a block out, if it is there.
    pub fn take_out(&mut self, block: u32)
        ensures { blocks_of self.new ≡ without_block block (blocks_of self.old) }
    {
        match search(&self.numbers, block) {
            Ok(index) => {
                self.numbers.remove(index);
            }
            Err(_) => {}
        }
    }
}
