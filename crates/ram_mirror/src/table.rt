//! Which logical blocks are apart: a table with an entry for each block of the lead's disc.

ghost use Rattle.std.specs.Prelude.{◌≡◌, ◌≤◌, ◌+◌, [], length, replicate, vec_len, vec_capacity, IfOk};
ghost use Rattle.ram_sectors.specs.declared.TheConstants.{MOST_BLOCKS};
ghost use Rattle.model_mirror.specs.Table.{is_apart, some_apart, one_if, count_apart, AreMarked};
ghost use Rattle.model_cache.specs.Values.{is_among};

use ram_bytes::{Budget, MemoryRefused};
use ram_sectors::MOST_BLOCKS;

/// How many bytes a table asks for: an entry for each block of any disc.
pub const TABLE_MEMORY: usize = MOST_BLOCKS as usize;

/// Which logical blocks are apart, by their numbers. There is room for as many as any disc has.
#[derive(Drop)]
pub struct ApartTable {
    pub(crate) entries: Vec<bool>,
    ghost room: { MOST_BLOCKS ≤ vec_capacity entries },
    ghost few: { vec_len entries ≤ MOST_BLOCKS },
}

impl ApartTable {
    ghost use Rattle.ram_mirror.specs.Tables.{entries_of};
    ghost use Rattle.ram_mirror.specs.declared.table.TheConstants.{TABLE_MEMORY};

    /// A table without entries, with room for those of any disc.
    pub fn new(budget: &mut Budget) -> Result<ApartTable, MemoryRefused>
        requires free { TABLE_MEMORY ≤ budget.old }
        ensures left { budget.old ≤ budget.new + TABLE_MEMORY }
        ensures empty { IfOk result (λ table. entries_of table ≡ []) }
    {
        Ok(ApartTable {
            entries: budget.room(MOST_BLOCKS as usize)?,
        })
    }

    /// Gives the table an entry for each of these blocks, all with this mark.
    pub fn renew(&mut self, blocks: u32, apart: bool)
        requires few { blocks ≤ MOST_BLOCKS }
        ensures { entries_of self.new ≡ replicate blocks apart }
    {
        self.entries.clear();
        match self.entries.resize(blocks as usize, apart) {
            Ok(()) => {}
            Err(_) => unreachable!(),
        }
    }

    /// How many blocks are apart.
    pub fn count(&self) -> u32
        ensures { result ≡ count_apart (entries_of self.now) }
    {
        let mut count = 0;
        for k in 0..self.entries.len() {
            count += one_if(self.entries[k]);
        }
        count
    }

    /// Whether a block is apart.
    pub fn is_apart(&self, block: u32) -> bool
        ensures { result ≡ is_apart (entries_of self.now) block }
    {
        match self.entries.get(block as usize) {
            Some(apart) => *apart,
            None => true,
        }
    }

    /// Whether some block is apart.
    pub fn some_apart(&self) -> bool
        ensures { result ≡ some_apart (entries_of self.now) }
    {
        for k in 0..self.entries.len() {
            if self.entries[k] {
                return true;
            }
        }
        false
    }

    /// Gives the `count` blocks from block `first` on this mark, as far as they have entries.
    pub fn mark(&mut self, first: u64, count: u64, apart: bool)
        ensures marked { AreMarked (is_among first count) apart (entries_of self.old) (entries_of self.new) }
    {
        let entries = self.entries.len() as u64;
        let start = first.min(entries);
        let end = start + count.min(entries - start);
        for k in start as usize..end as usize {
            self.entries[k] = apart;
        }
    }
}

/// 1 for a block that is apart, else 0.
fn one_if(apart: bool) -> u32
    ensures { result ≡ one_if apart }
{
    if apart {
        return 1;
    }
    0
}
