//! Where a block stands among the entries of a primary defect list, which rise.

ghost use Rattle.std.specs.Prelude.{◌↔◌, IsTrue};
ghost use Rattle.std.specs.List.{Contains};
ghost use Rattle.std.specs.List.Sorted.{IsStrictlyIncreasing};
ghost use Rattle.model_lists.specs.Values.{pdl_blocks};
ghost use Rattle.ram_slip.specs.Counts.{IsCountBefore};

use ram_dds::PdlEntry;

/// How many entries name blocks before this one, by halving.
pub fn count_before(entries: &[PdlEntry], block: u32) -> usize
    requires { IsStrictlyIncreasing (pdl_blocks entries.now) }
    ensures { IsCountBefore entries.now block result }
{
    entries.partition_point(|entry| entry.block < block)
}

/// Whether an entry names this block, where n name blocks before it.
pub fn is_named(entries: &[PdlEntry], before: usize, block: u32) -> bool
    requires rising { IsStrictlyIncreasing (pdl_blocks entries.now) }
    requires before { IsCountBefore entries.now block before }
    ensures { IsTrue result ↔ Contains (pdl_blocks entries.now) block }
{
    before < entries.len() && entries[before].block == block
}
