//! A table of runs is made from the front on.

ghost use Rattle.std.specs.Prelude.{◌≡◌, ◌+◌, ◌-◌, ◌<◌, ◌≤◌, ◌++◌, length, slice_index, vec_len, vec_capacity};
ghost use Rattle.std.specs.List.{range_with_len};
ghost use Rattle.std.specs.List.Sorted.{IsStrictlyIncreasing};
ghost use Rattle.model_lists.specs.Values.{pdl_blocks};
ghost use Rattle.ram_runs.specs.Runs.{blocks_in, IsTable, IsCountBelow, end_of, kept_of};

use crate::Run;
use crate::search::count_in;
use model_lists::PdlEntry;

/// Puts the blocks from `from` on to before `end` behind the others.
///
/// # Clauses
///
/// - `table`, `blocks`: a range of blocks comes behind the others, and the runs are the longest ones still.
pub fn push_range(runs: &mut Vec<Run>, from: u32, end: u32)
    requires table { IsTable runs.old.items }
    requires behind { end_of 0 runs.old.items ≤ from }
    requires ordered { from ≤ end }
    requires room { vec_len runs.old < vec_capacity runs.old }
    ensures table { IsTable runs.new.items }
    ensures blocks { blocks_in runs.new.items ≡ blocks_in runs.old.items ++ range_with_len from (end - from) }
    ensures behind { end_of 0 runs.new.items ≤ end + 1 }
    ensures more { vec_len runs.new ≤ vec_len runs.old + 1 }
    ensures room { vec_capacity runs.old ≤ vec_capacity runs.new }
{
    if from == end {
        return;
    }
    let index = count_in(runs.as_slice());
    let run = Run {
        first: from,
        index,
        len: end - from,
    };
    match runs.push(run) {
        Ok(()) => {}
        Err(_) => unreachable!(),
    }
}

/// The block of the k-th entry.
fn block_of(slipped: &[PdlEntry], k: usize) -> u32
    requires { k < length slipped.now }
    ensures { result ≡ slice_index (pdl_blocks slipped.now) k }
{
    slipped[k].block
}

/// How many of these entries, which rise, name blocks before this one, by halving.
///
/// # Clauses
///
/// - how many of the entries, which rise, name blocks before this one.
pub fn count_below(slipped: &[PdlEntry], block: u32) -> usize
    requires { IsStrictlyIncreasing (pdl_blocks slipped.now) }
    ensures { IsCountBelow (pdl_blocks slipped.now) block result }
{
    slipped.partition_point(|entry| entry.block < block)
}

/// Puts the blocks from `first` on to before `end` behind the others, without those that are slipped. Of the slipped blocks,
/// `before` come before `first`, and `until` before `end`.
///
/// # Clauses
///
/// - `table`, `blocks`: the same of a range without its slipped blocks.
/// - `more`, `room`: it takes one run more than it passes over slipped blocks, and no memory where there is room for them.
pub fn push_kept(
    runs: &mut Vec<Run>,
    slipped: &[PdlEntry],
    before: usize,
    until: usize,
    first: u32,
    end: u32,
)
    requires table { IsTable runs.old.items }
    requires rise { IsStrictlyIncreasing (pdl_blocks slipped.now) }
    requires before { IsCountBelow (pdl_blocks slipped.now) first before }
    requires until { IsCountBelow (pdl_blocks slipped.now) end until }
    requires behind { end_of 0 runs.old.items ≤ first }
    requires ordered { first ≤ end }
    requires room { vec_len runs.old + (until - before) < vec_capacity runs.old }
    ensures table { IsTable runs.new.items }
    ensures blocks { blocks_in runs.new.items
        ≡ blocks_in runs.old.items ++ kept_of (pdl_blocks slipped.now) first (end - first) }
    ensures behind { end_of 0 runs.new.items ≤ end + 1 }
    ensures more { vec_len runs.new ≤ vec_len runs.old + (until - before) + 1 }
    ensures room { vec_capacity runs.old ≤ vec_capacity runs.new }
{
    let mut from = first;
    for k in before..until {
        let block = block_of(slipped, k);
        push_range(runs, from, block);
        from = block + 1;
    }
    push_range(runs, from, end);
}
