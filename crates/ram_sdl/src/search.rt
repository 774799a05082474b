//! Where an entry stands in a rising list, or would.

ghost use Rattle.std.specs.Prelude.{◌≡◌, ◌<◌, length, slice_index, MatchResult};
ghost use Rattle.std.specs.List.Sorted.{IsStrictlyIncreasing};
ghost use Rattle.model_lists.specs.Values.{defectives, IsEntryOf};
ghost use Rattle.ram_sdl.specs.Search.{SplitsAt, IsGapFor};

use model_lists::SdlEntry;

/// How many entries name a lower defective block, by halving.
fn lower_count(entries: &[SdlEntry], defective: u32) -> usize
    requires { IsStrictlyIncreasing (defectives entries.now) }
    ensures { SplitsAt entries.now defective result }
{
    entries.partition_point(|entry| entry.defective < defective)
}

/// The index of the entry of this defective block, or else where it would stand.
pub fn position_of(entries: &[SdlEntry], defective: u32) -> Result<usize, usize>
    requires { IsStrictlyIncreasing (defectives entries.now) }
    ensures { MatchResult result
        (λ index. (index < length entries.now) × (slice_index (defectives entries.now) index ≡ defective))
        (IsGapFor entries.now defective) }
{
    let index = lower_count(entries, defective);
    if index == entries.len() {
        return Err(index);
    }
    if entries[index].defective != defective {
        return Err(index);
    }
    Ok(index)
}

/// The entry of this defective block.
pub fn entry_of(entries: &[SdlEntry], defective: u32) -> Option<SdlEntry>
    requires { IsStrictlyIncreasing (defectives entries.now) }
    ensures { IsEntryOf entries.now defective result }
{
    match position_of(entries, defective) {
        Ok(index) => Some(entries[index]),
        Err(_) => None,
    }
}
