//! The entries that a format keeps of a disc that was formatted before. No memory is taken.

ghost use Rattle.std.specs.Prelude.{◌≡◌, ◌+◌, ◌<◌, ◌≤◌, ◌++◌, ◌∷◌, [], Some, length, slice_index, vec_capacity};
ghost use Rattle.model_lists.specs.Values.{defectives};
ghost use Rattle.ram_sdl.specs.Sdl.{sdl_of};
ghost use Rattle.ram_lists.specs.Lists.{lists_of};
ghost use Rattle.ram_format.specs.Keeping.{kept_defectives, RiseApart, AreAllKept};

use crate::merging::merge;
use ram_dds::{PdlEntry, PdlKind};
use ram_lists::Lists;
use ram_sdl::{Sdl, SdlEntry};

/// Puts a number at the end, where there is room.
fn put(numbers: &mut Vec<u32>, number: u32)
    requires room { length numbers.old.items < vec_capacity numbers.old }
    ensures numbers { numbers.new.items ≡ numbers.old.items ++ number ∷ [] }
    ensures room { vec_capacity numbers.old ≤ vec_capacity numbers.new }
{
    match numbers.push(number) {
        Ok(()) => {}
        Err(_) => unreachable!(),
    }
}

/// The defective block of the entry at this place.
fn defective_at(entries: &[SdlEntry], k: usize) -> u32
    requires { k < length entries.now }
    ensures { result ≡ slice_index (defectives entries.now) k }
{
    entries[k].defective
}

/// Puts the defective blocks of these entries into the room.
fn put_defectives(entries: &[SdlEntry], blocks: &mut Vec<u32>)
    requires empty { blocks.old.items ≡ [] }
    requires room { length entries.now ≤ vec_capacity blocks.old }
    ensures blocks { blocks.new.items ≡ defectives entries.now }
    ensures room { vec_capacity blocks.old ≤ vec_capacity blocks.new }
{
    for k in 0..entries.len() {
        let block = defective_at(entries, k);
        put(blocks, block);
    }
}

/// Puts the defective blocks of the secondary list into the room, or none where they are to be forgotten.
fn take_defectives(sdl: &Sdl, drop_sdl: bool, blocks: &mut Vec<u32>)
    requires { length sdl.now.entries ≤ vec_capacity blocks.old }
    ensures blocks { blocks.new.items ≡ kept_defectives (sdl_of sdl.now) drop_sdl }
    ensures room { vec_capacity blocks.old ≤ vec_capacity blocks.new }
{
    blocks.clear();
    if drop_sdl {
        return;
    }
    put_defectives(sdl.entries.as_slice(), blocks);
}

/// Puts the entries that a full format keeps into the room, rising: those of the primary list and, unless `drop_sdl` says that
/// these are to be forgotten, one of kind G2 for each defective block of the secondary list. `blocks` is room for the numbers of
/// these. (After ECMA-330 and the complete list bit of INCITS MMC.)
pub fn kept_entries(lists: &Lists, drop_sdl: bool, blocks: &mut Vec<u32>, kept: &mut Vec<PdlEntry>)
    requires apart { RiseApart (lists_of lists.now) }
    requires few { length lists.now.dds.entries ≤ 4092 }
    requires few_replaced { length lists.now.sdl.entries ≤ 8184 }
    requires blocks_room { 8184 ≤ vec_capacity blocks.old }
    requires kept_room { 12276 ≤ vec_capacity kept.old }
    ensures kept { AreAllKept (Some (lists_of lists.now)) drop_sdl kept.new.items }
    ensures blocks_room { vec_capacity blocks.old ≤ vec_capacity blocks.new }
    ensures kept_room { 12276 ≤ vec_capacity kept.new }
{
    take_defectives(&lists.sdl, drop_sdl, blocks);
    kept.clear();
    merge(lists.dds.entries.as_slice(), blocks, PdlKind::G2, kept);
}
