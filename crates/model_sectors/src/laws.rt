//! Laws of the definitions, as functions with an empty body: the build fails where one is not proved.
ghost use Rattle.std.specs.Prelude.{◌≡◌, ℕ, ◌+◌, ◌-◌, ◌*◌, ◌^◌, ◌<◌, ◌≤◌, ◌⊎◌, List, length, take, drop};
ghost use Rattle.model_sectors.specs.Discs.{sectors_of, replaced};
ghost use Rattle.model_sectors.specs.Uses.{touched_from, last_numbers};
ghost use Rattle.model_sectors.specs.Requests.{block_with, IsCovered, HoldsSector};
ghost use Rattle.model_sectors.specs.declared.TheConstants.{MOST_SECTORS};

/// The most sectors of a disc.
pub fn limits_of_requests_are_these()
    ensures { MOST_SECTORS ≡ 2 ^ 28 }
{}

/// A sector lies in one of the blocks of sixteen sectors, and a request covers the blocks that hold a sector of it, and
/// no others.
pub fn a_block_is_covered_where_it_holds_a_sector()
    ensures lies { (sector : ℕ) → (16 * block_with sector ≤ sector) × (sector < 16 * block_with sector + 16) }
    ensures covered { (lba n block : ℕ) → IsCovered lba n block → HoldsSector lba n block }
    ensures no_other { (lba n block : ℕ) → HoldsSector lba n block → IsCovered lba n block }
{}

/// The sectors that are replaced read back as the bytes that were written, and the others as before.
pub fn what_is_replaced_reads_back()
    ensures written { (disc : List ℕ) (blocks lba n : ℕ) (bytes : List ℕ) (block at m : ℕ)
        → length bytes ≡ 2048 * n → lba + n ≤ 16 * blocks → length disc ≡ 32768 * blocks
        → lba ≤ at → at + m ≤ 16 * block → at + m ≤ lba + n
        → sectors_of (replaced disc lba bytes block) at m ≡ take (2048 * m) (drop (2048 * (at - lba)) bytes) }
    ensures elsewhere { (disc : List ℕ) (blocks lba n : ℕ) (bytes : List ℕ) (block at m : ℕ)
        → length bytes ≡ 2048 * n → lba + n ≤ 16 * blocks → length disc ≡ 32768 * blocks
        → (at + m ≤ lba) ⊎ (lba + n ≤ at) ⊎ (16 * block ≤ at)
        → sectors_of (replaced disc lba bytes block) at m ≡ sectors_of disc at m }
    ensures as_long { (disc : List ℕ) (blocks lba n : ℕ) (bytes : List ℕ) (block : ℕ)
        → length bytes ≡ 2048 * n → lba + n ≤ 16 * blocks → length disc ≡ 32768 * blocks
        → length (replaced disc lba bytes block) ≡ length disc }
{}

/// After k uses of blocks in turn, up to eight, these blocks are at the front of the buffer, the last one first, whatever
/// was buffered before. So after eight or more no other block is there, and what was buffered before does not matter.
pub fn the_last_eight_uses_decide()
    ensures front { (b : List ℕ) (first k j : ℕ) → j ≤ k → j ≤ 8
        → take j (touched_from b first k) ≡ last_numbers first k j }
    ensures all { (b : List ℕ) (first k : ℕ) → 8 ≤ k → touched_from b first k ≡ last_numbers first k 8 }
    ensures before { (b c : List ℕ) (first k : ℕ) → touched_from b first (k + 8) ≡ touched_from c (first + k) 8 }
{}
