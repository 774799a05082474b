//! Where logical blocks and spares lie, for every kind of layout: pools as data, homes, free spares, and which entries are valid
//! under them. Definitions alone, and their laws.
#![tactic(auto)]

ghost use Rattle.std.specs.Prelude.{◌≡◌, ◌≢◌, ℕ, ◌<◌, ◌≤◌, ◌⊎◌, Some, List, length, slice_get, slice_index};
ghost use Rattle.std.specs.List.{Contains};
ghost use Rattle.model_lists.specs.declared.sdl.SdlEntry.{SdlEntry};
ghost use Rattle.model_lists.specs.Values.{defectives};
ghost use Rattle.model_pools.specs.Listed.{replacements};
ghost use Rattle.model_pools.specs.Pools.{Pool, logical_in, spares_in, pool_of, spares_at, spares_for, block_in, home_in, free_in, ArePools, AreValidUnder};
ghost use Rattle.model_pools.specs.Moves.{entries_moved_in, tried_of, IsNextOf};

/// A pool of a logical block is one of the pools.
pub fn a_logical_block_has_a_pool()
    ensures { (pools : List Pool) (i : ℕ) → i < length (logical_in pools) → pool_of pools i < length pools }
{}

/// A spare of a pool is one of all spares.
pub fn a_spare_of_a_pool_is_a_spare()
    ensures { (pools : List Pool) (pool k spare : ℕ) → slice_get (spares_at pools pool) k ≡ Some spare
        → Contains (spares_in pools) spare }
{}

/// Under valid entries a home is the block itself or a spare that replaces it; two logical blocks have two homes; and no home is
/// free.
pub fn homes_in_pools_differ()
    ensures place { (pools : List Pool) (entries : List SdlEntry) → AreValidUnder pools entries
        → (i : ℕ) → (home_in pools entries i ≡ block_in pools i)
        ⊎ (Contains (replacements entries) (home_in pools entries i)
        × Contains (spares_in pools) (home_in pools entries i)) }
    ensures differ { (pools : List Pool) (entries : List SdlEntry) → ArePools pools → AreValidUnder pools entries
        → (i j : ℕ) → i < length (logical_in pools) → j < length (logical_in pools)
        → home_in pools entries i ≡ home_in pools entries j → i ≡ j }
    ensures taken { (pools : List Pool) (entries : List SdlEntry) → ArePools pools → AreValidUnder pools entries
        → (i j : ℕ) → j < length (logical_in pools) → ¬ Contains (free_in pools entries i) (home_in pools entries j) }
{}

/// Valid entries are no more than there are spares.
pub fn each_valid_entry_uses_up_a_spare()
    ensures { (pools : List Pool) (entries : List SdlEntry) → AreValidUnder pools entries
        → length entries ≤ length (spares_in pools) }
{}

/// The free spares of a logical block are different blocks: those that it may go to and that no entry names.
pub fn free_spares_are_unnamed()
    ensures free { (pools : List Pool) (entries : List SdlEntry) (i block : ℕ)
        → Contains (free_in pools entries i) block
        → Contains (spares_in pools) block × (¬ Contains (defectives entries) block)
        × (¬ Contains (replacements entries) block) }
    ensures every { (pools : List Pool) (entries : List SdlEntry) (i block : ℕ)
        → Contains (spares_for pools i) block → ¬ Contains (defectives entries) block
        → ¬ Contains (replacements entries) block → Contains (free_in pools entries i) block }
    ensures differ { (pools : List Pool) (entries : List SdlEntry) → ArePools pools → (i j k : ℕ) → j < k
        → k < length (free_in pools entries i)
        → slice_index (free_in pools entries i) j ≢ slice_index (free_in pools entries i) k }
{}

/// Where a logical block goes to the next free spare, the entries stay valid, its home is that spare, every other home is where
/// it was, and what is free for any block was free for it before.
pub fn a_move_keeps_entries_valid()
    ensures valid { (pools : List Pool) (entries : List SdlEntry) → ArePools pools → AreValidUnder pools entries
        → (i : ℕ) → i < length (logical_in pools) → (failed : List ℕ) (spare : ℕ)
        → IsNextOf (free_in pools entries i) failed spare
        → AreValidUnder pools (entries_moved_in pools entries i failed spare) }
    ensures moved { (pools : List Pool) (entries : List SdlEntry) → ArePools pools → AreValidUnder pools entries
        → (i : ℕ) → i < length (logical_in pools) → (failed : List ℕ) (spare : ℕ)
        → IsNextOf (free_in pools entries i) failed spare
        → home_in pools (entries_moved_in pools entries i failed spare) i ≡ spare }
    ensures others { (pools : List Pool) (entries : List SdlEntry) → ArePools pools → AreValidUnder pools entries
        → (i : ℕ) → i < length (logical_in pools) → (failed : List ℕ) (spare : ℕ)
        → IsNextOf (free_in pools entries i) failed spare
        → (j : ℕ) → j < length (logical_in pools) → j ≢ i
        → home_in pools (entries_moved_in pools entries i failed spare) j ≡ home_in pools entries j }
    ensures free { (pools : List Pool) (entries : List SdlEntry) → ArePools pools → AreValidUnder pools entries
        → (i : ℕ) → i < length (logical_in pools) → (tried spare : ℕ) → tried < length (free_in pools entries i)
        → (j block : ℕ)
        → Contains (free_in pools
        (entries_moved_in pools entries i (tried_of (free_in pools entries i) tried) spare) j) block
        → Contains (free_in pools entries j) block }
{}
