//! What follows from the contract of `next_free`, over a whole walk.

ghost use Rattle.std.specs.Prelude.{◌≡◌, ℕ, ◌+◌, ◌<◌, ◌≤◌, Some, IfSome, List, length, slice_get, slice_index};
ghost use Rattle.std.specs.List.{Contains};
ghost use Rattle.model_lists.specs.declared.sdl.SdlEntry.{SdlEntry};
ghost use Rattle.model_pools.specs.Pools.{Pool, ArePools, spares_at, free_at, next_in};
ghost use Rattle.ram_spare.specs.Spares.{spare_before};

/// Whoever asks for the next spare of a pool after none, and then after each one that was given, is given its free spares one
/// after another, each once, and none after the last. What was given is a spare, so it may be asked for.
///
/// # Clauses
///
/// - `follows`: after each free spare of a pool comes the next of its free spares.
/// - `walks`: asking for the first, and then for the one after each that was given, gives the free spares in their order, each
///   once, and none after the last.
/// - `asked`: each that was given may be asked for: it is one of the spares.
pub fn next_free_walks_through_the_free_spares()
    ensures follows { (pools : List Pool) (entries : List SdlEntry) (pool : ℕ) → ArePools pools
        → (k : ℕ) → k < length (free_at pools entries pool)
        → slice_get (free_at pools entries pool) (k + 1)
        ≡ next_in pools entries pool (Some (slice_index (free_at pools entries pool) k)) }
    ensures walks { (pools : List Pool) (entries : List SdlEntry) (pool : ℕ) → ArePools pools
        → (k : ℕ) → k ≤ length (free_at pools entries pool)
        → next_in pools entries pool (spare_before pools entries pool k) ≡ slice_get (free_at pools entries pool) k }
    ensures asked { (pools : List Pool) (entries : List SdlEntry) (pool k : ℕ)
        → IfSome (spare_before pools entries pool k) (Contains (spares_at pools pool)) }
{}
