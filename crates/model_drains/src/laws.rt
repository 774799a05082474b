//! Laws of drains: functions with an empty body, of which the contract is the law.

ghost use Rattle.std.specs.Prelude.{◌≡◌, ◌≢◌, ℕ, ◌+◌, ◌<◌, ◌≤◌, Bool, true, false, Option, List, length};
ghost use Rattle.std.specs.List.{Contains, filter};
ghost use Rattle.model_medium.specs.Cells.{Good};
ghost use Rattle.model_sectors.specs.Discs.{block_of};
ghost use Rattle.model_sectors.specs.Requests.{block_with, blocks_covered, is_partly};
ghost use Rattle.model_sectors.specs.declared.ReadOut.{ReadOut};
ghost use Rattle.model_sectors.specs.declared.ReadOut.TheVariants as reads;
ghost use Rattle.model_drive.specs.declared.WriteOut.{WriteOut};
ghost use Rattle.model_drive.specs.declared.WriteOut.TheVariants as writes;
ghost use Rattle.model_drive.specs.Shown.{IsOn, IsFormatted, IsKnown, home_cell};
ghost use Rattle.model_drive.specs.Sound.{IsSound};
ghost use Rattle.model_drive.specs.Parts.{IsInRange, NoneCounted};
ghost use Rattle.model_costs.specs.Costs.{Lives};
ghost use Rattle.model_cache.specs.declared.SyncOut.{SyncOut};
ghost use Rattle.model_cache.specs.declared.SyncOut.TheVariants as syncs;
ghost use Rattle.model_cache.specs.declared.TickOut.{TickOut};
ghost use Rattle.model_cache.specs.Values.{Values, Has};
ghost use Rattle.model_cache.specs.Shown.{CacheShown, CacheStandsFor, dropped, pending_in, pending_covered};
ghost use Rattle.model_cache.specs.Drains.{Tries, StopsTrying};
ghost use Rattle.model_cache.specs.Causes.{leave_first, CacheReadCause, CachedCause, CacheWriteCause, ThroughCause, SyncCause, TickCause, as_write};
ghost use Rattle.model_drains.specs.Costing.{CostsAtMost, is_stopped, is_stopped_tick};
ghost use Rattle.model_drains.specs.Leaving.{CannotLeave, HasLeft, HasLeftOrIsHeldBack, CanReadAll, CanReadRests};
ghost use Rattle.model_drains.specs.Ticks.{Ticks};

/// A drain loses no block that can be read: a block lives through it, but for the one in which it is stopped.
pub fn a_drain_leaves_blocks_living()
    ensures done { (due : List ℕ) (enough short : ℕ) (old new : CacheShown) (first : Option WriteOut) (i : ℕ)
        → IsSound old.drive → IsKnown old.drive
        → Tries old due enough new short first → Lives old.drive i → Lives new.drive i }
    ensures stopped { (old new : CacheShown) (due : List ℕ) (enough : ℕ) (out : WriteOut) (i : ℕ)
        → IsSound old.drive → IsKnown old.drive
        → StopsTrying old new due enough out → ¬ Contains due i → Lives old.drive i → Lives new.drive i }
{}

/// A call costs one block at most, and none where it was not stopped: each other one that could be read until it died still can. A read
/// costs none.
pub fn a_call_with_the_cache_costs_one_block()
    ensures reads { (old new : CacheShown) (lba n : ℕ) (out : ReadOut) → IsSound old.drive → IsKnown old.drive
        → CacheReadCause old new lba n out → CostsAtMost false old.drive new.drive }
    ensures writes { (old new : CacheShown) (lba n : ℕ) (bytes : List ℕ) (out : WriteOut) → IsSound old.drive
        → IsKnown old.drive → CacheWriteCause old new lba n bytes out
        → CostsAtMost (is_stopped out) old.drive new.drive }
    ensures writes_through { (old new : CacheShown) (lba n : ℕ) (out : WriteOut) → IsSound old.drive
        → IsKnown old.drive → ThroughCause old new lba n out → CostsAtMost (is_stopped out) old.drive new.drive }
    ensures synchronises { (old new : CacheShown) (out : SyncOut) → IsSound old.drive → IsKnown old.drive
        → SyncCause old new out → CostsAtMost (is_stopped (as_write out)) old.drive new.drive }
    ensures ticks { (old new : CacheShown) (out : TickOut) → IsSound old.drive → IsKnown old.drive
        → TickCause old new out → CostsAtMost (is_stopped_tick out) old.drive new.drive }
{}

/// Each block that was tried has left the cache, or is held back: after a drain of all that are due, after a synchronisation that was
/// not stopped, and after as many ticks as blocks are pending. The home of one that has left has its last bytes.
pub fn what_was_tried_has_left_or_is_held_back()
    ensures drained { (due : List ℕ) (short : ℕ) (old new : CacheShown) (first : Option WriteOut) (i : ℕ)
        → IsSound old.drive → IsKnown old.drive → Tries old due (length due) new short first
        → Contains due i → HasLeftOrIsHeldBack new i }
    ensures synchronised { (old new : CacheShown) (out : SyncOut) (i : ℕ) → IsSound old.drive → IsKnown old.drive
        → IsOn old.drive → IsFormatted old.drive → Contains (pending_in (dropped old)) i
        → out ≢ syncs.Cut → out ≢ syncs.Fault → SyncCause old new out → HasLeftOrIsHeldBack new i }
    ensures ticked { (old new : CacheShown) (i : ℕ) → IsSound old.drive → IsKnown old.drive
        → Ticks old (length (pending_in (dropped old))) new
        → Contains (pending_in (dropped old)) i → HasLeftOrIsHeldBack new i }
    ensures bytes { (new : CacheShown) (values : Values) (i : ℕ) → CacheStandsFor new (Has values)
        → HasLeft new i → home_cell new.drive i ≡ Good (block_of values.disc i) }
{}

/// What can leave the cache does, where neither a cut nor a fault comes: a synchronisation is good where each pending block can leave
/// it, and a write into the cache where as many can as have to, and the rests can be read.
pub fn what_can_leave_the_cache_does()
    ensures synchronised { (old new : CacheShown) (out : SyncOut) → IsSound old.drive → IsKnown old.drive
        → IsOn old.drive → IsFormatted old.drive → NoneCounted old.drive new.drive
        → ((i : ℕ) → Contains (pending_in (dropped old)) i → ¬ CannotLeave new.drive i)
        → SyncCause old new out → out ≡ syncs.Good }
    ensures written { (old new : CacheShown) (lba n : ℕ) (bytes : List ℕ) (out : WriteOut) (can : ℕ → Bool)
        → IsSound old.drive → IsKnown old.drive → IsInRange old.drive lba n → NoneCounted old.drive new.drive
        → ((i : ℕ) → Contains (pending_covered false (dropped old) lba n) i → can i ≡ true
        → ¬ CannotLeave new.drive i)
        → leave_first (dropped old) lba n ≤ length (filter can (pending_covered false (dropped old) lba n))
        → CanReadRests (dropped old) new.drive lba n
        → CachedCause old new lba n bytes out → out ≡ writes.Good }
{}

/// A read is good where each block that it covers is pending, or has whole bytes in its home at the end, and neither a cut nor a fault
/// comes.
pub fn what_is_pending_or_whole_is_read()
    ensures { (old new : CacheShown) (lba n : ℕ) (out : ReadOut) → IsInRange old.drive lba n
        → NoneCounted old.drive new.drive → CanReadAll (dropped old) new.drive lba n
        → CacheReadCause old new lba n out → out ≡ reads.Good }
{}

/// A write of whole blocks into the cache is good where none has to leave it first, and takes no use of the medium.
pub fn a_write_with_room_in_the_cache_is_good()
    ensures { (old new : CacheShown) (lba n : ℕ) (bytes : List ℕ) (out : WriteOut) → IsInRange old.drive lba n
        → leave_first (dropped old) lba n ≡ 0
        → ((k : ℕ) → k < blocks_covered lba n → is_partly lba n (block_with lba + k) ≡ false)
        → CachedCause old new lba n bytes out → (out ≡ writes.Good) × (new.drive ≡ old.drive) }
{}
