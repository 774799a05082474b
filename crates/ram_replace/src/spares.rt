//! The free spares that a logical block may go to, tried one after another.

ghost use Rattle.std.specs.Prelude.{◌≡◌, ℕ, ◌<◌, IsTrue, IfOk, IfSome, MatchResult, true, length};
ghost use Rattle.std.specs.List.{Contains};
ghost use Rattle.std.specs.List.Sorted.{IsStrictlyIncreasing};
ghost use Rattle.model_lists.specs.Values.{defectives};
ghost use Rattle.model_pools.specs.Pools.{spares_at, is_unnamed, free_at};
ghost use Rattle.ram_bytes.specs.declared.block.TheConstants.{BLOCK_BYTES};
ghost use Rattle.ram_spare.specs.Turns.{AreUsed};
ghost use Rattle.ram_replace.specs.Spares.{FindsSpare, StopsTrying, StandsAtTurn};

use ram_bytes::Block;
use ram_copies::put_block;
use ram_layout::Layout;
use ram_medium::{Medium, Stop};
use ram_sdl::Sdl;
use ram_spare::free_from;

/// A spare that has the bytes.
#[derive(Clone, Copy)]
pub struct Found {
    /// How many free spares come before it, all of which failed.
    pub tried: u32,
    /// How many spares of its pool are taken before it.
    pub turn: u32,
    /// The block.
    pub spare: u32,
}

/// Writes the bytes to one free spare of a pool after another, in their order, and reads each back, until one has them: `back` has
/// what was read back then. The search begins at the turn `first`, before which no spare is free.
pub fn find_spare<M: Medium, L: Layout>(
    medium: &mut M,
    layout: &L,
    sdl: &Sdl,
    pool: u32,
    first: u32,
    from: &[u8],
    back: &mut Block,
) -> Result<Option<Found>, Stop>
    requires pool { pool < length (L.pools layout.now) }
    requires rise { IsStrictlyIncreasing (defectives sdl.now.entries) }
    requires first { AreUsed (is_unnamed sdl.now.entries) (spares_at (L.pools layout.now) pool) 0 first }
    requires within { (spare : ℕ) → Contains (spares_at (L.pools layout.now) pool) spare
        → spare < M.block_count medium.old }
    requires on { IsTrue (M.world medium.old).power }
    requires whole { length from.now ≡ BLOCK_BYTES }
    ensures rule { MatchResult result
        (FindsSpare M.world M.reaches medium.old medium.new
        (free_at (L.pools layout.now) sdl.now.entries pool) from.now)
        (StopsTrying M.world M.reaches medium.old medium.new
        (free_at (L.pools layout.now) sdl.now.entries pool) from.now) }
    ensures turn { IfOk result (λ found. IfSome found
        (StandsAtTurn (is_unnamed sdl.now.entries) (spares_at (L.pools layout.now) pool))) }
    ensures back { IfOk result
        (λ found. IfSome found (λ _. (M.world medium.old).known ≡ true → back.new ≡ from.now)) }
    ensures few { length (spares_at (L.pools layout.now) pool) < 4294967296 }
    ensures as_many { M.block_count medium.new ≡ M.block_count medium.old }
{
    let _pools = layout.pools();
    let mut turn = first;
    for tried in 0..u32::MAX {
        let Some(free) = free_from(layout, sdl, pool, turn) else {
            return Ok(None);
        };
        let spare = free.block;
        let kept = put_block(medium, spare, from, back)?;
        if kept {
            let turn = free.turn;
            return Ok(Some(Found { tried, turn, spare }));
        }
        turn = free.turn + 1;
    }
    Ok(None)
}
