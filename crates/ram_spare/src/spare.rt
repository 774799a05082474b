//! The next free spare of a pool, over any layout.

ghost use Rattle.std.specs.Prelude.{◌≡◌, ◌↔◌, ◌<◌, ◌≤◌, nat_lt, if◌then◌else◌, Some, IfSome, IsTrue, length};
ghost use Rattle.std.specs.List.{Contains};
ghost use Rattle.std.specs.List.Sorted.{IsStrictlyIncreasing};
ghost use Rattle.model_lists.specs.Values.{defectives};
ghost use Rattle.model_pools.specs.Listed.{is_listed, replacements};
ghost use Rattle.model_pools.specs.Pools.{spares_at, is_unnamed, next_in, CursorsFit};
ghost use Rattle.ram_spare.specs.Turns.{IsFirstTurn, BeginsAfter, FindsFree};

use crate::cursors::Cursors;
use model_lists::SdlEntry;
use ram_layout::Layout;
use ram_sdl::Sdl;

/// A free spare.
#[derive(Clone, Copy)]
pub struct FreeSpare {
    /// How many spares of its pool are taken before it.
    pub turn: u32,
    /// The block.
    pub block: u32,
}

/// Whether the entry has this replacement.
fn is_replaced_by(entry: SdlEntry, block: u32) -> bool
    ensures { IsTrue result ↔ (entry.replacement ≡ Some block) }
{
    match entry.replacement {
        Some(spare) => spare == block,
        None => false,
    }
}

/// Whether an entry names the block as a replacement.
fn is_replacement(entries: &[SdlEntry], block: u32) -> bool
    ensures { result ≡ is_listed (replacements entries.now) block }
{
    for entry in entries {
        if is_replaced_by(*entry, block) {
            return true;
        }
    }
    false
}

/// Whether no entry names the block.
fn is_free(sdl: &Sdl, block: u32) -> bool
    requires { IsStrictlyIncreasing (defectives sdl.now.entries) }
    ensures { result ≡ is_unnamed sdl.now.entries block }
{
    !(sdl.is_defective(block) || is_replacement(sdl.entries.as_slice(), block))
}

/// The first free spare of a pool from this turn on, counted from 0. It is none exactly where there is none.
///
/// # Clauses
///
/// - `finds`: the first free spare of a pool from a turn on, with its turn; none exactly where there is none.
/// - `few`: a pool has fewer spares than a number of 32 bits counts.
///
/// # Answers
///
/// - `Some`, `None`: the first free spare of the pool from that turn on, with its turn; `None` exactly when there is none.
///   (`FindsFree`)
pub fn free_from<L: Layout>(layout: &L, sdl: &Sdl, pool: u32, first: u32) -> Option<FreeSpare>
    requires pool { pool < length (L.pools layout.now) }
    requires rise { IsStrictlyIncreasing (defectives sdl.now.entries) }
    ensures finds { FindsFree (is_unnamed sdl.now.entries) (spares_at (L.pools layout.now) pool) first result }
    ensures few { length (spares_at (L.pools layout.now) pool) < 4294967296 }
{
    let _pools = layout.pools();
    for turn in first..u32::MAX {
        match layout.spare(pool, turn) {
            Some(block) => {
                if is_free(sdl, block) {
                    return Some(FreeSpare { turn, block });
                }
            }
            None => return None,
        }
    }
    None
}

/// The turn of a spare in its pool.
fn turn_of<L: Layout>(layout: &L, pool: u32, spare: u32) -> u32
    requires pool { pool < length (L.pools layout.now) }
    requires spare { Contains (spares_at (L.pools layout.now) pool) spare }
    ensures first { IsFirstTurn (spares_at (L.pools layout.now) pool) spare result }
    ensures small { result < 4294967295 }
{
    let _pools = layout.pools();
    for k in 0..u32::MAX {
        match layout.spare(pool, k) {
            Some(other) => {
                if other == spare {
                    return k;
                }
            }
            None => unreachable!(),
        }
    }
    unreachable!()
}

/// The greater of two turns.
fn later(a: u32, b: u32) -> u32
    ensures { result ≡ (if nat_lt a b then b else a) }
{
    if a < b { b } else { a }
}

/// The turn from which on the next free spare comes: that of the cursor, or one after the spare that was given last.
fn first_turn<L: Layout>(layout: &L, pool: u32, cursor: u32, after: Option<u32>) -> u32
    requires pool { pool < length (L.pools layout.now) }
    requires spare { IfSome after (Contains (spares_at (L.pools layout.now) pool)) }
    ensures { BeginsAfter (spares_at (L.pools layout.now) pool) cursor result after }
{
    match after {
        None => cursor,
        Some(last) => later(cursor, turn_of(layout, pool, last) + 1),
    }
}

/// The next free spare of a pool: the first, or the first after the spare `after`. It is none exactly where there is none.
/// Spares before the cursor are not looked at.
///
/// # Clauses
///
/// - the first free spare of a pool, or the first that comes after the spare `after`; none exactly where there is none. It looks
///   at no spare before the cursor.
///
/// # Answers
///
/// - `Some`, `None`: the first free spare of the pool, or the first after the one given; `None` exactly when there is none.
///   (`next_in`)
pub fn next_free<L: Layout>(
    layout: &L,
    cursors: &Cursors,
    sdl: &Sdl,
    pool: u32,
    after: Option<u32>,
) -> Option<u32>
    requires pool { pool < length (L.pools layout.now) }
    requires cursors { length cursors.now ≡ length (L.pools layout.now) }
    requires fit { CursorsFit (L.pools layout.now) sdl.now.entries cursors.now }
    requires rise { IsStrictlyIncreasing (defectives sdl.now.entries) }
    requires spare { IfSome after (Contains (spares_at (L.pools layout.now) pool)) }
    ensures { result ≡ next_in (L.pools layout.now) sdl.now.entries pool after }
{
    let first = first_turn(layout, pool, cursors.at(pool), after);
    match free_from(layout, sdl, pool, first) {
        Some(free) => Some(free.block),
        None => None,
    }
}
