//! How far the spares of each pool are known to be used.

ghost use Rattle.std.specs.Prelude.{◌≡◌, ◌+◌, ◌<◌, ◌≤◌, IfOk, [], length, replicate, slice_index, slice_set};
ghost use Rattle.ram_spare.specs.declared.cursors.TheConstants.{CURSORS_MEMORY};

use ram_bytes::{Budget, MemoryRefused};
use ram_zones::MOST_ZONES;
use std::marker::Model;
use std::mem::size_of;

/// How many bytes the cursors ask for.
pub const CURSORS_MEMORY: usize = MOST_ZONES as usize * size_of::<u32>();

/// A cursor for each pool of a layout: a number of spares, counted in the order in which they are taken. They fit a secondary
/// list where each spare before them is named by an entry, so a search may begin at them. They are seen as the list of these
/// numbers. There is room for those of any disc.
#[derive(Drop)]
pub struct Cursors {
    at: Vec<u32>,
}

impl Model for Cursors {
    ghost use Rattle.std.specs.Prelude.{ℕ, List};
    ghost use Rattle.ram_spare.specs.Turns.{AreFewCursors};

    ghost Value = { List ℕ };

    ghost view = { λ cursors. cursors.at.items };

    ghost invariant = { AreFewCursors };
}

impl Cursors {
    /// Room for the cursors of any disc, and none yet.
    ///
    /// # Clauses
    ///
    /// - as many cursors as pools, each at the first spare.
    ///
    /// # Answers
    ///
    /// - `Ok`: room for the cursors of any disc, and none yet. (clause)
    /// - `Err`: the system refused memory that was asked for within the budget. (clause)
    pub fn new(budget: &mut Budget) -> Result<Cursors, MemoryRefused>
        requires free { CURSORS_MEMORY ≤ budget.old }
        ensures left { budget.old ≤ budget.new + CURSORS_MEMORY }
        ensures empty { IfOk result (λ cursors. cursors ≡ []) }
    {
        Ok(Cursors {
            at: budget.room(MOST_ZONES as usize)?,
        })
    }

    /// How many there are.
    ///
    /// # Clauses
    ///
    /// - how many there are; the cursor of a pool; that cursor moved, and no other.
    pub fn pools(&self) -> u32
        ensures { result ≡ length self.now }
    {
        self.at.len() as u32
    }

    /// The cursor of a pool.
    ///
    /// # Clauses
    ///
    /// - how many there are; the cursor of a pool; that cursor moved, and no other.
    pub fn at(&self, pool: u32) -> u32
        requires { pool < length self.now }
        ensures { result ≡ slice_index self.now pool }
    {
        self.at[pool as usize]
    }

    /// Moves the cursor of a pool.
    ///
    /// # Clauses
    ///
    /// - how many there are; the cursor of a pool; that cursor moved, and no other.
    pub fn set(&mut self, pool: u32, at: u32)
        requires { pool < length self.old }
        ensures { self.new ≡ slice_set self.old pool at }
    {
        self.at[pool as usize] = at;
    }

    /// Makes them as many as there are pools, each at the first spare.
    pub fn reset(&mut self, pools: u32)
        requires { pools ≤ 35 }
        ensures { self.new ≡ replicate pools 0 }
    {
        self.at.clear();
        match self.at.resize(pools as usize, 0) {
            Ok(()) => {}
            Err(_) => unreachable!(),
        }
    }
}
