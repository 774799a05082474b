//! Where logical blocks and spares lie, for every kind of layout.

ghost use Rattle.std.specs.Prelude.{◌≡◌, ℕ, ◌<◌, ◌^◌, List, length, slice_get};
ghost use Rattle.model_pools.specs.Pools.{Pool, ArePools, logical_in, pool_of, spares_at, block_in};
ghost use Rattle.ram_layout.specs.Layouts.{HasRoleIn};

use ram_slip::Role;

/// Where the logical blocks of a disc and its spares lie. The spares are in pools, and each logical block has one pool that it
/// may go to.
pub trait Layout {
    /// The pools: the logical blocks of each, one pool after another, and its spares in the order in which they are taken.
    ghost pools: { Self → List Pool };

    /// The data blocks of the disc.
    ghost blocks: { Self → List ℕ };

    /// How many logical blocks there are.
    ///
    /// # Clauses
    ///
    /// - `count`: how many logical blocks the pools have.
    /// - `lawful`: two logical blocks are two blocks, two spares are two blocks, and no block is both.
    fn logical(&self) -> u32
        ensures count { result ≡ length (logical_in (pools self.now)) }
        ensures lawful { ArePools (pools self.now) };

    /// The block of logical block `i`.
    ///
    /// # Clauses
    ///
    /// - the block of a logical block.
    fn physical(&self, i: u32) -> u32
        requires { i < length (logical_in (pools self.now)) }
        ensures { result ≡ block_in (pools self.now) i };

    /// How many pools there are.
    ///
    /// # Clauses
    ///
    /// - `count`, `few`: how many pools there are, each with fewer spares than a number of 32 bits counts.
    fn pools(&self) -> u32
        ensures count { result ≡ length (pools self.now) }
        ensures few { (pool : ℕ) → length (spares_at (pools self.now) pool) < 2 ^ 32 };

    /// The pool of logical block `i`.
    ///
    /// # Clauses
    ///
    /// - `pool`, `inside`: the pool of a logical block, which is one of them.
    fn pool_of(&self, i: u32) -> u32
        requires { i < length (logical_in (pools self.now)) }
        ensures pool { result ≡ pool_of (pools self.now) i }
        ensures inside { result < length (pools self.now) };

    /// The spare of this pool that is taken as the `k`-th, counted from 0. None exactly where it has no more than `k`.
    ///
    /// # Clauses
    ///
    /// - the spare of a pool that is taken as the k-th; none exactly where it has no more than k.
    ///
    /// # Answers
    ///
    /// - `Some`, `None`: the spare of the pool that is taken as the k-th; `None` exactly when it has no more than k.
    ///   (`spares_at`)
    fn spare(&self, pool: u32, k: u32) -> Option<u32>
        requires { pool < length (pools self.now) }
        ensures { result ≡ slice_get (spares_at (pools self.now) pool) k };

    /// What a block is.
    ///
    /// # Clauses
    ///
    /// - what a block is: a logical block, with its number; a spare; a data block that is neither; or no data block.
    ///
    /// # Answers
    ///
    /// - `Logical`: the block is that logical block. (`HasRoleIn`)
    /// - `Primary`: it is a spare. (`HasRoleIn`)
    /// - `Supplementary`: it is a spare. (`HasRoleIn`)
    /// - `Slipped`: it is a data block, but no logical block and no spare. (`HasRoleIn`)
    /// - `Outside`: it is no data block. (`HasRoleIn`)
    fn role(&self, block: u32) -> Role
        ensures { HasRoleIn (blocks self.now) (pools self.now) block result };
}
