//! The bytes of one block, whole and by sectors.

ghost use Rattle.std.specs.Prelude.{◌≡◌, ℕ, ◌+◌, ◌*◌, ◌<◌, ◌≤◌, ◌↔◌, List, length, take, drop, replicate, IfOk, IsTrue, ◌++◌};
ghost use Rattle.std.specs.Borrow.{sem};
ghost use Rattle.model_bytes.specs.Bytes.{put_at};
ghost use Rattle.ram_bytes.specs.Lending.{LendsBytes};
ghost use Rattle.ram_bytes.specs.declared.block.TheConstants.{BLOCK_BYTES, SECTOR_BYTES, SECTORS_PER_BLOCK};

use crate::budget::{Budget, MemoryRefused};
use std::marker::Model;

/// How many bytes a sector has.
pub const SECTOR_BYTES: usize = 2_048;

/// How many sectors a block has. A block is the unit of writing, after ECMA-330's ECC block.
pub const SECTORS_PER_BLOCK: usize = 16;

/// How many bytes a block has.
pub const BLOCK_BYTES: usize = 32_768;

/// The bytes of one block, sixteen sectors. Its room is taken once, when it is made.
#[derive(Drop)]
pub struct Block {
    bytes: Vec<u8>,
}

impl Model for Block {
    ghost use Rattle.std.specs.Prelude.{◌≡◌, ℕ, List, vec_len};

    ghost Value = { List ℕ };

    ghost view = { λ b. b.bytes.items };

    ghost invariant = { λ b. vec_len b.bytes ≡ 32768 };
}

impl Block {
    /// A block of zeros.
    ///
    /// # Answers
    ///
    /// - `Ok`: a block of zeros. (clause)
    /// - `Err`: the system refused memory that was asked for within the budget. (clause)
    pub fn zeros(budget: &mut Budget) -> Result<Block, MemoryRefused>
        requires free { BLOCK_BYTES ≤ budget.old }
        ensures left { budget.new + BLOCK_BYTES ≡ budget.old }
        ensures zeros { IfOk result (λ block. block ≡ replicate BLOCK_BYTES 0) }
    {
        Ok(Block {
            bytes: budget.zeros(BLOCK_BYTES)?,
        })
    }

    /// All bytes of the block.
    pub fn bytes(&self) -> &[u8]
        ensures same { result.now ≡ self.now }
        ensures len { length result.now ≡ BLOCK_BYTES }
    {
        self.bytes.as_slice()
    }

    /// All bytes of the block, to be written. The block is then the first 32,768 bytes of what was written,
    /// followed by what it held.
    pub fn bytes_mut(&mut self) -> &mut [u8]
        ensures* writes_back { sem 𝓛 (LendsBytes self.entry result) }
        ensures same { result.now ≡ self.old }
        ensures len { length result.now ≡ BLOCK_BYTES }
    {
        self.bytes.as_mut_slice()
    }

    /// The bytes of sector `k` of the block.
    pub fn sector(&self, k: usize) -> &[u8]
        requires { k < SECTORS_PER_BLOCK }
        ensures same { result.now ≡ take SECTOR_BYTES (drop (SECTOR_BYTES * k) self.now) }
        ensures len { length result.now ≡ SECTOR_BYTES }
    {
        &self.bytes[SECTOR_BYTES * k..SECTOR_BYTES * (k + 1)]
    }

    /// Puts the bytes of sector `k` of the block, and leaves the other sectors.
    pub fn set_sector(&mut self, k: usize, from: &[u8])
        requires inside { k < SECTORS_PER_BLOCK }
        requires whole { length from.now ≡ SECTOR_BYTES }
        ensures { self.new ≡ put_at (SECTOR_BYTES * k) from.now self.old }
    {
        self.bytes[SECTOR_BYTES * k..SECTOR_BYTES * (k + 1)].copy_from_slice(from);
    }

    /// Takes over all bytes of the other block.
    pub fn copy_from(&mut self, other: &Block)
        ensures { self.new ≡ other.now }
    {
        self.bytes.copy_from_slice(&other.bytes);
    }

    /// Makes each byte this one.
    pub fn fill(&mut self, byte: u8)
        ensures { self.new ≡ replicate BLOCK_BYTES byte }
    {
        self.bytes.fill(byte);
    }

    /// Whether both blocks have the same bytes.
    ///
    /// # Answers
    ///
    /// - `true`, `false`: `true` exactly when both blocks have the same bytes. (clause)
    pub fn same(&self, other: &Block) -> bool
        ensures { IsTrue result ↔ (self.now ≡ other.now) }
    {
        self.bytes.as_slice() == other.bytes.as_slice()
    }
}
