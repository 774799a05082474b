//! The regions of a record in their room: no call but `new` takes memory.

ghost use Rattle.std.specs.Prelude.{◌≡◌, ◌+◌, ◌<◌, ◌≤◌, IfOk, length, replicate, All, set};
ghost use Rattle.model_lists.specs.declared.records.TheConstants.{REGIONS};

use model_lists::REGIONS;
use ram_bytes::{Budget, MemoryRefused};
use std::marker::Model;

/// A byte for each region of a disc, which is not 0 where the region is dirty.
#[derive(Debug, Drop)]
pub struct Regions {
    bytes: Vec<u8>,
}

impl Model for Regions {
    ghost use Rattle.std.specs.Prelude.{◌≡◌, ℕ, List, vec_len};

    ghost Value = { List ℕ };

    ghost view = { λ r. r.bytes.items };

    ghost invariant = { λ r. vec_len r.bytes ≡ 2296 };
}

/// The same bytes, with what their type says of each.
fn as_bytes(bytes: &[u8]) -> &[u8]
    ensures same { result.now ≡ bytes.now }
    ensures fit { All (λ byte. byte < 256) result.now }
{
    bytes
}

impl Regions {
    /// Regions that are all clean.
    ///
    /// # Answers
    ///
    /// - `Ok`: regions that are all clean. (clause)
    /// - `Err`: the system refused memory that was asked for within the budget. (clause)
    pub fn new(budget: &mut Budget) -> Result<Regions, MemoryRefused>
        requires free { REGIONS ≤ budget.old }
        ensures left { budget.old ≤ budget.new + REGIONS }
        ensures clean { IfOk result (λ r. r ≡ replicate REGIONS 0) }
    {
        Ok(Regions {
            bytes: budget.zeros(REGIONS)?,
        })
    }

    /// A byte for each region.
    pub fn bytes(&self) -> &[u8]
        ensures same { result.now ≡ self.now }
        ensures len { length result.now ≡ REGIONS }
        ensures fit { All (λ byte. byte < 256) result.now }
    {
        as_bytes(self.bytes.as_slice())
    }

    /// Takes over a byte for each region.
    pub fn copy_from(&mut self, bytes: &[u8])
        requires { length bytes.now ≡ REGIONS }
        ensures same { self.new ≡ bytes.now }
        ensures fit { All (λ byte. byte < 256) self.new }
    {
        self.bytes.copy_from_slice(bytes);
    }

    /// Makes each byte this one.
    pub fn fill(&mut self, byte: u8)
        ensures { self.new ≡ replicate REGIONS byte }
    {
        self.bytes.fill(byte);
    }

    /// Makes the byte of one region this one.
    pub fn put(&mut self, region: usize, byte: u8)
        requires { region < REGIONS }
        ensures { self.new ≡ set self.old region byte }
    {
        self.bytes[region] = byte;
    }
}
