//! The bytes of a command block, of any command.

ghost use Rattle.std.specs.Prelude.{◌≡◌, ◌<◌, ◌≤◌, length, slice_index};
ghost use Rattle.std.specs.Option.{SomeIff};
ghost use Rattle.ram_bytes.specs.declared.cdb.TheConstants.{CDB_LIMIT};

use arrayvec::ArrayVec;
use std::marker::Model;

/// How many bytes a command block has at most.
pub const CDB_LIMIT: usize = 16;

/// A command block, after INCITS MMC: 1 to 16 bytes, of which the first is the operation code.
#[derive(Debug, PartialEq, Eq, Drop)]
pub struct Cdb {
    bytes: ArrayVec<u8, CDB_LIMIT>,
}

impl Model for Cdb {
    ghost use Rattle.std.specs.Prelude.{◌≤◌, ◌<◌, ℕ, List, length};

    ghost Value = { List ℕ };

    ghost view = { λ c. c.bytes.items };

    ghost invariant = { λ c. (0 < length c.bytes.items) × (length c.bytes.items ≤ 16) };

    ghost inverse = { λ bytes. record { bytes = record { items = bytes } } };
}

impl Cdb {
    /// The command block of these bytes. None exactly where they are none, or more than 16.
    ///
    /// # Answers
    ///
    /// - `Some`, `None`: `Some`, with these bytes, exactly when there are 1 to 16 of them. (clause)
    pub fn from_bytes(bytes: &[u8]) -> Option<Cdb>
        ensures { SomeIff result ((0 < length bytes.now) × (length bytes.now ≤ CDB_LIMIT)) bytes.now }
    {
        if bytes.is_empty() {
            return None;
        }
        match ArrayVec::try_from(bytes) {
            Ok(bytes) => Some(Cdb { bytes }),
            Err(_) => None,
        }
    }

    /// How many bytes it has, from 1 to 16.
    pub fn len(&self) -> usize
        ensures all { result ≡ length self.now }
        ensures some { 0 < result }
        ensures short { result ≤ CDB_LIMIT }
    {
        self.bytes.len()
    }

    /// The byte at this place, counted from 0.
    pub fn byte(&self, at: usize) -> u8
        requires { at < length self.now }
        ensures { result ≡ slice_index self.now at }
    {
        self.bytes.as_slice()[at]
    }

    /// All its bytes.
    pub fn bytes(&self) -> &[u8]
        ensures same { result.now ≡ self.now }
        ensures some { 0 < length result.now }
        ensures short { length result.now ≤ CDB_LIMIT }
    {
        self.bytes.as_slice()
    }

    /// The operation code, its first byte.
    pub fn operation_code(&self) -> u8
        ensures { result ≡ slice_index self.now 0 }
    {
        self.bytes()[0]
    }
}
