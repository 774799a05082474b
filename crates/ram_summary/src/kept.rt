//! A script that lies in memory, as a source that never fails.
ghost use Rattle.std.specs.Prelude.{◌≡◌, ◌<◌, Some, length};
ghost use Rattle.ram_outside.specs.Source.{TakeRule};

use ram_outside::{Source, Take};
use std::marker::Model;

/// A source of these bytes, in pieces as large as are asked for.
#[derive(Drop)]
pub struct KeptScript {
    bytes: Vec<u8>,
    given: usize,
}

impl Model for KeptScript {
    ghost use Rattle.std.specs.Prelude.{◌≤◌, drop, vec_len};
    ghost use Rattle.ram_summary.specs.Kept.{KeptState};

    ghost Value = { KeptState };

    ghost view = { λ s. record { left = drop s.given s.bytes.items } };

    ghost invariant = { λ s. s.given ≤ vec_len s.bytes };
}

impl KeptScript {
    /// Gives these bytes.
    pub fn new(bytes: Vec<u8>) -> KeptScript
        ensures { result.left ≡ bytes.items }
    {
        KeptScript { bytes, given: 0 }
    }
}

impl Source for KeptScript {
    ghost left = { λ s. Some s.left };

    ghost faults = { λ _. 0 };

    fn take(&mut self, into: &mut [u8]) -> Take
        requires { 0 < length into.old }
        ensures { TakeRule (Some self.old.left) (Some self.new.left) 0 0 into.new result }
    {
        let left = &self.bytes[self.given..];
        let count = into.len().min(left.len());
        if count == 0 {
            return Take::End;
        }
        into[..count].copy_from_slice(&left[..count]);
        self.given += count;
        Take::Got(count)
    }
}
