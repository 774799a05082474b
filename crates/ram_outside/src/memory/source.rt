//! A source in memory. It touches its own bytes, and of a slice only what a call gives.
ghost use Rattle.std.specs.Prelude.{◌≡◌, ℕ, ◌<◌, Some, length};
ghost use Rattle.ram_outside.specs.Source.{TakeRule};
ghost use Rattle.ram_outside.specs.Calls.{no_calls};
ghost use Rattle.ram_outside.specs.Memory.{TakesExactly};

use crate::memory::calls::Calls;
use crate::source::{Source, Take};
use std::marker::Model;

/// A source whose bytes lie in memory.
#[derive(Debug, Drop)]
pub struct MemSource {
    bytes: Vec<u8>,
    given: usize,
    piece: usize,
    calls: Calls,
}

impl Model for MemSource {
    ghost use Rattle.std.specs.Prelude.{ℕ, ◌<◌, ◌≤◌, drop, vec_len};
    ghost use Rattle.ram_outside.specs.Memory.{SourceState};

    ghost Value = { SourceState };

    ghost view = { λ s. record { left = drop s.given s.bytes.items; piece = s.piece; calls = s.calls } };

    ghost invariant = { λ s. (s.given ≤ vec_len s.bytes) × (0 < s.piece) };
}

impl MemSource {
    /// Gives these bytes, at most `piece` of them at once. `failing` has the numbers, from 1 on, of the calls that
    /// fail.
    pub fn new(bytes: Vec<u8>, piece: usize, failing: Vec<u64>) -> MemSource
        requires { 0 < piece }
        ensures { result ≡ record { left = bytes.items; piece = piece; calls = no_calls failing.items } }
    {
        MemSource {
            bytes,
            given: 0,
            piece,
            calls: Calls::new(failing),
        }
    }

    /// The bytes that are left.
    pub fn left(&self) -> &[u8]
        ensures { result.now ≡ self.now.left }
    {
        &self.bytes[self.given..]
    }

    /// How many calls of `take` were made, up to 2^64 - 1.
    pub fn calls(&self) -> u64
        ensures { result ≡ self.now.calls.made }
    {
        self.calls.made()
    }
}

impl Source for MemSource {
    ghost left = { λ s. Some s.left };

    ghost faults = { λ s. s.calls.faults };

    /// # Clauses
    ///
    /// - `TakesExactly`: Which call fails, how many bytes come at once, and which. The slice keeps its bytes behind those that
    ///   came; where nothing came it keeps all.
    fn take(&mut self, into: &mut [u8]) -> Take
        requires { 0 < length into.old }
        ensures rule { TakeRule (Some self.old.left) (Some self.new.left)
            self.old.calls.faults self.new.calls.faults into.new result }
        ensures exactly { TakesExactly self.old self.new into.old into.new result }
    {
        if self.calls.next_fails() {
            return Take::Failed;
        }
        let left = &self.bytes[self.given..];
        let count = self.piece.min(into.len()).min(left.len());
        if count == 0 {
            return Take::End;
        }
        into[..count].copy_from_slice(&left[..count]);
        self.given += count;
        Take::Got(count)
    }
}
