//! A sink in memory. It touches its own bytes alone.
ghost use Rattle.std.specs.Prelude.{◌≡◌, ℕ, ◌<◌, ◌≤◌, [], Some, IsOk, OnOk, length};
ghost use Rattle.ram_outside.specs.Sink.{PutRule, sink_shown};
ghost use Rattle.ram_outside.specs.Calls.{no_calls};
ghost use Rattle.ram_outside.specs.Memory.{PutsExactly};

use crate::memory::calls::Calls;
use crate::sink::{Put, Sink};
use std::alloc::{AllocError, Global};
use std::marker::Model;

/// A sink that keeps what is written in memory.
#[derive(Debug, Drop)]
pub struct MemSink {
    bytes: Vec<u8>,
    piece: usize,
    refused: usize,
    calls: Calls,
}

impl Model for MemSink {
    ghost use Rattle.std.specs.Prelude.{ℕ, ◌<◌, vec_capacity};
    ghost use Rattle.ram_outside.specs.Memory.{SinkState};

    ghost Value = { SinkState };

    ghost view = { λ s. record {
      written = s.bytes.items;
      room = vec_capacity s.bytes;
      piece = s.piece;
      refused = s.refused;
      calls = s.calls;
    } };

    ghost invariant = { λ s. 0 < s.piece };
}

impl MemSink {
    /// Nothing is written yet, and at most `piece` bytes are taken at once. `failing` has the numbers, from 1 on, of
    /// the calls that fail.
    pub fn new(alloc: Global, piece: usize, failing: Vec<u64>) -> MemSink
        requires { 0 < piece }
        ensures written { result.written ≡ [] }
        ensures piece { result.piece ≡ piece }
        ensures refused { result.refused ≡ 0 }
        ensures calls { result.calls ≡ no_calls failing.items }
    {
        MemSink {
            bytes: Vec::new(alloc),
            piece,
            refused: 0,
            calls: Calls::new(failing),
        }
    }

    /// The bytes that were written.
    pub fn bytes(&self) -> &[u8]
        ensures { result.now ≡ self.now.written }
    {
        self.bytes.as_slice()
    }

    /// How many bytes would have been written, had the last call that failed taken its whole piece; 0 where none failed.
    pub fn refused(&self) -> usize
        ensures { result ≡ self.now.refused }
    {
        self.refused
    }

    /// How many calls of `put` were made, up to 2^64 - 1.
    pub fn calls(&self) -> u64
        ensures { result ≡ self.now.calls.made }
    {
        self.calls.made()
    }

    /// Makes room for `len` bytes in all, and changes no byte.
    ///
    /// # Answers
    ///
    /// - `Ok`: there is room for this many bytes in all; always if there was before. (clause)
    /// - `Err`: memory was refused; what was written and the count are as before. (clause)
    pub fn reserve(&mut self, len: usize) -> Result<(), AllocError>
        ensures ok { OnOk result (len ≤ self.new.room) }
        ensures enough { len ≤ self.old.room → IsOk result }
        ensures room { self.old.room ≤ self.new.room }
        ensures same { self.new ≡ record self.old { room = self.new.room } }
    {
        self.bytes.reserve(len.saturating_sub(self.bytes.len()))
    }
}

impl Sink for MemSink {
    ghost written = { λ s. Some s.written };

    ghost refused = { λ s. Some s.refused };

    ghost faults = { λ s. s.calls.faults };

    /// # Clauses
    ///
    /// - `PutsExactly`: Which call fails, and how many bytes are taken. Room that was refused is a failure, and nothing is
    ///   written then.
    fn put(&mut self, piece: &[u8]) -> Put
        requires { 0 < length piece.now }
        ensures rule { PutRule (sink_shown (Some self.old.written) (Some self.old.refused) self.old.calls.faults)
            (sink_shown (Some self.new.written) (Some self.new.refused) self.new.calls.faults) piece.now result }
        ensures exactly { PutsExactly self.old self.new piece.now result }
    {
        if self.calls.next_fails() {
            self.refused = self.bytes.len() + piece.len();
            return Put::Failed;
        }
        let count = self.piece.min(piece.len());
        match self.bytes.extend_from_slice(&piece[..count]) {
            Ok(()) => Put::Took(count),
            Err(_) => {
                self.calls.add_faults(1);
                self.refused = self.bytes.len() + piece.len();
                Put::Failed
            }
        }
    }
}
