//! An image in memory. It touches its own bytes, and the slice of a read that is done.
ghost use Rattle.std.specs.Prelude.{◌≡◌, ◌+◌, ◌<◌, ◌≤◌, ◌↔◌, IsTrue, Some, None, IsOk, OnOk, [], if◌then◌else◌, length, vec_capacity};
ghost use Rattle.ram_outside.specs.Added.{AddsNow};
ghost use Rattle.ram_outside.specs.Image.{LenRule, ReadAtRule, WriteAtRule, SetLenRule, SyncRule, FailsAgain};
ghost use Rattle.ram_outside.specs.Past.{LenPast, ReadPast, WritePast};
ghost use Rattle.ram_outside.specs.Calls.{no_calls, with_call, with_failed_call};
ghost use Rattle.ram_outside.specs.Memory.{NextImageCallFails, GivesLengthExactly, ReadsImageExactly, WritesImageExactly, ResizesExactly, SyncsExactly, unfailed};
ghost use Rattle.ram_outside.specs.MemImage.{past_of, view_now, memory_stops};
ghost use Rattle.ram_outside.specs.declared.image.Length.TheVariants as lengths;
ghost use Rattle.ram_outside.specs.declared.image.Moved.TheVariants as moves;

use crate::image::{Image, Length, Moved};
use crate::memory::calls::Calls;
use std::alloc::AllocError;
use std::marker::Model;

/// A disc image whose bytes lie in memory.
#[derive(Debug, Drop)]
pub struct MemImage {
    bytes: Vec<u8>,
    calls: Calls,
    // The bytes before each call that may have changed them and was done, the oldest first, where they are kept.
    earlier: Vec<Vec<u8>>,
    keeps: bool,
}

impl Model for MemImage {
    ghost use Rattle.std.specs.Prelude.{Some, None, map, reverse, vec_capacity, if◌then◌else◌};
    ghost use Rattle.ram_outside.specs.Memory.{ImageState};

    ghost Value = { ImageState };

    ghost view = { λ i. record {
      bytes = i.bytes.items;
      room = vec_capacity i.bytes;
      calls = i.calls;
      earlier = if i.keeps then Some (reverse (map (λ before. before.items) i.earlier.items)) else None;
    } };
}

impl MemImage {
    /// An image of these bytes. `failing` has the numbers, from 1 on, of the calls that fail. What it was after its calls is not kept.
    pub fn new(bytes: Vec<u8>, failing: Vec<u64>) -> MemImage
        ensures { result ≡ record {
          bytes = bytes.items;
          room = vec_capacity bytes;
          calls = no_calls failing.items;
          earlier = None;
        } }
    {
        MemImage {
            earlier: Vec::new(*bytes.allocator()),
            keeps: false,
            bytes,
            calls: Calls::new(failing),
        }
    }

    /// The same, but it keeps what it was after each call, until memory for that is refused.
    pub fn with_past(bytes: Vec<u8>, failing: Vec<u64>) -> MemImage
        ensures { result ≡ record {
          bytes = bytes.items;
          room = vec_capacity bytes;
          calls = no_calls failing.items;
          earlier = Some [];
        } }
    {
        MemImage {
            earlier: Vec::new(*bytes.allocator()),
            keeps: true,
            bytes,
            calls: Calls::new(failing),
        }
    }

    // Counts one call more, and its failure where it is one that fails. Whether it is: one that is to fail, or any behind one that
    // failed.
    fn next_fails(&mut self) -> bool
        ensures fails { IsTrue result ↔ NextImageCallFails self.old.calls }
        ensures calls { self.new ≡ record self.old {
          calls = if result then with_failed_call self.old.calls else with_call self.old.calls;
        } }
    {
        let failed = self.calls.faults() > 0;
        let due = self.calls.next_fails();
        if failed && !due {
            self.calls.add_faults(1);
        }
        failed || due
    }

    // Keeps the bytes before a call that may change them. Where memory is refused, it keeps nothing any more.
    fn keep_bytes(&mut self)
        ensures same { self.new ≡ record self.old { earlier = self.new.earlier } }
        ensures keeps { AddsNow self.old.bytes self.old.earlier self.new.earlier }
    {
        if self.keeps {
            self.keeps = match self.bytes.as_slice().to_vec(*self.bytes.allocator()) {
                Ok(before) => self.earlier.push(before).is_ok(),
                Err(_) => false,
            };
        }
    }

    /// The bytes of the image.
    pub fn bytes(&self) -> &[u8]
        ensures { result.now ≡ self.now.bytes }
    {
        self.bytes.as_slice()
    }

    /// How many calls were made that the image may fail, up to 2^64 - 1.
    pub fn calls(&self) -> u64
        ensures { result ≡ self.now.calls.made }
    {
        self.calls.made()
    }

    /// Makes room for `len` bytes in all, and changes no byte.
    ///
    /// # Answers
    ///
    /// - `Ok`: there is room for this many bytes in all; always if there was before. (clause)
    /// - `Err`: memory was refused; the bytes and the count are as before. (clause)
    pub fn reserve(&mut self, len: usize) -> Result<(), AllocError>
        ensures ok { OnOk result (len ≤ self.new.room) }
        ensures enough { len ≤ self.old.room → IsOk result }
        ensures room { self.old.room ≤ self.new.room }
        ensures same { self.new ≡ record self.old { room = self.new.room } }
    {
        self.bytes.reserve(len.saturating_sub(self.bytes.len()))
    }

    /// How often the image failed, up to 2^64 - 1.
    pub(super) fn faults(&self) -> u64
        ensures { result ≡ self.now.calls.faults }
    {
        self.calls.faults()
    }

    /// Forgets the failures that were counted.
    pub(super) fn forget_faults(&mut self)
        ensures { self.new ≡ unfailed self.old }
    {
        self.calls.forget_faults();
    }
}

impl Image for MemImage {
    ghost bytes = { λ i. Some i.bytes };

    ghost faults = { λ i. i.calls.faults };

    ghost past = { past_of };

    ghost laws = { memory_stops };

    fn len(&mut self) -> Length
        ensures rule { LenRule (Some self.old.bytes) (Some self.new.bytes)
            self.old.calls.faults self.new.calls.faults result }
        ensures past { LenPast (view_now self.old) (view_now self.new) result }
        ensures stops { 0 < self.old.calls.faults
            → FailsAgain lengths.Failed result (Some self.old.bytes) (Some self.new.bytes) }
        ensures exactly { GivesLengthExactly self.old self.new result }
    {
        if self.next_fails() {
            return Length::Failed;
        }
        Length::Is(self.bytes.len() as u64)
    }

    fn read_at(&mut self, at: u64, into: &mut [u8]) -> Moved
        requires { at + length into.old ≤ length self.old.bytes }
        ensures rule { ReadAtRule (Some self.old.bytes) (Some self.new.bytes)
            self.old.calls.faults self.new.calls.faults at into.new result }
        ensures past { ReadPast (view_now self.old) (view_now self.new) result }
        ensures stops { 0 < self.old.calls.faults
            → FailsAgain moves.Failed result (Some self.old.bytes) (Some self.new.bytes) }
        ensures exactly { ReadsImageExactly self.old self.new at into.old into.new result }
    {
        if self.next_fails() {
            return Moved::Failed;
        }
        let at = at as usize;
        into.copy_from_slice(&self.bytes[at..at + into.len()]);
        Moved::Done
    }

    fn write_at(&mut self, at: u64, from: &[u8]) -> Moved
        requires { at + length from.now ≤ length self.old.bytes }
        ensures rule { WriteAtRule (Some self.old.bytes) (Some self.new.bytes)
            self.old.calls.faults self.new.calls.faults at from.now result }
        ensures past { WritePast (view_now self.old) (view_now self.new) result }
        ensures stops { 0 < self.old.calls.faults
            → FailsAgain moves.Failed result (Some self.old.bytes) (Some self.new.bytes) }
        ensures exactly { WritesImageExactly self.old self.new at from.now result }
    {
        if self.next_fails() {
            return Moved::Failed;
        }
        self.keep_bytes();
        let at = at as usize;
        self.bytes[at..at + from.len()].copy_from_slice(from);
        Moved::Done
    }

    fn set_len(&mut self, len: u64) -> Moved
        ensures rule { SetLenRule (Some self.old.bytes) (Some self.new.bytes)
            self.old.calls.faults self.new.calls.faults len result }
        ensures past { WritePast (view_now self.old) (view_now self.new) result }
        ensures stops { 0 < self.old.calls.faults
            → FailsAgain moves.Failed result (Some self.old.bytes) (Some self.new.bytes) }
        ensures exactly { ResizesExactly self.old self.new len result }
    {
        if self.next_fails() {
            return Moved::Failed;
        }
        match self
            .bytes
            .reserve((len as usize).saturating_sub(self.bytes.len()))
        {
            Ok(()) => {
                self.keep_bytes();
                let _ = self.bytes.resize(len as usize, 0);
                Moved::Done
            }
            Err(_) => {
                self.calls.add_faults(1);
                Moved::Failed
            }
        }
    }

    fn sync(&mut self) -> Moved
        ensures rule { SyncRule (Some self.old.bytes) (Some self.new.bytes)
            self.old.calls.faults self.new.calls.faults result }
        ensures past { ReadPast (view_now self.old) (view_now self.new) result }
        ensures stops { 0 < self.old.calls.faults
            → FailsAgain moves.Failed result (Some self.old.bytes) (Some self.new.bytes) }
        ensures exactly { SyncsExactly self.old self.new result }
    {
        if self.next_fails() {
            return Moved::Failed;
        }
        Moved::Done
    }
}
