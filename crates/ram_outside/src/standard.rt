//! Standard input and standard output. No bytes of them are known; what the system does is trusted.
ghost use Rattle.std.specs.Prelude.{◌≡◌, ℕ, ◌<◌, ◌≤◌, None, IfOk, length};
ghost use Rattle.ram_outside.specs.Source.{TakeRule};
ghost use Rattle.ram_outside.specs.Sink.{PutRule, sink_shown};
ghost use Rattle.ram_outside.specs.Adapters.{count_after_take, count_after_put};

use crate::errors::count_error;
use crate::sink::{Put, Sink};
use crate::source::{Source, Take};
use std::io;
use std::io::{Error, ErrorKind, Read};
use std::marker::Model;

/// Standard input, seen as its count of errors.
#[derive(Drop)]
pub struct StdSource<R: Input> {
    reader: R::Reader,
    faults: u64,
}

impl<R: Input> Model for StdSource<R> {
    ghost use Rattle.std.specs.Prelude.{ℕ};

    ghost Value = { ℕ };

    ghost view = { λ s. s.faults };
}

impl<R: Input> StdSource<R> {
    /// Standard input, with no error counted.
    pub fn new(rt: &R) -> StdSource<R>
        ensures { result ≡ 0 }
    {
        StdSource {
            reader: rt.reader(),
            faults: 0,
        }
    }
}

impl<R: Input> Source for StdSource<R> {
    ghost left = { λ _. None };

    ghost faults = { λ s. s };

    fn take(&mut self, into: &mut [u8]) -> Take
        requires { 0 < length into.old }
        ensures rule { TakeRule None None self.old self.new into.new result }
        ensures count { self.new ≡ count_after_take result self.old }
    {
        match count_error(self.reader.read(into), &mut self.faults) {
            Some(0) => Take::End,
            Some(count) => Take::Got(count),
            None => Take::Failed,
        }
    }
}

/// Standard output, seen as its count of errors. Each `put` is one write, and nothing is kept back.
#[derive(Drop)]
pub struct StdSink<R: Print> {
    rt: R,
    faults: u64,
}

impl<R: Print> Model for StdSink<R> {
    ghost use Rattle.std.specs.Prelude.{ℕ};

    ghost Value = { ℕ };

    ghost view = { λ s. s.faults };
}

impl<R: Print> StdSink<R> {
    /// Standard output, with no error counted.
    pub fn new(rt: R) -> StdSink<R>
        ensures { result ≡ 0 }
    {
        StdSink { rt, faults: 0 }
    }
}

impl<R: Print> Sink for StdSink<R> {
    ghost written = { λ _. None };

    ghost refused = { λ _. None };

    ghost faults = { λ s. s };

    fn put(&mut self, piece: &[u8]) -> Put
        requires { 0 < length piece.now }
        ensures rule { PutRule (sink_shown None None self.old) (sink_shown None None self.new) piece.now result }
        ensures count { self.new ≡ count_after_put result self.old }
    {
        match count_error(write_some(&self.rt, piece), &mut self.faults) {
            Some(count) => Put::Took(count),
            None => Put::Failed,
        }
    }
}

/// Writes the first bytes of the piece, at least one.
fn write_some(rt: &impl Print, piece: &[u8]) -> io::Result<usize>
    ensures { IfOk result (λ count. (0 < count) × (count ≤ length piece.now)) }
{
    match rt.write_some(piece)? {
        0 => Err(Error::from(ErrorKind::WriteZero)),
        count => Ok(count),
    }
}
