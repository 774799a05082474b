//! The trait `Sink`: bytes that go out in pieces. Definitions alone.
ghost use Rattle.std.specs.Prelude.{ℕ, ◌<◌, Option, List, length};
ghost use Rattle.ram_outside.specs.Sink.{PutRule, sink_shown};

/// What a call of [`Sink::put`] took.
#[derive(Clone, Copy, Debug, PartialEq, Eq)]
pub enum Put {
    /// So many bytes, at least one, from the beginning of the piece.
    Took(usize),
    /// The sink took nothing, failed, and counted it.
    Failed,
}

/// Where bytes are written one after another, such as a report.
pub trait Sink {
    /// The bytes that were written, where they are known.
    ghost written: { Self → Option (List ℕ) };

    /// How many bytes would have been written, had the last call that failed taken its whole piece; where that is known.
    ghost refused: { Self → Option ℕ };

    /// How often the sink has failed. It never falls, and stands still at 2^64 - 1.
    ghost faults: { Self → ℕ };

    /// Writes the first bytes of `piece`, which has one byte at least: as many as the sink takes at once, from 1 to
    /// all. `Took` says how many. `Failed` says that nothing was written, and one failure more is counted.
    ///
    /// # Clauses
    ///
    /// - `PutRule`: what each answer says of the bytes, as told below.
    ///
    /// # Answers
    ///
    /// - `Took`: the sink took the first bytes of the piece: one at least, all at most. Then: just these are written, behind what
    ///   was. (`Takes`)
    /// - `Failed`: the sink counted one failure. Then: nothing was written; the piece is what it refused last. (`SinkFails`)
    fn put(&mut self, piece: &[u8]) -> Put
        requires { 0 < length piece.now }
        ensures { PutRule (sink_shown (written self.old) (refused self.old) (faults self.old))
            (sink_shown (written self.new) (refused self.new) (faults self.new)) piece.now result };
}
