//! The trait `Source`: bytes that come in pieces. Definitions alone; each object that gives bytes has its own impl.
ghost use Rattle.std.specs.Prelude.{ℕ, ◌<◌, Option, List, length};
ghost use Rattle.ram_outside.specs.Source.{TakeRule};

/// What a call of [`Source::take`] gave.
#[derive(Clone, Copy, Debug, PartialEq, Eq)]
pub enum Take {
    /// So many bytes, at least one, at the beginning of the slice.
    Got(usize),
    /// Nothing is left.
    End,
    /// The source failed, and counted it.
    Failed,
}

/// Bytes that come in pieces, such as the lines of a script.
pub trait Source {
    /// The bytes that are left, where they are known.
    ghost left: { Self → Option (List ℕ) };

    /// How often the source has failed. It never falls, and stands still at 2^64 - 1.
    ghost faults: { Self → ℕ };

    /// Puts the next bytes that are left at the beginning of `into`, which has room for one byte at least: as many as
    /// come at once, from 1 to all of `into`. `Got` says how many. `End` says that nothing is left, `Failed` that as
    /// much is left as before and one failure more is counted.
    ///
    /// # Clauses
    ///
    /// - `TakeRule`: what each answer says of the bytes, as told below.
    ///
    /// # Answers
    ///
    /// - `Got`: the next bytes came: one at least, and no more than the slice holds. Then: they are at the start of the slice,
    ///   and no longer left. (`GivesNext`)
    /// - `End`: nothing was left. Then: nothing changed. (`HasEnded`)
    /// - `Failed`: the source counted a failure. Then: as much is left as before. (`SourceFails`)
    fn take(&mut self, into: &mut [u8]) -> Take
        requires { 0 < length into.old }
        ensures { TakeRule (left self.old) (left self.new)
            (faults self.old) (faults self.new) into.new result };
}
