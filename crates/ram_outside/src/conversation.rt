//! The trait `Conversation`: a script that comes and a report that goes, as one thing. And the conversation that a source and a sink make.
ghost use Rattle.std.specs.Prelude.{◌≡◌, ℕ, ◌<◌, None, Option, List, length};
ghost use Rattle.std.specs.Borrow.{Lends, sem};
ghost use Rattle.ram_outside.specs.Source.{TakeRule};
ghost use Rattle.ram_outside.specs.Conversation.{Asked, AsksNow, HoldsReport, asked_with};

use crate::sink::Sink;
use crate::source::{Source, Take};

/// Bytes that come in pieces, and beside them a sink for what is answered. What comes is reached through it alone, so it is known what was
/// written whenever more was asked for.
pub trait Conversation {
    /// Where the answers go.
    type Sink: Sink;

    /// The bytes that are left to come, where they are known.
    ghost left: { Self → Option (List ℕ) };

    /// How often the bytes failed to come. It never falls, and stands still at 2^64 - 1.
    ghost faults: { Self → ℕ };

    /// How it stood whenever more was asked for, the newest first, where that is known.
    ghost asked: { Self → Option (List Asked) };

    /// The sink.
    ghost report: { Self → Self.Sink };

    /// The conversation with this sink in place of its own.
    ghost with_report: { Self → Self.Sink → Self };

    /// The sink is a part of it.
    ghost laws: { HoldsReport left faults asked report with_report };

    /// Puts the next bytes that are left at the beginning of `into`, as [`Source::take`] does, and notes how it stood before: what was left, and
    /// what was written by then.
    ///
    /// # Clauses
    ///
    /// - `rule` (`TakeRule`): the bytes, and the count of failures, as of a source.
    /// - `same`: the sink is as it was.
    /// - `asks` (`AsksNow`): more was asked for once more, whatever the answer.
    ///
    /// # Answers
    ///
    /// - `Got`: the next bytes came: one at least, and no more than the slice holds. Then: they are at the start of the slice,
    ///   and no longer left. (`GivesNext`)
    /// - `End`: nothing was left. Then: nothing else changed. (`HasEnded`)
    /// - `Failed`: a failure was counted. Then: as much is left as before. (`SourceFails`)
    fn take(&mut self, into: &mut [u8]) -> Take
        requires { 0 < length into.old }
        ensures rule { TakeRule (left self.old) (left self.new)
            (faults self.old) (faults self.new) into.new result }
        ensures same { report self.new ≡ report self.old }
        ensures asks { AsksNow (asked_with (left self.old) (Self.Sink.written (report self.old)))
            (asked self.old) (asked self.new) };

    /// The sink, to be written to. Nothing else of the conversation changes by it.
    fn report_mut(&mut self) -> &mut Self::Sink
        ensures* writes_back { sem 𝓛 (Lends Self.row Self.Sink.row self.entry result (with_report self.old)) }
        ensures sink { result.now ≡ report self.old };
}

/// A source and a sink as one conversation. When more was asked for is not known.
#[derive(Drop)]
pub struct BothEnds<S: Source + Drop, K: Sink + Drop> {
    script: S,
    report: K,
}

impl<S: Source + Drop, K: Sink + Drop> BothEnds<S, K> {
    /// The conversation of this source and this sink.
    pub fn new(script: S, report: K) -> BothEnds<S, K>
        ensures script { result.script ≡ script }
        ensures report { result.report ≡ report }
    {
        BothEnds { script, report }
    }

    /// The source.
    pub fn source(&self) -> &S
        ensures { result.now ≡ self.now.script }
    {
        &self.script
    }

    /// The source and the sink.
    pub fn into_parts(self) -> (S, K)
        ensures script { result.0 ≡ self.script }
        ensures report { result.1 ≡ self.report }
    {
        let BothEnds { script, report } = self;
        (script, report)
    }
}

impl<S: Source + Drop, K: Sink + Drop> Conversation for BothEnds<S, K> {
    type Sink = K;

    ghost use Rattle.std.proofs.Common.{refl};
    ghost use Rattle.ram_outside.specs.BothEnds.{with_sink};

    ghost left = { λ talk. S.left talk.script };

    ghost faults = { λ talk. S.faults talk.script };

    ghost asked = { λ _. None };

    ghost report = { λ talk. talk.report };

    ghost with_report = { with_sink };

    ghost laws = { record {
      report_is = λ talk sink. refl;
      same_left = λ talk sink. refl;
      same_faults = λ talk sink. refl;
      same_asked = λ talk sink. refl;
    } };

    fn take(&mut self, into: &mut [u8]) -> Take {
        self.script.take(into)
    }

    fn report_mut(&mut self) -> &mut K {
        &mut self.report
    }
}
