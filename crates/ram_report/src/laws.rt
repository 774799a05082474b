//! Laws of the report, for those who rely on its definitions.
ghost use Rattle.std.specs.Prelude.{◌≡◌};
ghost use Rattle.ram_report.specs.ReportLines.{answer_words, HasWords};
ghost use Rattle.model_sense.specs.declared.answer.Answer.{Answer as Reported};

/// Two answers to commands that read the same are the same, with all parts of their sense.
pub fn answers_are_distinct()
    ensures { (a b : Reported) → HasWords a → HasWords b → answer_words a ≡ answer_words b → a ≡ b }
{}
