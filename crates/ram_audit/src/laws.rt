//! The laws of comparisons, and the limit of a text: functions with an empty body, of which the contract is the law.

ghost use Rattle.std.specs.Prelude.{◌≡◌, ◌≢◌, ℕ, List};
ghost use Rattle.ram_audit.specs.declared.telling.TheConstants.{TEXT_ROOM};
ghost use Rattle.ram_audit.specs.Comparing.{FirstDiffer};

/// The number that contracts share with the code.
///
/// # Clauses
///
/// - `text`: the number of bytes of the room.
pub fn limits_are_these()
    ensures text { TEXT_ROOM ≡ 2645927 }
{}

/// Bytes that differ from a text in a line are not that text, and they first differ in one line alone.
///
/// # Clauses
///
/// - `differs`, `one`: bytes that differ from a text in a line are not that text, and first differ in one line alone. So `Same`
///   and `Differs` come exactly where they say so.
pub fn a_difference_is_in_one_line()
    ensures differs { (bytes text : List ℕ) (line : ℕ) → FirstDiffer bytes text line → bytes ≢ text }
    ensures one { (bytes text : List ℕ) (a b : ℕ) → FirstDiffer bytes text a → FirstDiffer bytes text b → a ≡ b }
{}
