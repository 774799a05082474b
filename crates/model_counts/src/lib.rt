//! When a count rose, for counts that are kept in 64 bits. Definitions alone, and their laws.
#![tactic(auto)]

ghost use Rattle.std.specs.Prelude.{◌≡◌, ◌+◌, ◌≤◌, ℕ};
ghost use Rattle.model_counts.specs.Counts.{Rose, counted};

/// Two rises, one after the other, are one rise by both; no rise leaves the count as it is, and none falls.
pub fn counts_add_up()
    ensures both { (before more yet : ℕ) → counted (counted before more) yet ≡ counted before (more + yet) }
    ensures none { (before : ℕ) → counted before 0 ≡ before }
    ensures never_falls { (before more : ℕ) → before ≤ counted before more }
{}

/// A count that rose in between, and fell neither before nor afterwards, rose over the whole time.
pub fn rose_within()
    ensures { (first before now last : ℕ) → first ≤ before → Rose before now → now ≤ last → Rose first last }
{}
