//! The number of the word behind `generate IMAGE`.
ghost use Rattle.std.specs.Prelude.{◌≡◌};
ghost use Rattle.ram_run.specs.Words.{seed_of};

use ram_text::{are_digits, decimal};

/// How many digits the number has at most.
const SEED_DIGITS: usize = 20;

/// The number that the word spells: 1 to 20 decimal digits, of which the first may be zeros, and at most 2^64 - 1. None of
/// any other word. (This project's own.)
#[tactic(auto, unfolding(crate::specs::Words::seed_of))]
pub fn seed_of(word: &[u8]) -> Option<u64>
    ensures { result ≡ seed_of word.now }
{
    if word.is_empty() || word.len() > SEED_DIGITS || !are_digits(word) {
        return None;
    }
    u64::try_from(decimal(word)).ok()
}
