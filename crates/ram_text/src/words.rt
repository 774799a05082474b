//! The words of a line, and the numbers among them.
ghost use Rattle.std.specs.Prelude.{◌≡◌, ◌<◌, ◌≤◌, ◌+◌, [], ◌∷◌, None, Some, MatchOption, IfSome, length, slice_index};
ghost use Rattle.std.specs.List.{AllPass, list_all};
ghost use Rattle.std.specs.Char.{is_ascii_digit};
ghost use Rattle.ram_text.specs.ScriptWords.{words_of, without_return, decimal_value, space};
ghost use Rattle.ram_text.specs.ScriptReading.{number_of, only_word, first_number, only_number};

use memchr::memchr;

/// How many digits a number has at most.
const NUMBER_DIGITS: usize = 10;

/// The line without the carriage return at its end.
pub(crate) fn without_return_of(line: &[u8]) -> &[u8]
    ensures { result.now ≡ without_return line.now }
{
    match line {
        [prefix @ .., b'\r'] => prefix,
        _ => line,
    }
}

/// The first word, and what lies behind it; none where there is no word.
pub(crate) fn next_word(line: &[u8]) -> Option<(&[u8], &[u8])>
    ensures found { MatchOption result (words_of line.now ≡ [])
        (λ found. words_of line.now ≡ found.0.now ∷ words_of found.1.now) }
    ensures shorter { IfSome result (λ found. length found.0.now + length found.1.now ≤ length line.now) }
{
    let line = without_spaces(line);
    if line.is_empty() {
        return None;
    }
    match memchr(b' ', line) {
        Some(end) => Some(line.split_at(end)),
        None => Some(line.split_at(line.len())),
    }
}

/// The word, where there is one alone.
pub(crate) fn last_word(line: &[u8]) -> Option<&[u8]>
    ensures found { MatchOption result (only_word (words_of line.now) ≡ None)
        (λ word. only_word (words_of line.now) ≡ Some word.now) }
    ensures shorter { IfSome result (λ word. length word.now ≤ length line.now) }
{
    let (word, rest) = next_word(line)?;
    match next_word(rest) {
        None => Some(word),
        Some(_) => None,
    }
}

/// The number of the first word, and what lies behind it.
pub(crate) fn next_number(line: &[u8]) -> Option<(u32, &[u8])>
    ensures found { MatchOption result (first_number (words_of line.now) ≡ None)
        (λ found. first_number (words_of line.now) ≡ Some (found.0, words_of found.1.now)) }
    ensures shorter { IfSome result (λ found. length found.1.now ≤ length line.now) }
{
    let (word, rest) = next_word(line)?;
    let value = number(word)?;
    Some((value, rest))
}

/// The number of the word that is there alone.
pub(crate) fn last_number(line: &[u8]) -> Option<u32>
    ensures { result ≡ only_number (words_of line.now) }
{
    let word = last_word(line)?;
    number(word)
}

/// The number that the word spells.
#[tactic(auto, unfolding(crate::specs::ScriptReading::number_of))]
fn number(word: &[u8]) -> Option<u32>
    ensures { result ≡ number_of word.now }
{
    if word.is_empty() || word.len() > NUMBER_DIGITS || !are_digits(word) {
        return None;
    }
    u32::try_from(decimal(word)).ok()
}

/// Whether each byte is a decimal digit.
///
/// # Clauses
///
/// - Whether a word has decimal digits alone, and the number that up to twenty of them spell (`decimal_value`).
///
/// # Answers
///
/// - `true`, `false`: `true` exactly when each byte is a decimal digit. (clause)
pub fn are_digits(word: &[u8]) -> bool
    ensures { result ≡ list_all is_ascii_digit word.now }
{
    word.iter().all(|byte| byte.is_ascii_digit())
}

/// The number that the digits spell, the highest first. There are at most twenty of them.
///
/// # Clauses
///
/// - Whether a word has decimal digits alone, and the number that up to twenty of them spell (`decimal_value`).
pub fn decimal(digits: &[u8]) -> u128
    requires short { length digits.now ≤ 20 }
    requires whole { AllPass is_ascii_digit digits.now }
    ensures { result ≡ decimal_value digits.now }
{
    let mut value = 0;
    for digit in digits {
        value = value * 10 + u128::from(*digit - b'0');
    }
    value
}

/// The line without the spaces that it begins with.
fn without_spaces(line: &[u8]) -> &[u8]
    ensures words { words_of result.now ≡ words_of line.now }
    ensures shorter { length result.now ≤ length line.now }
    ensures first { 0 < length result.now → ¬ (slice_index result.now 0 ≡ space) }
{
    for (offset, byte) in line.iter().enumerate() {
        if *byte != b' ' {
            return &line[offset..];
        }
    }
    &[]
}
