//! The lines of the script language.
ghost use Rattle.std.specs.Prelude.{◌≡◌, ◌≤◌, [], ℕ, List, MatchResult, IfSome, IfNone, length, vec_capacity};
ghost use Rattle.ram_text.specs.ScriptWords.{words_of};
ghost use Rattle.ram_text.specs.Script.{Reads};
ghost use Rattle.ram_text.specs.Faults.{IsFaultWord, fault_of, fault_in, fault_word};
ghost use Rattle.ram_text.specs.ScriptReading.{press_of, power_of, fail_of, wear_of, cut_of, tick_of, scrub_of, command_of, fate_of, form_of, line_by, line_of, reading_of, Puts};
ghost use Rattle.ram_text.specs.declared.lines.TheConstants.{LINE_LIMIT};
ghost use Rattle.ram_text.specs.declared.payload.TheConstants.{PAYLOAD_ROOM};
ghost use Rattle.ram_text.specs.declared.script.Line.{Line as Read};

use crate::payload::{command_block, put_payload};
use crate::words::{last_number, last_word, next_number, next_word, without_return_of};
use model_medium::Fate;
use ram_bytes::Cdb;
use ram_cdb::out_length;

/// A line of the script.
#[derive(Debug, PartialEq, Eq, Drop)]
pub enum Line {
    /// It has no words, or is a comment. It has no answer.
    Empty,
    /// Make the image anew, for a disc of this many zones, this scale and this many primary spares. Numbers of which there is
    /// no disc are answered `not pressed`.
    Press {
        /// How many zones the disc has, from 1 to 35.
        zones: u32,
        /// How large the zones are, from 1 to 100.
        scale: u32,
        /// How many primary spares the disc has, in blocks: at least 1, at most 4,092, and fewer than its data blocks.
        psa: u32,
    },
    /// Turn the power off and on again.
    Power,
    /// A block becomes dead.
    Fail {
        /// The block.
        block: u32,
    },
    /// A block becomes dead at its `n`-th use from now.
    Wear {
        /// The block.
        block: u32,
        /// How many uses, at least one.
        n: u32,
    },
    /// The power is cut at the `n`-th use of the medium from now.
    Cut {
        /// How many uses, at least one.
        n: u32,
        /// What the cut leaves of a block that is being written.
        fate: Fate,
    },
    /// The drive writes the oldest block that is pending in its write cache.
    Tick,
    /// Blocks of the disc are verified, and nothing is written: the next one, or each.
    Scrub {
        /// Each block.
        all: bool,
    },
    /// A command for the drive. Its data are put beside the line.
    Command {
        /// The command block.
        cdb: Cdb,
    },
}

/// The line is none of the script language.
#[derive(Clone, Copy, Debug, PartialEq, Eq)]
pub struct Unread;

/// The forms of a line, by its first word.
#[derive(Clone, Copy, Debug, PartialEq, Eq)]
enum Form {
    Press,
    Power,
    Fail,
    Wear,
    Cut,
    Tick,
    Scrub,
    Command,
}

/// Reads a line of the script, which comes without its line feed, in one pass, and puts the data that go with it into
/// `payload`. It takes no memory.
///
/// It answers [`Unread`] exactly where the line is none of the language; `payload` is empty then.
///
/// # Clauses
///
/// - `read`: What the line reads as by the grammar, with its data in the payload. No reading is told exactly where there is none;
///   the payload is empty then.
///
/// # Answers
///
/// A line reads as one thing at most (`a_line_has_one_reading`), so each form comes exactly when the line has it.
///
/// - `Ok`: the line is in the language. Then: `payload` has the data that go with it. (`Reads`)
/// - `Err`: exactly when it is not. Then: `payload` is empty. (`Reads`)
/// - `Empty`: it has no words, or is a comment. Then: no data. (`IsForm`, `IsComment`)
/// - `Press`: `press` and three numbers. Then: no data. (`IsForm`)
/// - `Power`: `power`. Then: no data. (`IsForm`)
/// - `Fail`: `fail` and a number. Then: no data. (`IsForm`)
/// - `Wear`: `wear` and two numbers, the second not 0. Then: no data. (`IsForm`)
/// - `Cut`: `cut`, a number that is not 0, and a fate. Then: no data. (`IsForm`)
/// - `Tick`: `tick`. Then: no data. (`IsForm`)
/// - `Scrub`: `scrub`, alone or with `all`. Then: no data. (`IsForm`)
/// - `Command`: `cdb` and a block of 1 to 16 bytes, alone or with `fill`, `count` or `hex`. Then: the data that are spelled.
///   (`IsForm`)
pub fn parse_line(line: &[u8], payload: &mut Vec<u8>) -> Result<Line, Unread>
    requires short { length line.now ≤ LINE_LIMIT }
    requires empty { payload.old.items ≡ [] }
    requires room { PAYLOAD_ROOM ≤ vec_capacity payload.old }
    ensures read { MatchResult result
        (λ read. Reads line.now read payload.new.items)
        (λ _. ((read : Read) («data» : List ℕ) → ¬ Reads line.now read «data») × (payload.new.items ≡ [])) }
    ensures room { vec_capacity payload.old ≤ vec_capacity payload.new }
{
    read_line(without_return_of(line), payload).ok_or(Unread)
}

/// The line that a word of the program is, where it makes a block fail, now or at a later use, or cuts the power at one.
///
/// # Answers
///
/// - `Some`: the word reads as this line, which is such a fault. (`IsFaultWord`)
/// - `None`: exactly when it reads as none. (clause)
/// - `Fail`, `Wear`, `Cut`: as of `parse_line`. (`IsFaultWord`)
/// - `Empty`, `Press`, `Power`, `Tick`, `Scrub`, `Command`: never. (`IsFault`)
pub fn parse_fault(word: &[u8]) -> Option<Line>
    ensures reads { result ≡ fault_word word.now }
    ensures some { IfSome result (λ line. IsFaultWord word.now line) }
    ensures none { IfNone result ((line : Read) → ¬ IsFaultWord word.now line) }
{
    read_fault(without_return_of(word))
}

fn read_fault(line: &[u8]) -> Option<Line>
    ensures { result ≡ fault_in line.now }
{
    if let [b'#', ..] = line {
        return None;
    }
    read_fault_words(line)
}

/// The fault that the words are.
#[tactic(auto, unfolding(crate::specs::Faults::fault_of))]
pub(crate) fn read_fault_words(line: &[u8]) -> Option<Line>
    ensures { result ≡ fault_of (words_of line.now) }
{
    let (word, rest) = next_word(line)?;
    match form_named(word)? {
        Form::Fail => fail(rest),
        Form::Wear => wear(rest),
        Form::Cut => cut(rest),
        Form::Press | Form::Power | Form::Tick | Form::Scrub | Form::Command => None,
    }
}

fn read_line(line: &[u8], payload: &mut Vec<u8>) -> Option<Line>
    requires short { length line.now ≤ LINE_LIMIT }
    requires empty { payload.old.items ≡ [] }
    requires room { PAYLOAD_ROOM ≤ vec_capacity payload.old }
    ensures read { Puts (reading_of line.now) result payload.new.items }
    ensures room { vec_capacity payload.old ≤ vec_capacity payload.new }
{
    if let [b'#', ..] = line {
        return Some(Line::Empty);
    }
    read_words(line, payload)
}

#[tactic(auto, unfolding(crate::specs::ScriptReading::line_of))]
fn read_words(line: &[u8], payload: &mut Vec<u8>) -> Option<Line>
    requires short { length line.now ≤ LINE_LIMIT }
    requires empty { payload.old.items ≡ [] }
    requires room { PAYLOAD_ROOM ≤ vec_capacity payload.old }
    ensures read { Puts (line_of (words_of line.now)) result payload.new.items }
    ensures room { vec_capacity payload.old ≤ vec_capacity payload.new }
{
    let Some((word, rest)) = next_word(line) else {
        return Some(Line::Empty);
    };
    let form = form_named(word)?;
    read_form(form, rest, payload)
}

fn read_form(form: Form, rest: &[u8], payload: &mut Vec<u8>) -> Option<Line>
    requires short { length rest.now ≤ LINE_LIMIT }
    requires empty { payload.old.items ≡ [] }
    requires room { PAYLOAD_ROOM ≤ vec_capacity payload.old }
    ensures read { Puts (line_by (words_of rest.now) form) result payload.new.items }
    ensures room { vec_capacity payload.old ≤ vec_capacity payload.new }
{
    match form {
        Form::Press => press(rest),
        Form::Power => power(rest),
        Form::Fail => fail(rest),
        Form::Wear => wear(rest),
        Form::Cut => cut(rest),
        Form::Tick => tick(rest),
        Form::Scrub => scrub(rest),
        Form::Command => command(rest, payload),
    }
}

fn form_named(word: &[u8]) -> Option<Form>
    ensures { result ≡ form_of word.now }
{
    if word == b"press".as_slice() {
        return Some(Form::Press);
    }
    if word == b"power".as_slice() {
        return Some(Form::Power);
    }
    if word == b"fail".as_slice() {
        return Some(Form::Fail);
    }
    if word == b"wear".as_slice() {
        return Some(Form::Wear);
    }
    if word == b"cut".as_slice() {
        return Some(Form::Cut);
    }
    if word == b"tick".as_slice() {
        return Some(Form::Tick);
    }
    if word == b"scrub".as_slice() {
        return Some(Form::Scrub);
    }
    if word == b"cdb".as_slice() {
        return Some(Form::Command);
    }
    None
}

/// The line `press` that the words behind its first make.
#[tactic(auto, unfolding(crate::specs::ScriptReading::press_of))]
pub(crate) fn press(rest: &[u8]) -> Option<Line>
    ensures { result ≡ press_of (words_of rest.now) }
{
    let (zones, rest) = next_number(rest)?;
    let (scale, rest) = next_number(rest)?;
    let psa = last_number(rest)?;
    Some(Line::Press { zones, scale, psa })
}

#[tactic(auto, unfolding(crate::specs::ScriptReading::power_of))]
fn power(rest: &[u8]) -> Option<Line>
    ensures { result ≡ power_of (words_of rest.now) }
{
    match next_word(rest) {
        None => Some(Line::Power),
        Some(_) => None,
    }
}

#[tactic(auto, unfolding(crate::specs::ScriptReading::fail_of))]
fn fail(rest: &[u8]) -> Option<Line>
    ensures { result ≡ fail_of (words_of rest.now) }
{
    let block = last_number(rest)?;
    Some(Line::Fail { block })
}

#[tactic(auto, unfolding(crate::specs::ScriptReading::wear_of))]
fn wear(rest: &[u8]) -> Option<Line>
    ensures { result ≡ wear_of (words_of rest.now) }
{
    let (block, rest) = next_number(rest)?;
    let n = last_number(rest)?;
    if n > 0 {
        Some(Line::Wear { block, n })
    } else {
        None
    }
}

#[tactic(auto, unfolding(crate::specs::ScriptReading::cut_of))]
fn cut(rest: &[u8]) -> Option<Line>
    ensures { result ≡ cut_of (words_of rest.now) }
{
    let (n, rest) = next_number(rest)?;
    let word = last_word(rest)?;
    let fate = fate_named(word)?;
    if n > 0 {
        Some(Line::Cut { n, fate })
    } else {
        None
    }
}

#[tactic(auto, unfolding(crate::specs::ScriptReading::tick_of))]
fn tick(rest: &[u8]) -> Option<Line>
    ensures { result ≡ tick_of (words_of rest.now) }
{
    match next_word(rest) {
        None => Some(Line::Tick),
        Some(_) => None,
    }
}

#[tactic(auto, unfolding(crate::specs::ScriptReading::scrub_of))]
fn scrub(rest: &[u8]) -> Option<Line>
    ensures { result ≡ scrub_of (words_of rest.now) }
{
    let Some((word, rest)) = next_word(rest) else {
        return Some(Line::Scrub { all: false });
    };
    if word != b"all".as_slice() {
        return None;
    }
    match next_word(rest) {
        None => Some(Line::Scrub { all: true }),
        Some(_) => None,
    }
}

fn fate_named(word: &[u8]) -> Option<Fate>
    ensures { result ≡ fate_of word.now }
{
    if word == b"old".as_slice() {
        return Some(Fate::Old);
    }
    if word == b"new".as_slice() {
        return Some(Fate::New);
    }
    if word == b"torn".as_slice() {
        return Some(Fate::Torn);
    }
    None
}

#[tactic(auto, unfolding(crate::specs::ScriptReading::command_of))]
fn command(rest: &[u8], payload: &mut Vec<u8>) -> Option<Line>
    requires short { length rest.now ≤ LINE_LIMIT }
    requires empty { payload.old.items ≡ [] }
    requires room { PAYLOAD_ROOM ≤ vec_capacity payload.old }
    ensures read { Puts (command_of (words_of rest.now)) result payload.new.items }
    ensures room { vec_capacity payload.old ≤ vec_capacity payload.new }
{
    let (word, rest) = next_word(rest)?;
    let cdb = command_block(word)?;
    put_payload(out_length(&cdb), rest, payload)?;
    Some(Line::Command { cdb })
}
