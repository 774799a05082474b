//! The lines of a script for a mirror of two discs.
ghost use Rattle.std.specs.Prelude.{◌≡◌, ◌≤◌, [], ℕ, List, MatchResult, length, vec_capacity};
ghost use Rattle.ram_text.specs.ScriptWords.{words_of};
ghost use Rattle.ram_text.specs.ScriptReading.{Puts};
ghost use Rattle.ram_text.specs.MirrorScript.{MirrorReads};
ghost use Rattle.ram_text.specs.MirrorReading.{side_of, mirror_form_of, for_both, on_side, single, is_count, read_of, written_of, write_of, lead_of, mirror_line_by, mirror_line_of, mirror_reading_of};
ghost use Rattle.ram_text.specs.declared.lines.TheConstants.{LINE_LIMIT};
ghost use Rattle.ram_text.specs.declared.payload.TheConstants.{PAYLOAD_ROOM};
ghost use Rattle.ram_text.specs.declared.mirror.MirrorLine.{MirrorLine as ReadLine};

use crate::payload::put_payload;
use crate::script::{Line, Unread, press, read_fault_words};
use crate::words::{last_number, last_word, next_number, next_word, without_return_of};
use model_medium::Fate;
use ram_bytes::SECTOR_BYTES;

/// How many sectors a read or a write has at most.
const SECTORS_LIMIT: u32 = 1_024;

/// A line of a script for a mirror. The side of the first image is a, that of the second b.
#[derive(Debug, PartialEq, Eq, Drop)]
pub enum MirrorLine {
    /// It has no words, or is a comment. It has no answer.
    Empty,
    /// Make both images anew, for discs of this many zones, this scale and this many primary spares.
    Press {
        /// How many zones a disc has.
        zones: u32,
        /// How large the zones are.
        scale: u32,
        /// How many primary spares a disc has, in blocks.
        psa: u32,
    },
    /// Turn the power of both sides off and on again.
    Power,
    /// Format both discs.
    Format,
    /// Read sectors.
    Read {
        /// The first.
        lba: u32,
        /// How many, from 1 to 1,024.
        n: u32,
    },
    /// Write sectors. Their data are put beside the line.
    Write {
        /// The first.
        lba: u32,
        /// How many, from 1 to 1,024.
        n: u32,
    },
    /// Copy to the other side what it may lack.
    Resync,
    /// Which side leads?
    Lead,
    /// Give the lead to this side.
    GiveLead {
        /// To a.
        on_a: bool,
    },
    /// A block of a side becomes dead.
    Fail {
        /// On a.
        on_a: bool,
        /// The block.
        block: u32,
    },
    /// A block of a side becomes dead at its `n`-th use from now.
    Wear {
        /// On a.
        on_a: bool,
        /// The block.
        block: u32,
        /// How many uses, at least one.
        n: u32,
    },
    /// The power of a side is cut at the `n`-th use of its medium from now.
    Cut {
        /// On a.
        on_a: bool,
        /// How many uses, at least one.
        n: u32,
        /// What the cut leaves of a block that is being written.
        fate: Fate,
    },
}

/// The forms of a line, by its first word.
#[derive(Clone, Copy, Debug, PartialEq, Eq)]
enum MirrorForm {
    Press,
    Power,
    Format,
    Read,
    Write,
    Resync,
    Lead,
    Side { on_a: bool },
}

/// Reads a line of a script for a mirror, which comes without its line feed, in one pass, and puts the data that go with it into
/// `payload`. It takes no memory.
///
/// # Clauses
///
/// - `read`: What the line reads as by the grammar, with its data in the payload. No reading is told exactly where there is none;
///   the payload is empty then.
///
/// # Answers
///
/// A line reads as one thing at most (`a_line_for_a_mirror_has_one_reading`), so each form comes exactly when the line has it.
///
/// - `Ok`: the line is in the language. Then: `payload` has the data that go with it. (`MirrorReads`)
/// - `Err`: exactly when it is not. Then: `payload` is empty. (`MirrorReads`)
/// - `Empty`: it has no words, or is a comment. Then: no data. (`IsMirrorForm`, `IsComment`)
/// - `Press`: `press` and three numbers. Then: no data. (`IsMirrorForm`)
/// - `Power`: `power`. Then: no data. (`IsMirrorForm`)
/// - `Format`: `format`. Then: no data. (`IsMirrorForm`)
/// - `Read`: `read` and two numbers, the second from 1 to 1,024. Then: no data. (`IsMirrorForm`)
/// - `Write`: `write`, two such numbers, and `fill`, `count` or `hex`. Then: the data that are spelled, as many as that many
///   sectors have. (`IsMirrorForm`)
/// - `Resync`: `resync`. Then: no data. (`IsMirrorForm`)
/// - `Lead`: `lead`. Then: no data. (`IsMirrorForm`)
/// - `GiveLead`: `lead` and `a` or `b`. Then: no data. (`IsMirrorForm`)
/// - `Fail`: `a` or `b`, `fail` and a number. Then: no data. (`IsMirrorForm`)
/// - `Wear`: `a` or `b`, `wear` and two numbers, the second not 0. Then: no data. (`IsMirrorForm`)
/// - `Cut`: `a` or `b`, `cut`, a number that is not 0, and a fate. Then: no data. (`IsMirrorForm`)
pub fn parse_mirror(line: &[u8], payload: &mut Vec<u8>) -> Result<MirrorLine, Unread>
    requires short { length line.now ≤ LINE_LIMIT }
    requires empty { payload.old.items ≡ [] }
    requires room { PAYLOAD_ROOM ≤ vec_capacity payload.old }
    ensures read { MatchResult result
        (λ read. MirrorReads line.now read payload.new.items)
        (λ _. ((read : ReadLine) («data» : List ℕ) → ¬ MirrorReads line.now read «data») × (payload.new.items ≡ [])) }
    ensures room { vec_capacity payload.old ≤ vec_capacity payload.new }
{
    read_mirror_line(without_return_of(line), payload).ok_or(Unread)
}

fn read_mirror_line(line: &[u8], payload: &mut Vec<u8>) -> Option<MirrorLine>
    requires short { length line.now ≤ LINE_LIMIT }
    requires empty { payload.old.items ≡ [] }
    requires room { PAYLOAD_ROOM ≤ vec_capacity payload.old }
    ensures read { Puts (mirror_reading_of line.now) result payload.new.items }
    ensures room { vec_capacity payload.old ≤ vec_capacity payload.new }
{
    if let [b'#', ..] = line {
        return Some(MirrorLine::Empty);
    }
    read_mirror_words(line, payload)
}

#[tactic(auto, unfolding(crate::specs::MirrorReading::mirror_line_of))]
fn read_mirror_words(line: &[u8], payload: &mut Vec<u8>) -> Option<MirrorLine>
    requires short { length line.now ≤ LINE_LIMIT }
    requires empty { payload.old.items ≡ [] }
    requires room { PAYLOAD_ROOM ≤ vec_capacity payload.old }
    ensures read { Puts (mirror_line_of (words_of line.now)) result payload.new.items }
    ensures room { vec_capacity payload.old ≤ vec_capacity payload.new }
{
    let Some((word, rest)) = next_word(line) else {
        return Some(MirrorLine::Empty);
    };
    let form = mirror_form_named(word)?;
    read_mirror_form(form, rest, payload)
}

fn read_mirror_form(form: MirrorForm, rest: &[u8], payload: &mut Vec<u8>) -> Option<MirrorLine>
    requires short { length rest.now ≤ LINE_LIMIT }
    requires empty { payload.old.items ≡ [] }
    requires room { PAYLOAD_ROOM ≤ vec_capacity payload.old }
    ensures read { Puts (mirror_line_by (words_of rest.now) form) result payload.new.items }
    ensures room { vec_capacity payload.old ≤ vec_capacity payload.new }
{
    match form {
        MirrorForm::Press => for_both(press(rest)?),
        MirrorForm::Power => single(MirrorLine::Power, rest),
        MirrorForm::Format => single(MirrorLine::Format, rest),
        MirrorForm::Read => read_sectors(rest),
        MirrorForm::Write => write_sectors(rest, payload),
        MirrorForm::Resync => single(MirrorLine::Resync, rest),
        MirrorForm::Lead => lead(rest),
        MirrorForm::Side { on_a } => on_side(on_a, read_fault_words(rest)?),
    }
}

fn mirror_form_named(word: &[u8]) -> Option<MirrorForm>
    ensures { result ≡ mirror_form_of word.now }
{
    if word == b"press".as_slice() {
        return Some(MirrorForm::Press);
    }
    if word == b"power".as_slice() {
        return Some(MirrorForm::Power);
    }
    if word == b"format".as_slice() {
        return Some(MirrorForm::Format);
    }
    if word == b"read".as_slice() {
        return Some(MirrorForm::Read);
    }
    if word == b"write".as_slice() {
        return Some(MirrorForm::Write);
    }
    if word == b"resync".as_slice() {
        return Some(MirrorForm::Resync);
    }
    if word == b"lead".as_slice() {
        return Some(MirrorForm::Lead);
    }
    let on_a = side_named(word)?;
    Some(MirrorForm::Side { on_a })
}

// Whether the word names the side a; none where it names no side.
fn side_named(word: &[u8]) -> Option<bool>
    ensures { result ≡ side_of word.now }
{
    if word == b"a".as_slice() {
        return Some(true);
    }
    if word == b"b".as_slice() {
        return Some(false);
    }
    None
}

// A line `press` for one disc, as the one for both sides.
fn for_both(line: Line) -> Option<MirrorLine>
    ensures { result ≡ for_both line }
{
    match line {
        Line::Press { zones, scale, psa } => Some(MirrorLine::Press { zones, scale, psa }),
        _ => None,
    }
}

// A line that makes one disc fail, as the line that does so to this side.
fn on_side(on_a: bool, line: Line) -> Option<MirrorLine>
    ensures { result ≡ on_side on_a line }
{
    match line {
        Line::Fail { block } => Some(MirrorLine::Fail { on_a, block }),
        Line::Wear { block, n } => Some(MirrorLine::Wear { on_a, block, n }),
        Line::Cut { n, fate } => Some(MirrorLine::Cut { on_a, n, fate }),
        _ => None,
    }
}

// The line, where no word is behind its own.
fn single(line: MirrorLine, rest: &[u8]) -> Option<MirrorLine>
    ensures { result ≡ single line (words_of rest.now) }
{
    match next_word(rest) {
        None => Some(line),
        Some(_) => None,
    }
}

// Whether a read or a write may have so many sectors.
fn is_count(n: u32) -> bool
    ensures { result ≡ is_count n }
{
    n > 0 && n <= SECTORS_LIMIT
}

#[tactic(auto, unfolding(crate::specs::MirrorReading::read_of))]
fn read_sectors(rest: &[u8]) -> Option<MirrorLine>
    ensures { result ≡ read_of (words_of rest.now) }
{
    let (lba, rest) = next_number(rest)?;
    let n = last_number(rest)?;
    if is_count(n) {
        Some(MirrorLine::Read { lba, n })
    } else {
        None
    }
}

#[tactic(auto, unfolding(crate::specs::MirrorReading::write_of))]
fn write_sectors(rest: &[u8], payload: &mut Vec<u8>) -> Option<MirrorLine>
    requires short { length rest.now ≤ LINE_LIMIT }
    requires empty { payload.old.items ≡ [] }
    requires room { PAYLOAD_ROOM ≤ vec_capacity payload.old }
    ensures read { Puts (write_of (words_of rest.now)) result payload.new.items }
    ensures room { vec_capacity payload.old ≤ vec_capacity payload.new }
{
    let (lba, rest) = next_number(rest)?;
    let (n, rest) = next_number(rest)?;
    if is_count(n) {
        put_written(lba, n, rest, payload)
    } else {
        None
    }
}

// The write of n sectors, with the data that the words name.
#[tactic(auto, unfolding(crate::specs::MirrorReading::written_of))]
fn put_written(lba: u32, n: u32, words: &[u8], payload: &mut Vec<u8>) -> Option<MirrorLine>
    requires few { n ≤ SECTORS_LIMIT }
    requires short { length words.now ≤ LINE_LIMIT }
    requires empty { payload.old.items ≡ [] }
    requires room { PAYLOAD_ROOM ≤ vec_capacity payload.old }
    ensures read { Puts (written_of lba n (words_of words.now)) result payload.new.items }
    ensures room { vec_capacity payload.old ≤ vec_capacity payload.new }
{
    let due = SECTOR_BYTES * n as usize;
    put_payload(due, words, payload)?;
    if payload.len() == due {
        return Some(MirrorLine::Write { lba, n });
    }
    payload.clear();
    None
}

#[tactic(auto, unfolding(crate::specs::MirrorReading::lead_of))]
fn lead(rest: &[u8]) -> Option<MirrorLine>
    ensures { result ≡ lead_of (words_of rest.now) }
{
    let Some((_, _)) = next_word(rest) else {
        return Some(MirrorLine::Lead);
    };
    let word = last_word(rest)?;
    let on_a = side_named(word)?;
    Some(MirrorLine::GiveLead { on_a })
}
