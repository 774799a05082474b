//! The data that go with a line, as its words name them.
ghost use Rattle.std.specs.Prelude.{◌≡◌, ◌≤◌, ◌-◌, ◌/◌, None, Some, MatchBool, [], ◌++◌, unwrap_or, length, replicate, vec_len, vec_capacity};
ghost use Rattle.hex.specs.Hex.{hex_digit_value};
ghost use Rattle.ram_text.specs.ScriptWords.{words_of};
ghost use Rattle.ram_text.specs.Script.{counted_up};
ghost use Rattle.ram_text.specs.ScriptReading.{hex_of, hex_byte_of, command_block_of, payload_kind, payload_of, payload_by, PutsDown};
ghost use Rattle.ram_text.specs.declared.payload.TheConstants.{PAYLOAD_ROOM};
ghost use Rattle.ram_text.specs.declared.lines.TheConstants.{LINE_LIMIT};

use crate::words::{last_word, next_word};
use ram_bytes::{CDB_LIMIT, Cdb, SECTOR_BYTES};

/// The room that the data of any line fit in: 1,024 sectors.
pub const PAYLOAD_ROOM: usize = 2_097_152;

/// How a line names the data.
#[derive(Clone, Copy, Debug, PartialEq, Eq)]
enum Kind {
    Fill,
    Count,
    Hex,
}

fn kind_named(word: &[u8]) -> Option<Kind>
    ensures { result ≡ payload_kind word.now }
{
    if word == b"fill".as_slice() {
        return Some(Kind::Fill);
    }
    if word == b"count".as_slice() {
        return Some(Kind::Count);
    }
    if word == b"hex".as_slice() {
        return Some(Kind::Hex);
    }
    None
}

/// The command block that the word spells.
pub(crate) fn command_block(word: &[u8]) -> Option<Cdb>
    ensures { result ≡ command_block_of word.now }
{
    let count = word.len() / 2;
    if count > CDB_LIMIT {
        return None;
    }
    let mut bytes = [0; CDB_LIMIT];
    let block = &mut bytes[..count];
    if decode(word, block) {
        Cdb::from_bytes(block)
    } else {
        None
    }
}

/// Puts down the data that the words name, where so many bytes are due: none, or of one kind.
#[tactic(auto, unfolding(crate::specs::ScriptReading::payload_of))]
pub(crate) fn put_payload(due: usize, words: &[u8], payload: &mut Vec<u8>) -> Option<()>
    requires bound { due ≤ PAYLOAD_ROOM }
    requires short { length words.now ≤ LINE_LIMIT }
    requires empty { payload.old.items ≡ [] }
    requires room { PAYLOAD_ROOM ≤ vec_capacity payload.old }
    ensures read { PutsDown (payload_of due (words_of words.now)) result payload.new.items }
    ensures room { vec_capacity payload.old ≤ vec_capacity payload.new }
{
    let Some((word, rest)) = next_word(words) else {
        return Some(());
    };
    let digits = last_word(rest)?;
    let kind = kind_named(word)?;
    put_kind(kind, due, digits, payload)
}

// Puts down data of this kind.
fn put_kind(kind: Kind, due: usize, digits: &[u8], payload: &mut Vec<u8>) -> Option<()>
    requires bound { due ≤ PAYLOAD_ROOM }
    requires short { length digits.now ≤ LINE_LIMIT }
    requires empty { payload.old.items ≡ [] }
    requires room { PAYLOAD_ROOM ≤ vec_capacity payload.old }
    ensures read { PutsDown (payload_by due digits.now kind) result payload.new.items }
    ensures room { vec_capacity payload.old ≤ vec_capacity payload.new }
{
    match kind {
        Kind::Fill => {
            let byte = hex_byte(digits)?;
            grow(due, byte, payload);
            Some(())
        }
        Kind::Count => {
            let byte = hex_byte(digits)?;
            count_up(due, byte, payload);
            Some(())
        }
        Kind::Hex => put_hex(digits, payload),
    }
}

/// The byte that two hexadecimal digits spell.
fn hex_byte(word: &[u8]) -> Option<u8>
    ensures { result ≡ hex_byte_of word.now }
{
    if word.len() != 2 {
        return None;
    }
    let mut bytes = [0; 1];
    if decode(word, &mut bytes) {
        Some(bytes[0])
    } else {
        None
    }
}

// The value of a hexadecimal digit, and 255 for a byte that is none.
fn digit(byte: u8) -> u8
    ensures { result ≡ unwrap_or (hex_digit_value byte) 255 }
{
    match byte {
        b'0'..=b'9' => byte - b'0',
        b'A'..=b'F' => byte - b'A' + 10,
        b'a'..=b'f' => byte - b'a' + 10,
        _ => 255,
    }
}

// Puts down the bytes that hexadecimal digits spell, where there is room for half as many. What is there afterwards is left
// open where the answer is false. All pairs are decoded, whatever they are, so no branch hangs on a digit.
fn decode(digits: &[u8], into: &mut [u8]) -> bool
    requires { length into.old ≡ length digits.now / 2 }
    ensures { MatchBool result (hex_of digits.now ≡ Some into.new) (hex_of digits.now ≡ None) }
{
    if digits.len() % 2 != 0 {
        return false;
    }
    let mut most = 0_u8;
    'pairs: for at in 0..into.len() {
        let high = digit(digits[2 * at]);
        let low = digit(digits[2 * at + 1]);
        most = most.max(high).max(low);
        into[at] = high % 16 * 16 + low % 16;
    }
    most < 16
}

/// The bytes that hexadecimal digits spell.
fn put_hex(digits: &[u8], payload: &mut Vec<u8>) -> Option<()>
    requires short { length digits.now ≤ LINE_LIMIT }
    requires empty { payload.old.items ≡ [] }
    requires room { PAYLOAD_ROOM ≤ vec_capacity payload.old }
    ensures read { PutsDown (hex_of digits.now) result payload.new.items }
    ensures room { vec_capacity payload.old ≤ vec_capacity payload.new }
{
    grow(digits.len() / 2, 0, payload);
    if decode(digits, payload) {
        return Some(());
    }
    payload.clear();
    None
}

/// Bytes that count up by sectors from this one on, in pieces of a sector.
fn count_up(due: usize, byte: u8, payload: &mut Vec<u8>)
    requires empty { payload.old.items ≡ [] }
    requires bound { due ≤ PAYLOAD_ROOM }
    requires room { due ≤ vec_capacity payload.old }
    ensures counted { payload.new.items ≡ counted_up byte due }
    ensures room { vec_capacity payload.old ≤ vec_capacity payload.new }
{
    for sector in 0..due.div_ceil(SECTOR_BYTES) {
        let end = due.min(SECTOR_BYTES * (sector + 1));
        let value = (usize::from(byte) + sector) % 256;
        grow(end, value as u8, payload);
    }
}

// Makes the data so long, each new byte this one. The room is there.
fn grow(end: usize, byte: u8, payload: &mut Vec<u8>)
    requires longer { vec_len payload.old ≤ end }
    requires room { end ≤ vec_capacity payload.old }
    ensures grown { payload.new.items ≡ payload.old.items ++ replicate (end - vec_len payload.old) byte }
    ensures len { vec_len payload.new ≡ end }
    ensures room { vec_capacity payload.old ≤ vec_capacity payload.new }
{
    match payload.resize(end, byte) {
        Ok(()) => {}
        Err(_) => unreachable!(),
    }
}
