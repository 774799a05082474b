//! The text of a certificate, line after line, in a room for that of any disc. No call but `new` takes memory.

ghost use Rattle.std.specs.Prelude.{◌≡◌, ◌+◌, ◌<◌, ◌≤◌, [], ◌∷◌, ◌++◌, length, decimal, vec_capacity};
ghost use Rattle.model_audit.specs.Text.{layout_words, version_word, kind_word, state_word, certificate_words, spaced, parted, certificate_line};
ghost use Rattle.model_audit.specs.declared.lines.CertificateLine.TheVariants as lines;
ghost use Rattle.ram_audit.specs.Bytes.{most_bytes, difference_text};

use itoa::Buffer;
use model_audit::{CertificateLine, CopyState};
use model_geometry::LayoutKind;
use model_lists::{PdlKind, Version};

/// How many bytes the text of a certificate has at most, of any disc: five lines of 147 bytes in all, 4,092 entries of the
/// primary list of 18, 8,184 of the secondary one of 27, twelve copies of 23, and 146,930 lost blocks of 16.
pub const TEXT_ROOM: usize = 2_645_927;

/// Puts bytes behind the text.
fn put(text: &mut Vec<u8>, bytes: &[u8])
    requires room { length text.old.items + length bytes.now ≤ vec_capacity text.old }
    ensures text { text.new.items ≡ text.old.items ++ bytes.now }
    ensures len { length text.new.items ≡ length text.old.items + length bytes.now }
    ensures room { vec_capacity text.old ≤ vec_capacity text.new }
{
    match text.extend_from_slice(bytes) {
        Ok(()) => {}
        Err(_) => unreachable!(),
    }
}

/// Puts a space and a word behind the text.
fn put_word(text: &mut Vec<u8>, word: &[u8])
    requires room { length text.old.items + 1 + length word.now ≤ vec_capacity text.old }
    ensures text { text.new.items ≡ text.old.items ++ 32 ∷ word.now }
    ensures len { length text.new.items ≡ length text.old.items + 1 + length word.now }
    ensures room { vec_capacity text.old ≤ vec_capacity text.new }
{
    put(text, b" ");
    put(text, word);
}

/// Puts a space and a number behind the text.
fn put_number(text: &mut Vec<u8>, number: u32)
    requires room { length text.old.items + 11 ≤ vec_capacity text.old }
    ensures text { text.new.items ≡ text.old.items ++ 32 ∷ decimal number }
    ensures len { length text.new.items ≤ length text.old.items + 11 }
    ensures room { vec_capacity text.old ≤ vec_capacity text.new }
{
    let mut buffer = Buffer::new();
    put_word(text, buffer.format(number).as_bytes());
}

/// Puts a space and a number of lines behind the text.
fn put_count(text: &mut Vec<u8>, count: u64)
    requires room { length text.old.items + 21 ≤ vec_capacity text.old }
    ensures text { text.new.items ≡ text.old.items ++ 32 ∷ decimal count }
    ensures len { length text.new.items ≤ length text.old.items + 21 }
    ensures room { vec_capacity text.old ≤ vec_capacity text.new }
{
    let mut buffer = Buffer::new();
    put_word(text, buffer.format(count).as_bytes());
}

/// The word of a version.
fn version_text(version: Version) -> &'static [u8]
    ensures word { result.now ≡ version_word version }
    ensures len { length result.now ≤ 3 }
{
    match version {
        Version::One => b"one",
        Version::Two => b"two",
    }
}

/// The word of a kind.
fn kind_text(kind: PdlKind) -> &'static [u8]
    ensures word { result.now ≡ kind_word kind }
    ensures len { length result.now ≤ 2 }
{
    match kind {
        PdlKind::P => b"p",
        PdlKind::G1 => b"g1",
        PdlKind::G2 => b"g2",
    }
}

/// The word of a state.
fn state_text(state: CopyState) -> &'static [u8]
    ensures word { result.now ≡ state_word state }
    ensures len { length result.now ≤ 6 }
{
    match state {
        CopyState::Exact => b"exact",
        CopyState::Other => b"other",
        CopyState::Unread => b"unread",
        CopyState::Dead => b"dead",
    }
}

/// Puts the word of a kind of layout behind the text, if it has one.
fn put_layout(text: &mut Vec<u8>, layout: LayoutKind)
    requires room { length text.old.items + 7 ≤ vec_capacity text.old }
    ensures text { text.new.items ≡ text.old.items ++ spaced (layout_words layout) }
    ensures len { length text.new.items ≤ length text.old.items + 7 }
    ensures room { vec_capacity text.old ≤ vec_capacity text.new }
{
    match layout {
        LayoutKind::OneGroup => {}
        LayoutKind::EachZone => put_word(text, b"groups"),
    }
}

/// Puts the words of the line of a geometry behind the text.
fn put_geometry(text: &mut Vec<u8>, zones: u32, scale: u32, psa: u32, layout: LayoutKind)
    requires room { length text.old.items + 48 ≤ vec_capacity text.old }
    ensures text { text.new.items ≡ text.old.items
        ++ parted (certificate_words (lines.Geometry zones scale psa layout)) }
    ensures len { length text.new.items ≤ length text.old.items + 48 }
    ensures room { vec_capacity text.old ≤ vec_capacity text.new }
{
    put(text, b"geometry");
    put_number(text, zones);
    put_number(text, scale);
    put_number(text, psa);
    put_layout(text, layout);
}

/// Puts the words of the line of a structure behind the text.
fn put_structure(text: &mut Vec<u8>, version: Version, counter: u32, area: u32)
    requires room { length text.old.items + 29 ≤ vec_capacity text.old }
    ensures text { text.new.items ≡ text.old.items ++ parted (certificate_words (lines.Dds version counter area)) }
    ensures len { length text.new.items ≤ length text.old.items + 29 }
    ensures room { vec_capacity text.old ≤ vec_capacity text.new }
{
    put(text, b"dds");
    put_word(text, version_text(version));
    put_number(text, counter);
    put_number(text, area);
}

/// Puts the words of the line of a secondary list behind the text.
fn put_secondary(text: &mut Vec<u8>, counter: u32, area: u32, ssa: u32)
    requires room { length text.old.items + 36 ≤ vec_capacity text.old }
    ensures text { text.new.items ≡ text.old.items ++ parted (certificate_words (lines.Sdl counter area ssa)) }
    ensures len { length text.new.items ≤ length text.old.items + 36 }
    ensures room { vec_capacity text.old ≤ vec_capacity text.new }
{
    put(text, b"sdl");
    put_number(text, counter);
    put_number(text, area);
    put_number(text, ssa);
}

/// Puts a first word and a number behind the text.
fn put_one(text: &mut Vec<u8>, word: &[u8], one: u32)
    requires room { length text.old.items + length word.now + 11 ≤ vec_capacity text.old }
    ensures text { text.new.items ≡ text.old.items ++ (word.now ++ spaced (decimal one ∷ [])) }
    ensures len { length text.new.items ≤ length text.old.items + length word.now + 11 }
    ensures room { vec_capacity text.old ≤ vec_capacity text.new }
{
    put(text, word);
    put_number(text, one);
}

/// Puts a first word and two numbers behind the text.
fn put_two(text: &mut Vec<u8>, word: &[u8], one: u32, two: u32)
    requires room { length text.old.items + length word.now + 22 ≤ vec_capacity text.old }
    ensures text { text.new.items ≡ text.old.items
        ++ (word.now ++ spaced (decimal one ∷ (decimal two ∷ []))) }
    ensures len { length text.new.items ≤ length text.old.items + length word.now + 22 }
    ensures room { vec_capacity text.old ≤ vec_capacity text.new }
{
    put(text, word);
    put_number(text, one);
    put_number(text, two);
}

/// Puts a first word, a number and a word behind the text.
fn put_both(text: &mut Vec<u8>, word: &[u8], one: u32, last: &[u8])
    requires room { length text.old.items + length word.now + 12 + length last.now ≤ vec_capacity text.old }
    ensures text { text.new.items ≡ text.old.items
        ++ (word.now ++ spaced (decimal one ∷ (last.now ∷ []))) }
    ensures len { length text.new.items ≤ length text.old.items + length word.now + 12 + length last.now }
    ensures room { vec_capacity text.old ≤ vec_capacity text.new }
{
    put(text, word);
    put_number(text, one);
    put_word(text, last);
}

/// Puts the words of the last line behind the text.
fn put_end(text: &mut Vec<u8>, count: u64)
    requires room { length text.old.items + 24 ≤ vec_capacity text.old }
    ensures text { text.new.items ≡ text.old.items ++ parted (certificate_words (lines.End count)) }
    ensures len { length text.new.items ≤ length text.old.items + 24 }
    ensures room { vec_capacity text.old ≤ vec_capacity text.new }
{
    put(text, b"end");
    put_count(text, count);
}

/// Puts the words of a line behind the text.
fn put_words(text: &mut Vec<u8>, line: CertificateLine)
    requires room { length text.old.items + most_bytes line ≤ vec_capacity text.old }
    ensures text { text.new.items ≡ text.old.items ++ parted (certificate_words line) }
    ensures len { length text.new.items + 1 ≤ length text.old.items + most_bytes line }
    ensures room { vec_capacity text.old ≤ vec_capacity text.new }
{
    match line {
        CertificateLine::Audit => put(text, b"audit"),
        CertificateLine::Geometry {
            zones,
            scale,
            psa,
            layout,
        } => put_geometry(text, zones, scale, psa, layout),
        CertificateLine::Bare { mark } => put_one(text, b"bare", mark),
        CertificateLine::Dds {
            version,
            counter,
            area,
        } => put_structure(text, version, counter, area),
        CertificateLine::Pdl { block, kind } => put_both(text, b"pdl", block, kind_text(kind)),
        CertificateLine::Sdl { counter, area, ssa } => put_secondary(text, counter, area, ssa),
        CertificateLine::Pair {
            defective,
            replacement,
        } => put_two(text, b"pair", defective, replacement),
        CertificateLine::Retired { defective } => put_one(text, b"retired", defective),
        CertificateLine::Copy { block, state } => put_both(text, b"copy", block, state_text(state)),
        CertificateLine::Lost { lba } => put_one(text, b"lost", lba),
        CertificateLine::End { lines } => put_end(text, lines),
    }
}

/// Puts a line behind the text.
pub fn put_line(text: &mut Vec<u8>, line: CertificateLine)
    requires room { length text.old.items + most_bytes line ≤ vec_capacity text.old }
    ensures text { text.new.items ≡ text.old.items ++ certificate_line line }
    ensures some { length text.old.items < length text.new.items }
    ensures len { length text.new.items ≤ length text.old.items + most_bytes line }
    ensures room { vec_capacity text.old ≤ vec_capacity text.new }
{
    put_words(text, line);
    put(text, b"\n");
}

/// Puts the answer of a check that found a difference in this line, in place of what the text had.
///
/// # Clauses
///
/// - its one clause: the answer of a check that found a difference.
pub fn put_difference(text: &mut Vec<u8>, line: u64)
    requires { 24 ≤ vec_capacity text.old }
    ensures { text.new.items ≡ difference_text line }
{
    text.clear();
    put(text, b"no");
    put_count(text, line);
    put(text, b"\n");
}
