//! The summary of a script that was drawn from a number.
ghost use Rattle.std.specs.Prelude.{◌≡◌, ◌+◌, ◌*◌, ◌≤◌, ◌++◌, length, vec_capacity};
ghost use Rattle.std.specs.List.{flat_map};
ghost use Rattle.ram_summary.specs.declared.summary.TheConstants.{SUMMARY_ROOM};
ghost use Rattle.ram_summary.specs.Summary.{count_text, row_text, tally_text};

use ram_generate::{add, add_number};
use ram_report::digits_of;
use ram_script::{SenseCount, Tally};

/// Room for any summary, in bytes: six lines, and a line for each of fourteen senses, none longer than 36 bytes.
pub const SUMMARY_ROOM: usize = 720;

/// Puts the summary of the lines that were counted, of the script of this number, in place of what the text held: `generated N`,
/// `good A`, `cut C`, `off D`, `check K/AA/QQ E` for each sense that came, and `end L`.
pub fn put_summary(text: &mut Vec<u8>, seed: u64, tally: &Tally)
    requires room { SUMMARY_ROOM ≤ vec_capacity text.old }
    ensures { text.new.items ≡ tally_text seed tally.now }
{
    text.clear();
    add_count(text, b"generated ", seed);
    add_count(text, b"good ", tally.counts.good);
    add_count(text, b"cut ", tally.counts.cut);
    add_count(text, b"off ", tally.counts.off);
    add_checks(text, &tally.counts.checks);
    add_count(text, b"end ", tally.lines);
}

/// Adds a line for each sense that came.
fn add_checks(text: &mut Vec<u8>, rows: &[SenseCount])
    requires room { length text.old.items + 36 * length rows.now ≤ vec_capacity text.old }
    ensures items { text.new.items ≡ text.old.items ++ flat_map row_text rows.now }
    ensures few { length text.new.items ≤ length text.old.items + 36 * length rows.now }
    ensures room { vec_capacity text.old ≤ vec_capacity text.new }
{
    for row in rows {
        add_check(text, row);
    }
}

/// Adds the line of a sense, where it came.
fn add_check(text: &mut Vec<u8>, row: &SenseCount)
    requires room { length text.old.items + 36 ≤ vec_capacity text.old }
    ensures items { text.new.items ≡ text.old.items ++ row_text row.now }
    ensures few { length text.new.items ≤ length text.old.items + 36 }
    ensures room { vec_capacity text.old ≤ vec_capacity text.new }
{
    if row.times == 0 {
        return;
    }
    add(text, b"check ");
    add(text, &digits_of(&row.sense));
    add_count(text, b" ", row.times);
}

/// Adds words and a number, and ends the line.
fn add_count(text: &mut Vec<u8>, words: &[u8], number: u64)
    requires room { length text.old.items + (length words.now + 21) ≤ vec_capacity text.old }
    ensures items { text.new.items ≡ text.old.items ++ count_text words.now number }
    ensures few { length text.new.items ≤ length text.old.items + (length words.now + 21) }
    ensures room { vec_capacity text.old ≤ vec_capacity text.new }
{
    add(text, words);
    add_number(text, number);
    add(text, b"\n");
}
