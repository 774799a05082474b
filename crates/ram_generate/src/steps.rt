//! The steps of a script: each draws its kind, and then its numbers in the order in which they stand in its lines.

ghost use Rattle.std.specs.Prelude.{◌≡◌, ◌+◌, ◌*◌, ◌≤◌, ◌++◌, length, vec_capacity};
ghost use Rattle.ram_generate.specs.Lines.{fate_text};
ghost use Rattle.ram_generate.specs.Script.{AddsStep, write_step, read_step, fail_step, wear_step, cut_step, power_step, one_step, steps_text};
ghost use Rattle.ram_generate.specs.declared.steps.TheConstants.{LONGEST_STEP};

use crate::drawing::draw;
use crate::texts::{add, add_number, add_transfer};
use ram_bytes::encode_hex;
use rand_pcg::Pcg32;

/// How many bytes a step adds at most. A write adds n: `cdb` and a space, twenty digits, and ten bytes of ` count ` with
/// two digits and the end of the line.
pub const LONGEST_STEP: usize = 34;

/// Adds n steps.
///
/// # Clauses
///
/// - Where there is room for this many of the longest step, the script grew by the text of this many steps.
pub fn add_steps(script: &mut Vec<u8>, words: &mut Pcg32, count: u32)
    requires room { length script.old.items + LONGEST_STEP * count ≤ vec_capacity script.old }
    ensures text { script.new.items ≡ script.old.items ++ steps_text count words.old }
    ensures room { vec_capacity script.old ≤ vec_capacity script.new }
{
    for _ in 0..count {
        add_step(script, words);
    }
}

/// Adds one step.
fn add_step(script: &mut Vec<u8>, words: &mut Pcg32)
    requires room { length script.old.items + LONGEST_STEP ≤ vec_capacity script.old }
    ensures step { AddsStep script.old.items script.new.items words.new (one_step words.old) }
    ensures len { length script.new.items ≤ length script.old.items + LONGEST_STEP }
    ensures room { vec_capacity script.old ≤ vec_capacity script.new }
{
    match draw(words, 100) {
        0..=44 => add_write(script, words),
        45..=94 => add_read(script, words),
        95 => add_fail(script, words),
        96 => add_wear(script, words),
        97 => add_cut(script, words),
        98.. => add(script, b"power\ncdb 000000000000\n"),
    }
}

/// A write of up to sixteen sectors, each with a byte one greater.
fn add_write(script: &mut Vec<u8>, words: &mut Pcg32)
    requires room { length script.old.items + LONGEST_STEP ≤ vec_capacity script.old }
    ensures step { AddsStep script.old.items script.new.items words.new (write_step words.old) }
    ensures len { length script.new.items ≤ length script.old.items + LONGEST_STEP }
    ensures room { vec_capacity script.old ≤ vec_capacity script.new }
{
    let lba = draw(words, 1_425);
    let n = 1 + draw(words, 16);
    let first = draw(words, 256);
    let mut data = *b" count ..\n";
    encode_hex(&[first as u8], &mut data[7..9]);
    add_transfer(script, 0x2a, lba, n as u16, &data);
}

/// A read of up to sixteen sectors.
fn add_read(script: &mut Vec<u8>, words: &mut Pcg32)
    requires room { length script.old.items + LONGEST_STEP ≤ vec_capacity script.old }
    ensures step { AddsStep script.old.items script.new.items words.new (read_step words.old) }
    ensures len { length script.new.items ≤ length script.old.items + LONGEST_STEP }
    ensures room { vec_capacity script.old ≤ vec_capacity script.new }
{
    let lba = draw(words, 1_425);
    let n = 1 + draw(words, 16);
    add_transfer(script, 0x28, lba, n as u16, b"\n");
}

/// A block of the zones dies.
fn add_fail(script: &mut Vec<u8>, words: &mut Pcg32)
    requires room { length script.old.items + LONGEST_STEP ≤ vec_capacity script.old }
    ensures step { AddsStep script.old.items script.new.items words.new (fail_step words.old) }
    ensures len { length script.new.items ≤ length script.old.items + LONGEST_STEP }
    ensures room { vec_capacity script.old ≤ vec_capacity script.new }
{
    let block = 8 + draw(words, 102);
    add(script, b"fail ");
    add_number(script, u64::from(block));
    add(script, b"\n");
}

/// A block of the zones dies at one of its next eight uses.
fn add_wear(script: &mut Vec<u8>, words: &mut Pcg32)
    requires room { length script.old.items + LONGEST_STEP ≤ vec_capacity script.old }
    ensures step { AddsStep script.old.items script.new.items words.new (wear_step words.old) }
    ensures len { length script.new.items ≤ length script.old.items + LONGEST_STEP }
    ensures room { vec_capacity script.old ≤ vec_capacity script.new }
{
    let block = 8 + draw(words, 102);
    let n = 1 + draw(words, 8);
    add(script, b"wear ");
    add_number(script, u64::from(block));
    add(script, b" ");
    add_number(script, u64::from(n));
    add(script, b"\n");
}

/// The power is cut at one of the next forty uses.
fn add_cut(script: &mut Vec<u8>, words: &mut Pcg32)
    requires room { length script.old.items + LONGEST_STEP ≤ vec_capacity script.old }
    ensures step { AddsStep script.old.items script.new.items words.new (cut_step words.old) }
    ensures len { length script.new.items ≤ length script.old.items + LONGEST_STEP }
    ensures room { vec_capacity script.old ≤ vec_capacity script.new }
{
    let n = 1 + draw(words, 40);
    let fate = draw(words, 3);
    add(script, b"cut ");
    add_number(script, u64::from(n));
    add(script, fate_words(fate));
}

/// What the cut leaves of a block that is being written, in the words of the script.
fn fate_words(fate: u32) -> &'static [u8]
    ensures words { result.now ≡ fate_text fate }
    ensures len { length result.now ≤ 6 }
{
    if fate == 0 {
        b" old\n"
    } else if fate == 1 {
        b" new\n"
    } else {
        b" torn\n"
    }
}
