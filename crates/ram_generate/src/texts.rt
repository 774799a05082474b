//! Texts of lines, added to a script or to another text. The room for them is there.

ghost use Rattle.std.specs.Prelude.{◌≡◌, ◌+◌, ◌≤◌, ◌++◌, length, decimal, vec_capacity};
ghost use Rattle.ram_generate.specs.Lines.{transfer_block, transfer_text};

use itoa::Buffer;
use ram_bytes::encode_hex;

/// Adds words.
///
/// # Clauses
///
/// - `items`, `len`, `room`: Where there is room for them, a text grew by these bytes, or by a number in decimal digits, for
///   which there is room for twenty, and there is no less room in all. `ram_run` writes its summary with them.
pub fn add(text: &mut Vec<u8>, words: &[u8])
    requires room { length text.old.items + length words.now ≤ vec_capacity text.old }
    ensures items { text.new.items ≡ text.old.items ++ words.now }
    ensures len { length text.new.items ≡ length text.old.items + length words.now }
    ensures room { vec_capacity text.old ≤ vec_capacity text.new }
{
    match text.extend_from_slice(words) {
        Ok(()) => {}
        Err(_) => unreachable!(),
    }
}

/// Adds a number in decimal digits, of which there are at most twenty.
///
/// # Clauses
///
/// - `items`, `len`, `room`: Where there is room for them, a text grew by these bytes, or by a number in decimal digits, for
///   which there is room for twenty, and there is no less room in all. `ram_run` writes its summary with them.
pub fn add_number(text: &mut Vec<u8>, number: u64)
    requires room { length text.old.items + 20 ≤ vec_capacity text.old }
    ensures items { text.new.items ≡ text.old.items ++ decimal number }
    ensures len { length text.new.items ≤ length text.old.items + 20 }
    ensures room { vec_capacity text.old ≤ vec_capacity text.new }
{
    let mut buffer = Buffer::new();
    add(text, buffer.format(number).as_bytes());
}

/// Adds a line that moves `n` sectors from sector `lba` on, with its data behind the command block.
pub fn add_transfer(script: &mut Vec<u8>, code: u8, lba: u32, n: u16, tail: &[u8])
    requires room { length script.old.items + 24 + length tail.now ≤ vec_capacity script.old }
    ensures items { script.new.items ≡ script.old.items ++ transfer_text code lba n tail.now }
    ensures len { length script.new.items ≡ length script.old.items + 24 + length tail.now }
    ensures room { vec_capacity script.old ≤ vec_capacity script.new }
{
    let block = transfer_block(code, lba, n);
    let mut digits = [0u8; 20];
    encode_hex(&block, &mut digits);
    add(script, b"cdb ");
    add(script, &digits);
    add(script, tail);
}

/// The command block of a READ(10) or WRITE(10).
fn transfer_block(code: u8, lba: u32, n: u16) -> [u8; 10]
    ensures { result ≡ transfer_block code lba n }
{
    let [a, b, c, d] = lba.to_be_bytes();
    let [e, f] = n.to_be_bytes();
    [code, 0, a, b, c, d, 0, e, f, 0]
}
