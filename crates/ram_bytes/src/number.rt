//! Numbers in bytes, the highest byte first.

ghost use Rattle.std.specs.Prelude.{◌≡◌, ◌+◌, ◌<◌, ◌≤◌, ◌^◌, ◌++◌, ◌↔◌, IsTrue, length, drop, replicate};
ghost use Rattle.byteorder.specs.Endian.{big_number, big_bytes};
ghost use Rattle.model_bytes.specs.Bytes.{put_at};

use byteorder::{BigEndian, ByteOrder};

/// The number of 16 bits at `at`, the highest byte first.
pub fn get_u16(bytes: &[u8], at: usize) -> u16
    requires { at + 2 ≤ length bytes.now }
    ensures { result ≡ big_number 2 (drop at bytes.now) }
{
    BigEndian::read_u16(&bytes[at..])
}

/// The number of 24 bits at `at`, the highest byte first.
pub fn get_u24(bytes: &[u8], at: usize) -> u32
    requires { at + 3 ≤ length bytes.now }
    ensures { result ≡ big_number 3 (drop at bytes.now) }
{
    BigEndian::read_u24(&bytes[at..])
}

/// The number of 32 bits at `at`, the highest byte first.
pub fn get_u32(bytes: &[u8], at: usize) -> u32
    requires { at + 4 ≤ length bytes.now }
    ensures { result ≡ big_number 4 (drop at bytes.now) }
{
    BigEndian::read_u32(&bytes[at..])
}

/// Writes a number of 16 bits at `at`, the highest byte first, and changes no other byte.
pub fn put_u16(bytes: &mut [u8], at: usize, value: u16)
    requires { at + 2 ≤ length bytes.old }
    ensures { bytes.new ≡ put_at at (big_bytes 2 value) bytes.old }
{
    BigEndian::write_u16(&mut bytes[at..], value);
}

/// Writes a number of 24 bits at `at`, the highest byte first, and changes no other byte.
pub fn put_u24(bytes: &mut [u8], at: usize, value: u32)
    requires inside { at + 3 ≤ length bytes.old }
    requires fits { value < 2 ^ 24 }
    ensures { bytes.new ≡ put_at at (big_bytes 3 value) bytes.old }
{
    BigEndian::write_u24(&mut bytes[at..], value);
}

/// Writes a number of 32 bits at `at`, the highest byte first, and changes no other byte.
pub fn put_u32(bytes: &mut [u8], at: usize, value: u32)
    requires { at + 4 ≤ length bytes.old }
    ensures { bytes.new ≡ put_at at (big_bytes 4 value) bytes.old }
{
    BigEndian::write_u32(&mut bytes[at..], value);
}

/// Whether each byte is zero.
///
/// # Answers
///
/// - `true`, `false`: `true` exactly when every byte is 0. (clause)
pub fn is_zero(bytes: &[u8]) -> bool
    ensures { IsTrue result ↔ (bytes.now ≡ replicate (length bytes.now) 0) }
{
    bytes.iter().all(|byte| *byte == 0)
}
