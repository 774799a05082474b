//! Bytes as hexadecimal digits, into room that is there already.
ghost use Rattle.std.specs.Prelude.{◌≡◌, ◌*◌, ◌≤◌, length, take};
ghost use Rattle.hex.specs.Hex.{encode_lower};

use ram_bytes::encode_hex;

/// Writes the bytes as hexadecimal digits to the start of `digits`.
pub fn encode_prefix(bytes: &[u8], digits: &mut [u8])
    requires { 2 * length bytes.now ≤ length digits.old }
    ensures { take (2 * length bytes.now) digits.new ≡ encode_lower bytes.now }
{
    encode_hex(bytes, &mut digits[..2 * bytes.len()]);
}
