//! Bytes as hexadecimal digits.
ghost use Rattle.std.specs.Prelude.{◌≡◌, ◌*◌, length};
ghost use Rattle.hex.specs.Hex.{encode_lower};

/// Writes the bytes as lower-case hexadecimal digits, two for each, into the whole of `digits`.
pub fn encode_hex(bytes: &[u8], digits: &mut [u8])
    requires { length digits.old ≡ 2 * length bytes.now }
    ensures { digits.new ≡ encode_lower bytes.now }
{
    let _ = hex::encode_to_slice(bytes, digits);
}
