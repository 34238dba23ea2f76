//! Bytes as hexadecimal digits.
ghost use Rattle.std.specs.Prelude.{◌≡◌, ◌*◌, ◌<◌, length, slice_index};
ghost use Rattle.hex.specs.Hex.{encode_lower, lower_digits};

/// The lower-case digit of a number below 16. It is computed and not looked up, so that the processor finds many at once.
fn digit(n: u8) -> u8
    requires { n < 16 }
    ensures { result ≡ slice_index lower_digits n }
{
    let beyond_nine = if n > 9 { b'a' - b'9' - 1 } else { 0 };
    b'0' + n + beyond_nine
}

/// Writes each byte as two lower-case hexadecimal digits.
pub(crate) fn write_digits(bytes: &[u8], out: &mut [u8])
    requires { length out.old ≡ 2 * length bytes.now }
    ensures { out.new ≡ encode_lower bytes.now }
{
    for i in 0..bytes.len() {
        let byte = bytes[i];
        let high = digit(byte >> 4);
        let low = digit(byte & 15);
        out[2 * i] = high;
        out[2 * i + 1] = low;
    }
}
