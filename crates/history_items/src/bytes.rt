//! A single byte, put as fields of more bytes are.
ghost use Rattle.std.specs.Prelude.{◌≡◌, ◌<◌, [], ◌∷◌, length};
ghost use Rattle.ex_base.specs.Bytes.{written};

/// Writes a byte at a place.
pub(crate) fn put_u8(bytes: &mut [u8], at: usize, value: u8)
    requires { at < length bytes.old }
    ensures { bytes.new ≡ written bytes.old at (value ∷ []) }
{
    bytes[at] = value;
}
