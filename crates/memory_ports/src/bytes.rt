//! Parts of a volume's bytes.
ghost use Rattle.std.specs.Prelude.{◌≡◌, ◌≤◌, ◌+◌, length};
ghost use Rattle.ex_base.specs.Bytes.{part, repl};

// The bytes of a part.
pub fn part_of(bytes: &[u8], at: usize, len: usize) -> &[u8]
    requires { at + len ≤ length bytes.now }
    ensures value { result.now ≡ part bytes.now at len }
    ensures len { length result.now ≡ len }
{
    &bytes[at..at + len]
}

// Writes bytes over a part.
pub fn put_part(bytes: &mut Vec<u8>, at: usize, new: &[u8])
    requires { at + length new.now ≤ length bytes.old.items }
    ensures { bytes.new.items ≡ repl bytes.old.items at new.now }
{
    put_bytes(bytes, at, new);
}

fn put_bytes(bytes: &mut [u8], at: usize, new: &[u8])
    requires { at + length new.now ≤ length bytes.old }
    ensures { bytes.new ≡ repl bytes.old at new.now }
{
    bytes[at..at + new.len()].copy_from_slice(new);
}
