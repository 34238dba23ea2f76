//! Big-endian numbers in fields of a page.
ghost use Rattle.std.specs.Prelude.{◌≡◌, ◌+◌, ◌-◌, ◌≤◌, ◌++◌, ◌↔◌, IsTrue, length, take};
ghost use Rattle.ex_base.specs.Bytes.{written};
ghost use Rattle.ex_base.specs.Fields.{number_at, two_bytes, four_bytes, eight_bytes, zeros, AreZero, PutSame};

use byteorder::{BigEndian, ByteOrder};

/// The number in the two bytes from place `at` on.
pub fn get_u16(bytes: &[u8], at: usize) -> u16
    requires { at + 2 ≤ length bytes.now }
    ensures { result ≡ number_at 2 bytes.now at }
{
    BigEndian::read_u16(&bytes[at..at + 2])
}

/// Writes a number over the two bytes from place `at` on.
pub fn put_u16(bytes: &mut [u8], at: usize, value: u16)
    requires { at + 2 ≤ length bytes.old }
    ensures { bytes.new ≡ written bytes.old at (two_bytes value) }
{
    BigEndian::write_u16(&mut bytes[at..at + 2], value);
}

/// The number in the four bytes from place `at` on.
pub fn get_u32(bytes: &[u8], at: usize) -> u32
    requires { at + 4 ≤ length bytes.now }
    ensures { result ≡ number_at 4 bytes.now at }
{
    BigEndian::read_u32(&bytes[at..at + 4])
}

/// Writes a number over the four bytes from place `at` on.
pub fn put_u32(bytes: &mut [u8], at: usize, value: u32)
    requires { at + 4 ≤ length bytes.old }
    ensures { bytes.new ≡ written bytes.old at (four_bytes value) }
{
    BigEndian::write_u32(&mut bytes[at..at + 4], value);
}

/// The number in the eight bytes from place `at` on.
pub fn get_u64(bytes: &[u8], at: usize) -> u64
    requires { at + 8 ≤ length bytes.now }
    ensures { result ≡ number_at 8 bytes.now at }
{
    BigEndian::read_u64(&bytes[at..at + 8])
}

/// Writes a number over the eight bytes from place `at` on.
pub fn put_u64(bytes: &mut [u8], at: usize, value: u64)
    requires { at + 8 ≤ length bytes.old }
    ensures { bytes.new ≡ written bytes.old at (eight_bytes value) }
{
    BigEndian::write_u64(&mut bytes[at..at + 8], value);
}

/// The law of fields: a put of what get gave at the same place changes nothing.
pub fn put_of_what_get_gave()
    ensures two { PutSame 2 }
    ensures four { PutSame 4 }
    ensures eight { PutSame 8 }
{}

/// Writes bytes at a place.
pub fn put_bytes(bytes: &mut [u8], at: usize, field: &[u8])
    requires { at + length field.now ≤ length bytes.old }
    ensures { bytes.new ≡ written bytes.old at field.now }
{
    bytes[at..at + field.len()].copy_from_slice(field);
}

/// Makes the bytes from a place on zero.
pub fn clear_from(bytes: &mut [u8], at: usize)
    requires { at ≤ length bytes.old }
    ensures { bytes.new ≡ take at bytes.old ++ zeros (length bytes.old - at) }
{
    bytes[at..].fill(0);
}

/// Whether each byte is zero. It reads all bytes, also behind one that isn't zero: without an early
/// end the loop is compiled to steps of many bytes.
pub fn is_zero(bytes: &[u8]) -> bool
    ensures { IsTrue result ↔ AreZero bytes.now }
{
    let mut joined = 0u8;
    for byte in bytes {
        joined |= *byte;
    }
    joined == 0
}
