//! Digits, decimal and hexadecimal.

ghost use Rattle.std.specs.Prelude.{◌≡◌, ◌≤◌, ◌<◌, ◌*◌, ◌/◌, ◌%◌, ◌^◌, true, length, Some, Ok, IfNone, IfOk, IfSome};
ghost use Rattle.std.specs.List.{list_all};
ghost use Rattle.hex.specs.Hex.{decode_of, hex_digit_value, is_hex_digit};
ghost use Rattle.table_model.specs.Words.{hex_bytes, is_hex, number_of};

use std::alloc::{AllocError, Global};

/// The number that decimal digits write, where it is below 2^64.
pub fn number_of(digits: &[u8]) -> Option<u64>
    ensures value { IfSome result (λ n. n ≡ number_of digits.now) }
    ensures small { IfSome result (λ n. n < 2 ^ 64) }
    ensures large { IfNone result (2 ^ 64 ≤ number_of digits.now) }
{
    let mut n: u64 = 0;
    for digit in digits {
        let next = u128::from(n) * 10 + u128::from(digit.saturating_sub(48));
        if next > u128::from(u64::MAX) {
            return None;
        }
        n = next as u64;
    }
    Some(n)
}

/// Whether each byte is a hexadecimal digit. It reads all bytes, also behind one that is none:
/// without an early end the loop is compiled to steps of many bytes.
fn are_hex_digits(word: &[u8]) -> bool
    ensures { result ≡ list_all is_hex_digit word.now }
{
    let mut all = true;
    for byte in word {
        all &= byte.is_ascii_hexdigit();
    }
    all
}

/// An even number of hexadecimal digits.
pub fn is_hex(word: &[u8]) -> bool
    ensures { result ≡ is_hex word.now }
{
    word.len() % 2 == 0 && are_hex_digits(word)
}

/// The byte that two hexadecimal digits write. Letters, of either case, have 64 and their place in
/// the alphabet in their code, and digits have theirs in its last four bits. Both are looked at
/// together, as they stand in memory, so that a loop over pairs is compiled to steps of many bytes.
fn byte_of(high: u8, low: u8) -> u8
    requires first { is_hex_digit high ≡ true }
    requires second { is_hex_digit low ≡ true }
    ensures high { hex_digit_value high ≡ Some (result / 16) }
    ensures low { hex_digit_value low ≡ Some (result % 16) }
{
    let pair = u16::from(high) + u16::from(low) * 256;
    let values = (pair & 0x0f0f) + (pair / 64 & 0x0101) * 9;
    (values * 16 % 256 + values / 256) as u8
}

/// Puts the bytes that hexadecimal digits write into `out`.
fn decode_into(digits: &[u8], out: &mut [u8])
    requires digits { list_all is_hex_digit digits.now ≡ true }
    requires room { length digits.now ≡ 2 * length out.old }
    ensures { decode_of digits.now ≡ Ok out.new }
{
    for i in 0..out.len() {
        out[i] = byte_of(digits[2 * i], digits[2 * i + 1]);
    }
}

/// The bytes that an even number of hexadecimal digits writes.
pub(crate) fn hex_bytes(alloc: Global, digits: &[u8]) -> Result<Vec<u8>, AllocError>
    requires { is_hex digits.now ≡ true }
    ensures { IfOk result (λ bytes. bytes.items ≡ hex_bytes digits.now) }
{
    let mut out = vec![in alloc; 0; digits.len() / 2]?;
    decode_into(digits, out.as_mut_slice());
    Ok(out)
}
