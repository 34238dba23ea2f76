//! The bytes that a data word gives.

ghost use Rattle.std.specs.Prelude.{◌≡◌, ◌≤◌, IfOk, replicate};
ghost use Rattle.table_model.specs.Words.{number_of, hex_byte, data_bytes, data_count, data_most};

use crate::digits::{hex_bytes, is_hex, number_of};
use crate::parts::cut;
use ex_base::Items;
use std::alloc::{AllocError, Global};
use table_model::Bytes;

/// The first byte that hexadecimal digits write; 0 where they aren't such digits.
fn hex_byte(alloc: Global, word: &[u8]) -> Result<u8, AllocError>
    ensures { IfOk result (λ byte. byte ≡ hex_byte word.now) }
{
    if !is_hex(word) {
        return Ok(0);
    }
    let bytes = hex_bytes(alloc, word)?;
    if bytes.len() > 0 { Ok(bytes[0]) } else { Ok(0) }
}

fn repeated(alloc: Global, count: &[u8], byte: &[u8]) -> Result<Bytes, AllocError>
    requires { number_of count.now ≤ data_most }
    ensures { IfOk result (λ bytes. bytes ≡ replicate (number_of count.now) (hex_byte byte.now)) }
{
    let byte = hex_byte(alloc, byte)?;
    match number_of(count) {
        Some(n) => Ok(Items::of(vec![in alloc; byte; n as usize]?)),
        None => unreachable!(),
    }
}

/// The bytes that a data word gives: `hex:` and two digits a byte, or `rep:COUNT:BYTE`, one byte so many times.
pub fn data_bytes(alloc: Global, word: &[u8]) -> Result<Bytes, AllocError>
    requires { data_count word.now ≤ data_most }
    ensures { IfOk result (λ bytes. bytes ≡ data_bytes word.now) }
{
    let Some((_, rest)) = cut(word, b':') else {
        return Ok(Items::make(alloc));
    };
    // Digits hold no colon, so none is looked for among them.
    if is_hex(rest) {
        return Ok(Items::of(hex_bytes(alloc, rest)?));
    }
    let Some((count, byte)) = cut(rest, b':') else {
        return Ok(Items::make(alloc));
    };
    match cut(byte, b':') {
        Some(_) => Ok(Items::make(alloc)),
        None => repeated(alloc, count, byte),
    }
}
