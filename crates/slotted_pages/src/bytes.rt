ghost use Rattle.std.specs.Prelude.{◌≡◌, ◌+◌, ◌-◌, ◌*◌, ◌<◌, ◌≤◌, ◌++◌, length, take, drop};
ghost use Rattle.ex_base.specs.Bytes.{bytes_at, written};
ghost use Rattle.ex_base.specs.Fields.{zeros};
ghost use Rattle.slotted_pages.specs.Reads.{added, read_lens};
ghost use Rattle.slotted_pages.specs.Edits.{len_field, directory_of};

use crate::reads::len_in;
use crate::{FIELD_LEN, HEAD_LEN, LENGTH};
use ex_base::put_u16;

/// Writes a slot's field.
pub fn write_field(image: &mut [u8], slot: usize, at: usize, len: usize)
    requires room { 4 * (slot + 1) ≤ length image.old }
    requires at { at < 65536 }
    requires len { len < 65536 }
    ensures { image.new ≡ written image.old (length image.old - 4 * (slot + 1)) (len_field at len) }
{
    let field = image.len() - FIELD_LEN * (slot + 1);
    let offset = if len == 0 { 0 } else { at };
    put_u16(image, field, offset as u16);
    put_u16(image, field + LENGTH, len as u16);
}

/// Writes where each body begins, by the lengths in the fields of n slots.
pub fn write_directory(image: &mut [u8], n: usize)
    requires room { 16 + added (read_lens image.old n (length image.old)) + 4 * n
        ≤ length image.old }
    requires size { length image.old ≤ 8192 }
    ensures { image.new ≡ take (length image.old - 4 * n) image.old
        ++ directory_of 16 (read_lens image.old n (length image.old)) }
{
    let mut at = HEAD_LEN;
    for slot in 0..n {
        let len = len_in(image, slot);
        write_field(image, slot, at, len);
        at += len;
    }
}
