//! The head of a file's item: the file's name, and how many versions follow.
ghost use Rattle.std.specs.Prelude.{◌≡◌, ◌↔◌, ◌+◌, ◌<◌, ◌≤◌, ◌++◌, length, drop, slice_index, IsTrue};
ghost use Rattle.std.specs.List.{list_all};
ghost use Rattle.ex_base.specs.Bytes.{bytes_at};
ghost use Rattle.ex_base.specs.Fields.{number_at};
ghost use Rattle.table_model.specs.Words.{is_name_byte, is_name};
ghost use Rattle.history_items.specs.Reads.{file_front};
ghost use Rattle.history_items.specs.Needs.{need_of_file};

use crate::bytes::put_u8;
use ex_base::{get_u32, put_bytes, put_u32};

/// Where the name begins.
const NAME: usize = 1;

/// The bytes of the number of versions.
const COUNT_LEN: usize = 4;

/// The most bytes of a name.
const NAME_MOST: u8 = 32;

/// What the item of a file begins with.
#[derive(Clone, Copy)]
pub struct FileHead<'a> {
    /// The file's name.
    pub name: &'a [u8],
    /// How many versions follow.
    pub versions: u32,
}

/// Whether a byte may stand in a name.
fn is_for_names(b: u8) -> bool
    ensures { result ≡ is_name_byte b }
{
    b.is_ascii_lowercase() || b.is_ascii_digit() || b == b'_'
}

/// Whether each byte may stand in a name.
fn are_for_names(bytes: &[u8]) -> bool
    ensures { result ≡ list_all is_name_byte bytes.now }
{
    bytes.iter().all(|b| is_for_names(*b))
}

/// How many bytes the head of a file's item needs that begins with these. None where no such head does.
pub fn file_need(bytes: &[u8]) -> Option<usize>
    ensures { result ≡ need_of_file bytes.now }
{
    if bytes.len() < NAME {
        return Some(NAME);
    }
    let len = bytes[0];
    if len < 1 || len > NAME_MOST {
        return None;
    }
    let end = NAME + len as usize;
    let whole = end + COUNT_LEN;
    if bytes.len() < whole {
        return Some(whole);
    }
    if bytes.len() == whole && are_for_names(&bytes[NAME..end]) {
        Some(whole)
    } else {
        None
    }
}

/// What the head of a file's item says.
pub fn read_file_head(bytes: &[u8]) -> FileHead<'_>
    requires some { 1 ≤ length bytes.now }
    requires whole { 5 + slice_index bytes.now 0 ≤ length bytes.now }
    ensures name { result.name.now ≡ bytes_at bytes.now 1 (slice_index bytes.now 0) }
    ensures versions { result.versions ≡ number_at 4 bytes.now (1 + slice_index bytes.now 0) }
{
    let end = NAME + bytes[0] as usize;
    FileHead {
        name: &bytes[NAME..end],
        versions: get_u32(bytes, end),
    }
}

/// Writes the head of a file's item over the first bytes, and answers how many they are.
pub fn write_file_head(head: &FileHead<'_>, out: &mut [u8]) -> usize
    requires name { length head.now.name.now < 256 }
    requires room { 5 + length head.now.name.now ≤ length out.old }
    ensures written { out.new ≡ file_front head.now.name.now head.now.versions
        ++ drop result out.old }
    ensures len { result ≡ 5 + length head.now.name.now }
{
    let end = NAME + head.name.len();
    put_u8(out, 0, head.name.len() as u8);
    put_bytes(out, NAME, head.name);
    put_u32(out, end, head.versions);
    end + COUNT_LEN
}
