ghost use Rattle.std.specs.Prelude.{◌≡◌, ◌≢◌, ℕ, ◌↔◌, ◌+◌, ◌-◌, ◌*◌, ◌<◌, ◌≤◌, true, length, take, drop, slice_index, IsTrue};
ghost use Rattle.std.specs.List.{AllByRecursion};
ghost use Rattle.ex_base.specs.Bytes.{bytes_at};
ghost use Rattle.ex_base.specs.Fields.{AreZero};
ghost use Rattle.object_files.specs.Catalog.{is_name_byte, entry_bytes};
ghost use Rattle.object_files.specs.Reads.{name_in, number_in, entry_in, entry_at, EntryReads, EachReads, NamesRise, CatalogReads};

use crate::marks::numbers_differ;
use crate::{
    CATALOG, COUNT, ENTRY_GAP, ENTRY_GAP_LEN, ENTRY_LEN, FILE_NO, GAP, GAP_LEN, HEAD_LEN, KIND,
    LEVEL, LEVEL_GAP, LEVEL_GAP_LEN, MOST_BYTES, NAME, NAME_MOST, NEXT_UNIQUE, ROOT, SECOND_GAP,
    SECOND_GAP_LEN, ZERO,
};
use ex_base::{INDEX_LEVEL_MOST, get_u16, get_u32, get_u64, is_zero};
use std::cmp::Ordering;

/// Whether so many bytes from a position on are 0.
fn zero_part(page: &[u8], from: usize, count: usize) -> bool
    requires { from + count ≤ length page.now }
    ensures { IsTrue result ↔ AreZero (bytes_at page.now from count) }
{
    is_zero(&page[from..][..count])
}

/// Whether a byte may stand in a name.
fn is_for_names(b: u8) -> bool
    ensures { result ≡ is_name_byte b }
{
    b.is_ascii_lowercase() || b.is_ascii_digit() || b == b'_'
}

/// Whether each byte may stand in a name.
fn is_name(name: &[u8]) -> bool
    ensures { IsTrue result ↔ AllByRecursion (λ b. is_name_byte b ≡ true) name.now }
{
    for (i, b) in name.iter().enumerate() {
        if !is_for_names(*b) {
            return false;
        }
    }
    true
}

/// The name in the entry at a position.
pub fn name_of(page: &[u8], at: usize) -> &[u8]
    requires inside { at < length page.now }
    requires room { at + 1 + slice_index page.now at ≤ length page.now }
    ensures { result.now ≡ name_in page.now at }
{
    &page[at + NAME..][..page[at] as usize]
}

/// The file number in the entry at a position.
pub fn number_of(page: &[u8], at: usize) -> u32
    requires { at + 48 ≤ length page.now }
    ensures { result ≡ number_in page.now at }
{
    get_u32(page, at + FILE_NO)
}

/// The bytes that spell the entry at a position.
pub fn spelled_at(page: &[u8], at: usize) -> &[u8]
    requires room { at + 48 ≤ length page.now }
    requires entry { EntryReads page.now at }
    ensures { result.now ≡ entry_bytes (entry_in page.now at) }
{
    &page[at..at + ENTRY_LEN]
}

/// Whether an entry stands at a position.
fn is_entry(page: &[u8], at: usize) -> bool
    requires { at + 48 ≤ length page.now }
    ensures { IsTrue result ↔ EntryReads page.now at }
{
    let len = page[at] as usize;
    if len == 0 || len > NAME_MOST || number_of(page, at) == 0 {
        return false;
    }
    if page[at + LEVEL] > INDEX_LEVEL_MOST
        || (page[at + LEVEL] > 0 && get_u32(page, at + ROOT) == 0)
    {
        return false;
    }
    is_name(name_of(page, at))
        && zero_part(page, at + NAME + len, NAME_MOST - len)
        && zero_part(page, at + LEVEL_GAP, LEVEL_GAP_LEN)
        && zero_part(page, at + ENTRY_GAP, ENTRY_GAP_LEN)
}

/// Whether n entries stand behind the head.
fn are_entries(page: &[u8], n: usize) -> bool
    requires { 32 + 48 * n ≤ length page.now }
    ensures { IsTrue result ↔ EachReads page.now n }
{
    for i in 0..n {
        if !is_entry(page, HEAD_LEN + ENTRY_LEN * i) {
            return false;
        }
    }
    true
}

/// Whether the names rise strictly in byte order.
fn names_rise(page: &[u8], n: usize) -> bool
    requires room { 32 + 48 * n ≤ length page.now }
    requires entries { EachReads page.now n }
    ensures { IsTrue result ↔ NamesRise page.now n }
{
    for i in 1..n {
        let name = name_of(page, HEAD_LEN + ENTRY_LEN * (i - 1));
        match name.cmp(&name_of(page, HEAD_LEN + ENTRY_LEN * i)) {
            Ordering::Less => {}
            _ => return false,
        }
    }
    true
}

/// Whether the page is the catalog.
pub fn is_catalog(page: &[u8]) -> bool
    ensures { IsTrue result ↔ CatalogReads page.now }
{
    if page.len() < HEAD_LEN || page.len() > MOST_BYTES {
        return false;
    }
    let n = get_u16(page, COUNT) as usize;
    if page[KIND] != CATALOG || page[ZERO] != 0 || page.len() < HEAD_LEN + ENTRY_LEN * n {
        return false;
    }
    if get_u64(page, NEXT_UNIQUE) == 0
        || !zero_part(page, GAP, GAP_LEN)
        || !zero_part(page, SECOND_GAP, SECOND_GAP_LEN)
    {
        return false;
    }
    if !are_entries(page, n) {
        return false;
    }
    if !is_zero(&page[HEAD_LEN + ENTRY_LEN * n..]) {
        return false;
    }
    if !names_rise(page, n) {
        return false;
    }
    numbers_differ(page, n)
}
