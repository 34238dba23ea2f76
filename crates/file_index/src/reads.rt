//! Whether a page is an index page, field by field.
ghost use Rattle.std.specs.Prelude.{◌↔◌, ◌+◌, ◌*◌, ◌<◌, ◌≤◌, length, IsTrue};
ghost use Rattle.file_index.specs.IndexPage.{RiseFrom, read_entries};
ghost use Rattle.file_index.specs.Reads.{PageReads};

use crate::{
    ENTRIES_AT, ENTRY_BYTES, FILE_AT, GAP_AT, INDEX_KIND, LEN_AT, LEVEL_AT, SECOND_GAP_AT,
};
use ex_base::{get_u16, get_u32, is_zero};

/// Whether the keys of n entries rise strictly. Two of them are looked at in each step.
fn keys_rise(bytes: &[u8], n: usize) -> bool
    requires { 8 * n ≤ length bytes.now }
    ensures { IsTrue result ↔ RiseFrom 0 (read_entries n bytes.now) }
{
    let mut least = 0;
    let mut at = 0;
    while at + 1 < n {
        let key = u64::from(get_u32(bytes, ENTRY_BYTES * at));
        let next = u64::from(get_u32(bytes, ENTRY_BYTES * (at + 1)));
        if key < least {
            return false;
        }
        if next <= key {
            return false;
        }
        least = next + 1;
        at += 2;
    }
    at == n || u64::from(get_u32(bytes, ENTRY_BYTES * at)) >= least
}

/// Whether the page is an index page.
pub fn is_index_page(page: &[u8]) -> bool
    ensures { IsTrue result ↔ PageReads page.now }
{
    if page.len() < ENTRIES_AT {
        return false;
    }
    let n = usize::from(get_u16(page, LEN_AT));
    if page[0] != INDEX_KIND || page[LEVEL_AT] == 0 || !is_zero(&page[GAP_AT..FILE_AT]) {
        return false;
    }
    let end = ENTRIES_AT + ENTRY_BYTES * n;
    if n == 0 || page.len() < end || !is_zero(&page[SECOND_GAP_AT..ENTRIES_AT]) {
        return false;
    }
    keys_rise(&page[ENTRIES_AT..], n) && is_zero(&page[end..])
}
