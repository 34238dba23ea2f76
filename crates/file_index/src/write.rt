//! An index page as it is written.
ghost use Rattle.std.specs.Prelude.{◌≡◌, ◌+◌, ◌-◌, ◌*◌, ◌≤◌, ◌++◌, length};
ghost use Rattle.ex_base.specs.Fields.{zeros};
ghost use Rattle.ex_base.specs.Bytes.{written};
ghost use Rattle.file_index.specs.IndexPage.{entry_bytes, head_bytes, index_page, HasEntryFields};
ghost use Rattle.std.specs.List.{AllByRecursion};

use crate::{ENTRIES_AT, ENTRY_BYTES, Entry, FILE_AT, INDEX_KIND, LEN_AT, LEVEL_AT, PAGE_AT};
use ex_base::{put_u16, put_u32};

/// Writes the head of an index page, and zeros behind it.
fn write_head(level: u8, file_no: u32, entries: u16, out: &mut [u8])
    requires { 16 ≤ length out.old }
    ensures { out.new ≡ head_bytes level file_no entries ++ zeros (length out.old - 16) }
{
    out.fill(0);
    out[0] = INDEX_KIND;
    out[LEVEL_AT] = level;
    put_u16(out, LEN_AT, entries);
    put_u32(out, FILE_AT, file_no);
}

/// Writes an entry at a place.
fn write_entry(entry: &Entry, out: &mut [u8], at: usize)
    requires { at + 8 ≤ length out.old }
    ensures written { out.new ≡ written out.old at (entry_bytes entry.now) }
    ensures fields { HasEntryFields entry.now }
{
    let key = entry.key;
    let page = entry.page.0;
    put_u32(out, at, key);
    put_u32(out, at + PAGE_AT, page);
}

/// Writes an index page: its head, its entries, and zeros to the end.
pub fn write_index(level: u8, file_no: u32, entries: &[Entry], out: &mut [u8])
    requires room { 16 + 8 * length entries.now ≤ length out.old }
    requires page { length out.old ≤ 8192 }
    ensures written { out.new ≡ index_page (length out.old) level file_no entries.now }
    ensures fields { AllByRecursion HasEntryFields entries.now }
{
    write_head(level, file_no, entries.len() as u16, out);
    let mut at = ENTRIES_AT;
    for entry in entries {
        write_entry(entry, out, at);
        at += ENTRY_BYTES;
    }
}
