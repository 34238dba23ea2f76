// How many bytes of a record the fields of an entry of the catalog have.
ghost use Rattle.std.specs.Prelude.{◌≡◌, ◌↔◌, ℕ, List, ◌+◌, ◌*◌, ◌<◌, ◌≤◌, length, map, IsTrue, IfSome, IfNone, MatchOption, Contains};
ghost use Rattle.ex_base.specs.Fields.{number_at};
ghost use Rattle.ex_base.specs.Order.{Rising};
ghost use Rattle.object_files.specs.Catalog.{FileEntry, number_of};
ghost use Rattle.page_entries.specs.declared.form.EntryForm.TheVariants.{FileChanges};
ghost use Rattle.page_entries.specs.Said.{Says, SaysNothing, NoneOf, numbers_read, removed_count, put_catalog, put_count, put_begin};
ghost use Rattle.page_entries.specs.Fronts.{ArePut, removed_read};

use crate::{COUNT_LEN, FILE_HEAD, LAST, NEXT_UNIQUE, NUMBER_LEN, REMOVED_COUNT};
use ex_base::{CATALOG_ENTRY, CATALOG_HEAD, PAGE_SIZE_MOST, get_u16, get_u32, get_u64};
use object_files::{CatalogView, write_catalog};

/// Whether n removed numbers rise strictly.
fn numbers_rise(fields: &[u8], n: usize) -> bool
    requires { 18 + 4 * n ≤ length fields.now }
    ensures { IsTrue result ↔ Rising (numbers_read fields.now n 18) }
{
    let mut least = 0;
    for i in 0..n {
        let number = get_u32(fields, FILE_HEAD + NUMBER_LEN * i) as usize;
        if number < least {
            return false;
        }
        least = number + 1;
    }
    true
}

/// Whether a number is one of the n removed ones.
pub fn is_removed(fields: &[u8], n: usize, number: u32) -> bool
    requires { 18 + 4 * n ≤ length fields.now }
    ensures { IsTrue result ↔ Contains (numbers_read fields.now n 18) number }
{
    for i in 0..n {
        if get_u32(fields, FILE_HEAD + NUMBER_LEN * i) == number {
            return true;
        }
    }
    false
}

/// Whether none of the n removed numbers is that of a file.
fn none_removed(fields: &[u8], n: usize, files: &CatalogView) -> bool
    requires { 18 + 4 * n ≤ length fields.now }
    ensures { IsTrue result ↔ NoneOf (numbers_read fields.now n 18) (map number_of files.now.entries) }
{
    for i in 0..files.len() {
        if is_removed(fields, n, files.entry(i).file_no) {
            return false;
        }
    }
    true
}

/// How many files are put.
fn count_of_put(fields: &[u8]) -> usize
    requires { put_begin fields.now ≤ length fields.now }
    ensures value { result ≡ put_count fields.now }
    ensures small { result < 65536 }
{
    let removed = get_u16(fields, REMOVED_COUNT) as usize;
    get_u16(fields, FILE_HEAD + NUMBER_LEN * removed) as usize
}

/// The files that are put, with the numbers of the catalog, on a page that is written for them. None exactly where no catalog has them.
pub fn put_view<'a>(page: &'a mut [u8], fields: &[u8]) -> Option<CatalogView<'a>>
    requires head { put_begin fields.now ≤ length fields.now }
    requires entries { put_begin fields.now + 48 * put_count fields.now ≤ length fields.now }
    requires room { 32 + 48 * put_count fields.now ≤ length page.old }
    requires size { length page.old ≤ 8192 }
    ensures found { IfSome result (λ files. ArePut (length page.old) fields.now files.entries) }
    ensures numbers { IfSome result (λ files. files
        ≡ put_catalog (number_at 8 fields.now 0) (number_at 8 fields.now 8) files.entries) }
    ensures none { IfNone result ((put : List FileEntry) → ArePut (length page.old) fields.now put → ⊥) }
{
    let at = FILE_HEAD + NUMBER_LEN * (get_u16(fields, REMOVED_COUNT) as usize) + COUNT_LEN;
    let len = CATALOG_ENTRY as usize * count_of_put(fields);
    write_catalog(
        page,
        get_u64(fields, NEXT_UNIQUE),
        get_u64(fields, LAST),
        &fields[at..][..len],
    );
    CatalogView::of(page)
}

/// Whether the files that are put are such as a catalog of a page has, and none of them is removed.
fn are_put_on(page: &mut [u8], fields: &[u8]) -> bool
    requires head { put_begin fields.now ≤ length fields.now }
    requires entries { put_begin fields.now + 48 * put_count fields.now ≤ length fields.now }
    requires room { 32 + 48 * put_count fields.now ≤ length page.old }
    requires size { length page.old ≤ 8192 }
    ensures { IsTrue result ↔ ((put : List FileEntry) × ArePut (length page.old) fields.now put
        × NoneOf (removed_read fields.now) (map number_of put)) }
{
    let removed = get_u16(fields, REMOVED_COUNT) as usize;
    match put_view(page, fields) {
        None => false,
        Some(files) => none_removed(fields, removed, &files),
    }
}

/// The same, for pages of a size.
fn are_put(fields: &[u8], size: usize) -> bool
    requires head { put_begin fields.now ≤ length fields.now }
    requires entries { put_begin fields.now + 48 * put_count fields.now ≤ length fields.now }
    requires room { 32 + 48 * put_count fields.now ≤ size }
    requires size { size ≤ 8192 }
    ensures { IsTrue result ↔ ((put : List FileEntry) × ArePut size fields.now put
        × NoneOf (removed_read fields.now) (map number_of put)) }
{
    let mut page = [0; PAGE_SIZE_MOST];
    are_put_on(&mut page[..size], fields)
}

/// Where the fields end, by the two counts. None where they are too many for a page, or the bytes too few.
fn end_of_files(bytes: &[u8], size: usize) -> Option<usize>
    requires { size ≤ 8192 }
    ensures { MatchOption result ((put_begin bytes.now ≤ length bytes.now) → (32
        + 48 * removed_count bytes.now ≤ size) → (32 + 48 * put_count bytes.now ≤ size)
        → (put_begin bytes.now + 48 * put_count bytes.now ≤ length bytes.now) → ⊥)
        (λ end. (32 + 48 * removed_count bytes.now ≤ size) × (32 + 48 * put_count bytes.now ≤ size)
        × (end ≡ put_begin bytes.now + 48 * put_count bytes.now) × (end ≤ length bytes.now)) }
{
    if bytes.len() < FILE_HEAD {
        return None;
    }
    let removed = get_u16(bytes, REMOVED_COUNT) as usize;
    let begin = FILE_HEAD + NUMBER_LEN * removed + COUNT_LEN;
    if CATALOG_HEAD as usize + CATALOG_ENTRY as usize * removed > size || bytes.len() < begin {
        return None;
    }
    let len = CATALOG_ENTRY as usize * count_of_put(bytes);
    if CATALOG_HEAD as usize + len > size || bytes.len() < begin + len {
        return None;
    }
    Some(begin + len)
}

/// The fields of changes of files.
pub fn files_len(bytes: &[u8], size: u32) -> Option<usize>
    requires { size ≤ 8192 }
    ensures { MatchOption result (SaysNothing size FileChanges bytes.now)
        (λ n. Says size FileChanges bytes.now n) }
{
    let end = end_of_files(bytes, size as usize)?;
    let removed = get_u16(bytes, REMOVED_COUNT) as usize;
    if !numbers_rise(bytes, removed) || !are_put(bytes, size as usize) {
        return None;
    }
    Some(end)
}
