// The catalog after files were removed and put.
ghost use Rattle.std.specs.Prelude.{◌≡◌, ◌≢◌, ◌↔◌, ◌&&◌, not, ℕ, List, ◌+◌, ◌*◌, ◌<◌, ◌≤◌, length, map, filter, IfOk, OnOk, IfSome, IfNone, IsTrue, Contains, Some, slice_get};
ghost use Rattle.std.specs.List.{flat_map, AllByRecursion};
ghost use Rattle.std.specs.Ordering.{nat_cmp};
ghost use Rattle.std.specs.Cmp.Lexicographic.{slice_cmp};
ghost use Rattle.std.specs.declared.cmp.Ordering.TheVariants.{Less};
ghost use Rattle.object_files.specs.Catalog.{FileEntry, IsEntry, IsCatalog, catalog_page, entry_bytes, number_of};
ghost use Rattle.object_files.specs.Edits.{entry_inserted};
ghost use Rattle.page_entries.specs.declared.form.EntryForm.TheVariants.{FileChanges};
ghost use Rattle.page_entries.specs.Said.{AreFields, numbers_read, put_begin, put_catalog};
ghost use Rattle.page_entries.specs.Fronts.{removed_read};
ghost use Rattle.page_entries.specs.FilesAfter.{IsListed, Lists, IsPlace, has_no, stays, files_put, files_after, FilesReadApply, catalog_after_read};

use crate::file_grammar::{is_removed, put_view};
use crate::{FILE_HEAD, NUMBER_LEN, REMOVED_COUNT};
use ex_base::{CATALOG_HEAD, Image, get_u16, get_u32};
use object_files::{CatalogView, write_catalog};
use std::alloc::{AllocError, Global};
use std::cmp::Ordering;

/// A file by its name, and the bytes that spell its entry.
#[derive(Clone, Copy)]
pub struct Listed<'a> {
    name: &'a [u8],
    bytes: &'a [u8],
}

/// Whether a file has a number.
pub fn has_number(files: &CatalogView, file_no: u32) -> bool
    ensures { IsTrue result ↔ Contains (map number_of files.now.entries) file_no }
{
    for i in 0..files.len() {
        if files.entry(i).file_no == file_no {
            return true;
        }
    }
    false
}

/// Whether the file with a number is neither removed nor replaced.
fn keeps(fields: &[u8], n: usize, put: &CatalogView, file_no: u32) -> bool
    requires { 18 + 4 * n ≤ length fields.now }
    ensures { result ≡ (not (has_no (numbers_read fields.now n 18) file_no)
        && not (has_no (map number_of put.now.entries) file_no)) }
{
    !is_removed(fields, n, file_no) && !has_number(put, file_no)
}

/// One of the files.
fn file_of<'a>(files: &CatalogView<'a>, i: u32) -> Listed<'a>
    requires { i < length files.now.entries }
    ensures { (e : FileEntry) → slice_get files.now.entries i ≡ Some e → IsListed result e }
{
    Listed {
        name: files.entry(i).name,
        bytes: files.spelled(i),
    }
}

/// The files that stay.
fn kept<'a>(
    alloc: Global,
    fields: &[u8],
    n: usize,
    put: &CatalogView,
    old: &CatalogView<'a>,
) -> Result<Vec<Listed<'a>>, AllocError>
    requires { 18 + 4 * n ≤ length fields.now }
    ensures { IfOk result (λ files. Lists files.items (filter
        (stays (numbers_read fields.now n 18) put.now.entries) old.now.entries)) }
{
    let mut files = Vec::new(alloc);
    for i in 0..old.len() {
        if keeps(fields, n, put, old.entry(i).file_no) {
            files.push(file_of(old, i))?;
        }
    }
    Ok(files)
}

/// The first place whose file's name comes later, or the number of files.
fn place_of(files: &[Listed], name: &[u8]) -> usize
    ensures within { result ≤ length files.now }
    ensures place { (es : List FileEntry) (e : FileEntry) → Lists files.now es → e.name ≡ name.now
        → IsPlace es e result }
{
    for (i, file) in files.iter().enumerate() {
        match name.cmp(&file.name) {
            Ordering::Less => return i,
            _ => {}
        }
    }
    files.len()
}

/// Puts a file in its place.
fn put_in<'a>(files: &mut Vec<Listed<'a>>, file: &Listed<'a>) -> Result<(), AllocError>
    ensures { OnOk result ((es : List FileEntry) (e : FileEntry) → Lists files.old.items es
        → IsListed file.now e → Lists files.new.items (entry_inserted e es)) }
{
    let at = place_of(files, file.name);
    files.insert(at, *file)?;
    Ok(())
}

/// Puts all files in their places.
fn put_all<'a>(files: &mut Vec<Listed<'a>>, put: &CatalogView<'a>) -> Result<(), AllocError>
    ensures { OnOk result ((es : List FileEntry) → Lists files.old.items es
        → Lists files.new.items (files_put put.now.entries es)) }
{
    for k in 0..put.len() {
        put_in(files, &file_of(put, put.len() - 1 - k))?;
    }
    Ok(())
}

/// The entries of files, spelled one behind the other.
fn spelled(alloc: Global, files: &[Listed]) -> Result<Vec<u8>, AllocError>
    ensures { IfOk result (λ bytes. (es : List FileEntry) → Lists files.now es
        → bytes.items ≡ flat_map entry_bytes es) }
{
    let mut bytes = Vec::new(alloc);
    for file in files {
        bytes.extend_from_slice(file.bytes)?;
    }
    Ok(bytes)
}

/// The entries after changes of files, spelled one behind the other.
fn entries_after<'a>(
    alloc: Global,
    fields: &[u8],
    put: &CatalogView<'a>,
    old: &CatalogView<'a>,
) -> Result<Vec<u8>, AllocError>
    requires { put_begin fields.now ≤ length fields.now }
    ensures { IfOk result (λ bytes. bytes.items ≡ flat_map entry_bytes
        (files_after (removed_read fields.now) put.now.entries old.now.entries)) }
{
    let removed = get_u16(fields, REMOVED_COUNT) as usize;
    let mut files = kept(alloc, fields, removed, put, old)?;
    put_all(&mut files, put)?;
    spelled(alloc, &files)
}

/// Whether there is a file for each of the n removed numbers.
fn are_there(fields: &[u8], n: usize, files: &CatalogView) -> bool
    requires { 18 + 4 * n ≤ length fields.now }
    ensures { IsTrue result ↔ AllByRecursion (λ x. Contains (map number_of files.now.entries) x)
        (numbers_read fields.now n 18) }
{
    for i in 0..n {
        if !has_number(files, get_u32(fields, FILE_HEAD + NUMBER_LEN * i)) {
            return false;
        }
    }
    true
}

/// The catalog page of two numbers and of spelled entries. None exactly where these are not such as a catalog has.
fn catalog_of(
    alloc: Global,
    next_unique: u64,
    last_txn: u64,
    entries: &[u8],
    size: usize,
) -> Result<Option<Image>, AllocError>
    requires head { 32 ≤ size }
    requires size { size ≤ 8192 }
    ensures made { IfOk result (λ page. IfSome page (λ image. (es : List FileEntry)
        → AllByRecursion IsEntry es → entries.now ≡ flat_map entry_bytes es
        → IsCatalog size (put_catalog next_unique last_txn es)
        × (image ≡ catalog_page size (put_catalog next_unique last_txn es)))) }
    ensures refused { IfOk result (λ page. IfNone page ((es : List FileEntry)
        → AllByRecursion IsEntry es → entries.now ≡ flat_map entry_bytes es
        → IsCatalog size (put_catalog next_unique last_txn es) → ⊥)) }
{
    if entries.len() > size - CATALOG_HEAD as usize {
        return Ok(None);
    }
    let mut page = vec![in alloc; 0; size]?;
    write_catalog(&mut page, next_unique, last_txn, entries);
    match CatalogView::of(&page) {
        None => return Ok(None),
        Some(_) => {}
    }
    Ok(Some(Image::from_vec(page)))
}

/// The catalog after changes of files. None exactly where they don't apply.
pub fn apply_files(alloc: Global, fields: &[u8], old: &[u8]) -> Result<Option<Image>, AllocError>
    requires { AreFields (length old.now) FileChanges fields.now }
    ensures applied { IfOk result (λ after. IfSome after (λ image.
        FilesReadApply old.now fields.now
        × (image ≡ catalog_page (length old.now) (catalog_after_read old.now fields.now)))) }
    ensures refused { IfOk result (λ after. IfNone after (FilesReadApply old.now fields.now → ⊥)) }
{
    let files = match CatalogView::of(old) {
        None => return Ok(None),
        Some(files) => files,
    };
    let removed = get_u16(fields, REMOVED_COUNT) as usize;
    if !are_there(fields, removed, &files) {
        return Ok(None);
    }
    let mut page = vec![in alloc; 0; old.len()]?;
    let put = match put_view(&mut page, fields) {
        None => return Ok(None),
        Some(put) => put,
    };
    let entries = entries_after(alloc, fields, &put, &files)?;
    catalog_of(
        alloc,
        put.next_unique(),
        put.last_txn(),
        &entries,
        old.len(),
    )
}
