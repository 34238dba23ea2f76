ghost use Rattle.std.specs.Prelude.{◌≡◌, ℕ, ◌+◌, ◌-◌, ◌*◌, ◌/◌, ◌<◌, ◌≤◌, ◌++◌, length, map, Contains, IsSome};
ghost use Rattle.ex_base.specs.Fields.{IsPageField, zeros};
ghost use Rattle.object_files.specs.Catalog.{CatalogOf, IsName, entry_bytes, headed, fresh_catalog, name_of};
ghost use Rattle.object_files.specs.Edits.{IsCatalogPage, entries_on, numbers_on, with_entries, new_file, entry_inserted, without_name, indexed, IsLowestUnused};
ghost use Rattle.object_files.specs.Reads.{catalog_on, with_numbers};

use crate::find::{index_of_name, index_of_number, place_of};
use crate::marks::lowest_unused;
use crate::{
    CATALOG, COUNT, ENTRY_LEN, FILE_NO, FIRST_UNIQUE, HEAD_LEN, KIND, LAST, LEVEL, NAME,
    NEXT_UNIQUE, ROOT,
};
use ex_base::{Index, get_u16, put_bytes, put_page, put_u16, put_u32, put_u64, replace_bytes};

/// Makes a page the catalog of a fresh volume: no file, next unique number 1, last transaction 0.
pub fn empty_catalog(image: &mut [u8])
    requires head { 32 ≤ length image.old }
    requires size { length image.old ≤ 8192 }
    ensures { CatalogOf image.new fresh_catalog }
{
    image.fill(0);
    image[KIND] = CATALOG;
    put_u64(image, NEXT_UNIQUE, FIRST_UNIQUE);
}

/// Writes the unique number that the next version gets, at least 1, and the number of the last committed transaction.
pub fn set_numbers(image: &mut [u8], next_unique: u64, last_txn: u64)
    requires page { IsCatalogPage image.old }
    requires next { 1 ≤ next_unique }
    ensures { CatalogOf image.new (with_numbers (catalog_on image.old) next_unique last_txn) }
{
    put_u64(image, NEXT_UNIQUE, next_unique);
    put_u64(image, LAST, last_txn);
}

/// Makes a page that of two numbers and of entries that are spelled one behind the other. It is a catalog where a catalog has these.
pub fn write_catalog(image: &mut [u8], next_unique: u64, last_txn: u64, entries: &[u8])
    requires room { 32 + length entries.now ≤ length image.old }
    requires size { length image.old ≤ 8192 }
    ensures { image.new ≡ headed (length entries.now / 48) next_unique last_txn (entries.now
        ++ zeros (length image.old - (32 + length entries.now))) }
{
    empty_catalog(image);
    put_u16(image, COUNT, (entries.len() / ENTRY_LEN) as u16);
    put_u64(image, NEXT_UNIQUE, next_unique);
    put_u64(image, LAST, last_txn);
    put_bytes(image, HEAD_LEN, entries);
}

/// The bytes of the entry of a file without pages.
fn entry_for(name: &[u8], file_no: u32) -> [u8; ENTRY_LEN]
    requires { length name.now ≤ 32 }
    ensures { result ≡ entry_bytes (new_file name.now file_no) }
{
    let mut entry = [0; ENTRY_LEN];
    entry[0] = name.len() as u8;
    put_bytes(&mut entry, NAME, name);
    put_u32(&mut entry, FILE_NO, file_no);
    entry
}

/// Adds a file without pages, and answers its number: the lowest that no file has. The name is one that no file has, and the page has room for one
/// more entry.
pub fn add_file(image: &mut [u8], name: &[u8]) -> u32
    requires page { IsCatalogPage image.old }
    requires name { IsName name.now }
    requires unused { ¬ Contains (map name_of (entries_on image.old)) name.now }
    requires room { 32 + 48 * (length (entries_on image.old) + 1) ≤ length image.old }
    ensures number { IsLowestUnused (numbers_on image.old) result }
    ensures added { CatalogOf image.new (with_entries (catalog_on image.old)
        (entry_inserted (new_file name.now result) (entries_on image.old))) }
{
    let n = get_u16(image, COUNT) as usize;
    let file_no = lowest_unused(image, n);
    let at = HEAD_LEN + ENTRY_LEN * place_of(image, n, name);
    let end = HEAD_LEN + ENTRY_LEN * n;
    replace_bytes(
        image,
        at,
        at,
        end,
        &entry_for(name, file_no),
        end + ENTRY_LEN,
    );
    put_u16(image, COUNT, n as u16 + 1);
    file_no
}

/// Removes the file with a name.
pub fn remove_file(image: &mut [u8], name: &[u8])
    requires page { IsCatalogPage image.old }
    requires file { Contains (map name_of (entries_on image.old)) name.now }
    ensures { CatalogOf image.new (with_entries (catalog_on image.old)
        (without_name name.now (entries_on image.old))) }
{
    let n = get_u16(image, COUNT) as usize;
    let at = HEAD_LEN + ENTRY_LEN * index_of_name(image, n, name);
    let end = HEAD_LEN + ENTRY_LEN * n;
    replace_bytes(image, at, at + ENTRY_LEN, end, &[], end);
    put_u16(image, COUNT, n as u16 - 1);
}

/// Sets the root and the level of the index of the file with the index's number. Above level 0 an index has a root.
pub fn set_index(image: &mut [u8], index: Index)
    requires page { IsCatalogPage image.old }
    requires file { Contains (numbers_on image.old) index.file_no }
    requires root { IsPageField index.root }
    requires level { index.level ≤ 5 }
    requires rooted { 0 < index.level → IsSome index.root }
    ensures { CatalogOf image.new (with_entries (catalog_on image.old)
        (map (indexed index.file_no index.level index.root) (entries_on image.old))) }
{
    let n = get_u16(image, COUNT) as usize;
    let at = HEAD_LEN + ENTRY_LEN * index_of_number(image, n, index.file_no);
    image[at + LEVEL] = index.level;
    put_page(image, at + ROOT, index.root);
}
