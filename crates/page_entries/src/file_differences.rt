// The files that differ between two images of the catalog.
ghost use Rattle.std.specs.Prelude.{◌≡◌, ◌++◌, ◌+◌, ◌*◌, ◌/◌, ◌<◌, ◌≤◌, length, map, IfOk, OnOk, IfSome, IfNone, List};
ghost use Rattle.std.specs.List.{flat_map};
ghost use Rattle.ex_base.specs.Fields.{four_bytes};
ghost use Rattle.ex_base.specs.Order.{AllDiffer};
ghost use Rattle.object_files.specs.Catalog.{FileEntry, entry_bytes, number_of};
ghost use Rattle.page_entries.specs.declared.form.EntryForm.TheVariants.{FileChanges};
ghost use Rattle.page_entries.specs.Rule.{AreGone, FilesDiffer, has_same, files_changed};
ghost use Rattle.page_entries.specs.Said.{Said, Files, AreFields, said_bytes, said_on};

use crate::fields::Fields;
use crate::file_changes::has_number;
use crate::spelling::{push_eight, push_four, push_two};
use ex_base::{CATALOG_ENTRY, PageNo};
use object_files::CatalogView;
use std::alloc::{AllocError, Global};

/// The numbers of the old files that no new one has, in rising order.
fn numbers_gone(alloc: Global, old: &CatalogView, new: &CatalogView) -> Result<Vec<u32>, AllocError>
    requires { AllDiffer (map number_of old.now.entries) }
    ensures gone { IfOk result (λ gone. AreGone old.now.entries new.now.entries gone.items) }
    ensures few { IfOk result (λ gone. length gone.items ≤ length old.now.entries) }
{
    let mut gone = Vec::new(alloc);
    for i in 0..old.len() {
        let file_no = old.entry(i).file_no;
        if !has_number(new, file_no) {
            gone.push(file_no)?;
        }
    }
    gone.sort()?;
    Ok(gone)
}

/// Whether one of the files has this entry.
fn has_entry(files: &CatalogView, spelled: &[u8]) -> bool
    ensures { result ≡ has_same files.now.entries spelled.now }
{
    for i in 0..files.len() {
        if files.spelled(i) == spelled {
            return true;
        }
    }
    false
}

/// The entries of the new files that the old ones don't have just so, spelled one behind the other.
fn spelled_changed(
    alloc: Global,
    old: &CatalogView,
    new: &CatalogView,
) -> Result<Vec<u8>, AllocError>
    ensures { IfOk result (λ bytes. bytes.items
        ≡ flat_map entry_bytes (files_changed old.now.entries new.now.entries)) }
{
    let mut bytes = Vec::new(alloc);
    for i in 0..new.len() {
        let spelled = new.spelled(i);
        if !has_entry(old, spelled) {
            bytes.extend_from_slice(spelled)?;
        }
    }
    Ok(bytes)
}

/// Writes numbers of four bytes.
fn push_numbers(fields: &mut Vec<u8>, numbers: &[u32]) -> Result<(), AllocError>
    ensures { OnOk result (fields.new.items
        ≡ fields.old.items ++ flat_map four_bytes numbers.now) }
{
    for number in numbers {
        push_four(fields, *number)?;
    }
    Ok(())
}

/// The fields of the catalog's two numbers, the numbers of files that are gone, and spelled entries.
fn files_spelled(
    alloc: Global,
    catalog: &CatalogView,
    gone: &[u32],
    put: &[u8],
) -> Result<Vec<u8>, AllocError>
    requires gone { length gone.now < 65536 }
    requires put { length put.now < 48 * 65536 }
    ensures { IfOk result (λ fields. (files : List FileEntry) → put.now ≡ flat_map entry_bytes files
        → length files ≡ length put.now / 48 → fields.items
        ≡ said_bytes (Files catalog.now.next_unique catalog.now.last gone.now files)) }
{
    let mut fields = Vec::new(alloc);
    push_eight(&mut fields, catalog.next_unique())?;
    push_eight(&mut fields, catalog.last_txn())?;
    push_two(&mut fields, gone.len() as u16)?;
    push_numbers(&mut fields, gone)?;
    push_two(&mut fields, (put.len() / CATALOG_ENTRY as usize) as u16)?;
    fields.extend_from_slice(put)?;
    Ok(fields)
}

/// The fields of the files that differ. None exactly where the page isn't the catalog's, or the images aren't two catalogs.
pub fn file_fields(
    alloc: Global,
    page: PageNo,
    old: &[u8],
    new: &[u8],
) -> Result<Option<Fields>, AllocError>
    requires { length old.now ≡ length new.now }
    ensures differ { IfOk result (λ found. IfSome found
        (λ fields. FilesDiffer page.0 old.now new.now (said_on FileChanges fields))) }
    ensures fields { IfOk result (λ found. IfSome found
        (λ fields. AreFields (length new.now) FileChanges fields)) }
    ensures none { IfOk result (λ found. IfNone found
        ((said : Said) → FilesDiffer page.0 old.now new.now said → ⊥)) }
{
    if page != PageNo::CATALOG {
        return Ok(None);
    }
    let was = match CatalogView::of(old) {
        None => return Ok(None),
        Some(view) => view,
    };
    let is = match CatalogView::of(new) {
        None => return Ok(None),
        Some(view) => view,
    };
    let gone = numbers_gone(alloc, &was, &is)?;
    let put = spelled_changed(alloc, &was, &is)?;
    Ok(Some(Fields::from_vec(files_spelled(alloc, &is, &gone, &put)?)))
}
