// What a commit says of a page.
ghost use Rattle.std.specs.Prelude.{◌≡◌, length, IfOk, IfSome, IfNone};
ghost use Rattle.std.specs.Option.{option_map};
ghost use Rattle.page_entries.specs.declared.form.EntryForm.TheVariants.{Image};
ghost use Rattle.page_entries.specs.EntryOf.{IsEntryOf};
ghost use Rattle.page_entries.specs.Rule.{Differs};
ghost use Rattle.page_entries.specs.Said.{Said, AreFields, said_on};

use crate::entry::PageEntry;
use crate::fields::Fields;
use crate::file_differences::file_fields;
use crate::form::EntryForm;
use crate::slot_differences::slot_fields;
use ex_base::PageNo;
use std::alloc::{AllocError, Global};

/// An entry with all bytes of a page.
fn whole_page(alloc: Global, page: PageNo, image: &[u8]) -> Result<PageEntry, AllocError>
    ensures page { IfOk result (λ entry. entry.page ≡ page) }
    ensures form { IfOk result (λ entry. entry.form ≡ Image) }
    ensures fields { IfOk result (λ entry. entry.fields ≡ image.now) }
{
    Ok(PageEntry {
        page,
        form: EntryForm::Image,
        fields: Fields::of(alloc, image)?,
    })
}

/// What differs between two images of a page. None exactly where they aren't two pages of one file, or two catalogs.
fn differences(
    alloc: Global,
    page: PageNo,
    old: &[u8],
    new: &[u8],
) -> Result<Option<PageEntry>, AllocError>
    requires { length old.now ≡ length new.now }
    ensures page { IfOk result (λ found. IfSome found (λ entry. entry.page ≡ page)) }
    ensures differ { IfOk result (λ found. IfSome found
        (λ entry. Differs page.0 old.now new.now (said_on entry.form entry.fields))) }
    ensures fields { IfOk result (λ found. IfSome found
        (λ entry. AreFields (length new.now) entry.form entry.fields)) }
    ensures none { IfOk result (λ found. IfNone found
        ((said : Said) → Differs page.0 old.now new.now said → ⊥)) }
{
    match slot_fields(alloc, old, new)? {
        None => {}
        Some(fields) => {
            return Ok(Some(PageEntry {
                page,
                form: EntryForm::SlotChanges,
                fields,
            }));
        }
    }
    match file_fields(alloc, page, old, new)? {
        None => Ok(None),
        Some(fields) => Ok(Some(PageEntry {
            page,
            form: EntryForm::FileChanges,
            fields,
        })),
    }
}

/// The entry that a commit writes for a page, over its image so far: what differs, where that takes fewer bytes than the page, and else all of it.
pub fn entry_for(
    alloc: Global,
    page: PageNo,
    old: Option<&[u8]>,
    new: &[u8],
) -> Result<PageEntry, AllocError>
    requires { IfSome old (λ before. length before.now ≡ length new.now) }
    ensures { IfOk result
        (λ entry. IsEntryOf page (option_map (λ before. before.now) old.entry) new.now entry) }
{
    match old {
        None => whole_page(alloc, page, new),
        Some(before) => match differences(alloc, page, before, new)? {
            None => whole_page(alloc, page, new),
            Some(entry) => {
                if entry.fields.as_slice().len() < new.len() {
                    Ok(entry)
                } else {
                    whole_page(alloc, page, new)
                }
            }
        },
    }
}
