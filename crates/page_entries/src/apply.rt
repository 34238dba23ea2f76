// A page after an entry.
ghost use Rattle.std.specs.Prelude.{◌≡◌, length, IfOk, IfSome, IfNone, Some};
ghost use Rattle.std.specs.Option.{option_map};
ghost use Rattle.page_entries.specs.After.{Applies, said_after};
ghost use Rattle.page_entries.specs.Said.{AreFields, said_on};

use crate::entry::PageEntry;
use crate::file_changes::apply_files;
use crate::form::EntryForm;
use crate::slots::apply_slots;
use ex_base::{Image, PageNo};
use std::alloc::{AllocError, Global};

/// The page after an entry, over its image so far. None exactly where the entry doesn't apply.
pub fn apply_entry(
    alloc: Global,
    entry: &PageEntry,
    so_far: Option<&[u8]>,
    size: u32,
) -> Result<Option<Image>, AllocError>
    requires fields { AreFields size entry.now.form entry.now.fields }
    requires size { IfSome so_far (λ page. length page.now ≡ size) }
    ensures applies { IfOk result (λ after. IfSome after
        (λ image. Applies entry.now.page.0 (said_on entry.now.form entry.now.fields)
        (option_map (λ page. page.now) so_far.entry))) }
    ensures applied { IfOk result (λ after. IfSome after
        (λ image. said_after (said_on entry.now.form entry.now.fields)
        (option_map (λ page. page.now) so_far.entry) ≡ Some image)) }
    ensures refused { IfOk result (λ after. IfNone after
        (Applies entry.now.page.0 (said_on entry.now.form entry.now.fields)
        (option_map (λ page. page.now) so_far.entry) → ⊥)) }
{
    let fields = entry.fields.as_slice();
    match entry.form {
        EntryForm::Image => Ok(Some(Image::of(alloc, fields)?)),
        EntryForm::SlotChanges => match so_far {
            None => Ok(None),
            Some(old) => apply_slots(alloc, fields, old),
        },
        EntryForm::FileChanges => match so_far {
            None => Ok(None),
            Some(old) => {
                if entry.page != PageNo::CATALOG {
                    return Ok(None);
                }
                apply_files(alloc, fields, old)
            }
        },
    }
}
