// The slots that differ between two images of a page of a file.
ghost use Rattle.std.specs.Prelude.{◌≡◌, ◌<◌, ◌++◌, length, IfOk, OnOk, IfSome, IfNone};
ghost use Rattle.std.specs.Option.{option_map};
ghost use Rattle.slotted_pages.specs.FilePage.{Slot, body_of, bodies};
ghost use Rattle.page_entries.specs.declared.form.EntryForm.TheVariants.{SlotChanges};
ghost use Rattle.page_entries.specs.Changed.{same_slot, slots_changed};
ghost use Rattle.page_entries.specs.Rule.{SlotsDiffer};
ghost use Rattle.page_entries.specs.Said.{Said, Slots, AreFields, change_bytes, said_bytes, said_on};

use crate::fields::Fields;
use crate::spelling::push_two;
use crate::{CHANGE_COUNT, CHANGE_HEAD};
use ex_base::put_u16;
use slotted_pages::SlottedView;
use std::alloc::{AllocError, Global};

/// Whether two slots have the same body, or none.
fn is_same(old: Option<&[u8]>, new: Option<&[u8]>) -> bool
    ensures { result ≡ same_slot (option_map (λ body. body.now) old.entry)
        (option_map (λ body. body.now) new.entry) }
{
    match old {
        None => new.is_none(),
        Some(old) => match new {
            None => false,
            Some(new) => old == new,
        },
    }
}

/// The bytes that a slot gets: none make it vacant.
fn bytes_of<'a>(slot: Option<&'a [u8]>) -> &'a [u8]
    ensures { result.now ≡ body_of (option_map (λ body. body.now) slot.entry) }
{
    match slot {
        None => &[],
        Some(body) => body,
    }
}

/// Writes a change.
fn push_change(fields: &mut Vec<u8>, slot: u16, body: &[u8]) -> Result<(), AllocError>
    requires { length body.now < 65536 }
    ensures { OnOk result ((s : Slot) → body_of s ≡ body.now
        → fields.new.items ≡ fields.old.items ++ change_bytes (slot, s)) }
{
    push_two(fields, slot)?;
    push_two(fields, body.len() as u16)?;
    fields.extend_from_slice(body)?;
    Ok(())
}

/// The fields of the slots that differ.
fn differing(alloc: Global, old: &SlottedView, new: &SlottedView) -> Result<Vec<u8>, AllocError>
    requires { length (bodies new.now.page.slots) < 65536 }
    ensures { IfOk result (λ fields. fields.items
        ≡ said_bytes (Slots (slots_changed old.now.page.slots new.now.page.slots))) }
{
    let mut fields = vec![in alloc; 0; CHANGE_HEAD]?;
    let mut count = 0;
    for slot in 0..old.slots().max(new.slots()) {
        let body = new.body(slot);
        if !is_same(old.body(slot), body) {
            push_change(&mut fields, slot, bytes_of(body))?;
            count += 1;
        }
    }
    put_u16(&mut fields, CHANGE_COUNT, count);
    Ok(fields)
}

/// The fields of the slots that differ. None exactly where the images aren't two pages of one file.
pub fn slot_fields(alloc: Global, old: &[u8], new: &[u8]) -> Result<Option<Fields>, AllocError>
    ensures differ { IfOk result (λ found. IfSome found
        (λ fields. SlotsDiffer old.now new.now (said_on SlotChanges fields))) }
    ensures fields { IfOk result (λ found. IfSome found
        (λ fields. AreFields (length new.now) SlotChanges fields)) }
    ensures none { IfOk result (λ found. IfNone found
        ((said : Said) → SlotsDiffer old.now new.now said → ⊥)) }
{
    let was = match SlottedView::of(old) {
        None => return Ok(None),
        Some(view) => view,
    };
    let is = match SlottedView::of(new) {
        None => return Ok(None),
        Some(view) => view,
    };
    if was.file_no() != is.file_no() {
        return Ok(None);
    }
    Ok(Some(Fields::from_vec(differing(alloc, &was, &is)?)))
}
