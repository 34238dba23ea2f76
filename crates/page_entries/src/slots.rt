// A page of a file after changes of its slots.
ghost use Rattle.std.specs.Prelude.{◌≡◌, ℕ, ◌+◌, ◌<◌, ◌≤◌, length, take, IfOk, OnOk, IfSome, IfNone};
ghost use Rattle.ex_base.specs.Bytes.{bytes_at};
ghost use Rattle.ex_base.specs.Fields.{number_at};
ghost use Rattle.slotted_pages.specs.FilePage.{file_page};
ghost use Rattle.slotted_pages.specs.Edits.{slot_with, trimmed};
ghost use Rattle.slotted_pages.specs.Whole.{held, slots_held};
ghost use Rattle.page_entries.specs.declared.form.EntryForm.TheVariants.{SlotChanges};
ghost use Rattle.page_entries.specs.Said.{AreFields, changes_read};
ghost use Rattle.page_entries.specs.Fronts.{ChangeAt, ChangesAt, change_end};
ghost use Rattle.page_entries.specs.Applying.{slot_set, slots_after, page_after_slots, SlotsApply};

use crate::{CHANGE_BODY, CHANGE_COUNT, CHANGE_HEAD, CHANGE_LEN};
use ex_base::{Image, get_u16};
use slotted_pages::{SlotBody, SlottedView, write_slots};
use std::alloc::{AllocError, Global};

/// The slots of a page.
fn slots_of_view<'a>(alloc: Global, view: &SlottedView<'a>) -> Result<Vec<SlotBody<'a>>, AllocError>
    ensures { IfOk result (λ slots. slots_held slots.items ≡ view.now.page.slots) }
{
    let mut slots = Vec::new(alloc);
    for i in 0..view.slots() {
        slots.push(SlotBody { body: view.body(i) })?;
    }
    Ok(slots)
}

/// Sets one of the slots. Those between the last one and it stay vacant.
fn set_slot<'a>(
    slots: &mut Vec<SlotBody<'a>>,
    slot: usize,
    body: &SlotBody<'a>,
) -> Result<(), AllocError>
    requires { slot < 65536 }
    ensures { OnOk result (slots_held slots.new.items
        ≡ slot_set slot (held body.now) (slots_held slots.old.items)) }
{
    while slots.len() <= slot {
        slots.push(SlotBody { body: None })?;
    }
    slots[slot] = *body;
    Ok(())
}

/// What the change at a position gives its slot.
fn body_at<'a>(fields: &'a [u8], at: usize) -> SlotBody<'a>
    requires head { at + 4 ≤ length fields.now }
    requires body { change_end fields.now at ≤ length fields.now }
    ensures { held result ≡ slot_with (bytes_at fields.now (at + 4) (number_at 2 fields.now (at + 2))) }
{
    let len = get_u16(fields, at + CHANGE_LEN) as usize;
    if len == 0 {
        return SlotBody { body: None };
    }
    SlotBody {
        body: Some(&fields[at + CHANGE_BODY..][..len]),
    }
}

/// Sets the slots that the changes name.
fn put_changes<'a>(slots: &mut Vec<SlotBody<'a>>, fields: &'a [u8]) -> Result<(), AllocError>
    requires head { 6 ≤ length fields.now }
    requires changes { ChangesAt fields.now 0 (number_at 2 fields.now 4) 6 }
    ensures { OnOk result (slots_held slots.new.items
        ≡ slots_after (changes_read fields.now (number_at 2 fields.now 4) 6)
        (slots_held slots.old.items)) }
{
    let mut at = CHANGE_HEAD;
    for i in 0..get_u16(fields, CHANGE_COUNT) as usize {
        let len = get_u16(fields, at + CHANGE_LEN) as usize;
        set_slot(slots, get_u16(fields, at) as usize, &body_at(fields, at))?;
        at += CHANGE_BODY + len;
    }
    Ok(())
}

/// How many slots there are up to the last live one.
fn live_count(slots: &[SlotBody]) -> usize
    ensures within { result ≤ length slots.now }
    ensures live { slots_held (take result slots.now) ≡ trimmed (slots_held slots.now) }
{
    let mut count = slots.len();
    while count > 0 && slots[count - 1].body.is_none() {
        count -= 1;
    }
    count
}

/// The page after changes of slots. None exactly where they don't apply.
pub fn apply_slots(alloc: Global, fields: &[u8], old: &[u8]) -> Result<Option<Image>, AllocError>
    requires { AreFields (length old.now) SlotChanges fields.now }
    ensures applied { IfOk result (λ after. IfSome after (λ image.
        SlotsApply old.now (changes_read fields.now (number_at 2 fields.now 4) 6)
        × (image ≡ file_page (length old.now)
        (page_after_slots (changes_read fields.now (number_at 2 fields.now 4) 6) old.now)))) }
    ensures refused { IfOk result (λ after. IfNone after
        (SlotsApply old.now (changes_read fields.now (number_at 2 fields.now 4) 6) → ⊥)) }
{
    let view = match SlottedView::of(old) {
        None => return Ok(None),
        Some(view) => view,
    };
    let mut slots = slots_of_view(alloc, &view)?;
    put_changes(&mut slots, fields)?;
    let count = live_count(&slots);
    let mut page = vec![in alloc; 0; old.len()]?;
    if !write_slots(&mut page, view.file_no(), &slots[..count]) {
        return Ok(None);
    }
    Ok(Some(Image::from_vec(page)))
}
