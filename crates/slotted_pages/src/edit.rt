ghost use Rattle.std.specs.Prelude.{◌≡◌, ◌↔◌, ◌+◌, ◌-◌, ◌*◌, ◌<◌, ◌≤◌, ◌==◌, if◌then◌else◌, [], length, take, None, Some, IfSome, IfNone, IsTrue, IsFalse};
ghost use Rattle.ex_base.specs.Bytes.{written};
ghost use Rattle.ex_base.specs.Fields.{two_bytes};
ghost use Rattle.slotted_pages.specs.FilePage.{SlotsOf, room_of};
ghost use Rattle.slotted_pages.specs.Reads.{IsPage, page_on};
ghost use Rattle.slotted_pages.specs.Edits.{with_slot, with_slots, slots_of, body_in, slot_with, trimmed, place_for, Left};

use crate::bytes::write_directory;
use crate::reads::{count_without, first_vacant, len_below, len_in, lens_end, room_in};
use crate::{COUNT, FIELD_LEN, FILE_NO, FILE_PAGE, KIND, LENGTH};
use ex_base::{get_u16, put_u16, put_u32, replace_bytes};

/// Makes a page a file page without slots.
pub fn empty_page(image: &mut [u8], file_no: u32)
    requires head { 16 ≤ length image.old }
    requires size { length image.old ≤ 8192 }
    ensures { SlotsOf image.new (record { file_no = file_no; slots = [] }) }
{
    image.fill(0);
    image[KIND] = FILE_PAGE;
    put_u32(image, FILE_NO, file_no);
}

/// Writes the length of a slot's body.
fn write_len(image: &mut [u8], slot: usize, len: usize)
    requires room { 4 * (slot + 1) ≤ length image.old }
    requires len { len < 65536 }
    ensures { image.new ≡ written image.old (length image.old - 4 * (slot + 1)
        + 2) (two_bytes len) }
{
    let at = image.len() - FIELD_LEN * (slot + 1) + LENGTH;
    put_u16(image, at, len as u16);
}

/// Gives a slot a body, or none where there are no bytes, and leaves as many slots as count.
fn change_slot(image: &mut [u8], slot: usize, body: &[u8], count: usize)
    requires page { IsPage image.old }
    requires slot { slot ≤ length (slots_of image.old) }
    requires left { Left (length image.old) (with_slot (slots_of image.old) slot
        (slot_with body.now)) count }
    ensures { SlotsOf image.new (with_slots (page_on image.old)
        (take count (with_slot (slots_of image.old) slot (slot_with body.now)))) }
{
    let n = get_u16(image, COUNT) as usize;
    let start = lens_end(image, slot);
    let old_len = len_below(image, slot, n);
    let end = lens_end(image, n);
    let limit = image.len() - FIELD_LEN * count;
    write_len(image, slot, body.len());
    replace_bytes(image, start, start + old_len, end, body, limit);
    put_u16(image, COUNT, count as u16);
    write_directory(image, count);
}

/// The bytes of the field that a slot gets.
fn field_for(slot: usize, n: usize) -> usize
    ensures { result ≡ (if slot == n then 4 else 0) }
{
    if slot == n { FIELD_LEN } else { 0 }
}

/// Puts a body into the lowest vacant slot, or into a new slot behind the last where none is vacant, and answers the slot. None exactly where the room
/// is too small; then the page stays.
pub fn insert_body(image: &mut [u8], body: &[u8]) -> Option<u16>
    requires page { IsPage image.old }
    requires some { 1 ≤ length body.now }
    ensures place { result ≡ place_for (length image.old) (slots_of image.old) (length body.now) }
    ensures placed { IfSome result
        (λ slot. SlotsOf image.new (with_slots (page_on image.old)
        (with_slot (slots_of image.old) slot (Some body.now)))) }
    ensures kept { IfNone result (image.new ≡ image.old) }
{
    let n = get_u16(image, COUNT) as usize;
    let slot = first_vacant(image, n);
    let field = field_for(slot, n);
    if body.len() + field > room_in(image, n) {
        return None;
    }
    change_slot(image, slot, body, n.max(slot + 1));
    Some(slot as u16)
}

/// Puts a body in the place of a live slot's body. False exactly where it grows by more than the room; then the page stays.
pub fn resize_body(image: &mut [u8], slot: u16, body: &[u8]) -> bool
    requires page { IsPage image.old }
    requires live { 1 ≤ length (body_in image.old slot) }
    requires some { 1 ≤ length body.now }
    ensures fits { IsTrue result
        ↔ (length body.now ≤ length (body_in image.old slot)
        + room_of (length image.old) (slots_of image.old)) }
    ensures changed { IsTrue result
        → SlotsOf image.new (with_slots (page_on image.old) (with_slot (slots_of image.old) slot
        (Some body.now))) }
    ensures kept { IsFalse result → image.new ≡ image.old }
{
    let n = get_u16(image, COUNT) as usize;
    if body.len() > len_in(image, slot as usize) + room_in(image, n) {
        return false;
    }
    change_slot(image, slot as usize, body, n);
    true
}

/// Removes a live slot's body. Vacant slots behind the last live one are removed too.
pub fn remove_body(image: &mut [u8], slot: u16)
    requires page { IsPage image.old }
    requires live { 1 ≤ length (body_in image.old slot) }
    ensures { SlotsOf image.new (with_slots (page_on image.old)
        (trimmed (with_slot (slots_of image.old) slot None))) }
{
    let n = get_u16(image, COUNT) as usize;
    let count = count_without(image, n, slot as usize);
    change_slot(image, slot as usize, &[], count);
}
