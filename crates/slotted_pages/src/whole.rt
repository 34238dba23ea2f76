// Pages that are written whole.
ghost use Rattle.std.specs.Prelude.{◌≡◌, ◌↔◌, ◌<◌, ◌≤◌, [], length, IsTrue, IsFalse, MatchOption};
ghost use Rattle.std.specs.List.{AllByRecursion};
ghost use Rattle.slotted_pages.specs.FilePage.{body_of, bodies, file_page, taken, IsSlot};
ghost use Rattle.slotted_pages.specs.Whole.{held, slots_held, filled_page};

use crate::bytes::write_field;
use crate::edit::empty_page;
use crate::{COUNT, FIELD_LEN, HEAD_LEN};
use ex_base::{put_bytes, put_u16};

/// What a slot holds: no body where it is vacant. A body has at least one byte.
#[derive(Clone, Copy)]
pub struct SlotBody<'a> {
    pub body: Option<&'a [u8]>,
}

/// The bytes of a slot's body, none where it is vacant.
fn bytes_of<'a>(slot: &SlotBody<'a>) -> &'a [u8]
    ensures { result.now ≡ body_of (held slot.now) }
{
    match slot.body {
        None => &[],
        Some(body) => body,
    }
}

/// The bytes that the bodies of slots take. None exactly where that is more than a number of bytes.
fn bodies_len(slots: &[SlotBody], most: usize) -> Option<usize>
    ensures { MatchOption result (most < length (bodies (slots_held slots.now)))
        (λ len. (len ≡ length (bodies (slots_held slots.now))) × (len ≤ most)) }
{
    let mut len = 0;
    for slot in slots {
        let more = bytes_of(slot).len();
        if more > most - len {
            return None;
        }
        len += more;
    }
    Some(len)
}

/// Writes bodies one behind the other, and the fields of their slots, on a page that has the number of slots and the file and else zeros.
fn write_bodies(image: &mut [u8], file_no: u32, slots: &[SlotBody])
    requires room { taken (slots_held slots.now) ≤ length image.old }
    requires size { length image.old ≤ 8192 }
    requires some { AllByRecursion IsSlot (slots_held slots.now) }
    requires empty { image.old ≡ filled_page (length image.old) file_no (length slots.now) [] }
    ensures { image.new ≡ filled_page (length image.old) file_no (length slots.now) (slots_held slots.now) }
{
    let mut at = HEAD_LEN;
    for (i, slot) in slots.iter().enumerate() {
        let body = bytes_of(slot);
        put_bytes(image, at, body);
        write_field(image, i, at, body.len());
        at += body.len();
    }
}

/// Makes a page the file page of a file with these slots. False exactly where they take more than the page; then the page stays.
pub fn write_slots(image: &mut [u8], file_no: u32, slots: &[SlotBody]) -> bool
    requires size { length image.old ≤ 8192 }
    requires some { AllByRecursion IsSlot (slots_held slots.now) }
    ensures fits { IsTrue result ↔ (taken (slots_held slots.now) ≤ length image.old) }
    ensures written { IsTrue result → image.new ≡ file_page (length image.old)
        (record { file_no = file_no; slots = slots_held slots.now }) }
    ensures kept { IsFalse result → image.new ≡ image.old }
{
    if image.len() < HEAD_LEN || slots.len() > (image.len() - HEAD_LEN) / FIELD_LEN {
        return false;
    }
    match bodies_len(slots, image.len() - HEAD_LEN - FIELD_LEN * slots.len()) {
        None => return false,
        Some(_) => {}
    }
    empty_page(image, file_no);
    put_u16(image, COUNT, slots.len() as u16);
    write_bodies(image, file_no, slots);
    true
}
