ghost use Rattle.std.specs.Prelude.{◌≡◌, ℕ, ◌↔◌, ◌+◌, ◌-◌, ◌*◌, ◌^◌, ◌<◌, ◌≤◌, length, IsTrue, IfSome, IfNone};
ghost use Rattle.ex_base.specs.Fields.{number_at};
ghost use Rattle.slotted_pages.specs.Reads.{step_to, end_of, added, read_lens, page_on, IsPage, PageReads};

use crate::{
    COUNT, FIELD_LEN, FILE_NO, FILE_PAGE, GAP, HEAD_LEN, KIND, LENGTH, MOST_BYTES, SECOND_GAP, ZERO,
};
use ex_base::{get_u16, get_u32, is_zero};

/// Where a slot's body begins.
pub fn offset_in(page: &[u8], slot: usize) -> usize
    requires { 4 * (slot + 1) ≤ length page.now }
    ensures value { result ≡ number_at 2 page.now (length page.now - 4 * (slot + 1)) }
    ensures small { result < 65536 }
{
    get_u16(page, page.len() - FIELD_LEN * (slot + 1)) as usize
}

/// The length of a slot's body, 0 for a vacant slot.
pub fn len_in(page: &[u8], slot: usize) -> usize
    requires { 4 * (slot + 1) ≤ length page.now }
    ensures value { result ≡ number_at 2 page.now (length page.now - 4 * (slot + 1) + 2) }
    ensures small { result < 65536 }
{
    get_u16(page, page.len() - FIELD_LEN * (slot + 1) + LENGTH) as usize
}

/// Where the bodies end behind one more slot.
fn step_on(limit: usize, at: usize, offset: usize, len: usize) -> Option<usize>
    requires inside { at ≤ limit }
    requires fits { at + len < 2 ^ 64 }
    ensures step { result ≡ step_to limit at offset len }
    ensures inside { IfSome result (λ next. next ≤ limit) }
{
    if len == 0 {
        if offset == 0 { Some(at) } else { None }
    } else if offset == at && at + len <= limit {
        Some(at + len)
    } else {
        None
    }
}

/// Where the bodies end, if they stand one behind the other.
fn bodies_end(page: &[u8], n: usize) -> Option<usize>
    requires few { n < 65536 }
    requires room { 16 + 4 * n ≤ length page.now }
    ensures end { result ≡ end_of (length page.now - 4 * n) page.now n (length page.now) 16 }
    ensures inside { IfSome result (λ end. end ≤ length page.now - 4 * n) }
{
    let limit = page.len() - FIELD_LEN * n;
    let mut at = HEAD_LEN;
    for slot in 0..n {
        match step_on(limit, at, offset_in(page, slot), len_in(page, slot)) {
            None => return None,
            Some(next) => at = next,
        }
    }
    Some(at)
}

/// Whether the page is a file page.
pub fn is_file_page(page: &[u8]) -> bool
    ensures { IsTrue result ↔ PageReads page.now }
{
    if page.len() < HEAD_LEN || page.len() > MOST_BYTES {
        return false;
    }
    if page[KIND] != FILE_PAGE || page[ZERO] != 0 {
        return false;
    }
    if !is_zero(&page[GAP..FILE_NO]) || !is_zero(&page[SECOND_GAP..HEAD_LEN]) {
        return false;
    }
    let n = get_u16(page, COUNT) as usize;
    if page.len() < HEAD_LEN + FIELD_LEN * n || (n > 0 && len_in(page, n - 1) == 0) {
        return false;
    }
    match bodies_end(page, n) {
        None => false,
        Some(end) => is_zero(&page[end..page.len() - FIELD_LEN * n]),
    }
}

/// The number of the file that a page names, none where its length or its first byte is that of no file page. No other byte is looked at.
pub fn file_named(page: &[u8]) -> Option<u32>
    ensures some { IfSome result (λ file_no. (page_on page.now).file_no ≡ file_no) }
    ensures none { IfNone result (IsPage page.now → ⊥) }
{
    if page.len() < HEAD_LEN || page[KIND] != FILE_PAGE {
        return None;
    }
    Some(get_u32(page, FILE_NO))
}

/// Where the bodies of the first n slots end by their lengths.
pub fn lens_end(page: &[u8], n: usize) -> usize
    requires few { n < 65536 }
    requires room { 4 * n ≤ length page.now }
    ensures { result ≡ 16 + added (read_lens page.now n (length page.now)) }
{
    let mut end = HEAD_LEN;
    for slot in 0..n {
        end += len_in(page, slot);
    }
    end
}

/// The length of a slot's body, 0 where there are only n slots below it.
pub fn len_below(page: &[u8], slot: usize, n: usize) -> usize
    requires room { 4 * n ≤ length page.now }
    ensures below { slot < n → result ≡ number_at 2 page.now (length page.now - 4 * (slot + 1)
        + 2) }
    ensures past { n ≤ slot → result ≡ 0 }
{
    if slot < n { len_in(page, slot) } else { 0 }
}

/// The lowest vacant one of n slots, or n.
pub fn first_vacant(page: &[u8], n: usize) -> usize
    requires room { 4 * n ≤ length page.now }
    ensures within { result ≤ n }
    ensures vacant { result < n → number_at 2 page.now (length page.now - 4 * (result + 1) + 2)
        ≡ 0 }
    ensures lowest { (k : ℕ) → k < result
        → 0 < number_at 2 page.now (length page.now - 4 * (k + 1) + 2) }
{
    for slot in 0..n {
        if len_in(page, slot) == 0 {
            return slot;
        }
    }
    n
}

/// How many of n slots are left without a slot, up to the last live one.
pub fn count_without(page: &[u8], n: usize, slot: usize) -> usize
    requires room { 4 * n ≤ length page.now }
    ensures within { result ≤ n }
    ensures vacant { (k : ℕ) → result ≤ k → k < n → (k ≡ slot → ⊥)
        → number_at 2 page.now (length page.now - 4 * (k + 1) + 2) ≡ 0 }
    ensures last { 0 < result → (result - 1 ≡ slot → ⊥)
        × (0 < number_at 2 page.now (length page.now - 4 * (result - 1 + 1) + 2)) }
{
    let mut count = n;
    while count > 0 && (count - 1 == slot || len_in(page, count - 1) == 0) {
        count -= 1;
    }
    count
}

/// The bytes that more bodies may take.
pub fn room_in(page: &[u8], n: usize) -> usize
    requires few { n < 65536 }
    requires room { 16 + added (read_lens page.now n (length page.now)) + 4 * n ≤ length page.now }
    ensures { result ≡ length page.now - (16 + 4 * n
        + added (read_lens page.now n (length page.now))) }
{
    page.len() - FIELD_LEN * n - lens_end(page, n)
}
