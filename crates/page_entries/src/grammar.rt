// How many bytes of a record the fields of an entry have.
ghost use Rattle.std.specs.Prelude.{◌≡◌, ◌≤◌, length, MatchOption};
ghost use Rattle.page_entries.specs.declared.form.EntryForm.TheVariants.{Image, SlotChanges};
ghost use Rattle.page_entries.specs.Said.{Says, SaysNothing};
ghost use Rattle.page_entries.specs.Fronts.{ChangeAt, change_end};

use crate::file_grammar::files_len;
use crate::form::EntryForm;
use crate::{CHANGE_BODY, CHANGE_COUNT, CHANGE_HEAD, CHANGE_LEN};
use ex_base::{get_u16, is_zero};

/// The fields of an image: a page.
fn image_len(bytes: &[u8], size: u32) -> Option<usize>
    ensures { MatchOption result (SaysNothing size Image bytes.now)
        (λ n. Says size Image bytes.now n) }
{
    if bytes.len() < size as usize {
        return None;
    }
    Some(size as usize)
}

/// Where the change ends that stands at a position. None where none stands there, or one of a slot below the least one.
fn end_of_change(bytes: &[u8], at: usize, least: usize) -> Option<usize>
    requires { at ≤ length bytes.now }
    ensures { MatchOption result (¬ ChangeAt bytes.now least at)
        (λ end. ChangeAt bytes.now least at × (end ≡ change_end bytes.now at)
        × (end ≤ length bytes.now)) }
{
    if bytes.len() - at < CHANGE_BODY {
        return None;
    }
    let len = get_u16(bytes, at + CHANGE_LEN) as usize;
    if bytes.len() - at - CHANGE_BODY < len || (get_u16(bytes, at) as usize) < least {
        return None;
    }
    Some(at + CHANGE_BODY + len)
}

/// The fields of changes of slots.
fn changes_len(bytes: &[u8], size: u32) -> Option<usize>
    ensures { MatchOption result (SaysNothing size SlotChanges bytes.now)
        (λ n. Says size SlotChanges bytes.now n) }
{
    if bytes.len() < CHANGE_HEAD || !is_zero(&bytes[..CHANGE_COUNT]) {
        return None;
    }
    let mut at = CHANGE_HEAD;
    let mut least = 0;
    for i in 0..get_u16(bytes, CHANGE_COUNT) as usize {
        match end_of_change(bytes, at, least) {
            None => return None,
            Some(end) => {
                least = get_u16(bytes, at) as usize + 1;
                at = end;
            }
        }
    }
    Some(at)
}

/// How many bytes at the front are the fields of an entry of a form, for pages of a size. None exactly where none are.
pub fn fields_len(form: EntryForm, bytes: &[u8], size: u32) -> Option<usize>
    requires { size ≤ 8192 }
    ensures { MatchOption result (SaysNothing size form bytes.now)
        (λ n. Says size form bytes.now n) }
{
    match form {
        EntryForm::Image => image_len(bytes, size),
        EntryForm::SlotChanges => changes_len(bytes, size),
        EntryForm::FileChanges => files_len(bytes, size),
    }
}
