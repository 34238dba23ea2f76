//! The entries of a record are read. Each tells where it ends.
ghost use Rattle.std.specs.Prelude.{◌≡◌, ◌+◌, ◌≤◌, length, IfOk, MatchOption};
ghost use Rattle.op_log.specs.Kinds.{form_bytes, form_len, HasForm};
ghost use Rattle.op_log.specs.Records.{entries_len};
ghost use Rattle.op_log.specs.Decoding.{BeginsEntry, NoEntry, ReadsEntries, NoEntries, BeginsForm, NoForm};

use crate::kind::RecordKind;
use crate::layout::NUMBER_LEN;
use crate::length::{entry_len, form_len};
use ex_base::{Geometry, Items, PageNo, get_u32};
use page_entries::{Entries, EntryForm, Fields, PageEntry, fields_len};
use std::alloc::{AllocError, Global};

/// The form of an entry whose form, where its record's kind has one, stands at the front of these bytes.
fn form_at(kind: RecordKind, bytes: &[u8]) -> Option<EntryForm>
    requires { form_len kind ≤ length bytes.now }
    ensures { MatchOption result (NoForm kind bytes.now) (λ form. BeginsForm kind bytes.now form) }
{
    match kind {
        RecordKind::Images => Some(EntryForm::Image),
        RecordKind::Forms => EntryForm::of_number(bytes[0]),
    }
}

/// The entry that the bytes begin with. None exactly where they begin with none.
fn entry_at(
    alloc: Global,
    geometry: &Geometry,
    kind: RecordKind,
    bytes: &[u8],
) -> Result<Option<PageEntry>, AllocError>
    ensures { IfOk result (λ found. MatchOption found
        (NoEntry geometry.now.page_size kind bytes.now)
        (λ entry. BeginsEntry geometry.now.page_size kind bytes.now entry)) }
{
    let head = NUMBER_LEN + form_len(kind);
    if bytes.len() < head {
        return Ok(None);
    }
    let Some(form) = form_at(kind, &bytes[NUMBER_LEN..]) else {
        return Ok(None);
    };
    let behind = &bytes[head..];
    let Some(len) = fields_len(form, behind, geometry.page_size) else {
        return Ok(None);
    };
    Ok(Some(PageEntry {
        page: PageNo(get_u32(bytes, 0)),
        form,
        fields: Fields::of(alloc, &behind[..len])?,
    }))
}

/// The entries that stand from a place on. None exactly where fewer stand there.
pub fn read_entries(
    alloc: Global,
    geometry: &Geometry,
    kind: RecordKind,
    bytes: &[u8],
    start: usize,
    count: usize,
) -> Result<Option<Entries>, AllocError>
    requires { start ≤ length bytes.now }
    ensures { IfOk result (λ found. MatchOption found
        (NoEntries geometry.now.page_size kind bytes.now start count)
        (λ entries. ReadsEntries geometry.now.page_size kind bytes.now start count
        (start + entries_len kind entries) entries)) }
{
    let mut entries = Items::make(alloc);
    let mut at = start;
    for i in 0..count {
        let Some(entry) = entry_at(alloc, geometry, kind, &bytes[at..])? else {
            return Ok(None);
        };
        at += entry_len(kind, &entry);
        entries.push(entry)?;
    }
    Ok(Some(entries))
}
