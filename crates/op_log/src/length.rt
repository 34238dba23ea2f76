//! The length of a record.
ghost use Rattle.std.specs.Prelude.{◌≡◌, min};
ghost use Rattle.op_log.specs.Kinds.{form_len};
ghost use Rattle.op_log.specs.Records.{entry_len, entries_len, record_len};

use crate::kind::RecordKind;
use crate::layout::{FORM_LEN, HEAD_LEN, NOTE_LEN, NUMBER_LEN};
use crate::record::LogRecord;
use page_entries::PageEntry;

/// The bytes of an entry's form in a record of a kind.
pub fn form_len(kind: RecordKind) -> usize
    ensures { result ≡ form_len kind }
{
    match kind {
        RecordKind::Images => 0,
        RecordKind::Forms => FORM_LEN,
    }
}

/// The bytes of an entry in a record of a kind.
pub fn entry_len(kind: RecordKind, entry: &PageEntry) -> usize
    ensures { result ≡ entry_len kind entry.now }
{
    NUMBER_LEN + form_len(kind) + entry.fields.as_slice().len()
}

/// The bytes of entries in a record of a kind, or the largest `usize` where that is less.
pub fn entries_len(kind: RecordKind, entries: &[PageEntry]) -> usize
    ensures { result ≡ min (entries_len kind entries.now) usize.MAX }
{
    let mut len: usize = 0;
    for entry in entries {
        len = len.saturating_add(entry_len(kind, entry));
    }
    len
}

/// The bytes of a record, its gate included, or the largest `usize` where that is less.
pub fn length_of(item: &LogRecord) -> usize
    ensures { result ≡ min (record_len item.now) usize.MAX }
{
    let notes = item.notes.len().saturating_mul(NOTE_LEN);
    let freed = item.freed.len().saturating_mul(NUMBER_LEN);
    notes
        .saturating_add(entries_len(item.kind, item.pages.as_slice()))
        .saturating_add(freed)
        .saturating_add(HEAD_LEN + 1)
}
