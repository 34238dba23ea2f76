//! The spelling of a record.
ghost use Rattle.std.specs.Prelude.{◌≡◌, ◌+◌, ◌*◌, ◌≤◌, ◌<◌, ◌^◌, ◌++◌, [], ◌∷◌, length};
ghost use Rattle.std.specs.List.{flat_map};
ghost use Rattle.ex_base.specs.Fields.{two_bytes, four_bytes, eight_bytes};
ghost use Rattle.ex_base.specs.Limits.{updates_most, touched_most};
ghost use Rattle.op_log.specs.Layout.{closed_gate, note_len, number_len};
ghost use Rattle.op_log.specs.Kinds.{form_bytes, form_len};
ghost use Rattle.op_log.specs.Records.{note_bytes, entry_bytes, number_bytes, entry_len, entries_len, record_len, record_body};
ghost use Rattle.op_log.specs.Writing.{Puts};

use crate::kind::RecordKind;
use crate::layout::CLOSED;
use crate::record::LogRecord;
use ex_base::{OpNote, PageNo, put_bytes, put_u16, put_u32, put_u64};
use page_entries::{EntryForm, PageEntry};

fn put_run(out: &mut [u8], at: usize, bytes: &[u8]) -> usize
    requires { at + length bytes.now ≤ length out.old }
    ensures end { result ≡ at + length bytes.now }
    ensures puts { Puts bytes.now out.old out.new at result }
{
    put_bytes(out, at, bytes);
    at + bytes.len()
}

fn put_two(out: &mut [u8], at: usize, value: u16) -> usize
    requires { at + 2 ≤ length out.old }
    ensures end { result ≡ at + 2 }
    ensures puts { Puts (two_bytes value) out.old out.new at result }
{
    put_u16(out, at, value);
    at + 2
}

fn put_four(out: &mut [u8], at: usize, value: u32) -> usize
    requires { at + 4 ≤ length out.old }
    ensures end { result ≡ at + 4 }
    ensures puts { Puts (four_bytes value) out.old out.new at result }
{
    put_u32(out, at, value);
    at + 4
}

fn put_eight(out: &mut [u8], at: usize, value: u64) -> usize
    requires { at + 8 ≤ length out.old }
    ensures end { result ≡ at + 8 }
    ensures puts { Puts (eight_bytes value) out.old out.new at result }
{
    put_u64(out, at, value);
    at + 8
}

fn put_note(out: &mut [u8], at: usize, note: &OpNote) -> usize
    requires { at + note_len ≤ length out.old }
    ensures end { result ≡ at + note_len }
    ensures puts { Puts (note_bytes note.now) out.old out.new at result }
{
    let at = put_run(out, at, &[note.kind.number()]);
    let at = put_four(out, at, note.oid.page.0);
    let at = put_two(out, at, note.oid.slot);
    let at = put_eight(out, at, note.oid.unique);
    let at = put_eight(out, at, note.first);
    put_eight(out, at, note.second)
}

// An entry's form, where the kind of its record has it.
fn put_form(out: &mut [u8], at: usize, kind: RecordKind, form: EntryForm) -> usize
    requires { at + form_len kind ≤ length out.old }
    ensures end { result ≡ at + form_len kind }
    ensures puts { Puts (form_bytes kind form) out.old out.new at result }
{
    match kind {
        RecordKind::Images => at,
        RecordKind::Forms => put_run(out, at, &[form.number()]),
    }
}

fn put_entry(out: &mut [u8], at: usize, kind: RecordKind, entry: &PageEntry) -> usize
    requires { at + entry_len kind entry.now ≤ length out.old }
    ensures end { result ≡ at + entry_len kind entry.now }
    ensures puts { Puts (entry_bytes kind entry.now) out.old out.new at result }
{
    let at = put_four(out, at, entry.page.0);
    let at = put_form(out, at, kind, entry.form);
    put_run(out, at, entry.fields.as_slice())
}

fn put_notes(out: &mut [u8], start: usize, notes: &[OpNote]) -> usize
    requires { start + note_len * length notes.now ≤ length out.old }
    ensures end { result ≡ start + note_len * length notes.now }
    ensures puts { Puts (flat_map note_bytes notes.now) out.old out.new start result }
{
    let mut at = start;
    for note in notes {
        at = put_note(out, at, note);
    }
    at
}

fn put_entries(out: &mut [u8], start: usize, kind: RecordKind, entries: &[PageEntry]) -> usize
    requires { start + entries_len kind entries.now ≤ length out.old }
    ensures end { result ≡ start + entries_len kind entries.now }
    ensures puts { Puts (flat_map (entry_bytes kind) entries.now) out.old out.new start result }
{
    let mut at = start;
    for entry in entries {
        at = put_entry(out, at, kind, entry);
    }
    at
}

fn put_numbers(out: &mut [u8], start: usize, pages: &[PageNo]) -> usize
    requires { start + number_len * length pages.now ≤ length out.old }
    ensures end { result ≡ start + number_len * length pages.now }
    ensures puts { Puts (flat_map number_bytes pages.now) out.old out.new start result }
{
    let mut at = start;
    for page in pages {
        at = put_four(out, at, page.0);
    }
    at
}

/// Writes a record of this length to the front of `out`, without its gate and with a closed gate behind it. It gives the end of what was written.
pub fn encode(out: &mut [u8], item: &LogRecord, len: usize) -> usize
    requires len { len ≡ record_len item.now }
    requires room { record_len item.now ≤ length out.old }
    requires long { record_len item.now < 2 ^ 32 }
    requires notes { length item.now.notes ≤ updates_most }
    requires pages { length item.now.pages + length item.now.freed ≤ touched_most }
    ensures end { result ≡ record_len item.now }
    ensures puts { Puts (record_body item.now ++ closed_gate ∷ []) out.old out.new 0 result }
{
    let at = put_run(out, 0, &[item.kind.number()]);
    let at = put_four(out, at, len as u32);
    let at = put_eight(out, at, item.txn);
    let at = put_two(out, at, item.notes.len() as u16);
    let at = put_two(out, at, item.pages.len() as u16);
    let at = put_two(out, at, item.freed.len() as u16);
    let at = put_notes(out, at, item.notes.as_slice());
    let at = put_entries(out, at, item.kind, item.pages.as_slice());
    let at = put_numbers(out, at, item.freed.as_slice());
    put_run(out, at, &[CLOSED])
}
