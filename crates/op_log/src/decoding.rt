//! A record is read.
ghost use Rattle.std.specs.Prelude.{◌≡◌, ◌≢◌, ◌+◌, ◌*◌, ◌≤◌, length, IfOk, MatchOption};
ghost use Rattle.ex_base.specs.declared.names.OpNote.{OpNote};
ghost use Rattle.ex_base.specs.Bytes.{part};
ghost use Rattle.op_log.specs.Layout.{note_len, number_len};
ghost use Rattle.op_log.specs.Records.{note_bytes, number_bytes, IsNote};
ghost use Rattle.op_log.specs.Decoding.{FitsNumber, Reads, NoneRead, Begins, NoRecord, HasHead};

use crate::entries::read_entries;
use crate::kind::RecordKind;
use crate::layout::{HEAD_LEN, NOTE_LEN, NUMBER_LEN};
use crate::length::entries_len;
use crate::record::{LogRecord, Notes, PageList};
use crate::valid::is_valid;
use ex_base::{
    Geometry, Items, NoteKind, Oid, OpNote, PageNo, TOUCHED_MOST, UPDATES_MOST, get_u16, get_u32,
    get_u64,
};
use std::alloc::{AllocError, Global};

/// The numbers at the head of a record.
#[derive(Clone, Copy)]
pub struct Head {
    pub kind: RecordKind,
    /// The length of the whole record, its gate included.
    pub len: usize,
    pub txn: u64,
    pub notes: usize,
    pub pages: usize,
    pub freed: usize,
}

/// The note that stands there, where its kind is one.
fn note_at(bytes: &[u8], at: usize) -> Option<OpNote>
    requires { at + note_len ≤ length bytes.now }
    ensures { MatchOption result ((note : OpNote)
        → note_bytes note ≢ part bytes.now at note_len) (λ note. (note_bytes note
        ≡ part bytes.now at note_len) × IsNote note) }
{
    let Some(kind) = NoteKind::of_number(bytes[at]) else {
        return None;
    };
    Some(OpNote {
        kind,
        oid: Oid {
            page: PageNo(get_u32(bytes, at + 1)),
            slot: get_u16(bytes, at + 5),
            unique: get_u64(bytes, at + 7),
        },
        first: get_u64(bytes, at + 15),
        second: get_u64(bytes, at + 23),
    })
}

/// The notes that stand there, where each kind is one.
fn read_notes(
    alloc: Global,
    bytes: &[u8],
    start: usize,
    count: usize,
) -> Result<Option<Notes>, AllocError>
    requires { start + note_len * count ≤ length bytes.now }
    ensures { IfOk result
        (λ found. MatchOption found (NoneRead IsNote note_bytes bytes.now start note_len count)
        (λ notes. Reads IsNote note_bytes bytes.now start note_len count notes)) }
{
    let mut notes = Items::make(alloc);
    for i in 0..count {
        let Some(note) = note_at(bytes, start + NOTE_LEN * i) else {
            return Ok(None);
        };
        notes.push(note)?;
    }
    Ok(Some(notes))
}

fn read_numbers(
    alloc: Global,
    bytes: &[u8],
    start: usize,
    count: usize,
) -> Result<PageList, AllocError>
    requires { start + number_len * count ≤ length bytes.now }
    ensures { IfOk result
        (λ pages. Reads FitsNumber number_bytes bytes.now start number_len count pages) }
{
    let mut pages = Items::make(alloc);
    for i in 0..count {
        pages.push(PageNo(get_u32(bytes, start + NUMBER_LEN * i)))?;
    }
    Ok(pages)
}

/// The head that the bytes behind a gate begin with, where a record of these counts can stand there.
fn read_head(geometry: &Geometry, bytes: &[u8]) -> Option<Head>
    ensures { MatchOption result (NoRecord geometry.now bytes.now) (λ head. HasHead bytes.now head) }
{
    if bytes.len() < HEAD_LEN + 1 {
        return None;
    }
    let Some(kind) = RecordKind::of_number(bytes[0]) else {
        return None;
    };
    let len = get_u32(bytes, 1) as usize;
    let txn = get_u64(bytes, 5);
    let notes = get_u16(bytes, 13) as usize;
    let pages = get_u16(bytes, 15) as usize;
    let freed = get_u16(bytes, 17) as usize;
    if notes > UPDATES_MOST {
        return None;
    }
    if pages + freed > TOUCHED_MOST as usize {
        return None;
    }
    if len < HEAD_LEN + NOTE_LEN * notes {
        return None;
    }
    if len > bytes.len() {
        return None;
    }
    Some(Head {
        kind,
        len,
        txn,
        notes,
        pages,
        freed,
    })
}

/// The record that the bytes behind its gate begin with, where one byte follows for the next gate.
pub fn decode(
    alloc: Global,
    geometry: &Geometry,
    bytes: &[u8],
) -> Result<Option<LogRecord>, AllocError>
    ensures { IfOk result (λ found. MatchOption found (NoRecord geometry.now bytes.now)
        (λ r. Begins geometry.now bytes.now r)) }
{
    let Some(head) = read_head(geometry, bytes) else {
        return Ok(None);
    };
    let Some(notes) = read_notes(alloc, bytes, HEAD_LEN, head.notes)? else {
        return Ok(None);
    };
    let pages_at = HEAD_LEN + NOTE_LEN * head.notes;
    let Some(pages) = read_entries(alloc, geometry, head.kind, bytes, pages_at, head.pages)? else {
        return Ok(None);
    };
    let freed_at = pages_at + entries_len(head.kind, pages.as_slice());
    if freed_at + NUMBER_LEN * head.freed + 1 != head.len {
        return Ok(None);
    }
    let item = LogRecord {
        kind: head.kind,
        txn: head.txn,
        notes,
        pages,
        freed: read_numbers(alloc, bytes, freed_at, head.freed)?,
    };
    if is_valid(geometry, &item) {
        Ok(Some(item))
    } else {
        Ok(None)
    }
}
