//! What an edit asks for.
ghost use Rattle.std.specs.Prelude.{◌≡◌, ◌≤◌, ◌^◌, not, false};
ghost use Rattle.ex_base.specs.Sizes.{object_most};
ghost use Rattle.versions.specs.Versions.{count_of};
ghost use Rattle.versions.specs.Needs.{most_need};
ghost use Rattle.transactions.specs.Asking.{CountsItsBytes, asked_change, asked_count};
ghost use Rattle.transactions.specs.Editing.{is_outside, edit_note, edit_reply};
ghost use Rattle.session_core.specs.Needs.{size_after};

use crate::asked::Asked;
use ex_base::{Area, Geometry, NoteKind, Oid, OpNote, delete_need, growth_need, replace_need};
use table_model::Reply;

/// Whether the bytes that an edit names lie inside an object of this size.
pub(crate) fn is_inside(asked: &Asked<'_>, size: u64) -> bool
    requires counted { asked_count asked.now ≡ count_of (asked_change asked.now) }
    ensures { result ≡ not (is_outside (asked_change asked.now) size) }
{
    match asked {
        Asked::Insert { pos, .. } => *pos <= size,
        Asked::Append { .. } => true,
        Asked::Replace { pos, count, .. } => *pos <= size && *count <= size - *pos,
        Asked::Delete { pos, len } => *pos <= size && *len <= size - *pos,
    }
}

/// The size after an edit whose bytes lie inside.
pub(crate) fn size_after(asked: &Asked<'_>, size: u64) -> u64
    requires asked { CountsItsBytes asked.now }
    requires size { size ≤ object_most }
    requires inside { is_outside (asked_change asked.now) size ≡ false }
    ensures { result ≡ size_after (asked_change asked.now) size }
{
    match asked {
        Asked::Insert { count, .. } => size + *count,
        Asked::Append { count, .. } => size + *count,
        Asked::Replace { .. } => size,
        Asked::Delete { len, .. } => size - *len,
    }
}

/// The note of an edit of an object of this size.
pub(crate) fn note_of(asked: &Asked<'_>, oid: &Oid, size: u64) -> OpNote
    requires counted { asked_count asked.now ≡ count_of (asked_change asked.now) }
    ensures { result ≡ edit_note (asked_change asked.now) oid.now size }
{
    let (kind, first) = match asked {
        Asked::Insert { pos, .. } => (NoteKind::Inserted, *pos),
        Asked::Append { .. } => (NoteKind::Appended, size),
        Asked::Replace { pos, .. } => (NoteKind::Replaced, *pos),
        Asked::Delete { pos, .. } => (NoteKind::Deleted, *pos),
    };
    OpNote {
        kind,
        oid: *oid,
        first,
        second: asked.count(),
    }
}

/// What an edit is answered that left an object of this size.
pub(crate) fn reply_of(asked: &Asked<'_>, size: u64) -> Reply
    ensures { result ≡ edit_reply (asked_change asked.now) size }
{
    match asked {
        Asked::Insert { .. } => Reply::Insert { size },
        Asked::Append { .. } => Reply::Append { size },
        Asked::Replace { .. } => Reply::Replace { size },
        Asked::Delete { .. } => Reply::Delete { size },
    }
}

/// The most units of an area that a change of a version of so high a tree takes.
pub(crate) fn units_need(geometry: &Geometry, asked: &Asked<'_>, height: u8, area: Area) -> u64
    requires counted { asked_count asked.now ≡ count_of (asked_change asked.now) }
    requires count { count_of (asked_change asked.now) ≤ object_most }
    ensures is { result ≡ most_need geometry.now (asked_change asked.now) height area }
    ensures few { result ≤ 2 ^ 40 }
{
    match asked {
        Asked::Insert { count, .. } | Asked::Append { count, .. } => {
            growth_need(geometry, *count, height, area)
        }
        Asked::Replace { count, .. } => replace_need(geometry, *count, height, area),
        Asked::Delete { .. } => delete_need(height, area),
    }
}
