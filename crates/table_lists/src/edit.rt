//! What the edits make of a version's bytes.

ghost use Rattle.std.specs.Prelude.{◌≡◌, ◌++◌, IfOk, take, drop, min};
ghost use Rattle.table_lists.specs.Edited.{edit_of};

use ex_base::Items;
use std::alloc::{AllocError, Global};
use table_model::Bytes;

/// An edit of a version's bytes.
#[derive(Clone, Copy)]
pub enum Edit<'a> {
    /// Bytes put in before the one at `pos`.
    Insert { pos: u64, bytes: &'a [u8] },
    /// Bytes put at the end.
    Append { bytes: &'a [u8] },
    /// Bytes put over those from `pos` on.
    Replace { pos: u64, bytes: &'a [u8] },
    /// `len` bytes from `pos` on taken out.
    Delete { pos: u64, len: u64 },
}

/// The index of a position, or the end where it lies past it.
pub fn index_of(pos: u128, len: usize) -> usize
    ensures { result ≡ min pos len }
{
    if pos < len as u128 { pos as usize } else { len }
}

/// The front of the bytes up to one position, others, and the rest from another position on.
fn spliced(
    alloc: Global,
    bytes: &[u8],
    from: u128,
    more: &[u8],
    to: u128,
) -> Result<Bytes, AllocError>
    ensures { IfOk result (λ changed. changed ≡ take from bytes.now ++ more.now
        ++ drop to bytes.now) }
{
    let from = index_of(from, bytes.len());
    let to = index_of(to, bytes.len());
    let mut out = Vec::new(alloc);
    out.extend_from_slice(&bytes[..from])?;
    out.extend_from_slice(more)?;
    out.extend_from_slice(&bytes[to..])?;
    Ok(Items::of(out))
}

fn appended(alloc: Global, bytes: &[u8], more: &[u8]) -> Result<Bytes, AllocError>
    ensures { IfOk result (λ changed. changed ≡ bytes.now ++ more.now) }
{
    let mut out = Vec::new(alloc);
    out.extend_from_slice(bytes)?;
    out.extend_from_slice(more)?;
    Ok(Items::of(out))
}

/// What the edit makes of bytes.
pub(crate) fn edited(alloc: Global, bytes: &[u8], edit: &Edit) -> Result<Bytes, AllocError>
    ensures { IfOk result (λ changed. changed ≡ edit_of edit.now bytes.now) }
{
    match edit {
        Edit::Insert { pos, bytes: more } => {
            let pos = u128::from(*pos);
            spliced(alloc, bytes, pos, more, pos)
        }
        Edit::Append { bytes: more } => appended(alloc, bytes, more),
        Edit::Replace { pos, bytes: more } => {
            let pos = u128::from(*pos);
            spliced(alloc, bytes, pos, more, pos + more.len() as u128)
        }
        Edit::Delete { pos, len } => {
            let pos = u128::from(*pos);
            spliced(alloc, bytes, pos, &[], pos + u128::from(*len))
        }
    }
}
