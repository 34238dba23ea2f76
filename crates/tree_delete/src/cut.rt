// Cuts through rows of trees: which trees a range of bytes goes through, and which stay as they are.
ghost use Rattle.std.specs.Prelude.{◌≡◌, ◌≤◌, ◌<◌, ◌+◌, ◌-◌, ◌^◌, ◌++◌, [], IfOk, OnOk};
ghost use Rattle.ex_base.specs.Sizes.{object_most};
ghost use Rattle.trees.specs.Rows.{row_size};
ghost use Rattle.tree_delete.specs.Places.{IsPlace};
ghost use Rattle.tree_delete.specs.Cuts.{IsCutOf};

use std::alloc::{AllocError, Global};
use trees::{Part, piece};

/// A range of bytes that is to go from a row of trees.
#[derive(Drop)]
pub(crate) struct Cut {
    /// The trees before those that the range goes through.
    pub left: Vec<Part>,
    /// The trees of which the range takes a part. Those that lie wholly inside it are left out.
    pub run: Vec<Part>,
    /// The trees behind.
    pub right: Vec<Part>,
    /// Where the range begins in the bytes of the run.
    pub at: u64,
    /// How many bytes of the run are in the range.
    pub len: u64,
}

/// Puts the trees of a row last.
pub(crate) fn extend(row: &mut Vec<Part>, more: &[Part]) -> Result<(), AllocError>
    ensures { OnOk result (row.new.items ≡ row.old.items ++ more.now) }
{
    row.extend_from_slice(more)?;
    Ok(())
}

/// Three rows side by side.
pub(crate) fn joined(
    alloc: Global,
    first: &[Part],
    second: &[Part],
    third: &[Part],
) -> Result<Vec<Part>, AllocError>
    ensures { IfOk result (λ row. row.items ≡ first.now ++ (second.now ++ third.now)) }
{
    let mut row = Vec::new(alloc);
    extend(&mut row, first)?;
    extend(&mut row, second)?;
    extend(&mut row, third)?;
    Ok(row)
}

/// The bytes of a row.
pub(crate) fn bytes_of(row: &[Part]) -> u64
    requires { row_size row.now < 2 ^ 64 }
    ensures { result ≡ row_size row.now }
{
    let mut bytes = 0;
    for part in row {
        bytes += part.size;
    }
    bytes
}

/// How many trees of a row end at a position or before it, and how many bytes of the next one lie before the position.
fn place(row: &[Part], pos: u64) -> (usize, u64)
    requires { pos ≤ row_size row.now }
    ensures { IsPlace row.now pos result.0 result.1 }
{
    let mut at = pos;
    for index in 0..row.len() {
        if at < row[index].size {
            return (index, at);
        }
        at -= row[index].size;
    }
    (row.len(), at)
}

/// The index behind a tree, where some bytes of it are meant.
fn behind(index: usize, bytes: u64) -> usize
    requires { index + 1 < 2 ^ 64 }
    ensures none { bytes ≡ 0 → result ≡ index }
    ensures some { 1 ≤ bytes → result ≡ index + 1 }
{
    if bytes == 0 { index } else { index + 1 }
}

/// The cut that takes so many bytes from a position of a row on.
pub(crate) fn cut_through(alloc: Global, row: &[Part], at: u64, len: u64) -> Result<Cut, AllocError>
    requires inside { at + len ≤ row_size row.now }
    requires limit { row_size row.now ≤ object_most }
    ensures { IfOk result (λ cut. IsCutOf row.now at len cut) }
{
    let (first, inside) = place(row, at);
    let (last, over) = place(row, at + len);
    let lead_end = behind(first, inside);
    let right_start = behind(last, over);
    let tail_start = lead_end.max(last);
    let lead = piece(row, first, lead_end - first);
    let gone = piece(row, lead_end, tail_start - lead_end);
    let tail = piece(row, tail_start, right_start - tail_start);
    let rest = piece(row, right_start, row.len() - right_start);
    Ok(Cut {
        left: joined(alloc, &row[..first], &[], &[])?,
        run: joined(alloc, lead, tail, &[])?,
        right: joined(alloc, rest, &[], &[])?,
        at: inside,
        len: len - bytes_of(gone),
    })
}
