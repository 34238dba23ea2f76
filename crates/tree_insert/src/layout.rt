// Where new bytes go in a row of leaves, and the leaves that take them.
ghost use Rattle.std.specs.Prelude.{◌≡◌, ◌≤◌, ◌<◌, ◌+◌, ◌^◌, length, take, drop, true, IfOk};
ghost use Rattle.std.specs.List.{AllByRecursion};
ghost use Rattle.ex_base.specs.Sizes.{object_most};
ghost use Rattle.trees.specs.Layout.{layout_of};
ghost use Rattle.trees.specs.Plans.{IsPlan};
ghost use Rattle.trees.specs.Rows.{row_size};
ghost use Rattle.trees.specs.Made.{sizes_of};
ghost use Rattle.tree_insert.specs.Places.{IsAt, last_of, first_of, size_at, flag};
ghost use Rattle.tree_insert.specs.Growth.{layout_by};

use std::alloc::{AllocError, Global};
use trees::plans::{Plan, plan_append, plan_insert};
use trees::{Part, put};

/// How new bytes are laid out over leaves.
#[derive(Clone, Copy, Debug, PartialEq, Eq)]
pub(crate) enum Growth {
    /// Shared with a neighbour, or over as few leaves as hold them.
    Insert,
    /// Behind all others, where all leaves but the last two become full.
    Append,
}

/// The leaves of a row that give way to a plan's: those from `first` up to `end`, and where the new bytes go in between them.
#[derive(Clone, Copy)]
pub(crate) struct Run {
    pub first: usize,
    pub end: usize,
    pub at: u64,
}

/// The first tree of a row that ends at a position or behind it, and the position inside it.
pub(crate) fn tree_at(row: &[Part], pos: u64) -> (usize, u64)
    requires some { 1 ≤ length row.now }
    requires pos { pos ≤ row_size row.now }
    ensures { IsAt row.now pos result.0 result.1 }
{
    let last = row.len() - 1;
    let mut at = pos;
    for index in 0..last {
        if at <= row[index].size {
            return (index, at);
        }
        at -= row[index].size;
    }
    (last, at)
}

/// The bytes of the leaf before an index, if there is one.
fn left_of(row: &[Part], index: usize) -> Option<u32>
    requires index { index < length row.now }
    requires fits { AllByRecursion (λ part. part.size < 2 ^ 32) row.now }
    ensures { result ≡ last_of (sizes_of (take index row.now)) }
{
    if index == 0 {
        return None;
    }
    Some(row[index - 1].size as u32)
}

/// The bytes of the leaf behind an index, if there is one.
fn right_of(row: &[Part], index: usize) -> Option<u32>
    requires index { index < length row.now }
    requires fits { AllByRecursion (λ part. part.size < 2 ^ 32) row.now }
    ensures { result ≡ first_of (sizes_of (drop (index + 1) row.now)) }
{
    if row.len() - index < 2 {
        return None;
    }
    Some(row[index + 1].size as u32)
}

/// How n bytes go into the leaf at an index of a row.
pub(crate) fn plan_for(growth: Growth, row: &[Part], index: usize, n: u64, cap: u32) -> Plan
    requires cap { 512 ≤ cap }
    requires index { index < length row.now }
    requires fits { AllByRecursion (λ part. part.size ≤ cap) row.now }
    requires limit { row_size row.now + n ≤ object_most }
    ensures layout { layout_of cap result
        ≡ layout_by growth cap (last_of (sizes_of (take index row.now))) (size_at row.now index)
        (first_of (sizes_of (drop (index + 1) row.now))) n }
    ensures usable { IsPlan cap result }
{
    let left = left_of(row, index);
    let right = right_of(row, index);
    let size = row[index].size as u32;
    match growth {
        Growth::Insert => plan_insert(left, size, right, n, cap),
        Growth::Append => plan_append(left, size, n, cap),
    }
}

/// The lengths of a plan's leaves.
pub(crate) fn lengths_of(alloc: Global, plan: &Plan, cap: u32) -> Result<Vec<u32>, AllocError>
    requires cap { 1 ≤ cap }
    requires plan { IsPlan cap plan.now }
    ensures { IfOk result (λ lengths. lengths.items ≡ (layout_of cap plan.now).lengths) }
{
    let mut lengths = Vec::new(alloc);
    for index in 0..plan.leaves {
        put(&mut lengths, plan.length(index, cap))?;
    }
    Ok(lengths)
}

/// The run of leaves that gives way to a plan's, where the bytes go in at a position inside the leaf at an index.
pub(crate) fn run_of(plan: &Plan, row: &[Part], index: usize, at: u64) -> Run
    requires index { index < length row.now }
    requires left { plan.now.takes_left ≡ true → 1 ≤ index }
    requires right { plan.now.takes_right ≡ true → index + 1 < length row.now }
    requires limit { row_size row.now + at < 2 ^ 64 }
    ensures first { result.first + flag plan.now.takes_left ≡ index }
    ensures end { result.end ≡ index + 1 + flag plan.now.takes_right }
    ensures at { row_size (take result.first row.now) + result.at ≡ row_size (take index row.now)
        + at }
    ensures inside { result.end ≤ length row.now }
{
    let end = if plan.takes_right {
        index + 2
    } else {
        index + 1
    };
    if plan.takes_left {
        let first = index - 1;
        let at = row[first].size + at;
        return Run { first, end, at };
    }
    Run {
        first: index,
        end,
        at,
    }
}
