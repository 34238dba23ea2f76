//! The bytes of a node as they are read.
ghost use Rattle.std.specs.Prelude.{◌≡◌, ◌↔◌, ◌+◌, ◌*◌, ◌<◌, ◌≤◌, length, IsTrue, IfOk, IfSome, IfNone};
ghost use Rattle.trees.specs.Node.{pair_len, pairs_on, RiseFrom, read_pairs};
ghost use Rattle.trees.specs.Reads.{FrameReads, NodeReads};
ghost use Rattle.trees.specs.Rows.{parts_of};

use crate::rows::Part;
use crate::width::Width;
use crate::{GAP_AT, LEN_AT, LEVEL_AT, PAIRS_AT};
use ex_base::{PageNo, get_u16, get_u32, is_zero};
use std::alloc::{AllocError, Global};

/// Whether the counts of n pairs rise strictly from above 0.
fn counts_rise(width: Width, bytes: &[u8], n: usize) -> bool
    requires { pair_len width * n ≤ length bytes.now }
    ensures { IsTrue result ↔ RiseFrom 0 (read_pairs width n bytes.now) }
{
    let mut last = 0;
    for i in 0..n {
        let count = width.count(bytes, width.pair_len() * i);
        if count <= last {
            return false;
        }
        last = count;
    }
    true
}

/// Whether all but the counts on a page is as on a node: its kind, its level of at least 1, room for its 1 to 2 * fan + 1 pairs, and zero elsewhere.
pub fn has_frame(page: &[u8], fan: u32) -> bool
    requires { fan ≤ 340 }
    ensures { IsTrue result ↔ FrameReads fan page.now }
{
    if page.len() < PAIRS_AT {
        return false;
    }
    let width = Width::of(page);
    let n = get_u16(page, LEN_AT) as usize;
    if page[0] != width.kind() || page[LEVEL_AT] == 0 || !is_zero(&page[GAP_AT..PAIRS_AT]) {
        return false;
    }
    if n == 0 || n > 2 * fan as usize + 1 || page.len() < PAIRS_AT + width.pair_len() * n {
        return false;
    }
    is_zero(&page[PAIRS_AT + width.pair_len() * n..])
}

/// Whether the page is a node: of a kind of nodes, of a level of at least 1, with 1 to 2 * fan + 1 pairs whose counts rise strictly from above 0, and zero
/// elsewhere.
pub fn is_node(page: &[u8], fan: u32) -> bool
    requires { fan ≤ 340 }
    ensures { IsTrue result ↔ NodeReads fan page.now }
{
    if !has_frame(page, fan) {
        return false;
    }
    let n = get_u16(page, LEN_AT) as usize;
    counts_rise(Width::of(page), &page[PAIRS_AT..], n)
}

/// The children of n pairs, read in one pass. None where their counts don't rise strictly from above 0.
fn rising_row(
    alloc: Global,
    width: Width,
    bytes: &[u8],
    n: usize,
) -> Result<Option<Vec<Part>>, AllocError>
    requires { pair_len width * n ≤ length bytes.now }
    ensures rise { IfOk result
        (λ found. IfSome found (λ _. RiseFrom 0 (read_pairs width n bytes.now))) }
    ensures row { IfOk result
        (λ found. IfSome found (λ row. row.items ≡ parts_of 0 (read_pairs width n bytes.now))) }
    ensures none { IfOk result
        (λ found. IfNone found (RiseFrom 0 (read_pairs width n bytes.now) → ⊥)) }
{
    let mut row = Vec::with_capacity(alloc, n)?;
    let mut last = 0;
    for i in 0..n {
        let at = width.pair_len() * i;
        let count = width.count(bytes, at);
        if count <= last {
            return Ok(None);
        }
        let part = Part {
            size: count - last,
            page: PageNo(get_u32(bytes, at + width.count_len())),
        };
        row.push_reserved(part);
        last = count;
    }
    Ok(Some(row))
}

/// The children on a page, read in one pass, where it is a node of at most 2 * fan + 1 pairs.
pub(crate) fn row_of_page(
    alloc: Global,
    page: &[u8],
    fan: u32,
) -> Result<Option<Vec<Part>>, AllocError>
    requires { fan ≤ 340 }
    ensures node { IfOk result (λ found. IfSome found (λ _. NodeReads fan page.now)) }
    ensures row { IfOk result
        (λ found. IfSome found (λ row. row.items ≡ parts_of 0 (pairs_on page.now))) }
    ensures none { IfOk result (λ found. IfNone found (NodeReads fan page.now → ⊥)) }
{
    if !has_frame(page, fan) {
        return Ok(None);
    }
    let n = get_u16(page, LEN_AT) as usize;
    rising_row(alloc, Width::of(page), &page[PAIRS_AT..], n)
}
