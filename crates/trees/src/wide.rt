//! Nodes over leaves with wide counts, as all nodes are written: one pass tests their counts and their leaves.
ghost use Rattle.std.specs.Prelude.{◌≡◌, ◌↔◌, ◌*◌, ◌<◌, ◌≤◌, ◌^◌, length, IsTrue, IfOk, IfSome};
ghost use Rattle.trees.specs.Node.{pairs_on, read_pairs, width_on};
ghost use Rattle.trees.specs.declared.width.Width.TheVariants.{Wide};
ghost use Rattle.trees.specs.Reads.{AreLeavesRising, FrameReads, NodeReads};
ghost use Rattle.trees.specs.Rows.{parts_of, AreHalfFull};

use crate::reads::has_frame;
use crate::rows::Part;
use crate::width::Width;
use crate::{LEN_AT, PAIRS_AT};
use ex_base::{PageNo, get_u16, get_u32, get_u64};
use std::alloc::{AllocError, Global};

/// The bytes of a wide count, and those of a wide pair.
const WIDE_COUNT: usize = 8;

const WIDE_PAIR: usize = 12;

/// Whether all but the counts on a page is as on a node with wide counts.
pub(crate) fn is_wide(page: &[u8], fan: u32) -> bool
    requires { fan ≤ 340 }
    ensures frame { IsTrue result → FrameReads fan page.now }
    ensures wide { IsTrue result → width_on page.now ≡ Wide }
{
    has_frame(page, fan) && page[0] == Width::Wide.kind()
}

/// Whether the counts of n wide pairs rise, each by half to all of the bytes of a full leaf. Pairs that don't fit are counted, so all are read: without an
/// early end the loop is compiled to steps of several pairs.
pub(crate) fn wide_leaves_fit(bytes: &[u8], n: usize, full: u32) -> bool
    requires some { 2 ≤ full }
    requires few { n < 2 ^ 16 }
    requires inside { 12 * n ≤ length bytes.now }
    ensures { IsTrue result ↔ AreLeavesRising full 0 (read_pairs Wide n bytes.now) }
{
    let least = u64::from(full / 2);
    let over = u64::from(full) - least;
    let mut before = 0;
    let mut unfit = 0;
    for i in 0..n {
        let count = get_u64(bytes, WIDE_PAIR * i);
        let excess = count.wrapping_sub(before).wrapping_sub(least);
        unfit += u64::from(excess > over);
        before = count;
    }
    unfit == 0
}

/// The children of n wide pairs over leaves, read in one pass. None where their counts don't rise, each by half to all of the bytes of a full leaf.
fn leaf_row(
    alloc: Global,
    bytes: &[u8],
    n: usize,
    full: u32,
) -> Result<Option<Vec<Part>>, AllocError>
    requires some { 2 ≤ full }
    requires few { n < 2 ^ 16 }
    requires inside { 12 * n ≤ length bytes.now }
    ensures fit { IfOk result (λ found. IfSome found
        (λ _. AreLeavesRising full 0 (read_pairs Wide n bytes.now))) }
    ensures row { IfOk result
        (λ found. IfSome found (λ row. row.items ≡ parts_of 0 (read_pairs Wide n bytes.now))) }
{
    let least = u64::from(full / 2);
    let over = u64::from(full) - least;
    let mut row = Vec::with_capacity(alloc, n)?;
    let mut last = 0;
    for i in 0..n {
        let at = WIDE_PAIR * i;
        let count = get_u64(bytes, at);
        if count.wrapping_sub(last).wrapping_sub(least) > over {
            return Ok(None);
        }
        let part = Part {
            size: count - last,
            page: PageNo(get_u32(bytes, at + WIDE_COUNT)),
        };
        row.push_reserved(part);
        last = count;
    }
    Ok(Some(row))
}

/// The children on a page, read in one pass, where it is a node over leaves that are half full, with wide counts. A page that it doesn't take may still be a
/// node.
pub(crate) fn wide_row(
    alloc: Global,
    page: &[u8],
    fan: u32,
    full: u32,
) -> Result<Option<Vec<Part>>, AllocError>
    requires fan { fan ≤ 340 }
    requires some { 2 ≤ full }
    ensures node { IfOk result (λ found. IfSome found (λ _. NodeReads fan page.now)) }
    ensures row { IfOk result
        (λ found. IfSome found (λ row. row.items ≡ parts_of 0 (pairs_on page.now))) }
    ensures halves { IfOk result
        (λ found. IfSome found (λ row. AreHalfFull full (parts_of 0 (pairs_on page.now)))) }
{
    if !is_wide(page, fan) {
        return Ok(None);
    }
    let n = get_u16(page, LEN_AT) as usize;
    leaf_row(alloc, &page[PAIRS_AT..], n, full)
}
