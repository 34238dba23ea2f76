// The node on a lent page: that it is the one that its parent asks, and its children.
ghost use Rattle.std.specs.Prelude.{◌≡◌, ◌≤◌, ◌<◌, ◌-◌, ◌^◌, ◌↔◌, List, length, take, drop, IfOk, IfErr, IfSome, OnOk, IsTrue, ℕ};
ghost use Rattle.trees.specs.Node.{RiseFrom, node_on, total_of};
ghost use Rattle.trees.specs.Reads.{NodeReads};
ghost use Rattle.ex_base.specs.declared.geometry.Geometry.{Geometry as GeometryOf};
ghost use Rattle.ex_base.specs.Ports.{HasCause};
ghost use Rattle.trees.specs.Damage.{IsNodeFault};
ghost use Rattle.trees.specs.Rows.{parts_of, AreHalfFull, IsFilled, IsRowOn};

use crate::faults::no_node;
use crate::rows::Part;
use crate::view::NodeView;
use crate::wide::{is_wide, wide_leaves_fit};
use crate::{LEN_AT, PAIRS_AT};
use ex_base::{Geometry, PortFault, Seen, get_u16};
use std::alloc::{AllocError, Global};

/// Whether each leaf below a node is half full.
fn are_half_full(node: &NodeView, full: u32) -> bool
    requires { RiseFrom 0 node.now.pairs }
    ensures { IsTrue result ↔ AreHalfFull full (parts_of 0 node.now.pairs) }
{
    let pairs = node.pairs();
    let mut before = 0;
    for index in 0..node.len() {
        let count = pairs.at(index).count;
        let size = count - before;
        if size < (full / 2) as u64 || size > full as u64 {
            return false;
        }
        before = count;
    }
    true
}

/// Finds fault with a node that has another level or total than its parent says, or too few children.
pub(crate) fn check_asked(
    node: &NodeView,
    level: u8,
    part: Part,
    least: u32,
) -> Result<(), PortFault>
    ensures level { OnOk result (node.now.level ≡ level) }
    ensures total { OnOk result (total_of node.now.pairs ≡ part.size) }
    ensures enough { OnOk result (least ≤ length node.now.pairs) }
    ensures fault { IfErr result (λ fault. (g : GeometryOf) (page : List ℕ)
        → node.now ≡ node_on page
        → IsNodeFault g page level part.size least part.page.0 fault) }
    ensures cause { (before now : ℕ) → HasCause before now result }
{
    let want = Seen::node(level, part.size);
    let got = Seen::node(node.level(), node.total());
    if got != want {
        return Err(PortFault::Damaged {
            page: part.page,
            want,
            got,
        });
    }
    if node.len() < least {
        return Err(no_node(part.page, level, part.size));
    }
    Ok(())
}

/// The node that stands on a page, where it is the one that its parent asks: a test for each thing that is asked.
fn tested_node<'a>(
    bytes: &'a [u8],
    geometry: &Geometry,
    level: u8,
    part: Part,
    least: u32,
) -> Result<NodeView<'a>, PortFault>
    ensures view { IfOk result (λ node. node ≡ node_on bytes.now) }
    ensures row { IfOk result
        (λ node. IsRowOn geometry.now bytes.now level part.size (parts_of 0 node.pairs)) }
    ensures filled { IfOk result
        (λ node. IsFilled geometry.now level least (parts_of 0 node.pairs)) }
    ensures few { IfOk result (λ node. length node.pairs < 2 ^ 32) }
    ensures limit { IfOk result (λ node. total_of node.pairs < 2 ^ 64) }
    ensures fault { IfErr result
        (IsNodeFault geometry.now bytes.now level part.size least part.page.0) }
    ensures cause { (before now : ℕ) → HasCause before now result }
{
    let Some(node) = NodeView::of(bytes, geometry.fan) else {
        return Err(no_node(part.page, level, part.size));
    };
    check_asked(&node, level, part, least)?;
    if level == 1 && !are_half_full(&node, geometry.leaf_bytes()) {
        return Err(no_node(part.page, level, part.size));
    }
    Ok(node)
}

/// The node over leaves that stands on a page, where its counts are wide and each of its leaves is half full: one pass tests both that counts rise and that
/// leaves are filled. A page that it doesn't take may still be a node.
fn wide_node<'a>(page: &'a [u8], fan: u32, full: u32) -> Option<NodeView<'a>>
    requires fan { fan ≤ 340 }
    requires some { 2 ≤ full }
    ensures view { IfSome result (λ node. node ≡ node_on page.now) }
    ensures reads { IfSome result (λ _. NodeReads fan page.now) }
    ensures halves { IfSome result (λ node. AreHalfFull full (parts_of 0 node.pairs)) }
{
    if !is_wide(page, fan) {
        return None;
    }
    let n = get_u16(page, LEN_AT) as usize;
    if !wide_leaves_fit(&page[PAIRS_AT..], n, full) {
        return None;
    }
    Some(NodeView::over(page))
}

/// The node that stands on a page, where it is the one that its parent asks.
pub(crate) fn asked_node<'a>(
    bytes: &'a [u8],
    geometry: &Geometry,
    level: u8,
    part: Part,
    least: u32,
) -> Result<NodeView<'a>, PortFault>
    ensures view { IfOk result (λ node. node ≡ node_on bytes.now) }
    ensures row { IfOk result
        (λ node. IsRowOn geometry.now bytes.now level part.size (parts_of 0 node.pairs)) }
    ensures filled { IfOk result
        (λ node. IsFilled geometry.now level least (parts_of 0 node.pairs)) }
    ensures few { IfOk result (λ node. length node.pairs < 2 ^ 32) }
    ensures limit { IfOk result (λ node. total_of node.pairs < 2 ^ 64) }
    ensures fault { IfErr result
        (IsNodeFault geometry.now bytes.now level part.size least part.page.0) }
    ensures cause { (before now : ℕ) → HasCause before now result }
{
    if level == 1 {
        if let Some(node) = wide_node(bytes, geometry.fan, geometry.leaf_bytes()) {
            check_asked(&node, level, part, least)?;
            return Ok(node);
        }
    }
    tested_node(bytes, geometry, level, part, least)
}

/// The children of a node.
pub fn all_children(alloc: Global, node: &NodeView) -> Result<Vec<Part>, AllocError>
    requires { RiseFrom 0 node.now.pairs }
    ensures { IfOk result (λ row. row.items ≡ parts_of 0 node.now.pairs) }
{
    children(alloc, node, 0, node.len())
}

/// The children of a node from one index up to another.
pub(crate) fn children(
    alloc: Global,
    node: &NodeView,
    from: u32,
    end: u32,
) -> Result<Vec<Part>, AllocError>
    requires rise { RiseFrom 0 node.now.pairs }
    requires order { from < end }
    requires inside { end ≤ length node.now.pairs }
    ensures { IfOk result
        (λ row. row.items ≡ take (end - from) (drop from (parts_of 0 node.now.pairs))) }
{
    let mut row = Vec::with_capacity(alloc, (end - from) as usize)?;
    let mut before = node.start(from);
    let pairs = node.pairs();
    for index in from..end {
        let pair = pairs.at(index);
        let part = Part {
            size: pair.count - before,
            page: pair.page,
        };
        row.push_reserved(part);
        before = pair.count;
    }
    Ok(row)
}
