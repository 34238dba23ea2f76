//! Rows: trees of one level side by side.
ghost use Rattle.std.specs.Prelude.{◌≡◌, ◌≤◌, ◌<◌, ◌+◌, ◌++◌, ◌∷◌, ◌↔◌, [], length, take, drop, IfOk, IfErr, OnOk, IsTrue, ℕ};
ghost use Rattle.ex_base.specs.Ports.{Keeps, HasCause};
ghost use Rattle.trees.specs.Damage.{NamesNode, IsNodeFault};
ghost use Rattle.trees.specs.Rows.{AreHalfFull, IsCounted, IsRowOn};

use crate::faults::no_node;
use crate::lent_nodes::check_asked;
use crate::reads::row_of_page;
use crate::view::NodeView;
use crate::wide::wide_row;
use ex_base::{Geometry, PageNo, PortFault, ReadBlocks};
use std::alloc::{AllocError, Global};

/// A tree below a root: the number of its bytes, and its root page or its leaf.
#[derive(Clone, Copy)]
pub struct Part {
    pub size: u64,
    pub page: PageNo,
}

/// Puts an item last.
pub fn put<T>(items: &mut Vec<T>, item: T) -> Result<(), AllocError>
where
    T: Drop,
    ensures { OnOk result (items.new.items ≡ items.old.items ++ item ∷ []) }
{
    items.push(item)?;
    Ok(())
}

/// Whether a page is one where a node may lie: a page of the page area, but for the catalog's.
pub fn names_node(geometry: &Geometry, page: PageNo) -> bool
    ensures { IsTrue result ↔ NamesNode geometry.now page.0 }
{
    page != PageNo::CATALOG && geometry.in_page_area(page)
}

/// Whether each leaf of a row is half full.
fn are_filled(row: &[Part], full: u32) -> bool
    ensures { IsTrue result ↔ AreHalfFull full row.now }
{
    for part in row {
        if part.size < (full / 2) as u64 || part.size > full as u64 {
            return false;
        }
    }
    true
}

/// The children that stand on a page, where it is the node that its parent asks: a test for each thing that is asked.
fn tested_row(
    alloc: Global,
    bytes: &[u8],
    geometry: &Geometry,
    level: u8,
    part: Part,
    least: u32,
) -> Result<Vec<Part>, PortFault>
    ensures counted { IfOk result (λ row. IsCounted geometry.now level part.size least row.items) }
    ensures found { IfOk result (λ row. IsRowOn geometry.now bytes.now level part.size row.items) }
    ensures fault { IfErr result
        (IsNodeFault geometry.now bytes.now level part.size least part.page.0) }
    ensures cause { (before now : ℕ) → HasCause before now result }
{
    let Some(row) = row_of_page(alloc, bytes, geometry.fan)? else {
        return Err(no_node(part.page, level, part.size));
    };
    check_asked(&NodeView::over(bytes), level, part, least)?;
    if level == 1 && !are_filled(&row, geometry.leaf_bytes()) {
        return Err(no_node(part.page, level, part.size));
    }
    Ok(row)
}

/// The children that stand on a page, where it is the node that its parent asks.
fn row_on(
    alloc: Global,
    bytes: &[u8],
    geometry: &Geometry,
    level: u8,
    part: Part,
    least: u32,
) -> Result<Vec<Part>, PortFault>
    ensures counted { IfOk result (λ row. IsCounted geometry.now level part.size least row.items) }
    ensures found { IfOk result (λ row. IsRowOn geometry.now bytes.now level part.size row.items) }
    ensures fault { IfErr result
        (IsNodeFault geometry.now bytes.now level part.size least part.page.0) }
    ensures cause { (before now : ℕ) → HasCause before now result }
{
    if level == 1 {
        if let Some(row) = wide_row(alloc, bytes, geometry.fan, geometry.leaf_bytes())? {
            check_asked(&NodeView::over(bytes), level, part, least)?;
            return Ok(row);
        }
    }
    tested_row(alloc, bytes, geometry, level, part, least)
}

/// The children of a node of a level, which has at least so many: the fan, or 2 where it is a root. A page that isn't this node, as its parent names
/// it, is answered as damaged; a page where no node may lie isn't read.
pub fn row_of<B: ReadBlocks>(
    blocks: &mut B,
    alloc: Global,
    level: u8,
    part: Part,
    least: u32,
) -> Result<Vec<Part>, PortFault>
    requires { B.ready blocks.old }
    ensures counted { IfOk result
        (λ row. IsCounted (B.geometry blocks.old) level part.size least row.items) }
    ensures area { OnOk result (NamesNode (B.geometry blocks.old) part.page.0) }
    ensures found { IfOk result (λ row. B.tells blocks.old
        → IsRowOn (B.geometry blocks.old)
        (B.unit blocks.old part.page.0) level part.size row.items) }
    ensures fault { IfErr result (λ fault. B.tells blocks.old
        → IsNodeFault (B.geometry blocks.old)
        (B.unit blocks.old part.page.0) level part.size least part.page.0 fault) }
    ensures kept { Keeps B.Ground blocks.old blocks.new }
    ensures cause { HasCause (B.faults blocks.old) (B.faults blocks.new) result }
{
    let geometry = blocks.geometry();
    if !names_node(&geometry, part.page) {
        return Err(no_node(part.page, level, part.size));
    }
    let bytes = blocks.node(alloc, part.page)?;
    row_on(alloc, bytes, &geometry, level, part, least)
}

/// So many trees of a row, from an index on.
pub fn piece(row: &[Part], at: usize, len: usize) -> &[Part]
    requires { at + len ≤ length row.now }
    ensures { result.now ≡ take len (drop at row.now) }
{
    &row[at..at + len]
}

/// The row with others in the place of those from one index up to another.
pub fn spliced(
    alloc: Global,
    row: &[Part],
    first: usize,
    end: usize,
    made: &[Part],
) -> Result<Vec<Part>, AllocError>
    requires order { first ≤ end }
    requires inside { end ≤ length row.now }
    ensures { IfOk result (λ all. all.items ≡ take first row.now ++ made.now ++ drop end row.now) }
{
    let mut all = Vec::with_capacity(alloc, row.len() - (end - first) + made.len())?;
    all.extend_from_slice(&row[..first])?;
    all.extend_from_slice(made)?;
    all.extend_from_slice(&row[end..])?;
    Ok(all)
}
