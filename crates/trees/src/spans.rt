// The trees side by side below a node that have a range of its bytes, found by bisection on the lent page.
ghost use Rattle.std.specs.Prelude.{◌≤◌, ◌<◌, ◌+◌, ◌-◌, ◌^◌, length, IfOk, IfErr, OnOk, ℕ};
ghost use Rattle.ex_base.specs.Ports.{Keeps, HasCause};
ghost use Rattle.trees.specs.Node.{pairs_on, total_of, RiseFrom};
ghost use Rattle.trees.specs.Damage.{IsNodeAt, IsNodeFault};
ghost use Rattle.trees.specs.Rows.{parts_of, row_size, FitLeaves, IsFilled, IsRowOn};
ghost use Rattle.trees.specs.Spans.{IsSpan};

use crate::faults::no_node;
use crate::lent_nodes::{asked_node, children};
use crate::rows::{Part, names_node};
use crate::view::NodeView;
use ex_base::{Geometry, PortFault, ReadBlocks};
use std::alloc::{AllocError, Global};

/// Trees of one level side by side that have a range of bytes, and where the range begins in them.
#[derive(Drop)]
pub(crate) struct Span {
    pub row: Vec<Part>,
    pub inside: u64,
}

/// The children of a node that have so many bytes from a position on.
fn span_below(alloc: Global, node: &NodeView, pos: u64, len: u64) -> Result<Span, AllocError>
    requires rise { RiseFrom 0 node.now.pairs }
    requires some { 1 ≤ len }
    requires range { pos + len ≤ total_of node.now.pairs }
    requires few { length node.now.pairs < 2 ^ 32 }
    requires limit { total_of node.now.pairs < 2 ^ 64 }
    ensures { IfOk result (λ span. IsSpan (parts_of 0 node.now.pairs) pos len
        span.row.items span.inside) }
{
    let (first, inside) = node.child_for_read(pos);
    let (last, _) = node.child_for_read(pos + (len - 1));
    let row = children(alloc, node, first, last + 1)?;
    Ok(Span { row, inside })
}

/// The children that have so many bytes from a position on, where a page is the node that its parent asks.
fn span_on(
    alloc: Global,
    bytes: &[u8],
    geometry: &Geometry,
    level: u8,
    part: Part,
    least: u32,
    pos: u64,
    len: u64,
) -> Result<Span, PortFault>
    requires some { 1 ≤ len }
    requires range { len ≤ part.size - pos }
    ensures row { OnOk result
        (IsRowOn geometry.now bytes.now level part.size (parts_of 0 (pairs_on bytes.now))) }
    ensures filled { OnOk result
        (IsFilled geometry.now level least (parts_of 0 (pairs_on bytes.now))) }
    ensures span { IfOk result
        (λ span. IsSpan (parts_of 0 (pairs_on bytes.now)) pos len span.row.items span.inside) }
    ensures fault { IfErr result
        (IsNodeFault geometry.now bytes.now level part.size least part.page.0) }
    ensures cause { (before now : ℕ) → HasCause before now result }
{
    match asked_node(bytes, geometry, level, part, least) {
        Ok(node) => Ok(span_below(alloc, &node, pos, len)?),
        Err(fault) => Err(fault),
    }
}

/// The children of a node of a level that have so many bytes from a position on. The node has at least so many children in all. A page that isn't this
/// node, as its parent names it, is answered as damaged; a page where no node may lie isn't read.
pub(crate) fn span_of<B: ReadBlocks>(
    blocks: &mut B,
    alloc: Global,
    level: u8,
    part: Part,
    least: u32,
    pos: u64,
    len: u64,
) -> Result<Span, PortFault>
    requires ready { B.ready blocks.old }
    requires inner { 1 ≤ level }
    requires some { 1 ≤ len }
    requires range { len ≤ part.size - pos }
    ensures leaves { IfOk result
        (λ span. FitLeaves (B.geometry blocks.old) (level - 1) span.row.items) }
    ensures enough { IfOk result (λ span. span.inside + len ≤ row_size span.row.items) }
    ensures node { OnOk result (B.tells blocks.old → IsNodeAt (B.geometry blocks.old)
        (B.unit blocks.old) level part.size least part.page.0) }
    ensures span { IfOk result (λ span. B.tells blocks.old
        → IsSpan (parts_of 0 (pairs_on (B.unit blocks.old part.page.0))) pos len
        span.row.items span.inside) }
    ensures fault { IfErr result (λ fault. B.tells blocks.old
        → IsNodeFault (B.geometry blocks.old)
        (B.unit blocks.old part.page.0) level part.size least part.page.0 fault) }
    ensures kept { Keeps B.Ground blocks.old blocks.new }
    ensures cause { HasCause (B.faults blocks.old) (B.faults blocks.new) result }
{
    let geometry = blocks.geometry();
    if !names_node(&geometry, part.page) {
        return Err(no_node(part.page, level, part.size));
    }
    let bytes = blocks.node(alloc, part.page)?;
    span_on(alloc, bytes, &geometry, level, part, least, pos, len)
}
