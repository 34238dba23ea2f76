// The nodes of trees, as they are read.
ghost use Rattle.std.specs.Prelude.{◌≡◌, ◌≤◌, List, IfOk, IfErr, IfSome, IfNone, OnOk};
ghost use Rattle.ex_base.specs.Area.{InPageArea};
ghost use Rattle.ex_base.specs.Ports.{Keeps, HasCause, IsDamage};
ghost use Rattle.trees.specs.Node.{PairsOf, pairs_on};
ghost use Rattle.trees.specs.Rows.{parts_of};
ghost use Rattle.trees.specs.declared.Pair.{Pair};

use ex_base::{PortFault, ReadVolume};
use std::alloc::{AllocError, Global};
use trees::view::NodeView;
use trees::{Part, all_children, no_node};

/// The children on a page, where a node of this level stands there.
fn children_on(
    alloc: Global,
    bytes: &[u8],
    fan: u32,
    level: u8,
) -> Result<Option<Vec<Part>>, AllocError>
    requires { fan ≤ 340 }
    ensures found { IfOk result (λ found. IfSome found
        (λ row. row.items ≡ parts_of 0 (pairs_on bytes.now))) }
    ensures none { IfOk result (λ found. IfNone found ((pairs : List Pair)
        → PairsOf fan bytes.now level pairs → ⊥)) }
{
    let Some(node) = NodeView::of(bytes, fan) else {
        return Ok(None);
    };
    if node.level() != level {
        return Ok(None);
    }
    let row = all_children(alloc, &node)?;
    Ok(Some(row))
}

/// The children of the node on a page.
pub(crate) fn children<V: ReadVolume>(
    volume: &mut V,
    alloc: Global,
    level: u8,
    tree: Part,
) -> Result<Vec<Part>, PortFault>
    requires { V.ready volume.old }
    ensures found { IfOk result (λ row. V.tells volume.old
        → row.items ≡ parts_of 0 (pairs_on (V.image volume.old tree.page.0))) }
    ensures area { OnOk result (InPageArea (V.geometry volume.old) tree.page.0) }
    ensures sound { IfErr result (λ fault. IsDamage fault → V.tells volume.old
        → InPageArea (V.geometry volume.old) tree.page.0 → (pairs : List Pair)
        → PairsOf (V.geometry volume.old).fan (V.image volume.old tree.page.0) level pairs → ⊥) }
    ensures kept { Keeps V.Ground volume.old volume.new }
    ensures cause { HasCause (V.faults volume.old) (V.faults volume.new) result }
{
    let geometry = volume.geometry();
    if !geometry.in_page_area(tree.page) {
        return Err(no_node(tree.page, level, tree.size));
    }
    let bytes = match volume.get(alloc, tree.page) {
        Ok(bytes) => bytes,
        Err(fault) => return Err(fault),
    };
    match children_on(alloc, bytes, geometry.fan, level) {
        Ok(Some(row)) => Ok(row),
        Ok(None) => Err(no_node(tree.page, level, tree.size)),
        Err(_) => Err(PortFault::Memory),
    }
}
