// What stands at a unit of a tree.
ghost use Rattle.std.specs.Prelude.{◌≡◌, ◌↔◌, ◌≤◌, ℕ, List, IsTrue, IfOk, IfErr, IfSome, IfNone};
ghost use Rattle.ex_base.specs.Area.{NamesLeaf, InPageArea};
ghost use Rattle.ex_base.specs.Ports.{Keeps, HasCause, IsDamage};
ghost use Rattle.trees.specs.declared.Pair.{Pair};
ghost use Rattle.trees.specs.Node.{PairsOf};
ghost use Rattle.node_walk.specs.Walk.{IsNodeOn};

use ex_base::{Geometry, PageNo, PortFault, ReadPages};
use std::alloc::{AllocError, Global};
use trees::view::NodeView;
use trees::{Part, all_children};

/// What is noted of a unit of a tree: its level, and of a node its bytes and the number of its pairs.
#[derive(Clone, Copy)]
pub(crate) struct Met {
    pub level: u8,
    pub total: u64,
    pub pairs: u32,
}

/// A leaf.
pub(crate) const LEAF: Met = Met {
    level: 0,
    total: 0,
    pairs: 0,
};

/// A unit of a tree, and the trees below it that are still to be walked.
#[derive(Drop)]
pub(crate) struct Node {
    pub met: Met,
    pub below: Vec<Part>,
}

/// The node that stands on a page, where it is in its grammar.
fn node_on(alloc: Global, bytes: &[u8], fan: u32) -> Result<Option<Node>, AllocError>
    requires { fan ≤ 340 }
    ensures found { IfOk result
        (λ found. IfSome found (λ node. IsNodeOn fan bytes.now node.met node.below.items)) }
    ensures none { IfOk result (λ found. IfNone found ((level : ℕ) (pairs : List Pair)
        → PairsOf fan bytes.now level pairs → ⊥)) }
{
    let Some(node) = NodeView::of(bytes, fan) else {
        return Ok(None);
    };
    let met = Met {
        level: node.level(),
        total: node.total(),
        pairs: node.len(),
    };
    let below = all_children(alloc, &node)?;
    Ok(Some(Node { met, below }))
}

/// Reads the node on a page of the page area. None where the page is outside the grammar.
pub(crate) fn read_node<P: ReadPages>(
    pages: &mut P,
    alloc: Global,
    fan: u32,
    page: PageNo,
) -> Result<Option<Node>, PortFault>
    requires ready { P.ready pages.old }
    requires page { InPageArea (P.geometry pages.old) page.0 }
    requires fan { fan ≤ 340 }
    ensures found { IfOk result (λ found. P.tells pages.old
        → IfSome found (λ node. IsNodeOn fan
        (P.image pages.old page.0) node.met node.below.items)) }
    ensures none { IfOk result (λ found. P.tells pages.old
        → IfNone found ((level : ℕ) (pairs : List Pair)
        → PairsOf fan (P.image pages.old page.0) level pairs → ⊥)) }
    ensures no_damage { IfErr result (λ fault. IsDamage fault → ⊥) }
    ensures kept { Keeps P.Ground pages.old pages.new }
    ensures cause { HasCause (P.faults pages.old) (P.faults pages.new) result }
{
    let bytes = pages.get(alloc, page)?;
    Ok(node_on(alloc, bytes, fan)?)
}
