//! The item of a node, as it is read.
ghost use Rattle.std.specs.Prelude.{◌≡◌, ◌≤◌, ◌<◌, ◌-◌, ℕ, List, length, take, IfOk, IfErr, OnOk};
ghost use Rattle.std.specs.List.{AllZip};
ghost use Rattle.ex_base.specs.Ports.{Keeps, HasCause, IsDamage};
ghost use Rattle.ex_base.specs.declared.geometry.Geometry.{Geometry};
ghost use Rattle.history_items.specs.Gathering.{item_most};
ghost use Rattle.history_model.specs.Stream.{node_item};
ghost use Rattle.trees.specs.declared.Pair.{Pair};
ghost use Rattle.trees.specs.Node.{Node, PairsOf};
ghost use Rattle.history_plans.specs.Plans.{pages_at};
ghost use Rattle.history_dump.specs.Items.{IsNumbered, IsPlannedNode};

use ex_base::{Geometry, PageNo, PortFault, ReadVolume};
use history_items::write_node;
use history_plans::Plan;
use std::alloc::Global;
use trees::view::NodeView;
use trees::{Pair, no_node};

/// The pairs of a node, each with its child's number in the place of the child's page.
fn number_pairs(
    plan: &Plan,
    page: PageNo,
    node: &NodeView<'_>,
    pairs: &mut Vec<Pair>,
) -> Result<(), PortFault>
    requires inner { 1 ≤ node.now.level }
    ensures numbered { OnOk result (AllZip (IsNumbered (pages_at (node.now.level - 1) plan.now))
        node.now.pairs pairs.new.items) }
    ensures sound { IfErr result (λ fault. IsDamage fault → (numbered : List Pair)
        → AllZip (IsNumbered (pages_at (node.now.level - 1) plan.now)) node.now.pairs numbered
        → ⊥) }
    ensures cause { (before now : ℕ) → HasCause before now result }
{
    let level = node.level() - 1;
    let named = node.pairs();
    pairs.clear();
    for index in 0..node.len() {
        let pair = named.at(index);
        let Some(number) = plan.number_of(level, pair.page) else {
            return Err(no_node(page, level + 1, node.total()));
        };
        let numbered = Pair {
            count: pair.count,
            page: PageNo(number),
        };
        if pairs.push(numbered).is_err() {
            return Err(PortFault::Memory);
        }
    }
    Ok(())
}

/// Makes the item of the node that stands on a page over the first bytes; it answers how many they are.
fn put_pairs(
    geometry: &Geometry,
    bytes: &[u8],
    plan: &Plan,
    page: PageNo,
    pairs: &mut Vec<Pair>,
    out: &mut [u8],
) -> Result<usize, PortFault>
    requires room { item_most geometry.now ≤ length out.old }
    ensures item { IfOk result (λ n. (node : Node) (on : List Pair)
        → PairsOf geometry.now.fan bytes.now node.level on
        → AllZip (IsNumbered (pages_at (node.level - 1) plan.now)) on node.pairs
        → take n out.new ≡ node_item node) }
    ensures some { IfOk result (λ n. 0 < n) }
    ensures inside { IfOk result (λ n. n ≤ length out.old) }
    ensures sound { IfErr result (λ fault. IsDamage fault → (node : Node) (on : List Pair)
        → PairsOf geometry.now.fan bytes.now node.level on
        → AllZip (IsNumbered (pages_at (node.level - 1) plan.now)) on node.pairs → ⊥) }
    ensures cause { (before now : ℕ) → HasCause before now result }
{
    let Some(node) = NodeView::of(bytes, geometry.fan) else {
        return Err(no_node(page, 0, 0));
    };
    match number_pairs(plan, page, &node, pairs) {
        Ok(()) => Ok(write_node(node.level(), pairs, out)),
        Err(fault) => Err(fault),
    }
}

/// Reads a node and makes its item over the first bytes, each child by its number; it answers how many they are. What `pairs` holds before says nothing.
pub(crate) fn put_node<V: ReadVolume>(
    volume: &mut V,
    alloc: Global,
    plan: &Plan,
    page: PageNo,
    pairs: &mut Vec<Pair>,
    out: &mut [u8],
) -> Result<usize, PortFault>
    requires ready { V.ready volume.old }
    requires room { item_most (V.geometry volume.old) ≤ length out.old }
    ensures item { IfOk result (λ n. V.tells volume.old → (node : Node)
        → IsPlannedNode V.Ground volume.old plan.now page.0 node
        → take n out.new ≡ node_item node) }
    ensures some { IfOk result (λ n. 0 < n) }
    ensures inside { IfOk result (λ n. n ≤ length out.old) }
    ensures sound { IfErr result (λ fault. IsDamage fault → V.tells volume.old → (node : Node)
        → IsPlannedNode V.Ground volume.old plan.now page.0 node → ⊥) }
    ensures kept { Keeps V.Ground volume.old volume.new }
    ensures cause { HasCause (V.faults volume.old) (V.faults volume.new) result }
{
    let geometry = volume.geometry();
    if !geometry.in_page_area(page) {
        return Err(no_node(page, 0, 0));
    }
    let bytes = volume.node(alloc, page)?;
    put_pairs(&geometry, bytes, plan, page, pairs, out)
}
