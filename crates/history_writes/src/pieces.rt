//! Writing a leaf, and a node.
ghost use Rattle.std.specs.Prelude.{◌≡◌, ◌≤◌, ◌<◌, length, OnOk, OnErr, IfErr};
ghost use Rattle.disk_model.specs.Changes.{ChangesWithin};
ghost use Rattle.disk_model.specs.Outside.{Outside, Rose};
ghost use Rattle.ex_base.specs.Ports.{HasCause, IsDamage};
ghost use Rattle.ex_base.specs.Sizes.{volume_bytes};
ghost use Rattle.history_model.specs.Items.{IsLeafItem, IsNodeItem};
ghost use Rattle.history_volumes.specs.Transcribed.{paired};
ghost use Rattle.trees.specs.Rows.{parts_of};
ghost use Rattle.history_writes.specs.Pieces.{LeafWritten, NodeWritten};
ghost use Rattle.history_writes.specs.Places.{IsBehindCatalog, leaf_place, node_place};

use crate::places::{leaf_page, node_page, tree_page};
use disk_model::{Disk, Failed};
use ex_base::{Geometry, PortFault};
use history_items::NodeItem;
use std::alloc::AllocError;
use trees::Part;
use trees::write::write_node as put_node;

/// Writes the leaf with a number, which is counted from 1, to its unit.
pub fn write_leaf<D: Disk>(
    disk: &mut D,
    geometry: &Geometry,
    number: u32,
    leaf: &[u8],
) -> Result<(), Failed>
    requires room { volume_bytes geometry.now ≤ (D.outside disk.old).size }
    requires some { 1 ≤ number }
    requires there { number ≤ geometry.now.segs }
    requires leaf { IsLeafItem geometry.now leaf.now }
    ensures written { OnOk result (LeafWritten geometry.now (D.outside disk.old)
        (D.outside disk.new) number leaf.now) }
    ensures changes { ChangesWithin (IsBehindCatalog geometry.now) (D.outside disk.old)
        (D.outside disk.new) }
    ensures cause { OnErr result (Rose (D.outside disk.old).disk_faults
        (D.outside disk.new).disk_faults) }
{
    disk.write(geometry.home(leaf_page(geometry, number)), leaf)
}

/// The children of a node, each at its place. What `row` holds before says nothing.
fn place_children(
    geometry: &Geometry,
    node: &NodeItem<'_>,
    row: &mut Vec<Part>,
) -> Result<(), AllocError>
    requires { IsNodeItem geometry.now geometry.now.segs geometry.now.pages node.now }
    ensures { OnOk result (row.new.items ≡ parts_of 0
        (paired (leaf_place geometry.now) node_place node.now.level node.now.pairs)) }
{
    let level = node.level();
    let mut last = 0;
    row.clear();
    for index in 0..node.len() {
        let pair = node.pair(index);
        row.push(Part {
            size: pair.count - last,
            page: tree_page(geometry, level - 1, pair.page.0),
        })?;
        last = pair.count;
    }
    Ok(())
}

/// Writes the node with a number, which is counted from 1, to its page, with the place of each child. Its page and its row are made in what is lent, and what that
/// holds before says nothing.
pub fn write_node<D: Disk>(
    disk: &mut D,
    geometry: &Geometry,
    number: u32,
    node: &NodeItem<'_>,
    row: &mut Vec<Part>,
    page: &mut [u8],
) -> Result<(), PortFault>
    requires room { volume_bytes geometry.now ≤ (D.outside disk.old).size }
    requires some { 1 ≤ number }
    requires there { number < geometry.now.pages }
    requires node { IsNodeItem geometry.now geometry.now.segs geometry.now.pages node.now }
    requires page { length page.old ≡ geometry.now.page_size }
    ensures written { OnOk result (NodeWritten geometry.now (D.outside disk.old)
        (D.outside disk.new) number node.now) }
    ensures changes { ChangesWithin (IsBehindCatalog geometry.now) (D.outside disk.old)
        (D.outside disk.new) }
    ensures page { length page.new ≡ geometry.now.page_size }
    ensures no_damage { IfErr result (λ fault. IsDamage fault → ⊥) }
    ensures cause { HasCause (D.outside disk.old).disk_faults
        (D.outside disk.new).disk_faults result }
{
    place_children(geometry, node, row)?;
    put_node(node.level(), row, page);
    disk.write(geometry.home(node_page(number)), page)?;
    Ok(())
}
