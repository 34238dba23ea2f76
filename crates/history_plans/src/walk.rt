// The walk of trees.
ghost use Rattle.std.specs.Prelude.{◌≡◌, ◌≤◌, IfErr, OnOk};
ghost use Rattle.ex_base.specs.Area.{NamesLeaf};
ghost use Rattle.ex_base.specs.Ports.{Keeps, HasCause, IsDamage};
ghost use Rattle.ex_base.specs.Sizes.{leaf_bytes};
ghost use Rattle.trees.specs.Trees.{Units, IsNamed, HasSize, RootNamed, RootSized};
ghost use Rattle.history_volumes.specs.Walks.{raised};
ghost use Rattle.history_plans.specs.Pieces.{IsClosed, LeavesTree, LeavesRoot, ShowsPages};

use crate::nodes::children;
use crate::pieces::Pieces;
use ex_base::{Geometry, PortFault, ReadVolume, Root};
use std::alloc::Global;
use trees::{Part, no_leaf};

/// Leaves a leaf.
fn leave_leaf(geometry: &Geometry, pieces: &mut Pieces, leaf: Part) -> Result<(), PortFault>
    ensures leaves { OnOk result
        (pieces.new.leaves ≡ raised pieces.old.leaves leaf.page.0 leaf.size) }
    ensures nodes { pieces.new.nodes ≡ pieces.old.nodes }
    ensures sound { IfErr result (λ fault. IsDamage fault → NamesLeaf geometry.now leaf.page.0
        → leaf.size ≤ leaf_bytes geometry.now → ⊥) }
    ensures cause { HasCause 0 0 result }
{
    if !geometry.names_leaf(leaf.page) || leaf.size > u64::from(geometry.leaf_bytes()) {
        return Err(no_leaf(leaf.page));
    }
    match pieces.name_leaf(leaf.page, leaf.size as u32) {
        Ok(()) => Ok(()),
        Err(_) => Err(PortFault::Memory),
    }
}

/// Walks a tree of this level. A node that was left before isn't read again.
fn walk<V: ReadVolume>(
    volume: &mut V,
    alloc: Global,
    pieces: &mut Pieces,
    level: u8,
    tree: Part,
) -> Result<(), PortFault>
    requires { V.ready volume.old }
    ensures walked { OnOk result (V.tells volume.old → (units : Units)
        → ShowsPages (V.geometry volume.old) (V.image volume.old) units
        → IsClosed (V.geometry volume.old) units pieces.old
        → IsNamed (V.geometry volume.old) units level tree.page.0
        → LeavesTree (V.geometry volume.old) units level tree.page.0 tree.size pieces.old pieces.new) }
    ensures sound { IfErr result (λ fault. IsDamage fault → V.tells volume.old → (units : Units)
        → ShowsPages (V.geometry volume.old) (V.image volume.old) units
        → IsNamed (V.geometry volume.old) units level tree.page.0
        → HasSize (V.geometry volume.old) units level tree.page.0 tree.size → ⊥) }
    ensures kept { Keeps V.Ground volume.old volume.new }
    ensures cause { HasCause (V.faults volume.old) (V.faults volume.new) result }
{
    if level == 0 {
        return leave_leaf(&volume.geometry(), pieces, tree);
    }
    if pieces.has_node(tree.page) {
        return Ok(());
    }
    let below = match children(volume, alloc, level, tree) {
        Ok(below) => below,
        Err(fault) => return Err(fault),
    };
    for child in &below {
        match walk(volume, alloc, pieces, level - 1, *child) {
            Ok(()) => {}
            Err(fault) => return Err(fault),
        }
    }
    match pieces.add_node(tree.page) {
        Ok(()) => Ok(()),
        Err(_) => Err(PortFault::Memory),
    }
}

/// Walks the tree of a root.
pub(crate) fn walk_root<V: ReadVolume>(
    volume: &mut V,
    alloc: Global,
    pieces: &mut Pieces,
    root: &Root,
) -> Result<(), PortFault>
    requires { V.ready volume.old }
    ensures walked { OnOk result (V.tells volume.old → (units : Units)
        → ShowsPages (V.geometry volume.old) (V.image volume.old) units
        → IsClosed (V.geometry volume.old) units pieces.old
        → RootNamed (V.geometry volume.old) units root.now.height root.now.page
        → LeavesRoot (V.geometry volume.old) units root.now pieces.old pieces.new) }
    ensures sound { IfErr result (λ fault. IsDamage fault → V.tells volume.old → (units : Units)
        → ShowsPages (V.geometry volume.old) (V.image volume.old) units
        → RootNamed (V.geometry volume.old) units root.now.height root.now.page
        → RootSized (V.geometry volume.old) units root.now.height root.now.size root.now.page
        → ⊥) }
    ensures kept { Keeps V.Ground volume.old volume.new }
    ensures cause { HasCause (V.faults volume.old) (V.faults volume.new) result }
{
    let Some(page) = root.page else {
        return Ok(());
    };
    let tree = Part {
        size: root.size,
        page,
    };
    walk(volume, alloc, pieces, root.height, tree)
}
