// Whole trees that are moved.
ghost use Rattle.std.specs.Prelude.{length, ◌≡◌, IfOk, IfErr, OnOk};
ghost use Rattle.ex_base.specs.Ports.{HasCause, IsDamage};
ghost use Rattle.trees.specs.Made.{Extends};
ghost use Rattle.trees.specs.Roots.{IsRootFor};
ghost use Rattle.compact.specs.Moves.{copies_of};
ghost use Rattle.compact.specs.Moved.{IsMoved, KeepsCopies, MayMove};

use crate::moves::Moves;
use crate::walk::move_part;
use ex_base::{Blocks, PortFault, ROOT_LEAST, Root};
use std::alloc::Global;
use trees::Part;

/// The tree of a root with no unit behind the lowest `dense` ones: its high leaves are copied to the lowest free units, and the nodes that lead to them to free
/// pages. What has a copy in `moves` isn't copied again, and what was copied or seen has its copy there from then on, so that a node is read once, and a leaf
/// that many trees share is copied once for all of them. Where the disk shows more to copy than there is room for, damage is told of the unit that lacks it.
pub fn move_tree<B: Blocks>(
    alloc: Global,
    blocks: &mut B,
    root: &Root,
    dense: u32,
    moves: &mut Moves,
) -> Result<Root, PortFault>
    requires ready { B.ready blocks.old }
    requires root { IsRootFor (B.geometry blocks.old) root.now }
    ensures size { IfOk result (λ made. made.size ≡ root.now.size) }
    ensures height { IfOk result (λ made. made.height ≡ root.now.height) }
    ensures extends { OnOk result (Extends B.Ground blocks.old blocks.new) }
    ensures moved { IfOk result (λ made. B.tells blocks.old
        → MayMove B.Ground blocks.old dense (copies_of moves.old) root.now
        → IsMoved B.Ground blocks.old blocks.new dense (copies_of moves.old)
        (copies_of moves.new) root.now made) }
    ensures sound { IfErr result (λ fault. B.tells blocks.old
        → MayMove B.Ground blocks.old dense (copies_of moves.old) root.now → IsDamage fault → ⊥) }
    ensures keeps { KeepsCopies (copies_of moves.old) (copies_of moves.new) }
    ensures leads { B.leads blocks.old blocks.new }
    ensures cause { HasCause (B.faults blocks.old) (B.faults blocks.new) result }
{
    let Some(page) = root.page else {
        return Ok(*root);
    };
    let mut buffer = vec![in alloc; 0; blocks.geometry().leaf_bytes() as usize]?;
    let tree = Part {
        size: root.size,
        page,
    };
    let copy = move_part(
        blocks,
        alloc,
        &mut buffer,
        root.height,
        ROOT_LEAST,
        tree,
        dense,
        moves,
    )?;
    Ok(Root {
        height: root.height,
        page: Some(copy),
        size: root.size,
    })
}
