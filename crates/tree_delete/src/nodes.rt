// From a cut through a row of nodes to the cut through their children.
ghost use Rattle.ex_base.specs.Area.{NamesLeaf};
ghost use Rattle.std.specs.Prelude.{◌≡◌, ℕ, suc, ◌≤◌, ◌<◌, ◌+◌, ◌-◌, ◌*◌, length, IfOk, IfErr};
ghost use Rattle.ex_base.specs.Ports.{Keeps, HasCause};
ghost use Rattle.trees.specs.Split.{most_pairs};
ghost use Rattle.ex_base.specs.declared.faults.PortFault.{PortFault};
ghost use Rattle.trees.specs.Damage.{IsWalkFault, IsSoundWay};
ghost use Rattle.trees.specs.Rows.{row_size};
ghost use Rattle.trees.specs.Made.{Holds};
ghost use Rattle.tree_delete.specs.Beside.{children_on, AreNodesAt, OpensSound};
ghost use Rattle.tree_delete.specs.Cuts.{all_of, sides, AreChildren, IsOpened, IsBelow, IsCutAt, IsCutOf, HasSoundEnds};
ghost use Rattle.tree_delete.specs.Opens.{IsOpenedCut, OpensTo};

use crate::cut::{Cut, cut_through, extend, joined};
use ex_base::{PortFault, ReadBlocks};
use std::alloc::Global;
use trees::{Part, row_of};

/// A cut through the children of nodes, and the nodes on both sides that stay as they are.
#[derive(Drop)]
pub(crate) struct Opened {
    pub left: Vec<Part>,
    pub below: Cut,
    pub right: Vec<Part>,
}

/// The children of a row of nodes, each of which has at least so many.
fn children_of<B: ReadBlocks>(
    blocks: &mut B,
    alloc: Global,
    level: u8,
    least: u32,
    row: &[Part],
) -> Result<Vec<Part>, PortFault>
    requires ready { B.ready blocks.old }
    requires level { 1 ≤ level }
    ensures counted { IfOk result
        (λ below. AreChildren (B.geometry blocks.old) level least row.now below.items) }
    ensures opened { IfOk result (λ below. B.tells blocks.old → (l : ℕ) → level ≡ suc l
        → Holds B.Ground blocks.old (suc l) row.now
        → IsOpened B.Ground blocks.old l row.now below.items) }
    ensures way { IfOk result (λ below. B.tells blocks.old → (first last : ℕ)
        → IsSoundWay (B.geometry blocks.old) (B.unit blocks.old) (NamesLeaf (B.geometry blocks.old))
        (level - 1) (B.geometry blocks.old).fan below.items first last
        → IsSoundWay (B.geometry blocks.old) (B.unit blocks.old)
        (NamesLeaf (B.geometry blocks.old)) level least row.now first last) }
    ensures nodes { IfOk result (λ below. B.tells blocks.old
        → AreNodesAt (B.geometry blocks.old) (B.unit blocks.old) level least row.now
        × (below.items ≡ children_on (B.unit blocks.old) row.now)) }
    ensures fault { IfErr result (λ fault. B.tells blocks.old
        → IsWalkFault (B.geometry blocks.old) (B.unit blocks.old) level least row.now fault) }
    ensures walk { IfOk result (λ below. B.tells blocks.old → (fault : PortFault)
        → IsWalkFault (B.geometry blocks.old) (B.unit blocks.old) (level - 1)
        (B.geometry blocks.old).fan below.items fault
        → IsWalkFault (B.geometry blocks.old) (B.unit blocks.old) level least row.now fault) }
    ensures kept { Keeps B.Ground blocks.old blocks.new }
    ensures cause { HasCause (B.faults blocks.old) (B.faults blocks.new) result }
{
    let mut all = Vec::new(alloc);
    for part in row {
        let children = row_of(blocks, alloc, level, *part, least)?;
        extend(&mut all, &children)?;
    }
    Ok(all)
}

/// The cut through the children of the nodes that a cut goes through.
pub(crate) fn cut_below<B: ReadBlocks>(
    blocks: &mut B,
    alloc: Global,
    level: u8,
    least: u32,
    cut: &Cut,
) -> Result<Cut, PortFault>
    requires ready { B.ready blocks.old }
    requires level { 1 ≤ level }
    requires cut_at { IsCutAt (B.geometry blocks.old) level cut.now }
    ensures cut_at { IfOk result (λ below. IsCutAt (B.geometry blocks.old) (level - 1) below) }
    ensures sum { IfOk result (λ below. row_size (all_of below) + cut.now.len
        ≡ row_size cut.now.run.items + below.len) }
    ensures less { IfOk result (λ below. below.len ≤ cut.now.len) }
    ensures few { IfOk result (λ below. length (all_of below)
        ≤ 2 * most_pairs (B.geometry blocks.old).fan) }
    ensures below { IfOk result (λ below. B.tells blocks.old → (l : ℕ) → level ≡ suc l
        → Holds B.Ground blocks.old (suc l) cut.now.run.items
        → IsBelow B.Ground blocks.old l cut.now.run.items cut.now.at cut.now.len below) }
    ensures way { IfOk result (λ below. B.tells blocks.old
        → HasSoundEnds (B.geometry blocks.old) (B.unit blocks.old) (level - 1)
        (B.geometry blocks.old).fan below
        → HasSoundEnds (B.geometry blocks.old) (B.unit blocks.old) level least cut.now) }
    ensures nodes { IfOk result (λ below. B.tells blocks.old
        → AreNodesAt (B.geometry blocks.old) (B.unit blocks.old) level least cut.now.run.items
        × IsCutOf (children_on (B.unit blocks.old) cut.now.run.items) cut.now.at cut.now.len below) }
    ensures fault { IfErr result (λ fault. B.tells blocks.old
        → IsWalkFault (B.geometry blocks.old)
        (B.unit blocks.old) level least cut.now.run.items fault) }
    ensures walk { IfOk result (λ below. B.tells blocks.old → (fault : PortFault)
        → IsWalkFault (B.geometry blocks.old) (B.unit blocks.old) (level - 1)
        (B.geometry blocks.old).fan (all_of below) fault
        → IsWalkFault (B.geometry blocks.old)
        (B.unit blocks.old) level least cut.now.run.items fault) }
    ensures kept { Keeps B.Ground blocks.old blocks.new }
    ensures cause { HasCause (B.faults blocks.old) (B.faults blocks.new) result }
{
    let row = children_of(blocks, alloc, level, least, &cut.run)?;
    Ok(cut_through(alloc, &row, cut.at, cut.len)?)
}

/// The cut through the children, of which at least as many stay as a node has: else those of a neighbour are taken too.
pub(crate) fn open<B: ReadBlocks>(
    blocks: &mut B,
    alloc: Global,
    level: u8,
    cut: Cut,
) -> Result<Opened, PortFault>
    requires ready { B.ready blocks.old }
    requires level { 1 ≤ level }
    requires cut_at { IsCutAt (B.geometry blocks.old) level cut }
    requires sides { 1 ≤ sides cut }
    ensures counted { IfOk result (λ opened. OpensTo (B.geometry blocks.old) level cut opened) }
    ensures opened { IfOk result (λ opened. B.tells blocks.old → (l : ℕ) → level ≡ suc l
        → Holds B.Ground blocks.old (suc l) (all_of cut)
        → IsOpenedCut B.Ground blocks.old l cut opened) }
    ensures way { IfOk result (λ opened. B.tells blocks.old
        → HasSoundEnds (B.geometry blocks.old) (B.unit blocks.old) (level - 1)
        (B.geometry blocks.old).fan opened.below
        → HasSoundEnds (B.geometry blocks.old) (B.unit blocks.old) level
        (B.geometry blocks.old).fan cut) }
    ensures beside { IfOk result (λ opened. B.tells blocks.old
        → OpensSound (B.geometry blocks.old) (B.unit blocks.old) (level - 1)
        (B.geometry blocks.old).fan opened.below
        → OpensSound (B.geometry blocks.old) (B.unit blocks.old) level
        (B.geometry blocks.old).fan cut) }
    ensures fault { IfErr result (λ fault. B.tells blocks.old
        → IsWalkFault (B.geometry blocks.old) (B.unit blocks.old) level (B.geometry blocks.old).fan
        (all_of cut) fault) }
    ensures walk { IfOk result (λ opened. B.tells blocks.old → (fault : PortFault)
        → IsWalkFault (B.geometry blocks.old) (B.unit blocks.old) (level - 1)
        (B.geometry blocks.old).fan (all_of opened.below) fault
        → IsWalkFault (B.geometry blocks.old) (B.unit blocks.old) level (B.geometry blocks.old).fan
        (all_of cut) fault) }
    ensures kept { Keeps B.Ground blocks.old blocks.new }
    ensures cause { HasCause (B.faults blocks.old) (B.faults blocks.new) result }
{
    let fan = blocks.geometry().fan;
    let below = cut_below(blocks, alloc, level, fan, &cut)?;
    let Cut {
        mut left,
        mut right,
        ..
    } = cut;
    if fan as usize <= below.left.len() + below.right.len() {
        return Ok(Opened { left, below, right });
    }
    if let Some(near) = left.pop() {
        let row = children_of(blocks, alloc, level, fan, &[near])?;
        let wider = Cut {
            left: joined(alloc, &row, &below.left, &[])?,
            ..below
        };
        return Ok(Opened {
            left,
            below: wider,
            right,
        });
    }
    let near = right.remove(0);
    let row = children_of(blocks, alloc, level, fan, &[near])?;
    let wider = Cut {
        right: joined(alloc, &below.right, &row, &[])?,
        ..below
    };
    Ok(Opened {
        left,
        below: wider,
        right,
    })
}
