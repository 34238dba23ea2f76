//! Reading a row of trees: a loop over its parts, and one call deeper for each level.
ghost use Rattle.std.specs.Prelude.{◌≡◌, ◌≤◌, ◌<◌, ◌+◌, ◌-◌, ℕ, [], ◌∷◌, length, drop, take, OnOk, IfErr};
ghost use Rattle.ex_base.specs.Area.{NamesLeaf};
ghost use Rattle.ex_base.specs.Ports.{Keeps, HasCause};
ghost use Rattle.ex_base.specs.Sizes.{leaf_bytes};
ghost use Rattle.trees.specs.Damage.{IsLeafFault, IsReadFault, IsSoundWay};
ghost use Rattle.trees.specs.Rows.{row_size, row_bytes, AreTrees, FitLeaves};

use crate::faults::no_leaf;
use crate::rows::Part;
use crate::spans::span_of;
use ex_base::{PortFault, ReadBlocks};
use std::alloc::Global;

/// Reads a part of a leaf.
fn read_leaf<B: ReadBlocks>(
    blocks: &mut B,
    alloc: Global,
    leaf: Part,
    pos: u64,
    out: &mut [u8],
) -> Result<(), PortFault>
    requires ready { B.ready blocks.old }
    requires some { 1 ≤ length out.old }
    requires range { length out.old ≤ leaf.size - pos }
    requires fits { leaf.size ≤ leaf_bytes (B.geometry blocks.old) }
    ensures bytes { OnOk result (B.tells blocks.old
        → out.new ≡ take (length out.old) (drop pos (B.unit blocks.old leaf.page.0))) }
    ensures named { OnOk result (NamesLeaf (B.geometry blocks.old) leaf.page.0) }
    ensures fault { IfErr result (IsLeafFault (B.geometry blocks.old) leaf.page) }
    ensures kept { Keeps B.Ground blocks.old blocks.new }
    ensures cause { HasCause (B.faults blocks.old) (B.faults blocks.new) result }
{
    if !blocks.geometry().names_leaf(leaf.page) {
        return Err(no_leaf(leaf.page));
    }
    blocks.leaf_into(alloc, leaf.page, pos as u32, out)
}

/// Reads a part of a tree of this level. A node has at least so many children.
#[cycle(read)]
fn read_tree<B: ReadBlocks>(
    blocks: &mut B,
    alloc: Global,
    level: u8,
    least: u32,
    tree: Part,
    pos: u64,
    out: &mut [u8],
) -> Result<(), PortFault>
    requires ready { B.ready blocks.old }
    requires some { 1 ≤ length out.old }
    requires range { length out.old ≤ tree.size - pos }
    requires leaf { FitLeaves (B.geometry blocks.old) level (tree ∷ []) }
    ensures bytes { OnOk result (B.tells blocks.old
        → AreTrees (B.geometry blocks.old) (B.unit blocks.old) level (tree ∷ [])
        → out.new ≡ take (length out.old) (drop pos (row_bytes (B.unit blocks.old) level (tree
        ∷ [])))) }
    ensures way { OnOk result (B.tells blocks.old → (byte : ℕ) → pos ≤ byte
        → byte < pos + length out.old
        → IsSoundWay (B.geometry blocks.old) (B.unit blocks.old) (NamesLeaf (B.geometry blocks.old))
        level least (tree ∷ []) byte byte) }
    ensures fault { IfErr result (λ fault. B.tells blocks.old
        → IsReadFault (B.geometry blocks.old) (B.unit blocks.old) level least (tree ∷ [])
        pos (length out.old) fault) }
    ensures kept { Keeps B.Ground blocks.old blocks.new }
    ensures cause { HasCause (B.faults blocks.old) (B.faults blocks.new) result }
{
    if level == 0 {
        return read_leaf(blocks, alloc, tree, pos, out);
    }
    let span = span_of(blocks, alloc, level, tree, least, pos, out.len() as u64)?;
    let fan = blocks.geometry().fan;
    read_row(blocks, alloc, level - 1, fan, &span.row, span.inside, out)
}

/// Reads a part of what a row of trees of this level spells, from a position of the row on. The nodes of the row have at least so many children.
#[cycle(read)]
pub fn read_row<B: ReadBlocks>(
    blocks: &mut B,
    alloc: Global,
    level: u8,
    least: u32,
    row: &[Part],
    pos: u64,
    out: &mut [u8],
) -> Result<(), PortFault>
    requires ready { B.ready blocks.old }
    requires leaves { FitLeaves (B.geometry blocks.old) level row.now }
    requires range { length out.old ≤ row_size row.now - pos }
    ensures bytes { OnOk result (B.tells blocks.old
        → AreTrees (B.geometry blocks.old) (B.unit blocks.old) level row.now
        → out.new ≡ take (length out.old)
        (drop pos (row_bytes (B.unit blocks.old) level row.now))) }
    ensures way { OnOk result (B.tells blocks.old → (byte : ℕ) → pos ≤ byte
        → byte < pos + length out.old
        → IsSoundWay (B.geometry blocks.old) (B.unit blocks.old) (NamesLeaf (B.geometry blocks.old))
        level least row.now byte byte) }
    ensures fault { IfErr result (λ fault. B.tells blocks.old
        → IsReadFault (B.geometry blocks.old) (B.unit blocks.old) level least row.now
        pos (length out.old) fault) }
    ensures kept { Keeps B.Ground blocks.old blocks.new }
    ensures cause { HasCause (B.faults blocks.old) (B.faults blocks.new) result }
{
    let mut at = pos;
    let mut done = 0;
    for part in row {
        let n = ((out.len() - done) as u64).min(part.size.saturating_sub(at)) as usize;
        if n != 0 {
            read_tree(
                blocks,
                alloc,
                level,
                least,
                *part,
                at,
                &mut out[done..done + n],
            )?;
        }
        at = at.saturating_sub(part.size);
        done += n;
    }
    Ok(())
}
