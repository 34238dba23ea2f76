// The walk over a tree that is moved.
ghost use Rattle.std.specs.Prelude.{length, true, false, ◌⊎◌, ◌≢◌, ◌≡◌, ◌≤◌, ◌∷◌, [], ℕ, IfOk, IfErr, OnOk};
ghost use Rattle.ex_base.specs.Ports.{HasCause, IsDamage};
ghost use Rattle.ex_base.specs.Sizes.{leaf_bytes, object_most};
ghost use Rattle.trees.specs.Made.{Extends, sizes_of};
ghost use Rattle.trees.specs.Rows.{row_size};
ghost use Rattle.compact.specs.Moves.{copies_of};
ghost use Rattle.compact.specs.Moved.{KeepsCopies};
ghost use Rattle.compact.specs.Walk.{Move, CanMove, RowMoved, TreeMoved};

use crate::leaves::move_leaf;
use crate::moves::Moves;
use crate::nodes::{MovedRow, node_over};
use ex_base::{Blocks, PageNo, PortFault};
use std::alloc::Global;
use trees::{Part, put, row_of};

/// Whether a row has another tree than before, with one tree more.
fn is_changed(changed: bool, page: PageNo, before: PageNo) -> bool
    ensures not { result ≡ false → (changed ≡ false) × (page ≡ before) }
    ensures some { result ≡ true → (changed ≡ true) ⊎ (page.0 ≢ before.0) }
{
    changed || page != before
}

/// The copy of a tree of a level without high units. Nodes have at least so many children. The buffer holds a leaf.
#[cycle(moving)]
pub(crate) fn move_part<B: Blocks>(
    blocks: &mut B,
    alloc: Global,
    buffer: &mut [u8],
    level: u8,
    least: u32,
    part: Part,
    dense: u32,
    moves: &mut Moves,
) -> Result<PageNo, PortFault>
    requires ready { B.ready blocks.old }
    requires buffer { length buffer.old ≡ leaf_bytes (B.geometry blocks.old) }
    requires limit { part.size ≤ object_most }
    requires least { 1 ≤ least }
    ensures extends { OnOk result (Extends B.Ground blocks.old blocks.new) }
    ensures moved { IfOk result (λ copy. B.tells blocks.old → (l : ℕ) → level ≡ l → (move : Move B)
        → CanMove B.Ground move dense blocks.old (copies_of moves.old) l least (part ∷ [])
        → TreeMoved B.Ground move dense blocks.old blocks.new (copies_of moves.old)
        (copies_of moves.new) l part.page.0 copy.0) }
    ensures sound { IfErr result (λ fault. B.tells blocks.old → (l : ℕ) → level ≡ l
        → (move : Move B)
        → CanMove B.Ground move dense blocks.old (copies_of moves.old) l least (part ∷ [])
        → IsDamage fault → ⊥) }
    ensures keeps { KeepsCopies (copies_of moves.old) (copies_of moves.new) }
    ensures buffer { length buffer.new ≡ length buffer.old }
    ensures leads { B.leads blocks.old blocks.new }
    ensures cause { HasCause (B.faults blocks.old) (B.faults blocks.new) result }
{
    if level == 0 {
        return move_leaf(blocks, alloc, buffer, part.page, dense, moves);
    }
    if let Some(copy) = moves.get(part.page) {
        return Ok(copy);
    }
    let below = row_of(blocks, alloc, level, part, least)?;
    let made = move_row(blocks, alloc, buffer, level - 1, &below, dense, moves)?;
    let copy = node_over(blocks, alloc, buffer, level, part, &made)?;
    moves.add(part.page, copy)?;
    Ok(copy)
}

/// The copies of trees of a level below a node, from left to right.
#[cycle(moving)]
fn move_row<B: Blocks>(
    blocks: &mut B,
    alloc: Global,
    buffer: &mut [u8],
    level: u8,
    row: &[Part],
    dense: u32,
    moves: &mut Moves,
) -> Result<MovedRow, PortFault>
    requires ready { B.ready blocks.old }
    requires buffer { length buffer.old ≡ leaf_bytes (B.geometry blocks.old) }
    requires limit { row_size row.now ≤ object_most }
    ensures extends { OnOk result (Extends B.Ground blocks.old blocks.new) }
    ensures sizes { IfOk result (λ made. sizes_of made.row.items ≡ sizes_of row.now) }
    ensures moved { IfOk result (λ made. B.tells blocks.old → (l : ℕ) → level ≡ l → (move : Move B)
        → CanMove B.Ground move dense blocks.old (copies_of moves.old) l
        (B.geometry blocks.old).fan row.now
        → RowMoved B.Ground move dense blocks.old blocks.new (copies_of moves.old)
        (copies_of moves.new) l row.now
        made.row.items made.changed) }
    ensures sound { IfErr result (λ fault. B.tells blocks.old → (l : ℕ) → level ≡ l
        → (move : Move B)
        → CanMove B.Ground move dense blocks.old (copies_of moves.old) l
        (B.geometry blocks.old).fan row.now
        → IsDamage fault → ⊥) }
    ensures keeps { KeepsCopies (copies_of moves.old) (copies_of moves.new) }
    ensures buffer { length buffer.new ≡ length buffer.old }
    ensures leads { B.leads blocks.old blocks.new }
    ensures cause { HasCause (B.faults blocks.old) (B.faults blocks.new) result }
{
    let fan = blocks.geometry().fan;
    let mut made = Vec::new(alloc);
    let mut changed = false;
    for part in row {
        let page = move_part(blocks, alloc, buffer, level, fan, *part, dense, moves)?;
        changed = is_changed(changed, page, part.page);
        let copy = Part {
            size: part.size,
            page,
        };
        put(&mut made, copy)?;
    }
    Ok(MovedRow { row: made, changed })
}
