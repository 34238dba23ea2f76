// Growing a row: down one path, and new leaves and nodes on the way back.
ghost use Rattle.ex_base.specs.Area.{NamesLeaf};
ghost use Rattle.std.specs.Prelude.{◌≡◌, ℕ, ◌≤◌, ◌<◌, ◌+◌, ◌*◌, length, OnOk, IfOk, IfErr, ◌-◌};
ghost use Rattle.ex_base.specs.Edits.{inserted};
ghost use Rattle.ex_base.specs.Ports.{HasCause};
ghost use Rattle.ex_base.specs.Needs.{growth_leaves};
ghost use Rattle.ex_base.specs.Sizes.{leaf_bytes, object_most};
ghost use Rattle.ex_base.specs.declared.names.Area.TheVariants.{Page, Segment};
ghost use Rattle.trees.specs.Damage.{IsWalkFault, IsSoundWay};
ghost use Rattle.trees.specs.Rows.{row_size, row_bytes, row_shape, FitLeaves};
ghost use Rattle.trees.specs.Made.{Extends, Holds};
ghost use Rattle.trees.specs.Built.{AreSome};
ghost use Rattle.trees.specs.Grown.{Grew};
ghost use Rattle.tree_insert.specs.Grown.{HasGrown, IsPaid};
ghost use Rattle.tree_insert.specs.Growth.{IsSpot, row_by};

use crate::layout::{Growth, lengths_of, plan_for, run_of, tree_at};
use ex_base::{Blocks, PortFault};
use std::alloc::Global;
use trees::{Change, Part, nodes_over, piece, row_of, spliced, write_leaves};

/// New bytes at a position of a row of leaves.
pub(crate) fn grow_leaves<B: Blocks>(
    blocks: &mut B,
    alloc: Global,
    buffer: &mut [u8],
    growth: Growth,
    row: &[Part],
    pos: u64,
    given: &[u8],
) -> Result<Vec<Part>, PortFault>
    requires ready { B.ready blocks.old }
    requires buffer { length buffer.old ≡ leaf_bytes (B.geometry blocks.old) }
    requires some { 1 ≤ length row.now }
    requires few { length row.now ≤ 999 }
    requires sizes { AreSome row.now }
    requires leaves { FitLeaves (B.geometry blocks.old) 0 row.now }
    requires given { 1 ≤ length given.now }
    requires limit { row_size row.now + length given.now ≤ object_most }
    requires spot { IsSpot growth pos (row_size row.now) }
    requires free { growth_leaves (B.geometry blocks.old) (length given.now)
        ≤ B.free blocks.old Segment }
    ensures extends { OnOk result (Extends B.Ground blocks.old blocks.new) }
    ensures grown { IfOk result (λ made. HasGrown (length given.now) row.now made.items) }
    ensures count { IfOk result (λ made. length made.items + 1
        ≤ length row.now + growth_leaves (B.geometry blocks.old) (length given.now)) }
    ensures leaves { OnOk result (B.free blocks.old Segment ≤ B.free blocks.new Segment
        + growth_leaves (B.geometry blocks.old) (length given.now)) }
    ensures pages { OnOk result (B.free blocks.new Page ≡ B.free blocks.old Page) }
    ensures grew { IfOk result (λ made. B.tells blocks.old → Holds B.Ground blocks.old 0 row.now
        → Grew B.Ground blocks.old blocks.new 0 row.now made.items
        (inserted (row_bytes (B.unit blocks.old) 0 row.now) pos given.now)
        (row_by growth (B.geometry blocks.old).fan (leaf_bytes (B.geometry blocks.old))
        (length given.now) 0 (row_shape (B.unit blocks.old) 0 row.now) pos)) }
    ensures way { OnOk result (B.tells blocks.old
        → IsSoundWay (B.geometry blocks.old) (B.unit blocks.old)
        (NamesLeaf (B.geometry blocks.old)) 0 0 row.now (pos - 1) (pos - 1)) }
    ensures fault { IfErr result (λ fault. B.tells blocks.old
        → IsWalkFault (B.geometry blocks.old) (B.unit blocks.old) 0 0 row.now fault) }
    ensures leads { B.leads blocks.old blocks.new }
    ensures cause { HasCause (B.faults blocks.old) (B.faults blocks.new) result }
{
    let (index, at) = tree_at(row, pos);
    let cap = buffer.len() as u32;
    let plan = plan_for(growth, row, index, given.len() as u64, cap);
    let lengths = lengths_of(alloc, &plan, cap)?;
    let run = run_of(&plan, row, index, at);
    let old = piece(row, run.first, run.end - run.first);
    let change = Change { at: run.at, cut: 0 };
    let made = write_leaves(blocks, alloc, buffer, old, change, given, &lengths)?;
    Ok(spliced(alloc, row, run.first, run.end, &made)?)
}

/// New bytes at a position of a row of trees of a level.
pub(crate) fn grow_row<B: Blocks>(
    blocks: &mut B,
    alloc: Global,
    buffer: &mut [u8],
    growth: Growth,
    level: u8,
    row: &[Part],
    pos: u64,
    given: &[u8],
) -> Result<Vec<Part>, PortFault>
    requires ready { B.ready blocks.old }
    requires buffer { length buffer.old ≡ leaf_bytes (B.geometry blocks.old) }
    requires some { 1 ≤ length row.now }
    requires few { length row.now ≤ 999 }
    requires sizes { AreSome row.now }
    requires leaves { FitLeaves (B.geometry blocks.old) level row.now }
    requires given { 1 ≤ length given.now }
    requires limit { row_size row.now + length given.now ≤ object_most }
    requires spot { IsSpot growth pos (row_size row.now) }
    requires free { growth_leaves (B.geometry blocks.old) (length given.now)
        ≤ B.free blocks.old Segment }
    requires pages { growth_leaves (B.geometry blocks.old) (length given.now)
        + level * (2 * (B.geometry blocks.old).fan)
        ≤ (B.geometry blocks.old).fan * B.free blocks.old Page }
    ensures extends { OnOk result (Extends B.Ground blocks.old blocks.new) }
    ensures grown { IfOk result (λ made. HasGrown (length given.now) row.now made.items) }
    ensures leaves { OnOk result (B.free blocks.old Segment ≤ B.free blocks.new Segment
        + growth_leaves (B.geometry blocks.old) (length given.now)) }
    ensures paid { IfOk result (λ made. IsPaid (B.geometry blocks.old).fan
        (growth_leaves (B.geometry blocks.old) (length given.now)) level (B.free blocks.old Page)
        (B.free blocks.new Page) (length row.now) (length made.items)) }
    ensures grew { IfOk result (λ made. B.tells blocks.old → (l : ℕ) → level ≡ l
        → Holds B.Ground blocks.old l row.now
        → Grew B.Ground blocks.old blocks.new l row.now made.items
        (inserted (row_bytes (B.unit blocks.old) l row.now) pos given.now)
        (row_by growth (B.geometry blocks.old).fan (leaf_bytes (B.geometry blocks.old))
        (length given.now) l (row_shape (B.unit blocks.old) l row.now) pos)) }
    ensures way { OnOk result (B.tells blocks.old
        → IsSoundWay (B.geometry blocks.old) (B.unit blocks.old)
        (NamesLeaf (B.geometry blocks.old)) level (B.geometry blocks.old).fan row.now (pos - 1)
        (pos - 1)) }
    ensures fault { IfErr result (λ fault. B.tells blocks.old
        → IsWalkFault (B.geometry blocks.old) (B.unit blocks.old) level
        (B.geometry blocks.old).fan row.now fault) }
    ensures leads { B.leads blocks.old blocks.new }
    ensures cause { HasCause (B.faults blocks.old) (B.faults blocks.new) result }
{
    if level == 0 {
        return grow_leaves(blocks, alloc, buffer, growth, row, pos, given);
    }
    let (index, at) = tree_at(row, pos);
    let geometry = blocks.geometry();
    let below = row_of(blocks, alloc, level, row[index], geometry.fan)?;
    let grown = grow_row(blocks, alloc, buffer, growth, level - 1, &below, at, given)?;
    let page = &mut buffer[..geometry.page_size as usize];
    let made = nodes_over(blocks, alloc, page, level, &grown)?;
    Ok(spliced(alloc, row, index, index + 1, &made)?)
}
