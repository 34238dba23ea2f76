// Nodes whose children were moved.
ghost use Rattle.std.specs.Prelude.{◌≡◌, ◌≤◌, ◌∷◌, [], ℕ, suc, length, true, false, IfOk, IfErr, OnOk};
ghost use Rattle.ex_base.specs.Ports.{HasCause, IsDamage};
ghost use Rattle.ex_base.specs.Sizes.{object_most};
ghost use Rattle.ex_base.specs.declared.names.Area.TheVariants.{Page};
ghost use Rattle.trees.specs.Built.{AreSome};
ghost use Rattle.trees.specs.Made.{Extends, Holds};
ghost use Rattle.trees.specs.Rows.{row_size};
ghost use Rattle.trees.specs.Split.{most_pairs};
ghost use Rattle.compact.specs.Walk.{NodeMade};

use ex_base::{Area, Blocks, PageNo, PortFault};
use std::alloc::Global;
use trees::{Part, no_node, nodes_by};

/// A row of trees that were moved, and whether one of them is another one than before.
#[derive(Drop)]
pub(crate) struct MovedRow {
    pub row: Vec<Part>,
    pub changed: bool,
}

/// The node over trees that were moved: a new one where one of them is another one.
pub(crate) fn node_over<B: Blocks>(
    blocks: &mut B,
    alloc: Global,
    buffer: &mut [u8],
    level: u8,
    part: Part,
    made: &MovedRow,
) -> Result<PageNo, PortFault>
    requires ready { B.ready blocks.old }
    requires buffer { (B.geometry blocks.old).page_size ≤ length buffer.old }
    requires level { 1 ≤ level }
    requires some { 1 ≤ length made.now.row.items }
    requires few { length made.now.row.items ≤ most_pairs (B.geometry blocks.old).fan }
    requires sizes { AreSome made.now.row.items }
    requires size { row_size made.now.row.items ≡ part.size }
    requires limit { part.size ≤ object_most }
    ensures extends { OnOk result (Extends B.Ground blocks.old blocks.new) }
    ensures same { IfOk result (λ page. made.now.changed ≡ false
        → (page ≡ part.page) × (blocks.new ≡ blocks.old)) }
    ensures made { IfOk result (λ page. B.tells blocks.old → made.now.changed ≡ true → (l : ℕ)
        → level ≡ suc l → Holds B.Ground blocks.old l made.now.row.items
        → NodeMade B.Ground blocks.old blocks.new l made.now.row.items
        (record { size = part.size; page = page })) }
    ensures sound { IfErr result (λ fault. (made.now.changed ≡ true → 1 ≤ B.free blocks.old Page)
        → IsDamage fault → ⊥) }
    ensures buffer { length buffer.new ≡ length buffer.old }
    ensures leads { B.leads blocks.old blocks.new }
    ensures cause { HasCause (B.faults blocks.old) (B.faults blocks.new) result }
{
    if !made.changed {
        return Ok(part.page);
    }
    if blocks.free(Area::Page) == 0 {
        return Err(no_node(part.page, level, part.size));
    }
    let len = blocks.geometry().page_size as usize;
    let lens = [made.row.len() as u32];
    let above = nodes_by(blocks, alloc, &mut buffer[..len], level, &made.row, &lens)?;
    let nodes: &[Part] = &above;
    Ok(nodes[0].page)
}
