// The step over nodes: a row of trees is put under new nodes.
ghost use Rattle.std.specs.Prelude.{◌≡◌, ℕ, suc, [], ◌∷◌, ◌≤◌, ◌<◌, ◌+◌, ◌-◌, ◌*◌, ◌^◌, length, OnOk, IfOk, IfErr};
ghost use Rattle.trees.specs.Node.{node_page};
ghost use Rattle.trees.specs.Split.{most_pairs, nodes_for};
ghost use Rattle.ex_base.specs.Ports.{HasCause, IsDamage, TakesUnit, CountsNames};
ghost use Rattle.ex_base.specs.Sizes.{object_most};
ghost use Rattle.ex_base.specs.declared.names.Area.TheVariants.{Page};
ghost use Rattle.trees.specs.Rows.{row_size, pairs_of};
ghost use Rattle.trees.specs.Made.{Extends, Spent, Holds, Took, pages_of};
ghost use Rattle.trees.specs.Counted.{Counted, NamesPairs};
ghost use Rattle.trees.specs.Built.{Built, IsCut, AreSome, even_lens};

use crate::rows::{Part, piece, put};
use crate::split::{even_part, split_parts};
use crate::write::write_node;
use ex_base::{Blocks, PortFault};
use std::alloc::{AllocError, Global};

/// A new node over these trees.
fn node_over<B: Blocks>(
    blocks: &mut B,
    buffer: &mut [u8],
    level: u8,
    row: &[Part],
) -> Result<Part, PortFault>
    requires ready { B.ready blocks.old }
    requires buffer { length buffer.old ≡ (B.geometry blocks.old).page_size }
    requires few { length row.now ≤ most_pairs (B.geometry blocks.old).fan }
    requires limit { row_size row.now ≤ object_most }
    requires free { 1 ≤ B.free blocks.old Page }
    ensures size { IfOk result (λ part. part.size ≡ row_size row.now) }
    ensures taken { IfOk result
        (λ part. TakesUnit B.Ground blocks.old blocks.new Page part.page.0 buffer.new) }
    ensures page { IfOk result (λ part. B.tells blocks.old
        → B.unit blocks.new part.page.0 ≡ node_page (length (B.unit blocks.new part.page.0)) level
        (pairs_of 0 row.now)) }
    ensures touched { OnOk result (B.touched blocks.new ≡ B.touched blocks.old) }
    ensures references { OnOk result (CountsNames B.Ground blocks.old blocks.new
        (B.names (B.geometry blocks.old) buffer.new)) }
    ensures names { IfOk result (λ part. B.tells blocks.old
        → CountsNames B.Ground blocks.old blocks.new
        (B.names (B.geometry blocks.old) (B.unit blocks.new part.page.0))) }
    ensures spent { OnOk result (Spent B.Ground blocks.old blocks.new 0 1) }
    ensures no_damage { IfErr result (λ fault. IsDamage fault → ⊥) }
    ensures leads { B.leads blocks.old blocks.new }
    ensures cause { HasCause (B.faults blocks.old) (B.faults blocks.new) result }
{
    let size = write_node(level, row, buffer);
    let page = blocks.new_node(buffer)?;
    Ok(Part { size, page })
}

/// A row under new nodes over pieces of these lengths, from left to right.
pub fn nodes_by<B: Blocks>(
    blocks: &mut B,
    alloc: Global,
    buffer: &mut [u8],
    level: u8,
    row: &[Part],
    lens: &[u32],
) -> Result<Vec<Part>, PortFault>
    requires ready { B.ready blocks.old }
    requires buffer { length buffer.old ≡ (B.geometry blocks.old).page_size }
    requires level { 1 ≤ level }
    requires sizes { AreSome row.now }
    requires limit { row_size row.now ≤ object_most }
    requires lens { IsCut (most_pairs (B.geometry blocks.old).fan) (length row.now) lens.now }
    requires free { length lens.now ≤ B.free blocks.old Page }
    ensures extends { OnOk result (Extends B.Ground blocks.old blocks.new) }
    ensures sum { IfOk result (λ above. row_size above.items ≡ row_size row.now) }
    ensures sizes { IfOk result (λ above. AreSome above.items) }
    ensures count { IfOk result (λ above. length above.items ≡ length lens.now) }
    ensures took { IfOk result
        (λ above. Took B.Ground blocks.old blocks.new (pages_of above.items)) }
    ensures spent { OnOk result (Spent B.Ground blocks.old blocks.new 0 (length lens.now)) }
    ensures built { IfOk result (λ above. B.tells blocks.old → (l : ℕ) → level ≡ suc l
        → Holds B.Ground blocks.old l row.now
        → Built B.Ground blocks.new l lens.now row.now above.items) }
    ensures counts { OnOk result (B.tells blocks.old → (l : ℕ) → level ≡ suc l
        → Holds B.Ground blocks.old l row.now → NamesPairs B.Ground
        → Counted B.Ground blocks.old blocks.new) }
    ensures no_damage { IfErr result (λ fault. IsDamage fault → ⊥) }
    ensures leads { B.leads blocks.old blocks.new }
    ensures cause { HasCause (B.faults blocks.old) (B.faults blocks.new) result }
{
    let mut above = Vec::new(alloc);
    let mut at = 0;
    for len in lens {
        let len = *len as usize;
        let part = node_over(blocks, buffer, level, piece(row, at, len))?;
        put(&mut above, part)?;
        at += len;
    }
    Ok(above)
}

/// The lengths of the pieces of a row of so many trees, under as few nodes as hold them, longer nodes first.
fn even_lens(alloc: Global, count: u32, fan: u32) -> Result<Vec<u32>, AllocError>
    requires fan { fan ≤ 340 }
    requires some { 1 ≤ count }
    ensures { IfOk result (λ lens. lens.items ≡ even_lens fan count) }
{
    let parts = split_parts(count, fan);
    let mut lens = Vec::new(alloc);
    for index in 0..parts {
        put(&mut lens, even_part(parts, count as u64, index, count))?;
    }
    Ok(lens)
}

/// A row under as few new nodes as hold it, longer nodes first.
pub fn nodes_over<B: Blocks>(
    blocks: &mut B,
    alloc: Global,
    buffer: &mut [u8],
    level: u8,
    row: &[Part],
) -> Result<Vec<Part>, PortFault>
    requires ready { B.ready blocks.old }
    requires buffer { length buffer.old ≡ (B.geometry blocks.old).page_size }
    requires level { 1 ≤ level }
    requires some { 1 ≤ length row.now }
    requires sizes { AreSome row.now }
    requires count { length row.now < 2 ^ 32 }
    requires limit { row_size row.now ≤ object_most }
    requires free { nodes_for (B.geometry blocks.old).fan (length row.now)
        ≤ B.free blocks.old Page }
    ensures extends { OnOk result (Extends B.Ground blocks.old blocks.new) }
    ensures sum { IfOk result (λ above. row_size above.items ≡ row_size row.now) }
    ensures sizes { IfOk result (λ above. AreSome above.items) }
    ensures count { IfOk result (λ above. length above.items
        ≡ nodes_for (B.geometry blocks.old).fan (length row.now)) }
    ensures took { IfOk result
        (λ above. Took B.Ground blocks.old blocks.new (pages_of above.items)) }
    ensures spent { OnOk result (Spent B.Ground blocks.old blocks.new 0
        (nodes_for (B.geometry blocks.old).fan (length row.now))) }
    ensures built { IfOk result (λ above. B.tells blocks.old → (l : ℕ) → level ≡ suc l
        → Holds B.Ground blocks.old l row.now
        → Built B.Ground blocks.new l (even_lens (B.geometry blocks.old).fan
        (length row.now)) row.now above.items) }
    ensures counts { OnOk result (B.tells blocks.old → (l : ℕ) → level ≡ suc l
        → Holds B.Ground blocks.old l row.now → NamesPairs B.Ground
        → Counted B.Ground blocks.old blocks.new) }
    ensures no_damage { IfErr result (λ fault. IsDamage fault → ⊥) }
    ensures leads { B.leads blocks.old blocks.new }
    ensures cause { HasCause (B.faults blocks.old) (B.faults blocks.new) result }
{
    let lens = even_lens(alloc, row.len() as u32, blocks.geometry().fan)?;
    nodes_by(blocks, alloc, buffer, level, row, &lens)
}
