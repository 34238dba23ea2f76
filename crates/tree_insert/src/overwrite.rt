// Replacing bytes: new leaves of the same lengths, and new nodes over them with as many children as before.
ghost use Rattle.std.specs.Prelude.{◌≡◌, ℕ, ◌≤◌, ◌<◌, ◌+◌, ◌-◌, ◌*◌, List, length, OnOk, IfOk, IfErr, Ok, ◌⊎◌};
ghost use Rattle.std.specs.List.{AllByRecursion};
ghost use Rattle.ex_base.specs.Edits.{replaced};
ghost use Rattle.ex_base.specs.Ports.{Keeps, HasCause, IsDamage};
ghost use Rattle.ex_base.specs.Needs.{replaced_leaves, replace_need};
ghost use Rattle.ex_base.specs.Sizes.{leaf_bytes, object_most};
ghost use Rattle.ex_base.specs.declared.names.Area.TheVariants.{Page, Segment};
ghost use Rattle.trees.specs.Trees.{RootSpells, root_shape, root_units};
ghost use Rattle.trees.specs.Damage.{NamesNode, IsWalkFault, IsRootFault, IsWhole, AnyPage, IsSoundWay, IsSoundEnd, IsSoundRoot, root_row};
ghost use Rattle.trees.specs.Rows.{row_size, row_bytes, row_shape, IsCounted, IsRowOn};
ghost use Rattle.trees.specs.Built.{AreSome};
ghost use Rattle.trees.specs.Made.{Extends, Holds, AreUsed};
ghost use Rattle.trees.specs.Grown.{Turned, Grew};
ghost use Rattle.tree_insert.specs.Replaced.{IsTouched, IsSpan, AreLeaves, EachRow, IsSpent};
ghost use Rattle.trees.specs.Roots.{IsRootFor};

use crate::layout::tree_at;
use ex_base::{Blocks, PortFault, ROOT_LEAST, ReadBlocks, Root};
use std::alloc::Global;
use trees::{Change, Part, nodes_by, piece, put, row_of, spliced, write_leaves};

/// The children of a run of nodes, from left to right, and how many each node has.
#[derive(Drop)]
struct Below {
    row: Vec<Part>,
    lens: Vec<u32>,
}

/// The trees of a row that hold a range of bytes: those from `first` up to `end`, and where the range begins in them.
#[derive(Clone, Copy)]
struct Span {
    first: usize,
    end: usize,
    at: u64,
}

/// The trees of a row that hold the n bytes from a position on.
fn span_of(row: &[Part], pos: u64, n: u64) -> Span
    requires some { 1 ≤ n }
    requires all { pos + n ≤ row_size row.now }
    requires limit { row_size row.now ≤ object_most }
    ensures { IsSpan row.now pos n result.first result.end result.at }
{
    let (first, behind) = tree_at(row, pos + 1);
    let (last, _) = tree_at(row, pos + n);
    Span {
        first,
        end: last + 1,
        at: behind - 1,
    }
}

/// The children of a run of nodes of a level.
fn row_below<B: ReadBlocks>(
    blocks: &mut B,
    alloc: Global,
    level: u8,
    least: u32,
    run: &[Part],
) -> Result<Below, PortFault>
    requires ready { B.ready blocks.old }
    requires level { 1 ≤ level }
    ensures counted { IfOk result
        (λ below. EachRow (λ part row. IsCounted
        (B.geometry blocks.old) level part.size least row) run.now below.lens.items below.row.items) }
    ensures found { IfOk result (λ below. B.tells blocks.old
        → EachRow (λ part row. IsRowOn (B.geometry blocks.old)
        (B.unit blocks.old part.page.0) level part.size row) run.now below.lens.items below.row.items) }
    ensures area { OnOk result (AllByRecursion
        (λ part. NamesNode (B.geometry blocks.old) part.page.0) run.now) }
    ensures fault { IfErr result (λ fault. B.tells blocks.old
        → IsWalkFault (B.geometry blocks.old) (B.unit blocks.old) level least run.now fault) }
    ensures kept { Keeps B.Ground blocks.old blocks.new }
    ensures cause { HasCause (B.faults blocks.old) (B.faults blocks.new) result }
{
    let mut row = Vec::new(alloc);
    let mut lens = Vec::new(alloc);
    for part in run {
        let children = row_of(blocks, alloc, level, *part, least)?;
        put(&mut lens, children.len() as u32)?;
        row.extend_from_slice(&children)?;
    }
    Ok(Below { row, lens })
}

/// New leaves in the place of a run of leaves, with other bytes from a position on.
fn replace_leaves<B: Blocks>(
    blocks: &mut B,
    alloc: Global,
    buffer: &mut [u8],
    run: &[Part],
    pos: u64,
    given: &[u8],
) -> Result<Vec<Part>, PortFault>
    requires ready { B.ready blocks.old }
    requires buffer { length buffer.old ≡ leaf_bytes (B.geometry blocks.old) }
    requires sizes { AreSome run.now }
    requires leaves { AreLeaves (B.geometry blocks.old) 0 run.now }
    requires touched { IsTouched run.now pos (length given.now) }
    requires limit { row_size run.now ≤ object_most }
    requires free { replaced_leaves (B.geometry blocks.old) (length given.now)
        ≤ B.free blocks.old Segment }
    ensures extends { OnOk result (Extends B.Ground blocks.old blocks.new) }
    ensures sum { IfOk result (λ made. row_size made.items ≡ row_size run.now) }
    ensures sizes { IfOk result (λ made. AreSome made.items) }
    ensures count { IfOk result (λ made. length made.items ≡ length run.now) }
    ensures leaves { OnOk result (B.free blocks.old Segment ≤ B.free blocks.new Segment
        + replaced_leaves (B.geometry blocks.old) (length given.now)) }
    ensures pages { OnOk result (B.free blocks.new Page ≡ B.free blocks.old Page) }
    ensures grew { IfOk result (λ made. B.tells blocks.old → Holds B.Ground blocks.old 0 run.now
        → Grew B.Ground blocks.old blocks.new 0 run.now made.items
        (replaced (row_bytes (B.unit blocks.old) 0 run.now) pos given.now)
        (row_shape (B.unit blocks.old) 0 run.now)) }
    ensures ends { OnOk result (B.tells blocks.old → (end : ℕ) → (end ≡ pos)
        ⊎ (end ≡ pos + length given.now)
        → IsSoundEnd (B.geometry blocks.old) (B.unit blocks.old) 0 0 run.now end) }
    ensures fault { IfErr result (λ fault. B.tells blocks.old
        → IsWalkFault (B.geometry blocks.old) (B.unit blocks.old) 0 0 run.now fault) }
    ensures leads { B.leads blocks.old blocks.new }
    ensures cause { HasCause (B.faults blocks.old) (B.faults blocks.new) result }
{
    let mut made = Vec::new(alloc);
    let mut start = 0;
    let len = given.len() as u64;
    for leaf in run {
        let at = pos.saturating_sub(start);
        let done = start.saturating_sub(pos);
        let cut = (leaf.size - at).min(len - done);
        let change = Change { at, cut };
        let part = &given[done as usize..(done + cut) as usize];
        let lengths = [leaf.size as u32];
        let new = write_leaves(blocks, alloc, buffer, &[*leaf], change, part, &lengths)?;
        made.extend_from_slice(&new)?;
        start += leaf.size;
    }
    Ok(made)
}

/// New trees in the place of a run of trees of a level, with other bytes from a position on. Each of them has as many children as the one before.
fn replace_run<B: Blocks>(
    blocks: &mut B,
    alloc: Global,
    buffer: &mut [u8],
    level: u8,
    least: u32,
    run: &[Part],
    pos: u64,
    given: &[u8],
) -> Result<Vec<Part>, PortFault>
    requires ready { B.ready blocks.old }
    requires buffer { length buffer.old ≡ leaf_bytes (B.geometry blocks.old) }
    requires sizes { AreSome run.now }
    requires leaves { AreLeaves (B.geometry blocks.old) level run.now }
    requires given { 1 ≤ length given.now }
    requires touched { IsTouched run.now pos (length given.now) }
    requires limit { row_size run.now ≤ object_most }
    requires some { 1 ≤ least }
    requires least { 2 ≤ length run.now → (B.geometry blocks.old).fan ≤ least }
    requires free { replaced_leaves (B.geometry blocks.old) (length given.now)
        ≤ B.free blocks.old Segment }
    requires pages { replaced_leaves (B.geometry blocks.old) (length given.now)
        + level * (2 * ((B.geometry blocks.old).fan - 1))
        ≤ ((B.geometry blocks.old).fan - 1) * B.free blocks.old Page }
    ensures extends { OnOk result (Extends B.Ground blocks.old blocks.new) }
    ensures sum { IfOk result (λ made. row_size made.items ≡ row_size run.now) }
    ensures sizes { IfOk result (λ made. AreSome made.items) }
    ensures count { IfOk result (λ made. length made.items ≡ length run.now) }
    ensures leaves { OnOk result (B.free blocks.old Segment ≤ B.free blocks.new Segment
        + replaced_leaves (B.geometry blocks.old) (length given.now)) }
    ensures spent { OnOk result (IsSpent (B.geometry blocks.old).fan
        (replaced_leaves (B.geometry blocks.old) (length given.now)) level (B.free blocks.old Page)
        (B.free blocks.new Page) (length run.now)) }
    ensures grew { IfOk result (λ made. B.tells blocks.old → (l : ℕ) → level ≡ l
        → Holds B.Ground blocks.old l run.now
        → Grew B.Ground blocks.old blocks.new l run.now made.items
        (replaced (row_bytes (B.unit blocks.old) l run.now) pos given.now)
        (row_shape (B.unit blocks.old) l run.now)) }
    ensures way { OnOk result (B.tells blocks.old → (byte : ℕ) → pos ≤ byte
        → byte < pos + length given.now
        → IsSoundWay (B.geometry blocks.old)
        (B.unit blocks.old) AnyPage level least run.now byte byte) }
    ensures ends { OnOk result (B.tells blocks.old → (end : ℕ) → (end ≡ pos)
        ⊎ (end ≡ pos + length given.now)
        → IsSoundEnd (B.geometry blocks.old) (B.unit blocks.old) level least run.now end) }
    ensures fault { IfErr result (λ fault. B.tells blocks.old
        → IsWalkFault (B.geometry blocks.old) (B.unit blocks.old) level least run.now fault) }
    ensures leads { B.leads blocks.old blocks.new }
    ensures cause { HasCause (B.faults blocks.old) (B.faults blocks.new) result }
{
    if level == 0 {
        return replace_leaves(blocks, alloc, buffer, run, pos, given);
    }
    let geometry = blocks.geometry();
    let below = row_below(blocks, alloc, level, least, run)?;
    let span = span_of(&below.row, pos, given.len() as u64);
    let touched = piece(&below.row, span.first, span.end - span.first);
    let made = replace_run(
        blocks,
        alloc,
        buffer,
        level - 1,
        geometry.fan,
        touched,
        span.at,
        given,
    )?;
    let row = spliced(alloc, &below.row, span.first, span.end, &made)?;
    let page = &mut buffer[..geometry.page_size as usize];
    nodes_by(blocks, alloc, page, level, &row, &below.lens)
}

/// Puts other bytes over those from a position on, as many as they are, and gives the new root. The old one still spells its bytes. Faults are the
/// port's own, or tell of a page that isn't what names it. After a fault, units that were taken stay taken.
pub fn replace<B: Blocks>(
    blocks: &mut B,
    alloc: Global,
    root: &Root,
    pos: u64,
    given: &[u8],
) -> Result<Root, PortFault>
    requires ready { B.ready blocks.old }
    requires root { IsRootFor (B.geometry blocks.old) root.now }
    requires range { pos + length given.now ≤ root.now.size }
    requires leaves { 1 ≤ length given.now → replace_need (B.geometry blocks.old)
        (length given.now) root.now.height Segment ≤ B.free blocks.old Segment }
    requires pages { 1 ≤ length given.now → replace_need (B.geometry blocks.old)
        (length given.now) root.now.height Page ≤ B.free blocks.old Page }
    ensures nothing { length given.now ≡ 0 → (result ≡ Ok root.now) × (blocks.new ≡ blocks.old) }
    ensures size { IfOk result (λ made. made.size ≡ root.now.size) }
    ensures extends { OnOk result (Extends B.Ground blocks.old blocks.new) }
    ensures old { OnOk result (B.tells blocks.old → (bytes : List ℕ)
        → RootSpells (B.geometry blocks.old) (B.unit blocks.old) root.now bytes
        → AreUsed (B.used blocks.old) (root_units (B.unit blocks.old) root.now)
        → RootSpells (B.geometry blocks.new) (B.unit blocks.new) root.now bytes) }
    ensures spells { IfOk result (λ made. B.tells blocks.old → (bytes : List ℕ)
        → RootSpells (B.geometry blocks.old) (B.unit blocks.old) root.now bytes
        → AreUsed (B.used blocks.old) (root_units (B.unit blocks.old) root.now)
        → RootSpells (B.geometry blocks.new) (B.unit blocks.new) made
        (replaced bytes pos given.now)) }
    ensures shape { IfOk result (λ made. B.tells blocks.old → (bytes : List ℕ)
        → RootSpells (B.geometry blocks.old) (B.unit blocks.old) root.now bytes
        → AreUsed (B.used blocks.old) (root_units (B.unit blocks.old) root.now)
        → root_shape (B.unit blocks.new) made ≡ root_shape (B.unit blocks.old) root.now) }
    ensures units { IfOk result (λ made. B.tells blocks.old → (bytes : List ℕ)
        → RootSpells (B.geometry blocks.old) (B.unit blocks.old) root.now bytes
        → AreUsed (B.used blocks.old) (root_units (B.unit blocks.old) root.now)
        → Turned B.Ground blocks.old blocks.new (root_units (B.unit blocks.old) root.now)
        (root_units (B.unit blocks.new) made)) }
    ensures leaves { OnOk result (B.free blocks.old Segment ≤ B.free blocks.new Segment
        + replace_need (B.geometry blocks.old) (length given.now) root.now.height Segment) }
    ensures pages { OnOk result (B.free blocks.old Page ≤ B.free blocks.new Page
        + replace_need (B.geometry blocks.old) (length given.now) root.now.height Page) }
    ensures way { OnOk result (B.tells blocks.old → (byte : ℕ) → pos ≤ byte
        → byte < pos + length given.now
        → IsSoundRoot (B.geometry blocks.old) (B.unit blocks.old) AnyPage root.now byte byte) }
    ensures ends { OnOk result (B.tells blocks.old → 1 ≤ length given.now → (end : ℕ) → (end ≡ pos)
        ⊎ (end ≡ pos + length given.now)
        → IsSoundEnd (B.geometry blocks.old) (B.unit blocks.old) root.now.height 2
        (root_row root.now) end) }
    ensures fault { IfErr result (λ fault. B.tells blocks.old
        → IsRootFault (B.geometry blocks.old) (B.unit blocks.old) root.now fault) }
    ensures sound { IfErr result (λ fault. B.tells blocks.old
        → IsWhole (B.geometry blocks.old) (B.unit blocks.old) root.now → IsDamage fault → ⊥) }
    ensures leads { B.leads blocks.old blocks.new }
    ensures cause { HasCause (B.faults blocks.old) (B.faults blocks.new) result }
{
    if given.is_empty() {
        return Ok(*root);
    }
    let Some(page) = root.page else {
        return Ok(*root);
    };
    let tree = Part {
        size: root.size,
        page,
    };
    let buffer_len = blocks.geometry().leaf_bytes() as usize;
    let mut buffer = vec![in alloc; 0u8; buffer_len]?;
    let made = replace_run(
        blocks,
        alloc,
        &mut buffer,
        root.height,
        ROOT_LEAST,
        &[tree],
        pos,
        given,
    )?;
    Ok(Root {
        height: root.height,
        page: Some(made[0].page),
        size: root.size,
    })
}
