// Appends and inserts of whole trees.
ghost use Rattle.ex_base.specs.Area.{NamesLeaf};
ghost use Rattle.std.specs.Prelude.{◌≡◌, ℕ, List, [], ◌∷◌, ◌≤◌, ◌<◌, ◌+◌, ◌-◌, ◌*◌, ◌^◌, length, OnOk, IfOk, IfErr, Ok};
ghost use Rattle.ex_base.specs.Edits.{inserted, appended};
ghost use Rattle.ex_base.specs.Needs.{growth_leaves, growth_need};
ghost use Rattle.ex_base.specs.Ports.{HasCause, IsDamage};
ghost use Rattle.ex_base.specs.Sizes.{leaf_bytes, object_most};
ghost use Rattle.ex_base.specs.declared.names.Area.TheVariants.{Page, Segment};
ghost use Rattle.trees.specs.Layout.{first_lengths};
ghost use Rattle.trees.specs.Shape.{ins_shape, app_shape};
ghost use Rattle.trees.specs.Trees.{RootSpells, root_shape, root_units, shape_on};
ghost use Rattle.trees.specs.Damage.{IsWalkFault, IsRootFault, IsWhole, IsSoundWay, IsSoundRoot};
ghost use Rattle.trees.specs.Rows.{row_size, row_bytes};
ghost use Rattle.trees.specs.Made.{Extends, Holds, AreUsed};
ghost use Rattle.trees.specs.Built.{AreSome};
ghost use Rattle.tree_insert.specs.Edited.{GrewRoot, IsEdited};
ghost use Rattle.trees.specs.Grown.{Turned, Grew};
ghost use Rattle.tree_insert.specs.Grown.{HasGrown, IsPaid};
ghost use Rattle.tree_insert.specs.Growth.{IsSpot, parts_by};
ghost use Rattle.tree_insert.specs.Need.{counted};
ghost use Rattle.trees.specs.Roots.{IsRootFor};

use crate::grow::{grow_leaves, grow_row};
use crate::layout::{Growth, lengths_of};
use ex_base::{Blocks, PortFault, ROOT_LEAST, Root};
use std::alloc::Global;
use trees::plans::plan_append;
use trees::{Change, Part, nodes_over, rooted, row_of, write_leaves};

/// The leaves of a tree's first bytes.
fn first_leaves<B: Blocks>(
    blocks: &mut B,
    alloc: Global,
    buffer: &mut [u8],
    given: &[u8],
) -> Result<Vec<Part>, PortFault>
    requires ready { B.ready blocks.old }
    requires buffer { length buffer.old ≡ leaf_bytes (B.geometry blocks.old) }
    requires given { 1 ≤ length given.now }
    requires limit { length given.now ≤ object_most }
    requires free { growth_leaves (B.geometry blocks.old)
        (length given.now - (B.geometry blocks.old).page_size) ≤ B.free blocks.old Segment }
    ensures extends { OnOk result (Extends B.Ground blocks.old blocks.new) }
    ensures grown { IfOk result (λ made. HasGrown (length given.now) [] made.items) }
    ensures count { IfOk result (λ made. length made.items ≤ growth_leaves (B.geometry blocks.old)
        (length given.now - (B.geometry blocks.old).page_size)) }
    ensures leaves { OnOk result (B.free blocks.old Segment ≤ B.free blocks.new Segment
        + growth_leaves (B.geometry blocks.old)
        (length given.now - (B.geometry blocks.old).page_size)) }
    ensures pages { OnOk result (B.free blocks.new Page ≡ B.free blocks.old Page) }
    ensures grew { IfOk result (λ made. B.tells blocks.old
        → Grew B.Ground blocks.old blocks.new 0 [] made.items given.now
        (first_lengths (leaf_bytes (B.geometry blocks.old)) (length given.now))) }
    ensures fault { IfErr result (λ fault. B.tells blocks.old
        → IsWalkFault (B.geometry blocks.old) (B.unit blocks.old) 0 0 [] fault) }
    ensures leads { B.leads blocks.old blocks.new }
    ensures cause { HasCause (B.faults blocks.old) (B.faults blocks.new) result }
{
    let cap = buffer.len() as u32;
    let plan = plan_append(None, 0, given.len() as u64, cap);
    let lengths = lengths_of(alloc, &plan, cap)?;
    let change = Change { at: 0, cut: 0 };
    write_leaves(blocks, alloc, buffer, &[], change, given, &lengths)
}

/// The trees in the place of a root's tree, after new bytes at a position.
fn grow_root<B: Blocks>(
    blocks: &mut B,
    alloc: Global,
    buffer: &mut [u8],
    growth: Growth,
    height: u8,
    tree: Part,
    pos: u64,
    given: &[u8],
) -> Result<Vec<Part>, PortFault>
    requires ready { B.ready blocks.old }
    requires buffer { length buffer.old ≡ leaf_bytes (B.geometry blocks.old) }
    requires size { 1 ≤ tree.size }
    requires leaf { height ≡ 0 → tree.size ≤ leaf_bytes (B.geometry blocks.old) }
    requires given { 1 ≤ length given.now }
    requires limit { tree.size + length given.now ≤ object_most }
    requires spot { IsSpot growth pos tree.size }
    requires free { growth_leaves (B.geometry blocks.old) (length given.now)
        ≤ B.free blocks.old Segment }
    requires pages { growth_leaves (B.geometry blocks.old) (length given.now)
        + height * (2 * (B.geometry blocks.old).fan)
        ≤ (B.geometry blocks.old).fan * B.free blocks.old Page }
    ensures extends { OnOk result (Extends B.Ground blocks.old blocks.new) }
    ensures grown { IfOk result (λ made. HasGrown (length given.now) (tree ∷ []) made.items) }
    ensures leaves { OnOk result (B.free blocks.old Segment ≤ B.free blocks.new Segment
        + growth_leaves (B.geometry blocks.old) (length given.now)) }
    ensures paid { IfOk result (λ made. IsPaid (B.geometry blocks.old).fan
        (growth_leaves (B.geometry blocks.old) (length given.now)) height (B.free blocks.old Page)
        (B.free blocks.new Page) 1 (length made.items)) }
    ensures grew { IfOk result (λ made. B.tells blocks.old → (l : ℕ) → height ≡ l
        → Holds B.Ground blocks.old l (tree ∷ [])
        → Grew B.Ground blocks.old blocks.new l (tree
        ∷ []) made.items (inserted (row_bytes (B.unit blocks.old) l (tree ∷ [])) pos given.now)
        (parts_by growth (B.geometry blocks.old).fan (leaf_bytes (B.geometry blocks.old))
        (length given.now) l (shape_on (B.unit blocks.old) l tree.page.0 tree.size) pos)) }
    ensures way { OnOk result (B.tells blocks.old
        → IsSoundWay (B.geometry blocks.old) (B.unit blocks.old)
        (NamesLeaf (B.geometry blocks.old)) height 2 (tree ∷ []) (pos - 1) (pos - 1)) }
    ensures fault { IfErr result (λ fault. B.tells blocks.old
        → IsWalkFault (B.geometry blocks.old) (B.unit blocks.old) height 2 (tree ∷ []) fault) }
    ensures leads { B.leads blocks.old blocks.new }
    ensures cause { HasCause (B.faults blocks.old) (B.faults blocks.new) result }
{
    if height == 0 {
        return grow_leaves(blocks, alloc, buffer, growth, &[tree], pos, given);
    }
    let geometry = blocks.geometry();
    let below = row_of(blocks, alloc, height, tree, ROOT_LEAST)?;
    let grown = grow_row(
        blocks,
        alloc,
        buffer,
        growth,
        height - 1,
        &below,
        pos,
        given,
    )?;
    let page = &mut buffer[..geometry.page_size as usize];
    nodes_over(blocks, alloc, page, height, &grown)
}

/// The trees that come in the place of a root's tree, or the leaves of its first bytes.
fn new_parts<B: Blocks>(
    blocks: &mut B,
    alloc: Global,
    buffer: &mut [u8],
    growth: Growth,
    root: &Root,
    pos: u64,
    given: &[u8],
) -> Result<Vec<Part>, PortFault>
    requires ready { B.ready blocks.old }
    requires buffer { length buffer.old ≡ leaf_bytes (B.geometry blocks.old) }
    requires root { IsRootFor (B.geometry blocks.old) root.now }
    requires given { 1 ≤ length given.now }
    requires limit { root.now.size + length given.now ≤ object_most }
    requires spot { IsSpot growth pos root.now.size }
    requires free { growth_leaves (B.geometry blocks.old)
        (counted (B.geometry blocks.old) root.now.page (length given.now))
        ≤ B.free blocks.old Segment }
    requires pages { growth_leaves (B.geometry blocks.old)
        (counted (B.geometry blocks.old) root.now.page (length given.now))
        + root.now.height * (2 * (B.geometry blocks.old).fan)
        ≤ (B.geometry blocks.old).fan * B.free blocks.old Page }
    ensures extends { OnOk result (Extends B.Ground blocks.old blocks.new) }
    ensures sum { IfOk result (λ made. row_size made.items ≡ root.now.size + length given.now) }
    ensures sizes { IfOk result (λ made. AreSome made.items) }
    ensures some { IfOk result (λ made. 1 ≤ length made.items) }
    ensures leaves { OnOk result (B.free blocks.old Segment ≤ B.free blocks.new Segment
        + growth_leaves (B.geometry blocks.old)
        (counted (B.geometry blocks.old) root.now.page (length given.now))) }
    ensures paid { IfOk result (λ made. (B.geometry blocks.old).fan * B.free blocks.old Page
        + length made.items ≤ growth_leaves (B.geometry blocks.old)
        (counted (B.geometry blocks.old) root.now.page (length given.now))
        + root.now.height * (2 * (B.geometry blocks.old).fan)
        + (B.geometry blocks.old).fan * B.free blocks.new Page) }
    ensures fewer { OnOk result (B.free blocks.new Page ≤ B.free blocks.old Page) }
    ensures grew { IfOk result (λ made. B.tells blocks.old → (bytes : List ℕ)
        → RootSpells (B.geometry blocks.old) (B.unit blocks.old) root.now bytes
        → AreUsed (B.used blocks.old) (root_units (B.unit blocks.old) root.now)
        → (l : ℕ) → root.now.height ≡ l
        → GrewRoot B.Ground blocks.old blocks.new growth l root.now made.items bytes pos given.now) }
    ensures way { OnOk result (B.tells blocks.old
        → IsSoundRoot (B.geometry blocks.old) (B.unit blocks.old)
        (NamesLeaf (B.geometry blocks.old)) root.now (pos - 1) (pos - 1)) }
    ensures fault { IfErr result (λ fault. B.tells blocks.old
        → IsRootFault (B.geometry blocks.old) (B.unit blocks.old) root.now fault) }
    ensures leads { B.leads blocks.old blocks.new }
    ensures cause { HasCause (B.faults blocks.old) (B.faults blocks.new) result }
{
    let Some(page) = root.page else {
        return first_leaves(blocks, alloc, buffer, given);
    };
    let tree = Part {
        size: root.size,
        page,
    };
    grow_root(blocks, alloc, buffer, growth, root.height, tree, pos, given)
}

/// New bytes at a position of those that a root spells.
fn grow<B: Blocks>(
    blocks: &mut B,
    alloc: Global,
    growth: Growth,
    root: &Root,
    pos: u64,
    given: &[u8],
) -> Result<Root, PortFault>
    requires ready { B.ready blocks.old }
    requires root { IsRootFor (B.geometry blocks.old) root.now }
    requires given { 1 ≤ length given.now }
    requires limit { root.now.size + length given.now ≤ object_most }
    requires spot { IsSpot growth pos root.now.size }
    requires leaves { growth_need (B.geometry blocks.old)
        (counted (B.geometry blocks.old) root.now.page (length given.now)) root.now.height Segment
        ≤ B.free blocks.old Segment }
    requires pages { growth_need (B.geometry blocks.old)
        (counted (B.geometry blocks.old) root.now.page (length given.now)) root.now.height Page
        ≤ B.free blocks.old Page }
    ensures extends { OnOk result (Extends B.Ground blocks.old blocks.new) }
    ensures size { IfOk result (λ made. made.size ≡ root.now.size + length given.now) }
    ensures edited { IfOk result (λ made. B.tells blocks.old → (bytes : List ℕ)
        → RootSpells (B.geometry blocks.old) (B.unit blocks.old) root.now bytes
        → AreUsed (B.used blocks.old) (root_units (B.unit blocks.old) root.now)
        → IsEdited B.Ground blocks.old blocks.new growth root.now made bytes pos given.now) }
    ensures leaves { OnOk result (B.free blocks.old Segment ≤ B.free blocks.new Segment
        + growth_need (B.geometry blocks.old)
        (counted (B.geometry blocks.old) root.now.page
        (length given.now)) root.now.height Segment) }
    ensures pages { OnOk result (B.free blocks.old Page ≤ B.free blocks.new Page
        + growth_need (B.geometry blocks.old)
        (counted (B.geometry blocks.old) root.now.page (length given.now)) root.now.height Page) }
    ensures way { OnOk result (B.tells blocks.old
        → IsSoundRoot (B.geometry blocks.old) (B.unit blocks.old)
        (NamesLeaf (B.geometry blocks.old)) root.now (pos - 1) (pos - 1)) }
    ensures fault { IfErr result (λ fault. B.tells blocks.old
        → IsRootFault (B.geometry blocks.old) (B.unit blocks.old) root.now fault) }
    ensures leads { B.leads blocks.old blocks.new }
    ensures cause { HasCause (B.faults blocks.old) (B.faults blocks.new) result }
{
    let geometry = blocks.geometry();
    let mut buffer = vec![in alloc; 0u8; geometry.leaf_bytes() as usize]?;
    let row = new_parts(blocks, alloc, &mut buffer, growth, root, pos, given)?;
    let page = &mut buffer[..geometry.page_size as usize];
    rooted(blocks, alloc, page, root.height, &row)
}

/// Puts bytes behind those that a root spells, and gives the new root. The old one still spells its bytes. Faults are the port's own, or tell of a page
/// that isn't what names it. After a fault, units that were taken stay taken.
pub fn append<B: Blocks>(
    blocks: &mut B,
    alloc: Global,
    root: &Root,
    given: &[u8],
) -> Result<Root, PortFault>
    requires ready { B.ready blocks.old }
    requires root { IsRootFor (B.geometry blocks.old) root.now }
    requires limit { root.now.size + length given.now ≤ object_most }
    requires leaves { 1 ≤ length given.now → growth_need (B.geometry blocks.old)
        (counted (B.geometry blocks.old) root.now.page (length given.now)) root.now.height Segment
        ≤ B.free blocks.old Segment }
    requires pages { 1 ≤ length given.now → growth_need (B.geometry blocks.old)
        (counted (B.geometry blocks.old) root.now.page (length given.now)) root.now.height Page
        ≤ B.free blocks.old Page }
    ensures nothing { length given.now ≡ 0 → (result ≡ Ok root.now) × (blocks.new ≡ blocks.old) }
    ensures size { IfOk result (λ made. made.size ≡ root.now.size + length given.now) }
    ensures extends { OnOk result (Extends B.Ground blocks.old blocks.new) }
    ensures old { OnOk result (B.tells blocks.old → (bytes : List ℕ)
        → RootSpells (B.geometry blocks.old) (B.unit blocks.old) root.now bytes
        → AreUsed (B.used blocks.old) (root_units (B.unit blocks.old) root.now)
        → RootSpells (B.geometry blocks.new) (B.unit blocks.new) root.now bytes) }
    ensures spells { IfOk result (λ made. B.tells blocks.old → (bytes : List ℕ)
        → RootSpells (B.geometry blocks.old) (B.unit blocks.old) root.now bytes
        → AreUsed (B.used blocks.old) (root_units (B.unit blocks.old) root.now)
        → RootSpells (B.geometry blocks.new) (B.unit blocks.new) made (appended bytes given.now)) }
    ensures shape { IfOk result (λ made. B.tells blocks.old → (bytes : List ℕ)
        → RootSpells (B.geometry blocks.old) (B.unit blocks.old) root.now bytes
        → AreUsed (B.used blocks.old) (root_units (B.unit blocks.old) root.now)
        → root_shape (B.unit blocks.new) made
        ≡ app_shape (B.geometry blocks.old).fan (leaf_bytes (B.geometry blocks.old))
        (root_shape (B.unit blocks.old) root.now) (length given.now)) }
    ensures units { IfOk result (λ made. B.tells blocks.old → (bytes : List ℕ)
        → RootSpells (B.geometry blocks.old) (B.unit blocks.old) root.now bytes
        → AreUsed (B.used blocks.old) (root_units (B.unit blocks.old) root.now)
        → Turned B.Ground blocks.old blocks.new (root_units (B.unit blocks.old) root.now)
        (root_units (B.unit blocks.new) made)) }
    ensures leaves { OnOk result (B.free blocks.old Segment ≤ B.free blocks.new Segment
        + growth_need (B.geometry blocks.old)
        (counted (B.geometry blocks.old) root.now.page
        (length given.now)) root.now.height Segment) }
    ensures pages { OnOk result (B.free blocks.old Page ≤ B.free blocks.new Page
        + growth_need (B.geometry blocks.old)
        (counted (B.geometry blocks.old) root.now.page (length given.now)) root.now.height Page) }
    ensures way { OnOk result (B.tells blocks.old → 1 ≤ length given.now
        → IsSoundRoot (B.geometry blocks.old) (B.unit blocks.old)
        (NamesLeaf (B.geometry blocks.old)) root.now (root.now.size - 1) (root.now.size - 1)) }
    ensures fault { IfErr result (λ fault. B.tells blocks.old
        → IsRootFault (B.geometry blocks.old) (B.unit blocks.old) root.now fault) }
    ensures sound { IfErr result (λ fault. B.tells blocks.old
        → IsWhole (B.geometry blocks.old) (B.unit blocks.old) root.now → IsDamage fault → ⊥) }
    ensures leads { B.leads blocks.old blocks.new }
    ensures cause { HasCause (B.faults blocks.old) (B.faults blocks.new) result }
{
    if given.is_empty() {
        return Ok(*root);
    }
    grow(blocks, alloc, Growth::Append, root, root.size, given)
}

/// Puts bytes at a position of those that a root spells, and gives the new root. The old one still spells its bytes. Faults are the port's own, or tell
/// of a page that isn't what names it. After a fault, units that were taken stay taken.
pub fn insert<B: Blocks>(
    blocks: &mut B,
    alloc: Global,
    root: &Root,
    pos: u64,
    given: &[u8],
) -> Result<Root, PortFault>
    requires ready { B.ready blocks.old }
    requires root { IsRootFor (B.geometry blocks.old) root.now }
    requires limit { root.now.size + length given.now ≤ object_most }
    requires pos { pos ≤ root.now.size }
    requires leaves { 1 ≤ length given.now → growth_need (B.geometry blocks.old)
        (length given.now) root.now.height Segment ≤ B.free blocks.old Segment }
    requires pages { 1 ≤ length given.now → growth_need (B.geometry blocks.old)
        (length given.now) root.now.height Page ≤ B.free blocks.old Page }
    ensures nothing { length given.now ≡ 0 → (result ≡ Ok root.now) × (blocks.new ≡ blocks.old) }
    ensures size { IfOk result (λ made. made.size ≡ root.now.size + length given.now) }
    ensures extends { OnOk result (Extends B.Ground blocks.old blocks.new) }
    ensures old { OnOk result (B.tells blocks.old → (bytes : List ℕ)
        → RootSpells (B.geometry blocks.old) (B.unit blocks.old) root.now bytes
        → AreUsed (B.used blocks.old) (root_units (B.unit blocks.old) root.now)
        → RootSpells (B.geometry blocks.new) (B.unit blocks.new) root.now bytes) }
    ensures spells { IfOk result (λ made. B.tells blocks.old → (bytes : List ℕ)
        → RootSpells (B.geometry blocks.old) (B.unit blocks.old) root.now bytes
        → AreUsed (B.used blocks.old) (root_units (B.unit blocks.old) root.now)
        → RootSpells (B.geometry blocks.new) (B.unit blocks.new) made
        (inserted bytes pos given.now)) }
    ensures shape { IfOk result (λ made. B.tells blocks.old → (bytes : List ℕ)
        → RootSpells (B.geometry blocks.old) (B.unit blocks.old) root.now bytes
        → AreUsed (B.used blocks.old) (root_units (B.unit blocks.old) root.now)
        → root_shape (B.unit blocks.new) made
        ≡ ins_shape (B.geometry blocks.old).fan (leaf_bytes (B.geometry blocks.old))
        (root_shape (B.unit blocks.old) root.now) pos (length given.now)) }
    ensures units { IfOk result (λ made. B.tells blocks.old → (bytes : List ℕ)
        → RootSpells (B.geometry blocks.old) (B.unit blocks.old) root.now bytes
        → AreUsed (B.used blocks.old) (root_units (B.unit blocks.old) root.now)
        → Turned B.Ground blocks.old blocks.new (root_units (B.unit blocks.old) root.now)
        (root_units (B.unit blocks.new) made)) }
    ensures leaves { OnOk result (B.free blocks.old Segment ≤ B.free blocks.new Segment
        + growth_need (B.geometry blocks.old) (length given.now) root.now.height Segment) }
    ensures pages { OnOk result (B.free blocks.old Page ≤ B.free blocks.new Page
        + growth_need (B.geometry blocks.old) (length given.now) root.now.height Page) }
    ensures way { OnOk result (B.tells blocks.old → 1 ≤ length given.now
        → IsSoundRoot (B.geometry blocks.old) (B.unit blocks.old)
        (NamesLeaf (B.geometry blocks.old)) root.now (pos - 1) (pos - 1)) }
    ensures fault { IfErr result (λ fault. B.tells blocks.old
        → IsRootFault (B.geometry blocks.old) (B.unit blocks.old) root.now fault) }
    ensures sound { IfErr result (λ fault. B.tells blocks.old
        → IsWhole (B.geometry blocks.old) (B.unit blocks.old) root.now → IsDamage fault → ⊥) }
    ensures leads { B.leads blocks.old blocks.new }
    ensures cause { HasCause (B.faults blocks.old) (B.faults blocks.new) result }
{
    if given.is_empty() {
        return Ok(*root);
    }
    grow(blocks, alloc, Growth::Insert, root, pos, given)
}
