// Deletes of whole trees.
ghost use Rattle.std.specs.Prelude.{◌≡◌, IfErr, ℕ, List, ◌≤◌, ◌<◌, ◌+◌, ◌-◌, ◌*◌, ◌∷◌, [], IfOk, OnOk, Ok, ◌⊎◌};
ghost use Rattle.ex_base.specs.Edits.{deleted};
ghost use Rattle.ex_base.specs.Needs.{delete_need};
ghost use Rattle.ex_base.specs.Ports.{HasCause, IsDamage};
ghost use Rattle.ex_base.specs.Sizes.{leaf_bytes, object_most};
ghost use Rattle.ex_base.specs.declared.names.Area.TheVariants.{Page, Segment};
ghost use Rattle.trees.specs.Trees.{RootSpells, root_units};
ghost use Rattle.trees.specs.Damage.{IsWalkFault, IsRootFault, IsWhole, IsSoundEnd, root_row};
ghost use Rattle.trees.specs.Made.{Extends, AreUsed};
ghost use Rattle.trees.specs.Grown.{Turned};
ghost use Rattle.trees.specs.Roots.{IsRootFor};
ghost use Rattle.tree_delete.specs.Beside.{IsSoundBeside};
ghost use Rattle.tree_delete.specs.Trees.{IsCutTree, TreeSpells};

use crate::cut::{Cut, joined};
use crate::rows::cut_tree;
use ex_base::{Blocks, PortFault, ROOT_LEAST, Root};
use std::alloc::Global;
use trees::{Part, rooted};

/// A tree without some of its bytes.
fn without<B: Blocks>(
    blocks: &mut B,
    alloc: Global,
    height: u8,
    tree: Part,
    pos: u64,
    len: u64,
) -> Result<Root, PortFault>
    requires ready { B.ready blocks.old }
    requires low { height ≤ 64 }
    requires range { pos + len ≤ tree.size }
    requires rest { len < tree.size }
    requires limit { tree.size ≤ object_most }
    requires leaf { height ≡ 0 → tree.size ≤ leaf_bytes (B.geometry blocks.old) }
    requires leaves { delete_need height Segment ≤ B.free blocks.old Segment }
    requires pages { delete_need height Page ≤ B.free blocks.old Page }
    ensures size { IfOk result (λ made. made.size + len ≡ tree.size) }
    ensures extends { OnOk result (Extends B.Ground blocks.old blocks.new) }
    ensures edited { IfOk result (λ made. B.tells blocks.old → (l : ℕ) → height ≡ l
        → TreeSpells B.Ground blocks.old l tree
        → IsCutTree B.Ground blocks.old blocks.new l tree pos len made) }
    ensures way { OnOk result (B.tells blocks.old → (end : ℕ) → (end ≡ pos) ⊎ (end ≡ pos + len)
        → IsSoundEnd (B.geometry blocks.old) (B.unit blocks.old) height 2 (tree ∷ []) end) }
    ensures beside { OnOk result (B.tells blocks.old
        → IsSoundBeside (B.geometry blocks.old) (B.unit blocks.old) height 2 [] (tree
        ∷ []) [] pos len) }
    ensures fault { IfErr result (λ fault. B.tells blocks.old
        → IsWalkFault (B.geometry blocks.old) (B.unit blocks.old) height 2 (tree ∷ []) fault) }
    ensures leaves { OnOk result (B.free blocks.old Segment ≤ B.free blocks.new Segment
        + delete_need height Segment) }
    ensures pages { OnOk result (B.free blocks.old Page ≤ B.free blocks.new Page
        + delete_need height Page) }
    ensures leads { B.leads blocks.old blocks.new }
    ensures cause { HasCause (B.faults blocks.old) (B.faults blocks.new) result }
{
    let geometry = blocks.geometry();
    let mut buffer = vec![in alloc; 0u8; geometry.leaf_bytes() as usize]?;
    let cut = Cut {
        left: Vec::new(alloc),
        run: joined(alloc, &[tree], &[], &[])?,
        right: Vec::new(alloc),
        at: pos,
        len,
    };
    let (level, row) = cut_tree(blocks, alloc, &mut buffer, height, ROOT_LEAST, cut)?;
    let page = &mut buffer[..geometry.page_size as usize];
    rooted(blocks, alloc, page, level, &row)
}

/// Takes bytes from a position on away from those that a root spells, and gives the new root. The old one still spells its bytes. Faults are the port's
/// own, or tell of a page that isn't what names it. After a fault, units that were taken stay taken.
pub fn delete<B: Blocks>(
    blocks: &mut B,
    alloc: Global,
    root: &Root,
    pos: u64,
    len: u64,
) -> Result<Root, PortFault>
    requires ready { B.ready blocks.old }
    requires root { IsRootFor (B.geometry blocks.old) root.now }
    requires range { pos + len ≤ root.now.size }
    requires leaves { 1 ≤ len → delete_need root.now.height Segment ≤ B.free blocks.old Segment }
    requires pages { 1 ≤ len → delete_need root.now.height Page ≤ B.free blocks.old Page }
    ensures nothing { len ≡ 0 → (result ≡ Ok root.now) × (blocks.new ≡ blocks.old) }
    ensures size { IfOk result (λ made. made.size + len ≡ root.now.size) }
    ensures extends { OnOk result (Extends B.Ground blocks.old blocks.new) }
    ensures old { OnOk result (B.tells blocks.old → (bytes : List ℕ)
        → RootSpells (B.geometry blocks.old) (B.unit blocks.old) root.now bytes
        → AreUsed (B.used blocks.old) (root_units (B.unit blocks.old) root.now)
        → RootSpells (B.geometry blocks.new) (B.unit blocks.new) root.now bytes) }
    ensures spells { IfOk result (λ made. B.tells blocks.old → (bytes : List ℕ)
        → RootSpells (B.geometry blocks.old) (B.unit blocks.old) root.now bytes
        → AreUsed (B.used blocks.old) (root_units (B.unit blocks.old) root.now)
        → RootSpells (B.geometry blocks.new) (B.unit blocks.new) made (deleted bytes pos len)) }
    ensures units { IfOk result (λ made. B.tells blocks.old → (bytes : List ℕ)
        → RootSpells (B.geometry blocks.old) (B.unit blocks.old) root.now bytes
        → AreUsed (B.used blocks.old) (root_units (B.unit blocks.old) root.now)
        → Turned B.Ground blocks.old blocks.new (root_units (B.unit blocks.old) root.now)
        (root_units (B.unit blocks.new) made)) }
    ensures leaves { OnOk result (B.free blocks.old Segment ≤ B.free blocks.new Segment
        + delete_need root.now.height Segment) }
    ensures pages { OnOk result (B.free blocks.old Page ≤ B.free blocks.new Page
        + delete_need root.now.height Page) }
    ensures way { OnOk result (B.tells blocks.old → 1 ≤ len → len < root.now.size → (end : ℕ)
        → (end ≡ pos) ⊎ (end ≡ pos + len)
        → IsSoundEnd (B.geometry blocks.old) (B.unit blocks.old) root.now.height 2
        (root_row root.now) end) }
    ensures beside { OnOk result (B.tells blocks.old → 1 ≤ len → len < root.now.size
        → IsSoundBeside (B.geometry blocks.old) (B.unit blocks.old) root.now.height 2 []
        (root_row root.now) [] pos len) }
    ensures fault { IfErr result (λ fault. B.tells blocks.old
        → IsRootFault (B.geometry blocks.old) (B.unit blocks.old) root.now fault) }
    ensures sound { IfErr result (λ fault. B.tells blocks.old
        → IsWhole (B.geometry blocks.old) (B.unit blocks.old) root.now → IsDamage fault → ⊥) }
    ensures leads { B.leads blocks.old blocks.new }
    ensures cause { HasCause (B.faults blocks.old) (B.faults blocks.new) result }
{
    if len == 0 {
        return Ok(*root);
    }
    let Some(page) = root.page else {
        return Ok(Root::EMPTY);
    };
    if len == root.size {
        return Ok(Root::EMPTY);
    }
    let tree = Part {
        size: root.size,
        page,
    };
    without(blocks, alloc, root.height, tree, pos, len)
}
