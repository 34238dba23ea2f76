// Leaves that are moved.
ghost use Rattle.std.specs.Prelude.{length, ◌≡◌, ◌∷◌, [], ◌≤◌, ℕ, List, IfOk, IfErr, OnOk};
ghost use Rattle.ex_base.specs.Area.{NamesLeaf};
ghost use Rattle.ex_base.specs.Ports.{HasCause, IsDamage};
ghost use Rattle.ex_base.specs.Sizes.{leaf_bytes};
ghost use Rattle.ex_base.specs.declared.names.Area.TheVariants.{Segment};
ghost use Rattle.trees.specs.Made.{Extends};
ghost use Rattle.trees.specs.declared.rows.Part.{Part};
ghost use Rattle.compact.specs.High.{is_high};
ghost use Rattle.compact.specs.Moves.{copies_of};
ghost use Rattle.compact.specs.Moved.{KeepsCopies};
ghost use Rattle.compact.specs.Walk.{Move, CanMove, TreeMoved, LeafCopied};

use crate::moves::Moves;
use ex_base::{Area, Blocks, Geometry, PageNo, PortFault};
use std::alloc::Global;
use trees::no_leaf;

/// Whether a unit isn't one of the lowest `dense` ones of the segment area.
pub(crate) fn is_high(geometry: &Geometry, dense: u32, page: PageNo) -> bool
    ensures { result ≡ is_high geometry.now dense page.0 }
{
    let first = u64::from(PageNo::CATALOG.0) + u64::from(geometry.pages);
    first + u64::from(dense) * u64::from(geometry.seg_len) <= u64::from(page.0)
}

/// A copy of a leaf in the lowest free unit, in all its bytes. The buffer holds a leaf.
fn copy_leaf<B: Blocks>(
    blocks: &mut B,
    alloc: Global,
    buffer: &mut [u8],
    page: PageNo,
) -> Result<PageNo, PortFault>
    requires ready { B.ready blocks.old }
    requires buffer { length buffer.old ≡ leaf_bytes (B.geometry blocks.old) }
    ensures extends { OnOk result (Extends B.Ground blocks.old blocks.new) }
    ensures copied { IfOk result
        (λ copy. LeafCopied B.Ground blocks.old blocks.new page.0 copy.0) }
    ensures sound { IfErr result (λ fault. NamesLeaf (B.geometry blocks.old) page.0
        → 1 ≤ B.free blocks.old Segment → IsDamage fault → ⊥) }
    ensures buffer { length buffer.new ≡ length buffer.old }
    ensures leads { B.leads blocks.old blocks.new }
    ensures cause { HasCause (B.faults blocks.old) (B.faults blocks.new) result }
{
    if !blocks.geometry().names_leaf(page) || blocks.free(Area::Segment) == 0 {
        return Err(no_leaf(page));
    }
    blocks.leaf_into(alloc, page, 0, buffer)?;
    blocks.new_leaf(buffer)
}

/// The copy of a leaf in a low unit. A leaf that is low stays.
pub(crate) fn move_leaf<B: Blocks>(
    blocks: &mut B,
    alloc: Global,
    buffer: &mut [u8],
    page: PageNo,
    dense: u32,
    moves: &mut Moves,
) -> Result<PageNo, PortFault>
    requires ready { B.ready blocks.old }
    requires buffer { length buffer.old ≡ leaf_bytes (B.geometry blocks.old) }
    ensures extends { OnOk result (Extends B.Ground blocks.old blocks.new) }
    ensures moved { IfOk result (λ copy. B.tells blocks.old → (move : Move B) (least : ℕ)
        (part : Part) → part.page ≡ page
        → CanMove B.Ground move dense blocks.old (copies_of moves.old) 0 least (part ∷ [])
        → TreeMoved B.Ground move dense blocks.old blocks.new (copies_of moves.old)
        (copies_of moves.new) 0 page.0 copy.0) }
    ensures sound { IfErr result (λ fault. B.tells blocks.old → (move : Move B) (least : ℕ)
        (part : Part) → part.page ≡ page
        → CanMove B.Ground move dense blocks.old (copies_of moves.old) 0 least (part ∷ [])
        → IsDamage fault → ⊥) }
    ensures keeps { KeepsCopies (copies_of moves.old) (copies_of moves.new) }
    ensures buffer { length buffer.new ≡ length buffer.old }
    ensures leads { B.leads blocks.old blocks.new }
    ensures cause { HasCause (B.faults blocks.old) (B.faults blocks.new) result }
{
    if !is_high(&blocks.geometry(), dense, page) {
        return Ok(page);
    }
    if let Some(copy) = moves.get(page) {
        return Ok(copy);
    }
    let copy = copy_leaf(blocks, alloc, buffer, page)?;
    moves.add(page, copy)?;
    Ok(copy)
}
