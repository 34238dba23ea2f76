// A cut through a row of leaves.
ghost use Rattle.std.specs.Prelude.{◌≡◌, ℕ, IfErr, ◌≤◌, ◌<◌, ◌+◌, ◌-◌, ◌*◌, ◌/◌, ◌^◌, length, IfOk, OnOk};
ghost use Rattle.ex_base.specs.Ports.{HasCause};
ghost use Rattle.ex_base.specs.Sizes.{leaf_bytes, object_most};
ghost use Rattle.ex_base.specs.declared.names.Area.TheVariants.{Page, Segment};
ghost use Rattle.trees.specs.Damage.{IsWalkFault};
ghost use Rattle.trees.specs.Rows.{row_size};
ghost use Rattle.trees.specs.Made.{Extends, Holds};
ghost use Rattle.tree_delete.specs.Cuts.{all_of, sides, IsCutAt, HasSoundEnds};
ghost use Rattle.tree_delete.specs.Beside.{OpensSound, TakesNear};
ghost use Rattle.tree_delete.specs.Leaves.{IsWider, AreEven};
ghost use Rattle.tree_delete.specs.Left.{IsLeftOf, IsLeft, AreRootLeaves};

use crate::cut::{Cut, bytes_of, joined};
use ex_base::{Blocks, PortFault};
use std::alloc::{AllocError, Global};
use trees::{Change, Part, put, write_leaves};

/// The cut with a neighbour among the leaves that are written anew, where what is left of them is less than half a leaf.
fn with_leaf(alloc: Global, cut: Cut, full: u64) -> Result<Cut, AllocError>
    requires inside { cut.len ≤ row_size cut.run.items }
    requires limit { row_size (all_of cut) ≤ object_most }
    requires place { cut.at ≤ object_most }
    ensures wider { IfOk result (λ wider. IsWider full cut wider) }
    ensures near { IfOk result (λ wider. 1 ≤ row_size cut.run.items - cut.len
        → row_size cut.run.items - cut.len < full / 2 → TakesNear cut wider) }
{
    let rest = bytes_of(&cut.run) - cut.len;
    if rest == 0 || full / 2 <= rest {
        return Ok(cut);
    }
    let mut left = cut.left;
    if let Some(near) = left.pop() {
        return Ok(Cut {
            left,
            run: joined(alloc, &[near], &cut.run, &[])?,
            at: cut.at + near.size,
            ..cut
        });
    }
    let mut right = cut.right;
    if right.is_empty() {
        return Ok(Cut { left, right, ..cut });
    }
    let near = right.remove(0);
    Ok(Cut {
        left,
        run: joined(alloc, &cut.run, &[near], &[])?,
        right,
        ..cut
    })
}

/// The lengths of as few leaves as hold so many bytes, at most two, evenly.
fn even_lengths(alloc: Global, total: u64, full: u32) -> Result<Vec<u32>, AllocError>
    requires { total ≤ 2 * full }
    ensures { IfOk result (λ lengths. AreEven full total lengths.items) }
{
    let mut lengths = Vec::new(alloc);
    if total > full as u64 {
        put(&mut lengths, (total - total / 2) as u32)?;
        put(&mut lengths, (total / 2) as u32)?;
    } else if 0 < total {
        put(&mut lengths, total as u32)?;
    }
    Ok(lengths)
}

/// The leaves that a cut leaves of a row of them.
pub(crate) fn cut_leaves<B: Blocks>(
    blocks: &mut B,
    alloc: Global,
    buffer: &mut [u8],
    cut: Cut,
) -> Result<Vec<Part>, PortFault>
    requires ready { B.ready blocks.old }
    requires buffer { length buffer.old ≡ leaf_bytes (B.geometry blocks.old) }
    requires cut_at { IsCutAt (B.geometry blocks.old) 0 cut }
    requires free { 4 ≤ B.free blocks.old Segment }
    ensures extends { OnOk result (Extends B.Ground blocks.old blocks.new) }
    ensures left_of { IfOk result (λ made. IsLeftOf cut made.items) }
    ensures roots { IfOk result (λ made. sides cut ≡ 0
        → AreRootLeaves (leaf_bytes (B.geometry blocks.old)) made.items) }
    ensures leaves { OnOk result (B.free blocks.old Segment ≤ B.free blocks.new Segment + 4) }
    ensures pages { OnOk result (B.free blocks.new Page ≡ B.free blocks.old Page) }
    ensures left { IfOk result (λ made. B.tells blocks.old
        → Holds B.Ground blocks.old 0 (all_of cut)
        → IsLeft B.Ground blocks.old blocks.new 0 cut made.items) }
    ensures way { OnOk result (B.tells blocks.old
        → HasSoundEnds (B.geometry blocks.old) (B.unit blocks.old) 0 0 cut) }
    ensures beside { OnOk result (B.tells blocks.old
        → OpensSound (B.geometry blocks.old) (B.unit blocks.old) 0 0 cut) }
    ensures fault { IfErr result (λ fault. B.tells blocks.old → (least : ℕ)
        → IsWalkFault (B.geometry blocks.old) (B.unit blocks.old) 0 least (all_of cut) fault) }
    ensures leads { B.leads blocks.old blocks.new }
    ensures cause { HasCause (B.faults blocks.old) (B.faults blocks.new) result }
{
    let full = buffer.len() as u32;
    let cut = with_leaf(alloc, cut, full as u64)?;
    let lengths = even_lengths(alloc, bytes_of(&cut.run) - cut.len, full)?;
    let change = Change {
        at: cut.at,
        cut: cut.len,
    };
    let made = write_leaves(blocks, alloc, buffer, &cut.run, change, &[], &lengths)?;
    Ok(joined(alloc, &cut.left, &made, &cut.right)?)
}
