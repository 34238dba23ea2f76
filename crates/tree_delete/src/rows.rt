// Cutting a row: down the one or two paths at the ends of the range, and new leaves and nodes on the way back.
ghost use Rattle.std.specs.Prelude.{◌≡◌, IfErr, ℕ, ◌≤◌, ◌<◌, ◌+◌, ◌-◌, ◌*◌, ◌^◌, length, IfOk, OnOk};
ghost use Rattle.trees.specs.Split.{most_pairs};
ghost use Rattle.ex_base.specs.Ports.{HasCause};
ghost use Rattle.ex_base.specs.Sizes.{leaf_bytes};
ghost use Rattle.ex_base.specs.declared.names.Area.TheVariants.{Page, Segment};
ghost use Rattle.trees.specs.Damage.{IsWalkFault};
ghost use Rattle.trees.specs.Rows.{row_size, row_shape, row_units};
ghost use Rattle.trees.specs.Made.{Extends, Holds};
ghost use Rattle.trees.specs.Built.{AreSome};
ghost use Rattle.tree_delete.specs.Beside.{OpensSound};
ghost use Rattle.tree_delete.specs.Cuts.{all_of, sides, cut_bytes, IsCutAt, AreHalves, HaveHalves, HasSoundEnds};
ghost use Rattle.tree_delete.specs.Left.{IsLeftOf, IsLeft, AreRootLeaves, IsTrimmed};

use crate::cut::{Cut, joined};
use crate::leaves::cut_leaves;
use crate::nodes::{Opened, cut_below, open};
use ex_base::{Blocks, PortFault};
use std::alloc::Global;
use trees::{Part, nodes_over};

/// What a cut leaves of a row of trees of a level.
fn cut_row<B: Blocks>(
    blocks: &mut B,
    alloc: Global,
    buffer: &mut [u8],
    level: u8,
    cut: Cut,
) -> Result<Vec<Part>, PortFault>
    requires ready { B.ready blocks.old }
    requires buffer { length buffer.old ≡ leaf_bytes (B.geometry blocks.old) }
    requires cut_at { IsCutAt (B.geometry blocks.old) level cut }
    requires sides { 1 ≤ level → 1 ≤ sides cut }
    requires free { 4 ≤ B.free blocks.old Segment }
    requires pages { 4 * level ≤ B.free blocks.old Page }
    ensures extends { OnOk result (Extends B.Ground blocks.old blocks.new) }
    ensures left_of { IfOk result (λ made. IsLeftOf cut made.items) }
    ensures roots { IfOk result (λ made. level ≡ 0 → sides cut ≡ 0
        → AreRootLeaves (leaf_bytes (B.geometry blocks.old)) made.items) }
    ensures leaves { OnOk result (B.free blocks.old Segment ≤ B.free blocks.new Segment + 4) }
    ensures pages { OnOk result (B.free blocks.old Page ≤ B.free blocks.new Page + 4 * level) }
    ensures left { IfOk result (λ made. B.tells blocks.old → (l : ℕ) → level ≡ l
        → Holds B.Ground blocks.old l (all_of cut)
        → IsLeft B.Ground blocks.old blocks.new l cut made.items) }
    ensures way { OnOk result (B.tells blocks.old → (least : ℕ)
        → (1 ≤ level → least ≡ (B.geometry blocks.old).fan)
        → HasSoundEnds (B.geometry blocks.old) (B.unit blocks.old) level least cut) }
    ensures beside { OnOk result (B.tells blocks.old → (least : ℕ)
        → (1 ≤ level → least ≡ (B.geometry blocks.old).fan)
        → OpensSound (B.geometry blocks.old) (B.unit blocks.old) level least cut) }
    ensures fault { IfErr result (λ fault. B.tells blocks.old → (least : ℕ)
        → (1 ≤ level → least ≡ (B.geometry blocks.old).fan)
        → IsWalkFault (B.geometry blocks.old) (B.unit blocks.old) level least (all_of cut) fault) }
    ensures leads { B.leads blocks.old blocks.new }
    ensures cause { HasCause (B.faults blocks.old) (B.faults blocks.new) result }
{
    if level == 0 {
        return cut_leaves(blocks, alloc, buffer, cut);
    }
    if cut.run.is_empty() {
        return Ok(joined(alloc, &cut.left, &[], &cut.right)?);
    }
    let geometry = blocks.geometry();
    let Opened { left, below, right } = open(blocks, alloc, level, cut)?;
    let kept = cut_row(blocks, alloc, buffer, level - 1, below)?;
    let page = &mut buffer[..geometry.page_size as usize];
    let made = nodes_over(blocks, alloc, page, level, &kept)?;
    Ok(joined(alloc, &left, &made, &right)?)
}

/// What a cut leaves of a row of trees, or of a row below it, where nothing else is left: the row and its level.
pub(crate) fn cut_tree<B: Blocks>(
    blocks: &mut B,
    alloc: Global,
    buffer: &mut [u8],
    level: u8,
    least: u32,
    cut: Cut,
) -> Result<(u8, Vec<Part>), PortFault>
    requires ready { B.ready blocks.old }
    requires buffer { length buffer.old ≡ leaf_bytes (B.geometry blocks.old) }
    requires cut_at { IsCutAt (B.geometry blocks.old) level cut }
    requires least { 1 ≤ sides cut → least ≡ (B.geometry blocks.old).fan }
    requires few { length (all_of cut) ≤ 2 * most_pairs (B.geometry blocks.old).fan }
    requires free { 4 ≤ B.free blocks.old Segment }
    requires pages { 4 * level ≤ B.free blocks.old Page }
    ensures extends { OnOk result (Extends B.Ground blocks.old blocks.new) }
    ensures low { IfOk result (λ made. made.0 ≤ level) }
    ensures sum { IfOk result (λ made. row_size made.1.items + cut.len ≡ row_size (all_of cut)) }
    ensures sizes { IfOk result (λ made. AreSome made.1.items) }
    ensures few { IfOk result (λ made. length made.1.items
        ≤ 2 * most_pairs (B.geometry blocks.old).fan + 4) }
    ensures leaves { OnOk result (B.free blocks.old Segment ≤ B.free blocks.new Segment + 4) }
    ensures pages { OnOk result (B.free blocks.old Page ≤ B.free blocks.new Page + 4 * level) }
    ensures trimmed { IfOk result (λ made. B.tells blocks.old → (l : ℕ) → level ≡ l
        → Holds B.Ground blocks.old l (all_of cut)
        → (1 ≤ sides cut → AreHalves (B.geometry blocks.old) l (row_shape (B.unit blocks.old) l
        (all_of cut)))
        → HaveHalves (B.geometry blocks.old) l (row_shape (B.unit blocks.old) l cut.run.items)
        → (m : ℕ) → made.0 ≡ m → IsTrimmed B.Ground blocks.old blocks.new
        (row_units (B.unit blocks.old) l (all_of cut))
        (cut_bytes (B.unit blocks.old) l cut) m made.1.items) }
    ensures way { OnOk result (B.tells blocks.old
        → HasSoundEnds (B.geometry blocks.old) (B.unit blocks.old) level least cut) }
    ensures beside { OnOk result (B.tells blocks.old
        → OpensSound (B.geometry blocks.old) (B.unit blocks.old) level least cut) }
    ensures fault { IfErr result (λ fault. B.tells blocks.old
        → IsWalkFault (B.geometry blocks.old) (B.unit blocks.old) level least (all_of cut) fault) }
    ensures leads { B.leads blocks.old blocks.new }
    ensures cause { HasCause (B.faults blocks.old) (B.faults blocks.new) result }
{
    if level == 0 || !cut.left.is_empty() || !cut.right.is_empty() {
        let row = cut_row(blocks, alloc, buffer, level, cut)?;
        return Ok((level, row));
    }
    let below = cut_below(blocks, alloc, level, least, &cut)?;
    let fan = blocks.geometry().fan;
    cut_tree(blocks, alloc, buffer, level - 1, fan, below)
}
