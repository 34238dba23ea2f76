// New roots.
ghost use Rattle.std.specs.Prelude.{◌≡◌, ℕ, ◌≤◌, ◌<◌, ◌+◌, ◌-◌, ◌*◌, ◌^◌, length, OnOk, IfOk, IfErr};
ghost use Rattle.ex_base.specs.Ports.{HasCause, IsDamage};
ghost use Rattle.ex_base.specs.Sizes.{object_most};
ghost use Rattle.ex_base.specs.declared.names.Area.TheVariants.{Page, Segment};
ghost use Rattle.trees.specs.Rows.{row_size};
ghost use Rattle.trees.specs.Made.{Extends, Holds};
ghost use Rattle.trees.specs.Built.{AreSome};
ghost use Rattle.trees.specs.Grown.{IsRooted};

use crate::nodes::nodes_over;
use crate::rows::Part;
use ex_base::{Blocks, PortFault, Root};
use std::alloc::Global;

/// New roots over a row, one level after the other, until one tree is left.
pub fn rooted<B: Blocks>(
    blocks: &mut B,
    alloc: Global,
    node: &mut [u8],
    level: u8,
    row: &[Part],
) -> Result<Root, PortFault>
    requires ready { B.ready blocks.old }
    requires buffer { length node.old ≡ (B.geometry blocks.old).page_size }
    requires some { 1 ≤ length row.now }
    requires sizes { AreSome row.now }
    requires count { length row.now < 2 ^ 32 }
    requires limit { row_size row.now ≤ object_most }
    requires rise { length row.now ≤ 2 ^ (255 - level) }
    requires free { 2 ≤ length row.now → length row.now + (B.geometry blocks.old).fan
        ≤ (B.geometry blocks.old).fan * B.free blocks.old Page + 2 }
    ensures extends { OnOk result (Extends B.Ground blocks.old blocks.new) }
    ensures size { IfOk result (λ root. root.size ≡ row_size row.now) }
    ensures rooted { IfOk result (λ root. B.tells blocks.old → (l : ℕ) → level ≡ l
        → Holds B.Ground blocks.old l row.now
        → IsRooted B.Ground blocks.old blocks.new l row.now root) }
    ensures leaves { OnOk result (B.free blocks.new Segment ≡ B.free blocks.old Segment) }
    ensures lone { OnOk result (length row.now ≡ 1
        → B.free blocks.new Page ≡ B.free blocks.old Page) }
    ensures pages { OnOk result (2 ≤ length row.now
        → (B.geometry blocks.old).fan * B.free blocks.old Page + 2 ≤ length row.now
        + (B.geometry blocks.old).fan + (B.geometry blocks.old).fan * B.free blocks.new Page) }
    ensures no_damage { IfErr result (λ fault. IsDamage fault → ⊥) }
    ensures leads { B.leads blocks.old blocks.new }
    ensures cause { HasCause (B.faults blocks.old) (B.faults blocks.new) result }
{
    if row.len() == 1 {
        let tree = row[0];
        return Ok(Root {
            height: level,
            page: Some(tree.page),
            size: tree.size,
        });
    }
    let above = nodes_over(blocks, alloc, node, level + 1, row)?;
    rooted(blocks, alloc, node, level + 1, &above)
}
