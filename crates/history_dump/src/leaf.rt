//! The item of a leaf, as it is read.
ghost use Rattle.std.specs.Prelude.{◌≡◌, ◌≤◌, ◌<◌, ℕ, List, length, take, IfOk, IfErr};
ghost use Rattle.ex_base.specs.Ports.{Keeps, HasCause, IsDamage};
ghost use Rattle.history_items.specs.Gathering.{item_most};
ghost use Rattle.history_model.specs.Stream.{leaf_item};
ghost use Rattle.history_dump.specs.Items.{IsPlannedLeaf};

use ex_base::{PortFault, ReadVolume};
use history_items::{LEAF_HEAD, write_leaf_len};
use history_plans::PlannedLeaf;
use std::alloc::Global;
use trees::no_leaf;

/// Reads a leaf and makes its item over the first bytes; it answers how many they are.
pub(crate) fn put_leaf<V: ReadVolume>(
    volume: &mut V,
    alloc: Global,
    leaf: PlannedLeaf,
    out: &mut [u8],
) -> Result<usize, PortFault>
    requires ready { V.ready volume.old }
    requires room { item_most (V.geometry volume.old) ≤ length out.old }
    ensures item { IfOk result (λ n. V.tells volume.old → (bytes : List ℕ)
        → IsPlannedLeaf V.Ground volume.old (leaf.unit.0, leaf.len) bytes
        → take n out.new ≡ leaf_item bytes) }
    ensures some { IfOk result (λ n. 0 < n) }
    ensures inside { IfOk result (λ n. n ≤ length out.old) }
    ensures sound { IfErr result (λ fault. IsDamage fault → V.tells volume.old → (bytes : List ℕ)
        → IsPlannedLeaf V.Ground volume.old (leaf.unit.0, leaf.len) bytes → ⊥) }
    ensures kept { Keeps V.Ground volume.old volume.new }
    ensures cause { HasCause (V.faults volume.old) (V.faults volume.new) result }
{
    let geometry = volume.geometry();
    if !geometry.names_leaf(leaf.unit) || leaf.len > geometry.leaf_bytes() {
        return Err(no_leaf(leaf.unit));
    }
    let end = LEAF_HEAD + leaf.len as usize;
    volume.leaf_into(alloc, leaf.unit, 0, &mut out[LEAF_HEAD..end])?;
    write_leaf_len(&mut out[..end]);
    Ok(end)
}
