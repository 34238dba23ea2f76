//! The record of a large version, with another root.
ghost use Rattle.std.specs.Prelude.{◌≡◌, ◌≤◌, ℕ, [], List, length, false, IfErr, OnOk, IsTrue};
ghost use Rattle.ex_base.specs.declared.names.Index.{Index};
ghost use Rattle.ex_base.specs.Fields.{IsPageField};
ghost use Rattle.ex_base.specs.Ports.{HasCause, IsDamage};
ghost use Rattle.file_bodies.specs.Files.{HasBody};
ghost use Rattle.file_index.specs.Touches.{TouchesAtMost};
ghost use Rattle.object_records.specs.Record.{IsRecord};
ghost use Rattle.object_records.specs.Reads.{small_record, large_record};
ghost use Rattle.trees.specs.Roots.{IsRootFor};
ghost use Rattle.versions.specs.Put.{IsPlaced, PutsRecord};

use ex_base::{Geometry, Place, PortFault, Root, Volume};
use file_bodies::change_body;
use object_records::{Head, LARGE_LEN, write_large};
use std::alloc::Global;
use trees::is_root_for;
use versions::check;

/// Whether a root may stand in a record.
fn may_stand(geometry: &Geometry, root: &Root) -> bool
    ensures yes { IsTrue result → IsRootFor geometry.now root.now × IsPageField root.now.page }
    ensures never { result ≡ false → IsRootFor geometry.now root.now → IsPlaced root.now.page → ⊥ }
{
    let is_placed = match root.page {
        None => true,
        Some(page) => page.0 > 0,
    };
    is_placed && is_root_for(geometry, root)
}

/// Writes the record of a large version in its place, with this root. Damage is told of the place where no record of such a length stands there, or where the
/// root breaks a limit.
pub(crate) fn put_root<V: Volume>(
    volume: &mut V,
    alloc: Global,
    place: Place,
    head: &Head,
    root: &Root,
) -> Result<(), PortFault>
    requires ready { V.ready volume.old }
    requires head { IsRecord (small_record head.now []) }
    ensures put { OnOk result (V.tells volume.old → (index : Index) (was : List ℕ)
        → HasBody V.Ground volume.old index place was
        → PutsRecord V.Ground volume.old volume.new index place was
        (large_record head.now root.now)) }
    ensures sound { IfErr result (λ fault. IsDamage fault → V.tells volume.old
        → (index : Index) (was : List ℕ) → HasBody V.Ground volume.old index place was
        → 36 ≤ length was
        → IsRootFor (V.geometry volume.old) root.now → IsPlaced root.now.page → ⊥) }
    ensures touches { OnOk result (TouchesAtMost V.Ground volume.old volume.new 1) }
    ensures leads { V.leads volume.old volume.new }
    ensures cause { HasCause (V.faults volume.old) (V.faults volume.new) result }
{
    let geometry = volume.geometry();
    check(may_stand(&geometry, root), place)?;
    let mut body = [0u8; LARGE_LEN];
    write_large(head, root, &mut body);
    let done = change_body(volume, alloc, place, &body)?;
    check(done, place)
}
