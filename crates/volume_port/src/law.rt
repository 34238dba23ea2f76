//! What a transaction leaves of what is committed.
ghost use Rattle.std.specs.Prelude.{◌≡◌, ℕ, List, Some, IsTrue, Contains};
ghost use Rattle.disk_model.specs.Outside.{Leaves};
ghost use Rattle.op_log.specs.State.{LogState};
ghost use Rattle.page_alloc.specs.UnitSet.{used_at};
ghost use Rattle.volume_model.specs.Committed.{Committed, StandsForVolume};
ghost use Rattle.volume_model.specs.Volume.{Decoded};
ghost use Rattle.volume_port.specs.Stays.{ReachIsOf, StaysUsed, StillCommitted};

use crate::port::VolumePort;
use disk_model::Disk;
use ex_base::Ground;

/// The law of the port: where each unit that the committed volume reaches is used and is none of the units given back, the volume stays committed, with the same log and the same overlay, and a crash at any moment leaves what stands for its table.
pub fn committed_pages_stay<'a, D: Disk>(before: &VolumePort<'a, D>, after: &VolumePort<'a, D>)
    ensures stays { (freed : List ℕ) (d : Decoded) (disk : List ℕ) (log : LogState)
        → ⟦<VolumePort<'a, D> as Ground>⟧.frees (λ unit. Contains freed unit) before.now after.now
        → ⟦<VolumePort<'a, D> as Ground>⟧.ready before.now → d.geometry ≡ before.now.store.geometry
        → IsTrue (D.outside before.now.store.disk.now).honest
        → (D.outside before.now.store.disk.now).disk ≡ Some disk
        → Committed (D.outside before.now.store.disk.now).images d disk log before.now.meta.now.committed
        → ReachIsOf (StaysUsed (λ unit. Contains freed unit)
        (used_at before.now.store.units.now)) d disk
        → (later : List ℕ) × (((D.outside after.now.store.disk.now).disk ≡ Some later)
        × StillCommitted (StaysUsed (λ unit. Contains freed unit)
        (used_at before.now.store.units.now))
        (StaysUsed (λ unit. Contains freed unit)
        (used_at after.now.store.units.now)) d disk
        (D.outside after.now.store.disk.now).images later log after.now.meta.now.committed) }
    ensures meanwhile { (freed : List ℕ) (d : Decoded) (disk : List ℕ) (log : LogState)
        → ⟦<VolumePort<'a, D> as Ground>⟧.frees (λ unit. Contains freed unit) before.now after.now
        → ⟦<VolumePort<'a, D> as Ground>⟧.ready before.now → d.geometry ≡ before.now.store.geometry
        → IsTrue (D.outside before.now.store.disk.now).honest
        → (D.outside before.now.store.disk.now).disk ≡ Some disk
        → Committed (D.outside before.now.store.disk.now).images d disk log before.now.meta.now.committed
        → ReachIsOf (StaysUsed (λ unit. Contains freed unit)
        (used_at before.now.store.units.now)) d disk
        → Leaves (D.outside before.now.store.disk.now) (D.outside after.now.store.disk.now)
        (StandsForVolume d disk) }
{}
