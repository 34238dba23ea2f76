//! The committed images go home, and the log is closed.
ghost use Rattle.std.specs.Prelude.{◌≡◌, ◌≤◌, ◌<◌, ℕ, List, [], All, Some, IsTrue, IsOk, OnOk, OnErr};
ghost use Rattle.ex_base.specs.Sizes.{volume_bytes};
ghost use Rattle.disk_model.specs.Outside.{DiskOnly, Leaves, Rose};
ghost use Rattle.disk_model.specs.Changes.{ChangesWithin};
ghost use Rattle.buffer_groups.specs.Frames.{Frames, Lends};
ghost use Rattle.buffer_groups.specs.Groups.{SameKinds};
ghost use Rattle.meta_pages.specs.Homes.{homes_forgotten};
ghost use Rattle.volume_model.specs.Volume.{Decoded};
ghost use Rattle.volume_model.specs.Committed.{Committed, Checkpointed, StandsForVolume};
ghost use Rattle.commits.specs.Room.{AreBehindLog, IsLogged};
ghost use Rattle.commits.specs.Written.{InLogOrHomes};

use buffer_groups::Groups;
use disk_model::{Disk, Failed};
use meta_pages::Meta;
use op_log::OpLog;

/// Writes the committed images home, in rising order, and syncs; then it closes the log's first gate, and syncs. Where no record counts it calls
/// nothing. It takes no memory. A crash at any moment leaves the volume that was committed.
pub fn checkpoint<D: Disk>(
    log: &mut OpLog,
    meta: &mut Meta,
    groups: &mut Groups,
    disk: &mut D,
) -> Result<(), Failed>
    requires geometry { log.old.geometry ≡ meta.old.geometry }
    requires room { volume_bytes meta.old.geometry ≤ (D.outside disk.old).size }
    requires sizes { All (λ (f : Frames). f.page_size ≡ meta.old.geometry.page_size) groups.old }
    ensures only { DiskOnly (D.outside disk.old) (D.outside disk.new) }
    ensures cause { OnErr result (Rose (D.outside disk.old).disk_faults
        (D.outside disk.new).disk_faults) }

    // Whatever is answered, it writes in the log and at the homes of the committed images alone.
    ensures writes { ChangesWithin (InLogOrHomes meta.old.geometry.page_size meta.old.committed)
        (D.outside disk.old) (D.outside disk.new) }

    // Where no record counts nothing happens; else after Ok none counts.
    ensures no_call { log.old.count ≡ 0 → disk.new ≡ disk.old }
    ensures no_fault { log.old.count ≡ 0 → IsOk result }
    ensures none_counts { OnOk result (log.new.count ≡ 0) }
    ensures closed { OnOk result (0 < log.old.count
        → log.new ≡ record log.old { end = 0; count = 0 }) }
    ensures emptied { OnOk result (0 < log.old.count → meta.new.committed ≡ []) }
    ensures forgotten { OnOk result (0 < log.old.count
        → groups.new ≡ homes_forgotten meta.old.committed groups.old) }
    ensures nothing { log.old.count ≡ 0 → (log.new ≡ log.old) × (meta.new ≡ meta.old)
        × (groups.new ≡ groups.old) }

    // The working images stay.
    ensures working { meta.new.working ≡ meta.old.working }
    ensures same_geometry { meta.new.geometry ≡ meta.old.geometry }
    ensures log_geometry { log.new.geometry ≡ log.old.geometry }

    // Frames behind the log still lend what the disk holds, and each committed image has its place in the log.
    ensures lends { IsTrue (D.outside disk.old).honest → AreBehindLog groups.old
        → All (Lends (D.outside disk.old).disk) groups.old
        → All (Lends (D.outside disk.new).disk) groups.new }
    ensures behind { AreBehindLog groups.old → AreBehindLog groups.new }
    ensures sizes { All (λ (f : Frames). f.page_size ≡ meta.old.geometry.page_size) groups.new }
    ensures kinds { SameKinds groups.old groups.new }
    ensures logged { IsLogged log.old meta.old → IsLogged log.new meta.new }

    // The volume is what it was, no record counts, and nothing is pending that matters.
    ensures done { OnOk result ((d : Decoded) (held : List ℕ) → IsTrue (D.outside disk.old).honest
        → (D.outside disk.old).disk ≡ Some held
        → Committed (D.outside disk.old).images d held log.old meta.old.committed
        → (later : List ℕ) × ((D.outside disk.new).disk ≡ Some later)
        × Checkpointed d held (D.outside disk.new).images later log.new meta.new.committed) }

    // A crash at any moment leaves what stands for the committed table.
    ensures any_moment { (d : Decoded) (held : List ℕ) → IsTrue (D.outside disk.old).honest
        → (D.outside disk.old).disk ≡ Some held
        → Committed (D.outside disk.old).images d held log.old meta.old.committed
        → Leaves (D.outside disk.old) (D.outside disk.new) (StandsForVolume d held) }
{
    if log.count() == 0 {
        return Ok(());
    }
    meta.write_home(disk, groups)?;
    log.close_all(disk)
}
