//! A transaction is committed.
ghost use Rattle.std.specs.Prelude.{◌≡◌, ◌≤◌, ◌<◌, ◌+◌, ℕ, List, [], length, All, Some, Err, IsTrue, IfOk, OnOk, OnErr};
ghost use Rattle.std.specs.List.{AllByRecursion};
ghost use Rattle.ex_base.specs.Area.{log_size};
ghost use Rattle.ex_base.specs.Limits.{touched_most, updates_most};
ghost use Rattle.ex_base.specs.Sizes.{volume_bytes};
ghost use Rattle.disk_model.specs.Outside.{DiskOnly, Leaves, Rose};
ghost use Rattle.disk_model.specs.Changes.{ChangesWithin};
ghost use Rattle.buffer_groups.specs.Frames.{Frames, Lends};
ghost use Rattle.buffer_groups.specs.Groups.{SameKinds};
ghost use Rattle.meta_pages.specs.Overlays.{AreRows, committed_image};
ghost use Rattle.op_log.specs.Records.{IsLogRecord, IsNote, record_len};
ghost use Rattle.volume_model.specs.Volume.{Volume, Decoded};
ghost use Rattle.volume_model.specs.Committed.{Committed, CommittedAs, MayCommit, IsOverlayOf, StandsForEither, StandsForVolume, IsRecordOf};
ghost use Rattle.commits.specs.Room.{AreBehindLog, BeforeCatalog, IsLogged, HasCatalog};
ghost use Rattle.commits.specs.Steps.{HasRoom};
ghost use Rattle.commits.specs.Written.{InLog, InLogOrHomes};

use crate::build::{record_of, record_of_images};
use crate::home::checkpoint;
use buffer_groups::Groups;
use disk_model::{Disk, Failed};
use ex_base::OpNote;
use meta_pages::Meta;
use op_log::{LogRecord, OpLog};
use std::alloc::Global;

/// Why a transaction was not committed.
#[derive(Clone, Copy, Debug, PartialEq, Eq)]
pub enum CommitFault {
    /// No memory was there. Nothing was called on the disk.
    Memory,
    /// The disk failed: its count of faults rose. The transaction is committed, or it isn't.
    Disk,
}

/// Commits the transaction of the working pages under the number `txn`, with a note for each of its updates. All memory is taken first. Where the
/// log has no room for the record over its records, a checkpoint is made, and the record has all bytes of each page. Then it is added to the log, and
/// the working images become the committed ones.
pub fn commit<D: Disk>(
    alloc: Global,
    log: &mut OpLog,
    meta: &mut Meta,
    groups: &mut Groups,
    disk: &mut D,
    notes: &[OpNote],
    txn: u64,
) -> Result<(), CommitFault>
    requires geometry { log.old.geometry ≡ meta.old.geometry }
    requires room { volume_bytes meta.old.geometry ≤ (D.outside disk.old).size }
    requires sizes { All (λ (f : Frames). f.page_size ≡ meta.old.geometry.page_size) groups.old }
    requires logged { IsLogged log.old meta.old }
    requires few_notes { length notes.now ≤ updates_most }
    requires notes { AllByRecursion IsNote notes.now }
    requires few_pages { length meta.old.working ≤ touched_most }
    requires catalog { HasCatalog meta.old.working }
    ensures only { DiskOnly (D.outside disk.old) (D.outside disk.new) }
    ensures disk { result ≡ Err CommitFault.Disk
        → Rose (D.outside disk.old).disk_faults (D.outside disk.new).disk_faults }

    // Whatever is answered, it writes in the log and at the homes of the images that were committed before, and nowhere else.
    ensures writes { ChangesWithin (InLogOrHomes meta.old.geometry.page_size meta.old.committed)
        (D.outside disk.old) (D.outside disk.new) }

    // Without memory nothing was done.
    ensures memory { result ≡ Err CommitFault.Memory → disk.new ≡ disk.old }
    ensures memory_log { result ≡ Err CommitFault.Memory → log.new ≡ log.old }
    ensures memory_meta { result ≡ Err CommitFault.Memory → meta.new ≡ meta.old }

    // After Ok no page is touched; else the working images stay.
    ensures working { OnOk result (meta.new.working ≡ []) }
    ensures working_stays { OnErr result (meta.new.working ≡ meta.old.working) }
    ensures same_geometry { meta.new.geometry ≡ meta.old.geometry }
    ensures log_geometry { log.new.geometry ≡ log.old.geometry }

    // Frames behind the log still lend what the disk holds, and each committed image has its place in the log.
    ensures lends { IsTrue (D.outside disk.old).honest → AreBehindLog groups.old
        → All (Lends (D.outside disk.old).disk) groups.old
        → All (Lends (D.outside disk.new).disk) groups.new }
    ensures behind { AreBehindLog groups.old → AreBehindLog groups.new }
    ensures sizes { All (λ (f : Frames). f.page_size ≡ meta.old.geometry.page_size) groups.new }
    ensures kinds { SameKinds groups.old groups.new }
    ensures logged { IsLogged log.new meta.new }

    // The working volume is committed.
    ensures done { OnOk result ((d : Decoded) (held : List ℕ) (working : Volume)
        → IsTrue (D.outside disk.old).honest → (D.outside disk.old).disk ≡ Some held
        → Committed (D.outside disk.old).images d held log.old meta.old.committed
        → IsOverlayOf d.volume meta.old.committed
        → MayCommit d held meta.old.working txn working
        → (later : List ℕ) × ((D.outside disk.new).disk ≡ Some later)
        × CommittedAs d held meta.old.working txn notes.now working
        (D.outside disk.new).images later log.new meta.new.committed) }

    // A crash at any moment leaves what stands for the committed table or for the working one.
    ensures any_moment { (d : Decoded) (held : List ℕ) (working : Volume)
        → IsTrue (D.outside disk.old).honest → (D.outside disk.old).disk ≡ Some held
        → Committed (D.outside disk.old).images d held log.old meta.old.committed
        → IsOverlayOf d.volume meta.old.committed
        → MayCommit d held meta.old.working txn working
        → Leaves (D.outside disk.old) (D.outside disk.new)
        (StandsForEither d held meta.old.working working) }
{
    let item = record_with_room(alloc, log, meta, groups, disk, notes, txn)?;
    let Ok(()) = add_record(log, meta, disk, &item) else {
        return Err(CommitFault::Disk);
    };
    Ok(())
}

// The transaction's record, for which the log has room. Where it has none for the record over its records, a checkpoint is made, and the record has all
// bytes of each page.
fn record_with_room<D: Disk>(
    alloc: Global,
    log: &mut OpLog,
    meta: &mut Meta,
    groups: &mut Groups,
    disk: &mut D,
    notes: &[OpNote],
    txn: u64,
) -> Result<LogRecord, CommitFault>
    requires geometry { log.old.geometry ≡ meta.old.geometry }
    requires room { volume_bytes meta.old.geometry ≤ (D.outside disk.old).size }
    requires sizes { All (λ (f : Frames). f.page_size ≡ meta.old.geometry.page_size) groups.old }
    requires logged { IsLogged log.old meta.old }
    requires few_notes { length notes.now ≤ updates_most }
    requires notes { AllByRecursion IsNote notes.now }
    requires few_pages { length meta.old.working ≤ touched_most }
    requires catalog { HasCatalog meta.old.working }
    ensures only { DiskOnly (D.outside disk.old) (D.outside disk.new) }
    ensures disk { result ≡ Err CommitFault.Disk
        → Rose (D.outside disk.old).disk_faults (D.outside disk.new).disk_faults }
    ensures writes { ChangesWithin (InLogOrHomes meta.old.geometry.page_size meta.old.committed)
        (D.outside disk.old) (D.outside disk.new) }
    ensures memory { result ≡ Err CommitFault.Memory → disk.new ≡ disk.old }
    ensures memory_log { result ≡ Err CommitFault.Memory → log.new ≡ log.old }
    ensures memory_meta { result ≡ Err CommitFault.Memory → meta.new ≡ meta.old }
    ensures rule { IfOk result
        (λ r. IsRecordOf (committed_image meta.new) txn notes.now meta.old.working r) }
    ensures valid { IfOk result (IsLogRecord log.old.geometry) }
    ensures fits { IfOk result
        (λ r. log.new.end + record_len r < log_size log.new.geometry) }
    ensures rows { OnOk result (AreRows meta.new) }
    ensures working { meta.new.working ≡ meta.old.working }
    ensures same_geometry { meta.new.geometry ≡ meta.old.geometry }
    ensures log_geometry { log.new.geometry ≡ log.old.geometry }
    ensures lends { IsTrue (D.outside disk.old).honest → AreBehindLog groups.old
        → All (Lends (D.outside disk.old).disk) groups.old
        → All (Lends (D.outside disk.new).disk) groups.new }
    ensures behind { AreBehindLog groups.old → AreBehindLog groups.new }
    ensures sizes { All (λ (f : Frames). f.page_size ≡ meta.old.geometry.page_size) groups.new }
    ensures kinds { SameKinds groups.old groups.new }
    ensures logged { IsLogged log.new meta.new }
    ensures done { OnOk result ((d : Decoded) (held : List ℕ) → IsTrue (D.outside disk.old).honest
        → (D.outside disk.old).disk ≡ Some held
        → Committed (D.outside disk.old).images d held log.old meta.old.committed
        → (later : List ℕ) × ((D.outside disk.new).disk ≡ Some later)
        × HasRoom d held meta.old.working txn notes.now meta.old.committed
        (D.outside disk.new).images later log.new meta.new.committed) }
    ensures any_moment { (d : Decoded) (held : List ℕ) → IsTrue (D.outside disk.old).honest
        → (D.outside disk.old).disk ≡ Some held
        → Committed (D.outside disk.old).images d held log.old meta.old.committed
        → Leaves (D.outside disk.old) (D.outside disk.new) (StandsForVolume d held) }
{
    let Ok(item) = record_of(alloc, meta, notes, txn) else {
        return Err(CommitFault::Memory);
    };
    if log.fits(&item) {
        return Ok(item);
    }
    let Ok(whole) = record_of_images(alloc, meta, notes, txn) else {
        return Err(CommitFault::Memory);
    };
    let Ok(()) = checkpoint(log, meta, groups, disk) else {
        return Err(CommitFault::Disk);
    };
    Ok(whole)
}

// Adds the record of the working pages to the log; then their images become the committed ones.
fn add_record<D: Disk>(
    log: &mut OpLog,
    meta: &mut Meta,
    disk: &mut D,
    item: &LogRecord,
) -> Result<(), Failed>
    requires geometry { log.old.geometry ≡ meta.old.geometry }
    requires room { volume_bytes meta.old.geometry ≤ (D.outside disk.old).size }
    requires logged { IsLogged log.old meta.old }
    requires fits { log.old.end + record_len item.now < log_size log.old.geometry }
    requires valid { IsLogRecord log.old.geometry item.now }
    requires rows { AreRows meta.old }
    requires rule { IsRecordOf (committed_image meta.old) item.now.txn item.now.notes
        meta.old.working item.now }
    ensures changes { ChangesWithin (BeforeCatalog meta.old.geometry.page_size) (D.outside disk.old)
        (D.outside disk.new) }
    ensures writes { ChangesWithin (InLog meta.old.geometry.page_size) (D.outside disk.old)
        (D.outside disk.new) }
    ensures cause { OnErr result (Rose (D.outside disk.old).disk_faults
        (D.outside disk.new).disk_faults) }
    ensures working { OnOk result (meta.new.working ≡ []) }
    ensures working_stays { OnErr result (meta.new.working ≡ meta.old.working) }
    ensures same_geometry { meta.new.geometry ≡ meta.old.geometry }
    ensures log_geometry { log.new.geometry ≡ log.old.geometry }
    ensures logged { IsLogged log.new meta.new }
    ensures done { OnOk result ((d : Decoded) (held : List ℕ) (working : Volume)
        → IsTrue (D.outside disk.old).honest → (D.outside disk.old).disk ≡ Some held
        → Committed (D.outside disk.old).images d held log.old meta.old.committed
        → IsOverlayOf d.volume meta.old.committed
        → MayCommit d held meta.old.working item.now.txn working
        → (later : List ℕ) × ((D.outside disk.new).disk ≡ Some later)
        × CommittedAs d held meta.old.working item.now.txn item.now.notes working
        (D.outside disk.new).images later log.new meta.new.committed) }
    ensures any_moment { (d : Decoded) (held : List ℕ) (working : Volume)
        → IsTrue (D.outside disk.old).honest → (D.outside disk.old).disk ≡ Some held
        → Committed (D.outside disk.old).images d held log.old meta.old.committed
        → MayCommit d held meta.old.working item.now.txn working
        → Leaves (D.outside disk.old) (D.outside disk.new)
        (StandsForEither d held meta.old.working working) }
{
    log.append(disk, item)?;
    meta.keep();
    Ok(())
}
