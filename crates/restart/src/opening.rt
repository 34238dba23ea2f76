//! A volume is opened.
ghost use Rattle.std.specs.Prelude.{◌≡◌, ◌≢◌, ◌≤◌, ◌<◌, ℕ, List, [], length, Some, Err, IsTrue, IfOk};
ghost use Rattle.std.specs.List.{AllByRecursion};
ghost use Rattle.ex_base.specs.Area.{log_size};
ghost use Rattle.ex_base.specs.Sizes.{volume_bytes};
ghost use Rattle.disk_model.specs.Changes.{ChangesWithin};
ghost use Rattle.disk_model.specs.Outside.{DiskOnly, ReadsOnly, Leaves, Only, Rose, WritesNothing};
ghost use Rattle.table_model.specs.declared.table.Table.{Table};
ghost use Rattle.op_log.specs.Decoding.{last_number};
ghost use Rattle.op_log.specs.Log.{SaysLog, log_end};
ghost use Rattle.op_log.specs.AfterLog.{logged, AllApply};
ghost use Rattle.meta_pages.specs.Overlays.{committed_image};
ghost use Rattle.op_log.specs.Records.{IsLogRecord};
ghost use Rattle.page_alloc.specs.UnitSet.{used_at, refs_at};
ghost use Rattle.volume_model.specs.Parts.{Decodes, SuperOf, FirstBad, StandsFor};
ghost use Rattle.volume_model.specs.Volume.{Decoded};
ghost use Rattle.volume_port.specs.Logged.{is_held};
ghost use Rattle.restart.specs.Content.{IsReached};
ghost use Rattle.restart.specs.Opening.{AreFresh, AreOpened, HoldsAs, InLogOrLogged, OpenedOn, OpensAs, PartsMoments, ReadsAs, RestsAs};

use crate::catalog::{read_catalog, test_catalog};
use crate::content::Reached;
use crate::geometry::read_geometry;
use crate::groups::make_groups;
use crate::overlay::overlay_of;
use crate::walking::walk_volume;
use commits::checkpoint;
use disk_model::Disk;
use ex_base::Geometry;
use meta_pages::Meta;
use op_log::{LogFault, LogRecord, LogRecords, OpLog, scan_log};
use session_views::{OpenFault, Part};
use std::alloc::{AllocError, Global};
use volume_port::VolumeState;

/// Opens the volume on a disk. It begins with a sync, then reads the volume and tests its parts in their order, and where records count it makes a
/// checkpoint. A volume of which a part fails isn't written. In the state that it answers no record counts, no page has an image, the units in use and the
/// logged pages are those that the volume reaches, each unit of a tree has as many references as roots and nodes name it, and no frame is filled. Where the disk's count of faults rose meanwhile, it answers so, whatever came of it.
pub fn open_volume<D: Disk>(alloc: Global, disk: &mut D) -> Result<VolumeState, OpenFault>
    ensures only { DiskOnly (D.outside disk.old) (D.outside disk.new) }
    ensures disk { result ≡ Err OpenFault.Disk
        → Rose (D.outside disk.old).disk_faults (D.outside disk.new).disk_faults }
    ensures told { result ≢ Err OpenFault.Disk
        → (D.outside disk.new).disk_faults ≡ (D.outside disk.old).disk_faults }
    ensures parts { IfOk result AreOpened }
    ensures room { IfOk result (λ p. volume_bytes p.geometry ≤ (D.outside disk.new).size) }

    // The volume, as it read, stood for a table, and it is committed.
    ensures opened { IfOk result (λ p. (image : List ℕ) → IsTrue (D.outside disk.old).honest
        → (D.outside disk.old).disk ≡ Some image
        → OpenedOn image p.geometry (D.outside disk.new) p.log p.meta.committed (used_at p.units)
        (refs_at p.units) (is_held p.pages)) }
    ensures rests { IfOk result (λ p. (image : List ℕ) → IsTrue (D.outside disk.old).honest
        → (D.outside disk.old).disk ≡ Some image → RestsAs image (D.outside disk.new) p) }
    ensures stood { IfOk result (λ p. (image : List ℕ) → (D.outside disk.old).disk ≡ Some image
        → (table : Table) × StandsFor image table) }

    // Or a part of it failed, and nothing was written, whatever is answered.
    ensures bad { (part : Part) → result ≡ Err (OpenFault.BadVolume part) → (image : List ℕ)
        → (D.outside disk.old).disk ≡ Some image → FirstBad image part }
    ensures kept { (part : Part) → result ≡ Err (OpenFault.BadVolume part)
        → IsTrue (D.outside disk.old).honest → (image : List ℕ)
        → (D.outside disk.old).disk ≡ Some image
        → ((D.outside disk.new).disk ≡ Some image) × Only image (D.outside disk.new).images }
    ensures unwritten { (part : Part) → result ≡ Err (OpenFault.BadVolume part)
        → WritesNothing (D.outside disk.old) (D.outside disk.new) }
    ensures left { (image : List ℕ) (part : Part) → (D.outside disk.old).disk ≡ Some image
        → FirstBad image part → WritesNothing (D.outside disk.old) (D.outside disk.new) }

    // Where no record of its log counts nothing is written either. Else it writes in the log alone, and at the homes of the pages that the log has.
    ensures clean { (image : List ℕ) (d : Decoded) → (D.outside disk.old).disk ≡ Some image
        → Decodes image d → d.records ≡ []
        → WritesNothing (D.outside disk.old) (D.outside disk.new) }
    ensures writes { (image : List ℕ) (d : Decoded) → (D.outside disk.old).disk ≡ Some image
        → Decodes image d
        → ChangesWithin (InLogOrLogged d) (D.outside disk.old) (D.outside disk.new) }

    // A crash at any moment leaves what could be left before, or the volume as it reads, or what stands for the same table.
    ensures any_moment { (image : List ℕ) → IsTrue (D.outside disk.old).honest
        → (D.outside disk.old).disk ≡ Some image
        → Leaves (D.outside disk.old) (D.outside disk.new)
        (OpensAs (D.outside disk.old).images image) }

    // Where the disk didn't fail, the moments are parted at the sync: what could be left before is not left any more from then on.
    ensures parted { result ≢ Err OpenFault.Disk → (image : List ℕ)
        → IsTrue (D.outside disk.old).honest → (D.outside disk.old).disk ≡ Some image
        → PartsMoments (D.outside disk.old) (D.outside disk.new) image }

    // Whatever is answered, the disk holds what it held, or what stands for the same table.
    ensures holds { (image : List ℕ) → IsTrue (D.outside disk.old).honest
        → (D.outside disk.old).disk ≡ Some image → HoldsAs image (D.outside disk.new) }
{
    let faults = disk.faults();
    let opened = read_and_settle(alloc, disk);
    if disk.faults() != faults {
        return Err(OpenFault::Disk);
    }
    opened
}

// Opens the volume, and tells such faults of the disk as it meets.
fn read_and_settle<D: Disk>(alloc: Global, disk: &mut D) -> Result<VolumeState, OpenFault>
    ensures only { DiskOnly (D.outside disk.old) (D.outside disk.new) }
    ensures disk { result ≡ Err OpenFault.Disk
        → Rose (D.outside disk.old).disk_faults (D.outside disk.new).disk_faults }
    ensures parts { IfOk result AreOpened }
    ensures room { IfOk result (λ p. volume_bytes p.geometry ≤ (D.outside disk.new).size) }
    ensures opened { IfOk result (λ p. (image : List ℕ) → IsTrue (D.outside disk.old).honest
        → (D.outside disk.old).disk ≡ Some image
        → OpenedOn image p.geometry (D.outside disk.new) p.log p.meta.committed (used_at p.units)
        (refs_at p.units) (is_held p.pages)) }
    ensures rests { IfOk result (λ p. (image : List ℕ) → IsTrue (D.outside disk.old).honest
        → (D.outside disk.old).disk ≡ Some image → RestsAs image (D.outside disk.new) p) }
    ensures stood { IfOk result (λ p. (image : List ℕ) → (D.outside disk.old).disk ≡ Some image
        → (table : Table) × StandsFor image table) }
    ensures bad { (part : Part) → result ≡ Err (OpenFault.BadVolume part) → (image : List ℕ)
        → (D.outside disk.old).disk ≡ Some image → FirstBad image part }
    ensures kept { (part : Part) → result ≡ Err (OpenFault.BadVolume part)
        → IsTrue (D.outside disk.old).honest → (image : List ℕ)
        → (D.outside disk.old).disk ≡ Some image
        → ((D.outside disk.new).disk ≡ Some image) × Only image (D.outside disk.new).images }
    ensures unwritten { (part : Part) → result ≡ Err (OpenFault.BadVolume part)
        → WritesNothing (D.outside disk.old) (D.outside disk.new) }
    ensures left { (image : List ℕ) (part : Part) → (D.outside disk.old).disk ≡ Some image
        → FirstBad image part → WritesNothing (D.outside disk.old) (D.outside disk.new) }
    ensures clean { (image : List ℕ) (d : Decoded) → (D.outside disk.old).disk ≡ Some image
        → Decodes image d → d.records ≡ []
        → WritesNothing (D.outside disk.old) (D.outside disk.new) }
    ensures writes { (image : List ℕ) (d : Decoded) → (D.outside disk.old).disk ≡ Some image
        → Decodes image d
        → ChangesWithin (InLogOrLogged d) (D.outside disk.old) (D.outside disk.new) }
    ensures any_moment { (image : List ℕ) → IsTrue (D.outside disk.old).honest
        → (D.outside disk.old).disk ≡ Some image
        → Leaves (D.outside disk.old) (D.outside disk.new)
        (OpensAs (D.outside disk.old).images image) }
    ensures parted { result ≢ Err OpenFault.Disk → (image : List ℕ)
        → IsTrue (D.outside disk.old).honest → (D.outside disk.old).disk ≡ Some image
        → PartsMoments (D.outside disk.old) (D.outside disk.new) image }
    ensures holds { (image : List ℕ) → IsTrue (D.outside disk.old).honest
        → (D.outside disk.old).disk ≡ Some image → HoldsAs image (D.outside disk.new) }
{
    let Ok(()) = disk.sync() else {
        return Err(OpenFault::Disk);
    };
    let mut parts = read_volume(alloc, disk)?;
    let Ok(()) = checkpoint(&mut parts.log, &mut parts.meta, &mut parts.groups, disk) else {
        return Err(OpenFault::Disk);
    };
    Ok(parts)
}

// Reads the volume and tests it.
fn read_volume<D: Disk>(alloc: Global, disk: &mut D) -> Result<VolumeState, OpenFault>
    ensures only { ReadsOnly (D.outside disk.old) (D.outside disk.new) }
    ensures cause { result ≡ Err OpenFault.Disk
        → Rose (D.outside disk.old).disk_faults (D.outside disk.new).disk_faults }
    ensures fresh { IfOk result AreFresh }
    ensures logged { IfOk result (λ p. p.log.count ≡ 0 → (p.log.end ≡ 0)
        × (p.meta.committed ≡ [])) }
    ensures room { IfOk result (λ p. volume_bytes p.geometry ≤ (D.outside disk.old).size) }
    ensures reads { IfOk result (λ p. (image : List ℕ) → (D.outside disk.old).disk ≡ Some image
        → ReadsAs image p.geometry p.log p.meta.committed (used_at p.units) (refs_at p.units)
        (is_held p.pages)) }
    ensures bad { (part : Part) → result ≡ Err (OpenFault.BadVolume part) → (image : List ℕ)
        → (D.outside disk.old).disk ≡ Some image → FirstBad image part }
{
    let geometry = read_geometry(alloc, disk)?;
    let records = read_log(alloc, disk, &geometry)?;
    let meta = read_overlay(alloc, &geometry, records.as_slice())?;
    let page = read_catalog(alloc, disk, &geometry, &meta)?;
    let Some(catalog) = test_catalog(&page, last_txn(records.as_slice())) else {
        return Err(OpenFault::BadVolume {
            part: Part::Catalog,
        });
    };
    let reached = walk_volume(alloc, disk, &geometry, &meta, &catalog)?;
    let count = records.as_slice().len() as u32;
    match make_parts(alloc, &geometry, meta, records.end(), count, reached) {
        Ok(parts) => Ok(parts),
        Err(_) => Err(OpenFault::Memory),
    }
}

// The records of the log.
fn read_log<D: Disk>(
    alloc: Global,
    disk: &mut D,
    geometry: &Geometry,
) -> Result<LogRecords, OpenFault>
    requires { volume_bytes geometry.now ≤ (D.outside disk.old).size }
    ensures only { ReadsOnly (D.outside disk.old) (D.outside disk.new) }
    ensures cause { result ≡ Err OpenFault.Disk
        → Rose (D.outside disk.old).disk_faults (D.outside disk.new).disk_faults }
    ensures each { IfOk result (AllByRecursion (IsLogRecord geometry.now)) }
    ensures inside { IfOk result (λ found. log_end found < log_size geometry.now) }
    ensures records { IfOk result (λ found. (image : List ℕ)
        → (D.outside disk.old).disk ≡ Some image → SaysLog geometry.now found image) }
    ensures bad { (part : Part) → result ≡ Err (OpenFault.BadVolume part) → (image : List ℕ)
        → (D.outside disk.old).disk ≡ Some image → SuperOf image geometry.now
        → FirstBad image part }
{
    match scan_log(alloc, disk, geometry) {
        Ok(records) => Ok(records),
        Err(LogFault::Memory) => Err(OpenFault::Memory),
        Err(LogFault::Disk) => Err(OpenFault::Disk),
        Err(LogFault::Bad { .. }) => Err(OpenFault::BadVolume { part: Part::Log }),
    }
}

// The overlay of the records, where each of their entries applies.
fn read_overlay(
    alloc: Global,
    geometry: &Geometry,
    records: &[LogRecord],
) -> Result<Meta, OpenFault>
    requires { AllByRecursion (IsLogRecord geometry.now) records.now }
    ensures geometry { IfOk result (λ m. m.geometry ≡ geometry.now) }
    ensures working { IfOk result (λ m. m.working ≡ []) }
    ensures apply { IfOk result (λ m. AllApply records.now) }
    ensures just { IfOk result (λ m. (page : ℕ)
        → committed_image m page ≡ logged records.now page) }
    ensures no_disk { result ≡ Err OpenFault.Disk → ⊥ }
    ensures bad { (part : Part) → result ≡ Err (OpenFault.BadVolume part) → (image : List ℕ)
        → SuperOf image geometry.now → SaysLog geometry.now records.now image
        → FirstBad image part }
{
    match overlay_of(alloc, geometry, records) {
        Ok(Some(meta)) => Ok(meta),
        Ok(None) => Err(OpenFault::BadVolume { part: Part::Log }),
        Err(_) => Err(OpenFault::Memory),
    }
}

// The number of the last record, where there is one.
fn last_txn(records: &[LogRecord]) -> Option<u64>
    ensures { result ≡ last_number records.now }
{
    match records.last() {
        Some(record) => Some(record.txn),
        None => None,
    }
}

// The state of a volume over a log of this end and so many records, with what was reached.
fn make_parts(
    alloc: Global,
    geometry: &Geometry,
    meta: Meta,
    end: u32,
    count: u32,
    reached: Reached,
) -> Result<VolumeState, AllocError>
    requires inside { end < log_size geometry.now }
    requires count { count ≤ end }
    requires geometry { meta.geometry ≡ geometry.now }
    requires working { meta.working ≡ [] }
    requires reached { IsReached geometry.now reached }
    ensures fresh { IfOk result AreFresh }
    ensures geometry { IfOk result (λ p. p.geometry ≡ geometry.now) }
    ensures meta { IfOk result (λ p. p.meta ≡ meta) }
    ensures log { IfOk result
        (λ p. p.log ≡ record { geometry = geometry.now; end = end; count = count }) }
    ensures units { IfOk result (λ p. p.units ≡ reached.units) }
    ensures pages { IfOk result (λ p. p.pages ≡ reached.pages) }
{
    let mut log = OpLog::make(alloc, geometry)?;
    log.adopt(end, count);
    let groups = make_groups(alloc, geometry)?;
    let kept = reached.pages.held().copy(alloc)?;
    Ok(VolumeState {
        geometry: *geometry,
        log,
        meta,
        pages: reached.pages,
        kept,
        units: reached.units,
        groups,
    })
}
