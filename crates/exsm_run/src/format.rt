//! A volume is made.
ghost use Rattle.std.specs.Prelude.{◌≡◌, ◌≢◌, ◌≤◌, ◌<◌, ◌⊎◌, ◌++◌, List, ℕ, IsTrue, Some, length, take, OnOk, OnErr, IfOk, string_bytes};
ghost use Rattle.ex_base.specs.Bytes.{part};
ghost use Rattle.ex_base.specs.Sizes.{volume_bytes};
ghost use Rattle.ex_base.specs.Superblock.{format_now, magic, super_page};
ghost use Rattle.object_files.specs.Catalog.{CatalogOf, fresh_catalog};
ghost use Rattle.disk_model.specs.Outside.{Rose, Goes, Only, ReadsOnly, RestsOn, Leaves, Along};
ghost use Rattle.disk_model.specs.Changes.{ChangesWithin};
ghost use Rattle.exsm_run.specs.EmptyVolume.{HasMagic, IsUnmadeOrEmpty, IsMade, IsPrepared, IsPreparedAt};
ghost use Rattle.exsm_run.specs.Status.{IsRefusal};
ghost use Rattle.exsm_run.specs.Format.{format_line, IsFormatStatus, IsFormatted, IsFormatMoment, WritesAlone};

use crate::status::Status;
use disk_model::{Disk, Failed, Host, send_all, write_settled};
use ex_base::{Geometry, PageNo, has_magic, write_super};
use object_files::empty_catalog;
use std::alloc::{AllocError, Global};

/// How many bytes of the superblock are the magic.
const MAGIC_LEN: usize = 8;

/// What the first byte of the log is where no record counts.
const CLOSED: u8 = 0;

/// Makes the empty volume and says so. The magic is written last, after all else is settled, so no crash leaves half a volume.
pub fn format<H: Host>(alloc: Global, host: &mut H, geometry: &Geometry) -> Status
    ensures goes { Goes (H.outside host.old) (H.outside host.new) }

    // It is refused exactly where the disk is too small or is a volume, and then changes nothing.
    ensures one_of { IsFormatStatus result }
    ensures small { (H.outside host.old).size < volume_bytes geometry.now
        → result ≡ Status.TooSmall (H.outside host.old).size (volume_bytes geometry.now) }
    ensures too_small { (have need : ℕ) → result ≡ Status.TooSmall have need
        → (H.outside host.old).size < volume_bytes geometry.now }
    ensures volume { volume_bytes geometry.now ≤ (H.outside host.old).size → (d : List ℕ)
        → (H.outside host.old).disk ≡ Some d → HasMagic d
        → (result ≡ Status.AlreadyVolume) ⊎ (result ≡ Status.DiskFault) }
    ensures large { result ≡ Status.AlreadyVolume
        → volume_bytes geometry.now ≤ (H.outside host.old).size }
    ensures magic { result ≡ Status.AlreadyVolume → (d : List ℕ)
        → (H.outside host.old).disk ≡ Some d → HasMagic d }
    ensures refused { IsRefusal result → ReadsOnly (H.outside host.old) (H.outside host.new) }
    ensures keeps { (d : List ℕ) → (H.outside host.old).disk ≡ Some d → HasMagic d
        ⊎ ((H.outside host.old).size < volume_bytes geometry.now)
        → ReadsOnly (H.outside host.old) (H.outside host.new) }

    // A fault has its cause, and one of the disk that came is told.
    ensures disk { result ≡ Status.DiskFault
        → Rose (H.outside host.old).disk_faults (H.outside host.new).disk_faults }
    ensures told { result ≢ Status.DiskFault
        → (H.outside host.new).disk_faults ≡ (H.outside host.old).disk_faults }
    ensures output { result ≡ Status.OutputFault
        → Rose (H.outside host.old).write_faults (H.outside host.new).write_faults }

    // What is sent, and what stays.
    ensures line { result ≡ Status.Done → (was : List ℕ) → (H.outside host.old).sent ≡ Some was
        → (H.outside host.new).sent ≡ Some (was ++ format_line (volume_bytes geometry.now)) }
    ensures front { result ≡ Status.OutputFault → (was : List ℕ)
        → (H.outside host.old).sent ≡ Some was
        → (n : ℕ) × (n < length (format_line (volume_bytes geometry.now)))
        × ((H.outside host.new).sent
        ≡ Some (was ++ take n (format_line (volume_bytes geometry.now)))) }
    ensures nothing { result ≢ Status.Done → result ≢ Status.OutputFault
        → (H.outside host.new).sent ≡ (H.outside host.old).sent }
    ensures left { (H.outside host.new).left ≡ (H.outside host.old).left }

    ensures writes { IsTrue (H.outside host.old).honest → (d : List ℕ)
        → (H.outside host.old).disk ≡ Some d
        → WritesAlone geometry.now d (H.outside host.new) }
    ensures formatted { result ≡ Status.Done → IsTrue (H.outside host.old).honest → (d : List ℕ)
        → (H.outside host.old).disk ≡ Some d
        → IsFormatted geometry.now (H.outside host.new) }

    // A crash at any moment leaves no volume, or the empty one, and once a byte was sent the empty one.
    ensures any_moment { (d was : List ℕ) → RestsOn (H.outside host.old) d → (HasMagic d → ⊥)
        → (H.outside host.old).sent ≡ Some was
        → Along (H.outside host.old) (H.outside host.new) (IsFormatMoment geometry.now was) }
{
    let need = geometry.volume_bytes();
    let have = host.size();
    if have < need {
        return Status::TooSmall { have, need };
    }
    let mut first = [0u8; MAGIC_LEN];
    if read_first(host, &mut first).is_err() {
        return Status::DiskFault;
    }
    if has_magic(&first) {
        return Status::AlreadyVolume;
    }
    let Ok(superblock) = superblock_of(alloc, geometry) else {
        return Status::Memory;
    };
    let Ok(catalog) = catalog_of(alloc, geometry) else {
        return Status::Memory;
    };
    let Ok(line) = line_of(alloc, need) else {
        return Status::Memory;
    };
    if laid_out(host, geometry, &superblock, &catalog).is_err() {
        return Status::DiskFault;
    }
    if send_all(host, line.as_bytes()).is_err() {
        return Status::OutputFault;
    }
    Status::Done
}

// Reads the first bytes. A fault of the disk that came meanwhile is told.
fn read_first<D: Disk>(disk: &mut D, out: &mut [u8]) -> Result<(), Failed>
    requires room { length out.old ≤ (D.outside disk.old).size }
    ensures only { ReadsOnly (D.outside disk.old) (D.outside disk.new) }
    ensures cause { OnErr result (Rose (D.outside disk.old).disk_faults
        (D.outside disk.new).disk_faults) }
    ensures told { OnOk result ((D.outside disk.new).disk_faults
        ≡ (D.outside disk.old).disk_faults) }
    ensures bytes { OnOk result ((d : List ℕ) → (D.outside disk.old).disk ≡ Some d
        → out.new ≡ part d 0 (length out.old)) }
{
    let faults = disk.faults();
    disk.read(0, out)?;
    if disk.faults() != faults {
        return Err(Failed);
    }
    Ok(())
}

// Writes the empty volume, the magic last. A fault of the disk that came meanwhile is told.
fn laid_out<D: Disk>(
    disk: &mut D,
    geometry: &Geometry,
    superblock: &[u8],
    catalog: &[u8],
) -> Result<(), Failed>
    requires room { volume_bytes geometry.now ≤ (D.outside disk.old).size }
    requires superblock { superblock.now ≡ super_page format_now geometry.now }
    requires catalog { CatalogOf catalog.now fresh_catalog }
    requires one_page { length catalog.now ≡ geometry.now.page_size }
    ensures changes { ChangesWithin (IsMade geometry.now) (D.outside disk.old)
        (D.outside disk.new) }
    ensures cause { OnErr result (Rose (D.outside disk.old).disk_faults
        (D.outside disk.new).disk_faults) }
    ensures told { OnOk result ((D.outside disk.new).disk_faults
        ≡ (D.outside disk.old).disk_faults) }
    ensures formatted { OnOk result (IsTrue (D.outside disk.old).honest → (d : List ℕ)
        → (D.outside disk.old).disk ≡ Some d
        → IsFormatted geometry.now (D.outside disk.new)) }
    ensures any_moment { (d : List ℕ) → RestsOn (D.outside disk.old) d → (HasMagic d → ⊥)
        → Leaves (D.outside disk.old) (D.outside disk.new) (IsUnmadeOrEmpty geometry.now) }
{
    let faults = disk.faults();
    lay_out(disk, geometry, superblock, catalog)?;
    if disk.faults() != faults {
        return Err(Failed);
    }
    Ok(())
}

// Writes the empty volume, the magic last.
fn lay_out<D: Disk>(
    disk: &mut D,
    geometry: &Geometry,
    superblock: &[u8],
    catalog: &[u8],
) -> Result<(), Failed>
    requires room { volume_bytes geometry.now ≤ (D.outside disk.old).size }
    requires superblock { superblock.now ≡ super_page format_now geometry.now }
    requires catalog { CatalogOf catalog.now fresh_catalog }
    requires one_page { length catalog.now ≡ geometry.now.page_size }
    ensures changes { ChangesWithin (IsMade geometry.now) (D.outside disk.old)
        (D.outside disk.new) }
    ensures cause { OnErr result (Rose (D.outside disk.old).disk_faults
        (D.outside disk.new).disk_faults) }
    ensures formatted { OnOk result (IsTrue (D.outside disk.old).honest → (d : List ℕ)
        → (D.outside disk.old).disk ≡ Some d
        → IsFormatted geometry.now (D.outside disk.new)) }
    ensures any_moment { (d : List ℕ) → RestsOn (D.outside disk.old) d → (HasMagic d → ⊥)
        → Leaves (D.outside disk.old) (D.outside disk.new) (IsUnmadeOrEmpty geometry.now) }
{
    prepare(disk, geometry, superblock, catalog)?;
    write_settled(disk, 0, magic_of(geometry, superblock))
}

// The magic that a volume's superblock begins with.
fn magic_of<'a>(geometry: &Geometry, superblock: &'a [u8]) -> &'a [u8]
    requires { superblock.now ≡ super_page format_now geometry.now }
    ensures { result.now ≡ magic }
{
    &superblock[..MAGIC_LEN]
}

// Writes all of the empty volume but the magic, and settles it.
fn prepare<D: Disk>(
    disk: &mut D,
    geometry: &Geometry,
    superblock: &[u8],
    catalog: &[u8],
) -> Result<(), Failed>
    requires room { volume_bytes geometry.now ≤ (D.outside disk.old).size }
    requires superblock { superblock.now ≡ super_page format_now geometry.now }
    requires catalog { CatalogOf catalog.now fresh_catalog }
    requires one_page { length catalog.now ≡ geometry.now.page_size }
    ensures changes { ChangesWithin (IsPreparedAt geometry.now) (D.outside disk.old)
        (D.outside disk.new) }
    ensures cause { OnErr result (Rose (D.outside disk.old).disk_faults
        (D.outside disk.new).disk_faults) }
    ensures prepared { OnOk result ((d : List ℕ) → (D.outside disk.old).disk ≡ Some d
        → (e : List ℕ) × ((D.outside disk.new).disk ≡ Some e) × IsPrepared geometry.now e) }
    ensures settled { OnOk result (IsTrue (D.outside disk.old).honest → (d : List ℕ)
        → (D.outside disk.new).disk ≡ Some d
        → Only d (D.outside disk.new).images) }
{
    let page = geometry.page_size as u64;
    disk.write(MAGIC_LEN as u64, &superblock[MAGIC_LEN..])?;
    disk.write(page, &[CLOSED])?;
    disk.write(PageNo::CATALOG.0 as u64 * page, catalog)?;
    disk.sync()
}

fn superblock_of(alloc: Global, geometry: &Geometry) -> Result<Vec<u8>, AllocError>
    ensures { IfOk result (λ page. page.items ≡ super_page format_now geometry.now) }
{
    let mut page = vec![in alloc; 0u8; geometry.page_size as usize]?;
    write_super(geometry, &mut page);
    Ok(page)
}

fn catalog_of(alloc: Global, geometry: &Geometry) -> Result<Vec<u8>, AllocError>
    ensures size { IfOk result (λ page. length page.items ≡ geometry.now.page_size) }
    ensures catalog { IfOk result (λ page. CatalogOf page.items fresh_catalog) }
{
    let mut page = vec![in alloc; 0u8; geometry.page_size as usize]?;
    empty_catalog(&mut page);
    Ok(page)
}

fn line_of(alloc: Global, bytes: u64) -> Result<String, AllocError>
    ensures { IfOk result (λ line. string_bytes line ≡ format_line bytes) }
{
    format!(in alloc; "ok format {bytes}\n")
}
