//! The geometry of the volume on a disk.
ghost use Rattle.std.specs.Prelude.{◌≡◌, ◌≤◌, ℕ, List, length, Some, None, Err, IfOk, OnOk, IfSome};
ghost use Rattle.ex_base.specs.declared.geometry.Geometry.{Geometry};
ghost use Rattle.ex_base.specs.Bytes.{part};
ghost use Rattle.ex_base.specs.Sizes.{volume_bytes};
ghost use Rattle.disk_model.specs.Outside.{ReadsOnly, Rose};
ghost use Rattle.volume_model.specs.Parts.{SuperOf, FirstBad};

use disk_model::Disk;
use ex_base::{Geometry, PAGE_SIZE_MOST, get_u32, read_super};
use session_views::{OpenFault, Part};
use std::alloc::Global;

/// The bytes of the smallest page.
const SMALLEST_PAGE: u64 = 512;

/// Where the superblock has the size of a page.
const PAGE_SIZE_AT: u64 = 8;

/// What is wrong with a volume that has no superblock of a geometry for which the disk is large enough.
const BAD: OpenFault = OpenFault::BadVolume { part: Part::Super };

/// The geometry that the superblock on the disk names.
pub fn read_geometry<D: Disk>(alloc: Global, disk: &mut D) -> Result<Geometry, OpenFault>
    ensures only { ReadsOnly (D.outside disk.old) (D.outside disk.new) }
    ensures cause { result ≡ Err OpenFault.Disk
        → Rose (D.outside disk.old).disk_faults (D.outside disk.new).disk_faults }
    ensures large { IfOk result (λ g. volume_bytes g ≤ (D.outside disk.old).size) }
    ensures found { IfOk result (λ g. (image : List ℕ) → (D.outside disk.old).disk ≡ Some image
        → SuperOf image g) }
    ensures bad { (part : Part) → result ≡ Err (OpenFault.BadVolume part) → (image : List ℕ)
        → (D.outside disk.old).disk ≡ Some image → FirstBad image part }
{
    let size = page_size(disk)?;
    let Ok(mut page) = vec![in alloc; 0u8; size as usize] else {
        return Err(OpenFault::Memory);
    };
    let Ok(()) = disk.read(0, &mut page) else {
        return Err(OpenFault::Disk);
    };
    let Some(geometry) = read_super(&page) else {
        return Err(BAD);
    };
    if disk.size() < geometry.volume_bytes() {
        return Err(BAD);
    }
    Ok(geometry)
}

// The size of a page, as the superblock names it: one for which the disk is large enough.
fn page_size<D: Disk>(disk: &mut D) -> Result<u32, OpenFault>
    ensures only { ReadsOnly (D.outside disk.old) (D.outside disk.new) }
    ensures cause { result ≡ Err OpenFault.Disk
        → Rose (D.outside disk.old).disk_faults (D.outside disk.new).disk_faults }
    ensures inside { IfOk result (λ size. (size ≤ 8192) × (size ≤ (D.outside disk.old).size)) }
    ensures found { IfOk result (λ size. (image : List ℕ) → (D.outside disk.old).disk ≡ Some image
        → (g : Geometry) → SuperOf image g → size ≡ g.page_size) }
    ensures bad { (part : Part) → result ≡ Err (OpenFault.BadVolume part) → (image : List ℕ)
        → (D.outside disk.old).disk ≡ Some image → FirstBad image part }
{
    let have = disk.size();
    if have < SMALLEST_PAGE {
        return Err(BAD);
    }
    let mut field = [0u8; 4];
    let Ok(()) = disk.read(PAGE_SIZE_AT, &mut field) else {
        return Err(OpenFault::Disk);
    };
    let size = get_u32(&field, 0);
    if size as usize > PAGE_SIZE_MOST || u64::from(size) > have {
        return Err(BAD);
    }
    Ok(size)
}
