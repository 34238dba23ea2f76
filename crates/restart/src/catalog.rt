//! The catalog of a volume, after its log.
ghost use Rattle.std.specs.Prelude.{◌≡◌, ◌≤◌, ℕ, List, length, Some, Err, IfOk, IfSome, IfNone, unwrap_or, IsTrue, ◌↔◌};
ghost use Rattle.ex_base.specs.Area.{catalog_no, page_at};
ghost use Rattle.ex_base.specs.Sizes.{volume_bytes};
ghost use Rattle.disk_model.specs.Outside.{ReadsOnly, Rose};
ghost use Rattle.meta_pages.specs.Overlays.{committed_image};
ghost use Rattle.object_files.specs.Catalog.{Catalog};
ghost use Rattle.restart.specs.Opening.{HasCatalog, LastIs};

use disk_model::Disk;
use ex_base::{Geometry, PageNo};
use meta_pages::Meta;
use object_files::CatalogView;
use session_views::{OpenFault, Part};
use std::alloc::Global;

/// The catalog's page after the log: its image, or else what stands at its home.
pub fn read_catalog<D: Disk>(
    alloc: Global,
    disk: &mut D,
    geometry: &Geometry,
    meta: &Meta,
) -> Result<Vec<u8>, OpenFault>
    requires room { volume_bytes geometry.now ≤ (D.outside disk.old).size }
    ensures only { ReadsOnly (D.outside disk.old) (D.outside disk.new) }
    ensures cause { result ≡ Err OpenFault.Disk
        → Rose (D.outside disk.old).disk_faults (D.outside disk.new).disk_faults }
    ensures fine { (part : Part) → result ≡ Err (OpenFault.BadVolume part) → ⊥ }
    ensures page { IfOk result (λ page. (image : List ℕ) → (D.outside disk.old).disk ≡ Some image
        → page.items ≡ unwrap_or (committed_image meta.now catalog_no)
        (page_at geometry.now image catalog_no)) }
{
    if let Some(image) = meta.committed_at(PageNo::CATALOG) {
        return image.to_vec(alloc).map_err(|_| OpenFault::Memory);
    }
    let Ok(mut page) = vec![in alloc; 0u8; geometry.page_size as usize] else {
        return Err(OpenFault::Memory);
    };
    if disk
        .read(geometry.home(PageNo::CATALOG), &mut page)
        .is_err()
    {
        return Err(OpenFault::Disk);
    }
    Ok(page)
}

/// The catalog on a page, where it has the number of the last record.
pub fn test_catalog<'p>(page: &'p [u8], last: Option<u64>) -> Option<CatalogView<'p>>
    ensures found { IfSome result (HasCatalog page.now last) }
    ensures none { IfNone result ((c : Catalog) → HasCatalog page.now last c → ⊥) }
{
    let catalog = CatalogView::of(page)?;
    if !is_last(last, catalog.last_txn()) {
        return None;
    }
    Some(catalog)
}

// Whether a number is that of the last record, where there is one.
fn is_last(last: Option<u64>, txn: u64) -> bool
    ensures { IsTrue result ↔ LastIs last txn }
{
    match last {
        None => true,
        Some(number) => txn == number,
    }
}
