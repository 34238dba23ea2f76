//! Whether a volume holds anything.
ghost use Rattle.std.specs.Prelude.{◌≡◌, ◌≤◌, ◌↔◌, IfOk, IsTrue, List, ℕ, Err};
ghost use Rattle.ex_base.specs.Sizes.{volume_bytes};
ghost use Rattle.disk_model.specs.Outside.{ReadsOnly, Rose};
ghost use Rattle.object_files.specs.Catalog.{Catalog, CatalogOf, fresh_catalog};
ghost use Rattle.restart.specs.Opening.{AreOpened};
ghost use Rattle.session_views.specs.declared.part.Part.{Part};
ghost use Rattle.table_model.specs.Tables.{empty_table};
ghost use Rattle.volume_model.specs.Volume.{Decoded, table_of, units_of};
ghost use Rattle.volume_port.specs.State.{IsAtRest};

use disk_model::Disk;
use object_files::CatalogView;
use restart::read_catalog;
use session_views::OpenFault;
use std::alloc::Global;
use volume_port::VolumeState;

/// Whether a page is the catalog of a volume that no transaction changed.
fn is_first_catalog(page: &[u8]) -> bool
    ensures { (c : Catalog) → CatalogOf page.now c → IsTrue result ↔ (c ≡ fresh_catalog) }
{
    let Some(catalog) = CatalogView::of(page) else {
        return false;
    };
    if catalog.len() != 0 {
        return false;
    }
    if catalog.next_unique() != 1 {
        return false;
    }
    catalog.last_txn() == 0
}

/// Whether the table of a volume that was opened is the empty one, as `format` makes it: without a file, and changed by no transaction. The disk is read at most.
pub fn is_empty<D: Disk>(
    alloc: Global,
    disk: &mut D,
    volume: &VolumeState,
) -> Result<bool, OpenFault>
    requires room { volume_bytes volume.now.geometry ≤ (D.outside disk.old).size }
    ensures only { ReadsOnly (D.outside disk.old) (D.outside disk.new) }
    ensures cause { result ≡ Err OpenFault.Disk
        → Rose (D.outside disk.old).disk_faults (D.outside disk.new).disk_faults }
    ensures fine { (part : Part) → result ≡ Err (OpenFault.BadVolume part) → ⊥ }
    ensures empty { IfOk result (λ empty. (d : Decoded) (image : List ℕ)
        → IsAtRest (D.outside disk.old) volume.now d image
        → IsTrue empty ↔ (table_of (units_of d image) d.volume ≡ empty_table)) }
{
    let page = read_catalog(alloc, disk, &volume.geometry, &volume.meta)?;
    Ok(is_first_catalog(&page))
}
