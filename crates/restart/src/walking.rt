//! The walks of an opening, over a port for reading alone.
ghost use Rattle.std.specs.Prelude.{◌≡◌, ◌≤◌, ℕ, List, Some, Err, IfOk};
ghost use Rattle.ex_base.specs.Sizes.{volume_bytes};
ghost use Rattle.disk_model.specs.Outside.{ReadsOnly, Rose};
ghost use Rattle.meta_pages.specs.Overlays.{image_at};
ghost use Rattle.op_log.specs.AfterLog.{logged};
ghost use Rattle.op_log.specs.declared.record.LogRecord.{LogRecord as Logged};
ghost use Rattle.volume_model.specs.Volume.{units_after};
ghost use Rattle.restart.specs.Content.{FilesReached, IsFirstBad, IsReached};

use crate::content::{Reached, read_content};
use crate::groups::make_groups;
use disk_model::Disk;
use ex_base::Geometry;
use meta_pages::Meta;
use object_files::CatalogView;
use session_views::{OpenFault, Part};
use std::alloc::Global;
use volume_port::{LoggedPages, PageRoom, ReadingPort};

/// Walks over all files of a catalog and over all trees of their objects on a disk, and tests them part by part. The frames that it reads through are
/// let go at the end.
pub fn walk_volume<D: Disk>(
    alloc: Global,
    disk: &mut D,
    geometry: &Geometry,
    meta: &Meta,
    catalog: &CatalogView,
) -> Result<Reached, OpenFault>
    requires room { volume_bytes geometry.now ≤ (D.outside disk.old).size }
    requires geometry { meta.now.geometry ≡ geometry.now }
    ensures only { ReadsOnly (D.outside disk.old) (D.outside disk.new) }
    ensures cause { result ≡ Err OpenFault.Disk
        → Rose (D.outside disk.old).disk_faults (D.outside disk.new).disk_faults }
    ensures reached { IfOk result (IsReached geometry.now) }
    ensures holds { IfOk result (λ r. (image : List ℕ) (records : List Logged)
        → (D.outside disk.old).disk ≡ Some image
        → ((page : ℕ) → image_at meta.now page ≡ logged records page)
        → FilesReached geometry.now (units_after geometry.now records image) catalog.now r) }
    ensures bad { (part : Part) (image : List ℕ) (records : List Logged)
        → result ≡ Err (OpenFault.BadVolume part) → (D.outside disk.old).disk ≡ Some image
        → ((page : ℕ) → image_at meta.now page ≡ logged records page)
        → IsFirstBad geometry.now (units_after geometry.now records image) catalog.now part }
{
    let Ok(mut groups) = make_groups(alloc, geometry) else {
        return Err(OpenFault::Memory);
    };
    let Ok(pages) = LoggedPages::make(alloc, geometry) else {
        return Err(OpenFault::Memory);
    };
    let mut room = PageRoom::new(alloc);
    let mut port = ReadingPort {
        disk,
        groups: &mut groups,
        room: &mut room,
        index: 0,
        keeps_leaves: false,
        geometry: *geometry,
        meta,
        pages: &pages,
    };
    read_content(&mut port, alloc, geometry, catalog)
}
