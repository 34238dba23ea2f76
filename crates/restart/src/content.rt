//! What the pages of a volume hold behind the catalog: its files and the trees of their objects.
ghost use Rattle.std.specs.Prelude.{◌≡◌, ◌≤◌, ◌<◌, ℕ, List, length, Err, IfOk, OnOk, true, false};
ghost use Rattle.std.specs.List.{AllByRecursion};
ghost use Rattle.ex_base.specs.Area.{area_end, catalog_no};
ghost use Rattle.ex_base.specs.Ports.{Keeps};
ghost use Rattle.ex_base.specs.Faults.{Rose};
ghost use Rattle.file_walk.specs.Records.{HasRootFields};
ghost use Rattle.file_walk.specs.Walk.{page_numbers};
ghost use Rattle.node_walk.specs.TreesNamed.{ShowsPages};
ghost use Rattle.node_walk.specs.declared.ObjectRoot.{ObjectRoot as RootOfObject};
ghost use Rattle.object_records.specs.Record.{IsRootField};
ghost use Rattle.trees.specs.Trees.{Units as Bytes};
ghost use Rattle.volume_port.specs.Logged.{is_held};
ghost use Rattle.restart.specs.Content.{FilesReached, IsFirstBad, AreHeld, IsReached, roots_found};

use ex_base::{Geometry, PageNo, ReadPages};
use file_walk::{Found, has_good_numbers, walk_files};
use node_walk::{ObjectRoot, walk_trees};
use object_files::CatalogView;
use page_alloc::Units;
use session_views::{OpenFault, Part};
use std::alloc::{AllocError, Global};
use volume_port::LoggedPages;

/// What the walks of an opening found: the units in use with their counts of references, and the logged pages.
#[derive(Drop)]
pub struct Reached {
    pub units: Units,
    pub pages: LoggedPages,
}

/// Walks over all files of a catalog and over all trees of their objects, and tests them part by part.
pub fn read_content<P: ReadPages>(
    pages: &mut P,
    alloc: Global,
    geometry: &Geometry,
    catalog: &CatalogView,
) -> Result<Reached, OpenFault>
    requires ready { P.ready pages.old }
    requires geometry { geometry.now ≡ P.geometry pages.old }
    ensures reached { IfOk result (IsReached geometry.now) }
    ensures holds { IfOk result (λ r. P.tells pages.old → (bytes : Bytes)
        → ShowsPages geometry.now (P.image pages.old) bytes
        → FilesReached geometry.now bytes catalog.now r) }
    ensures bad { (part : Part) → result ≡ Err (OpenFault.BadVolume part) → P.tells pages.old
        → (bytes : Bytes) → ShowsPages geometry.now (P.image pages.old) bytes
        → IsFirstBad geometry.now bytes catalog.now part }
    ensures kept { Keeps P.Ground pages.old pages.new }
    ensures disk { result ≡ Err OpenFault.Disk → Rose (P.faults pages.old) (P.faults pages.new) }
{
    let Ok(mut units) = Units::make(alloc, geometry) else {
        return Err(OpenFault::Memory);
    };
    let walked = walk_files(pages, alloc, catalog, &mut units)?;
    let Ok(roots) = roots_of(alloc, &walked.records) else {
        return Err(OpenFault::Memory);
    };
    walk_trees(pages, alloc, geometry, &mut units, roots)?;
    match has_good_numbers(alloc, walked.records.as_slice(), catalog.next_unique()) {
        Ok(true) => {}
        Ok(false) => return Err(OpenFault::BadVolume { part: Part::Unique }),
        Err(_) => return Err(OpenFault::Memory),
    }
    match logged_pages(alloc, geometry, &walked.pages) {
        Ok(pages) => Ok(Reached { units, pages }),
        Err(_) => Err(OpenFault::Memory),
    }
}

// The roots of the large records, each with its object.
fn roots_of(alloc: Global, records: &[Found]) -> Result<Vec<ObjectRoot>, AllocError>
    requires { AllByRecursion HasRootFields records.now }
    ensures roots { IfOk result (λ roots. roots.items ≡ roots_found records.now) }
    ensures fields { IfOk result
        (λ roots. AllByRecursion (λ (r : RootOfObject). IsRootField r.root) roots.items) }
{
    let mut roots = Vec::new(alloc);
    for record in records {
        if let Some(root) = record.root {
            roots.push(ObjectRoot {
                object: record.object,
                root,
            })?;
        }
    }
    Ok(roots)
}

// The logged pages of a volume whose files have these pages.
fn logged_pages(
    alloc: Global,
    geometry: &Geometry,
    files: &[PageNo],
) -> Result<LoggedPages, AllocError>
    requires { AllByRecursion (λ (page : PageNo). page.0 < area_end geometry.now) files.now }
    ensures held { IfOk result (λ s. AreHeld s (page_numbers files.now)) }
    ensures len { IfOk result (λ s. length s ≡ area_end geometry.now) }
{
    let mut pages = LoggedPages::make(alloc, geometry)?;
    for page in files {
        pages.adopt(*page);
    }
    Ok(pages)
}
