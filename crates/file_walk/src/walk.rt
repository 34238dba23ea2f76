//! The walk over all files.
ghost use Rattle.std.specs.Prelude.{◌≡◌, ◌↔◌, ◌⊎◌, ℕ, eqb, Contains, Err, IfOk, IfErr, IsTrue};
ghost use Rattle.std.specs.List.{flat_map, AllByRecursion};
ghost use Rattle.ex_base.specs.Area.{catalog_no, InPageArea};
ghost use Rattle.ex_base.specs.Faults.{Rose};
ghost use Rattle.ex_base.specs.Ports.{Keeps, Cause, IsDamage};
ghost use Rattle.page_alloc.specs.UnitSet.{used_at};
ghost use Rattle.session_views.specs.declared.part.Part.{Part};
ghost use Rattle.trees.specs.Trees.{Units as Images};
ghost use Rattle.file_walk.specs.Indexes.{walked_pages};
ghost use Rattle.file_walk.specs.Records.{HasRootFields};
ghost use Rattle.file_walk.specs.Parts.{HasWalked, IsBadFiles};
ghost use Rattle.file_walk.specs.Walk.{Tells, page_numbers, KeepsUnits, IsCause};

use crate::WalkedFiles;
use crate::files::read_files;
use crate::indexes::{FilePages, walk_indexes};
use ex_base::{PageNo, PortFault, ReadPages};
use object_files::CatalogView;
use page_alloc::Units;
use session_views::{OpenFault, Part};
use std::alloc::{AllocError, Global};

/// A fault of a port as one of an opening.
fn open_fault(fault: PortFault) -> OpenFault
    requires { IsDamage fault → ⊥ }
    ensures cause { (before now : ℕ) → Cause before now fault → IsCause before now result }
    ensures part { (part : Part) → result ≡ OpenFault.BadVolume part → ⊥ }
{
    match fault {
        PortFault::Disk => OpenFault::Disk,
        PortFault::Memory => OpenFault::Memory,
        PortFault::Damaged { .. } => unreachable!(),
    }
}

/// All pages of files, file by file.
fn pages_of(alloc: Global, files: &[FilePages]) -> Result<Vec<PageNo>, AllocError>
    ensures { IfOk result (λ pages. page_numbers pages.items ≡ flat_map walked_pages files.now) }
{
    let mut pages = Vec::new(alloc);
    for file in files {
        pages.extend_from_slice(&file.numbers)?;
        pages.extend_from_slice(&file.index_pages)?;
    }
    Ok(pages)
}

/// Walks over all files of a catalog: tests their indexes, then their pages and last the records on them and their links, and lists their pages and
/// records. Each page of a file comes into use.
pub fn walk_files<P: ReadPages>(
    pages: &mut P,
    alloc: Global,
    catalog: &CatalogView,
    units: &mut Units,
) -> Result<WalkedFiles, OpenFault>
    requires ready { P.ready pages.old }
    requires geometry { units.old.geometry ≡ P.geometry pages.old }
    requires fresh { used_at units.old ≡ (λ page. eqb page catalog_no) }
    ensures walked { IfOk result (λ walked. (images : Images) → Tells P.Ground pages.old images
        → HasWalked (P.geometry pages.old) images catalog.now.entries walked) }
    ensures used { IfOk result (λ walked. (page : ℕ) → IsTrue (used_at units.new page)
        ↔ (IsTrue (used_at units.old page) ⊎ Contains (page_numbers walked.pages.items) page)) }
    ensures roots { IfOk result (λ walked. AllByRecursion HasRootFields walked.records.items) }
    ensures area { IfOk result (λ walked. AllByRecursion (InPageArea (P.geometry pages.old))
        (page_numbers walked.pages.items)) }
    ensures bad { (part : Part) → result ≡ Err (OpenFault.BadVolume part) → (images : Images)
        → Tells P.Ground pages.old images
        → IsBadFiles (P.geometry pages.old) images catalog.now.entries part }
    ensures units { KeepsUnits units.old units.new }
    ensures kept { Keeps P.Ground pages.old pages.new }
    ensures disk { result ≡ Err OpenFault.Disk → Rose (P.faults pages.old) (P.faults pages.new) }
{
    let files = match walk_indexes(pages, alloc, catalog, units) {
        Ok(Some(files)) => files,
        Ok(None) => return Err(OpenFault::BadVolume { part: Part::File }),
        Err(fault) => return Err(open_fault(fault)),
    };
    let mut records = Vec::new(alloc);
    let good = match read_files(pages, alloc, catalog, &files, &mut records) {
        Ok(Some(good)) => good,
        Ok(None) => return Err(OpenFault::BadVolume { part: Part::Page }),
        Err(fault) => return Err(open_fault(fault)),
    };
    if !good {
        return Err(OpenFault::BadVolume { part: Part::Body });
    }
    match pages_of(alloc, &files) {
        Ok(pages) => Ok(WalkedFiles { pages, records }),
        Err(_) => Err(OpenFault::Memory),
    }
}
