//! The walk over the indexes of all files.
ghost use Rattle.std.specs.Prelude.{◌≡◌, ◌<◌, ◌≤◌, ◌+◌, [], ◌∷◌, ℕ, true, false, List, length, IfOk, IfErr, IfSome, IfNone, OnSome, IsTrue, ◌↔◌};
ghost use Rattle.std.specs.List.{AllByRecursion, AllZip, flat_map};
ghost use Rattle.ex_base.specs.Area.{catalog_no};
ghost use Rattle.ex_base.specs.Order.{Rising};
ghost use Rattle.ex_base.specs.Ports.{Keeps, HasCause, IsDamage};
ghost use Rattle.page_alloc.specs.UnitSet.{used_at};
ghost use Rattle.file_index.specs.Index.{IsFilesPage};
ghost use Rattle.object_files.specs.Reads.{entry_of};
ghost use Rattle.trees.specs.Trees.{Units as Images};
ghost use Rattle.file_walk.specs.Walk.{Tells, page_numbers, CountsUsed, KeepsUnits};
ghost use Rattle.file_walk.specs.Indexes.{HasRisingPages, IsFreeIndex, IsFreeRoot, AddsIndex, AddsRoot, AddsPages, IsWalked, IsInArea, AreFreeIndexes, walked_pages};

use crate::named::{entries_at, has_key};
use ex_base::{PageNo, PortFault, ReadPages};
use file_index::Named;
use object_files::{CatalogView, Entry};
use page_alloc::Units;
use std::alloc::Global;
use trees::put;

/// The pages of a file: those with records, and those of its index.
#[derive(Drop)]
pub struct FilePages {
    pub numbers: Vec<PageNo>,
    pub index_pages: Vec<PageNo>,
}

/// Makes a page one of a file. False where it lies outside of the page area, or is in use, as the catalog's page is.
fn claim<P: ReadPages>(pages: &P, units: &mut Units, page: PageNo) -> bool
    requires ready { P.ready pages.now }
    requires geometry { units.old.geometry ≡ P.geometry pages.now }
    requires catalog { used_at units.old catalog_no ≡ true }
    ensures claimed { IsTrue result → CountsUsed units.old units.new [] (page.0 ∷ []) }
    ensures area { IsTrue result → IsFilesPage (P.geometry pages.now) page.0 }
    ensures refused { result ≡ false → IsFilesPage (P.geometry pages.now) page.0
        → used_at units.old page.0 ≡ true }
    ensures units { KeepsUnits units.old units.new }
{
    if !pages.in_area(page) || units.is_used(page) {
        return false;
    }
    units.adopt(page);
    true
}

/// Adds the pages of what is named. False where it is no whole index, or has a page that is in use.
fn walk_under<P: ReadPages>(
    pages: &mut P,
    alloc: Global,
    units: &mut Units,
    named: Named,
    walked: &mut FilePages,
) -> Result<bool, PortFault>
    requires ready { P.ready pages.old }
    requires geometry { units.old.geometry ≡ P.geometry pages.old }
    requires catalog { used_at units.old catalog_no ≡ true }
    ensures added { IfOk result (λ whole. IsTrue whole → (images : Images)
        → Tells P.Ground pages.old images
        → AddsIndex (P.geometry pages.old) images named walked.old walked.new) }
    ensures pages { IfOk result (λ whole. IsTrue whole
        → AddsPages (P.geometry pages.old) units.old units.new walked.old walked.new) }
    ensures bad { IfOk result (λ whole. whole ≡ false → (images : Images)
        → Tells P.Ground pages.old images
        → IsFreeIndex (P.geometry pages.old) images (used_at units.old) named → ⊥) }
    ensures units { KeepsUnits units.old units.new }
    ensures no_damage { IfErr result (λ fault. IsDamage fault → ⊥) }
    ensures kept { Keeps P.Ground pages.old pages.new }
    ensures cause { HasCause (P.faults pages.old) (P.faults pages.new) result }
{
    if !claim(pages, units, named.page) {
        return Ok(false);
    }
    if named.level == 0 {
        put(&mut walked.numbers, named.page)?;
        return Ok(has_key(named.least, named.page.0));
    }
    put(&mut walked.index_pages, named.page)?;
    let Some(entries) = entries_at(pages, alloc, &named)? else {
        return Ok(false);
    };
    for entry in &entries {
        let child = Named {
            page: entry.page,
            level: named.level - 1,
            least: Some(entry.key),
            file_no: named.file_no,
        };
        let whole = match walk_under(pages, alloc, units, child, walked) {
            Ok(whole) => whole,
            Err(fault) => return Err(fault),
        };
        if !whole {
            return Ok(false);
        }
    }
    Ok(true)
}

/// Whether page numbers rise strictly.
fn rise(pages: &[PageNo]) -> bool
    ensures { IsTrue result ↔ Rising (page_numbers pages.now) }
{
    let mut least = 0;
    for page in pages {
        let number = u64::from(page.0);
        if number < least {
            return false;
        }
        least = number + 1;
    }
    true
}

/// Adds the pages of the file of an entry. False where it names no whole index, or one with a page that is in use.
fn walk_root<P: ReadPages>(
    pages: &mut P,
    alloc: Global,
    units: &mut Units,
    entry: &Entry,
    walked: &mut FilePages,
) -> Result<bool, PortFault>
    requires ready { P.ready pages.old }
    requires geometry { units.old.geometry ≡ P.geometry pages.old }
    requires catalog { used_at units.old catalog_no ≡ true }
    ensures added { IfOk result (λ whole. IsTrue whole → (images : Images)
        → Tells P.Ground pages.old images
        → AddsRoot (P.geometry pages.old) images (entry_of entry.now) walked.old walked.new) }
    ensures pages { IfOk result (λ whole. IsTrue whole
        → AddsPages (P.geometry pages.old) units.old units.new walked.old walked.new) }
    ensures bad { IfOk result (λ whole. whole ≡ false → (images : Images)
        → Tells P.Ground pages.old images
        → IsFreeRoot (P.geometry pages.old) images (used_at units.old) (entry_of entry.now) → ⊥) }
    ensures units { KeepsUnits units.old units.new }
    ensures no_damage { IfErr result (λ fault. IsDamage fault → ⊥) }
    ensures kept { Keeps P.Ground pages.old pages.new }
    ensures cause { HasCause (P.faults pages.old) (P.faults pages.new) result }
{
    match entry.root {
        None => Ok(entry.level == 0),
        Some(page) => {
            let root = Named {
                page,
                level: entry.level,
                least: None,
                file_no: entry.file_no,
            };
            walk_under(pages, alloc, units, root, walked)
        }
    }
}

/// The pages of the file of an entry. None where its index isn't whole, or has a page that is in use.
fn walk_index<P: ReadPages>(
    pages: &mut P,
    alloc: Global,
    units: &mut Units,
    entry: &Entry,
) -> Result<Option<FilePages>, PortFault>
    requires ready { P.ready pages.old }
    requires geometry { units.old.geometry ≡ P.geometry pages.old }
    requires catalog { used_at units.old catalog_no ≡ true }
    ensures walked { IfOk result (λ found. IfSome found (λ file. (images : Images)
        → Tells P.Ground pages.old images
        → IsWalked (P.geometry pages.old) images (entry_of entry.now) file)) }
    ensures used { IfOk result
        (λ found. IfSome found (λ file. CountsUsed units.old units.new [] (walked_pages file))) }
    ensures area { IfOk result (λ found. IfSome found (IsInArea (P.geometry pages.old))) }
    ensures rising { IfOk result (λ found. IfSome found HasRisingPages) }
    ensures bad { IfOk result (λ found. IfNone found ((images : Images)
        → Tells P.Ground pages.old images
        → AreFreeIndexes (P.geometry pages.old) images (used_at units.old) (entry_of entry.now ∷ [])
        → ⊥)) }
    ensures units { KeepsUnits units.old units.new }
    ensures no_damage { IfErr result (λ fault. IsDamage fault → ⊥) }
    ensures kept { Keeps P.Ground pages.old pages.new }
    ensures cause { HasCause (P.faults pages.old) (P.faults pages.new) result }
{
    let mut walked = FilePages {
        numbers: Vec::new(alloc),
        index_pages: Vec::new(alloc),
    };
    let whole = match walk_root(pages, alloc, units, entry, &mut walked) {
        Ok(whole) => whole,
        Err(fault) => return Err(fault),
    };
    if !whole {
        return Ok(None);
    }
    if !rise(&walked.numbers) {
        return Ok(None);
    }
    Ok(Some(walked))
}

/// The pages of each file of the catalog. None where an index isn't whole, or a page is named twice.
pub fn walk_indexes<P: ReadPages>(
    pages: &mut P,
    alloc: Global,
    catalog: &CatalogView,
    units: &mut Units,
) -> Result<Option<Vec<FilePages>>, PortFault>
    requires ready { P.ready pages.old }
    requires geometry { units.old.geometry ≡ P.geometry pages.old }
    requires catalog { used_at units.old catalog_no ≡ true }
    ensures walked { IfOk result (λ found. IfSome found (λ files. (images : Images)
        → Tells P.Ground pages.old images
        → AllZip (IsWalked (P.geometry pages.old) images) catalog.now.entries files.items)) }
    ensures used { IfOk result
        (λ found. IfSome found (λ files. CountsUsed units.old units.new []
        (flat_map walked_pages files.items))) }
    ensures area { IfOk result
        (λ found. IfSome found (λ files. AllByRecursion
        (IsInArea (P.geometry pages.old)) files.items)) }
    ensures rising { IfOk result
        (λ found. IfSome found (λ files. AllByRecursion HasRisingPages files.items)) }
    ensures len { IfOk result (λ found. IfSome found (λ files. length files.items
        ≡ length catalog.now.entries)) }
    ensures bad { IfOk result (λ found. IfNone found ((images : Images)
        → Tells P.Ground pages.old images
        → AreFreeIndexes (P.geometry pages.old) images (used_at units.old) catalog.now.entries
        → ⊥)) }
    ensures units { KeepsUnits units.old units.new }
    ensures no_damage { IfErr result (λ fault. IsDamage fault → ⊥) }
    ensures kept { Keeps P.Ground pages.old pages.new }
    ensures cause { HasCause (P.faults pages.old) (P.faults pages.new) result }
{
    let mut files = Vec::new(alloc);
    for at in 0..catalog.len() {
        let entry = catalog.entry(at);
        let file = match walk_index(pages, alloc, units, &entry) {
            Ok(Some(file)) => file,
            Ok(None) => return Ok(None),
            Err(fault) => return Err(fault),
        };
        put(&mut files, file)?;
    }
    Ok(Some(files))
}
