//! The records of all files, file by file.
ghost use Rattle.std.specs.Prelude.{◌≡◌, ℕ, false, length, map, IfOk, IfErr, IfSome, IfNone, OnSome, IsTrue};
ghost use Rattle.std.specs.List.{AllByRecursion, AllZip};
ghost use Rattle.ex_base.specs.Ports.{Keeps, HasCause, IsDamage};
ghost use Rattle.object_files.specs.Reads.{entry_of};
ghost use Rattle.trees.specs.Trees.{Units as Images};
ghost use Rattle.file_walk.specs.Walk.{Tells};
ghost use Rattle.file_walk.specs.Indexes.{HasRisingPages, IsInArea};
ghost use Rattle.file_walk.specs.Records.{AddsFile, AddsFiles, AreFilePages, HasRootFields, IsGoodFile, files_rows, rows_of};

use crate::Found;
use crate::indexes::FilePages;
use crate::objects::add_objects;
use crate::records::read_file;
use ex_base::{PortFault, ReadPages};
use object_files::{CatalogView, Entry};
use std::alloc::Global;

/// Adds the records of the file of an entry, each with its object. None where a page isn't one of the file; false where a body is no good record, or names
/// another record than it may.
fn add_file<P: ReadPages>(
    pages: &mut P,
    alloc: Global,
    entry: &Entry,
    file: &FilePages,
    found: &mut Vec<Found>,
) -> Result<Option<bool>, PortFault>
    requires ready { P.ready pages.old }
    requires area { IsInArea (P.geometry pages.old) file.now }
    requires rising { HasRisingPages file.now }
    ensures of_file { IfOk result (λ read. OnSome read ((images : Images)
        → Tells P.Ground pages.old images → AreFilePages images (entry_of entry.now) file.now)) }
    ensures none { IfOk result (λ read. IfNone read ((images : Images)
        → Tells P.Ground pages.old images → AreFilePages images (entry_of entry.now) file.now
        → ⊥)) }
    ensures good { IfOk result (λ read. IfSome read (λ good. IsTrue good → (images : Images)
        → Tells P.Ground pages.old images
        → AddsFile found.old.items found.new.items (rows_of images file.now))) }
    ensures roots { IfOk result (λ read. IfSome read (λ good. IsTrue good
        → AllByRecursion HasRootFields found.old.items
        → AllByRecursion HasRootFields found.new.items)) }
    ensures bad { IfOk result (λ read. IfSome read (λ good. good ≡ false → (images : Images)
        → Tells P.Ground pages.old images → IsGoodFile (rows_of images file.now) → ⊥)) }
    ensures no_damage { IfErr result (λ fault. IsDamage fault → ⊥) }
    ensures kept { Keeps P.Ground pages.old pages.new }
    ensures cause { HasCause (P.faults pages.old) (P.faults pages.new) result }
{
    let mut records = Vec::new(alloc);
    let good = match read_file(pages, alloc, entry, file, &mut records) {
        Ok(Some(good)) => good,
        Ok(None) => return Ok(None),
        Err(fault) => return Err(fault),
    };
    if !good {
        return Ok(Some(false));
    }
    let linked = add_objects(alloc, &records, found)?;
    Ok(Some(linked))
}

/// Adds the records of all files. None where a page isn't one of its file; false where a body is no good record, or names another record than it may.
pub fn read_files<P: ReadPages>(
    pages: &mut P,
    alloc: Global,
    catalog: &CatalogView,
    files: &[FilePages],
    found: &mut Vec<Found>,
) -> Result<Option<bool>, PortFault>
    requires ready { P.ready pages.old }
    requires area { AllByRecursion (IsInArea (P.geometry pages.old)) files.now }
    requires rising { AllByRecursion HasRisingPages files.now }
    requires len { length files.now ≡ length catalog.now.entries }
    ensures of_files { IfOk result (λ read. OnSome read ((images : Images)
        → Tells P.Ground pages.old images
        → AllZip (AreFilePages images) catalog.now.entries files.now)) }
    ensures none { IfOk result (λ read. IfNone read ((images : Images)
        → Tells P.Ground pages.old images
        → AllZip (AreFilePages images) catalog.now.entries files.now → ⊥)) }
    ensures good { IfOk result (λ read. IfSome read (λ good. IsTrue good → (images : Images)
        → Tells P.Ground pages.old images
        → AddsFiles found.old.items found.new.items (files_rows images files.now))) }
    ensures roots { IfOk result (λ read. IfSome read (λ good. IsTrue good
        → AllByRecursion HasRootFields found.old.items
        → AllByRecursion HasRootFields found.new.items)) }
    ensures bad { IfOk result (λ read. IfSome read (λ good. good ≡ false → (images : Images)
        → Tells P.Ground pages.old images
        → AllByRecursion IsGoodFile (files_rows images files.now) → ⊥)) }
    ensures no_damage { IfErr result (λ fault. IsDamage fault → ⊥) }
    ensures kept { Keeps P.Ground pages.old pages.new }
    ensures cause { HasCause (P.faults pages.old) (P.faults pages.new) result }
{
    let mut good = true;
    for at in 0..catalog.len() {
        let entry = catalog.entry(at);
        let file = &files[at as usize];
        let file_good = match add_file(pages, alloc, &entry, file, found) {
            Ok(Some(file_good)) => file_good,
            Ok(None) => return Ok(None),
            Err(fault) => return Err(fault),
        };
        if file_good {
            continue;
        }
        good = false;
    }
    Ok(Some(good))
}
