//! The entry of a file in the catalog.
ghost use Rattle.std.specs.Prelude.{◌≡◌, ◌<◌, ℕ, length, Contains, IfOk, IfErr, IfSome, OnOk, IsTrue, false, Some, None};
ghost use Rattle.ex_base.specs.Area.{catalog_no};
ghost use Rattle.ex_base.specs.Ports.{Keeps, Cause, HasCause, IsDamage};
ghost use Rattle.ex_base.specs.declared.geometry.Geometry.{Geometry};
ghost use Rattle.ex_base.specs.declared.faults.PortFault.TheVariants.{Damaged};
ghost use Rattle.file_index.specs.Index.{HasPlacedRoot};
ghost use Rattle.ex_base.specs.Seen.{catalog_seen, nothing_seen};
ghost use Rattle.object_files.specs.Reads.{catalog_on};
ghost use Rattle.object_files.specs.Edits.{IsCatalogPage, numbers_on};
ghost use Rattle.file_index.specs.Touches.{TouchesAtMost};
ghost use Rattle.file_bodies.specs.Files.{index_in, index_at};
ghost use Rattle.file_bodies.specs.Indexes.{IsUsable, SetsIndex};
ghost use Rattle.file_bodies.specs.Damage.{root_seen, ListsFile, IsCatalogFault, IsFileFault, IsRootFault};

use ex_base::{Index, PageNo, Pages, PortFault, ReadPages, Seen};
use object_files::{CatalogView, set_index};
use std::alloc::Global;

/// The fault of a catalog that is outside of its grammar or has no file with the number.
pub fn no_catalog() -> PortFault
    ensures is { result ≡ Damaged (record { 0 = catalog_no }) catalog_seen nothing_seen }
    ensures damage { IsDamage result }
    ensures cause { (before now : ℕ) → Cause before now result }
{
    PortFault::Damaged {
        page: PageNo::CATALOG,
        want: Seen::CATALOG,
        got: Seen::NOTHING,
    }
}

/// The index in the entry of the file with a number.
fn index_with(view: &CatalogView, file_no: u32) -> Option<Index>
    ensures { result ≡ index_in file_no view.now.entries }
{
    for at in 0..view.len() {
        let entry = view.entry(at);
        if entry.file_no == file_no {
            return Some(Index {
                root: entry.root,
                level: entry.level,
                file_no,
            });
        }
    }
    None
}

/// The index of the file with a number, none where no file has it.
pub fn find_index<P: ReadPages>(
    pages: &mut P,
    alloc: Global,
    file_no: u32,
) -> Result<Option<Index>, PortFault>
    requires { P.ready pages.old }
    ensures found { IfOk result (λ found. P.tells pages.old
        → found ≡ index_at (P.image pages.old) file_no) }
    ensures usable { IfOk result (λ found. IfSome found (IsUsable file_no)) }
    ensures sound { IfErr result (λ fault. IsDamage fault → P.tells pages.old
        → IsCatalogPage (P.image pages.old catalog_no) → ⊥) }
    ensures fault { IfErr result (λ fault. P.tells pages.old
        → IsCatalogFault (P.image pages.old catalog_no) fault) }
    ensures whole { OnOk result (P.tells pages.old → IsCatalogPage (P.image pages.old catalog_no)) }
    ensures kept { Keeps P.Ground pages.old pages.new }
    ensures cause { HasCause (P.faults pages.old) (P.faults pages.new) result }
{
    let page = pages.get(alloc, PageNo::CATALOG)?;
    match CatalogView::of(page) {
        Some(view) => Ok(index_with(&view, file_no)),
        None => Err(no_catalog()),
    }
}

/// The index of the file with a number, which the catalog has.
pub fn index_of<P: ReadPages>(
    pages: &mut P,
    alloc: Global,
    file_no: u32,
) -> Result<Index, PortFault>
    requires { P.ready pages.old }
    ensures found { IfOk result (λ index. P.tells pages.old
        → index_at (P.image pages.old) file_no ≡ Some index) }
    ensures usable { IfOk result (IsUsable file_no) }
    ensures sound { IfErr result (λ fault. IsDamage fault → P.tells pages.old
        → IsCatalogPage (P.image pages.old catalog_no) → (index : Index)
        → index_at (P.image pages.old) file_no ≡ Some index → ⊥) }
    ensures fault { IfErr result (λ fault. P.tells pages.old
        → IsFileFault (P.image pages.old catalog_no) file_no fault) }
    ensures lists { IfOk result (λ index. P.tells pages.old
        → ListsFile (P.image pages.old catalog_no) file_no index) }
    ensures kept { Keeps P.Ground pages.old pages.new }
    ensures cause { HasCause (P.faults pages.old) (P.faults pages.new) result }
{
    match find_index(pages, alloc, file_no) {
        Ok(Some(index)) => Ok(index),
        Ok(None) => Err(no_catalog()),
        Err(fault) => Err(fault),
    }
}

/// Whether the page is the catalog and has a file with the number.
fn has_file(page: &[u8], file_no: u32) -> bool
    ensures whole { IsTrue result → IsCatalogPage page.now }
    ensures file { IsTrue result → Contains (numbers_on page.now) file_no }
    ensures none { result ≡ false → IsCatalogPage page.now
        → index_in file_no (catalog_on page.now).entries ≡ None }
{
    match CatalogView::of(page) {
        Some(view) => index_with(&view, file_no).is_some(),
        None => false,
    }
}

/// Whether the root of an index, where it has one, may be a page of a file.
pub fn has_placed_root<P: ReadPages>(pages: &P, index: &Index) -> bool
    requires { P.ready pages.now }
    ensures placed { IsTrue result → HasPlacedRoot (P.geometry pages.now) index.now.root }
    ensures other { result ≡ false → HasPlacedRoot (P.geometry pages.now) index.now.root → ⊥ }
{
    match index.root {
        None => true,
        Some(page) => pages.in_area(page) && page != PageNo::CATALOG,
    }
}

/// What the root of an index shows: it is an index page, at level 0 a page of the file.
fn root_seen(index: &Index) -> Seen
    ensures { result ≡ root_seen index.now.level index.now.file_no }
{
    if index.level == 0 {
        return Seen::file_page(index.file_no);
    }
    Seen::index(index.level, 0)
}

/// The fault of an index whose root lies where no page of a file lies.
pub fn no_root(index: &Index) -> PortFault
    ensures fault { (g : Geometry) → (HasPlacedRoot g index.now.root → ⊥)
        → IsRootFault g index.now result }
    ensures damage { IsDamage result }
    ensures cause { (before now : ℕ) → Cause before now result }
{
    PortFault::Damaged {
        page: index.root.unwrap_or(PageNo::CATALOG),
        want: root_seen(index),
        got: Seen::NOTHING,
    }
}

/// Writes an index into the entry of its file.
fn write_index<P: Pages>(
    pages: &mut P,
    alloc: Global,
    index: &Index,
    buffer: &mut [u8],
) -> Result<(), PortFault>
    requires ready { P.ready pages.old }
    requires usable { IsUsable index.now.file_no index.now }
    requires placed { HasPlacedRoot (P.geometry pages.old) index.now.root }
    requires buffer { length buffer.old ≡ (P.geometry pages.old).page_size }
    ensures sets { OnOk result (P.tells pages.old
        → SetsIndex P.Ground pages.old pages.new index.now) }
    ensures free { OnOk result (P.free pages.new ≡ P.free pages.old) }
    ensures held { OnOk result ((P.used pages.new ≡ P.used pages.old)
        × (P.held pages.new ≡ P.held pages.old)) }
    ensures sound { IfErr result (λ fault. IsDamage fault → P.tells pages.old
        → HasPlacedRoot (P.geometry pages.old) index.now.root
        → IsCatalogPage (P.image pages.old catalog_no)
        → (was : Index) → index_at (P.image pages.old) index.now.file_no ≡ Some was → ⊥) }
    ensures fault { IfErr result (λ fault. P.tells pages.old
        → IsFileFault (P.image pages.old catalog_no) index.now.file_no fault) }
    ensures touches { OnOk result (TouchesAtMost P.Ground pages.old pages.new 1) }
    ensures leads { P.leads pages.old pages.new }
    ensures cause { HasCause (P.faults pages.old) (P.faults pages.new) result }
{
    buffer.copy_from_slice(pages.get(alloc, PageNo::CATALOG)?);
    if !has_file(buffer, index.file_no) {
        return Err(no_catalog());
    }
    set_index(buffer, *index);
    pages.put(alloc, PageNo::CATALOG, buffer)
}

/// Writes an index into the entry of its file, where it is another than before.
pub fn change_index<P: Pages>(
    pages: &mut P,
    alloc: Global,
    old: &Index,
    new: &Index,
    buffer: &mut [u8],
) -> Result<(), PortFault>
    requires ready { P.ready pages.old }
    requires usable { IsUsable old.now.file_no new.now }
    requires placed { HasPlacedRoot (P.geometry pages.old) new.now.root }
    requires buffer { length buffer.old ≡ (P.geometry pages.old).page_size }
    ensures sets { OnOk result (P.tells pages.old → IsCatalogPage (P.image pages.old catalog_no)
        → index_at (P.image pages.old) old.now.file_no ≡ Some old.now
        → SetsIndex P.Ground pages.old pages.new new.now) }
    ensures free { OnOk result (P.free pages.new ≡ P.free pages.old) }
    ensures held { OnOk result ((P.used pages.new ≡ P.used pages.old)
        × (P.held pages.new ≡ P.held pages.old)) }
    ensures sound { IfErr result (λ fault. IsDamage fault → P.tells pages.old
        → HasPlacedRoot (P.geometry pages.old) new.now.root
        → IsCatalogPage (P.image pages.old catalog_no)
        → index_at (P.image pages.old) old.now.file_no ≡ Some old.now → ⊥) }
    ensures fault { IfErr result (λ fault. P.tells pages.old
        → IsFileFault (P.image pages.old catalog_no) old.now.file_no fault) }
    ensures touches { OnOk result (TouchesAtMost P.Ground pages.old pages.new 1) }
    ensures leads { P.leads pages.old pages.new }
    ensures cause { HasCause (P.faults pages.old) (P.faults pages.new) result }
{
    if *old == *new {
        return Ok(());
    }
    write_index(pages, alloc, new, buffer)
}
