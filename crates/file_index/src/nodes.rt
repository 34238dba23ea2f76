//! Index pages read and written over any port.
ghost use Rattle.std.specs.Prelude.{◌≡◌, ◌⊎◌, ◌≤◌, ◌<◌, ◌+◌, ◌-◌, [], ◌∷◌, ℕ, true, false, length, IfOk, IfErr, OnOk, IsTrue};
ghost use Rattle.ex_base.specs.declared.names.Area.TheVariants.{Page};
ghost use Rattle.ex_base.specs.Area.{catalog_no};
ghost use Rattle.ex_base.specs.Ports.{Keeps, HasCause, IsDamage};
ghost use Rattle.file_index.specs.IndexPage.{entries_on, most_entries};
ghost use Rattle.file_index.specs.Index.{IsFilesPage, IsNamed, least_entries};
ghost use Rattle.file_index.specs.Changes.{Changes};
ghost use Rattle.file_index.specs.Nodes.{IsWritten};
ghost use Rattle.file_index.specs.Damage.{IsPageFault};
ghost use Rattle.file_index.specs.Touches.{TouchesAtMost};
ghost use Rattle.file_index.specs.Taking.{OnlyTakes};

use crate::Entry;
use crate::named::{Named, checked, no_index_page};
use crate::write::write_index;
use ex_base::{PageNo, Pages, PortFault, ReadPages};
use std::alloc::Global;

/// Zeros, as many as a page has bytes.
pub fn page_buffer<P: ReadPages>(pages: &P, alloc: Global) -> Result<Vec<u8>, PortFault>
    requires { P.ready pages.now }
    ensures len { IfOk result (λ buffer. length buffer.items ≡ (P.geometry pages.now).page_size) }
    ensures no_damage { IfErr result (λ fault. IsDamage fault → ⊥) }
    ensures cause { (before now : ℕ) → HasCause before now result }
{
    match vec![in alloc; 0u8; pages.page_size() as usize] {
        Ok(buffer) => Ok(buffer),
        Err(_) => Err(PortFault::Memory),
    }
}

/// Whether a page may be written as one of a file: it may be a page of a file, and the working state has it.
pub fn may_be_written<P: Pages>(pages: &P, page: PageNo) -> bool
    requires { P.ready pages.now }
    ensures files { IsTrue result → IsFilesPage (P.geometry pages.now) page.0 }
    ensures held { IsTrue result → P.held pages.now page.0 ≡ true }
    ensures never { result ≡ false → (IsFilesPage (P.geometry pages.now) page.0 → ⊥)
        ⊎ (IsFilesPage (P.geometry pages.now) page.0 × (P.held pages.now page.0 ≡ false)) }
{
    pages.in_area(page) && page != PageNo::CATALOG && pages.has(page)
}

/// The entries of an index page that is to be written.
pub fn entries_at<P: Pages>(
    pages: &mut P,
    alloc: Global,
    named: &Named,
) -> Result<Vec<Entry>, PortFault>
    requires { P.ready pages.old }
    ensures entries { IfOk result (λ entries. P.tells pages.old
        → entries.items ≡ entries_on (P.image pages.old named.now.page.0)) }
    ensures named { OnOk result (P.tells pages.old
        → IsNamed (P.geometry pages.old).page_size
        (P.image pages.old named.now.page.0) named.now.level named.now.file_no named.now.least) }
    ensures few { IfOk result
        (λ entries. least_entries (P.geometry pages.old).page_size named.now.least
        ≤ length entries.items) }
    ensures many { IfOk result (λ entries. length entries.items
        ≤ most_entries (P.geometry pages.old).page_size) }
    ensures area { OnOk result (IsFilesPage (P.geometry pages.old) named.now.page.0) }
    ensures held { OnOk result (P.held pages.old named.now.page.0 ≡ true) }
    ensures sound { IfErr result (λ fault. IsDamage fault → P.tells pages.old
        → IsFilesPage (P.geometry pages.old) named.now.page.0
        → P.held pages.old named.now.page.0 ≡ true
        → IsNamed (P.geometry pages.old).page_size
        (P.image pages.old named.now.page.0) named.now.level named.now.file_no named.now.least
        → ⊥) }
    ensures fault { IfErr result (λ fault. P.tells pages.old
        → IsPageFault (P.geometry pages.old) (P.held pages.old)
        (P.image pages.old named.now.page.0)
        named.now.level named.now.file_no named.now.least named.now.page.0 fault) }
    ensures kept { Keeps P.Ground pages.old pages.new }
    ensures cause { HasCause (P.faults pages.old) (P.faults pages.new) result }
{
    if !may_be_written(pages, named.page) {
        return Err(no_index_page(named));
    }
    let page = pages.get(alloc, named.page)?;
    match checked(page, named) {
        Ok(view) => match view.to_entries(alloc) {
            Ok(entries) => Ok(entries),
            Err(_) => Err(PortFault::Memory),
        },
        Err(fault) => Err(fault),
    }
}

/// Writes the entries of an index page.
pub fn put_index<P: Pages>(
    pages: &mut P,
    alloc: Global,
    named: &Named,
    entries: &[Entry],
    buffer: &mut [u8],
) -> Result<(), PortFault>
    requires ready { P.ready pages.old }
    requires page { IsFilesPage (P.geometry pages.old) named.now.page.0 }
    requires held { P.held pages.old named.now.page.0 ≡ true }
    requires level { 1 ≤ named.now.level }
    requires some { 1 ≤ length entries.now }
    requires room { length entries.now ≤ most_entries (P.geometry pages.old).page_size }
    requires buffer { length buffer.old ≡ (P.geometry pages.old).page_size }
    ensures written { OnOk result (P.tells pages.old
        → IsWritten P.Ground pages.new named.now.page.0
        named.now.level named.now.file_no entries.now) }
    ensures changes { OnOk result (Changes P.Ground pages.old pages.new (named.now.page.0
        ∷ []) (named.now.page.0 ∷ [])) }
    ensures held { OnOk result (P.held pages.new ≡ P.held pages.old) }
    ensures used { OnOk result (P.used pages.new ≡ P.used pages.old) }
    ensures free { OnOk result (P.free pages.new ≡ P.free pages.old) }
    ensures catalog { OnOk result (P.image pages.new catalog_no ≡ P.image pages.old catalog_no) }
    ensures touches { TouchesAtMost P.Ground pages.old pages.new 1 }
    ensures leads { P.leads pages.old pages.new }
    ensures no_damage { IfErr result (λ fault. IsDamage fault → ⊥) }
    ensures cause { HasCause (P.faults pages.old) (P.faults pages.new) result }
{
    let level = named.level;
    let file_no = named.file_no;
    write_index(level, file_no, entries, buffer);
    pages.put(alloc, named.page, buffer)
}

/// Takes a page for entries.
pub fn take_index<P: Pages>(
    pages: &mut P,
    alloc: Global,
    level: u8,
    file_no: u32,
    entries: &[Entry],
    buffer: &mut [u8],
) -> Result<PageNo, PortFault>
    requires ready { P.ready pages.old }
    requires free { 1 ≤ P.free pages.old Page }
    requires level { 1 ≤ level }
    requires some { 1 ≤ length entries.now }
    requires room { length entries.now ≤ most_entries (P.geometry pages.old).page_size }
    requires buffer { length buffer.old ≡ (P.geometry pages.old).page_size }
    ensures written { IfOk result (λ page. P.tells pages.old
        → IsWritten P.Ground pages.new page.0 level file_no entries.now) }
    ensures changes { IfOk result (λ page. Changes P.Ground pages.old pages.new [] (page.0 ∷ [])) }
    ensures area { IfOk result (λ page. IsFilesPage (P.geometry pages.old) page.0) }
    ensures free { OnOk result (P.free pages.new Page + 1 ≡ P.free pages.old Page) }
    ensures takes { OnOk result (OnlyTakes P.Ground pages.old pages.new) }
    ensures catalog { OnOk result (P.image pages.new catalog_no ≡ P.image pages.old catalog_no) }
    ensures touches { TouchesAtMost P.Ground pages.old pages.new 1 }
    ensures leads { P.leads pages.old pages.new }
    ensures no_damage { IfErr result (λ fault. IsDamage fault → ⊥) }
    ensures cause { HasCause (P.faults pages.old) (P.faults pages.new) result }
{
    write_index(level, file_no, entries, buffer);
    pages.take_page(alloc, buffer)
}
