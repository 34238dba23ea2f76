//! The head of a file's item, as it is read.
ghost use Rattle.std.specs.Prelude.{◌≡◌, ◌≤◌, ◌<◌, ◌^◌, ℕ, suc, List, length, take, slice_get, Some, IfOk, IfErr, OnOk};
ghost use Rattle.ex_base.specs.Area.{catalog_no};
ghost use Rattle.ex_base.specs.Ports.{Cause, Keeps, HasCause, IsDamage};
ghost use Rattle.history_items.specs.Gathering.{item_most};
ghost use Rattle.history_items.specs.Reads.{file_front};
ghost use Rattle.history_model.specs.History.{HistoryFile};
ghost use Rattle.history_model.specs.Stream.{file_head};
ghost use Rattle.object_files.specs.Catalog.{Catalog, CatalogOf, FileEntry};
ghost use Rattle.object_files.specs.Reads.{entry_of};
ghost use Rattle.history_dump.specs.Items.{IsListedFile};
ghost use Rattle.history_plans.specs.Plans.{StreamPlan};
ghost use Rattle.history_dump.specs.Positions.{AreRecordsOf};

use ex_base::{PageNo, PortFault, ReadVolume, Seen};
use history_items::{FileHead, write_file_head};
use history_plans::records_in_order;
use object_files::{CatalogView, Entry};
use record_lists::Listed;
use std::alloc::Global;

/// The fault of a catalog that is outside of its grammar, or has no such file.
fn no_entry() -> PortFault
    ensures damage { IsDamage result }
    ensures cause { (before now : ℕ) → Cause before now result }
{
    PortFault::Damaged {
        page: PageNo::CATALOG,
        want: Seen::CATALOG,
        got: Seen::NOTHING,
    }
}

/// The entry at an index of the catalog that stands on a page.
fn entry_on(page: &[u8], at: u32) -> Result<Entry<'_>, PortFault>
    ensures entry { IfOk result (λ entry. (catalog : Catalog) × CatalogOf page.now catalog
        × (slice_get catalog.entries at ≡ Some (entry_of entry))) }
    ensures sound { IfErr result (λ fault. (catalog : Catalog) (entry : FileEntry)
        → CatalogOf page.now catalog → slice_get catalog.entries at ≡ Some entry → ⊥) }
    ensures cause { (before now : ℕ) → HasCause before now result }
{
    match CatalogView::of(page) {
        Some(view) => {
            if at < view.len() {
                return Ok(view.entry(at));
            }
            Err(no_entry())
        }
        None => Err(no_entry()),
    }
}

/// The number of the file of an entry of the catalog.
fn number_on(page: &[u8], at: u32) -> Result<u32, PortFault>
    ensures number { IfOk result (λ number. (catalog : Catalog) (entry : FileEntry)
        → CatalogOf page.now catalog → slice_get catalog.entries at ≡ Some entry
        → number ≡ entry.file_no) }
    ensures sound { IfErr result (λ fault. (catalog : Catalog) (entry : FileEntry)
        → CatalogOf page.now catalog → slice_get catalog.entries at ≡ Some entry → ⊥) }
    ensures cause { (before now : ℕ) → HasCause before now result }
{
    match entry_on(page, at) {
        Ok(entry) => Ok(entry.file_no),
        Err(fault) => Err(fault),
    }
}

/// Makes the head of a file's item of its entry and of the number of its versions; it answers how many bytes it has.
fn put_entry(page: &[u8], at: u32, versions: u32, out: &mut [u8]) -> Result<usize, PortFault>
    requires room { 37 ≤ length out.old }
    ensures item { IfOk result (λ n. (catalog : Catalog) (entry : FileEntry)
        → CatalogOf page.now catalog → slice_get catalog.entries at ≡ Some entry
        → take n out.new ≡ file_front entry.name versions) }
    ensures some { IfOk result (λ n. 0 < n) }
    ensures inside { IfOk result (λ n. n ≤ length out.old) }
    ensures sound { IfErr result (λ fault. (catalog : Catalog) (entry : FileEntry)
        → CatalogOf page.now catalog → slice_get catalog.entries at ≡ Some entry → ⊥) }
    ensures cause { (before now : ℕ) → HasCause before now result }
{
    match entry_on(page, at) {
        Ok(entry) => {
            let head = FileHead {
                name: entry.name,
                versions,
            };
            Ok(write_file_head(&head, out))
        }
        Err(fault) => Err(fault),
    }
}

/// Reads the number of the file of an entry of the catalog.
fn number_at<V: ReadVolume>(volume: &mut V, alloc: Global, at: u32) -> Result<u32, PortFault>
    requires { V.ready volume.old }
    ensures number { IfOk result (λ number. V.tells volume.old → (catalog : Catalog)
        (entry : FileEntry) → CatalogOf (V.image volume.old catalog_no) catalog
        → slice_get catalog.entries at ≡ Some entry → number ≡ entry.file_no) }
    ensures sound { IfErr result (λ fault. IsDamage fault → V.tells volume.old → (catalog : Catalog)
        (entry : FileEntry) → CatalogOf (V.image volume.old catalog_no) catalog
        → slice_get catalog.entries at ≡ Some entry → ⊥) }
    ensures kept { Keeps V.Ground volume.old volume.new }
    ensures cause { HasCause (V.faults volume.old) (V.faults volume.new) result }
{
    let page = volume.get(alloc, PageNo::CATALOG)?;
    number_on(page, at)
}

/// Reads the entry of a file and makes the head of its item; it answers how many bytes it has.
fn put_head<V: ReadVolume>(
    volume: &mut V,
    alloc: Global,
    at: u32,
    versions: u32,
    out: &mut [u8],
) -> Result<usize, PortFault>
    requires ready { V.ready volume.old }
    requires room { 37 ≤ length out.old }
    ensures item { IfOk result (λ n. V.tells volume.old → (catalog : Catalog) (entry : FileEntry)
        → CatalogOf (V.image volume.old catalog_no) catalog
        → slice_get catalog.entries at ≡ Some entry
        → take n out.new ≡ file_front entry.name versions) }
    ensures some { IfOk result (λ n. 0 < n) }
    ensures inside { IfOk result (λ n. n ≤ length out.old) }
    ensures sound { IfErr result (λ fault. IsDamage fault → V.tells volume.old → (catalog : Catalog)
        (entry : FileEntry) → CatalogOf (V.image volume.old catalog_no) catalog
        → slice_get catalog.entries at ≡ Some entry → ⊥) }
    ensures kept { Keeps V.Ground volume.old volume.new }
    ensures cause { HasCause (V.faults volume.old) (V.faults volume.new) result }
{
    let page = volume.get(alloc, PageNo::CATALOG)?;
    put_entry(page, at, versions, out)
}

/// How many versions a head says.
fn count_of(records: &[Listed]) -> Result<u32, PortFault>
    ensures count { IfOk result (λ count. count ≡ length records.now) }
    ensures sound { IfErr result (λ fault. length records.now < 2 ^ 32 → ⊥) }
    ensures cause { (before now : ℕ) → HasCause before now result }
{
    if records.len() > u32::MAX as usize {
        return Err(no_entry());
    }
    Ok(records.len() as u32)
}

/// The records of the file of an entry of the catalog, in order of the numbers of their versions.
fn list_file<V: ReadVolume>(
    volume: &mut V,
    alloc: Global,
    at: u32,
) -> Result<Vec<Listed>, PortFault>
    requires { V.ready volume.old }
    ensures listed { IfOk result (λ records. V.tells volume.old → (plan : StreamPlan)
        (f : HistoryFile) → IsListedFile V.Ground volume.old plan at f
        → AreRecordsOf (V.image volume.old) (suc at) records.items
        × (length records.items ≡ length f.versions)) }
    ensures sound { IfErr result (λ fault. IsDamage fault → V.tells volume.old
        → (plan : StreamPlan) (f : HistoryFile)
        → IsListedFile V.Ground volume.old plan at f → ⊥) }
    ensures kept { Keeps V.Ground volume.old volume.new }
    ensures cause { HasCause (V.faults volume.old) (V.faults volume.new) result }
{
    match number_at(volume, alloc, at) {
        Ok(number) => records_in_order(volume, alloc, number),
        Err(fault) => Err(fault),
    }
}

/// Makes the head of a file's item, over the first bytes, for versions of which these are the records; it answers how many they are.
fn put_listed<V: ReadVolume>(
    volume: &mut V,
    alloc: Global,
    at: u32,
    records: &[Listed],
    out: &mut [u8],
) -> Result<usize, PortFault>
    requires ready { V.ready volume.old }
    requires room { 37 ≤ length out.old }
    ensures item { IfOk result (λ n. V.tells volume.old → (catalog : Catalog) (entry : FileEntry)
        → CatalogOf (V.image volume.old catalog_no) catalog
        → slice_get catalog.entries at ≡ Some entry
        → take n out.new ≡ file_front entry.name (length records.now)) }
    ensures some { IfOk result (λ n. 0 < n) }
    ensures inside { IfOk result (λ n. n ≤ length out.old) }
    ensures sound { IfErr result (λ fault. IsDamage fault → V.tells volume.old → (catalog : Catalog)
        (entry : FileEntry) → CatalogOf (V.image volume.old catalog_no) catalog
        → slice_get catalog.entries at ≡ Some entry → length records.now < 2 ^ 32 → ⊥) }
    ensures kept { Keeps V.Ground volume.old volume.new }
    ensures cause { HasCause (V.faults volume.old) (V.faults volume.new) result }
{
    match count_of(records) {
        Ok(count) => put_head(volume, alloc, at, count, out),
        Err(fault) => Err(fault),
    }
}

/// Lists the records of a file in order of the numbers of their versions, and makes the head of its item over the first bytes; it answers how many they are.
pub(crate) fn put_file<V: ReadVolume>(
    volume: &mut V,
    alloc: Global,
    at: u32,
    records: &mut Vec<Listed>,
    out: &mut [u8],
) -> Result<usize, PortFault>
    requires ready { V.ready volume.old }
    requires room { item_most (V.geometry volume.old) ≤ length out.old }
    ensures item { IfOk result (λ n. V.tells volume.old → (plan : StreamPlan) (f : HistoryFile)
        → IsListedFile V.Ground volume.old plan at f → take n out.new ≡ file_head f) }
    ensures listed { OnOk result (V.tells volume.old → (plan : StreamPlan) (f : HistoryFile)
        → IsListedFile V.Ground volume.old plan at f
        → AreRecordsOf (V.image volume.old) (suc at) records.new.items) }
    ensures some { IfOk result (λ n. 0 < n) }
    ensures inside { IfOk result (λ n. n ≤ length out.old) }
    ensures sound { IfErr result (λ fault. IsDamage fault → V.tells volume.old
        → (plan : StreamPlan) (f : HistoryFile)
        → IsListedFile V.Ground volume.old plan at f → ⊥) }
    ensures kept { Keeps V.Ground volume.old volume.new }
    ensures cause { HasCause (V.faults volume.old) (V.faults volume.new) result }
{
    match list_file(volume, alloc, at) {
        Ok(listed) => {
            *records = listed;
            put_listed(volume, alloc, at, records, out)
        }
        Err(fault) => Err(fault),
    }
}
