//! The record of a transaction.
ghost use Rattle.std.specs.Prelude.{◌≡◌, ◌≤◌, ◌<◌, length, IfOk, None};
ghost use Rattle.std.specs.List.{AllByRecursion};
ghost use Rattle.ex_base.specs.Area.{log_size};
ghost use Rattle.ex_base.specs.Limits.{touched_most, updates_most};
ghost use Rattle.meta_pages.specs.Overlays.{AreRows, committed_image};
ghost use Rattle.op_log.specs.Records.{IsLogRecord, IsNote, record_len};
ghost use Rattle.op_log.specs.declared.kind.RecordKind.TheVariants.{Forms};
ghost use Rattle.volume_model.specs.Committed.{AreEntries, IsRecordOf, given_back};
ghost use Rattle.commits.specs.Room.{HasCatalog};

use ex_base::{Items, OpNote};
use meta_pages::Meta;
use op_log::{LogRecord, Notes, PageList, RecordKind};
use page_entries::{Entries, entry_for};
use std::alloc::{AllocError, Global};

/// The record of the transaction: its number, its notes, what became of the pages that it changed, by the rule over the committed images, and the
/// pages that it gave back.
pub fn record_of(
    alloc: Global,
    meta: &Meta,
    notes: &[OpNote],
    txn: u64,
) -> Result<LogRecord, AllocError>
    requires few_notes { length notes.now ≤ updates_most }
    requires notes { AllByRecursion IsNote notes.now }
    requires few_pages { length meta.now.working ≤ touched_most }
    requires catalog { HasCatalog meta.now.working }
    ensures rule { IfOk result
        (λ r. IsRecordOf (committed_image meta.now) txn notes.now meta.now.working r) }
    ensures rows { AreRows meta.now }
    ensures valid { IfOk result (IsLogRecord meta.now.geometry) }
{
    let pages = entries_of(alloc, meta)?;
    record_with(alloc, meta, pages, notes, txn)
}

/// The record of the transaction for a log in which no record counts, with all bytes of each page that it changed. It always has room there.
pub fn record_of_images(
    alloc: Global,
    meta: &Meta,
    notes: &[OpNote],
    txn: u64,
) -> Result<LogRecord, AllocError>
    requires few_notes { length notes.now ≤ updates_most }
    requires notes { AllByRecursion IsNote notes.now }
    requires few_pages { length meta.now.working ≤ touched_most }
    requires catalog { HasCatalog meta.now.working }
    ensures rule { IfOk result
        (λ r. IsRecordOf (λ page. None) txn notes.now meta.now.working r) }
    ensures room { IfOk result (λ r. record_len r < log_size meta.now.geometry) }
    ensures valid { IfOk result (IsLogRecord meta.now.geometry) }
{
    let pages = images_of(alloc, meta)?;
    record_with(alloc, meta, pages, notes, txn)
}

fn record_with(
    alloc: Global,
    meta: &Meta,
    pages: Entries,
    notes: &[OpNote],
    txn: u64,
) -> Result<LogRecord, AllocError>
    ensures rows { AreRows meta.now }
    ensures value { IfOk result (λ r. r ≡ record {
      kind = Forms;
      txn = txn;
      notes = notes.now;
      pages = pages;
      freed = given_back meta.now.working;
    }) }
{
    let freed = freed_of(alloc, meta)?;
    let notes = notes_of(alloc, notes)?;
    Ok(LogRecord {
        kind: RecordKind::Forms,
        txn,
        notes,
        pages,
        freed,
    })
}

// What became of each changed page, by the rule over the committed images.
fn entries_of(alloc: Global, meta: &Meta) -> Result<Entries, AllocError>
    ensures rule { IfOk result
        (λ entries. AreEntries (committed_image meta.now) meta.now.working entries) }
    ensures rows { AreRows meta.now }
{
    let mut pages: Entries = Items::make(alloc);
    for index in 0..meta.touched() {
        match meta.entry_at(alloc, index)? {
            Some(entry) => pages.push(entry)?,
            None => {}
        }
    }
    Ok(pages)
}

// All bytes of each changed page.
fn images_of(alloc: Global, meta: &Meta) -> Result<Entries, AllocError>
    ensures { IfOk result (λ entries. AreEntries (λ page. None) meta.now.working entries) }
{
    let mut pages: Entries = Items::make(alloc);
    for index in 0..meta.touched() {
        match meta.touched_at(index) {
            Some((page, Some(bytes))) => pages.push(entry_for(alloc, page, None, bytes)?)?,
            Some((_, None)) => {}
            None => {}
        }
    }
    Ok(pages)
}

// The pages that were given back.
fn freed_of(alloc: Global, meta: &Meta) -> Result<PageList, AllocError>
    ensures value { IfOk result (λ pages. pages ≡ given_back meta.now.working) }
    ensures rows { AreRows meta.now }
{
    let mut pages: PageList = Items::make(alloc);
    for index in 0..meta.touched() {
        match meta.touched_at(index) {
            Some((page, None)) => pages.push(page)?,
            Some((_, Some(_))) => {}
            None => {}
        }
    }
    Ok(pages)
}

fn notes_of(alloc: Global, notes: &[OpNote]) -> Result<Notes, AllocError>
    ensures { IfOk result (λ items. items ≡ notes.now) }
{
    let mut items: Notes = Items::make(alloc);
    for note in notes {
        items.push(*note)?;
    }
    Ok(items)
}
