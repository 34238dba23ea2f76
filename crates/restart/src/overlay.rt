//! What a log holds over the homes of pages.
ghost use Rattle.std.specs.Prelude.{◌≡◌, ℕ, List, [], IfOk, IfSome, IfNone, Ok, true, false};
ghost use Rattle.std.specs.List.{AllByRecursion};
ghost use Rattle.ex_base.specs.declared.geometry.Geometry.{Geometry};
ghost use Rattle.meta_pages.specs.Overlays.{committed_image};
ghost use Rattle.op_log.specs.AfterLog.{after_entries, logged, page_after, AllApply, EntriesApply};
ghost use Rattle.op_log.specs.Records.{IsLogRecord};
ghost use Rattle.restart.specs.Adopting.{freed_over};

use ex_base::{Geometry, PageNo};
use meta_pages::Meta;
use op_log::LogRecord;
use std::alloc::{AllocError, Global};

/// The overlay of these records: what they make of each page. None exactly where an entry of theirs doesn't apply.
pub fn overlay_of(
    alloc: Global,
    geometry: &Geometry,
    records: &[LogRecord],
) -> Result<Option<Meta>, AllocError>
    requires { AllByRecursion (IsLogRecord geometry.now) records.now }
    ensures geometry { IfOk result (λ found. IfSome found (λ m. m.geometry ≡ geometry.now)) }
    ensures working { IfOk result (λ found. IfSome found (λ m. m.working ≡ [])) }
    ensures apply { IfOk result (λ found. IfSome found (λ m. AllApply records.now)) }
    ensures just { IfOk result (λ found. IfSome found (λ m. (page : ℕ)
        → committed_image m page ≡ logged records.now page)) }
    ensures refused { IfOk result (λ found. IfNone found (AllApply records.now → ⊥)) }
{
    let mut meta = Meta::make(alloc, geometry)?;
    for item in records {
        if !adopt_record(alloc, &mut meta, item)? {
            return Ok(None);
        }
    }
    Ok(Some(meta))
}

// Takes over what a record says of the pages. False exactly where an entry doesn't apply.
fn adopt_record(alloc: Global, meta: &mut Meta, item: &LogRecord) -> Result<bool, AllocError>
    requires { IsLogRecord meta.old.geometry item.now }
    ensures geometry { meta.new.geometry ≡ meta.old.geometry }
    ensures working { meta.new.working ≡ meta.old.working }
    ensures apply { result ≡ Ok true → EntriesApply (committed_image meta.old) item.now.pages }
    ensures just { result ≡ Ok true → (page : ℕ)
        → committed_image meta.new page ≡ page_after item.now page
        (committed_image meta.old page) }
    ensures refused { result ≡ Ok false
        → EntriesApply (committed_image meta.old) item.now.pages → ⊥ }
{
    if !adopt_entries(alloc, meta, item)? {
        return Ok(false);
    }
    forget_pages(meta, item.freed.as_slice());
    Ok(true)
}

// Takes over the entries of a record, one after the other. False exactly where one doesn't apply.
fn adopt_entries(alloc: Global, meta: &mut Meta, item: &LogRecord) -> Result<bool, AllocError>
    requires { IsLogRecord meta.old.geometry item.now }
    ensures geometry { meta.new.geometry ≡ meta.old.geometry }
    ensures working { meta.new.working ≡ meta.old.working }
    ensures apply { result ≡ Ok true → EntriesApply (committed_image meta.old) item.now.pages }
    ensures just { result ≡ Ok true → (page : ℕ)
        → committed_image meta.new page ≡ after_entries item.now.pages page
        (committed_image meta.old page) }
    ensures refused { result ≡ Ok false
        → EntriesApply (committed_image meta.old) item.now.pages → ⊥ }
{
    for entry in item.pages.as_slice() {
        if !meta.adopt_entry(alloc, entry)? {
            return Ok(false);
        }
    }
    Ok(true)
}

// Takes the images of pages out that were given back.
fn forget_pages(meta: &mut Meta, pages: &[PageNo])
    ensures geometry { meta.new.geometry ≡ meta.old.geometry }
    ensures working { meta.new.working ≡ meta.old.working }
    ensures just { (page : ℕ)
        → committed_image meta.new page ≡ freed_over pages.now page
        (committed_image meta.old page) }
{
    for page in pages {
        meta.forget_page(*page);
    }
}
