//! The pages with records of all files, and the records on them.
ghost use Rattle.std.specs.Prelude.{◌≡◌, ◌≤◌, ◌+◌, ℕ, [], false, length, IfOk, IfErr, IfSome, IfNone, OnSome, IsTrue};
ghost use Rattle.std.specs.List.{AllByRecursion};
ghost use Rattle.ex_base.specs.Area.{InPageArea};
ghost use Rattle.ex_base.specs.Order.{Rising};
ghost use Rattle.ex_base.specs.Ports.{Keeps, HasCause, IsDamage};
ghost use Rattle.slotted_pages.specs.Reads.{page_on, viewed_on};
ghost use Rattle.slotted_pages.specs.FilePage.{FilePage, SlotsOf};
ghost use Rattle.object_records.specs.Record.{BodyOf, Record};
ghost use Rattle.record_links.specs.Links.{InPlaceOrder};
ghost use Rattle.object_records.specs.Reads.{content_of};
ghost use Rattle.object_files.specs.Reads.{entry_of};
ghost use Rattle.trees.specs.Trees.{Units as Images};
ghost use Rattle.volume_model.specs.Parts.{bodies_from};
ghost use Rattle.file_walk.specs.Walk.{Tells, page_numbers};
ghost use Rattle.file_walk.specs.Indexes.{IsInArea};
ghost use Rattle.file_walk.specs.Objects.{StandBefore, links_of, root_found};
ghost use Rattle.file_walk.specs.Records.{IsGoodRow, standing_at, rows_on, rows_among, IsPageOf, AddsRows, AreRooted, ShowsFile, AreFilePages, rows_of};

use crate::indexes::FilePages;
use ex_base::{PageNo, Place, PortFault, ReadPages, Root};
use object_files::Entry;
use object_records::{Payload, RecordView};
use record_links::Linked;
use slotted_pages::SlottedView;
use std::alloc::{AllocError, Global};

/// A record of a file that is read: where it stands and its head, and the root of a large one.
#[derive(Clone, Copy, Debug)]
pub struct Standing {
    pub linked: Linked,
    pub root: Option<Root>,
}

/// The root of a large record.
fn root_in(payload: Payload) -> Option<Root>
    ensures { result ≡ root_found (content_of payload.entry) }
{
    match payload {
        Payload::Small(_) => None,
        Payload::Large(root) => Some(root),
    }
}

/// The record of a body at a place. None where the body is none.
fn standing_in(place: Place, body: &[u8]) -> Option<Standing>
    ensures good { OnSome result (IsGoodRow (place, body.now)) }
    ensures found { IfSome result (λ found. found ≡ standing_at (place, body.now)) }
    ensures none { IfNone result ((r : Record) → BodyOf body.now r → ⊥) }
{
    let record = RecordView::of(body)?;
    let linked = Linked {
        place,
        head: record.head(),
    };
    let root = root_in(record.payload());
    Some(Standing { linked, root })
}

/// Adds the records of a page. False where one of its bodies is no good record.
fn add_records(
    page: PageNo,
    view: &SlottedView,
    records: &mut Vec<Standing>,
) -> Result<bool, AllocError>
    ensures good { IfOk result (λ good. IsTrue good
        → AddsRows records.old.items records.new.items (bodies_from page.0 0 view.now.page.slots)) }
    ensures bad { IfOk result (λ good. good ≡ false
        → AllByRecursion IsGoodRow (bodies_from page.0 0 view.now.page.slots) → ⊥) }
    ensures order { IfOk result (λ good. IsTrue good → StandBefore records.old.items page.0 0
        → StandBefore records.new.items (page.0 + 1) 0) }
{
    for slot in 0..view.slots() {
        let Some(body) = view.body(slot) else {
            continue;
        };
        match standing_in(Place { page, slot }, body) {
            None => return Ok(false),
            Some(standing) => records.push(standing)?,
        }
    }
    Ok(true)
}

/// The view of a page, exactly where it is one of a file: in its grammar, with a record and the file's number.
fn checked(bytes: &[u8], file_no: u32) -> Option<SlottedView<'_>>
    ensures some { OnSome result (ShowsFile bytes.now file_no) }
    ensures view { IfSome result (λ view. view ≡ viewed_on bytes.now) }
    ensures none { IfNone result (ShowsFile bytes.now file_no → ⊥) }
{
    let view = SlottedView::of(bytes)?;
    if view.slots() > 0 && view.file_no() == file_no {
        Some(view)
    } else {
        None
    }
}

/// Adds the records of a page of the file of an entry. None where the page isn't one of the file; false where one of its bodies is no good record.
fn read_page<P: ReadPages>(
    pages: &mut P,
    alloc: Global,
    page: PageNo,
    entry: &Entry,
    records: &mut Vec<Standing>,
) -> Result<Option<bool>, PortFault>
    requires ready { P.ready pages.old }
    requires area { InPageArea (P.geometry pages.old) page.0 }
    ensures of_file { IfOk result (λ found. OnSome found ((images : Images)
        → Tells P.Ground pages.old images → IsPageOf images (entry_of entry.now) page.0)) }
    ensures none { IfOk result (λ found. IfNone found ((images : Images)
        → Tells P.Ground pages.old images → IsPageOf images (entry_of entry.now) page.0 → ⊥)) }
    ensures good { IfOk result (λ found. IfSome found (λ good. IsTrue good → (images : Images)
        → Tells P.Ground pages.old images
        → AddsRows records.old.items records.new.items (rows_on images page.0))) }
    ensures roots { IfOk result (λ found. IfSome found (λ good. IsTrue good
        → AreRooted records.old.items → AreRooted records.new.items)) }
    ensures bad { IfOk result (λ found. IfSome found (λ good. good ≡ false → (images : Images)
        → Tells P.Ground pages.old images
        → AllByRecursion IsGoodRow (rows_on images page.0) → ⊥)) }
    ensures order { IfOk result (λ found. IfSome found (λ good. IsTrue good
        → StandBefore records.old.items page.0 0 → StandBefore records.new.items (page.0 + 1) 0)) }
    ensures no_damage { IfErr result (λ fault. IsDamage fault → ⊥) }
    ensures kept { Keeps P.Ground pages.old pages.new }
    ensures cause { HasCause (P.faults pages.old) (P.faults pages.new) result }
{
    let bytes = pages.get(alloc, page)?;
    match checked(bytes, entry.file_no) {
        None => Ok(None),
        Some(view) => Ok(Some(add_records(page, &view, records)?)),
    }
}

/// Adds the records of the file of an entry. None where a page isn't one of the file; false where a body is no good record.
pub(crate) fn read_file<P: ReadPages>(
    pages: &mut P,
    alloc: Global,
    entry: &Entry,
    file: &FilePages,
    records: &mut Vec<Standing>,
) -> Result<Option<bool>, PortFault>
    requires ready { P.ready pages.old }
    requires area { IsInArea (P.geometry pages.old) file.now }
    ensures of_file { IfOk result (λ found. OnSome found ((images : Images)
        → Tells P.Ground pages.old images → AreFilePages images (entry_of entry.now) file.now)) }
    ensures none { IfOk result (λ found. IfNone found ((images : Images)
        → Tells P.Ground pages.old images → AreFilePages images (entry_of entry.now) file.now
        → ⊥)) }
    ensures good { IfOk result (λ found. IfSome found (λ good. IsTrue good → (images : Images)
        → Tells P.Ground pages.old images
        → AddsRows records.old.items records.new.items (rows_of images file.now))) }
    ensures roots { IfOk result (λ found. IfSome found (λ good. IsTrue good
        → AreRooted records.old.items → AreRooted records.new.items)) }
    ensures bad { IfOk result (λ found. IfSome found (λ good. good ≡ false → (images : Images)
        → Tells P.Ground pages.old images
        → AllByRecursion IsGoodRow (rows_of images file.now) → ⊥)) }
    ensures order { IfOk result (λ found. IfSome found (λ good. IsTrue good
        → Rising (page_numbers file.now.numbers.items) → records.old.items ≡ []
        → InPlaceOrder (links_of records.new.items))) }
    ensures no_damage { IfErr result (λ fault. IsDamage fault → ⊥) }
    ensures kept { Keeps P.Ground pages.old pages.new }
    ensures cause { HasCause (P.faults pages.old) (P.faults pages.new) result }
{
    let mut good = true;
    for page in &file.numbers {
        let page_good = match read_page(pages, alloc, *page, entry, records) {
            Ok(Some(page_good)) => page_good,
            Ok(None) => return Ok(None),
            Err(fault) => return Err(fault),
        };
        if page_good {
            continue;
        }
        good = false;
    }
    Ok(Some(good))
}
