//! The records on one page of a file.
ghost use Rattle.std.specs.Prelude.{◌≡◌, ◌++◌, ℕ, map, IfOk, IfErr, IfSome, IfNone, OnOk};
ghost use Rattle.ex_base.specs.Ports.{Cause, Keeps, HasCause, IsDamage};
ghost use Rattle.object_records.specs.Record.{Record, BodyOf};
ghost use Rattle.slotted_pages.specs.Reads.{viewed_on};
ghost use Rattle.file_bodies.specs.Bodies.{bodies_from, bodies_on};
ghost use Rattle.file_bodies.specs.Files.{IsPageOf};
ghost use Rattle.file_index.specs.Index.{IsFilesPage};
ghost use Rattle.versions.specs.Listed.{AreReadable};
ghost use Rattle.versions.specs.Versions.{root_of};
ghost use Rattle.record_lists.specs.Listed.{listed_at, listed_of};

use crate::Listed;
use ex_base::{PageNo, Place, PortFault, ReadVolume, Root, Seen};
use object_records::{Payload, RecordView};
use slotted_pages::SlottedView;
use std::alloc::Global;
use versions::no_record;

/// The root of the tree of a large version, none of a small one.
fn root_seen(view: &RecordView) -> Option<Root>
    ensures { result ≡ root_of view.now.content }
{
    match view.payload() {
        Payload::Small(_) => None,
        Payload::Large(root) => Some(root),
    }
}

/// What is listed of the record in the body at a place, where it is one.
fn listed_in(place: Place, body: &[u8]) -> Option<Listed>
    ensures listed { IfSome result (λ listed. listed ≡ listed_at place body.now) }
    ensures none { IfNone result ((is : Record) → BodyOf body.now is → ⊥) }
{
    let view = RecordView::of(body)?;
    Some(Listed {
        place,
        head: view.head(),
        root: root_seen(&view),
        len: body.len(),
    })
}

/// Lists the records on a page behind others.
fn list_bodies(
    page: PageNo,
    view: &SlottedView<'_>,
    records: &mut Vec<Listed>,
) -> Result<(), PortFault>
    ensures listed { OnOk result (records.new.items ≡ records.old.items
        ++ map listed_of (bodies_from page.0 0 view.now.page.slots)) }
    ensures sound { IfErr result (λ fault. IsDamage fault
        → AreReadable (bodies_from page.0 0 view.now.page.slots) → ⊥) }
    ensures cause { (before now : ℕ) → HasCause before now result }
{
    for slot in 0..view.slots() {
        let Some(body) = view.body(slot) else {
            continue;
        };
        let place = Place { page, slot };
        let Some(listed) = listed_in(place, body) else {
            return Err(no_record(place));
        };
        if records.push(listed).is_err() {
            return Err(PortFault::Memory);
        }
    }
    Ok(())
}

/// The fault of a page that is no page of a file with bodies.
fn no_page(page: PageNo, file_no: u32) -> PortFault
    ensures damage { IsDamage result }
    ensures cause { (before now : ℕ) → Cause before now result }
{
    PortFault::Damaged {
        page,
        want: Seen::file_page(file_no),
        got: Seen::NOTHING,
    }
}

/// The view of a page, exactly where it is one of a file.
fn checked(bytes: &[u8], page: PageNo, file_no: u32) -> Result<SlottedView<'_>, PortFault>
    ensures view { IfOk result (λ view. view ≡ viewed_on bytes.now) }
    ensures sound { IfErr result (λ fault. IsPageOf file_no bytes.now → ⊥) }
    ensures cause { (before now : ℕ) → HasCause before now result }
{
    let Some(view) = SlottedView::of(bytes) else {
        return Err(no_page(page, file_no));
    };
    if view.slots() == 0 || view.file_no() != file_no {
        return Err(no_page(page, file_no));
    }
    Ok(view)
}

/// Lists the records on a page of a file behind others. Damage is told only where it isn't one, or a body on it is no record.
pub(crate) fn list_page<V: ReadVolume>(
    volume: &mut V,
    alloc: Global,
    page: PageNo,
    file_no: u32,
    records: &mut Vec<Listed>,
) -> Result<(), PortFault>
    requires { V.ready volume.old }
    ensures listed { OnOk result (V.tells volume.old → records.new.items ≡ records.old.items
        ++ map listed_of (bodies_on (V.image volume.old) page.0)) }
    ensures sound { IfErr result (λ fault. IsDamage fault → V.tells volume.old
        → IsFilesPage (V.geometry volume.old) page.0 → IsPageOf file_no (V.image volume.old page.0)
        → AreReadable (bodies_on (V.image volume.old) page.0) → ⊥) }
    ensures kept { Keeps V.Ground volume.old volume.new }
    ensures cause { HasCause (V.faults volume.old) (V.faults volume.new) result }
{
    if !volume.in_area(page) || page == PageNo::CATALOG {
        return Err(no_page(page, file_no));
    }
    let bytes = volume.get(alloc, page)?;
    match checked(bytes, page, file_no) {
        Ok(view) => list_bodies(page, &view, records),
        Err(fault) => Err(fault),
    }
}
