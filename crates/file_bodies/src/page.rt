//! One page of a file.
ghost use Rattle.std.specs.Prelude.{◌≡◌, ◌≤◌, ◌<◌, ℕ, Bool, [], length, slice_index_or, IfOk, IfErr, IfSome, IfNone, OnOk, IsTrue, IsNone, true, false, Some, None};
ghost use Rattle.std.specs.Option.{option_map};
ghost use Rattle.ex_base.specs.Ports.{Keeps, Cause, HasCause, IsDamage};
ghost use Rattle.file_index.specs.Index.{IsFilesPage};
ghost use Rattle.file_index.specs.Damage.{every_page};
ghost use Rattle.slotted_pages.specs.Reads.{page_on, viewed_on, IsPage};
ghost use Rattle.slotted_pages.specs.Edits.{slots_of};
ghost use Rattle.file_bodies.specs.Places.{IsFirstLive};
ghost use Rattle.file_bodies.specs.Files.{IsPageOf, IsLive};
ghost use Rattle.ex_base.specs.declared.geometry.Geometry.{Geometry};
ghost use Rattle.ex_base.specs.declared.faults.PortFault.TheVariants.{Damaged};
ghost use Rattle.ex_base.specs.Seen.{file_page_seen, nothing_seen, record_seen};
ghost use Rattle.file_bodies.specs.Damage.{HasRecordAt, IsFilePageFault, IsPlaceFault};

use ex_base::{PageNo, Pages, Place, PortFault, ReadPages, Seen};
use file_index::may_be_written;
use slotted_pages::SlottedView;
use std::alloc::Global;

/// The fault of a page that is no page of a file with bodies.
fn no_page(page: PageNo, file_no: u32) -> PortFault
    ensures is { result ≡ Damaged page (file_page_seen file_no) nothing_seen }
    ensures damage { IsDamage result }
    ensures cause { (before now : ℕ) → Cause before now result }
{
    PortFault::Damaged {
        page,
        want: Seen::file_page(file_no),
        got: Seen::NOTHING,
    }
}

/// The fault of a place without a body.
fn no_body(place: Place) -> PortFault
    ensures is { result ≡ Damaged place.page (record_seen place.slot) nothing_seen }
    ensures damage { IsDamage result }
    ensures cause { (before now : ℕ) → Cause before now result }
{
    PortFault::Damaged {
        page: place.page,
        want: Seen::record(place.slot),
        got: Seen::NOTHING,
    }
}

/// The view of a page exactly where it is one of a file, else the fault that says what it is.
fn page_checked(bytes: &[u8], page: PageNo, file_no: u32) -> Result<SlottedView<'_>, PortFault>
    ensures ok { OnOk result (IsPageOf file_no bytes.now) }
    ensures view { IfOk result (λ view. view ≡ viewed_on bytes.now) }
    ensures err { IfErr result (λ fault. IsPageOf file_no bytes.now → ⊥) }
    ensures fault { IfErr result (λ fault. (g : Geometry) → (held : ℕ → Bool)
        → IsFilesPage g page.0 → IsFilePageFault g held bytes.now file_no page.0 fault) }
    ensures cause { (before now : ℕ) → HasCause before now result }
{
    let Some(view) = SlottedView::of(bytes) else {
        return Err(no_page(page, file_no));
    };
    if view.slots() == 0 {
        return Err(no_page(page, file_no));
    }
    let found = view.file_no();
    if found != file_no {
        return Err(PortFault::Damaged {
            page,
            want: Seen::file_page(file_no),
            got: Seen::file_page(found),
        });
    }
    Ok(view)
}

/// Whether a page may be one of a file: it lies in the page area and isn't the catalog.
pub fn may_be_of_file<P: ReadPages>(pages: &P, page: PageNo) -> bool
    requires { P.ready pages.now }
    ensures may { IsTrue result → IsFilesPage (P.geometry pages.now) page.0 }
    ensures never { result ≡ false → IsFilesPage (P.geometry pages.now) page.0 → ⊥ }
{
    pages.in_area(page) && page != PageNo::CATALOG
}

/// Reads a page of a file that is to be written.
pub fn load_page<P: Pages>(
    pages: &mut P,
    alloc: Global,
    page: PageNo,
    file_no: u32,
    out: &mut [u8],
) -> Result<(), PortFault>
    requires ready { P.ready pages.old }
    requires out { length out.old ≡ (P.geometry pages.old).page_size }
    ensures bytes { OnOk result (P.tells pages.old → out.new ≡ P.image pages.old page.0) }
    ensures of { OnOk result (IsPageOf file_no out.new) }
    ensures area { OnOk result (IsFilesPage (P.geometry pages.old) page.0) }
    ensures held { OnOk result (P.held pages.old page.0 ≡ true) }
    ensures sound { IfErr result (λ fault. IsDamage fault → P.tells pages.old
        → IsFilesPage (P.geometry pages.old) page.0 → P.held pages.old page.0 ≡ true
        → IsPageOf file_no (P.image pages.old page.0) → ⊥) }
    ensures fault { IfErr result (λ fault. P.tells pages.old
        → IsFilePageFault (P.geometry pages.old) (P.held pages.old)
        (P.image pages.old page.0) file_no page.0 fault) }
    ensures page { OnOk result (P.tells pages.old → IsPageOf file_no (P.image pages.old page.0)) }
    ensures kept { Keeps P.Ground pages.old pages.new }
    ensures cause { HasCause (P.faults pages.old) (P.faults pages.new) result }
{
    if !may_be_written(pages, page) {
        return Err(no_page(page, file_no));
    }
    out.copy_from_slice(pages.get(alloc, page)?);
    match page_checked(out, page, file_no) {
        Ok(_) => Ok(()),
        Err(fault) => Err(fault),
    }
}

/// The number of the file on whose page a body stands, else the fault that none does.
fn body_checked(bytes: &[u8], place: Place) -> Result<u32, PortFault>
    ensures ok { OnOk result (IsPage bytes.now) }
    ensures file { IfOk result (λ file_no. (page_on bytes.now).file_no ≡ file_no) }
    ensures live { OnOk result (IsLive bytes.now place.slot) }
    ensures err { IfErr result (λ fault. IsPage bytes.now → IsLive bytes.now place.slot → ⊥) }
    ensures fault { IfErr result (λ fault. (g : Geometry) → (held : ℕ → Bool)
        → IsPlaceFault g held bytes.now place fault) }
    ensures damage { (before now : ℕ) → HasCause before now result }
{
    let Some(view) = SlottedView::of(bytes) else {
        return Err(no_body(place));
    };
    match view.body(place.slot) {
        None => Err(no_body(place)),
        Some(_) => Ok(view.file_no()),
    }
}

/// Reads the page that a body stands on and that is to be written, and answers the number of its file.
pub fn load_body_page<P: Pages>(
    pages: &mut P,
    alloc: Global,
    place: Place,
    out: &mut [u8],
) -> Result<u32, PortFault>
    requires ready { P.ready pages.old }
    requires out { length out.old ≡ (P.geometry pages.old).page_size }
    ensures bytes { OnOk result (P.tells pages.old → out.new ≡ P.image pages.old place.page.0) }
    ensures of { OnOk result (IsPage out.new) }
    ensures file { IfOk result (λ file_no. (page_on out.new).file_no ≡ file_no) }
    ensures live { OnOk result (IsLive out.new place.slot) }
    ensures area { OnOk result (IsFilesPage (P.geometry pages.old) place.page.0) }
    ensures held { OnOk result (P.held pages.old place.page.0 ≡ true) }
    ensures sound { IfErr result (λ fault. IsDamage fault → P.tells pages.old
        → IsFilesPage (P.geometry pages.old) place.page.0 → P.held pages.old place.page.0 ≡ true
        → IsPage (P.image pages.old place.page.0)
        → IsLive (P.image pages.old place.page.0) place.slot → ⊥) }
    ensures fault { IfErr result (λ fault. P.tells pages.old
        → IsPlaceFault (P.geometry pages.old) (P.held pages.old)
        (P.image pages.old place.page.0) place fault) }
    ensures has { OnOk result (P.tells pages.old
        → HasRecordAt (P.geometry pages.old) (P.held pages.old)
        (P.image pages.old place.page.0) place) }
    ensures kept { Keeps P.Ground pages.old pages.new }
    ensures cause { HasCause (P.faults pages.old) (P.faults pages.new) result }
{
    if !may_be_written(pages, place.page) {
        return Err(no_body(place));
    }
    out.copy_from_slice(pages.get(alloc, place.page)?);
    body_checked(out, place)
}

/// The first slot from a slot on that has a body.
fn first_live(view: &SlottedView, from: u32) -> Option<u16>
    ensures some { IfSome result (λ slot. IsFirstLive view.now.page.slots from slot) }
    ensures none { IfNone result ((k : ℕ) → from ≤ k
        → slice_index_or view.now.page.slots k None ≡ None) }
{
    for slot in from..u32::from(view.slots()) {
        if view.body(slot as u16).is_some() {
            return Some(slot as u16);
        }
    }
    None
}

/// The first slot from a slot on that has a body on a page of a file.
pub fn live_slot<P: ReadPages>(
    pages: &mut P,
    alloc: Global,
    page: PageNo,
    file_no: u32,
    from: u32,
) -> Result<Option<u16>, PortFault>
    requires { P.ready pages.old }
    ensures some { IfOk result (λ found. IfSome found (λ slot. P.tells pages.old
        → IsFirstLive (slots_of (P.image pages.old page.0)) from slot)) }
    ensures none { IfOk result (λ found. IfNone found (P.tells pages.old → (k : ℕ) → from ≤ k
        → slice_index_or (slots_of (P.image pages.old page.0)) k None ≡ None)) }
    ensures area { OnOk result (IsFilesPage (P.geometry pages.old) page.0) }
    ensures sound { IfErr result (λ fault. IsDamage fault → P.tells pages.old
        → IsFilesPage (P.geometry pages.old) page.0 → IsPageOf file_no (P.image pages.old page.0)
        → ⊥) }
    ensures fault { IfErr result (λ fault. P.tells pages.old
        → IsFilePageFault (P.geometry pages.old) every_page
        (P.image pages.old page.0) file_no page.0 fault) }
    ensures page { OnOk result (P.tells pages.old → IsPageOf file_no (P.image pages.old page.0)) }
    ensures kept { Keeps P.Ground pages.old pages.new }
    ensures cause { HasCause (P.faults pages.old) (P.faults pages.new) result }
{
    if !may_be_of_file(pages, page) {
        return Err(no_page(page, file_no));
    }
    let bytes = pages.get(alloc, page)?;
    match page_checked(bytes, page, file_no) {
        Ok(view) => Ok(first_live(&view, from)),
        Err(fault) => Err(fault),
    }
}

/// The body in a slot of a page, none where the page is no page of a file.
pub fn body_on(page: &[u8], slot: u16) -> Option<&[u8]>
    ensures body { IsPage page.now → option_map (λ body. body.now) result
        ≡ slice_index_or (slots_of page.now) slot None }
    ensures none { (IsPage page.now → ⊥) → IsNone result }
    ensures some { IfSome result (λ body. slice_index_or (slots_of page.now) slot None
        ≡ Some body.now) }
{
    match SlottedView::of(page) {
        Some(view) => view.body(slot),
        None => None,
    }
}

/// The number of the file that a page belongs to, none where it is no page of a file.
pub fn file_on(page: &[u8]) -> Option<u32>
    ensures some { IfSome result (λ file_no. IsPage page.now
        × ((page_on page.now).file_no ≡ file_no)) }
    ensures none { IfNone result (IsPage page.now → ⊥) }
{
    match SlottedView::of(page) {
        Some(view) => Some(view.file_no()),
        None => None,
    }
}

/// Whether a page of a file has a slot, and so a body.
pub fn has_slots(page: &[u8]) -> bool
    requires { IsPage page.now }
    ensures some { IsTrue result → 1 ≤ length (slots_of page.now) }
    ensures none { result ≡ false → slots_of page.now ≡ [] }
{
    SlottedView::known(page).slots() > 0
}
