//! A body that is taken out of a file.
ghost use Rattle.std.specs.Prelude.{◌≡◌, ◌≤◌, ℕ, List, length, Contains, true, IfErr, OnOk};
ghost use Rattle.ex_base.specs.declared.names.Area.TheVariants.{Page, Segment};
ghost use Rattle.ex_base.specs.Ports.{HasCause, IsDamage};
ghost use Rattle.ex_base.specs.declared.names.Index.{Index};
ghost use Rattle.file_index.specs.Index.{IsFilesPage};
ghost use Rattle.file_index.specs.Taking.{OnlyGives};
ghost use Rattle.file_index.specs.Touches.{TouchesAtMost};
ghost use Rattle.file_bodies.specs.Touches.{body_touches};
ghost use Rattle.file_bodies.specs.Bodies.{pages_in};
ghost use Rattle.file_bodies.specs.Files.{HasFile, HasBody};
ghost use Rattle.file_bodies.specs.Places.{RemovesBody};
ghost use Rattle.file_bodies.specs.Removing.{LeavesFile};
ghost use Rattle.slotted_pages.specs.Reads.{page_on};
ghost use Rattle.file_index.specs.Damage.{HasWay};
ghost use Rattle.file_bodies.specs.Damage.{HasRecordAt, IsLastOn, IsTakingFault, IsLeavingFault, IsListedFault, HasListed};

use crate::catalog::{change_index, has_placed_root, index_of, no_root};
use crate::page::{has_slots, load_body_page};
use ex_base::{PageNo, Pages, Place, PortFault};
use file_index::{page_buffer, remove};
use slotted_pages::remove_body;
use std::alloc::Global;

/// Takes a page out of its file and gives it back.
fn drop_page<P: Pages>(
    pages: &mut P,
    alloc: Global,
    file_no: u32,
    page: PageNo,
    buffer: &mut [u8],
) -> Result<(), PortFault>
    requires ready { P.ready pages.old }
    requires page { IsFilesPage (P.geometry pages.old) page.0 }
    requires held { P.held pages.old page.0 ≡ true }
    requires buffer { length buffer.old ≡ (P.geometry pages.old).page_size }
    ensures leaves { OnOk result (P.tells pages.old → (index : Index)
        → HasFile P.Ground pages.old index → index.file_no ≡ file_no
        → Contains (pages_in (P.image pages.old) index) page.0
        → LeavesFile P.Ground pages.old pages.new index page.0) }
    ensures free { OnOk result (P.free pages.old Page ≤ P.free pages.new Page) }
    ensures gives { OnOk result (OnlyGives P.Ground pages.old pages.new) }
    ensures sound { IfErr result (λ fault. IsDamage fault → P.tells pages.old → (index : Index)
        → HasFile P.Ground pages.old index → index.file_no ≡ file_no → ⊥) }
    ensures fault { IfErr result (λ fault. P.tells pages.old
        → IsListedFault (P.image pages.old) file_no
        (λ index. IsLeavingFault (P.geometry pages.old) (P.held pages.old) (P.image pages.old)
        (P.held pages.new) (P.image pages.new) index page.0 fault) fault) }
    ensures way { OnOk result (P.tells pages.old
        → HasListed (P.image pages.old) file_no
        (λ index. HasWay (P.geometry pages.old) (P.image pages.old) index page.0)) }
    ensures segments { OnOk result (P.free pages.new Segment ≡ P.free pages.old Segment) }
    ensures touches { OnOk result (TouchesAtMost P.Ground pages.old pages.new body_touches) }
    ensures leads { P.leads pages.old pages.new }
    ensures cause { HasCause (P.faults pages.old) (P.faults pages.new) result }
{
    let index = match index_of(pages, alloc, file_no) {
        Ok(index) => index,
        Err(fault) => return Err(fault),
    };
    let left = match remove(pages, alloc, &index, page) {
        Ok(left) => left,
        Err(fault) => return Err(fault),
    };
    if !has_placed_root(pages, &left) {
        return Err(no_root(&left));
    }
    match change_index(pages, alloc, &index, &left, buffer) {
        Ok(()) => {}
        Err(fault) => return Err(fault),
    }
    pages.give_page(alloc, page)
}

/// Takes the body at a place out of its file, by way of an image.
fn remove_by<P: Pages>(
    pages: &mut P,
    alloc: Global,
    place: Place,
    image: &mut [u8],
) -> Result<(), PortFault>
    requires ready { P.ready pages.old }
    requires image { length image.old ≡ (P.geometry pages.old).page_size }
    ensures removes { OnOk result (P.tells pages.old → (index : Index) → (body : List ℕ)
        → HasBody P.Ground pages.old index place body
        → RemovesBody P.Ground pages.old pages.new index place body) }
    ensures free { OnOk result (P.free pages.old Page ≤ P.free pages.new Page) }
    ensures gives { OnOk result (OnlyGives P.Ground pages.old pages.new) }
    ensures sound { IfErr result (λ fault. IsDamage fault → P.tells pages.old → (index : Index)
        → (body : List ℕ) → HasBody P.Ground pages.old index place body → ⊥) }
    ensures fault { IfErr result (λ fault. P.tells pages.old
        → IsTakingFault (P.geometry pages.old) (P.held pages.old) (P.image pages.old)
        (P.held pages.new) (P.image pages.new) place fault) }
    ensures has { OnOk result (P.tells pages.old
        → HasRecordAt (P.geometry pages.old) (P.held pages.old)
        (P.image pages.old place.page.0) place) }
    ensures way { OnOk result (P.tells pages.old
        → IsLastOn (P.image pages.old place.page.0) place.slot
        → HasListed (P.image pages.old) (page_on (P.image pages.old place.page.0)).file_no
        (λ index. HasWay (P.geometry pages.old) (P.image pages.old) index place.page.0)) }
    ensures leaves { OnOk result (P.free pages.new Segment ≡ P.free pages.old Segment) }
    ensures touches { OnOk result (TouchesAtMost P.Ground pages.old pages.new body_touches) }
    ensures leads { P.leads pages.old pages.new }
    ensures cause { HasCause (P.faults pages.old) (P.faults pages.new) result }
{
    let file_no = match load_body_page(pages, alloc, place, image) {
        Ok(file_no) => file_no,
        Err(fault) => return Err(fault),
    };
    remove_body(image, place.slot);
    if has_slots(image) {
        return pages.put(alloc, place.page, image);
    }
    drop_page(pages, alloc, file_no, place.page, image)
}

/// Takes the body at a place out of its file. A page that has no body left leaves the file and is given back.
pub fn remove_from_file<P: Pages>(
    pages: &mut P,
    alloc: Global,
    place: Place,
) -> Result<(), PortFault>
    requires { P.ready pages.old }
    ensures removes { OnOk result (P.tells pages.old → (index : Index) → (body : List ℕ)
        → HasBody P.Ground pages.old index place body
        → RemovesBody P.Ground pages.old pages.new index place body) }
    ensures free { OnOk result (P.free pages.old Page ≤ P.free pages.new Page) }
    ensures gives { OnOk result (OnlyGives P.Ground pages.old pages.new) }
    ensures sound { IfErr result (λ fault. IsDamage fault → P.tells pages.old → (index : Index)
        → (body : List ℕ) → HasBody P.Ground pages.old index place body → ⊥) }
    ensures fault { IfErr result (λ fault. P.tells pages.old
        → IsTakingFault (P.geometry pages.old) (P.held pages.old) (P.image pages.old)
        (P.held pages.new) (P.image pages.new) place fault) }
    ensures has { OnOk result (P.tells pages.old
        → HasRecordAt (P.geometry pages.old) (P.held pages.old)
        (P.image pages.old place.page.0) place) }
    ensures way { OnOk result (P.tells pages.old
        → IsLastOn (P.image pages.old place.page.0) place.slot
        → HasListed (P.image pages.old) (page_on (P.image pages.old place.page.0)).file_no
        (λ index. HasWay (P.geometry pages.old) (P.image pages.old) index place.page.0)) }
    ensures leaves { OnOk result (P.free pages.new Segment ≡ P.free pages.old Segment) }
    ensures touches { OnOk result (TouchesAtMost P.Ground pages.old pages.new body_touches) }
    ensures leads { P.leads pages.old pages.new }
    ensures cause { HasCause (P.faults pages.old) (P.faults pages.new) result }
{
    match page_buffer(pages, alloc) {
        Ok(mut image) => remove_by(pages, alloc, place, &mut image),
        Err(fault) => Err(fault),
    }
}
