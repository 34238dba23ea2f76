//! A body that is changed in its place.
ghost use Rattle.std.specs.Prelude.{◌≡◌, ◌≤◌, ◌+◌, ◌↔◌, ℕ, List, length, IfOk, IfErr, OnOk, IsTrue, IsFalse, Some};
ghost use Rattle.ex_base.specs.Ports.{Keeps, HasCause, IsDamage, PutsImage};
ghost use Rattle.slotted_pages.specs.FilePage.{room_of};
ghost use Rattle.slotted_pages.specs.Edits.{slots_of};
ghost use Rattle.ex_base.specs.declared.names.Index.{Index};
ghost use Rattle.file_index.specs.Touches.{TouchesAtMost};
ghost use Rattle.file_bodies.specs.Files.{HasBody, EditsFile};
ghost use Rattle.file_bodies.specs.Damage.{HasRecordAt, IsPlaceFault};

use crate::page::load_body_page;
use ex_base::{Pages, Place, PortFault};
use file_index::page_buffer;
use slotted_pages::resize_body;
use std::alloc::Global;

/// Puts a body in the place of the one at a place, in an image that is written then.
fn change_on_page<P: Pages>(
    pages: &mut P,
    alloc: Global,
    place: Place,
    body: &[u8],
    image: &mut [u8],
) -> Result<bool, PortFault>
    requires ready { P.ready pages.old }
    requires some { 1 ≤ length body.now }
    requires image { length image.old ≡ (P.geometry pages.old).page_size }
    ensures fits { IfOk result (λ done. P.tells pages.old → (index : Index) → (was : List ℕ)
        → HasBody P.Ground pages.old index place was
        → IsTrue done ↔ (length body.now ≤ length was
        + room_of (P.geometry pages.old).page_size (slots_of (P.image pages.old place.page.0)))) }
    ensures changed { IfOk result (λ done. IsTrue done → P.tells pages.old → (index : Index)
        → (was : List ℕ) → HasBody P.Ground pages.old index place was
        → EditsFile P.Ground pages.old pages.new index index place (Some was) (Some body.now)) }
    ensures len { OnOk result (P.tells pages.old
        → length (P.image pages.old place.page.0) ≡ (P.geometry pages.old).page_size) }
    ensures put { IfOk result (λ done. IsTrue done → (content : List ℕ)
        × PutsImage P.Ground pages.old pages.new place.page.0 content) }
    ensures kept { IfOk result (λ done. IsFalse done → Keeps P.Ground pages.old pages.new) }
    ensures free { IfOk result (λ done. P.free pages.new ≡ P.free pages.old) }
    ensures sound { IfErr result (λ fault. IsDamage fault → P.tells pages.old → (index : Index)
        → (was : List ℕ) → HasBody P.Ground pages.old index place was → ⊥) }
    ensures fault { IfErr result (λ fault. P.tells pages.old
        → IsPlaceFault (P.geometry pages.old) (P.held pages.old)
        (P.image pages.old place.page.0) place fault) }
    ensures has { OnOk result (P.tells pages.old
        → HasRecordAt (P.geometry pages.old) (P.held pages.old)
        (P.image pages.old place.page.0) place) }
    ensures touches { OnOk result (TouchesAtMost P.Ground pages.old pages.new 1) }
    ensures leads { P.leads pages.old pages.new }
    ensures cause { HasCause (P.faults pages.old) (P.faults pages.new) result }
{
    match load_body_page(pages, alloc, place, image) {
        Ok(_) => {}
        Err(fault) => return Err(fault),
    }
    if !resize_body(image, place.slot, body) {
        return Ok(false);
    }
    match pages.put(alloc, place.page, image) {
        Ok(()) => Ok(true),
        Err(fault) => Err(fault),
    }
}

/// Puts a body in the place of the one at a place. False exactly where it grows by more than the room of its page; then nothing changes.
pub fn change_body<P: Pages>(
    pages: &mut P,
    alloc: Global,
    place: Place,
    body: &[u8],
) -> Result<bool, PortFault>
    requires ready { P.ready pages.old }
    requires some { 1 ≤ length body.now }
    ensures fits { IfOk result (λ done. P.tells pages.old → (index : Index) → (was : List ℕ)
        → HasBody P.Ground pages.old index place was
        → IsTrue done ↔ (length body.now ≤ length was
        + room_of (P.geometry pages.old).page_size (slots_of (P.image pages.old place.page.0)))) }
    ensures changed { IfOk result (λ done. IsTrue done → P.tells pages.old → (index : Index)
        → (was : List ℕ) → HasBody P.Ground pages.old index place was
        → EditsFile P.Ground pages.old pages.new index index place (Some was) (Some body.now)) }
    ensures len { OnOk result (P.tells pages.old
        → length (P.image pages.old place.page.0) ≡ (P.geometry pages.old).page_size) }
    ensures put { IfOk result (λ done. IsTrue done → (content : List ℕ)
        × PutsImage P.Ground pages.old pages.new place.page.0 content) }
    ensures kept { IfOk result (λ done. IsFalse done → Keeps P.Ground pages.old pages.new) }
    ensures free { IfOk result (λ done. P.free pages.new ≡ P.free pages.old) }
    ensures sound { IfErr result (λ fault. IsDamage fault → P.tells pages.old → (index : Index)
        → (was : List ℕ) → HasBody P.Ground pages.old index place was → ⊥) }
    ensures fault { IfErr result (λ fault. P.tells pages.old
        → IsPlaceFault (P.geometry pages.old) (P.held pages.old)
        (P.image pages.old place.page.0) place fault) }
    ensures has { OnOk result (P.tells pages.old
        → HasRecordAt (P.geometry pages.old) (P.held pages.old)
        (P.image pages.old place.page.0) place) }
    ensures touches { OnOk result (TouchesAtMost P.Ground pages.old pages.new 1) }
    ensures leads { P.leads pages.old pages.new }
    ensures cause { HasCause (P.faults pages.old) (P.faults pages.new) result }
{
    match page_buffer(pages, alloc) {
        Ok(mut image) => change_on_page(pages, alloc, place, body, &mut image),
        Err(fault) => Err(fault),
    }
}
