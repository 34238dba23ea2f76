//! Records that get another head, with the content that they have.
ghost use Rattle.std.specs.Prelude.{◌≡◌, ◌≤◌, ◌+◌, ◌↔◌, max, ℕ, List, [], length, IfOk, IfErr, OnOk, IsTrue, false, OnErr};
ghost use Rattle.ex_base.specs.Fields.{IsPlaceField};
ghost use Rattle.ex_base.specs.Ports.{HasCause, IsDamage};
ghost use Rattle.ex_base.specs.declared.names.Area.TheVariants.{Page, Segment};
ghost use Rattle.object_records.specs.Record.{Record, BodyOf, IsRecord, NewerFits};
ghost use Rattle.object_records.specs.Reads.{small_record, content_of};
ghost use Rattle.ex_base.specs.declared.names.Index.{Index};
ghost use Rattle.file_index.specs.Touches.{TouchesAtMost};
ghost use Rattle.file_index.specs.Taking.{OnlyTakes};
ghost use Rattle.file_bodies.specs.Touches.{body_touches, body_pages};
ghost use Rattle.file_bodies.specs.Files.{HasFile, HasBody};
ghost use Rattle.file_bodies.specs.Places.{IsChosen, IsRoom};
ghost use Rattle.version_tree.specs.Bodies.{SameUnits, with_head};
ghost use Rattle.version_tree.specs.Copies.{CopiesRecord, content_len, IsCopyFault, IsHead, IsNamed};
ghost use Rattle.version_tree.specs.Links.{IsRecordFault};
ghost use Rattle.versions.specs.Put.{PutsRecord};

use crate::links::Stored;
use ex_base::{Place, PortFault, Volume};
use file_bodies::{Room, change_body, place_body};
use object_records::{Head, Payload, RecordView, State, write_large, write_small};
use std::alloc::Global;
use versions::{check, no_record};

/// Whether a link has a field: it names no place, or any but the one of zeros.
fn has_field(link: Option<Place>) -> bool
    ensures yes { IsTrue result → IsPlaceField link }
    ensures no { result ≡ false → IsNamed link → ⊥ }
{
    match link {
        None => true,
        Some(place) => place.page.0 > 0 || place.slot > 0,
    }
}

/// Whether a version of a state may have a newer place.
fn has_newer_fit(state: State, newer: Option<Place>) -> bool
    ensures { IsTrue result ↔ NewerFits state newer }
{
    match state {
        State::Current => newer.is_none(),
        State::Frozen => true,
    }
}

/// Whether a record may have a head.
#[tactic(auto, using(crate::proofs::HeadLaws::head_record))]
fn is_head(head: Head) -> bool
    ensures yes { IsTrue result → IsRecord (small_record head []) }
    ensures no { result ≡ false → IsHead head → ⊥ }
{
    if !has_field(head.older) {
        return false;
    }
    if !has_field(head.newer) {
        return false;
    }
    has_newer_fit(head.state, head.newer)
}

/// Writes a record with a head and a content.
fn write_record(head: &Head, payload: &Payload, out: &mut [u8])
    requires fits { IsRecord (record { head = head.now; content = content_of payload.now }) }
    requires room { length out.old ≡ content_len (content_of payload.now) }
    ensures { BodyOf out.new (record { head = head.now; content = content_of payload.now }) }
{
    match payload {
        Payload::Small(bytes) => write_small(head, bytes, out),
        Payload::Large(root) => write_large(head, root, out),
    }
}

/// The body of a record with another head.
fn body_with(alloc: Global, stored: &Stored, head: &Head) -> Result<Vec<u8>, PortFault>
    ensures body { IfOk result (λ body. (is : Record) → BodyOf stored.now.body.items is
        → BodyOf body.items (with_head head.now is)) }
    ensures len { IfOk result (λ body. length body.items ≡ length stored.now.body.items) }
    ensures some { IfOk result (λ body. 36 ≤ length body.items) }
    ensures sound { IfErr result (λ fault. IsDamage fault → (is : Record)
        → BodyOf stored.now.body.items is → IsHead head.now → ⊥) }
    ensures fault { IfErr result (λ fault. IsRecordFault stored.now.place fault) }
    ensures cause { (before now : ℕ) → HasCause before now result }
{
    check(is_head(*head), stored.place)?;
    let Some(view) = RecordView::of(&stored.body) else {
        return Err(no_record(stored.place));
    };
    let mut body = vec![in alloc; 0u8; stored.body.len()]?;
    write_record(head, &view.payload(), &mut body);
    Ok(body)
}

/// Writes a record again at its place, with another head.
pub(crate) fn put_head<V: Volume>(
    volume: &mut V,
    alloc: Global,
    stored: &Stored,
    head: &Head,
) -> Result<(), PortFault>
    requires { V.ready volume.old }
    ensures put { OnOk result (V.tells volume.old → (index : Index) (is : Record)
        → HasBody V.Ground volume.old index stored.now.place stored.now.body.items
        → BodyOf stored.now.body.items is
        → PutsRecord V.Ground volume.old volume.new index stored.now.place
        stored.now.body.items (with_head head.now is)) }
    ensures free { OnOk result (V.free volume.new ≡ V.free volume.old) }
    ensures units { OnOk result (SameUnits V.Ground volume.old volume.new) }
    ensures sound { IfErr result (λ fault. IsDamage fault → V.tells volume.old
        → (index : Index) (is : Record)
        → HasBody V.Ground volume.old index stored.now.place stored.now.body.items
        → BodyOf stored.now.body.items is → IsHead head.now → ⊥) }
    ensures fault { IfErr result (λ fault. V.tells volume.old
        → IsRecordFault stored.now.place fault) }
    ensures touches { OnOk result (TouchesAtMost V.Ground volume.old volume.new 1) }
    ensures leads { V.leads volume.old volume.new }
    ensures cause { HasCause (V.faults volume.old) (V.faults volume.new) result }
{
    let body = body_with(alloc, stored, head)?;
    let done = change_body(volume, alloc, stored.place, &body)?;
    check(done, stored.place)
}

/// Puts a copy of a record with another head into a file. It takes at most `body_pages` pages.
pub(crate) fn put_copy<V: Volume>(
    volume: &mut V,
    alloc: Global,
    room: &mut Room,
    stored: &Stored,
    head: &Head,
) -> Result<Place, PortFault>
    requires ready { V.ready volume.old }
    requires free { body_pages ≤ V.free volume.old Page }
    ensures copies { IfOk result (λ place. V.tells volume.old → (index : Index) (is : Record)
        → HasFile V.Ground volume.old index → index.file_no ≡ room.old.file_no
        → BodyOf stored.now.body.items is
        → CopiesRecord V.Ground volume.old volume.new index place (with_head head.now is)) }
    ensures chosen { IfOk result (λ place. V.tells volume.old → (index : Index)
        → HasFile V.Ground volume.old index → index.file_no ≡ room.old.file_no
        → IsRoom V.Ground volume.old index room.old
        → IsChosen V.Ground volume.old index (length stored.now.body.items) place) }
    ensures room { IfOk result (λ place. room.new ≡ record {
      file_no = room.old.file_no;
      from = place.page;
      len = length stored.now.body.items;
    }) }
    ensures unplaced { OnErr result (room.new ≡ room.old) }
    ensures pages { OnOk result (V.free volume.old Page ≤ V.free volume.new Page + body_pages) }
    ensures takes { OnOk result (OnlyTakes V.Ground volume.old volume.new) }
    ensures sound { IfErr result (λ fault. IsDamage fault → V.tells volume.old
        → (index : Index) (is : Record)
        → HasBody V.Ground volume.old index stored.now.place stored.now.body.items
        → index.file_no ≡ room.old.file_no
        → length stored.now.body.items + 20 ≤ (V.geometry volume.old).page_size
        → BodyOf stored.now.body.items is → IsHead head.now → ⊥) }
    ensures fault { IfErr result (λ fault. V.tells volume.old
        → IsCopyFault (V.geometry volume.old) (V.held volume.old) (V.image volume.old)
        room.old stored.now.place stored.now.body.items fault) }
    ensures leaves { OnOk result (V.free volume.new Segment ≡ V.free volume.old Segment) }
    ensures touches { OnOk result (TouchesAtMost V.Ground volume.old volume.new body_touches) }
    ensures leads { V.leads volume.old volume.new }
    ensures cause { HasCause (V.faults volume.old) (V.faults volume.new) result }
{
    let body = body_with(alloc, stored, head)?;
    check(body.len() + 20 <= volume.page_size() as usize, stored.place)?;
    place_body(volume, alloc, room, &body)
}
