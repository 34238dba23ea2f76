//! The objects of a file.
ghost use Rattle.std.specs.Prelude.{◌≡◌, ◌⊎◌, ◌≤◌, ◌<◌, ◌++◌, ℕ, List, IfOk, IfErr, IfSome, IsSome, OnOk, Some, None, slice_index_or, IsPermutation};
ghost use Rattle.ex_base.specs.Ports.{Keeps, HasCause, IsDamage};
ghost use Rattle.slotted_pages.specs.Reads.{IsPage};
ghost use Rattle.slotted_pages.specs.Edits.{slots_of};
ghost use Rattle.object_records.specs.Record.{Record, BodyOf};
ghost use Rattle.object_records.specs.Reads.{record_on};
ghost use Rattle.ex_base.specs.declared.names.Index.{Index};
ghost use Rattle.ex_base.specs.declared.names.Place.{Place};
ghost use Rattle.file_index.specs.Index.{IsFilesPage};
ghost use Rattle.file_bodies.specs.Bodies.{bodies_of, place_at};
ghost use Rattle.file_bodies.specs.Files.{HasFile, HasBody};
ghost use Rattle.versions.specs.Damage.{record_fault, LacksRecord, IsStepFault, IsListingFault, IsWalkedOut};
ghost use Rattle.versions.specs.Listed.{oids_in, oids_of, rows_on, rank_of, start_rank, AreByNumber, AreReadable};

use crate::recorded::{no_record, oid_at};
use ex_base::{Oid, PageNo, Place, PortFault, ReadVolume};
use file_bodies::{body_there, next_place};
use object_records::{Head, RecordView, State};
use slotted_pages::SlottedView;
use std::alloc::Global;

/// How many slots a page's number counts for in the rank of a place: more than a page may have.
const PAGE_SLOTS: u64 = 65_536;

/// A place as a number: places stand in the order of their ranks.
pub fn rank(place: Place) -> u64
    ensures rank { result ≡ rank_of place }
    ensures short { place.slot < 65536 }
{
    u64::from(place.page.0) * PAGE_SLOTS + u64::from(place.slot)
}

/// The rank of the first place behind a place, or of the first one.
pub fn first_rank(after: Option<Place>) -> u64
    ensures { result ≡ start_rank after }
{
    match after {
        None => 0,
        Some(place) => rank(place) + 1,
    }
}

/// The head of the record in a body.
pub fn head_of(body: &[u8], place: Place) -> Result<Head, PortFault>
    ensures head { IfOk result (λ head. head ≡ (record_on body.now).head) }
    ensures spelled { OnOk result ((is : Record) × BodyOf body.now is) }
    ensures sound { IfErr result (λ fault. (is : Record) → BodyOf body.now is → ⊥) }
    ensures fault { IfErr result (λ fault. fault ≡ record_fault place) }
    ensures cause { (before now : ℕ) → HasCause before now result }
{
    match RecordView::of(body) {
        Some(view) => Ok(view.head()),
        None => Err(no_record(place)),
    }
}

/// The head of the record in the body at a place, where one stands there.
fn head_on(body: Option<&[u8]>, place: Place) -> Result<Head, PortFault>
    ensures head { IfOk result (λ head. IfSome body.entry (λ body. head
        ≡ (record_on body.now).head)) }
    ensures sound { IfErr result (λ fault. IfSome body.entry (λ body. (is : Record)
        → BodyOf body.now is → ⊥)) }
    ensures none { OnOk result (IsSome body.entry) }
    ensures fault { IfErr result (λ fault. fault ≡ record_fault place) }
    ensures cause { (before now : ℕ) → HasCause before now result }
{
    match body {
        Some(body) => head_of(body, place),
        None => Err(no_record(place)),
    }
}

/// The head of the record at a place.
pub fn head_at<V: ReadVolume>(
    volume: &mut V,
    alloc: Global,
    place: Place,
) -> Result<Head, PortFault>
    requires { V.ready volume.old }
    ensures head { IfOk result (λ head. V.tells volume.old → (index : Index) (body : List ℕ)
        → HasBody V.Ground volume.old index place body → head ≡ (record_on body).head) }
    ensures sound { IfErr result (λ fault. IsDamage fault → V.tells volume.old
        → (index : Index) (body : List ℕ) (is : Record)
        → HasBody V.Ground volume.old index place body → BodyOf body is → ⊥) }
    ensures fault { IfErr result (λ fault. V.tells volume.old
        → IsStepFault (V.geometry volume.old) (V.image volume.old)
        (LacksRecord (V.geometry volume.old) (V.image volume.old) None place) place fault) }
    ensures kept { Keeps V.Ground volume.old volume.new }
    ensures cause { HasCause (V.faults volume.old) (V.faults volume.new) result }
{
    match body_there(volume, alloc, place) {
        Ok(body) => head_on(body, place),
        Err(fault) => Err(fault),
    }
}

/// Puts the OID of a current version behind others.
fn put_oid(oids: &mut Vec<Oid>, place: Place, head: &Head) -> Result<(), PortFault>
    ensures put { OnOk result (oids.new.items ≡ oids.old.items ++ oids_in place head.now) }
    ensures no_damage { IfErr result (λ fault. IsDamage fault → ⊥) }
    ensures cause { (before now : ℕ) → HasCause before now result }
{
    if head.state != State::Current {
        return Ok(());
    }
    match oids.push(oid_at(place, head.unique)) {
        Ok(()) => Ok(()),
        Err(_) => Err(PortFault::Memory),
    }
}

/// Puts the OID of the version at a place behind others, where the version is a current one.
fn list_record(oids: &mut Vec<Oid>, place: Place, body: &[u8]) -> Result<(), PortFault>
    ensures listed { OnOk result (oids.new.items
        ≡ oids.old.items ++ oids_in place (record_on body.now).head) }
    ensures sound { IfErr result (λ fault. IsDamage fault → (is : Record) → BodyOf body.now is → ⊥) }
    ensures fault { IfErr result (λ fault. (IsDamage fault → ⊥)
        ⊎ (((is : Record) → BodyOf body.now is → ⊥) × (fault ≡ record_fault place))) }
    ensures cause { (before now : ℕ) → HasCause before now result }
{
    match head_of(body, place) {
        Ok(head) => put_oid(oids, place, &head),
        Err(fault) => Err(fault),
    }
}

/// Puts the OIDs of the current versions on a page behind others, from a slot on.
fn list_slots(
    view: &SlottedView,
    page: PageNo,
    from: u16,
    oids: &mut Vec<Oid>,
) -> Result<(), PortFault>
    ensures listed { OnOk result (oids.new.items
        ≡ oids.old.items ++ oids_of (rows_on page.0 from view.now.page.slots)) }
    ensures sound { IfErr result (λ fault. IsDamage fault
        → AreReadable (rows_on page.0 from view.now.page.slots) → ⊥) }
    ensures fault { IfErr result (λ fault. (IsDamage fault → ⊥)
        ⊎ ((slot : ℕ) × ((body : List ℕ) → slice_index_or view.now.page.slots slot None ≡ Some body
        → (is : Record) → BodyOf body is → ⊥) × (fault ≡ record_fault (place_at page.0 slot)))) }
    ensures cause { (before now : ℕ) → HasCause before now result }
{
    for slot in from..view.slots() {
        if let Some(body) = view.body(slot) {
            match list_record(oids, Place { page, slot }, body) {
                Ok(()) => {}
                Err(fault) => return Err(fault),
            }
        }
    }
    Ok(())
}

/// Puts the OIDs of the current versions on the page of a place behind others, from the place on. The place stands behind the one before it.
fn list_page<V: ReadVolume>(
    volume: &mut V,
    alloc: Global,
    place: Place,
    after: Option<Place>,
    oids: &mut Vec<Oid>,
) -> Result<(), PortFault>
    requires { V.ready volume.old }
    ensures listed { OnOk result (V.tells volume.old → IsPage (V.image volume.old place.page.0)
        → oids.new.items ≡ oids.old.items ++ oids_of (rows_on place.page.0 place.slot
        (slots_of (V.image volume.old place.page.0)))) }
    ensures rises { OnOk result (start_rank after ≤ rank_of place) }
    ensures short { OnOk result (place.slot < 65536) }
    ensures sound { IfErr result (λ fault. IsDamage fault → V.tells volume.old
        → start_rank after ≤ rank_of place
        → IsFilesPage (V.geometry volume.old) place.page.0
        → IsPage (V.image volume.old place.page.0)
        → AreReadable (rows_on place.page.0 place.slot
        (slots_of (V.image volume.old place.page.0))) → ⊥) }
    ensures fault { IfErr result (λ fault. V.tells volume.old → (at : Place)
        × (at.page ≡ place.page)
        × IsStepFault (V.geometry volume.old) (V.image volume.old)
        (LacksRecord (V.geometry volume.old) (V.image volume.old) after at) at fault) }
    ensures kept { Keeps V.Ground volume.old volume.new }
    ensures cause { HasCause (V.faults volume.old) (V.faults volume.new) result }
{
    if first_rank(after) > rank(place) || !volume.in_area(place.page) {
        return Err(no_record(place));
    }
    let bytes = match volume.get(alloc, place.page) {
        Ok(bytes) => bytes,
        Err(fault) => return Err(fault),
    };
    match SlottedView::of(bytes) {
        Some(view) => list_slots(&view, place.page, place.slot, oids),
        None => Err(no_record(place)),
    }
}

/// The OIDs of the current versions of a file, in order of place. Each page of the file is looked for and tested once for all that stands on it.
fn list_file<V: ReadVolume>(
    volume: &mut V,
    alloc: Global,
    file_no: u32,
) -> Result<Vec<Oid>, PortFault>
    requires { V.ready volume.old }
    ensures oids { IfOk result (λ oids. V.tells volume.old → (index : Index)
        → HasFile V.Ground volume.old index → index.file_no ≡ file_no
        → oids.items ≡ oids_of (bodies_of (V.image volume.old) index)) }
    ensures sound { IfErr result (λ fault. IsDamage fault → V.tells volume.old → (index : Index)
        → HasFile V.Ground volume.old index → index.file_no ≡ file_no
        → AreReadable (bodies_of (V.image volume.old) index) → ⊥) }
    ensures fault { IfErr result (λ fault. V.tells volume.old
        → IsListingFault (V.geometry volume.old) (V.image volume.old) file_no fault) }
    ensures walk { OnOk result (V.tells volume.old
        → IsWalkedOut (V.geometry volume.old) (V.image volume.old) file_no) }
    ensures kept { Keeps V.Ground volume.old volume.new }
    ensures cause { HasCause (V.faults volume.old) (V.faults volume.new) result }
{
    let mut oids = Vec::new(alloc);
    let mut after = None;
    'pages: loop {
        let place = match next_place(volume, alloc, file_no, after) {
            Ok(Some(place)) => place,
            Ok(None) => return Ok(oids),
            Err(fault) => return Err(fault),
        };
        match list_page(volume, alloc, place, after, &mut oids) {
            Ok(()) => {}
            Err(fault) => return Err(fault),
        }
        after = Some(Place {
            page: place.page,
            slot: u16::MAX,
        });
    }
}

/// The OIDs of the current versions of a file, in order of unique number.
pub fn objects<V: ReadVolume>(
    volume: &mut V,
    alloc: Global,
    file_no: u32,
) -> Result<Vec<Oid>, PortFault>
    requires { V.ready volume.old }
    ensures oids { IfOk result (λ oids. V.tells volume.old → (index : Index)
        → HasFile V.Ground volume.old index → index.file_no ≡ file_no
        → IsPermutation (oids_of (bodies_of (V.image volume.old) index)) oids.items) }
    ensures ordered { IfOk result (λ oids. AreByNumber oids.items) }
    ensures sound { IfErr result (λ fault. IsDamage fault → V.tells volume.old → (index : Index)
        → HasFile V.Ground volume.old index → index.file_no ≡ file_no
        → AreReadable (bodies_of (V.image volume.old) index) → ⊥) }
    ensures fault { IfErr result (λ fault. V.tells volume.old
        → IsListingFault (V.geometry volume.old) (V.image volume.old) file_no fault) }
    ensures walk { OnOk result (V.tells volume.old
        → IsWalkedOut (V.geometry volume.old) (V.image volume.old) file_no) }
    ensures kept { Keeps V.Ground volume.old volume.new }
    ensures cause { HasCause (V.faults volume.old) (V.faults volume.new) result }
{
    match list_file(volume, alloc, file_no) {
        Ok(mut oids) => {
            oids.sort_unstable_by_key(|oid| oid.unique);
            Ok(oids)
        }
        Err(fault) => Err(fault),
    }
}
