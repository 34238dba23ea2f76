//! The versions that are derived from a version.
ghost use Rattle.std.specs.Prelude.{◌≡◌, ◌≤◌, ◌<◌, ◌++◌, ◌∷◌, [], ℕ, List, IfOk, IfErr, None, OnOk, IsPermutation};
ghost use Rattle.ex_base.specs.Ports.{Keeps, HasCause, IsDamage};
ghost use Rattle.ex_base.specs.declared.names.Place.{Place};
ghost use Rattle.slotted_pages.specs.Reads.{page_on, IsPage};
ghost use Rattle.object_records.specs.Record.{Record, BodyOf};
ghost use Rattle.ex_base.specs.declared.names.Index.{Index};
ghost use Rattle.file_bodies.specs.Bodies.{bodies_of};
ghost use Rattle.file_bodies.specs.Files.{HasFile, HasBody};
ghost use Rattle.versions.specs.Listed.{oid_at, AreByNumber, AreReadable, rank_of, start_rank};
ghost use Rattle.versions.specs.Versions.{HasRecord, place_of};
ghost use Rattle.versions.specs.Damage.{record_fault, IsListingFault, LacksRecord, IsStepFault, IsWalkedOut};
ghost use Rattle.version_tree.specs.Linked.{AreLinked, head_in, oids_by_link, oids_from};
ghost use Rattle.version_tree.specs.Links.{IsDerivedFault, IsLinkedFault, IsReadAnd, IsStartFault, IsWalkFault, IsWalkedFrom, NewerOn};

use crate::links::{Stored, is_at, linked_newer, stored_version};
use ex_base::{Oid, Place, PortFault, ReadVolume};
use file_bodies::next_place;
use object_records::Head;
use slotted_pages::SlottedView;
use std::alloc::Global;
use versions::{check, first_rank, head_at, no_record, oid_at, rank};

/// The number of the file that a page shows.
fn number_on(page: &[u8], place: Place) -> Result<u32, PortFault>
    ensures number { IfOk result (λ number. (page_on page.now).file_no ≡ number) }
    ensures page { OnOk result (IsPage page.now) }
    ensures sound { IfErr result (λ fault. IsPage page.now → ⊥) }
    ensures fault { IfErr result (λ fault. fault ≡ record_fault place) }
    ensures cause { (before now : ℕ) → HasCause before now result }
{
    match SlottedView::of(page) {
        Some(view) => Ok(view.file_no()),
        None => Err(no_record(place)),
    }
}

/// The number of the file that has a place.
pub fn file_of<V: ReadVolume>(volume: &mut V, alloc: Global, place: Place) -> Result<u32, PortFault>
    requires { V.ready volume.old }
    ensures number { IfOk result (λ number. V.tells volume.old → (index : Index) (body : List ℕ)
        → HasBody V.Ground volume.old index place body → index.file_no ≡ number) }
    ensures shown { IfOk result (λ number. V.tells volume.old
        → (page_on (V.image volume.old place.page.0)).file_no ≡ number) }
    ensures page { OnOk result (V.tells volume.old → IsPage (V.image volume.old place.page.0)) }
    ensures sound { IfErr result (λ fault. IsDamage fault → V.tells volume.old
        → (index : Index) (body : List ℕ)
        → HasBody V.Ground volume.old index place body → ⊥) }
    ensures fault { IfErr result (λ fault. V.tells volume.old
        → IsStartFault (V.geometry volume.old) (V.image volume.old) place fault) }
    ensures kept { Keeps V.Ground volume.old volume.new }
    ensures cause { HasCause (V.faults volume.old) (V.faults volume.new) result }
{
    if !volume.in_area(place.page) {
        return Err(no_record(place));
    }
    match volume.get(alloc, place.page) {
        Ok(page) => number_on(page, place),
        Err(fault) => Err(fault),
    }
}

/// Puts the OID of a version behind others, where it is derived from the version at a place.
fn put_derived(oids: &mut Vec<Oid>, from: Place, place: Place, head: &Head) -> Result<(), PortFault>
    ensures put { OnOk result (oids.new.items ≡ oids.old.items ++ oids_by_link from place head.now) }
    ensures no_damage { IfErr result (λ fault. IsDamage fault → ⊥) }
    ensures cause { (before now : ℕ) → HasCause before now result }
{
    if !is_at(head.older, from) {
        return Ok(());
    }
    match oids.push(oid_at(place, head.unique)) {
        Ok(()) => Ok(()),
        Err(_) => Err(PortFault::Memory),
    }
}

/// Puts the OID of the version at a place behind others, where it is derived from the one at another place. The place stands behind the one before it.
fn list_at<V: ReadVolume>(
    volume: &mut V,
    alloc: Global,
    from: Place,
    place: Place,
    after: Option<Place>,
    oids: &mut Vec<Oid>,
) -> Result<(), PortFault>
    requires { V.ready volume.old }
    ensures listed { OnOk result (V.tells volume.old → (index : Index) (body : List ℕ)
        → HasBody V.Ground volume.old index place body
        → oids.new.items ≡ oids.old.items ++ oids_by_link from place (head_in body)) }
    ensures rises { OnOk result (start_rank after ≤ rank_of place) }
    ensures short { OnOk result (place.slot < 65536) }
    ensures sound { IfErr result (λ fault. IsDamage fault → V.tells volume.old
        → start_rank after ≤ rank_of place
        → (index : Index) (body : List ℕ) (is : Record)
        → HasBody V.Ground volume.old index place body → BodyOf body is → ⊥) }
    ensures fault { IfErr result (λ fault. V.tells volume.old
        → IsStepFault (V.geometry volume.old) (V.image volume.old)
        (LacksRecord (V.geometry volume.old) (V.image volume.old) after place) place fault) }
    ensures kept { Keeps V.Ground volume.old volume.new }
    ensures cause { HasCause (V.faults volume.old) (V.faults volume.new) result }
{
    check(first_rank(after) <= rank(place), place)?;
    let head = head_at(volume, alloc, place)?;
    put_derived(oids, from, place, &head)
}

/// The OIDs of the versions of a file that are derived from the one at a place, in order of place.
fn list_derived<V: ReadVolume>(
    volume: &mut V,
    alloc: Global,
    file_no: u32,
    from: Place,
) -> Result<Vec<Oid>, PortFault>
    requires { V.ready volume.old }
    ensures oids { IfOk result (λ oids. V.tells volume.old → (index : Index)
        → HasFile V.Ground volume.old index → index.file_no ≡ file_no
        → oids.items ≡ oids_from from (bodies_of (V.image volume.old) index)) }
    ensures sound { IfErr result (λ fault. IsDamage fault → V.tells volume.old → (index : Index)
        → HasFile V.Ground volume.old index → index.file_no ≡ file_no
        → AreReadable (bodies_of (V.image volume.old) index) → ⊥) }
    ensures fault { IfErr result (λ fault. V.tells volume.old
        → IsListingFault (V.geometry volume.old) (V.image volume.old) file_no fault) }
    ensures walk { OnOk result (V.tells volume.old
        → IsWalkedOut (V.geometry volume.old) (V.image volume.old) file_no) }
    ensures kept { Keeps V.Ground volume.old volume.new }
    ensures cause { HasCause (V.faults volume.old) (V.faults volume.new) result }
{
    let mut oids = Vec::new(alloc);
    let mut after = None;
    'places: loop {
        let place = match next_place(volume, alloc, file_no, after) {
            Ok(Some(place)) => place,
            Ok(None) => return Ok(oids),
            Err(fault) => return Err(fault),
        };
        match list_at(volume, alloc, from, place, after, &mut oids) {
            Ok(()) => {}
            Err(fault) => return Err(fault),
        }
        after = Some(place);
    }
}

/// The OIDs of the versions that are derived from the one at a place, in order of place.
pub(crate) fn list_from<V: ReadVolume>(
    volume: &mut V,
    alloc: Global,
    from: Place,
) -> Result<Vec<Oid>, PortFault>
    requires { V.ready volume.old }
    ensures oids { IfOk result (λ oids. V.tells volume.old → (index : Index) (body : List ℕ)
        → HasBody V.Ground volume.old index from body
        → oids.items ≡ oids_from from (bodies_of (V.image volume.old) index)) }
    ensures sound { IfErr result (λ fault. IsDamage fault → V.tells volume.old
        → (index : Index) (body : List ℕ) → HasBody V.Ground volume.old index from body
        → AreReadable (bodies_of (V.image volume.old) index) → ⊥) }
    ensures fault { IfErr result (λ fault. V.tells volume.old
        → IsWalkFault (V.geometry volume.old) (V.image volume.old) from fault) }
    ensures walk { OnOk result (V.tells volume.old
        → IsWalkedFrom (V.geometry volume.old) (V.image volume.old) from) }
    ensures kept { Keeps V.Ground volume.old volume.new }
    ensures cause { HasCause (V.faults volume.old) (V.faults volume.new) result }
{
    match file_of(volume, alloc, from) {
        Ok(file_no) => list_derived(volume, alloc, file_no, from),
        Err(fault) => Err(fault),
    }
}

/// The OIDs of the versions that are derived from the one at a place, in order of unique number.
fn list_by_number<V: ReadVolume>(
    volume: &mut V,
    alloc: Global,
    from: Place,
) -> Result<Vec<Oid>, PortFault>
    requires { V.ready volume.old }
    ensures oids { IfOk result (λ oids. V.tells volume.old → (index : Index) (body : List ℕ)
        → HasBody V.Ground volume.old index from body
        → IsPermutation (oids_from from (bodies_of (V.image volume.old) index)) oids.items) }
    ensures ordered { IfOk result (λ oids. AreByNumber oids.items) }
    ensures sound { IfErr result (λ fault. IsDamage fault → V.tells volume.old
        → (index : Index) (body : List ℕ) → HasBody V.Ground volume.old index from body
        → AreReadable (bodies_of (V.image volume.old) index) → ⊥) }
    ensures fault { IfErr result (λ fault. V.tells volume.old
        → IsWalkFault (V.geometry volume.old) (V.image volume.old) from fault) }
    ensures walk { OnOk result (V.tells volume.old
        → IsWalkedFrom (V.geometry volume.old) (V.image volume.old) from) }
    ensures kept { Keeps V.Ground volume.old volume.new }
    ensures cause { HasCause (V.faults volume.old) (V.faults volume.new) result }
{
    match list_from(volume, alloc, from) {
        Ok(mut oids) => {
            oids.sort_unstable_by_key(|oid| oid.unique);
            Ok(oids)
        }
        Err(fault) => Err(fault),
    }
}

/// The OID of a version that was read, as a list.
fn list_one(alloc: Global, stored: &Stored) -> Result<Vec<Oid>, PortFault>
    ensures one { IfOk result (λ oids. oids.items
        ≡ oid_at stored.now.place stored.now.head.unique ∷ []) }
    ensures no_damage { IfErr result (λ fault. IsDamage fault → ⊥) }
    ensures cause { (before now : ℕ) → HasCause before now result }
{
    let mut oids = Vec::new(alloc);
    match oids.push(oid_at(stored.place, stored.head.unique)) {
        Ok(()) => Ok(oids),
        Err(_) => Err(PortFault::Memory),
    }
}

/// The versions that are derived from a version, in order of unique number. The file is searched unless the version names the only one.
pub fn derived<V: ReadVolume>(
    volume: &mut V,
    alloc: Global,
    oid: &Oid,
) -> Result<Vec<Oid>, PortFault>
    requires { V.ready volume.old }
    ensures oids { IfOk result (λ oids. V.tells volume.old → AreLinked V.Ground volume.old
        → (index : Index) (is : Record) → HasRecord V.Ground volume.old index oid.now is
        → IsPermutation (oids_from (place_of oid.now) (bodies_of (V.image volume.old) index))
        oids.items) }
    ensures reads { OnOk result (V.tells volume.old → IsReadAnd (V.image volume.old) oid.now
        (λ body. NewerOn (V.image volume.old) (place_of oid.now) (head_in body)
        × ((head_in body).newer ≡ None
        → IsWalkedFrom (V.geometry volume.old) (V.image volume.old) (place_of oid.now)))) }
    ensures ordered { IfOk result (λ oids. AreByNumber oids.items) }
    ensures sound { IfErr result (λ fault. IsDamage fault → V.tells volume.old
        → AreLinked V.Ground volume.old → (index : Index) (is : Record)
        → HasRecord V.Ground volume.old index oid.now is → ⊥) }
    ensures fault { IfErr result (λ fault. V.tells volume.old
        → IsLinkedFault V.Ground volume.old oid.now
        (λ body. IsDerivedFault V.Ground volume.old (place_of oid.now) body fault) fault) }
    ensures kept { Keeps V.Ground volume.old volume.new }
    ensures cause { HasCause (V.faults volume.old) (V.faults volume.new) result }
{
    let version = stored_version(volume, alloc, oid)?;
    let found = linked_newer(volume, alloc, &version)?;
    match found {
        Some(newer) => list_one(alloc, &newer),
        None => list_by_number(volume, alloc, version.place),
    }
}
