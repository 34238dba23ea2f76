//! What is told of the version that an OID names, and its bytes.
ghost use Rattle.std.specs.Prelude.{◌≡◌, ◌≢◌, ◌↔◌, IsTrue, ◌≤◌, ◌+◌, ℕ, List, length, [], ◌<◌, IfOk, IfErr, IfSome, IfNone, IsSome, OnOk, Some, None, ⊤};
ghost use Rattle.ex_base.specs.Bytes.{bytes_at};
ghost use Rattle.ex_base.specs.Ports.{Keeps, HasCause, IsDamage};
ghost use Rattle.object_records.specs.Record.{Content, Small, Record, BodyOf, IsRecord};
ghost use Rattle.object_records.specs.Reads.{content_of, small_record};
ghost use Rattle.object_records.specs.declared.Head.{Head};
ghost use Rattle.ex_base.specs.declared.names.Index.{Index};
ghost use Rattle.file_bodies.specs.Damage.{IsBelonging};
ghost use Rattle.file_bodies.specs.Files.{HasFileOf, HasBody};
ghost use Rattle.trees.specs.Roots.{IsRootFor};
ghost use Rattle.versions.specs.Versions.{HasRecord, HoldsVersion, Stands, place_of};
ghost use Rattle.versions.specs.Found.{HasLimits, IsReadable, IsRecordBody, IsTold, found_of};
ghost use Rattle.versions.specs.Damage.{record_fault, IsFoundAnd, IsFoundAt, IsThereAnd, IsReadThrough, IsBodyFault, IsFindingFault, IsStepFault, IsVersionReadFault};

use crate::recorded::{check, no_record, no_root, place_of};
use ex_base::{Geometry, Oid, Place, PortFault, ReadVolume, Root};
use file_bodies::{body_at, body_on};
use object_records::{Head, Payload, RecordView};
use std::alloc::Global;
use tree_insert::read;
use trees::is_root_for;

/// What is told of a version.
#[derive(Clone, Copy, Debug, PartialEq, Eq)]
pub struct Found {
    pub head: Head,
    /// Its bytes.
    pub size: u64,
    /// The root of its tree, none for a small version.
    pub root: Option<Root>,
}

/// What a record tells that is seen in a body, none where it has another unique number than the OID.
fn told_by(view: &RecordView, geometry: &Geometry, oid: &Oid) -> Result<Option<Found>, PortFault>
    ensures some { IfOk result (λ found. IfSome found (λ found. (body : List ℕ)
        → BodyOf body view.now → IsTold geometry.now oid.now.unique body found)) }
    ensures none { IfOk result (λ found. IfNone found (view.now.head.unique ≢ oid.now.unique)) }
    ensures sound { IfErr result (λ fault. HasLimits geometry.now view.now.content → ⊥) }
    ensures fault { IfErr result (λ fault. (body : List ℕ) → BodyOf body view.now
        → IsBodyFault geometry.now oid.now body fault) }
    ensures cause { (before now : ℕ) → HasCause before now result }
{
    let head = view.head();
    if head.unique != oid.unique {
        return Ok(None);
    }
    match view.payload() {
        Payload::Small(bytes) => Ok(Some(Found {
            head,
            size: bytes.len() as u64,
            root: None,
        })),
        Payload::Large(root) => {
            if !is_root_for(geometry, &root) {
                return Err(no_root(oid.page, &root));
            }
            Ok(Some(Found {
                head,
                size: root.size,
                root: Some(root),
            }))
        }
    }
}

/// What a record tells, none where it has another unique number than the OID.
pub fn told_of(body: &[u8], geometry: &Geometry, oid: &Oid) -> Result<Option<Found>, PortFault>
    ensures some { IfOk result
        (λ found. IfSome found (λ found. IsTold geometry.now oid.now.unique body.now found)) }
    ensures none { IfOk result (λ found. IfNone found ((is : Record) → BodyOf body.now is
        → is.head.unique ≡ oid.now.unique → ⊥)) }
    ensures sound { IfErr result (λ fault. IsRecordBody geometry.now body.now → ⊥) }
    ensures fault { IfErr result (IsBodyFault geometry.now oid.now body.now) }
    ensures cause { (before now : ℕ) → HasCause before now result }
{
    match RecordView::of(body) {
        Some(view) => told_by(&view, geometry, oid),
        None => Err(no_record(place_of(oid))),
    }
}

/// Copies the bytes of a small version from a position on, as many as `out` holds, where it has them.
fn copy_inside(payload: &Payload, pos: u64, out: &mut [u8])
    ensures bytes { (bytes : List ℕ) → content_of payload.now ≡ Small bytes
        → pos + length out.old ≤ length bytes → out.new ≡ bytes_at bytes pos (length out.old) }
    ensures len { length out.new ≡ length out.old }
{
    let Payload::Small(bytes) = payload else {
        return;
    };
    if !is_inside(pos, out.len(), bytes.len() as u64) {
        return;
    }
    let from = pos as usize;
    out.copy_from_slice(&bytes[from..from + out.len()]);
}

/// What a record tells, as `told_of` tells it. Of a small version the bytes from a position on are copied, as many as `out` holds, where it has them.
fn told_reading(
    body: &[u8],
    geometry: &Geometry,
    oid: &Oid,
    pos: u64,
    out: &mut [u8],
) -> Result<Option<Found>, PortFault>
    ensures some { IfOk result
        (λ found. IfSome found (λ found. IsTold geometry.now oid.now.unique body.now found)) }
    ensures none { IfOk result (λ found. IfNone found ((is : Record) → BodyOf body.now is
        → is.head.unique ≡ oid.now.unique → ⊥)) }
    ensures bytes { IfOk result (λ found. IfSome found (λ found. found.root ≡ None
        → pos + length out.old ≤ found.size → (head : Head) (bytes : List ℕ)
        → BodyOf body.now (small_record head bytes)
        → out.new ≡ bytes_at bytes pos (length out.old))) }
    ensures len { length out.new ≡ length out.old }
    ensures sound { IfErr result (λ fault. IsRecordBody geometry.now body.now → ⊥) }
    ensures fault { IfErr result (IsBodyFault geometry.now oid.now body.now) }
    ensures cause { (before now : ℕ) → HasCause before now result }
{
    let Some(view) = RecordView::of(body) else {
        return Err(no_record(place_of(oid)));
    };
    match told_by(&view, geometry, oid) {
        Ok(Some(found)) => {
            let payload = view.payload();
            copy_inside(&payload, pos, out);
            Ok(Some(found))
        }
        Ok(None) => Ok(None),
        Err(fault) => Err(fault),
    }
}

/// What is told of the version that an OID names, as `find` tells it. Of a small version the bytes from a position on are copied, as many as `out` holds,
/// where it has them.
fn find_reading<V: ReadVolume>(
    volume: &mut V,
    alloc: Global,
    oid: &Oid,
    pos: u64,
    out: &mut [u8],
) -> Result<Option<Found>, PortFault>
    requires { V.ready volume.old }
    ensures stands { IfOk result (λ found. IfSome found (λ _. V.tells volume.old
        → HasFileOf V.Ground volume.old oid.now.page.0 → Stands V.Ground volume.old oid.now)) }
    ensures told { IfOk result (λ found. V.tells volume.old → (index : Index) (is : Record)
        → HasRecord V.Ground volume.old index oid.now is → found ≡ Some (found_of is)) }
    ensures size { IfOk result (λ found. V.tells volume.old
        → (index : Index) (head : Head) (content : Content) (bytes : List ℕ)
        → HoldsVersion V.Ground volume.old index oid.now head content bytes
        → IfSome found (λ found. found.size ≡ length bytes)) }
    ensures bytes { IfOk result (λ found. IfSome found (λ found. V.tells volume.old
        → found.root ≡ None → pos + length out.old ≤ found.size
        → (index : Index) (head : Head) (content : Content) (bytes : List ℕ)
        → HoldsVersion V.Ground volume.old index oid.now head content bytes
        → out.new ≡ bytes_at bytes pos (length out.old))) }
    ensures len { length out.new ≡ length out.old }
    ensures head { IfOk result
        (λ found. IfSome found (λ found. IsRecord (small_record found.head []))) }
    ensures small { IfOk result (λ found. IfSome found (λ found. found.root ≡ None
        → found.size < 65536)) }
    ensures root { IfOk result (λ found. IfSome found (λ found. IfSome found.root
        (λ root. IsRootFor (V.geometry volume.old) root))) }
    ensures large { IfOk result (λ found. IfSome found (λ found. IfSome found.root
        (λ root. found.size ≡ root.size))) }
    ensures reads { IfOk result (λ found. IfSome found (λ found. V.tells volume.old
        → IsFoundAt (V.geometry volume.old) (V.image volume.old) oid.now found)) }
    ensures none { IfOk result (λ found. IfNone found (V.tells volume.old
        → IsThereAnd (V.geometry volume.old) (V.image volume.old) oid.now (λ found. ⊤) → ⊥)) }
    ensures way { OnOk result (V.tells volume.old
        → IsBelonging (V.geometry volume.old) (V.image volume.old) oid.now.page.0) }
    ensures sound { IfErr result (λ fault. IsDamage fault → V.tells volume.old
        → HasFileOf V.Ground volume.old oid.now.page.0
        → IsReadable V.Ground volume.old (place_of oid.now) → ⊥) }
    ensures fault { IfErr result (λ fault. V.tells volume.old
        → IsFindingFault (V.geometry volume.old) (V.image volume.old) oid.now fault) }
    ensures kept { Keeps V.Ground volume.old volume.new }
    ensures cause { HasCause (V.faults volume.old) (V.faults volume.new) result }
{
    let geometry = volume.geometry();
    match body_at(volume, alloc, place_of(oid)) {
        Ok(Some(body)) => told_reading(body, &geometry, oid, pos, out),
        Ok(None) => Ok(None),
        Err(fault) => Err(fault),
    }
}

/// What is told of the version that an OID names. None exactly where no record with its unique number stands where it leads.
pub fn find<V: ReadVolume>(
    volume: &mut V,
    alloc: Global,
    oid: &Oid,
) -> Result<Option<Found>, PortFault>
    requires { V.ready volume.old }
    ensures stands { IfOk result (λ found. IfSome found (λ _. V.tells volume.old
        → HasFileOf V.Ground volume.old oid.now.page.0 → Stands V.Ground volume.old oid.now)) }
    ensures told { IfOk result (λ found. V.tells volume.old → (index : Index) (is : Record)
        → HasRecord V.Ground volume.old index oid.now is → found ≡ Some (found_of is)) }
    ensures size { IfOk result (λ found. V.tells volume.old
        → (index : Index) (head : Head) (content : Content) (bytes : List ℕ)
        → HoldsVersion V.Ground volume.old index oid.now head content bytes
        → IfSome found (λ found. found.size ≡ length bytes)) }
    ensures head { IfOk result
        (λ found. IfSome found (λ found. IsRecord (small_record found.head []))) }
    ensures small { IfOk result (λ found. IfSome found (λ found. found.root ≡ None
        → found.size < 65536)) }
    ensures root { IfOk result (λ found. IfSome found (λ found. IfSome found.root
        (λ root. IsRootFor (V.geometry volume.old) root))) }
    ensures large { IfOk result (λ found. IfSome found (λ found. IfSome found.root
        (λ root. found.size ≡ root.size))) }
    ensures reads { IfOk result (λ found. IfSome found (λ found. V.tells volume.old
        → IsFoundAt (V.geometry volume.old) (V.image volume.old) oid.now found)) }
    ensures none { IfOk result (λ found. IfNone found (V.tells volume.old
        → IsThereAnd (V.geometry volume.old) (V.image volume.old) oid.now (λ found. ⊤) → ⊥)) }
    ensures way { OnOk result (V.tells volume.old
        → IsBelonging (V.geometry volume.old) (V.image volume.old) oid.now.page.0) }
    ensures sound { IfErr result (λ fault. IsDamage fault → V.tells volume.old
        → HasFileOf V.Ground volume.old oid.now.page.0
        → IsReadable V.Ground volume.old (place_of oid.now) → ⊥) }
    ensures fault { IfErr result (λ fault. V.tells volume.old
        → IsFindingFault (V.geometry volume.old) (V.image volume.old) oid.now fault) }
    ensures kept { Keeps V.Ground volume.old volume.new }
    ensures cause { HasCause (V.faults volume.old) (V.faults volume.new) result }
{
    find_reading(volume, alloc, oid, 0, &mut [])
}

/// What is told of a version that a call asks for, else the fault of its place.
pub fn stood(told: Option<Found>, place: Place) -> Result<Found, PortFault>
    ensures some { IfOk result (λ found. told ≡ Some found) }
    ensures fault { IfErr result (λ fault. (told ≡ None) × (fault ≡ record_fault place)) }
    ensures cause { (before now : ℕ) → HasCause before now result }
{
    match told {
        Some(found) => Ok(found),
        None => Err(no_record(place)),
    }
}

/// Copies a part of a small version's bytes out of the body of its record.
fn copy_record(body: &[u8], place: Place, pos: u64, out: &mut [u8]) -> Result<(), PortFault>
    ensures bytes { OnOk result ((head : Head) (bytes : List ℕ)
        → BodyOf body.now (small_record head bytes) → (pos + length out.old ≤ length bytes)
        × (out.new ≡ bytes_at bytes pos (length out.old))) }
    ensures len { length out.new ≡ length out.old }
    ensures sound { IfErr result (λ fault. (head : Head) (bytes : List ℕ)
        → BodyOf body.now (small_record head bytes) → pos + length out.old ≤ length bytes → ⊥) }
    ensures fault { IfErr result (λ fault. fault ≡ record_fault place) }
    ensures cause { (before now : ℕ) → HasCause before now result }
{
    let Some(view) = RecordView::of(body) else {
        return Err(no_record(place));
    };
    let Payload::Small(bytes) = view.payload() else {
        return Err(no_record(place));
    };
    if out.len() > bytes.len() || pos > (bytes.len() - out.len()) as u64 {
        return Err(no_record(place));
    }
    let from = pos as usize;
    out.copy_from_slice(&bytes[from..from + out.len()]);
    Ok(())
}

/// Copies a part of a small version's bytes out of the body of its record, where one stands at the place.
fn copy_small(body: Option<&[u8]>, place: Place, pos: u64, out: &mut [u8]) -> Result<(), PortFault>
    ensures bytes { OnOk result (IfSome body.entry (λ body. (head : Head) (bytes : List ℕ)
        → BodyOf body.now (small_record head bytes)
        → (pos + length out.old ≤ length bytes)
        × (out.new ≡ bytes_at bytes pos (length out.old)))) }
    ensures len { length out.new ≡ length out.old }
    ensures sound { IfErr result (λ fault. IfSome body.entry (λ body. (head : Head) (bytes : List ℕ)
        → BodyOf body.now (small_record head bytes)
        → pos + length out.old ≤ length bytes → ⊥)) }
    ensures none { OnOk result (IsSome body.entry) }
    ensures fault { IfErr result (λ fault. fault ≡ record_fault place) }
    ensures cause { (before now : ℕ) → HasCause before now result }
{
    match body {
        Some(body) => copy_record(body, place, pos, out),
        None => Err(no_record(place)),
    }
}

/// Reads a part of the bytes of a small version that was found. Whether a file has its page isn't looked at again.
pub fn read_small<V: ReadVolume>(
    volume: &mut V,
    alloc: Global,
    place: Place,
    pos: u64,
    out: &mut [u8],
) -> Result<(), PortFault>
    requires { V.ready volume.old }
    ensures bytes { OnOk result (V.tells volume.old
        → (index : Index) (body : List ℕ) (head : Head) (bytes : List ℕ)
        → HasBody V.Ground volume.old index place body → BodyOf body (small_record head bytes)
        → (pos + length out.old ≤ length bytes) × (out.new ≡ bytes_at bytes pos (length out.old))) }
    ensures page { OnOk result (V.tells volume.old → (index : Index) (body : List ℕ)
        → HasBody V.Ground volume.old index place body
        → length (V.image volume.old place.page.0) ≡ (V.geometry volume.old).page_size) }
    ensures len { length out.new ≡ length out.old }
    ensures sound { IfErr result (λ fault. IsDamage fault → V.tells volume.old
        → (index : Index) (body : List ℕ) (head : Head) (bytes : List ℕ)
        → HasBody V.Ground volume.old index place body → BodyOf body (small_record head bytes)
        → pos + length out.old ≤ length bytes → ⊥) }
    ensures fault { IfErr result (λ fault. V.tells volume.old
        → IsStepFault (V.geometry volume.old) (V.image volume.old) ⊤ place fault) }
    ensures kept { Keeps V.Ground volume.old volume.new }
    ensures cause { HasCause (V.faults volume.old) (V.faults volume.new) result }
{
    if !volume.in_area(place.page) {
        return Err(no_record(place));
    }
    match volume.get(alloc, place.page) {
        Ok(page) => copy_small(body_on(page, place.slot), place, pos, out),
        Err(fault) => Err(fault),
    }
}

/// Whether so many bytes from a position on lie inside an object of a size.
fn is_inside(pos: u64, len: usize, size: u64) -> bool
    ensures { IsTrue result ↔ (pos + len ≤ size) }
{
    let len = len as u64;
    len <= size && pos <= size - len
}

/// Reads the bytes of a version from a position on, as many as `out` holds.
pub fn read_at<V: ReadVolume>(
    volume: &mut V,
    alloc: Global,
    oid: &Oid,
    pos: u64,
    out: &mut [u8],
) -> Result<(), PortFault>
    requires { V.ready volume.old }
    ensures stands { OnOk result (V.tells volume.old → HasFileOf V.Ground volume.old oid.now.page.0
        → Stands V.Ground volume.old oid.now) }
    ensures bytes { OnOk result (V.tells volume.old
        → (index : Index) (head : Head) (content : Content) (bytes : List ℕ)
        → HoldsVersion V.Ground volume.old index oid.now head content bytes
        → (pos + length out.old ≤ length bytes) × (out.new ≡ bytes_at bytes pos (length out.old))) }
    ensures reads { OnOk result (V.tells volume.old
        → IsFoundAnd (V.geometry volume.old) (V.image volume.old) oid.now
        (IsReadThrough (V.geometry volume.old) (V.unit volume.old) pos (length out.old))) }
    ensures sound { IfErr result (λ fault. IsDamage fault → V.tells volume.old
        → (index : Index) (head : Head) (content : Content) (bytes : List ℕ)
        → HoldsVersion V.Ground volume.old index oid.now head content bytes
        → pos + length out.old ≤ length bytes → ⊥) }
    ensures fault { IfErr result (λ fault. V.tells volume.old
        → IsVersionReadFault (V.geometry volume.old) (V.unit volume.old) (V.image volume.old)
        oid.now pos (length out.old) fault) }
    ensures kept { Keeps V.Ground volume.old volume.new }
    ensures cause { HasCause (V.faults volume.old) (V.faults volume.new) result }
{
    let place = place_of(oid);
    let told = find_reading(volume, alloc, oid, pos, out)?;
    let found = stood(told, place)?;
    check(is_inside(pos, out.len(), found.size), place)?;
    match found.root {
        None => Ok(()),
        Some(root) => read(volume, alloc, &root, pos, out),
    }
}
