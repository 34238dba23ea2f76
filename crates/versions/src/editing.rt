//! Edits of versions.
ghost use Rattle.std.specs.Prelude.{◌≡◌, ◌⊎◌, ◌≤◌, ◌<◌, ◌+◌, ◌++◌, ◌↔◌, ℕ, max, List, length, IfOk, IfErr, OnOk, IsTrue, IsFalse, [], None, ⊤};
ghost use Rattle.ex_base.specs.Ports.{Keeps, HasCause, IsDamage};
ghost use Rattle.ex_base.specs.Sizes.{object_most};
ghost use Rattle.ex_base.specs.declared.names.Area.{Area};
ghost use Rattle.object_records.specs.Record.{Content, Record, Small, BodyOf, IsRecord};
ghost use Rattle.object_records.specs.Reads.{small_record};
ghost use Rattle.object_records.specs.declared.Head.{Head};
ghost use Rattle.object_records.specs.declared.State.TheVariants.{Current};
ghost use Rattle.ex_base.specs.declared.names.Index.{Index};
ghost use Rattle.file_index.specs.Touches.{TouchesAtMost};
ghost use Rattle.file_bodies.specs.Files.{HasFileOf, HasBody};
ghost use Rattle.versions.specs.Versions.{HasRecord, HasVersion, Stands, Change, AreInUse, StaysSmall, FitsIn, InRange, changed, count_of, place_of};
ghost use Rattle.ex_base.specs.Needs.{growth_need};
ghost use Rattle.versions.specs.Needs.{edit_need};
ghost use Rattle.versions.specs.Edited.{change_of, HasNeed, IsEditable, TurnsVersion};
ghost use Rattle.versions.specs.Put.{PutsRecord};
ghost use Rattle.versions.specs.Damage.{no_tree, IsFoundAnd, IsStepFault, IsBytesFault, IsVersionFault};
ghost use Rattle.file_bodies.specs.Damage.{IsBelongingFault, IsPlaceFault};

use crate::finding::{Found, find, read_small, stood};
use crate::growing::{convert, edit_large};
use crate::recorded::{check, place_of};
use ex_base::{OBJECT_MOST, Oid, Place, PortFault, ReadVolume, Root, Volume};
use file_bodies::change_body;
use object_records::{Head, State, body_len, write_small};
use std::alloc::Global;

/// What is done to the bytes of a version. Positions and lengths are in bytes.
#[derive(Clone, Copy, Debug)]
pub enum Edit<'a> {
    /// Puts bytes in before the byte at a position.
    Insert { pos: u64, bytes: &'a [u8] },
    /// Puts bytes at the end.
    Append { bytes: &'a [u8] },
    /// Puts other bytes over those from a position on.
    Replace { pos: u64, bytes: &'a [u8] },
    /// Takes bytes away, from a position on.
    Delete { pos: u64, len: u64 },
}

/// What an edit left of a version: its size, the root that it gave up, and the one that came in its place.
#[derive(Clone, Copy, Debug, PartialEq, Eq)]
pub struct Edited {
    pub size: u64,
    /// The root that the version had, if the edit changed it and it was large.
    pub gone: Option<Root>,
    /// The root that the version has now, if the edit changed it and it is large.
    pub come: Option<Root>,
}

impl<'a> Edit<'a> {
    /// How many bytes it names.
    pub fn count(&self) -> u64
        ensures { result ≡ count_of (change_of self.now) }
    {
        match self {
            Edit::Insert { bytes, .. } | Edit::Append { bytes } | Edit::Replace { bytes, .. } => {
                bytes.len() as u64
            }
            Edit::Delete { len, .. } => *len,
        }
    }

    /// Whether its range lies inside an object of a size, and the new size is in the limit.
    pub fn is_in_range(&self, size: u64) -> bool
        requires { size ≤ object_most }
        ensures { IsTrue result ↔ InRange (change_of self.now) size }
    {
        let count = self.count();
        match self {
            Edit::Insert { pos, .. } => *pos <= size && count <= OBJECT_MOST - size,
            Edit::Append { .. } => count <= OBJECT_MOST - size,
            Edit::Replace { pos, .. } | Edit::Delete { pos, .. } => {
                count <= size && *pos <= size - count
            }
        }
    }
}

/// Three parts, one after the other.
fn joined(alloc: Global, front: &[u8], mid: &[u8], back: &[u8]) -> Result<Vec<u8>, PortFault>
    ensures bytes { IfOk result (λ bytes. bytes.items ≡ front.now ++ (mid.now ++ back.now)) }
    ensures no_damage { IfErr result (λ fault. IsDamage fault → ⊥) }
    ensures cause { (before now : ℕ) → HasCause before now result }
{
    let mut bytes = front.to_vec(alloc)?;
    bytes.extend_from_slice(mid)?;
    bytes.extend_from_slice(back)?;
    Ok(bytes)
}

/// The bytes after an edit.
fn bytes_after(alloc: Global, edit: &Edit, old: &[u8]) -> Result<Vec<u8>, PortFault>
    requires { InRange (change_of edit.now) (length old.now) }
    ensures bytes { IfOk result (λ bytes. bytes.items ≡ changed (change_of edit.now) old.now) }
    ensures no_damage { IfErr result (λ fault. IsDamage fault → ⊥) }
    ensures cause { (before now : ℕ) → HasCause before now result }
{
    match edit {
        Edit::Insert { pos, bytes } => {
            let at = *pos as usize;
            joined(alloc, &old[..at], bytes, &old[at..])
        }
        Edit::Append { bytes } => joined(alloc, old, bytes, &[]),
        Edit::Replace { pos, bytes } => {
            let at = *pos as usize;
            joined(alloc, &old[..at], bytes, &old[at + bytes.len()..])
        }
        Edit::Delete { pos, len } => {
            let at = *pos as usize;
            joined(alloc, &old[..at], &[], &old[at + *len as usize..])
        }
    }
}

/// The most bytes of a small version: as many as a length of two bytes counts. No page has room for so many.
const SMALL_MOST: usize = u16::MAX as usize;

/// Writes the record of a small version in its place, by way of a body.
fn put_small_by<V: Volume>(
    volume: &mut V,
    alloc: Global,
    place: Place,
    head: &Head,
    bytes: &[u8],
    body: &mut [u8],
) -> Result<bool, PortFault>
    requires ready { V.ready volume.old }
    requires head { IsRecord (small_record head.now []) }
    requires short { length bytes.now < 65536 }
    requires body { length body.old ≡ 24 + max 12 (length bytes.now) }
    ensures fits { IfOk result (λ done. V.tells volume.old → (index : Index) (was : List ℕ)
        → HasBody V.Ground volume.old index place was → IsTrue done
        ↔ FitsIn V.Ground volume.old place.page.0 (length was) (length bytes.now)) }
    ensures put { IfOk result (λ done. IsTrue done → V.tells volume.old
        → (index : Index) (was : List ℕ) → HasBody V.Ground volume.old index place was
        → PutsRecord V.Ground volume.old volume.new index place was
        (small_record head.now bytes.now)) }
    ensures kept { IfOk result (λ done. IsFalse done → Keeps V.Ground volume.old volume.new) }
    ensures free { IfOk result (λ done. V.free volume.new ≡ V.free volume.old) }
    ensures sound { IfErr result (λ fault. IsDamage fault → V.tells volume.old
        → (index : Index) (was : List ℕ) → HasBody V.Ground volume.old index place was → ⊥) }
    ensures fault { IfErr result (λ fault. V.tells volume.old
        → IsPlaceFault (V.geometry volume.old) (V.held volume.old)
        (V.image volume.old place.page.0) place fault) }
    ensures touches { OnOk result (TouchesAtMost V.Ground volume.old volume.new 1) }
    ensures leads { V.leads volume.old volume.new }
    ensures cause { HasCause (V.faults volume.old) (V.faults volume.new) result }
{
    write_small(head, bytes, body);
    change_body(volume, alloc, place, body)
}

/// Writes the record of a small version in its place. False exactly where it doesn't fit its page; then nothing changes.
fn put_small<V: Volume>(
    volume: &mut V,
    alloc: Global,
    place: Place,
    head: &Head,
    bytes: &[u8],
) -> Result<bool, PortFault>
    requires ready { V.ready volume.old }
    requires head { IsRecord (small_record head.now []) }
    ensures fits { IfOk result (λ done. V.tells volume.old → (index : Index) (was : List ℕ)
        → HasBody V.Ground volume.old index place was → IsTrue done
        ↔ FitsIn V.Ground volume.old place.page.0 (length was) (length bytes.now)) }
    ensures put { IfOk result (λ done. IsTrue done → V.tells volume.old
        → (index : Index) (was : List ℕ) → HasBody V.Ground volume.old index place was
        → PutsRecord V.Ground volume.old volume.new index place was
        (small_record head.now bytes.now)) }
    ensures kept { IfOk result (λ done. IsFalse done → Keeps V.Ground volume.old volume.new) }
    ensures free { IfOk result (λ done. V.free volume.new ≡ V.free volume.old) }
    ensures sound { IfErr result (λ fault. IsDamage fault → V.tells volume.old
        → (index : Index) (was : List ℕ) → HasBody V.Ground volume.old index place was → ⊥) }
    ensures fault { IfErr result (λ fault. V.tells volume.old
        → IsPlaceFault (V.geometry volume.old) (V.held volume.old)
        (V.image volume.old place.page.0) place fault) }
    ensures touches { OnOk result (TouchesAtMost V.Ground volume.old volume.new 1) }
    ensures leads { V.leads volume.old volume.new }
    ensures cause { HasCause (V.faults volume.old) (V.faults volume.new) result }
{
    if bytes.len() > SMALL_MOST {
        return Ok(false);
    }
    match vec![in alloc; 0u8; body_len(bytes.len() as u32) as usize] {
        Ok(mut body) => put_small_by(volume, alloc, place, head, bytes, &mut body),
        Err(_) => Err(PortFault::Memory),
    }
}

/// Whether an edit that names so many bytes may leave so many of a version whose record stood on a page: more than none, and no more than the page's beside
/// its own.
fn is_grown<V: ReadVolume>(volume: &V, count: u64, len: usize) -> bool
    requires ready { V.ready volume.now }
    requires count { count ≤ object_most }
    ensures { IsTrue result ↔ ((1 ≤ len) × (len ≤ count + (V.geometry volume.now).page_size)) }
{
    len > 0 && len as u64 <= count + u64::from(volume.page_size())
}

/// What an edit left of a version of a size, whose trees it didn't touch.
fn stayed(size: u64) -> Edited
    ensures { result ≡ record { size = size; gone = None; come = None } }
{
    Edited {
        size,
        gone: None,
        come: None,
    }
}

/// Puts the bytes after an edit that names so many in the place of a small version's.
fn put_edited<V: Volume>(
    volume: &mut V,
    alloc: Global,
    oid: &Oid,
    head: &Head,
    count: u64,
    bytes: &[u8],
) -> Result<Edited, PortFault>
    requires ready { V.ready volume.old }
    requires head { IsRecord (small_record head.now []) }
    requires count { count ≤ object_most }
    requires limit { length bytes.now ≤ object_most }
    ensures size { IfOk result (λ done. done.size ≡ length bytes.now) }
    ensures edited { IfOk result (λ done. V.tells volume.old → AreInUse V.Ground volume.old
        → (index : Index) (held : List ℕ)
        → HasVersion V.Ground volume.old index oid.now head.now (Small held) held
        → (change : Change) → TurnsVersion V.Ground volume.old volume.new index oid.now head.now
        (Small held) change bytes.now done.gone done.come) }
    ensures small { OnOk result (V.tells volume.old → (index : Index) (held : List ℕ)
        → HasVersion V.Ground volume.old index oid.now head.now (Small held) held
        → StaysSmall V.Ground volume.old (place_of oid.now) (Small held) (length bytes.now)
        → V.free volume.new ≡ V.free volume.old) }
    ensures free { OnOk result ((area : Area)
        → V.free volume.old area ≤ V.free volume.new area
        + growth_need (V.geometry volume.old) count 0 area) }
    ensures sound { IfErr result (λ fault. IsDamage fault → V.tells volume.old
        → AreInUse V.Ground volume.old → (index : Index) (held : List ℕ)
        → HasVersion V.Ground volume.old index oid.now head.now (Small held) held
        → length bytes.now ≤ length held + count
        → length (V.image volume.old oid.now.page.0) ≡ (V.geometry volume.old).page_size
        → ((StaysSmall V.Ground volume.old (place_of oid.now) (Small held) (length bytes.now) → ⊥)
        → (area : Area) → growth_need (V.geometry volume.old) count 0 area ≤ V.free volume.old area)
        → ⊥) }
    ensures fault { IfErr result (λ fault. V.tells volume.old
        → IsBytesFault (V.geometry volume.old) (V.unit volume.old) oid.now no_tree ⊤ fault) }
    ensures touches { OnOk result (TouchesAtMost V.Ground volume.old volume.new 1) }
    ensures leads { V.leads volume.old volume.new }
    ensures cause { HasCause (V.faults volume.old) (V.faults volume.new) result }
{
    match put_small(volume, alloc, place_of(oid), head, bytes) {
        Ok(true) => return Ok(stayed(bytes.len() as u64)),
        Ok(false) => {}
        Err(fault) => return Err(fault),
    }
    check(is_grown(volume, count, bytes.len()), place_of(oid))?;
    convert(volume, alloc, oid, head, count, bytes)
}

/// The bytes of a small version after an edit, by way of its bytes.
fn edited_by<V: ReadVolume>(
    volume: &mut V,
    alloc: Global,
    place: Place,
    edit: &Edit,
    old: &mut [u8],
) -> Result<Vec<u8>, PortFault>
    requires ready { V.ready volume.old }
    requires range { InRange (change_of edit.now) (length old.old) }
    requires short { length old.old < 65536 }
    ensures bytes { IfOk result (λ made. V.tells volume.old
        → (index : Index) (body : List ℕ) (head : Head) (bytes : List ℕ)
        → HasBody V.Ground volume.old index place body → BodyOf body (small_record head bytes)
        → length bytes ≡ length old.old → made.items ≡ changed (change_of edit.now) bytes) }
    ensures len { IfOk result (λ made. length made.items ≤ length old.old
        + count_of (change_of edit.now)) }
    ensures limit { IfOk result (λ made. length made.items ≤ object_most) }
    ensures sound { IfErr result (λ fault. IsDamage fault → V.tells volume.old
        → (index : Index) (body : List ℕ) (head : Head) (bytes : List ℕ)
        → HasBody V.Ground volume.old index place body → BodyOf body (small_record head bytes)
        → length bytes ≡ length old.old → ⊥) }
    ensures page { OnOk result (V.tells volume.old → (index : Index) (body : List ℕ)
        → HasBody V.Ground volume.old index place body
        → length (V.image volume.old place.page.0) ≡ (V.geometry volume.old).page_size) }
    ensures fault { IfErr result (λ fault. V.tells volume.old
        → IsStepFault (V.geometry volume.old) (V.image volume.old) ⊤ place fault) }
    ensures kept { Keeps V.Ground volume.old volume.new }
    ensures cause { HasCause (V.faults volume.old) (V.faults volume.new) result }
{
    match read_small(volume, alloc, place, 0, old) {
        Ok(()) => bytes_after(alloc, edit, old),
        Err(fault) => Err(fault),
    }
}

/// The bytes of a small version of so many, after an edit.
fn edited_small<V: ReadVolume>(
    volume: &mut V,
    alloc: Global,
    place: Place,
    size: u64,
    edit: &Edit,
) -> Result<Vec<u8>, PortFault>
    requires ready { V.ready volume.old }
    requires range { InRange (change_of edit.now) size }
    requires short { size < 65536 }
    ensures bytes { IfOk result (λ made. V.tells volume.old
        → (index : Index) (body : List ℕ) (head : Head) (bytes : List ℕ)
        → HasBody V.Ground volume.old index place body → BodyOf body (small_record head bytes)
        → length bytes ≡ size → made.items ≡ changed (change_of edit.now) bytes) }
    ensures len { IfOk result (λ made. length made.items ≤ size + count_of (change_of edit.now)) }
    ensures limit { IfOk result (λ made. length made.items ≤ object_most) }
    ensures sound { IfErr result (λ fault. IsDamage fault → V.tells volume.old
        → (index : Index) (body : List ℕ) (head : Head) (bytes : List ℕ)
        → HasBody V.Ground volume.old index place body → BodyOf body (small_record head bytes)
        → length bytes ≡ size → ⊥) }
    ensures page { OnOk result (V.tells volume.old → (index : Index) (body : List ℕ)
        → HasBody V.Ground volume.old index place body
        → length (V.image volume.old place.page.0) ≡ (V.geometry volume.old).page_size) }
    ensures fault { IfErr result (λ fault. V.tells volume.old
        → IsStepFault (V.geometry volume.old) (V.image volume.old) ⊤ place fault) }
    ensures kept { Keeps V.Ground volume.old volume.new }
    ensures cause { HasCause (V.faults volume.old) (V.faults volume.new) result }
{
    match vec![in alloc; 0u8; size as usize] {
        Ok(mut old) => edited_by(volume, alloc, place, edit, &mut old),
        Err(_) => Err(PortFault::Memory),
    }
}

/// Edits a small version, of so many bytes.
fn edit_small<V: Volume>(
    volume: &mut V,
    alloc: Global,
    oid: &Oid,
    head: &Head,
    size: u64,
    edit: &Edit,
) -> Result<Edited, PortFault>
    requires ready { V.ready volume.old }
    requires head { IsRecord (small_record head.now []) }
    requires range { InRange (change_of edit.now) size }
    requires short { size < 65536 }
    ensures size { IfOk result (λ done. V.tells volume.old → (index : Index) (bytes : List ℕ)
        → HasVersion V.Ground volume.old index oid.now head.now (Small bytes) bytes
        → length bytes ≡ size
        → done.size ≡ length (changed (change_of edit.now) bytes)) }
    ensures edited { IfOk result (λ done. V.tells volume.old → AreInUse V.Ground volume.old
        → (index : Index) (bytes : List ℕ)
        → HasVersion V.Ground volume.old index oid.now head.now (Small bytes) bytes
        → length bytes ≡ size
        → TurnsVersion V.Ground volume.old volume.new index oid.now head.now (Small bytes)
        (change_of edit.now) (changed (change_of edit.now) bytes) done.gone done.come) }
    ensures small { OnOk result (V.tells volume.old → (index : Index) (bytes : List ℕ)
        → HasVersion V.Ground volume.old index oid.now head.now (Small bytes) bytes
        → length bytes ≡ size
        → StaysSmall V.Ground volume.old (place_of oid.now) (Small bytes)
        (length (changed (change_of edit.now) bytes)) → V.free volume.new ≡ V.free volume.old) }
    ensures free { OnOk result ((area : Area)
        → V.free volume.old area ≤ V.free volume.new area
        + growth_need (V.geometry volume.old) (count_of (change_of edit.now)) 0 area) }
    ensures sound { IfErr result (λ fault. IsDamage fault → V.tells volume.old
        → AreInUse V.Ground volume.old → (index : Index) (bytes : List ℕ)
        → HasVersion V.Ground volume.old index oid.now head.now (Small bytes) bytes
        → length bytes ≡ size
        → ((StaysSmall V.Ground volume.old (place_of oid.now) (Small bytes)
        (length (changed (change_of edit.now) bytes)) → ⊥) → (area : Area)
        → growth_need (V.geometry volume.old) (count_of (change_of edit.now)) 0 area
        ≤ V.free volume.old area) → ⊥) }
    ensures fault { IfErr result (λ fault. V.tells volume.old
        → IsBelongingFault (V.geometry volume.old) (V.image volume.old) oid.now.page.0 fault
        ⊎ IsBytesFault (V.geometry volume.old) (V.unit volume.old) oid.now no_tree ⊤ fault) }
    ensures touches { OnOk result (TouchesAtMost V.Ground volume.old volume.new 1) }
    ensures leads { V.leads volume.old volume.new }
    ensures cause { HasCause (V.faults volume.old) (V.faults volume.new) result }
{
    match edited_small(volume, alloc, place_of(oid), size, edit) {
        Ok(bytes) => put_edited(volume, alloc, oid, head, edit.count(), &bytes),
        Err(fault) => Err(fault),
    }
}

/// Whether a version may be edited: it is a current one, and the edit's range lies inside it.
fn is_editable(found: &Found, edit: &Edit) -> bool
    requires { found.now.size ≤ object_most }
    ensures { IsTrue result ↔ ((found.now.head.state ≡ Current)
        × InRange (change_of edit.now) found.now.size) }
{
    found.head.state == State::Current && edit.is_in_range(found.size)
}

/// Edits a current version, and answers its new size with the root that went and the one that came; its head stays. An edit of no bytes changes nothing. A
/// small version becomes large exactly where its record would not fit its page; a large one stays large.
pub fn apply<V: Volume>(
    volume: &mut V,
    alloc: Global,
    oid: &Oid,
    edit: &Edit,
) -> Result<Edited, PortFault>
    requires { V.ready volume.old }
    ensures stands { OnOk result (V.tells volume.old → HasFileOf V.Ground volume.old oid.now.page.0
        → Stands V.Ground volume.old oid.now) }
    ensures asked { OnOk result (V.tells volume.old → (index : Index) (is : Record)
        → HasRecord V.Ground volume.old index oid.now is → is.head.state ≡ Current) }
    ensures reads { OnOk result (V.tells volume.old
        → IsFoundAnd (V.geometry volume.old) (V.image volume.old) oid.now
        (λ found. (found.head.state ≡ Current) × InRange (change_of edit.now) found.size)) }
    ensures size { IfOk result (λ done. V.tells volume.old
        → (index : Index) (head : Head) (content : Content) (bytes : List ℕ)
        → HasVersion V.Ground volume.old index oid.now head content bytes
        → InRange (change_of edit.now) (length bytes)
        × (done.size ≡ length (changed (change_of edit.now) bytes))) }
    ensures nothing { OnOk result (count_of (change_of edit.now) ≡ 0
        → Keeps V.Ground volume.old volume.new) }
    ensures no_root { IfOk result (λ done. count_of (change_of edit.now) ≡ 0
        → (done.gone ≡ None) × (done.come ≡ None)) }
    ensures edited { IfOk result (λ done. 1 ≤ count_of (change_of edit.now) → V.tells volume.old
        → AreInUse V.Ground volume.old
        → (index : Index) (head : Head) (content : Content) (bytes : List ℕ)
        → HasVersion V.Ground volume.old index oid.now head content bytes
        → TurnsVersion V.Ground volume.old volume.new index oid.now head content
        (change_of edit.now) (changed (change_of edit.now) bytes) done.gone done.come) }
    ensures small { OnOk result (V.tells volume.old
        → (index : Index) (head : Head) (content : Content) (bytes : List ℕ)
        → HasVersion V.Ground volume.old index oid.now head content bytes
        → StaysSmall V.Ground volume.old (place_of oid.now) content
        (length (changed (change_of edit.now) bytes)) → V.free volume.new ≡ V.free volume.old) }
    ensures free { OnOk result (V.tells volume.old
        → (index : Index) (head : Head) (content : Content) (bytes : List ℕ)
        → HasVersion V.Ground volume.old index oid.now head content bytes
        → (area : Area) → V.free volume.old area ≤ V.free volume.new area
        + edit_need (V.geometry volume.old) (change_of edit.now) content area) }
    ensures sound { IfErr result (λ fault. IsDamage fault → V.tells volume.old
        → AreInUse V.Ground volume.old
        → (index : Index) (head : Head) (content : Content) (bytes : List ℕ)
        → HasVersion V.Ground volume.old index oid.now head content bytes
        → head.state ≡ Current → InRange (change_of edit.now) (length bytes)
        → HasNeed V.Ground volume.old (place_of oid.now) content (change_of edit.now)
        (length (changed (change_of edit.now) bytes)) → ⊥) }
    ensures fault { IfErr result (λ fault. V.tells volume.old
        → IsVersionFault (V.geometry volume.old) (V.unit volume.old) (V.image volume.old) oid.now
        (IsEditable V.Ground volume.old oid.now (change_of edit.now) → ⊥) fault) }
    ensures touches { OnOk result (TouchesAtMost V.Ground volume.old volume.new 1) }
    ensures leads { V.leads volume.old volume.new }
    ensures cause { HasCause (V.faults volume.old) (V.faults volume.new) result }
{
    let place = place_of(oid);
    let told = find(volume, alloc, oid)?;
    let found = stood(told, place)?;
    check(is_editable(&found, edit), place)?;
    if edit.count() == 0 {
        return Ok(stayed(found.size));
    }
    match found.root {
        None => edit_small(volume, alloc, oid, &found.head, found.size, edit),
        Some(root) => edit_large(volume, alloc, oid, &found.head, &root, edit),
    }
}
