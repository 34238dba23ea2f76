//! The records of versions and of those that their links name, as they are read.
ghost use Rattle.std.specs.Prelude.{◌≡◌, ◌↔◌, ◌<◌, ◌≤◌, ◌+◌, length, IsTrue, Some, ℕ, List, IfOk, IfErr, IfNone, IfSome, IsSomeAnd, OnOk};
ghost use Rattle.ex_base.specs.Ports.{Keeps, Cause, HasCause, IsDamage};
ghost use Rattle.ex_base.specs.declared.faults.PortFault.TheVariants.{Damaged};
ghost use Rattle.ex_base.specs.declared.names.Place.{Place};
ghost use Rattle.object_records.specs.Record.{Record, BodyOf};
ghost use Rattle.object_records.specs.declared.State.TheVariants.{Current, Frozen};
ghost use Rattle.ex_base.specs.declared.names.Index.{Index};
ghost use Rattle.file_bodies.specs.Bodies.{bodies_of};
ghost use Rattle.file_bodies.specs.Files.{HasBody};
ghost use Rattle.versions.specs.Versions.{HasRecord, place_of};
ghost use Rattle.versions.specs.Found.{HasLimits};
ghost use Rattle.versions.specs.Damage.{record_fault};
ghost use Rattle.version_tree.specs.Linked.{AreLinked, head_in};
ghost use Rattle.version_tree.specs.Links.{IsStored, StoredAt, NewerOn, OlderOn, ReadOn, IsReadOn, IsVersionOn, IsOlderFault, IsNewerFault, IsReadingFault, IsStoredFault, below_seen, above_seen, number_seen};

use ex_base::{Oid, PageNo, Place, PortFault, ReadVolume, Seen};
use file_bodies::body_at;
use object_records::{Head, State};
use std::alloc::Global;
use versions::{check, head_of, no_record, place_of, stood, told_of};

/// A record as it was read: where it stands, its head, and its body.
#[derive(Drop)]
pub(crate) struct Stored {
    pub(crate) place: Place,
    pub(crate) head: Head,
    pub(crate) body: Vec<u8>,
}

/// Copies the record in a body.
fn copy_body(alloc: Global, body: &[u8], place: Place) -> Result<Stored, PortFault>
    ensures stored { IfOk result (λ stored. IsStored stored place body.now) }
    ensures sound { IfErr result (λ fault. IsDamage fault → (is : Record) → BodyOf body.now is
        → ⊥) }
    ensures misspelled { IfErr result (λ fault. ((is : Record) → BodyOf body.now is → ⊥)
        → fault ≡ record_fault place) }
    ensures fault { IfErr result (λ fault. IsDamage fault → fault ≡ record_fault place) }
    ensures cause { (before now : ℕ) → HasCause before now result }
{
    let head = head_of(body, place)?;
    let body = body.to_vec(alloc)?;
    Ok(Stored { place, head, body })
}

/// Copies the record in the body at a place, where one stands there.
fn copy_on(alloc: Global, body: Option<&[u8]>, place: Place) -> Result<Stored, PortFault>
    ensures stored { IfOk result (λ stored. IfSome body.entry
        (λ body. IsStored stored place body.now)) }
    ensures read { IfOk result (λ stored. IsSomeAnd body.entry
        (λ body. IsStored stored place body.now)) }
    ensures sound { IfErr result (λ fault. IsDamage fault → IfSome body.entry (λ body. (is : Record)
        → BodyOf body.now is → ⊥)) }
    ensures none { IfErr result (λ fault. IfNone body.entry (fault ≡ record_fault place)) }
    ensures fault { IfErr result (λ fault. IsDamage fault → fault ≡ record_fault place) }
    ensures cause { (before now : ℕ) → HasCause before now result }
{
    match body {
        Some(body) => copy_body(alloc, body, place),
        None => Err(no_record(place)),
    }
}

/// Reads the record at a place.
pub(crate) fn stored_at<V: ReadVolume>(
    volume: &mut V,
    alloc: Global,
    place: Place,
) -> Result<Stored, PortFault>
    requires { V.ready volume.old }
    ensures stored { IfOk result (λ stored. V.tells volume.old → (index : Index) (body : List ℕ)
        → HasBody V.Ground volume.old index place body → IsStored stored place body) }
    ensures reads { IfOk result (λ stored. V.tells volume.old
        → IsReadOn (V.image volume.old) place stored) }
    ensures fits { OnOk result (V.tells volume.old → (index : Index) (body : List ℕ)
        → HasBody V.Ground volume.old index place body
        → length body + 20 ≤ (V.geometry volume.old).page_size) }
    ensures sound { IfErr result (λ fault. IsDamage fault → V.tells volume.old
        → (index : Index) (body : List ℕ) (is : Record)
        → HasBody V.Ground volume.old index place body → BodyOf body is → ⊥) }
    ensures fault { IfErr result (λ fault. V.tells volume.old
        → IsStoredFault V.Ground volume.old place fault) }
    ensures kept { Keeps V.Ground volume.old volume.new }
    ensures cause { HasCause (V.faults volume.old) (V.faults volume.new) result }
{
    match body_at(volume, alloc, place) {
        Ok(body) => copy_on(alloc, body, place),
        Err(fault) => Err(fault),
    }
}

/// Reads the record of the version that an OID names.
pub(crate) fn stored_version<V: ReadVolume>(
    volume: &mut V,
    alloc: Global,
    oid: &Oid,
) -> Result<Stored, PortFault>
    requires { V.ready volume.old }
    ensures stored { IfOk result (λ stored. V.tells volume.old → (index : Index) (is : Record)
        → (has : HasRecord V.Ground volume.old index oid.now is)
        → IsStored stored (place_of oid.now) has.body) }
    ensures reads { IfOk result (λ stored. V.tells volume.old
        → IsVersionOn (V.image volume.old) oid.now stored) }
    ensures fits { OnOk result (V.tells volume.old → (index : Index) (is : Record)
        → (has : HasRecord V.Ground volume.old index oid.now is)
        → length has.body + 20 ≤ (V.geometry volume.old).page_size) }
    ensures sound { IfErr result (λ fault. IsDamage fault → V.tells volume.old
        → (index : Index) (is : Record) → HasRecord V.Ground volume.old index oid.now is
        → HasLimits (V.geometry volume.old) is.content → ⊥) }
    ensures fault { IfErr result (λ fault. V.tells volume.old
        → IsReadingFault V.Ground volume.old oid.now fault) }
    ensures kept { Keeps V.Ground volume.old volume.new }
    ensures cause { HasCause (V.faults volume.old) (V.faults volume.new) result }
{
    let place = place_of(oid);
    let stored = stored_at(volume, alloc, place)?;
    let geometry = volume.geometry();
    let told = told_of(&stored.body, &geometry, oid)?;
    stood(told, place)?;
    Ok(stored)
}

/// The kind under which the unique number of a version is asked for: below that of a frozen one derived from it, or above that of the one it is derived
/// from.
const NUMBER_KIND: u8 = 5;

const BELOW: u8 = 1;

const ABOVE: u8 = 2;

/// The fault of a version whose unique number is out of order.
fn out_of_order(page: PageNo, level: u8, bound: u64, number: u64) -> PortFault
    ensures is { result ≡ Damaged page (record { kind = 5; level = level; total = bound })
        (number_seen number) }
    ensures damage { IsDamage result }
    ensures cause { 0 < level → (before now : ℕ) → Cause before now result }
{
    PortFault::Damaged {
        page,
        want: Seen {
            kind: NUMBER_KIND,
            level,
            total: bound,
        },
        got: Seen {
            kind: NUMBER_KIND,
            level: 0,
            total: number,
        },
    }
}

/// Nothing where the unique number of an older version is below that of the frozen version that names it, else the fault of its page.
fn check_below(older: &Head, head: &Head, page: PageNo) -> Result<(), PortFault>
    ensures below { OnOk result (head.now.state ≡ Frozen
        → older.now.unique < head.now.unique) }
    ensures never { IfErr result (λ fault. (head.now.state ≡ Frozen
        → older.now.unique < head.now.unique) → ⊥) }
    ensures frozen { IfErr result (λ fault. head.now.state ≡ Frozen) }
    ensures fault { IfErr result (λ fault. (head.now.unique ≤ older.now.unique) × (fault
        ≡ Damaged page (below_seen head.now.unique) (number_seen older.now.unique))) }
    ensures cause { (before now : ℕ) → HasCause before now result }
{
    if head.state == State::Current || older.unique < head.unique {
        return Ok(());
    }
    Err(out_of_order(page, BELOW, head.unique, older.unique))
}

/// Nothing where the unique number of a newer version, if it is a frozen one, is above that of the version that names it, else the fault of its page.
fn check_above(newer: &Head, head: &Head, page: PageNo) -> Result<(), PortFault>
    ensures above { OnOk result (newer.now.state ≡ Frozen
        → head.now.unique < newer.now.unique) }
    ensures never { IfErr result (λ fault. (newer.now.state ≡ Frozen
        → head.now.unique < newer.now.unique) → ⊥) }
    ensures frozen { IfErr result (λ fault. newer.now.state ≡ Frozen) }
    ensures fault { IfErr result (λ fault. (newer.now.unique ≤ head.now.unique) × (fault
        ≡ Damaged page (above_seen head.now.unique) (number_seen newer.now.unique))) }
    ensures cause { (before now : ℕ) → HasCause before now result }
{
    if newer.state == State::Current || head.unique < newer.unique {
        return Ok(());
    }
    Err(out_of_order(page, ABOVE, head.unique, newer.unique))
}

/// Whether a link names a place.
pub(crate) fn is_at(link: Option<Place>, place: Place) -> bool
    ensures { IsTrue result ↔ (link ≡ Some place) }
{
    match link {
        None => false,
        Some(at) => at.page.0 == place.page.0 && at.slot == place.slot,
    }
}

/// Whether a version is a frozen one.
pub(crate) fn is_frozen(head: &Head) -> bool
    ensures { IsTrue result ↔ (head.now.state ≡ Frozen) }
{
    head.state == State::Frozen
}

/// Whether a version is a current one.
pub(crate) fn is_current(head: &Head) -> bool
    ensures { IsTrue result ↔ (head.now.state ≡ Current) }
{
    head.state == State::Current
}

/// Reads the record at the older place of a version with a head. It is a frozen one, with a lower number where the version is frozen.
fn read_older<V: ReadVolume>(
    volume: &mut V,
    alloc: Global,
    head: &Head,
    place: Place,
) -> Result<Stored, PortFault>
    requires { V.ready volume.old }
    ensures stored { IfOk result (λ stored. V.tells volume.old → (index : Index) (body : List ℕ)
        → HasBody V.Ground volume.old index place body → IsStored stored place body) }
    ensures reads { IfOk result (λ stored. V.tells volume.old
        → IsReadOn (V.image volume.old) place stored) }
    ensures frozen { IfOk result (λ stored. stored.head.state ≡ Frozen) }
    ensures lower { IfOk result (λ stored. head.now.state ≡ Frozen
        → stored.head.unique < head.now.unique) }
    ensures sound { IfErr result (λ fault. IsDamage fault → V.tells volume.old
        → (index : Index) (body : List ℕ) (is : Record)
        → HasBody V.Ground volume.old index place body → BodyOf body is
        → (head_in body).state ≡ Frozen
        → (head.now.state ≡ Frozen → (head_in body).unique < head.now.unique) → ⊥) }
    ensures fault { IfErr result (λ fault. V.tells volume.old → head.now.older ≡ Some place
        → IsOlderFault V.Ground volume.old head.now fault) }
    ensures kept { Keeps V.Ground volume.old volume.new }
    ensures cause { HasCause (V.faults volume.old) (V.faults volume.new) result }
{
    let stored = stored_at(volume, alloc, place)?;
    check(is_frozen(&stored.head), place)?;
    check_below(&stored.head, head, place.page)?;
    Ok(stored)
}

/// Reads the record at the newer place of a version. It is derived from the version, and has a higher number where it is frozen.
fn read_newer<V: ReadVolume>(
    volume: &mut V,
    alloc: Global,
    stored: &Stored,
    place: Place,
) -> Result<Stored, PortFault>
    requires { V.ready volume.old }
    ensures stored { IfOk result (λ found. V.tells volume.old → (index : Index) (body : List ℕ)
        → HasBody V.Ground volume.old index place body → IsStored found place body) }
    ensures reads { IfOk result (λ found. V.tells volume.old
        → IsReadOn (V.image volume.old) place found) }
    ensures derived { IfOk result (λ found. found.head.older ≡ Some stored.now.place) }
    ensures higher { IfOk result (λ found. found.head.state ≡ Frozen
        → stored.now.head.unique < found.head.unique) }
    ensures sound { IfErr result (λ fault. IsDamage fault → V.tells volume.old
        → (index : Index) (body : List ℕ) (is : Record)
        → HasBody V.Ground volume.old index place body → BodyOf body is
        → (head_in body).older ≡ Some stored.now.place
        → ((head_in body).state ≡ Frozen
        → stored.now.head.unique < (head_in body).unique) → ⊥) }
    ensures fault { IfErr result (λ fault. V.tells volume.old
        → stored.now.head.newer ≡ Some place
        → IsNewerFault V.Ground volume.old stored.now.place stored.now.head fault) }
    ensures kept { Keeps V.Ground volume.old volume.new }
    ensures cause { HasCause (V.faults volume.old) (V.faults volume.new) result }
{
    let newer = stored_at(volume, alloc, place)?;
    check(is_at(newer.head.older, stored.place), place)?;
    check_above(&newer.head, &stored.head, place.page)?;
    Ok(newer)
}

/// Reads the record that a version names as its older one, where it names one.
pub(crate) fn linked_older<V: ReadVolume>(
    volume: &mut V,
    alloc: Global,
    stored: &Stored,
) -> Result<Option<Stored>, PortFault>
    requires { V.ready volume.old }
    ensures older { IfOk result (λ found. V.tells volume.old → AreLinked V.Ground volume.old
        → (index : Index) (place : Place) (body : List ℕ)
        → HasBody V.Ground volume.old index place body → IsStored stored.now place body
        → StoredAt (bodies_of (V.image volume.old) index) stored.now.head.older found) }
    ensures reads { IfOk result (λ found. V.tells volume.old
        → ReadOn (V.image volume.old) stored.now.head.older found) }
    ensures link { OnOk result (V.tells volume.old
        → OlderOn (V.image volume.old) stored.now.head) }
    ensures sound { IfErr result (λ fault. IsDamage fault → V.tells volume.old
        → AreLinked V.Ground volume.old → (index : Index) (place : Place) (body : List ℕ)
        → HasBody V.Ground volume.old index place body → IsStored stored.now place body → ⊥) }
    ensures fault { IfErr result (λ fault. V.tells volume.old
        → IsOlderFault V.Ground volume.old stored.now.head fault) }
    ensures kept { Keeps V.Ground volume.old volume.new }
    ensures cause { HasCause (V.faults volume.old) (V.faults volume.new) result }
{
    match stored.head.older {
        None => Ok(None),
        Some(at) => match read_older(volume, alloc, &stored.head, at) {
            Ok(older) => Ok(Some(older)),
            Err(fault) => Err(fault),
        },
    }
}

/// Reads the record that a version names as its newer one, where it names one.
pub(crate) fn linked_newer<V: ReadVolume>(
    volume: &mut V,
    alloc: Global,
    stored: &Stored,
) -> Result<Option<Stored>, PortFault>
    requires { V.ready volume.old }
    ensures newer { IfOk result (λ found. V.tells volume.old → AreLinked V.Ground volume.old
        → (index : Index) (place : Place) (body : List ℕ)
        → HasBody V.Ground volume.old index place body → IsStored stored.now place body
        → StoredAt (bodies_of (V.image volume.old) index) stored.now.head.newer found) }
    ensures reads { IfOk result (λ found. V.tells volume.old
        → ReadOn (V.image volume.old) stored.now.head.newer found) }
    ensures link { OnOk result (V.tells volume.old
        → NewerOn (V.image volume.old) stored.now.place stored.now.head) }
    ensures sound { IfErr result (λ fault. IsDamage fault → V.tells volume.old
        → AreLinked V.Ground volume.old → (index : Index) (place : Place) (body : List ℕ)
        → HasBody V.Ground volume.old index place body → IsStored stored.now place body → ⊥) }
    ensures fault { IfErr result (λ fault. V.tells volume.old
        → IsNewerFault V.Ground volume.old stored.now.place stored.now.head fault) }
    ensures kept { Keeps V.Ground volume.old volume.new }
    ensures cause { HasCause (V.faults volume.old) (V.faults volume.new) result }
{
    match stored.head.newer {
        None => Ok(None),
        Some(at) => match read_newer(volume, alloc, stored, at) {
            Ok(newer) => Ok(Some(newer)),
            Err(fault) => Err(fault),
        },
    }
}
