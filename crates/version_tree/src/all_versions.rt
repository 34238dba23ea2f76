//! All versions of an object.
ghost use Rattle.std.specs.Prelude.{◌≡◌, ◌≤◌, ◌<◌, ◌++◌, ◌∷◌, [], ℕ, List, map, IfOk, IfErr, OnOk, IsPermutation, IsSortedByKey};
ghost use Rattle.std.specs.Ordering.{nat_cmp};
ghost use Rattle.ex_base.specs.Ports.{Keeps, HasCause, IsDamage};
ghost use Rattle.object_records.specs.Record.{Record, BodyOf};
ghost use Rattle.ex_base.specs.declared.names.Index.{Index};
ghost use Rattle.file_bodies.specs.Bodies.{bodies_of};
ghost use Rattle.file_bodies.specs.Files.{HasFile, HasBody};
ghost use Rattle.versions.specs.Listed.{AreReadable, rank_of, start_rank};
ghost use Rattle.versions.specs.Versions.{HasRecord, place_of};
ghost use Rattle.versions.specs.Damage.{IsListingFault, LacksRecord, IsStepFault, IsWalkedOut};
ghost use Rattle.version_tree.specs.Lineage.{IsListing, member_at, member_of, number_of};
ghost use Rattle.version_tree.specs.Linked.{AreLinked, head_in};
ghost use Rattle.version_tree.specs.Links.{IsLinkedFault, IsReadAnd, IsWalkFault, IsWalkedFrom};

use crate::descent::file_of;
use crate::lineage::{Member, list_members, member_at};
use crate::links::stored_version;
use ex_base::{Oid, Place, PortFault, ReadVolume};
use file_bodies::next_place;
use std::alloc::Global;
use versions::{check, first_rank, head_at, rank};

/// Puts a version behind others.
fn put_member(members: &mut Vec<Member>, member: Member) -> Result<(), PortFault>
    ensures put { OnOk result (members.new.items ≡ members.old.items ++ member ∷ []) }
    ensures no_damage { IfErr result (λ fault. IsDamage fault → ⊥) }
    ensures cause { (before now : ℕ) → HasCause before now result }
{
    match members.push(member) {
        Ok(()) => Ok(()),
        Err(_) => Err(PortFault::Memory),
    }
}

/// Puts the version at a place behind others. The place stands behind the one before it.
fn collect_at<V: ReadVolume>(
    volume: &mut V,
    alloc: Global,
    place: Place,
    after: Option<Place>,
    members: &mut Vec<Member>,
) -> Result<(), PortFault>
    requires { V.ready volume.old }
    ensures collected { OnOk result (V.tells volume.old → (index : Index) (body : List ℕ)
        → HasBody V.Ground volume.old index place body
        → members.new.items ≡ members.old.items ++ member_at place (head_in body) ∷ []) }
    ensures rises { OnOk result (start_rank after ≤ rank_of place) }
    ensures short { OnOk result (place.slot < 65536) }
    ensures sound { IfErr result (λ fault. IsDamage fault → V.tells volume.old
        → start_rank after ≤ rank_of place
        → (index : Index) (body : List ℕ) (is : Record)
        → HasBody V.Ground volume.old index place body → BodyOf body is → ⊥) }
    ensures fault { IfErr result (λ fault. V.tells volume.old
        → IsStepFault (V.geometry volume.old) (V.image volume.old)
        (LacksRecord (V.geometry volume.old) (V.image volume.old) after place) place fault) }
    ensures kept { Keeps V.Ground volume.old volume.new }
    ensures cause { HasCause (V.faults volume.old) (V.faults volume.new) result }
{
    check(first_rank(after) <= rank(place), place)?;
    let head = head_at(volume, alloc, place)?;
    put_member(members, member_at(place, &head))
}

/// The versions of a file, in order of place.
pub fn collect<V: ReadVolume>(
    volume: &mut V,
    alloc: Global,
    file_no: u32,
) -> Result<Vec<Member>, PortFault>
    requires { V.ready volume.old }
    ensures members { IfOk result (λ members. V.tells volume.old → (index : Index)
        → HasFile V.Ground volume.old index → index.file_no ≡ file_no
        → members.items ≡ map member_of (bodies_of (V.image volume.old) index)) }
    ensures sound { IfErr result (λ fault. IsDamage fault → V.tells volume.old → (index : Index)
        → HasFile V.Ground volume.old index → index.file_no ≡ file_no
        → AreReadable (bodies_of (V.image volume.old) index) → ⊥) }
    ensures fault { IfErr result (λ fault. V.tells volume.old
        → IsListingFault (V.geometry volume.old) (V.image volume.old) file_no fault) }
    ensures walk { OnOk result (V.tells volume.old
        → IsWalkedOut (V.geometry volume.old) (V.image volume.old) file_no) }
    ensures kept { Keeps V.Ground volume.old volume.new }
    ensures cause { HasCause (V.faults volume.old) (V.faults volume.new) result }
{
    let mut members = Vec::new(alloc);
    let mut after = None;
    'places: loop {
        let place = match next_place(volume, alloc, file_no, after) {
            Ok(Some(place)) => place,
            Ok(None) => return Ok(members),
            Err(fault) => return Err(fault),
        };
        match collect_at(volume, alloc, place, after, &mut members) {
            Ok(()) => {}
            Err(fault) => return Err(fault),
        }
        after = Some(place);
    }
}

/// The versions of the file that has a place, in order of unique number.
fn members_of<V: ReadVolume>(
    volume: &mut V,
    alloc: Global,
    place: Place,
) -> Result<Vec<Member>, PortFault>
    requires { V.ready volume.old }
    ensures members { IfOk result (λ members. V.tells volume.old → (index : Index) (body : List ℕ)
        → HasBody V.Ground volume.old index place body
        → IsPermutation (map member_of (bodies_of (V.image volume.old) index)) members.items) }
    ensures ordered { IfOk result (λ members. IsSortedByKey number_of nat_cmp members.items) }
    ensures sound { IfErr result (λ fault. IsDamage fault → V.tells volume.old
        → (index : Index) (body : List ℕ) → HasBody V.Ground volume.old index place body
        → AreReadable (bodies_of (V.image volume.old) index) → ⊥) }
    ensures fault { IfErr result (λ fault. V.tells volume.old
        → IsWalkFault (V.geometry volume.old) (V.image volume.old) place fault) }
    ensures walk { OnOk result (V.tells volume.old
        → IsWalkedFrom (V.geometry volume.old) (V.image volume.old) place) }
    ensures kept { Keeps V.Ground volume.old volume.new }
    ensures cause { HasCause (V.faults volume.old) (V.faults volume.new) result }
{
    let file_no = match file_of(volume, alloc, place) {
        Ok(file_no) => file_no,
        Err(fault) => return Err(fault),
    };
    match collect(volume, alloc, file_no) {
        Ok(mut members) => {
            members.sort_unstable_by_key(|member| member.oid.unique);
            Ok(members)
        }
        Err(fault) => Err(fault),
    }
}

/// All versions of the object of a version: the first one, and behind each what is derived from it, by rising unique number. The file is read once.
pub fn versions<V: ReadVolume>(
    volume: &mut V,
    alloc: Global,
    oid: &Oid,
) -> Result<Vec<Oid>, PortFault>
    requires { V.ready volume.old }
    ensures oids { IfOk result (λ oids. V.tells volume.old → (index : Index) (is : Record)
        → HasRecord V.Ground volume.old index oid.now is
        → IsListing (bodies_of (V.image volume.old) index)
        (record { oid = oid.now; older = is.head.older }) oids.items) }
    ensures reads { OnOk result (V.tells volume.old → IsReadAnd (V.image volume.old) oid.now
        (λ body. IsWalkedFrom (V.geometry volume.old) (V.image volume.old)
        (place_of oid.now))) }
    ensures sound { IfErr result (λ fault. IsDamage fault → V.tells volume.old
        → AreLinked V.Ground volume.old → (index : Index) (is : Record)
        → HasRecord V.Ground volume.old index oid.now is → ⊥) }
    ensures fault { IfErr result (λ fault. V.tells volume.old
        → IsLinkedFault V.Ground volume.old oid.now
        (λ body. IsWalkFault (V.geometry volume.old) (V.image volume.old)
        (place_of oid.now) fault) fault) }
    ensures kept { Keeps V.Ground volume.old volume.new }
    ensures cause { HasCause (V.faults volume.old) (V.faults volume.new) result }
{
    let version = stored_version(volume, alloc, oid)?;
    let members = members_of(volume, alloc, version.place)?;
    let member = Member {
        oid: *oid,
        older: version.head.older,
    };
    list_members(alloc, &members, member)
}
