//! A version that is derived from a frozen one.
ghost use Rattle.std.specs.Prelude.{◌≡◌, ◌≤◌, ◌+◌, IfOk, IfErr, OnErr, OnOk, None, length};
ghost use Rattle.ex_base.specs.Ports.{HasCause, IsDamage};
ghost use Rattle.ex_base.specs.declared.names.Area.TheVariants.{Page, Segment};
ghost use Rattle.object_records.specs.Record.{Record};
ghost use Rattle.object_records.specs.declared.State.TheVariants.{Frozen};
ghost use Rattle.ex_base.specs.declared.names.Index.{Index};
ghost use Rattle.file_index.specs.Touches.{TouchesAtMost};
ghost use Rattle.file_index.specs.Taking.{OnlyTakes};
ghost use Rattle.file_bodies.specs.Touches.{body_pages};
ghost use Rattle.file_bodies.specs.Files.{HasFile};
ghost use Rattle.file_bodies.specs.Places.{IsChosen, IsRoom};
ghost use Rattle.versions.specs.Versions.{HasRecord, place_of, root_of};
ghost use Rattle.versions.specs.Found.{HasLimits};
ghost use Rattle.versions.specs.Listed.{oid_at};
ghost use Rattle.version_tree.specs.Touches.{version_touches};
ghost use Rattle.version_tree.specs.Bodies.{SameUnits, newer_head};
ghost use Rattle.version_tree.specs.Copies.{Derives, IsCopyFault, IsDerivingFault, IsVersionIn, UnlinksIn};
ghost use Rattle.version_tree.specs.Links.{IsLinkedFault, IsReadAnd, IsRecordFault};
ghost use Rattle.version_tree.specs.Linked.{head_in};

use crate::copied::Copied;
use crate::heads::{put_copy, put_head};
use crate::links::{Stored, is_frozen, stored_version};
use ex_base::{Oid, Place, PortFault, Volume};
use file_bodies::Room;
use object_records::{Head, State};
use std::alloc::Global;
use versions::{check, oid_at, root_in};

/// A head without a newer place.
fn newer_less(head: &Head) -> Head
    ensures { result ≡ newer_head None head.now }
{
    let mut head = *head;
    head.newer = None;
    head
}

/// Takes the newer place out of a version's record, where it has one.
fn unlink<V: Volume>(volume: &mut V, alloc: Global, was: &Stored) -> Result<(), PortFault>
    requires { V.ready volume.old }
    ensures unlinked { OnOk result (V.tells volume.old → (index : Index) (is : Record)
        → IsVersionIn V.Ground volume.old index was.now is
        → UnlinksIn V.Ground volume.old volume.new index was.now.place is) }
    ensures free { OnOk result (V.free volume.new ≡ V.free volume.old) }
    ensures units { OnOk result (SameUnits V.Ground volume.old volume.new) }
    ensures sound { IfErr result (λ fault. IsDamage fault → V.tells volume.old
        → (index : Index) (is : Record) → IsVersionIn V.Ground volume.old index was.now is → ⊥) }
    ensures fault { IfErr result (λ fault. V.tells volume.old
        → IsRecordFault was.now.place fault) }
    ensures touches { OnOk result (TouchesAtMost V.Ground volume.old volume.new 1) }
    ensures leads { V.leads volume.old volume.new }
    ensures cause { HasCause (V.faults volume.old) (V.faults volume.new) result }
{
    match was.head.newer {
        None => Ok(()),
        Some(_) => put_head(volume, alloc, was, &newer_less(&was.head)),
    }
}

/// Puts a current copy of a version that was read, and takes the newer place out of the version's record.
fn derive_read<V: Volume>(
    volume: &mut V,
    alloc: Global,
    room: &mut Room,
    was: &Stored,
    unique: u64,
) -> Result<Place, PortFault>
    requires ready { V.ready volume.old }
    requires free { body_pages ≤ V.free volume.old Page }
    ensures derived { IfOk result (λ place. V.tells volume.old → (index : Index) (is : Record)
        → IsVersionIn V.Ground volume.old index was.now is → index.file_no ≡ room.old.file_no
        → Derives V.Ground volume.old volume.new index was.now.place is (oid_at place unique)) }
    ensures chosen { IfOk result (λ place. V.tells volume.old → (index : Index)
        → HasFile V.Ground volume.old index → index.file_no ≡ room.old.file_no
        → IsRoom V.Ground volume.old index room.old
        → IsChosen V.Ground volume.old index (length was.now.body.items) place) }
    ensures room { IfOk result (λ place. room.new ≡ record {
      file_no = room.old.file_no;
      from = place.page;
      len = length was.now.body.items;
    }) }
    ensures pages { OnOk result (V.free volume.old Page ≤ V.free volume.new Page + body_pages) }
    ensures takes { OnOk result (OnlyTakes V.Ground volume.old volume.new) }
    ensures sound { IfErr result (λ fault. IsDamage fault → V.tells volume.old
        → (index : Index) (is : Record) → IsVersionIn V.Ground volume.old index was.now is
        → index.file_no ≡ room.old.file_no → ⊥) }
    ensures fault { IfErr result (λ fault. V.tells volume.old
        → IsCopyFault (V.geometry volume.old) (V.held volume.old) (V.image volume.old)
        room.old was.now.place was.now.body.items fault) }
    ensures leaves { OnOk result (V.free volume.new Segment ≡ V.free volume.old Segment) }
    ensures touches { OnOk result (TouchesAtMost V.Ground volume.old volume.new version_touches) }
    ensures leads { V.leads volume.old volume.new }
    ensures cause { HasCause (V.faults volume.old) (V.faults volume.new) result }
{
    let copy = Head {
        state: State::Current,
        unique,
        older: Some(was.place),
        newer: None,
    };
    let place = put_copy(volume, alloc, room, was, &copy)?;
    unlink(volume, alloc, was)?;
    Ok(place)
}

/// Derives a current version from a frozen one, whose file is that of `room`: a copy of its record under a number that no version has had, open to edits.
/// It takes at most 7 pages and no other unit; the tree, if there is one, is that of both.
pub fn derive<V: Volume>(
    volume: &mut V,
    alloc: Global,
    oid: &Oid,
    room: &mut Room,
    unique: u64,
) -> Result<Copied, PortFault>
    requires ready { V.ready volume.old }
    requires free { body_pages ≤ V.free volume.old Page }
    ensures derived { IfOk result (λ made. V.tells volume.old → (index : Index) (is : Record)
        → HasRecord V.Ground volume.old index oid.now is
        → index.file_no ≡ room.old.file_no
        → Derives V.Ground volume.old volume.new index (place_of oid.now) is made.oid) }
    ensures asked { OnOk result (V.tells volume.old → (index : Index) (is : Record)
        → HasRecord V.Ground volume.old index oid.now is → is.head.state ≡ Frozen) }
    ensures reads { OnOk result (V.tells volume.old → IsReadAnd (V.image volume.old) oid.now
        (λ body. (head_in body).state ≡ Frozen)) }
    ensures number { IfOk result (λ made. made.oid.unique ≡ unique) }
    ensures come { IfOk result (λ made. V.tells volume.old → (index : Index) (is : Record)
        → HasRecord V.Ground volume.old index oid.now is → made.come ≡ root_of is.content) }
    ensures chosen { IfOk result (λ made. V.tells volume.old → (index : Index) (is : Record)
        → (has : HasRecord V.Ground volume.old index oid.now is)
        → index.file_no ≡ room.old.file_no → IsRoom V.Ground volume.old index room.old
        → IsChosen V.Ground volume.old index (length has.body) (place_of made.oid)) }
    ensures room { IfOk result (λ made. (room.new.file_no ≡ room.old.file_no)
        × (room.new.from ≡ made.oid.page)) }
    ensures len { OnOk result (V.tells volume.old → (index : Index) (is : Record)
        → (has : HasRecord V.Ground volume.old index oid.now is)
        → room.new.len ≡ length has.body) }
    ensures unplaced { OnErr result (room.new ≡ room.old) }
    ensures pages { OnOk result (V.free volume.old Page ≤ V.free volume.new Page + body_pages) }
    ensures takes { OnOk result (OnlyTakes V.Ground volume.old volume.new) }
    ensures sound { IfErr result (λ fault. IsDamage fault → V.tells volume.old
        → (index : Index) (is : Record) → HasRecord V.Ground volume.old index oid.now is
        → HasLimits (V.geometry volume.old) is.content → is.head.state ≡ Frozen
        → index.file_no ≡ room.old.file_no → ⊥) }
    ensures fault { IfErr result (λ fault. V.tells volume.old
        → IsLinkedFault V.Ground volume.old oid.now
        (λ body. IsDerivingFault V.Ground volume.old room.old (place_of oid.now) body fault)
        fault) }
    ensures leaves { OnOk result (V.free volume.new Segment ≡ V.free volume.old Segment) }
    ensures touches { OnOk result (TouchesAtMost V.Ground volume.old volume.new version_touches) }
    ensures leads { V.leads volume.old volume.new }
    ensures cause { HasCause (V.faults volume.old) (V.faults volume.new) result }
{
    let version = stored_version(volume, alloc, oid)?;
    check(is_frozen(&version.head), version.place)?;
    let remembered = *room;
    match derive_read(volume, alloc, room, &version, unique) {
        Ok(place) => Ok(Copied {
            oid: oid_at(place, unique),
            come: root_in(&version.body),
        }),
        Err(fault) => {
            *room = remembered;
            Err(fault)
        }
    }
}
