//! A version that is frozen: a frozen copy comes between it and its older one.
ghost use Rattle.std.specs.Prelude.{◌≡◌, ◌≤◌, ◌+◌, ◌⊎◌, IfOk, IfErr, IfSome, IsSomeAnd, OnErr, OnOk, List, Option, Some, length};
ghost use Rattle.ex_base.specs.Ports.{HasCause, IsDamage};
ghost use Rattle.ex_base.specs.declared.names.Area.TheVariants.{Page, Segment};
ghost use Rattle.ex_base.specs.declared.names.Place.{Place};
ghost use Rattle.object_records.specs.Record.{Record};
ghost use Rattle.object_records.specs.declared.State.TheVariants.{Current, Frozen};
ghost use Rattle.ex_base.specs.declared.names.Index.{Index};
ghost use Rattle.file_index.specs.Touches.{TouchesAtMost};
ghost use Rattle.file_index.specs.Taking.{OnlyTakes};
ghost use Rattle.file_bodies.specs.Bodies.{Row, bodies_of};
ghost use Rattle.file_bodies.specs.Touches.{body_pages};
ghost use Rattle.file_bodies.specs.Files.{HasFile};
ghost use Rattle.file_bodies.specs.Places.{IsChosen, IsRoom};
ghost use Rattle.versions.specs.Versions.{HasRecord, place_of, root_of};
ghost use Rattle.versions.specs.Listed.{oid_at};
ghost use Rattle.version_tree.specs.Touches.{version_touches};
ghost use Rattle.version_tree.specs.Bodies.{SameUnits};
ghost use Rattle.version_tree.specs.Copies.{Freezes, IsCopyFault, IsFreezingFault, IsFrozenIn, IsNamed, IsRead, IsVersionIn, TurnsOlder, TurnsStored};
ghost use Rattle.version_tree.specs.Linked.{AreLinked, head_in};
ghost use Rattle.version_tree.specs.Links.{IsLinkedFault, IsReadAnd, IsRecordFault, OlderOn, StandsIn, StoredAt};
ghost use Rattle.version_tree.specs.declared.links.Stored.{Stored};

use crate::copied::Copied;
use crate::heads::{put_copy, put_head};
use crate::links::{Stored, is_at, is_current, linked_older, stored_version};
use ex_base::{Oid, Place, PortFault, Volume};
use file_bodies::Room;
use object_records::{Head, State};
use std::alloc::Global;
use versions::{check, oid_at, root_in};

/// Turns the newer place of a frozen record that was read, where it is one place, to another.
pub(crate) fn turn_stored<V: Volume>(
    volume: &mut V,
    alloc: Global,
    stored: &Stored,
    from: Place,
    to: Place,
) -> Result<(), PortFault>
    requires { V.ready volume.old }
    ensures turned { OnOk result (V.tells volume.old → (index : Index)
        → StandsIn V.Ground volume.old index stored.now
        → TurnsStored V.Ground volume.old volume.new index stored.now from to) }
    ensures free { OnOk result (V.free volume.new ≡ V.free volume.old) }
    ensures units { OnOk result (SameUnits V.Ground volume.old volume.new) }
    ensures sound { IfErr result (λ fault. IsDamage fault → V.tells volume.old → (index : Index)
        → IsFrozenIn V.Ground volume.old index stored.now → IsNamed (Some to) → ⊥) }
    ensures fault { IfErr result (λ fault. V.tells volume.old
        → IsRecordFault stored.now.place fault) }
    ensures touches { OnOk result (TouchesAtMost V.Ground volume.old volume.new 1) }
    ensures leads { V.leads volume.old volume.new }
    ensures cause { HasCause (V.faults volume.old) (V.faults volume.new) result }
{
    if !is_at(stored.head.newer, from) {
        return Ok(());
    }
    let turned = Head {
        newer: Some(to),
        ..stored.head
    };
    put_head(volume, alloc, stored, &turned)
}

/// Turns the newer place of the record that a link names, where one was read.
pub(crate) fn turn_older<V: Volume>(
    volume: &mut V,
    alloc: Global,
    older: &Option<Stored>,
    from: Place,
    to: Place,
) -> Result<(), PortFault>
    requires { V.ready volume.old }
    ensures turned { OnOk result (V.tells volume.old → (index : Index) (rows : List Row)
        → (link : Option Place) → HasFile V.Ground volume.old index
        → StoredAt rows link older.now → IfSome older.now (StandsIn V.Ground volume.old index)
        → TurnsOlder V.Ground volume.old volume.new index rows link from to) }
    ensures free { OnOk result (V.free volume.new ≡ V.free volume.old) }
    ensures units { OnOk result (SameUnits V.Ground volume.old volume.new) }
    ensures sound { IfErr result (λ fault. IsDamage fault → V.tells volume.old → (index : Index)
        → IfSome older.now (IsFrozenIn V.Ground volume.old index) → IsNamed (Some to) → ⊥) }
    ensures fault { IfErr result (λ fault. V.tells volume.old → IsSomeAnd older.now
        (λ (stored : Stored). IsRecordFault stored.place fault)) }
    ensures touches { OnOk result (TouchesAtMost V.Ground volume.old volume.new 1) }
    ensures leads { V.leads volume.old volume.new }
    ensures cause { HasCause (V.faults volume.old) (V.faults volume.new) result }
{
    match older {
        None => Ok(()),
        Some(stored) => turn_stored(volume, alloc, stored, from, to),
    }
}

/// Puts the frozen copy of a current version that was read, and turns the links to it.
fn freeze_read<V: Volume>(
    volume: &mut V,
    alloc: Global,
    room: &mut Room,
    was: &Stored,
    older: &Option<Stored>,
    unique: u64,
) -> Result<Place, PortFault>
    requires ready { V.ready volume.old }
    requires free { body_pages ≤ V.free volume.old Page }
    ensures frozen { IfOk result (λ place. V.tells volume.old → (index : Index) (is : Record)
        → IsRead V.Ground volume.old index was.now older.now is → is.head.state ≡ Current
        → index.file_no ≡ room.old.file_no
        → Freezes V.Ground volume.old volume.new index was.now.place is (oid_at place unique)) }
    ensures chosen { IfOk result (λ place. V.tells volume.old → (index : Index)
        → HasFile V.Ground volume.old index → index.file_no ≡ room.old.file_no
        → IsRoom V.Ground volume.old index room.old
        → IsChosen V.Ground volume.old index (length was.now.body.items) place) }
    ensures room { IfOk result (λ place. room.new ≡ record {
      file_no = room.old.file_no;
      from = place.page;
      len = length was.now.body.items;
    }) }
    ensures pages { OnOk result (V.free volume.old Page ≤ V.free volume.new Page + body_pages) }
    ensures takes { OnOk result (OnlyTakes V.Ground volume.old volume.new) }
    ensures sound { IfErr result (λ fault. IsDamage fault → V.tells volume.old
        → (index : Index) (is : Record)
        → IsRead V.Ground volume.old index was.now older.now is → is.head.state ≡ Current
        → index.file_no ≡ room.old.file_no → ⊥) }
    ensures fault { IfErr result (λ fault. V.tells volume.old
        → (IsCopyFault (V.geometry volume.old) (V.held volume.old) (V.image volume.old)
        room.old was.now.place was.now.body.items fault
        × (IsDamage fault → (index : Index) (is : Record)
        → IsVersionIn V.Ground volume.old index was.now is → index.file_no ≡ room.old.file_no
        → ⊥))
        ⊎ IsSomeAnd older.now (λ (stored : Stored). IsRecordFault stored.place fault)) }
    ensures leaves { OnOk result (V.free volume.new Segment ≡ V.free volume.old Segment) }
    ensures touches { OnOk result (TouchesAtMost V.Ground volume.old volume.new version_touches) }
    ensures leads { V.leads volume.old volume.new }
    ensures cause { HasCause (V.faults volume.old) (V.faults volume.new) result }
{
    let copy = Head {
        state: State::Frozen,
        unique,
        older: was.head.older,
        newer: Some(was.place),
    };
    let place = put_copy(volume, alloc, room, was, &copy)?;
    let moved = Head {
        older: Some(place),
        ..was.head
    };
    put_head(volume, alloc, was, &moved)?;
    turn_older(volume, alloc, older, was.place, place)?;
    Ok(place)
}

/// Freezes a current version, whose file is that of `room`: a frozen copy of its record, under a number that no version has had, comes between the version
/// and its older one. It takes at most 7 pages and no other unit; the version keeps its place, and its tree, if it has one, is that of both.
pub fn freeze<V: Volume>(
    volume: &mut V,
    alloc: Global,
    oid: &Oid,
    room: &mut Room,
    unique: u64,
) -> Result<Copied, PortFault>
    requires ready { V.ready volume.old }
    requires free { body_pages ≤ V.free volume.old Page }
    ensures frozen { IfOk result (λ made. V.tells volume.old → AreLinked V.Ground volume.old
        → (index : Index) (is : Record) → HasRecord V.Ground volume.old index oid.now is
        → index.file_no ≡ room.old.file_no
        → Freezes V.Ground volume.old volume.new index (place_of oid.now) is made.oid) }
    ensures asked { OnOk result (V.tells volume.old → (index : Index) (is : Record)
        → HasRecord V.Ground volume.old index oid.now is → is.head.state ≡ Current) }
    ensures reads { OnOk result (V.tells volume.old → IsReadAnd (V.image volume.old) oid.now
        (λ body. ((head_in body).state ≡ Current)
        × OlderOn (V.image volume.old) (head_in body))) }
    ensures number { IfOk result (λ made. made.oid.unique ≡ unique) }
    ensures come { IfOk result (λ made. V.tells volume.old → (index : Index) (is : Record)
        → HasRecord V.Ground volume.old index oid.now is → made.come ≡ root_of is.content) }
    ensures chosen { IfOk result (λ made. V.tells volume.old → (index : Index) (is : Record)
        → (has : HasRecord V.Ground volume.old index oid.now is)
        → index.file_no ≡ room.old.file_no → IsRoom V.Ground volume.old index room.old
        → IsChosen V.Ground volume.old index (length has.body) (place_of made.oid)) }
    ensures room { IfOk result (λ made. (room.new.file_no ≡ room.old.file_no)
        × (room.new.from ≡ made.oid.page)) }
    ensures len { OnOk result (V.tells volume.old → (index : Index) (is : Record)
        → (has : HasRecord V.Ground volume.old index oid.now is)
        → room.new.len ≡ length has.body) }
    ensures unplaced { OnErr result (room.new ≡ room.old) }
    ensures pages { OnOk result (V.free volume.old Page ≤ V.free volume.new Page + body_pages) }
    ensures takes { OnOk result (OnlyTakes V.Ground volume.old volume.new) }
    ensures sound { IfErr result (λ fault. IsDamage fault → V.tells volume.old
        → AreLinked V.Ground volume.old → (index : Index) (is : Record)
        → HasRecord V.Ground volume.old index oid.now is → is.head.state ≡ Current
        → index.file_no ≡ room.old.file_no → ⊥) }
    ensures fault { IfErr result (λ fault. V.tells volume.old
        → IsLinkedFault V.Ground volume.old oid.now
        (λ body. IsFreezingFault V.Ground volume.old room.old (place_of oid.now) body fault)
        fault) }
    ensures leaves { OnOk result (V.free volume.new Segment ≡ V.free volume.old Segment) }
    ensures touches { OnOk result (TouchesAtMost V.Ground volume.old volume.new version_touches) }
    ensures leads { V.leads volume.old volume.new }
    ensures cause { HasCause (V.faults volume.old) (V.faults volume.new) result }
{
    let version = stored_version(volume, alloc, oid)?;
    check(is_current(&version.head), version.place)?;
    let older = linked_older(volume, alloc, &version)?;
    let remembered = *room;
    match freeze_read(volume, alloc, room, &version, &older, unique) {
        Ok(place) => Ok(Copied {
            oid: oid_at(place, unique),
            come: root_in(&version.body),
        }),
        Err(fault) => {
            *room = remembered;
            Err(fault)
        }
    }
}
