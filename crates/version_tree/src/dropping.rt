//! A frozen version that is taken out of the tree of its object.
ghost use Rattle.std.specs.Prelude.{◌≡◌, ◌≤◌, ◌⊎◌, IfErr, IfOk, OnOk, IsSome, IsSomeAnd, Option};
ghost use Rattle.ex_base.specs.Ports.{HasCause, IsDamage};
ghost use Rattle.ex_base.specs.declared.names.Area.TheVariants.{Page, Segment};
ghost use Rattle.object_records.specs.Record.{Record, BodyOf};
ghost use Rattle.object_records.specs.declared.State.TheVariants.{Frozen};
ghost use Rattle.ex_base.specs.declared.names.Index.{Index};
ghost use Rattle.file_index.specs.Touches.{TouchesAtMost};
ghost use Rattle.file_index.specs.Taking.{OnlyGives};
ghost use Rattle.file_bodies.specs.Damage.{IsTakingFault};
ghost use Rattle.versions.specs.Versions.{HasRecord, place_of, root_of};
ghost use Rattle.version_tree.specs.Linked.{AreLinked, head_in};
ghost use Rattle.version_tree.specs.Links.{IsLinkedFault, IsReadAnd, IsRecordFault, NewerOn, OlderOn};
ghost use Rattle.version_tree.specs.Removals.{Drops, IsBetween, IsDroppingFault};
ghost use Rattle.version_tree.specs.declared.links.Stored.{Stored};
ghost use Rattle.version_tree.specs.Touches.{version_touches};

use crate::freezing::turn_older;
use crate::heads::put_head;
use crate::links::{Stored, is_frozen, linked_newer, linked_older, stored_version};
use ex_base::{Oid, PortFault, Root, Volume};
use file_bodies::remove_from_file;
use object_records::Head;
use std::alloc::Global;
use versions::{check, no_record, root_in};

/// Takes a version out that was read, and turns the links of the two beside it to each other.
fn drop_read<V: Volume>(
    volume: &mut V,
    alloc: Global,
    was: &Stored,
    newer: &Stored,
    older: &Option<Stored>,
) -> Result<Option<Root>, PortFault>
    requires { V.ready volume.old }
    ensures dropped { OnOk result (V.tells volume.old → (index : Index) (is : Record)
        → IsBetween V.Ground volume.old index was.now newer.now older.now is
        → Drops V.Ground volume.old volume.new index was.now.place is) }
    ensures gone { IfOk result (λ gone. (is : Record) → BodyOf was.now.body.items is
        → gone ≡ root_of is.content) }
    ensures pages { OnOk result (V.free volume.old Page ≤ V.free volume.new Page) }
    ensures gives { OnOk result (OnlyGives V.Ground volume.old volume.new) }
    ensures sound { IfErr result (λ fault. IsDamage fault → V.tells volume.old
        → (index : Index) (is : Record)
        → IsBetween V.Ground volume.old index was.now newer.now older.now is → ⊥) }
    ensures fault { IfErr result (λ fault. V.tells volume.old
        → IsTakingFault (V.geometry volume.old) (V.held volume.old) (V.image volume.old)
        (V.held volume.new) (V.image volume.new) was.now.place fault
        ⊎ IsRecordFault newer.now.place fault
        ⊎ IsSomeAnd older.now (λ (stored : Stored). IsRecordFault stored.place fault)) }
    ensures leaves { OnOk result (V.free volume.new Segment ≡ V.free volume.old Segment) }
    ensures touches { OnOk result (TouchesAtMost V.Ground volume.old volume.new version_touches) }
    ensures leads { V.leads volume.old volume.new }
    ensures cause { HasCause (V.faults volume.old) (V.faults volume.new) result }
{
    remove_from_file(volume, alloc, was.place)?;
    let moved = Head {
        older: was.head.older,
        ..newer.head
    };
    put_head(volume, alloc, newer, &moved)?;
    match turn_older(volume, alloc, older, was.place, newer.place) {
        Ok(()) => Ok(root_in(&was.body)),
        Err(fault) => Err(fault),
    }
}

/// Takes a frozen version out from which just one is derived: that one is derived from the version's older one instead. It answers the
/// version's root, if it was large. No unit is taken; those of its tree stay used.
pub fn drop_version<V: Volume>(
    volume: &mut V,
    alloc: Global,
    oid: &Oid,
) -> Result<Option<Root>, PortFault>
    requires { V.ready volume.old }
    ensures dropped { OnOk result (V.tells volume.old → AreLinked V.Ground volume.old
        → (index : Index) (is : Record) → HasRecord V.Ground volume.old index oid.now is
        → Drops V.Ground volume.old volume.new index (place_of oid.now) is) }
    ensures asked { OnOk result (V.tells volume.old → (index : Index) (is : Record)
        → HasRecord V.Ground volume.old index oid.now is → is.head.state ≡ Frozen) }
    ensures reads { OnOk result (V.tells volume.old → IsReadAnd (V.image volume.old) oid.now
        (λ body. ((head_in body).state ≡ Frozen)
        × OlderOn (V.image volume.old) (head_in body) × IsSome (head_in body).newer
        × NewerOn (V.image volume.old) (place_of oid.now) (head_in body))) }
    ensures gone { IfOk result (λ gone. V.tells volume.old → (index : Index) (is : Record)
        → HasRecord V.Ground volume.old index oid.now is → gone ≡ root_of is.content) }
    ensures pages { OnOk result (V.free volume.old Page ≤ V.free volume.new Page) }
    ensures gives { OnOk result (OnlyGives V.Ground volume.old volume.new) }
    ensures sound { IfErr result (λ fault. IsDamage fault → V.tells volume.old
        → AreLinked V.Ground volume.old → (index : Index) (is : Record)
        → HasRecord V.Ground volume.old index oid.now is → is.head.state ≡ Frozen
        → IsSome is.head.newer → ⊥) }
    ensures fault { IfErr result (λ fault. V.tells volume.old
        → IsLinkedFault V.Ground volume.old oid.now
        (λ body. IsDroppingFault V.Ground volume.old volume.new (place_of oid.now) body fault)
        fault) }
    ensures leaves { OnOk result (V.free volume.new Segment ≡ V.free volume.old Segment) }
    ensures touches { OnOk result (TouchesAtMost V.Ground volume.old volume.new version_touches) }
    ensures leads { V.leads volume.old volume.new }
    ensures cause { HasCause (V.faults volume.old) (V.faults volume.new) result }
{
    let version = stored_version(volume, alloc, oid)?;
    check(is_frozen(&version.head), version.place)?;
    let older = linked_older(volume, alloc, &version)?;
    let found = linked_newer(volume, alloc, &version)?;
    match found {
        Some(newer) => drop_read(volume, alloc, &version, &newer, &older),
        None => Err(no_record(version.place)),
    }
}
