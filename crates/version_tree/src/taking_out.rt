//! A current version that is taken out of the tree of its object.
ghost use Rattle.std.specs.Prelude.{◌≡◌, ◌≤◌, ◌↔◌, ◌⊎◌, List, Option, None, IfErr, IfOk, IfSome, IsSomeAnd, IsTrue, OnOk, ℕ};
ghost use Rattle.ex_base.specs.Ports.{Keeps, HasCause, IsDamage};
ghost use Rattle.ex_base.specs.declared.names.Area.TheVariants.{Page, Segment};
ghost use Rattle.ex_base.specs.declared.names.Place.{Place};
ghost use Rattle.object_records.specs.Record.{Record, BodyOf};
ghost use Rattle.object_records.specs.declared.State.TheVariants.{Current};
ghost use Rattle.ex_base.specs.declared.names.Index.{Index};
ghost use Rattle.file_index.specs.Touches.{TouchesAtMost};
ghost use Rattle.file_index.specs.Taking.{OnlyGives};
ghost use Rattle.file_bodies.specs.Bodies.{Row, bodies_of};
ghost use Rattle.file_bodies.specs.Damage.{IsTakingFault};
ghost use Rattle.file_bodies.specs.Files.{HasFile, HasBody};
ghost use Rattle.std.specs.Prelude.{filter};
ghost use Rattle.versions.specs.Listed.{AreReadable};
ghost use Rattle.versions.specs.Versions.{HasRecord, place_of, root_of};
ghost use Rattle.version_tree.specs.Touches.{version_touches};
ghost use Rattle.version_tree.specs.Bodies.{SameUnits};
ghost use Rattle.version_tree.specs.Copies.{IsFrozenIn, IsNamed};
ghost use Rattle.version_tree.specs.Linked.{AreLinked, derived_from, head_in};
ghost use Rattle.version_tree.specs.Links.{IsLinkedFault, IsReadAnd, IsRecordFault, IsWalkFault, IsWalkedFrom, OlderOn, StandsIn, StoredAt};
ghost use Rattle.version_tree.specs.Removals.{IsBranch, IsLeaving, IsTakingOutFault, NamesOther, NamesStored, TakesOut, leads_elsewhere, only_lead, only_other, other_from};
ghost use Rattle.version_tree.specs.declared.links.Stored.{Stored};

use crate::descent::list_from;
use crate::heads::put_head;
use crate::links::{Stored, is_current, linked_older, stored_version};
use ex_base::{Oid, Place, PortFault, ReadVolume, Root, Volume};
use file_bodies::remove_from_file;
use object_records::Head;
use std::alloc::Global;
use versions::{check, place_of, root_in};

/// Whether an OID leads to another place than one that is left.
fn leads_elsewhere(oid: &Oid, gone: Place) -> bool
    ensures { result ≡ leads_elsewhere gone oid.now }
{
    oid.page.0 != gone.page.0 || oid.slot != gone.slot
}

/// Where the only one of these OIDs leads that doesn't lead to a place that is left.
fn only_lead(oids: Vec<Oid>, gone: Place) -> Option<Place>
    ensures { result ≡ only_lead (filter (leads_elsewhere gone) oids.items) }
{
    let mut others = oids;
    others.retain(|oid| leads_elsewhere(oid, gone));
    if others.len() != 1 {
        return None;
    }
    Some(place_of(&others[0]))
}

/// The place of the only version but the one at a place that is derived from another, where there is just one.
fn only_other<V: ReadVolume>(
    volume: &mut V,
    alloc: Global,
    from: Place,
    gone: Place,
) -> Result<Option<Place>, PortFault>
    requires { V.ready volume.old }
    ensures other { IfOk result (λ other. V.tells volume.old → (index : Index) (body : List ℕ)
        → HasBody V.Ground volume.old index from body
        → other ≡ only_other gone (derived_from from (bodies_of (V.image volume.old) index))) }
    ensures sound { IfErr result (λ fault. IsDamage fault → V.tells volume.old
        → (index : Index) (body : List ℕ) → HasBody V.Ground volume.old index from body
        → AreReadable (bodies_of (V.image volume.old) index) → ⊥) }
    ensures fault { IfErr result (λ fault. V.tells volume.old
        → IsWalkFault (V.geometry volume.old) (V.image volume.old) from fault) }
    ensures walk { OnOk result (V.tells volume.old
        → IsWalkedFrom (V.geometry volume.old) (V.image volume.old) from) }
    ensures kept { Keeps V.Ground volume.old volume.new }
    ensures cause { HasCause (V.faults volume.old) (V.faults volume.new) result }
{
    match list_from(volume, alloc, from) {
        Ok(oids) => Ok(only_lead(oids, gone)),
        Err(fault) => Err(fault),
    }
}

/// The place of the only other version that is derived from the one that a version is derived from, where there is just one.
fn other_from<V: ReadVolume>(
    volume: &mut V,
    alloc: Global,
    older: &Option<Stored>,
    gone: Place,
) -> Result<Option<Place>, PortFault>
    requires { V.ready volume.old }
    ensures other { IfOk result (λ other. V.tells volume.old → (index : Index)
        → IfSome older.now (StandsIn V.Ground volume.old index)
        → other ≡ other_from (bodies_of (V.image volume.old) index) gone older.now) }
    ensures sound { IfErr result (λ fault. IsDamage fault → V.tells volume.old → (index : Index)
        → IfSome older.now (StandsIn V.Ground volume.old index)
        → AreReadable (bodies_of (V.image volume.old) index) → ⊥) }
    ensures fault { IfErr result (λ fault. V.tells volume.old → IsSomeAnd older.now
        (λ (stored : Stored). IsWalkFault (V.geometry volume.old) (V.image volume.old)
        stored.place fault)) }
    ensures walk { OnOk result (V.tells volume.old → IfSome older.now (λ (stored : Stored).
        IsWalkedFrom (V.geometry volume.old) (V.image volume.old) stored.place)) }
    ensures kept { Keeps V.Ground volume.old volume.new }
    ensures cause { HasCause (V.faults volume.old) (V.faults volume.new) result }
{
    match older {
        None => Ok(None),
        Some(stored) => only_other(volume, alloc, stored.place, gone),
    }
}

/// Whether others are derived too from the version that one is derived from, if it is derived from one.
fn is_branch(older: &Option<Stored>) -> bool
    ensures { IsTrue result ↔ IfSome older.now (λ (stored : Stored). stored.head.newer ≡ None) }
{
    match older {
        None => true,
        Some(stored) => stored.head.newer.is_none(),
    }
}

/// Gives a frozen record that was read a newer place, where there is one to give.
fn name_newer<V: Volume>(
    volume: &mut V,
    alloc: Global,
    stored: &Stored,
    newer: Option<Place>,
) -> Result<(), PortFault>
    requires { V.ready volume.old }
    ensures named { OnOk result (V.tells volume.old → (index : Index)
        → StandsIn V.Ground volume.old index stored.now
        → NamesStored V.Ground volume.old volume.new index stored.now newer) }
    ensures free { OnOk result (V.free volume.new ≡ V.free volume.old) }
    ensures units { OnOk result (SameUnits V.Ground volume.old volume.new) }
    ensures sound { IfErr result (λ fault. IsDamage fault → V.tells volume.old → (index : Index)
        → IsFrozenIn V.Ground volume.old index stored.now → IsNamed newer → ⊥) }
    ensures fault { IfErr result (λ fault. V.tells volume.old
        → IsRecordFault stored.now.place fault) }
    ensures touches { OnOk result (TouchesAtMost V.Ground volume.old volume.new 1) }
    ensures leads { V.leads volume.old volume.new }
    ensures cause { HasCause (V.faults volume.old) (V.faults volume.new) result }
{
    match newer {
        None => Ok(()),
        Some(at) => {
            let named = Head {
                newer: Some(at),
                ..stored.head
            };
            put_head(volume, alloc, stored, &named)
        }
    }
}

/// Gives the version that one was derived from the only other one as its newer one, where there is one.
fn name_other<V: Volume>(
    volume: &mut V,
    alloc: Global,
    older: &Option<Stored>,
    other: Option<Place>,
) -> Result<(), PortFault>
    requires { V.ready volume.old }
    ensures named { OnOk result (V.tells volume.old → (index : Index) (rows : List Row)
        → (link : Option Place) (gone : Place) → HasFile V.Ground volume.old index
        → StoredAt rows link older.now → IfSome older.now (StandsIn V.Ground volume.old index)
        → other ≡ other_from rows gone older.now
        → NamesOther V.Ground volume.old volume.new index rows link gone) }
    ensures free { OnOk result (V.free volume.new ≡ V.free volume.old) }
    ensures units { OnOk result (SameUnits V.Ground volume.old volume.new) }
    ensures sound { IfErr result (λ fault. IsDamage fault → V.tells volume.old → (index : Index)
        → IfSome older.now (IsFrozenIn V.Ground volume.old index) → IsNamed other → ⊥) }
    ensures fault { IfErr result (λ fault. V.tells volume.old → IsSomeAnd older.now
        (λ (stored : Stored). IsRecordFault stored.place fault)) }
    ensures touches { OnOk result (TouchesAtMost V.Ground volume.old volume.new 1) }
    ensures leads { V.leads volume.old volume.new }
    ensures cause { HasCause (V.faults volume.old) (V.faults volume.new) result }
{
    match older {
        None => Ok(()),
        Some(stored) => name_newer(volume, alloc, stored, other),
    }
}

/// Takes a current version out that was read, and gives the one that it was derived from its only other one.
fn take_read<V: Volume>(
    volume: &mut V,
    alloc: Global,
    was: &Stored,
    older: &Option<Stored>,
    other: Option<Place>,
) -> Result<Option<Root>, PortFault>
    requires { V.ready volume.old }
    ensures taken_out { OnOk result (V.tells volume.old → (index : Index) (is : Record)
        → IsLeaving V.Ground volume.old index was.now older.now other is
        → TakesOut V.Ground volume.old volume.new index was.now.place is) }
    ensures gone { IfOk result (λ gone. (is : Record) → BodyOf was.now.body.items is
        → gone ≡ root_of is.content) }
    ensures pages { OnOk result (V.free volume.old Page ≤ V.free volume.new Page) }
    ensures gives { OnOk result (OnlyGives V.Ground volume.old volume.new) }
    ensures sound { IfErr result (λ fault. IsDamage fault → V.tells volume.old
        → (index : Index) (is : Record)
        → IsLeaving V.Ground volume.old index was.now older.now other is → ⊥) }
    ensures fault { IfErr result (λ fault. V.tells volume.old
        → IsTakingFault (V.geometry volume.old) (V.held volume.old) (V.image volume.old)
        (V.held volume.new) (V.image volume.new) was.now.place fault
        ⊎ IsSomeAnd older.now (λ (stored : Stored). IsRecordFault stored.place fault)) }
    ensures leaves { OnOk result (V.free volume.new Segment ≡ V.free volume.old Segment) }
    ensures touches { OnOk result (TouchesAtMost V.Ground volume.old volume.new version_touches) }
    ensures leads { V.leads volume.old volume.new }
    ensures cause { HasCause (V.faults volume.old) (V.faults volume.new) result }
{
    remove_from_file(volume, alloc, was.place)?;
    match name_other(volume, alloc, older, other) {
        Ok(()) => Ok(root_in(&was.body)),
        Err(fault) => Err(fault),
    }
}

/// Takes a current version out that has no older one, or one from which others are derived too. Where just one other is left of these, it becomes the newer
/// one. It answers the version's root, if it was large. No unit is taken; those of its tree stay used.
pub fn take_out<V: Volume>(
    volume: &mut V,
    alloc: Global,
    oid: &Oid,
) -> Result<Option<Root>, PortFault>
    requires { V.ready volume.old }
    ensures taken_out { OnOk result (V.tells volume.old → AreLinked V.Ground volume.old
        → (index : Index) (is : Record) → HasRecord V.Ground volume.old index oid.now is
        → TakesOut V.Ground volume.old volume.new index (place_of oid.now) is) }
    ensures asked { OnOk result (V.tells volume.old → (index : Index) (is : Record)
        → HasRecord V.Ground volume.old index oid.now is → is.head.state ≡ Current) }
    ensures reads { OnOk result (V.tells volume.old → IsReadAnd (V.image volume.old) oid.now
        (λ body. ((head_in body).state ≡ Current)
        × OlderOn (V.image volume.old) (head_in body)
        × IfSome (head_in body).older
        (IsWalkedFrom (V.geometry volume.old) (V.image volume.old)))) }
    ensures branch { OnOk result (V.tells volume.old → AreLinked V.Ground volume.old
        → (index : Index) (is : Record) → HasRecord V.Ground volume.old index oid.now is
        → IsBranch (bodies_of (V.image volume.old) index) is.head.older) }
    ensures gone { IfOk result (λ gone. V.tells volume.old → (index : Index) (is : Record)
        → HasRecord V.Ground volume.old index oid.now is → gone ≡ root_of is.content) }
    ensures pages { OnOk result (V.free volume.old Page ≤ V.free volume.new Page) }
    ensures gives { OnOk result (OnlyGives V.Ground volume.old volume.new) }
    ensures sound { IfErr result (λ fault. IsDamage fault → V.tells volume.old
        → AreLinked V.Ground volume.old → (index : Index) (is : Record)
        → HasRecord V.Ground volume.old index oid.now is → is.head.state ≡ Current
        → IsBranch (bodies_of (V.image volume.old) index) is.head.older → ⊥) }
    ensures fault { IfErr result (λ fault. V.tells volume.old
        → IsLinkedFault V.Ground volume.old oid.now
        (λ body. IsTakingOutFault V.Ground volume.old volume.new (place_of oid.now) body
        fault) fault) }
    ensures leaves { OnOk result (V.free volume.new Segment ≡ V.free volume.old Segment) }
    ensures touches { OnOk result (TouchesAtMost V.Ground volume.old volume.new version_touches) }
    ensures leads { V.leads volume.old volume.new }
    ensures cause { HasCause (V.faults volume.old) (V.faults volume.new) result }
{
    let version = stored_version(volume, alloc, oid)?;
    check(is_current(&version.head), version.place)?;
    let older = linked_older(volume, alloc, &version)?;
    check(is_branch(&older), version.place)?;
    let other = other_from(volume, alloc, &older, version.place)?;
    take_read(volume, alloc, &version, &older, other)
}
