//! The versions next to a version: the one that it is derived from, and the only one that is derived from it.
ghost use Rattle.std.specs.Prelude.{◌≡◌, IfOk, IfErr};
ghost use Rattle.ex_base.specs.Ports.{Keeps, HasCause, IsDamage};
ghost use Rattle.object_records.specs.Record.{Record};
ghost use Rattle.ex_base.specs.declared.names.Index.{Index};
ghost use Rattle.file_bodies.specs.Bodies.{bodies_of};
ghost use Rattle.versions.specs.Versions.{HasRecord, place_of};
ghost use Rattle.version_tree.specs.Linked.{AreLinked, OidAt, head_in};
ghost use Rattle.version_tree.specs.Links.{IsLinkedFault, IsNewerFault, IsOlderFault, IsReadAnd, NewerOn, OidOn, OlderOn, oid_read};

use crate::links::{Stored, linked_newer, linked_older, stored_version};
use ex_base::{Oid, PortFault, ReadVolume};
use std::alloc::Global;
use versions::oid_at;

/// The OID of a version that was read, where one was.
fn oid_read(found: Option<Stored>) -> Option<Oid>
    ensures { result ≡ oid_read found }
{
    match found {
        None => None,
        Some(stored) => Some(oid_at(stored.place, stored.head.unique)),
    }
}

/// The version that a version is derived from, none where it has no older one.
pub fn older<V: ReadVolume>(
    volume: &mut V,
    alloc: Global,
    oid: &Oid,
) -> Result<Option<Oid>, PortFault>
    requires { V.ready volume.old }
    ensures told { IfOk result (λ found. V.tells volume.old → AreLinked V.Ground volume.old
        → (index : Index) (is : Record) → HasRecord V.Ground volume.old index oid.now is
        → OidAt (bodies_of (V.image volume.old) index) is.head.older found) }
    ensures reads { IfOk result (λ found. V.tells volume.old
        → IsReadAnd (V.image volume.old) oid.now (λ body. OlderOn (V.image volume.old) (head_in body)
        × OidOn (V.image volume.old) (head_in body).older found)) }
    ensures sound { IfErr result (λ fault. IsDamage fault → V.tells volume.old
        → AreLinked V.Ground volume.old → (index : Index) (is : Record)
        → HasRecord V.Ground volume.old index oid.now is → ⊥) }
    ensures fault { IfErr result (λ fault. V.tells volume.old
        → IsLinkedFault V.Ground volume.old oid.now
        (λ body. IsOlderFault V.Ground volume.old (head_in body) fault) fault) }
    ensures kept { Keeps V.Ground volume.old volume.new }
    ensures cause { HasCause (V.faults volume.old) (V.faults volume.new) result }
{
    let stored = stored_version(volume, alloc, oid)?;
    match linked_older(volume, alloc, &stored) {
        Ok(found) => Ok(oid_read(found)),
        Err(fault) => Err(fault),
    }
}

/// The only version that is derived from a version, none where none or more are.
pub fn newer<V: ReadVolume>(
    volume: &mut V,
    alloc: Global,
    oid: &Oid,
) -> Result<Option<Oid>, PortFault>
    requires { V.ready volume.old }
    ensures told { IfOk result (λ found. V.tells volume.old → AreLinked V.Ground volume.old
        → (index : Index) (is : Record) → HasRecord V.Ground volume.old index oid.now is
        → OidAt (bodies_of (V.image volume.old) index) is.head.newer found) }
    ensures reads { IfOk result (λ found. V.tells volume.old
        → IsReadAnd (V.image volume.old) oid.now (λ body. NewerOn (V.image volume.old) (place_of oid.now)
        (head_in body)
        × OidOn (V.image volume.old) (head_in body).newer found)) }
    ensures sound { IfErr result (λ fault. IsDamage fault → V.tells volume.old
        → AreLinked V.Ground volume.old → (index : Index) (is : Record)
        → HasRecord V.Ground volume.old index oid.now is → ⊥) }
    ensures fault { IfErr result (λ fault. V.tells volume.old
        → IsLinkedFault V.Ground volume.old oid.now
        (λ body. IsNewerFault V.Ground volume.old (place_of oid.now) (head_in body) fault)
        fault) }
    ensures kept { Keeps V.Ground volume.old volume.new }
    ensures cause { HasCause (V.faults volume.old) (V.faults volume.new) result }
{
    let stored = stored_version(volume, alloc, oid)?;
    match linked_newer(volume, alloc, &stored) {
        Ok(found) => Ok(oid_read(found)),
        Err(fault) => Err(fault),
    }
}
