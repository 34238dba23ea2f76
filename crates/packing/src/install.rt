//! A version of a volume at rest that is moved: it is committed, and written home.
ghost use Rattle.std.specs.Prelude.{◌≡◌, ◌≤◌, ◌+◌, ℕ, List, [], length, IfErr, IfOk, OnOk};
ghost use Rattle.ex_base.specs.Ports.{HasCause, IsDamage};
ghost use Rattle.disk_model.specs.Outside.{DiskOnly, Leaves};
ghost use Rattle.file_index.specs.Touches.{TouchesAtMost};
ghost use Rattle.compact.specs.Moved.{Copies, KeepsCopies};
ghost use Rattle.compact.specs.Moves.{copies_of};
ghost use Rattle.volume_model.specs.Committed.{StandsForVolume};
ghost use Rattle.volume_model.specs.Volume.{Decoded};
ghost use Rattle.volume_port.specs.State.{AreReady, IsAtRest, Moved};
ghost use Rattle.tree_store.specs.Stored.{NoUnit};
ghost use Rattle.packing.specs.Packing.{HoldsTableOf};
ghost use Rattle.packing.specs.Working.{FindsAndMoves, FindsDamage, HasParts, MaySettle, MovesWorking, with_parts};
ghost use Rattle.packing.specs.declared.objects.LargeVersion.{LargeVersion};
ghost use Rattle.volume_port.specs.declared.state.VolumeState.{VolumeState};
ghost use Rattle.packing.specs.Resting.{HasOwnCopies, HasRoomFor, IsIdle, IsStartOf, MovesVersion, NeverLacks, PackCause, TellsDamage};

use crate::fault::PackFault;
use crate::moving::move_version;
use crate::objects::LargeVersion;
use crate::start::Start;
use buffer_groups::Groups;
use commits::{checkpoint, commit};
use compact::Moves;
use disk_model::Disk;
use ex_base::{Geometry, PageNo, PortFault, Root, Volume};
use meta_pages::Meta;
use page_alloc::Units;
use std::alloc::Global;
use tree_store::Store;
use versions::{find, no_record, place_of, stood};
use volume_port::{LoggedPages, MAIN, PageRoom, VolumePort, VolumeState, own_root, release_root};

/// Finds a version through a port, holds the record that stands there against the version that was listed, and moves its tree.
fn find_and_move<V: Volume>(
    volume: &mut V,
    alloc: Global,
    version: &LargeVersion,
    dense: u32,
    moves: &mut Moves,
) -> Result<Root, PortFault>
    requires ready { V.ready volume.old }
    ensures found { IfOk result (λ made. FindsAndMoves V.Ground volume.old volume.new version.now
        dense (copies_of moves.old) (copies_of moves.new) made) }
    ensures still { IfOk result (λ made. made ≡ version.now.root
        → V.touched volume.new ≡ V.touched volume.old) }
    ensures sound { IfErr result (λ fault. IsDamage fault
        → FindsDamage V.Ground volume.old version.now dense (copies_of moves.old)) }
    ensures keeps { KeepsCopies (copies_of moves.old) (copies_of moves.new) }
    ensures touches { OnOk result (TouchesAtMost V.Ground volume.old volume.new 1) }
    ensures leads { V.leads volume.old volume.new }
    ensures cause { HasCause (V.faults volume.old) (V.faults volume.new) result }
{
    let place = place_of(&version.oid);
    let told = find(volume, alloc, &version.oid)?;
    let found = stood(told, place)?;
    let Some(root) = found.root else {
        return Err(no_record(place));
    };
    if root == version.root {
        return move_version(
            volume,
            alloc,
            &version.oid,
            &found.head,
            &root,
            dense,
            moves,
        );
    }
    Err(no_record(place))
}

/// Finds a version in the working pages of these parts of a volume, and moves its tree there, as `find_and_move` does.
fn move_parts<'a, D: Disk>(
    alloc: Global,
    disk: &'a mut D,
    units: &'a mut Units,
    groups: &'a mut Groups,
    geometry: &Geometry,
    meta: &'a mut Meta,
    pages: &'a mut LoggedPages,
    room: &'a mut PageRoom,
    version: &LargeVersion,
    dense: u32,
    moves: &mut Moves,
) -> Result<Root, PortFault>
    requires ready { (v : VolumeState)
        × (HasParts v geometry.now units.old groups.old meta.old pages.old
        × AreReady (D.outside disk.old).size v) }
    ensures moved { (v : VolumeState)
        → HasParts v geometry.now units.old groups.old meta.old pages.old
        → AreReady (D.outside disk.old).size v
        → Moved NoUnit (D.outside disk.old) (D.outside disk.new) v
        (with_parts v units.new groups.new meta.new pages.new) }
    ensures keeps { KeepsCopies (copies_of moves.old) (copies_of moves.new) }
    ensures touches { OnOk result
        (length meta.new.working ≤ length meta.old.working + 1) }
    ensures still { IfOk result (λ made. made ≡ version.now.root
        → length meta.new.working ≡ length meta.old.working) }
    ensures works { (v : VolumeState)
        → HasParts v geometry.now units.old groups.old meta.old pages.old
        → AreReady (D.outside disk.old).size v
        → IfOk result (λ made. (d : Decoded) (image : List ℕ)
        → IsAtRest (D.outside disk.old) v d image
        → HasOwnCopies v d image dense (copies_of moves.old) version.now
        → HasRoomFor v d image dense (copies_of moves.old) version.now.root
        → MovesWorking (D.outside disk.old) (D.outside disk.new) v
        (with_parts v units.new groups.new meta.new pages.new) d image dense
        (copies_of moves.old) (copies_of moves.new) version.now made) }
    ensures sound { (v : VolumeState)
        → HasParts v geometry.now units.old groups.old meta.old pages.old
        → AreReady (D.outside disk.old).size v
        → IfErr result (λ fault. IsDamage fault → (d : Decoded) (image : List ℕ)
        → IsAtRest (D.outside disk.old) v d image
        → HasOwnCopies v d image dense (copies_of moves.old) version.now
        → HasRoomFor v d image dense (copies_of moves.old) version.now.root → ⊥) }
    ensures cause { HasCause (D.outside disk.old).disk_faults (D.outside disk.new).disk_faults
        result }
{
    let mut port = VolumePort::make(
        Store::make(disk, units, groups, MAIN, *geometry),
        meta,
        pages,
        room,
    );
    find_and_move(&mut port, alloc, version, dense, moves)
}

/// Finds a version in the working pages of a volume, and moves its tree there.
fn move_working<D: Disk>(
    alloc: Global,
    disk: &mut D,
    volume: &mut VolumeState,
    room: &mut PageRoom,
    version: &LargeVersion,
    dense: u32,
    moves: &mut Moves,
) -> Result<Root, PortFault>
    requires ready { AreReady (D.outside disk.old).size volume.old }
    ensures moved { Moved NoUnit (D.outside disk.old) (D.outside disk.new) volume.old volume.new }
    ensures keeps { KeepsCopies (copies_of moves.old) (copies_of moves.new) }
    ensures touches { OnOk result
        (length volume.new.meta.working ≤ length volume.old.meta.working + 1) }
    ensures still { IfOk result (λ made. made ≡ version.now.root
        → length volume.new.meta.working ≡ length volume.old.meta.working) }
    ensures works { IfOk result (λ made. (d : Decoded) (image : List ℕ)
        → IsAtRest (D.outside disk.old) volume.old d image
        → HasOwnCopies volume.old d image dense (copies_of moves.old) version.now
        → HasRoomFor volume.old d image dense (copies_of moves.old) version.now.root
        → MovesWorking (D.outside disk.old) (D.outside disk.new) volume.old volume.new d image
        dense (copies_of moves.old) (copies_of moves.new) version.now made) }
    ensures sound { IfErr result (λ fault. IsDamage fault → (d : Decoded) (image : List ℕ)
        → IsAtRest (D.outside disk.old) volume.old d image
        → HasOwnCopies volume.old d image dense (copies_of moves.old) version.now
        → HasRoomFor volume.old d image dense (copies_of moves.old) version.now.root → ⊥) }
    ensures cause { HasCause (D.outside disk.old).disk_faults (D.outside disk.new).disk_faults
        result }
{
    move_parts(
        alloc,
        disk,
        &mut volume.units,
        &mut volume.groups,
        &volume.geometry,
        &mut volume.meta,
        &mut volume.pages,
        room,
        version,
        dense,
        moves,
    )
}

/// Commits the working pages under the number of the last transaction, without a note, and writes them home. Before that the tree that came gets an owner, and the
/// tree that went has one less.
fn settle<D: Disk>(
    alloc: Global,
    disk: &mut D,
    volume: &mut VolumeState,
    start: &Start,
    gone: &Root,
    come: &Root,
) -> Result<(), PackFault>
    requires ready { AreReady (D.outside disk.old).size volume.old }
    requires log { volume.old.log ≡ record { geometry = volume.old.geometry; end = 0; count = 0 } }
    requires committed { volume.old.meta.committed ≡ [] }
    requires catalog { length start.now.catalog.items ≡ volume.old.geometry.page_size }
    requires few { length volume.old.meta.working ≤ 1 }
    ensures idle { OnOk result (IsIdle (D.outside disk.new).size volume.new) }
    ensures geometry { volume.new.geometry ≡ volume.old.geometry }
    ensures only { DiskOnly (D.outside disk.old) (D.outside disk.new) }
    ensures moved { OnOk result ((first : D) (before : VolumeState) (d : Decoded)
        (image : List ℕ) (moves after : Copies) (version : LargeVersion)
        → MaySettle (D.outside first) (D.outside disk.old) before volume.old d image start.now.segs
        moves after version gone.now come.now → IsStartOf d image start.now
        → MovesVersion (D.outside disk.new) before volume.new d image start.now.segs moves after
        version) }
    ensures any_moment { (first : D) (before : VolumeState) (d : Decoded) (image : List ℕ)
        (moves after : Copies) (version : LargeVersion)
        → MaySettle (D.outside first) (D.outside disk.old) before volume.old d image start.now.segs
        moves after version gone.now come.now → IsStartOf d image start.now
        → Leaves (D.outside disk.old) (D.outside disk.new) (StandsForVolume d image) }
    ensures sound { IfErr result (λ fault. TellsDamage fault → (first : D)
        (before : VolumeState) (d : Decoded) (image : List ℕ) (moves after : Copies)
        (version : LargeVersion)
        → MaySettle (D.outside first) (D.outside disk.old) before volume.old d image start.now.segs
        moves after version gone.now come.now → ⊥) }
    ensures told { IfErr result NeverLacks }
    ensures cause { IfErr result (PackCause (D.outside disk.old) (D.outside disk.new)) }
{
    volume.meta.edit(alloc, PageNo::CATALOG, &start.catalog)?;
    own_root(&mut volume.units, &volume.geometry, come);
    release_root(
        alloc,
        disk,
        &mut volume.units,
        &mut volume.groups,
        &volume.geometry,
        &volume.pages,
        &volume.kept,
        gone,
    )?;
    commit(
        alloc,
        &mut volume.log,
        &mut volume.meta,
        &mut volume.groups,
        disk,
        &[],
        start.last,
    )?;
    checkpoint(&mut volume.log, &mut volume.meta, &mut volume.groups, disk)?;
    Ok(())
}

/// Moves the tree of a version of a volume at rest to the lowest units, but for what has copies in `moves`. Where it has another root then, its record is
/// committed with that and written home, so that the volume is at rest again. A crash at any moment leaves the table as it is. After a fault the state of the
/// volume isn't to be used again.
pub(crate) fn install<D: Disk>(
    alloc: Global,
    disk: &mut D,
    volume: &mut VolumeState,
    room: &mut PageRoom,
    start: &Start,
    version: &LargeVersion,
    moves: &mut Moves,
) -> Result<(), PackFault>
    requires ready { IsIdle (D.outside disk.old).size volume.old }
    requires catalog { length start.now.catalog.items ≡ volume.old.geometry.page_size }
    ensures idle { OnOk result (IsIdle (D.outside disk.new).size volume.new) }
    ensures geometry { volume.new.geometry ≡ volume.old.geometry }
    ensures only { DiskOnly (D.outside disk.old) (D.outside disk.new) }
    ensures keeps { KeepsCopies (copies_of moves.old) (copies_of moves.new) }

    // The volume is at rest again, with this version moved.
    ensures moved { OnOk result ((d : Decoded) (image : List ℕ)
        → IsAtRest (D.outside disk.old) volume.old d image → IsStartOf d image start.now
        → HasOwnCopies volume.old d image start.now.segs (copies_of moves.old) version.now
        → HasRoomFor volume.old d image start.now.segs (copies_of moves.old) version.now.root
        → MovesVersion (D.outside disk.new) volume.old volume.new d image start.now.segs
        (copies_of moves.old) (copies_of moves.new) version.now) }

    // A crash at any moment leaves the table, and so does a fault.
    ensures any_moment { (d : Decoded) (image : List ℕ)
        → IsAtRest (D.outside disk.old) volume.old d image → IsStartOf d image start.now
        → HasOwnCopies volume.old d image start.now.segs (copies_of moves.old) version.now
        → HasRoomFor volume.old d image start.now.segs (copies_of moves.old) version.now.root
        → Leaves (D.outside disk.old) (D.outside disk.new) (StandsForVolume d image) }
    ensures holds { (d : Decoded) (image : List ℕ)
        → IsAtRest (D.outside disk.old) volume.old d image → IsStartOf d image start.now
        → HasOwnCopies volume.old d image start.now.segs (copies_of moves.old) version.now
        → HasRoomFor volume.old d image start.now.segs (copies_of moves.old) version.now.root
        → HoldsTableOf (D.outside disk.new) d image }
    ensures sound { IfErr result (λ fault. TellsDamage fault → (d : Decoded) (image : List ℕ)
        → IsAtRest (D.outside disk.old) volume.old d image
        → HasOwnCopies volume.old d image start.now.segs (copies_of moves.old) version.now
        → HasRoomFor volume.old d image start.now.segs (copies_of moves.old) version.now.root
        → ⊥) }
    ensures told { IfErr result NeverLacks }
    ensures cause { IfErr result (PackCause (D.outside disk.old) (D.outside disk.new)) }
{
    let made = move_working(alloc, disk, volume, room, version, start.segs, moves)?;
    if made == version.root {
        return Ok(());
    }
    settle(alloc, disk, volume, start, &version.root, &made)
}
