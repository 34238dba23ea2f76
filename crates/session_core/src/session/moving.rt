//! Updates of objects, through a port over the volume of a session.
ghost use Rattle.std.specs.Prelude.{◌≡◌, ◌≤◌, ◌<◌, ◌+◌, [], length, suc, true, IfOk, IfErr, IsTrue, OnOk, OnErr};
ghost use Rattle.ex_base.specs.Ports.{HasCause, IsDamage};
ghost use Rattle.disk_model.specs.Outside.{DiskOnly, Leaves};
ghost use Rattle.table_model.specs.Requests.{Request};
ghost use Rattle.session_views.specs.View.{View, ShowsNow, StandsDuring};
ghost use Rattle.table_model.specs.Machines.{shown};
ghost use Rattle.session_core.specs.Meant.{meant};
ghost use Rattle.ex_base.specs.Sizes.{volume_bytes};
ghost use Rattle.ex_base.specs.declared.names.Area.TheVariants.{Page};
ghost use Rattle.meta_pages.specs.Overlays.{AreRows};
ghost use Rattle.op_log.specs.Records.{IsNote};
ghost use Rattle.page_alloc.specs.UnitSet.{free_count, used_at};
ghost use Rattle.table_model.specs.Machines.{touched_most, updates_most};
ghost use Rattle.session_core.specs.Performed.{CanPerform, IsCopying, NamesOid, charge_of, asked_of};
ghost use Rattle.volume_edits.specs.TableUpdates.{updated};
ghost use Rattle.session_core.specs.Contents.{Shaped, pages_on, pages_over};
ghost use Rattle.session_core.specs.Damage.{IsFaultAt, IsUpdateFault, TellsFor};
ghost use Rattle.session_core.specs.Finding.{IsOutside, LineStops};
ghost use Rattle.session_core.specs.Counts.{free_in};
ghost use Rattle.session_core.specs.Sessions.{SessionState, TakesLogged};
ghost use Rattle.session_core.specs.Updates.{HasParts, HasRoomFor, HasRoots, HoldsTable, HoldsTurned, IfAsked, IsLoose, OwnsGone, TakesAtMost, note_done, with_parts};
ghost use Rattle.volume_port.specs.declared.state.VolumeState.{VolumeState};
ghost use Rattle.volume_port.specs.State.{AreReady, Moved};
ghost use Rattle.tree_store.specs.Stored.{NoUnit};

use super::Session;
use super::objects::stopped;
use super::phase::Phase;
use super::settle::{sweep, take_back};
use super::turning::turn_roots;
use crate::updates::{Done, ObjectUpdate, perform};
use buffer_groups::Groups;
use disk_model::{Disk, Host};
use ex_base::{Geometry, Oid, OpNote, PortFault, Root};
use file_rooms::Rooms;
use meta_pages::Meta;
use page_alloc::Units;
use session_views::Stop;
use std::alloc::Global;
use tree_store::Store;
use volume_port::{LoggedPages, MAIN, PageRoom, VolumePort, VolumeState};

/// The note of an update that was performed so: with the OID that it answered.
fn noted(note: &OpNote, done: &Result<Done, PortFault>) -> OpNote
    ensures { result ≡ note_done note.now done.now }
{
    match done {
        Ok(done) => OpNote {
            kind: note.kind,
            oid: done.oid,
            first: note.first,
            second: note.second,
        },
        Err(_) => *note,
    }
}

// Performs an update of objects, through a port over these parts of a volume.
fn update_parts<'a, D: Disk>(
    alloc: Global,
    disk: &'a mut D,
    units: &'a mut Units,
    groups: &'a mut Groups,
    geometry: &Geometry,
    meta: &'a mut Meta,
    pages: &'a mut LoggedPages,
    room: &'a mut PageRoom,
    rooms: &mut Rooms,
    update: &ObjectUpdate<'_>,
) -> Result<Done, PortFault>
    requires ready { (v : VolumeState)
        × (HasParts v geometry.now units.old groups.old meta.old pages.old
        × AreReady (D.outside disk.old).size v) }
    requires can { CanPerform update.now (free_count units.old.geometry (used_at units.old) Page) }
    ensures named { IfOk result (λ done. NamesOid update.now done.oid) }
    ensures shares { IsCopying update.now
        → OnOk result (TakesLogged units.old units.new pages.new) }
    ensures moved { (v : VolumeState)
        → HasParts v geometry.now units.old groups.old meta.old pages.old
        → AreReady (D.outside disk.old).size v
        → Moved NoUnit (D.outside disk.old) (D.outside disk.new) v
        (with_parts v units.new groups.new meta.new pages.new) }
    ensures updated { (v : VolumeState)
        → HasParts v geometry.now units.old groups.old meta.old pages.old
        → AreReady (D.outside disk.old).size v
        → IfOk result (λ done. IfAsked (D.outside disk.old) v update.now (λ before u.
        AreRows meta.new → HoldsTurned before (D.outside disk.new)
        (with_parts v units.new groups.new meta.new pages.new) done.gone done.come
        (updated u done.oid (shown before.machine)))) }
    ensures shaped { (v : VolumeState)
        → HasParts v geometry.now units.old groups.old meta.old pages.old
        → AreReady (D.outside disk.old).size v
        → IfOk result (λ done. IfAsked (D.outside disk.old) v update.now (λ before u.
        Shaped (pages_over v.geometry v.meta (D.outside disk.old))
        (pages_over v.geometry meta.new (D.outside disk.new)) u done.oid)) }
    ensures owns { (v : VolumeState)
        → HasParts v geometry.now units.old groups.old meta.old pages.old
        → AreReady (D.outside disk.old).size v
        → IfOk result (λ done. IfAsked (D.outside disk.old) v update.now (λ before u.
        OwnsGone before (D.outside disk.new)
        (with_parts v units.new groups.new meta.new pages.new) done.gone done.come)) }
    ensures touched { OnOk result (length meta.new.working
        ≤ length meta.old.working + charge_of update.now) }
    ensures kept { (v : VolumeState)
        → HasParts v geometry.now units.old groups.old meta.old pages.old
        → AreReady (D.outside disk.old).size v
        → OnOk result (IfAsked (D.outside disk.old) v update.now
        (TakesAtMost (free_count units.new.geometry (used_at units.new)))) }
    ensures sound { (v : VolumeState)
        → HasParts v geometry.now units.old groups.old meta.old pages.old
        → AreReady (D.outside disk.old).size v
        → IfErr result (λ fault. IfAsked (D.outside disk.old) v update.now (λ before u.
        HasRoomFor before u → IsDamage fault → ⊥)) }
    ensures fault { (v : VolumeState)
        → HasParts v geometry.now units.old groups.old meta.old pages.old
        → AreReady (D.outside disk.old).size v
        → IfErr result (IsFaultAt (D.outside disk.old) v (asked_of (used_at v.units)
        (free_count v.units.geometry (used_at v.units)) update.now)) }
    ensures cause { HasCause (D.outside disk.old).disk_faults
        (D.outside disk.new).disk_faults result }
{
    let mut port = VolumePort::make(
        Store::make(disk, units, groups, MAIN, *geometry),
        meta,
        pages,
        room,
    );
    perform(&mut port, alloc, rooms, update)
}

// Performs an update through a port over a volume, turns the roots of the transaction by the one that went and the one that came, and frees the pages that
// the transaction gave back and that the committed state hasn't.
fn update_volume<D: Disk>(
    alloc: Global,
    disk: &mut D,
    volume: &mut VolumeState,
    room: &mut PageRoom,
    gained: &mut Vec<Root>,
    lost: &mut Vec<Root>,
    rooms: &mut Rooms,
    update: &ObjectUpdate<'_>,
) -> Result<Done, PortFault>
    requires ready { AreReady (D.outside disk.old).size volume.old }
    requires can { CanPerform update.now (free_count volume.old.units.geometry
        (used_at volume.old.units) Page) }
    ensures named { IfOk result (λ done. NamesOid update.now done.oid) }
    ensures shares { IsCopying update.now
        → OnOk result (TakesLogged volume.old.units volume.new.units volume.new.pages) }
    ensures moved { Moved (IsLoose volume.new.pages volume.new.kept)
        (D.outside disk.old) (D.outside disk.new) volume.old volume.new }
    ensures few_gained { length gained.new.items ≤ suc (length gained.old.items) }
    ensures few_lost { length lost.new.items ≤ suc (length lost.old.items) }
    ensures rows { OnOk result (AreRows volume.new.meta) }
    ensures touched { OnOk result (length volume.new.meta.working
        ≤ length volume.old.meta.working + charge_of update.now) }
    ensures kept { OnOk result (IfAsked (D.outside disk.old) volume.old update.now
        (TakesAtMost (free_count volume.new.units.geometry (used_at volume.new.units)))) }
    ensures updated { IfOk result (λ done. IfAsked (D.outside disk.old) volume.old update.now
        (λ before u. HasRoots before.session gained.old.items lost.old.items
        → HoldsTable before (D.outside disk.new) volume.new
        gained.new.items lost.new.items (updated u done.oid (shown before.machine)))) }
    ensures shaped { IfOk result (λ done. IfAsked (D.outside disk.old) volume.old update.now
        (λ before u. Shaped (pages_over volume.old.geometry volume.old.meta (D.outside disk.old))
        (pages_over volume.old.geometry volume.new.meta (D.outside disk.new)) u done.oid)) }
    ensures sound { IfErr result (λ fault. IfAsked (D.outside disk.old) volume.old update.now
        (λ before u. HasRoots before.session gained.old.items lost.old.items
        → HasRoomFor before u → IsDamage fault → ⊥)) }
    ensures fault { IfErr result (IsUpdateFault (D.outside disk.old) (D.outside disk.new)
        volume.old gained.old.items (asked_of (used_at volume.old.units)
        (free_count volume.old.units.geometry (used_at volume.old.units)) update.now)) }
    ensures cause { HasCause (D.outside disk.old).disk_faults
        (D.outside disk.new).disk_faults result }
{
    let done = update_parts(
        alloc,
        disk,
        &mut volume.units,
        &mut volume.groups,
        &volume.geometry,
        &mut volume.meta,
        &mut volume.pages,
        room,
        rooms,
        update,
    )?;
    turn_roots(alloc, disk, volume, gained, lost, &done)?;
    sweep(&volume.meta, &mut volume.units, &volume.kept);
    Ok(done)
}

impl Session {
    ghost use Rattle.session_core.specs.Updates.{GivenUp, IfUpdated, Noted, WritesUnused, note_with};
    ghost use Rattle.session_core.specs.Sessions.{volume_held};

    /// Performs an update of objects, and notes it: the note has the OID of the version that was made, changed or removed, which is answered. It takes no more
    /// than it needs. Where memory is wanted or the disk fails, and at a page that isn't what names it, the transaction is given up and the call stops.
    pub fn update_objects<H: Host>(
        &mut self,
        alloc: Global,
        host: &mut H,
        update: &ObjectUpdate<'_>,
        note: &OpNote,
    ) -> Result<Oid, Stop>
        requires room { volume_bytes self.old.geometry ≤ (H.outside host.old).size }
        requires opened { self.old.opened ≡ true }
        requires updates { length self.old.notes < updates_most }
        requires touched { length self.old.meta.working + charge_of update.now ≤ touched_most }
        requires note { IsNote note.now }
        requires can { CanPerform update.now (free_in self.old Page) }
        ensures named { IfOk result (NamesOid update.now) }
        ensures shares { IsCopying update.now
            → OnOk result (TakesLogged self.old.units self.new.units self.new.pages) }
        ensures noted { IfOk result (λ oid. Noted self.old self.new (note_with note.now oid)) }
        ensures touched { OnOk result (length self.new.meta.working
            ≤ length self.old.meta.working + charge_of update.now) }
        ensures kept { OnOk result (IfUpdated (H.outside host.old) self.old update.now
            (TakesAtMost (free_in self.new))) }
        ensures holds { IfOk result (λ oid. IfUpdated (H.outside host.old) self.old update.now
            (λ before u. HoldsTable before (H.outside host.new) (volume_held self.new)
            self.new.gained self.new.lost (updated u oid (shown before.machine)))) }
        ensures shaped { IfOk result (λ oid. IfUpdated (H.outside host.old) self.old update.now
            (λ before u. Shaped (pages_on (H.outside host.old) self.old)
            (pages_on (H.outside host.new) self.new) u oid)) }
        ensures only { DiskOnly (H.outside host.old) (H.outside host.new) }
        ensures writes { WritesUnused (H.outside host.old) (H.outside host.new) self.old }
        ensures any_moment { (before : View SessionState) → before.session ≡ self.old
            → ShowsNow meant (H.outside host.old) before → (r : Request)
            → Leaves (H.outside host.old) (H.outside host.new)
            (StandsDuring meant before.machine r) }
        ensures geometry { self.new.geometry ≡ self.old.geometry }
        ensures log { self.new.log ≡ self.old.log }
        ensures down { self.new.down ≡ self.old.down }
        ensures scans { self.new.scans ≡ self.old.scans }
        ensures given_up { OnErr result (GivenUp self.new) }
        ensures stops { IfErr result (LineStops (H.outside host.old) (H.outside host.new)) }
        ensures damage { IsTrue (H.outside host.old).honest
            → IfErr result (TellsFor (H.outside host.old) (H.outside host.new)
            self.old (asked_of (used_at self.old.units) (free_in self.old) update.now)) }
        ensures sound { IfErr result (λ why. IfUpdated (H.outside host.old) self.old update.now
            (λ before u. HasRoomFor before u → IsOutside why)) }
    {
        let done = update_volume(
            alloc,
            host,
            &mut self.volume,
            &mut self.room,
            &mut self.gained,
            &mut self.lost,
            &mut self.rooms,
            update,
        );
        let noted = noted(note, &done);
        if done.is_ok() && self.notes.push(noted).is_ok() {
            return Ok(noted.oid);
        }
        let volume = &mut self.volume;
        take_back(
            &volume.meta,
            &mut volume.units,
            &mut volume.pages,
            &volume.kept,
        );
        volume.meta.undo();
        self.gained.clear();
        self.lost.clear();
        self.rooms.forget();
        self.phase = Phase::Idle;
        match done {
            Ok(_) => Err(Stop::Memory),
            Err(fault) => Err(stopped(fault)),
        }
    }
}
