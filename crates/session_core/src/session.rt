//! A session, and what it is made of.
mod begin;
mod beside;
mod catalog;
mod commit;
mod counts;
mod digests;
mod groups;
mod moving;
mod objects;
mod opening;
mod phase;
mod pieces;
mod relatives;
mod settle;
mod shapes;
mod tally;
mod turning;

use bound_names::NameMap;
pub use catalog::view_of;
use ex_base::{OpNote, Root};
use file_rooms::Rooms;
pub use objects::Named;
use open_scans::OpenScans;
use phase::Phase;
pub use relatives::Relation;
use std::alloc::Global;
use std::marker::Model;
use table_model::GroupRows;
pub use tally::Tally;
use volume_port::{PageRoom, VolumeState};

/// A session on a volume. Contracts see all that it holds; the machine that it shows is held nowhere.
#[derive(Drop)]
pub struct Session {
    // its volume, as the open transaction has it
    volume: VolumeState,
    // of the page that a port lent last, and no part of what contracts see
    room: PageRoom,
    // of the open transaction's updates
    notes: Vec<OpNote>,
    // roots of trees that the open transaction made, and that the working state has still
    gained: Vec<Root>,
    // roots of the committed state that the open transaction gave up
    lost: Vec<Root>,
    names: NameMap,
    scans: OpenScans,
    // the groups that were made besides `main`
    group_rows: GroupRows,
    // of the working state's files, and no part of what contracts see
    rooms: Rooms,
    // idle, with an open transaction, or down since a step met a fault
    phase: Phase,
}

impl Model for Session {
    ghost use Rattle.session_core.specs.Phases.{is_down, is_open};
    ghost use Rattle.session_core.specs.Sessions.{SessionState, IsSession};

    ghost Value = { SessionState };

    ghost view = { λ s. record { geometry = s.volume.geometry; log = s.volume.log; meta = s.volume.meta; pages = s.volume.pages; kept = s.volume.kept; units = s.volume.units; groups = s.volume.groups; notes = s.notes.items; gained = s.gained.items; lost = s.lost.items; names = s.names; scans = s.scans; group_rows = s.group_rows; opened = is_open s.phase; down = is_down s.phase } };

    ghost invariant = { λ s. IsSession (record { geometry = s.volume.geometry; log = s.volume.log; meta = s.volume.meta; pages = s.volume.pages; kept = s.volume.kept; units = s.volume.units; groups = s.volume.groups; notes = s.notes.items; gained = s.gained.items; lost = s.lost.items; names = s.names; scans = s.scans; group_rows = s.group_rows; opened = is_open s.phase; down = is_down s.phase }) };
}

impl Session {
    ghost use Rattle.std.specs.Prelude.{◌≡◌, ℕ, [], length, All, true};
    ghost use Rattle.ex_base.specs.Area.{area_end, catalog_no};
    ghost use Rattle.tree_store.specs.Stored.{IsCounted};
    ghost use Rattle.page_alloc.specs.UnitSet.{used_at};
    ghost use Rattle.volume_port.specs.Logged.{is_held};
    ghost use Rattle.volume_port.specs.Ported.{IsUsed};
    ghost use Rattle.buffer_groups.specs.Frames.{Frames};
    ghost use Rattle.commits.specs.Room.{IsLogged, AreBehindLog};
    ghost use Rattle.open_scans.specs.GroupRows.{AreGroupsOf};
    ghost use Rattle.session_core.specs.Sessions.{fresh_session};

    /// A session on a volume, with no transaction, no scan and no bound name. The parts of the volume are of one geometry, `main` is the one group, no page
    /// is touched, the catalog is among the logged pages and each of these is used and committed, each committed image has its place in the log, and no frame is
    /// of a page of the log.
    pub fn make(alloc: Global, volume: VolumeState) -> Session
        requires log { volume.log.geometry ≡ volume.geometry }
        requires meta { volume.meta.geometry ≡ volume.geometry }
        requires units { IsCounted volume.geometry volume.units }
        requires held { length volume.pages ≡ area_end volume.geometry }
        requires catalog { is_held volume.pages catalog_no ≡ true }
        requires kept { volume.kept ≡ volume.pages }
        requires in_use { (page : ℕ) → IsUsed (used_at volume.units) volume.pages page }
        requires sizes { All (λ (f : Frames). f.page_size
            ≡ volume.geometry.page_size) volume.groups }
        requires groups { AreGroupsOf [] volume.groups }
        requires untouched { volume.meta.working ≡ [] }
        requires logged { IsLogged volume.log volume.meta }
        requires behind { AreBehindLog volume.groups }
        ensures { result ≡ fresh_session volume }
    {
        Session {
            volume,
            room: PageRoom::new(alloc),
            notes: Vec::new(alloc),
            gained: Vec::new(alloc),
            lost: Vec::new(alloc),
            names: NameMap::new(alloc),
            scans: OpenScans::new(alloc),
            group_rows: GroupRows::make(alloc),
            rooms: Rooms::new(alloc),
            phase: Phase::Idle,
        }
    }
}
