//! The port of a session.
ghost use Rattle.std.specs.Prelude.{◌≡◌};

use crate::logged::LoggedPages;
use crate::room::PageRoom;
use disk_model::Disk;
use meta_pages::Meta;
use tree_store::Store;

/// A store of tree pages with the logged pages over it, all lent for as long as the port lives. Logged pages are read and changed as the open
/// transaction has them. It writes no logged page to the disk, and of the disk nothing but units that it takes.
#[derive(Drop)]
pub struct VolumePort<'a, D: Disk> {
    pub store: Store<'a, D>,
    pub meta: &'a mut Meta,
    pub pages: &'a mut LoggedPages,
    /// Room for a copy of a page, which no call fills.
    pub room: &'a mut PageRoom,
}

impl<'a, D: Disk> VolumePort<'a, D> {
    /// A port over these parts.
    pub fn make(
        store: Store<'a, D>,
        meta: &'a mut Meta,
        pages: &'a mut LoggedPages,
        room: &'a mut PageRoom,
    ) -> VolumePort<'a, D>
        ensures store { result.store ≡ store.entry }
        ensures meta { result.meta.ghost_name ≡ meta.entry.ghost_name }
        ensures meta_is { result.meta.now ≡ meta.old }
        ensures pages { result.pages.ghost_name ≡ pages.entry.ghost_name }
        ensures pages_is { result.pages.now ≡ pages.old }
        ensures room { result.room.ghost_name ≡ room.entry.ghost_name }
        ensures room_is { result.room.now ≡ room.old }
    {
        VolumePort {
            store,
            meta,
            pages,
            room,
        }
    }
}
