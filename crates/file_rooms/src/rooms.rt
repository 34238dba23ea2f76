//! What is remembered of the room of files.
ghost use Rattle.std.specs.Prelude.{◌≡◌, ◌≤◌, ◌⊎◌, false, length, nat_lt, if◌then◌else◌, slice_index_or, IfOk, IfErr, IfSome, IfNone, OnOk, OnErr};
ghost use Rattle.ex_base.specs.Ports.{Keeps, HasCause, IsDamage};
ghost use Rattle.slotted_pages.specs.Edits.{vacant_at};
ghost use Rattle.slotted_pages.specs.Reads.{IsPage, page_on};
ghost use Rattle.file_rooms.specs.Rooms.{behind_all, has_room, is_in, Marks, IsRefused};

use ex_base::{PageNo, PortFault, Volume};
use file_bodies::Room;
use indexmap::IndexMap;
use object_records::LARGE_LEN;
use page_alloc::Filled;
use slotted_pages::SlottedView;
use std::alloc::{AllocError, Global};
use std::collections::BTreeSet;
use std::marker::Model;

/// A page of a file.
#[derive(Clone, Copy, Debug, PartialEq, Eq, PartialOrd, Ord)]
pub struct FilePage {
    pub file_no: u32,
    pub page: PageNo,
}

/// What a caller remembers of the room of files, so that a new object is looked a place for on the
/// lowest page that has one, whatever pages are full below or behind it. Whatever is remembered, an
/// update makes the same of the table.
///
/// Contracts see all that is remembered. It is true of a volume (`AreTrue`) where each page of a file
/// that has room for the record of a new object is roomy, or stands from the place on that is
/// remembered of the file. What is remembered of copies is a hint.
#[derive(Drop)]
pub struct Rooms {
    rooms: IndexMap<u32, Room>,
    /// Of each file what is known for records as long as that of its last copy.
    copies: IndexMap<u32, Room>,
    /// The pages that may have room for the record of a new object.
    roomy: BTreeSet<FilePage>,
    /// The pages on which the open transaction put, changed or removed a record.
    changed: BTreeSet<FilePage>,
}

impl Model for Rooms {
    ghost use Rattle.file_rooms.specs.Rooms.{Remembered};

    ghost Value = { Remembered };

    ghost view = { λ r. record { rooms = r.rooms.entries; copies = r.copies.entries; roomy = r.roomy.keys; changed = r.changed.keys } };
}

/// A place behind all pages: no page of a file from there on has room.
const BEHIND_ALL: PageNo = PageNo(u32::MAX);

/// The bytes of the field of a slot, which a page gets for a body where no slot of it is vacant.
const FIELD_LEN: usize = 4;

/// Whether a slot of a page is vacant.
fn has_vacant(view: &SlottedView<'_>) -> bool
    ensures { result ≡ nat_lt (vacant_at view.now.page.slots) (length view.now.page.slots) }
{
    let slots = view.slots();
    let mut slot = 0;
    'slots: while slot < slots {
        if view.body(slot).is_none() {
            return true;
        }
        slot += 1;
    }
    false
}

/// The file of a page, and whether the page has room for the record of a new object; none where it
/// isn't the page of a file.
fn told_by(page: &[u8]) -> Option<(u32, bool)>
    ensures file { IfSome result (λ told. IsPage page.now
        × ((page_on page.now).file_no ≡ told.0)) }
    ensures fits { IfSome result (λ told. told.1 ≡ has_room (length page.now) page.now) }
    ensures none { IfNone result (IsPage page.now → ⊥) }
{
    let view = SlottedView::of(page)?;
    let room = view.room() as usize;
    let fits = room >= LARGE_LEN + FIELD_LEN || (room >= LARGE_LEN && has_vacant(&view));
    Some((view.file_no(), fits))
}

/// Whether the committed state has a page.
fn has(kept: &Filled<bool>, page: PageNo) -> bool
    ensures { result ≡ is_in kept.now page.0 }
{
    let at = page.0 as usize;
    at < kept.len() && kept.get(at)
}

/// Below which place a file has no room but on roomy pages, once a record was put onto a page that grew
/// it or onto one that it had.
fn place_behind(page: PageNo, grew: bool) -> PageNo
    ensures { result.0 ≡ (if grew then behind_all else page.0) }
{
    if grew { BEHIND_ALL } else { page }
}

/// A page becomes one of some pages, or none of them. Only the first may want memory.
fn mark(pages: &mut BTreeSet<FilePage>, page: FilePage, is: bool) -> Result<(), AllocError>
    ensures marked { OnOk result (Marks pages.old.keys pages.new.keys page is) }
    ensures refused { OnErr result (IsRefused pages.old.keys pages.new.keys page is) }
{
    if is {
        pages.insert(page)?;
    } else {
        pages.remove(&page);
    }
    Ok(())
}

impl Rooms {
    ghost use Rattle.std.specs.Prelude.{[], nat_eq, ◌↔◌, Contains};
    ghost use Rattle.std.specs.Map.{lookup};
    ghost use Rattle.indexmap.specs.IndexMap.{insert_entry};
    ghost use Rattle.file_rooms.specs.declared.rooms.FilePage.{FilePage};
    ghost use Rattle.file_rooms.specs.Rooms.{nothing, room_of, lowered_copies, IsLowestOf, IsLookedFrom, IsCopyLookedFrom, IsPassed, GetsRoom, with_place, IsKept, IsNoted, IsUnnoted, IsLookedAt, GoesBack, IsLost};

    /// Nothing is remembered.
    pub fn new(alloc: Global) -> Rooms
        ensures { result ≡ nothing }
    {
        Rooms {
            rooms: IndexMap::new(alloc),
            copies: IndexMap::new(alloc),
            roomy: BTreeSet::new(alloc),
            changed: BTreeSet::new(alloc),
        }
    }

    /// What is remembered of a file, but for its roomy pages.
    fn room(&self, file_no: u32) -> Room
        ensures { result ≡ room_of self.now.rooms file_no }
    {
        match self.rooms.get(&file_no) {
            Some(room) => Room {
                file_no,
                from: room.from,
                len: room.len,
            },
            None => Room::of_file(file_no),
        }
    }

    /// The lowest roomy page of a file.
    fn lowest(&self, file_no: u32) -> Option<PageNo>
        ensures { IsLowestOf self.now.roomy file_no result }
    {
        let first = FilePage {
            file_no,
            page: PageNo(0),
        };
        match self.roomy.range(first..).next() {
            Some(roomy) if roomy.file_no == file_no => Some(roomy.page),
            _ => None,
        }
    }

    /// Where a new object is looked a place for in a file: from its lowest roomy page on, or from
    /// where none was looked for yet.
    pub fn of_file(&self, file_no: u32) -> Room
        ensures file { result.file_no ≡ file_no }
        ensures looked { IsLookedFrom self.now file_no result }
    {
        let mut room = self.room(file_no);
        if let Some(page) = self.lowest(file_no) {
            room.lower(page);
        }
        room
    }

    /// Where the copy of a version is looked a place for in a file: as for the last copy.
    pub fn of_copy(&self, file_no: u32) -> Room
        ensures file { result.file_no ≡ file_no }
        ensures looked { IsCopyLookedFrom self.now file_no
            (lookup (nat_eq file_no) self.now.copies) result }
    {
        match self.copies.get(&file_no) {
            Some(room) => Room {
                file_no,
                from: room.from,
                len: room.len,
            },
            None => self.of_file(file_no),
        }
    }

    /// Remembers where the record of a new object was put that was looked a place for from `asked` on: on
    /// a page that `grew` its file, or on one that the file had. A roomy page that wasn't taken is none.
    /// Where the file grew, no other page of it has room.
    pub fn keep(&mut self, asked: &Room, page: PageNo, grew: bool)
        ensures { IsKept self.old asked.now page.0 grew self.new }
    {
        self.pass(asked, page);
        self.raise(asked.file_no, place_behind(page, grew));
    }

    /// A page from which a place was looked for isn't roomy where it wasn't taken.
    fn pass(&mut self, asked: &Room, taken: PageNo)
        ensures roomy { (page : FilePage) → Contains self.new.roomy page
            ↔ (Contains self.old.roomy page × (IsPassed asked.now taken.0 page → ⊥)) }
        ensures others { self.new ≡ record self.old { roomy = self.new.roomy } }
    {
        if asked.from != taken {
            self.roomy.remove(&FilePage {
                file_no: asked.file_no,
                page: asked.from,
            });
        }
    }

    /// No page of a file below a place has room but for roomy ones.
    fn raise(&mut self, file_no: u32, from: PageNo)
        ensures rooms { GetsRoom self.old.rooms
            (with_place self.old.rooms file_no from.0) file_no self.new.rooms }
        ensures others { self.new ≡ record self.old { rooms = self.new.rooms } }
    {
        let known = self.room(file_no);
        if known.from < from {
            let raised = Room {
                file_no,
                from,
                len: LARGE_LEN as u32,
            };
            let _ = self.rooms.insert(file_no, raised);
        }
    }

    /// Remembers where the copy of a version was put.
    #[tactic(auto, using(crate::proofs::Kept::gets_room))]
    pub fn keep_copy(&mut self, room: Room)
        ensures copies { GetsRoom self.old.copies
            (insert_entry nat_eq self.old.copies room.file_no room) room.file_no self.new.copies }
        ensures others { self.new ≡ record self.old { copies = self.new.copies } }
    {
        let _ = self.copies.insert(room.file_no, room);
    }

    /// Looks at a page on which a record was put, changed or removed, and hands on what was done. A page
    /// with room for the record of a new object is roomy from now on, another isn't. It stops where the
    /// disk fails and where memory is wanted.
    #[tactic(auto, using(crate::proofs::Looked::looked_outside, crate::proofs::Looked::looked_no_page, crate::proofs::Looked::looked_noted))]
    pub fn look_at<V: Volume, T: Drop>(
        &mut self,
        volume: &mut V,
        alloc: Global,
        page: PageNo,
        done: T,
    ) -> Result<T, PortFault>
        requires { V.ready volume.old }
        ensures same { IfOk result (λ looked. looked ≡ done) }
        ensures looked { IfOk result (λ looked. V.tells volume.old
            → IsLookedAt V.Ground volume.old page.0 self.old self.new) }
        ensures unlooked { OnErr result (IsUnnoted page.0 self.old self.new) }
        ensures rooms { self.new.rooms ≡ self.old.rooms }
        ensures no_damage { IfErr result (λ fault. IsDamage fault → ⊥) }
        ensures kept { Keeps V.Ground volume.old volume.new }
        ensures cause { HasCause (V.faults volume.old) (V.faults volume.new) result }
    {
        if !volume.in_area(page) {
            return Ok(done);
        }
        let held = volume.has(page);
        if let Some((file_no, fits)) = told_by(volume.get(alloc, page)?) {
            self.note(FilePage { file_no, page }, held & fits)?;
        }
        Ok(done)
    }

    /// Notes a page that the open transaction changed, and whether it is roomy now.
    fn note(&mut self, page: FilePage, roomy: bool) -> Result<(), AllocError>
        ensures noted { OnOk result (IsNoted page roomy self.old self.new) }
        ensures unnoted { OnErr result (IsUnnoted page.page.0 self.old self.new) }
    {
        self.changed.insert(page)?;
        if roomy {
            self.roomy.insert(page)?;
            self.lower_copies(page);
        } else {
            self.roomy.remove(&page);
        }
        Ok(())
    }

    /// A copy is looked a place for from this page on, where it would have been from behind it.
    fn lower_copies(&mut self, roomy: FilePage)
        ensures { self.new ≡ record self.old {
          copies = lowered_copies self.old.copies roomy;
        } }
    {
        if let Some(room) = self.copies.get(&roomy.file_no) {
            if roomy.page < room.from {
                let mut lowered = *room;
                lowered.lower(roomy.page);
                let _ = self.copies.insert(roomy.file_no, lowered);
            }
        }
    }

    /// The pages stay as the transaction left them.
    pub fn settle(&mut self)
        ensures { self.new ≡ record self.old { changed = [] } }
    {
        self.changed.clear();
    }

    /// The pages go back to what they were before the transaction: each that it changed may have room,
    /// where `kept` says of its number that the committed state has it.
    #[tactic(auto, using(crate::proofs::GoingBack::begins, crate::proofs::GoingBack::goes_on, crate::proofs::GoingBack::goes_lost, crate::proofs::GoingBack::gone_back, crate::proofs::GoingBack::lost_all))]
    pub fn go_back(&mut self, kept: &Filled<bool>)
        ensures { GoesBack kept.now self.old self.new ⊎ IsLost kept.now self.old self.new }
    {
        self.copies.clear();
        let mut is_lost = false;
        'pages: while let Some(page) = self.changed.pop_first() {
            match mark(&mut self.roomy, page, has(kept, page.page)) {
                Ok(()) => {}
                Err(_) => is_lost = true,
            }
        }
        if is_lost {
            self.forget();
        }
    }

    /// Forgets all, as where the working state is lost.
    pub fn forget(&mut self)
        ensures { self.new ≡ nothing }
    {
        self.rooms.clear();
        self.copies.clear();
        self.roomy.clear();
        self.changed.clear();
    }
}
