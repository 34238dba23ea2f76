//! A body that is put into a file.
ghost use Rattle.std.specs.Prelude.{◌≡◌, ◌≤◌, ◌+◌, ℕ, true, false, length, None, IfOk, IfErr, IfSome, IfNone, OnOk, OnErr};
ghost use Rattle.ex_base.specs.declared.names.Area.TheVariants.{Page, Segment};
ghost use Rattle.ex_base.specs.Ports.{Keeps, HasCause, IsDamage};
ghost use Rattle.ex_base.specs.declared.names.Index.{Index};
ghost use Rattle.file_index.specs.Index.{IsFilesPage};
ghost use Rattle.file_index.specs.Taking.{OnlyTakes};
ghost use Rattle.file_index.specs.Touches.{TouchesAtMost};
ghost use Rattle.file_bodies.specs.Touches.{body_touches, body_pages};
ghost use Rattle.file_bodies.specs.Files.{HasFile, EditsFile};
ghost use Rattle.file_bodies.specs.declared.placing.Room.{Room};
ghost use Rattle.ex_base.specs.declared.names.Place.{Place};
ghost use Rattle.slotted_pages.specs.FilePage.{Slot};
ghost use Rattle.file_bodies.specs.Damage.{IsLook, IsLookFault, IsPlacing, IsPlacingFault, page_in, IsListedFault, HasListed};
ghost use Rattle.file_bodies.specs.Indexes.{IsUsable};
ghost use Rattle.file_bodies.specs.Places.{IsRoom, NoRoom, PlacesBody, PutsBody};
ghost use Rattle.file_bodies.specs.Placing.{IsPlaced, NoneFrom, start_of, lowered_to};

use crate::catalog::{change_index, index_of};
use crate::page::load_page;
use ex_base::{Index, PageNo, Pages, Place, PortFault, ReadPages};
use file_index::{add, at_least, page_buffer};
use slotted_pages::{empty_page, insert_body};
use std::alloc::Global;

/// What a caller remembers of a file, so that a new body is placed without a look at all of its pages: no page below `from` has room for a body of `len`
/// bytes. It saves reads where bodies of `len` bytes or more are placed.
#[derive(Clone, Copy, Debug, PartialEq, Eq)]
pub struct Room {
    pub file_no: u32,
    pub from: PageNo,
    pub len: u32,
}

impl Room {
    /// What is known of every file.
    pub fn of_file(file_no: u32) -> Room
        ensures { result ≡ record { file_no = file_no; from = record { 0 = 0 }; len = 0 } }
    {
        Room {
            file_no,
            from: PageNo(0),
            len: 0,
        }
    }

    /// What is left of it once a body was put, changed or taken out at a place on a page.
    pub fn lower(&mut self, page: PageNo)
        ensures { self.new ≡ lowered_to self.old page.0 }
    {
        if page < self.from {
            self.from = page;
        }
    }

    /// The page from which a body of a length is looked for.
    fn start(&self, len: usize) -> u32
        ensures { result ≡ start_of self.now len }
    {
        if len >= self.len as usize {
            self.from.0
        } else {
            0
        }
    }
}

/// Once a place of a file was edited, what was known of the file's room is still true when it is lowered to the place's page.
pub fn a_lowered_room_stays_true<P: ReadPages>()
    ensures { (old new : P) (before after : Index) (place : Place) (was is : Slot) (room : Room)
        → EditsFile P.Ground old new before after place was is → IsRoom P.Ground old before room
        → IsRoom P.Ground new after (lowered_to room place.page.0) }
{}

/// Reads the lowest page from a number on that has room for a body, and puts it into the page's image. None exactly where no page has.
fn put_in_room<P: Pages>(
    pages: &mut P,
    alloc: Global,
    index: &Index,
    from: u32,
    body: &[u8],
    image: &mut [u8],
) -> Result<Option<Place>, PortFault>
    requires ready { P.ready pages.old }
    requires usable { IsUsable index.now.file_no index.now }
    requires some { 1 ≤ length body.now }
    requires image { length image.old ≡ (P.geometry pages.old).page_size }
    ensures placed { IfOk result (λ found. P.tells pages.old → HasFile P.Ground pages.old index.now
        → IfSome found (λ place. IsPlaced P.Ground pages.old index.now from body.now place image.new)) }
    ensures area { IfOk result
        (λ found. IfSome found (λ place. IsFilesPage (P.geometry pages.old) place.page.0)) }
    ensures held { IfOk result
        (λ found. IfSome found (λ place. P.held pages.old place.page.0 ≡ true)) }
    ensures none { IfOk result (λ found. IfNone found (P.tells pages.old
        → HasFile P.Ground pages.old index.now
        → NoneFrom P.Ground pages.old index.now (length body.now) from)) }
    ensures sound { IfErr result (λ fault. IsDamage fault → P.tells pages.old
        → HasFile P.Ground pages.old index.now → ⊥) }
    ensures fault { IfErr result (λ fault. P.tells pages.old
        → IsLookFault (P.geometry pages.old) (P.held pages.old)
        (P.image pages.old) index.now from fault) }
    ensures way { IfOk result (λ found. P.tells pages.old
        → IsLook (P.geometry pages.old) (P.image pages.old) index.now from (page_in found)) }
    ensures kept { Keeps P.Ground pages.old pages.new }
    ensures cause { HasCause (P.faults pages.old) (P.faults pages.new) result }
{
    let mut key = from;
    'searched: loop {
        let page = match at_least(pages, alloc, index, PageNo(key)) {
            Ok(None) => return Ok(None),
            Ok(Some(page)) => page,
            Err(fault) => return Err(fault),
        };
        match load_page(pages, alloc, page, index.file_no, image) {
            Ok(()) => {}
            Err(fault) => return Err(fault),
        }
        match insert_body(image, body) {
            Some(slot) => return Ok(Some(Place { page, slot })),
            None => {}
        }
        key = page.0 + 1;
    }
}

/// Puts a body onto a new page of a file.
fn put_on_new_page<P: Pages>(
    pages: &mut P,
    alloc: Global,
    index: &Index,
    body: &[u8],
    image: &mut [u8],
) -> Result<Place, PortFault>
    requires ready { P.ready pages.old }
    requires usable { IsUsable index.now.file_no index.now }
    requires some { 1 ≤ length body.now }
    requires fits { length body.now + 20 ≤ (P.geometry pages.old).page_size }
    requires free { body_pages ≤ P.free pages.old Page }
    requires image { length image.old ≡ (P.geometry pages.old).page_size }
    ensures placed { IfOk result (λ place. P.tells pages.old → HasFile P.Ground pages.old index.now
        → NoneFrom P.Ground pages.old index.now (length body.now) 0
        → PlacesBody P.Ground pages.old pages.new index.now place body.now) }
    ensures puts { IfOk result (λ place. P.tells pages.old → HasFile P.Ground pages.old index.now
        → PutsBody P.Ground pages.old pages.new index.now place body.now) }
    ensures fresh { IfOk result (λ place. P.held pages.old place.page.0 ≡ false) }
    ensures free { OnOk result (P.free pages.old Page ≤ P.free pages.new Page + body_pages) }
    ensures takes { OnOk result (OnlyTakes P.Ground pages.old pages.new) }
    ensures sound { IfErr result (λ fault. IsDamage fault → P.tells pages.old
        → HasFile P.Ground pages.old index.now → ⊥) }
    ensures fault { IfErr result (λ fault. P.tells pages.old → (from : ℕ)
        → IsPlacingFault (P.geometry pages.old) (P.held pages.old)
        (P.image pages.old) index.now from fault) }
    ensures way { IfOk result (λ place. P.tells pages.old → (from : ℕ)
        → IsLook (P.geometry pages.old) (P.image pages.old) index.now from None
        → IsPlacing (P.geometry pages.old) (P.image pages.old) index.now from place.page) }
    ensures leaves { OnOk result (P.free pages.new Segment ≡ P.free pages.old Segment) }
    ensures touches { OnOk result (TouchesAtMost P.Ground pages.old pages.new body_touches) }
    ensures leads { P.leads pages.old pages.new }
    ensures cause { HasCause (P.faults pages.old) (P.faults pages.new) result }
{
    empty_page(image, index.file_no);
    insert_body(image, body);
    let page = match pages.take_page(alloc, image) {
        Ok(page) => page,
        Err(fault) => return Err(fault),
    };
    let added = match add(pages, alloc, index, page) {
        Ok(added) => added,
        Err(fault) => return Err(fault),
    };
    match change_index(pages, alloc, index, &added, image) {
        Ok(()) => Ok(Place { page, slot: 0 }),
        Err(fault) => Err(fault),
    }
}

/// Puts a body onto the lowest page from a number on that has room for it, else onto a new page, by way of an image.
fn place_by<P: Pages>(
    pages: &mut P,
    alloc: Global,
    index: &Index,
    from: u32,
    body: &[u8],
    image: &mut [u8],
) -> Result<Place, PortFault>
    requires ready { P.ready pages.old }
    requires usable { IsUsable index.now.file_no index.now }
    requires some { 1 ≤ length body.now }
    requires fits { length body.now + 20 ≤ (P.geometry pages.old).page_size }
    requires free { body_pages ≤ P.free pages.old Page }
    requires image { length image.old ≡ (P.geometry pages.old).page_size }
    ensures placed { IfOk result (λ place. P.tells pages.old → HasFile P.Ground pages.old index.now
        → NoRoom P.Ground pages.old index.now (length body.now) 0 from
        → PlacesBody P.Ground pages.old pages.new index.now place body.now) }
    ensures puts { IfOk result (λ place. P.tells pages.old → HasFile P.Ground pages.old index.now
        → PutsBody P.Ground pages.old pages.new index.now place body.now) }
    ensures free { OnOk result (P.free pages.old Page ≤ P.free pages.new Page + body_pages) }
    ensures grows { IfOk result (λ place. P.held pages.old place.page.0 ≡ true
        → P.free pages.new ≡ P.free pages.old) }
    ensures takes { OnOk result (OnlyTakes P.Ground pages.old pages.new) }
    ensures sound { IfErr result (λ fault. IsDamage fault → P.tells pages.old
        → HasFile P.Ground pages.old index.now → ⊥) }
    ensures fault { IfErr result (λ fault. P.tells pages.old
        → IsPlacingFault (P.geometry pages.old) (P.held pages.old)
        (P.image pages.old) index.now from fault) }
    ensures way { IfOk result (λ place. P.tells pages.old
        → IsPlacing (P.geometry pages.old) (P.image pages.old) index.now from place.page) }
    ensures leaves { OnOk result (P.free pages.new Segment ≡ P.free pages.old Segment) }
    ensures touches { OnOk result (TouchesAtMost P.Ground pages.old pages.new body_touches) }
    ensures leads { P.leads pages.old pages.new }
    ensures cause { HasCause (P.faults pages.old) (P.faults pages.new) result }
{
    let place = match put_in_room(pages, alloc, index, from, body, image) {
        Ok(None) => return put_on_new_page(pages, alloc, index, body, image),
        Ok(Some(place)) => place,
        Err(fault) => return Err(fault),
    };
    match pages.put(alloc, place.page, image) {
        Ok(()) => Ok(place),
        Err(fault) => Err(fault),
    }
}

/// Puts a body onto the lowest page from a number on that has room for it, else onto a new page.
fn place_from<P: Pages>(
    pages: &mut P,
    alloc: Global,
    index: &Index,
    from: u32,
    body: &[u8],
) -> Result<Place, PortFault>
    requires ready { P.ready pages.old }
    requires usable { IsUsable index.now.file_no index.now }
    requires some { 1 ≤ length body.now }
    requires fits { length body.now + 20 ≤ (P.geometry pages.old).page_size }
    requires free { body_pages ≤ P.free pages.old Page }
    ensures placed { IfOk result (λ place. P.tells pages.old → HasFile P.Ground pages.old index.now
        → NoRoom P.Ground pages.old index.now (length body.now) 0 from
        → PlacesBody P.Ground pages.old pages.new index.now place body.now) }
    ensures puts { IfOk result (λ place. P.tells pages.old → HasFile P.Ground pages.old index.now
        → PutsBody P.Ground pages.old pages.new index.now place body.now) }
    ensures free { OnOk result (P.free pages.old Page ≤ P.free pages.new Page + body_pages) }
    ensures grows { IfOk result (λ place. P.held pages.old place.page.0 ≡ true
        → P.free pages.new ≡ P.free pages.old) }
    ensures takes { OnOk result (OnlyTakes P.Ground pages.old pages.new) }
    ensures sound { IfErr result (λ fault. IsDamage fault → P.tells pages.old
        → HasFile P.Ground pages.old index.now → ⊥) }
    ensures fault { IfErr result (λ fault. P.tells pages.old
        → IsPlacingFault (P.geometry pages.old) (P.held pages.old)
        (P.image pages.old) index.now from fault) }
    ensures way { IfOk result (λ place. P.tells pages.old
        → IsPlacing (P.geometry pages.old) (P.image pages.old) index.now from place.page) }
    ensures leaves { OnOk result (P.free pages.new Segment ≡ P.free pages.old Segment) }
    ensures touches { OnOk result (TouchesAtMost P.Ground pages.old pages.new body_touches) }
    ensures leads { P.leads pages.old pages.new }
    ensures cause { HasCause (P.faults pages.old) (P.faults pages.new) result }
{
    match page_buffer(pages, alloc) {
        Ok(mut image) => place_by(pages, alloc, index, from, body, &mut image),
        Err(fault) => Err(fault),
    }
}

/// Puts a body into a file: onto its lowest page that has room for it, in the lowest vacant slot, else onto a page that it takes. The file is that of
/// `room`, which then says what is known of the file for as long a body. Where `room` wasn't true of the file, the body comes onto some page with room, or
/// onto a new one. No page is taken where its page was there before.
pub fn place_body<P: Pages>(
    pages: &mut P,
    alloc: Global,
    room: &mut Room,
    body: &[u8],
) -> Result<Place, PortFault>
    requires ready { P.ready pages.old }
    requires some { 1 ≤ length body.now }
    requires fits { length body.now + 20 ≤ (P.geometry pages.old).page_size }
    requires free { body_pages ≤ P.free pages.old Page }
    ensures placed { IfOk result (λ place. P.tells pages.old → (index : Index)
        → HasFile P.Ground pages.old index → index.file_no ≡ room.old.file_no
        → IsRoom P.Ground pages.old index room.old
        → PlacesBody P.Ground pages.old pages.new index place body.now) }
    ensures anywhere { IfOk result (λ place. P.tells pages.old → (index : Index)
        → HasFile P.Ground pages.old index → index.file_no ≡ room.old.file_no
        → PutsBody P.Ground pages.old pages.new index place body.now) }
    ensures room { IfOk result (λ place. room.new
        ≡ record { file_no = room.old.file_no; from = place.page; len = length body.now }) }
    ensures unplaced { OnErr result (room.new ≡ room.old) }
    ensures free { OnOk result (P.free pages.old Page ≤ P.free pages.new Page + body_pages) }
    ensures grows { IfOk result (λ place. P.held pages.old place.page.0 ≡ true
        → P.free pages.new ≡ P.free pages.old) }
    ensures takes { OnOk result (OnlyTakes P.Ground pages.old pages.new) }
    ensures sound { IfErr result (λ fault. IsDamage fault → P.tells pages.old → (index : Index)
        → HasFile P.Ground pages.old index → index.file_no ≡ room.old.file_no → ⊥) }
    ensures fault { IfErr result (λ fault. P.tells pages.old
        → IsListedFault (P.image pages.old) room.old.file_no
        (λ index. IsPlacingFault (P.geometry pages.old) (P.held pages.old) (P.image pages.old) index
        (start_of room.old (length body.now)) fault) fault) }
    ensures way { IfOk result (λ place. P.tells pages.old
        → HasListed (P.image pages.old) room.old.file_no
        (λ index. IsPlacing (P.geometry pages.old) (P.image pages.old) index
        (start_of room.old (length body.now)) place.page)) }
    ensures leaves { OnOk result (P.free pages.new Segment ≡ P.free pages.old Segment) }
    ensures touches { OnOk result (TouchesAtMost P.Ground pages.old pages.new body_touches) }
    ensures leads { P.leads pages.old pages.new }
    ensures cause { HasCause (P.faults pages.old) (P.faults pages.new) result }
{
    let index = match index_of(pages, alloc, room.file_no) {
        Ok(index) => index,
        Err(fault) => return Err(fault),
    };
    let from = room.start(body.len());
    match place_from(pages, alloc, &index, from, body) {
        Ok(place) => {
            room.from = place.page;
            room.len = body.len() as u32;
            Ok(place)
        }
        Err(fault) => Err(fault),
    }
}
