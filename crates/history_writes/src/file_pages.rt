//! The pages of the file at hand.
ghost use Rattle.std.specs.Prelude.{◌≡◌, ◌↔◌, ◌≤◌, ◌<◌, ◌+◌, suc, min, length, [], IfOk, OnOk, OnErr, IsTrue};
ghost use Rattle.disk_model.specs.Changes.{ChangesWithin};
ghost use Rattle.disk_model.specs.Outside.{Outside, Rose};
ghost use Rattle.ex_base.specs.Area.{area_end, catalog_no};
ghost use Rattle.ex_base.specs.Sizes.{volume_bytes};
ghost use Rattle.object_records.specs.Record.{BodyOf, Record};
ghost use Rattle.slotted_pages.specs.FilePage.{SlotsOf};
ghost use Rattle.slotted_pages.specs.Edits.{place_for, slots_of};
ghost use Rattle.slotted_pages.specs.Reads.{IsPage};
ghost use Rattle.history_writes.specs.Places.{InPagesFrom};

use disk_model::{Disk, Failed};
use ex_base::{Geometry, PageNo, Place};
use slotted_pages::{SlottedView, empty_page, insert_body};

/// Whether a page has a slot.
fn has_slots(page: &[u8]) -> bool
    requires { IsPage page.now }
    ensures { IsTrue result ↔ (1 ≤ length (slots_of page.now)) }
{
    match SlottedView::of(page) {
        Some(view) => view.slots() > 0,
        None => false,
    }
}

/// Where the records of the file at hand go: to pages in a row, of which all but the last one are written.
#[derive(Drop)]
pub struct FilePages {
    /// The number of the file.
    pub file_no: u32,
    /// The first of its pages.
    pub first: u32,
    /// How many of them are written.
    pub written: u32,
    /// The page behind these, which isn't written.
    pub page: Vec<u8>,
}

impl FilePages {
    ghost use Rattle.history_writes.specs.Laid.{AreLaid, ClosesFile, IsAsBefore, IsDense, IsLastPlace, LaysRecord, LeavesPage, SameFile, slots_after, written_after};
    ghost use Rattle.trees.specs.Trees.{Units};

    /// Begins a file, whose pages are those from one on.
    pub fn begin(&mut self, file_no: u32, first: u32)
        requires page { (16 ≤ length self.old.page.items) × (length self.old.page.items ≤ 8192) }
        ensures laid { (units : Units) → AreLaid units self.new [] }
        ensures page { IsDense self.new.page.items }
        ensures written { self.new.written ≡ 0 }
        ensures file { self.new.file_no ≡ file_no }
        ensures first { self.new.first ≡ first }
        ensures size { length self.new.page.items ≡ length self.old.page.items }
    {
        self.file_no = file_no;
        self.first = first;
        self.written = 0;
        empty_page(&mut self.page, file_no);
    }

    /// The page that isn't written.
    fn last_page(&self) -> PageNo
        requires { self.now.first + self.now.written < 4294967296 }
        ensures { result.0 ≡ self.now.first + self.now.written }
    {
        PageNo(self.first + self.written)
    }

    /// Writes the page that isn't written, and begins the one behind it.
    fn leave_page<D: Disk>(&mut self, disk: &mut D, geometry: &Geometry) -> Result<(), Failed>
        requires room { volume_bytes geometry.now ≤ (D.outside disk.old).size }
        requires size { length self.old.page.items ≡ geometry.now.page_size }
        requires behind { catalog_no ≤ self.old.first }
        requires there { self.old.first + self.old.written < area_end geometry.now }
        requires some { 1 ≤ length (slots_of self.old.page.items) }
        ensures left { OnOk result (LeavesPage geometry.now (D.outside disk.old)
            (D.outside disk.new) self.old self.new) }
        ensures written { OnOk result (self.new.written ≡ suc self.old.written) }
        ensures empty { OnOk result (SlotsOf self.new.page.items (record {
          file_no = self.old.file_no;
          slots = [];
        })) }
        ensures file { SameFile self.old self.new }
        ensures failed { OnErr result (IsAsBefore self.old self.new) }
        ensures changes { ChangesWithin (InPagesFrom geometry.now self.old.first)
            (D.outside disk.old) (D.outside disk.new) }
        ensures cause { OnErr result (Rose (D.outside disk.old).disk_faults
            (D.outside disk.new).disk_faults) }
    {
        disk.write(geometry.home(self.last_page()), &self.page)?;
        self.written += 1;
        empty_page(&mut self.page, self.file_no);
        Ok(())
    }

    /// Lays one more record, and answers where it lies.
    pub fn add<D: Disk>(
        &mut self,
        disk: &mut D,
        geometry: &Geometry,
        body: &[u8],
    ) -> Result<Place, Failed>
        requires room { volume_bytes geometry.now ≤ (D.outside disk.old).size }
        requires size { length self.old.page.items ≡ geometry.now.page_size }
        requires behind { catalog_no ≤ self.old.first }
        requires there { self.old.first + self.old.written < area_end geometry.now }
        requires page { IsDense self.old.page.items }
        requires some { 1 ≤ length body.now }
        requires fits { length body.now + 20 ≤ geometry.now.page_size }
        ensures lays { OnOk result ((r : Record) → BodyOf body.now r
            → LaysRecord geometry.now (D.outside disk.old) (D.outside disk.new) self.old self.new r) }
        ensures place { IfOk result (IsLastPlace self.new) }
        ensures written { OnOk result (self.new.written ≡ written_after self.old.written
            (place_for (length self.old.page.items) (slots_of self.old.page.items)
            (length body.now))) }
        ensures slots { OnOk result (slots_of self.new.page.items
            ≡ slots_after (slots_of self.old.page.items) body.now
            (place_for (length self.old.page.items) (slots_of self.old.page.items)
            (length body.now))) }
        ensures page { IsDense self.new.page.items }
        ensures file { SameFile self.old self.new }
        ensures failed { OnErr result (IsAsBefore self.old self.new) }
        ensures changes { ChangesWithin (InPagesFrom geometry.now self.old.first)
            (D.outside disk.old) (D.outside disk.new) }
        ensures cause { OnErr result (Rose (D.outside disk.old).disk_faults
            (D.outside disk.new).disk_faults) }
    {
        if let Some(slot) = insert_body(&mut self.page, body) {
            return Ok(Place {
                page: self.last_page(),
                slot,
            });
        }
        self.leave_page(disk, geometry)?;
        insert_body(&mut self.page, body);
        Ok(Place {
            page: self.last_page(),
            slot: 0,
        })
    }

    /// Writes the last page, if the file has a record.
    pub fn close<D: Disk>(&mut self, disk: &mut D, geometry: &Geometry) -> Result<(), Failed>
        requires room { volume_bytes geometry.now ≤ (D.outside disk.old).size }
        requires size { length self.old.page.items ≡ geometry.now.page_size }
        requires behind { catalog_no ≤ self.old.first }
        requires there { self.old.first + self.old.written < area_end geometry.now }
        requires page { IsDense self.old.page.items }
        ensures closes { OnOk result (ClosesFile geometry.now (D.outside disk.old)
            (D.outside disk.new) self.old self.new) }
        ensures written { OnOk result (self.new.written
            ≡ self.old.written + min 1 (length (slots_of self.old.page.items))) }
        ensures file { SameFile self.old self.new }
        ensures changes { ChangesWithin (InPagesFrom geometry.now self.old.first)
            (D.outside disk.old) (D.outside disk.new) }
        ensures cause { OnErr result (Rose (D.outside disk.old).disk_faults
            (D.outside disk.new).disk_faults) }
    {
        if has_slots(&self.page) {
            self.leave_page(disk, geometry)?;
        }
        Ok(())
    }
}
