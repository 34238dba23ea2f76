//! The logged pages of a session.
ghost use Rattle.std.specs.Prelude.{◌≡◌, ◌≤◌, ◌<◌, ◌+◌, ◌*◌, ◌^◌, [], ◌∷◌, ℕ, List, length, All, IfOk, OnOk, OnErr, Ok, true, false, Some, None, IsOk, IsSome, IsTrue, MatchResult, nat_eq, option_copied, slice_get, MatchOption, IfSome, if◌then◌else◌, unwrap_or};
ghost use Rattle.std.specs.Borrow.{sem};
ghost use Rattle.std.specs.Map.{lookup};
ghost use Rattle.ex_base.specs.Area.{InPageArea, catalog_no};
ghost use Rattle.ex_base.specs.Sizes.{volume_bytes};
ghost use Rattle.disk_model.specs.Outside.{Outside, ReadsOnly, Rose};
ghost use Rattle.disk_model.specs.Calls.{MakesCalls, MakesAtMost};
ghost use Rattle.disk_model.specs.Changes.{ChangesWithin};
ghost use Rattle.buffer_groups.specs.Frames.{Frames, Brought, NotBrought, KeepsLending, Lends, page_of};
ghost use Rattle.buffer_groups.specs.Groups.{SameKinds};
ghost use Rattle.buffer_groups.specs.Lending.{GroupRests};
ghost use Rattle.buffer_groups.specs.Cause.{HasFetchCause};
ghost use Rattle.page_entries.specs.After.{Applies, said_after};
ghost use Rattle.page_entries.specs.Said.{AreFields, said_on};

use crate::home::write_rows;
use crate::rows::{find_row, image_row, keep_rows, put_row, take_row};
use buffer_groups::{FetchFault, Group, Groups};
use disk_model::{Disk, Failed};
use ex_base::{Geometry, Image, LOG_PAGES, PageNo, TOUCHED_MOST};
use page_entries::{PageEntry, apply_entry, entry_for};
use std::alloc::{AllocError, Global};
use std::marker::Model;

/// The most pages that have a committed image: each of them has an image in the log.
const COMMITTED_MOST: usize = LOG_PAGES as usize;

/// The images over the homes of logged pages: those that commits left and that are not yet written home, and those of the open transaction.
/// Contracts see both as lists of rows in rising order of page numbers; a working row has no image where the transaction gave its page back.
#[derive(Drop)]
pub struct Meta {
    committed: Vec<(u32, Image)>,
    working: Vec<(u32, Option<Image>)>,
    geometry: Geometry,
}

impl Model for Meta {
    ghost use Rattle.std.specs.Prelude.{vec_capacity};
    ghost use Rattle.meta_pages.specs.Overlays.{Overlays, AreKept};

    ghost Value = { Overlays };

    ghost view = { λ m. record { committed = m.committed.items; working = m.working.items; geometry = m.geometry } };

    ghost invariant = { λ m. AreKept m.geometry m.committed.items m.working.items (vec_capacity m.committed) };
}

impl Meta {
    ghost use Rattle.meta_pages.specs.Overlays.{Overlays, AreRows, image_at, committed_image, images_most, touched};
    ghost use Rattle.meta_pages.specs.Rows.{with_row, kept_rows, named, IsRising};
    ghost use Rattle.meta_pages.specs.Entries.{imaged, IsEntryAt};
    ghost use Rattle.meta_pages.specs.Homes.{AreFrom, InHomes, homes_written, homes_forgotten};

    /// No images, and the room for those that the log and a transaction can have.
    pub fn make(alloc: Global, geometry: &Geometry) -> Result<Meta, AllocError>
        ensures { IfOk result
            (λ m. m ≡ record { committed = []; working = []; geometry = geometry.now }) }
    {
        Ok(Meta {
            committed: Vec::with_capacity(alloc, COMMITTED_MOST)?,
            working: Vec::with_capacity(alloc, TOUCHED_MOST as usize)?,
            geometry: *geometry,
        })
    }

    /// Takes over what an entry of the log says of a page, over the committed image that the page has. False exactly where it doesn't apply; then, and
    /// where there is no memory, nothing changes. The opening builds the overlay so.
    pub fn adopt_entry(&mut self, alloc: Global, entry: &PageEntry) -> Result<bool, AllocError>
        requires area { InPageArea self.old.geometry entry.now.page.0 }
        requires fields { AreFields self.old.geometry.page_size entry.now.form entry.now.fields }
        ensures applies { result ≡ Ok true
            → Applies entry.now.page.0 (said_on entry.now.form entry.now.fields)
            (committed_image self.old entry.now.page.0) }
        ensures image { result ≡ Ok true → (p : ℕ) → committed_image self.new p
            ≡ (if nat_eq entry.now.page.0 p then said_after
            (said_on entry.now.form entry.now.fields)
            (committed_image self.old p) else committed_image self.old p) }
        ensures refused { result ≡ Ok false
            → Applies entry.now.page.0 (said_on entry.now.form entry.now.fields)
            (committed_image self.old entry.now.page.0) → ⊥ }
        ensures stays { (result ≡ Ok true → ⊥) → self.new ≡ self.old }
        ensures working { self.new.working ≡ self.old.working }
        ensures geometry { self.new.geometry ≡ self.old.geometry }
    {
        let size = self.geometry.page_size;
        let Some(image) = apply_entry(alloc, entry, self.committed_at(entry.page), size)? else {
            return Ok(false);
        };
        self.adopt_page(entry.page, image)?;
        Ok(true)
    }

    // Gives a page a committed image, in place of the one that it has.
    fn adopt_page(&mut self, page: PageNo, image: Image) -> Result<(), AllocError>
        requires area { InPageArea self.old.geometry page.0 }
        requires whole { length image ≡ self.old.geometry.page_size }
        ensures ok { OnOk result (self.new
            ≡ record self.old { committed = with_row page.0 image self.old.committed }) }
        ensures image { OnOk result ((p : ℕ)
            → committed_image self.new p ≡
            (if nat_eq page.0 p then Some image else committed_image self.old p)) }
        ensures err { OnErr result (self.new ≡ self.old) }
    {
        put_row(&mut self.committed, page.0, image)
    }

    /// Takes a page's committed image away, where it has one. The opening does so for a page that a commit gave back.
    pub fn forget_page(&mut self, page: PageNo)
        ensures committed { (p : ℕ) → committed_image self.new p
            ≡ (if nat_eq page.0 p then None else committed_image self.old p) }
        ensures working { self.new.working ≡ self.old.working }
        ensures geometry { self.new.geometry ≡ self.old.geometry }
    {
        take_row(&mut self.committed, page.0);
    }

    /// Begins a transaction: the catalog page alone is touched, and has this image. Where there is no memory, no page is touched.
    pub fn start(&mut self, alloc: Global, catalog: &[u8]) -> Result<(), AllocError>
        requires whole { length catalog.now ≡ self.old.geometry.page_size }
        ensures ok { OnOk result (self.new
            ≡ record self.old { working = (catalog_no, Some catalog.now) ∷ [] }) }
        ensures err { OnErr result (self.new ≡ record self.old { working = [] }) }
    {
        self.undo();
        self.edit(alloc, PageNo::CATALOG, catalog)
    }

    /// Gives a page a working image, and touches it. Where there is no memory, nothing changes.
    pub fn edit(&mut self, alloc: Global, page: PageNo, image: &[u8]) -> Result<(), AllocError>
        requires area { InPageArea self.old.geometry page.0 }
        requires whole { length image.now ≡ self.old.geometry.page_size }
        ensures ok { OnOk result (self.new
            ≡ record self.old { working = with_row page.0 (Some image.now) self.old.working }) }
        ensures touches { touched self.new ≤ touched self.old + 1 }
        ensures err { OnErr result (self.new ≡ self.old) }
    {
        let image = Image::of(alloc, image)?;
        self.put_working(page, Some(image))
    }

    /// Notes that the transaction gave a page back, and touches it. Where there is no memory, nothing changes.
    pub fn gone(&mut self, page: PageNo) -> Result<(), AllocError>
        requires area { InPageArea self.old.geometry page.0 }
        ensures ok { OnOk result (self.new
            ≡ record self.old { working = with_row page.0 None self.old.working }) }
        ensures touches { touched self.new ≤ touched self.old + 1 }
        ensures err { OnErr result (self.new ≡ self.old) }
    {
        self.put_working(page, None)
    }

    fn put_working(&mut self, page: PageNo, image: Option<Image>) -> Result<(), AllocError>
        requires area { InPageArea self.old.geometry page.0 }
        requires whole { IfSome image (λ (b : List ℕ). length b ≡ self.old.geometry.page_size) }
        ensures ok { OnOk result (self.new
            ≡ record self.old { working = with_row page.0 image self.old.working }) }
        ensures touches { touched self.new ≤ touched self.old + 1 }
        ensures err { OnErr result (self.new ≡ self.old) }
    {
        put_row(&mut self.working, page.0, image)
    }

    /// How many pages the transaction touched.
    pub fn touched(&self) -> u32
        ensures value { result ≡ touched self.now }
        ensures rows { AreRows self.now }
    {
        self.working.len() as u32
    }

    /// The touched pages in rising order, from index 0 on, each with its image, or with none where the transaction gave it back. None past the end.
    pub fn touched_at(&self, index: u32) -> Option<(PageNo, Option<&[u8]>)>
        ensures { MatchOption result (length self.now.working
            ≤ index) (λ row. slice_get self.now.working index
            ≡ Some (row.0.0, option_copied row.1)) }
    {
        match self.working.get(index as usize) {
            Some((page, Some(image))) => Some((PageNo(*page), Some(image.as_slice()))),
            Some((page, None)) => Some((PageNo(*page), None)),
            None => None,
        }
    }

    /// The entry that a commit writes for a touched page, by the rule over the committed images. The index counts those that weren't given back, in
    /// rising order from 0 on. None past the end.
    pub fn entry_at(&self, alloc: Global, index: u32) -> Result<Option<PageEntry>, AllocError>
        ensures { IfOk result (λ found. MatchOption found (length (imaged self.now.working)
            ≤ index) (IsEntryAt self.now index)) }
    {
        let Some((page, image)) = image_row(&self.working, index as usize) else {
            return Ok(None);
        };
        let page = PageNo(page);
        let entry = entry_for(alloc, page, self.committed_at(page), image)?;
        Ok(Some(entry))
    }

    /// The working images become committed, and a page that was given back has no image any more. The images are moved, into the room that `make` took.
    pub fn keep(&mut self)
        requires { named self.old.committed self.old.working ≤ images_most }
        ensures rows { self.new ≡ record self.old { committed = kept_rows self.old.committed self.old.working; working = [] } }
        ensures image { (p : ℕ) → committed_image self.new p ≡ image_at self.old p }
        ensures kept { AreRows self.new }
    {
        keep_rows(&mut self.committed, &mut self.working);
    }

    /// Drops the working images: no page is touched.
    pub fn undo(&mut self)
        ensures { self.new ≡ record self.old { working = [] } }
    {
        self.working.clear();
    }

    /// Lends the working image of a page, or None where it is what the disk holds.
    pub fn shown(&self, page: PageNo) -> Option<&[u8]>
        ensures value { option_copied result ≡ image_at self.now page.0 }
        ensures len { IfSome result (λ s. length s.now ≡ self.now.geometry.page_size) }
    {
        match find_row(&self.working, page.0) {
            Some(Some(image)) => Some(image.as_slice()),
            Some(None) => None,
            None => self.committed_at(page),
        }
    }

    /// Lends the committed image of a page, where it has one.
    pub fn committed_at(&self, page: PageNo) -> Option<&[u8]>
        ensures value { option_copied result ≡ committed_image self.now page.0 }
        ensures len { IfSome result (λ s. length s.now ≡ self.now.geometry.page_size) }
    {
        match find_row(&self.committed, page.0) {
            Some(image) => Some(image.as_slice()),
            None => None,
        }
    }

    /// Lends a page as the open transaction has it: its working image; else, where the transaction didn't give it back, its committed image; else
    /// the disk's page, through the group. A page with an image makes no disk call and takes no memory. `Disk` comes only where the disk's count
    /// of faults rose. The group comes first, since a loan can go back to the first parameter alone.
    pub fn image<'a, D: Disk>(
        group: &'a mut Group,
        meta: &'a Meta,
        alloc: Global,
        disk: &mut D,
        page: PageNo,
    ) -> Result<&'a [u8], FetchFault>
        requires range { (page.0 + 1) * group.old.page_size ≤ (D.outside disk.old).size }
        requires sizes { group.old.page_size ≡ meta.now.geometry.page_size }
        ensures* after { sem 𝓛 (GroupRests group.entry
            (λ new. KeepsLending (D.outside disk.old).disk group.old new
            × MatchOption (image_at meta.now page.0)
            (MatchResult result (λ s. Brought (D.outside disk.old).disk group.old new page.0 s.now)
            (λ _. NotBrought group.old new page.0))
            (λ _. new ≡ group.old))) }
        ensures logged { IfOk result (λ s. (b : List ℕ) → image_at meta.now page.0 ≡ Some b
            → s.now ≡ b) }
        ensures home { IfOk result (λ s. image_at meta.now page.0 ≡ None
            → Lends (D.outside disk.old).disk group.old
            → (held : List ℕ) → (D.outside disk.old).disk ≡ Some held
            → s.now ≡ page_of held group.old.page_size page.0) }
        ensures len { IfOk result (λ s. length s.now ≡ group.old.page_size) }
        ensures no_fault { IsSome (image_at meta.now page.0) → IsOk result }
        ensures hit { IsSome (image_at meta.now page.0) → disk.new ≡ disk.old }
        ensures only { ReadsOnly (D.outside disk.old) (D.outside disk.new) }
        ensures cause { HasFetchCause (D.outside disk.old).disk_faults
            (D.outside disk.new).disk_faults result }
    {
        match meta.shown(page) {
            Some(image) => Ok(image),
            None => {
                group.bring(alloc, disk, page)?;
                Ok(group.frame(page))
            }
        }
    }

    /// Writes each committed image to the home of its page, in rising order, and syncs once; then no page has a committed image. Every group forgets
    /// these pages. It takes no memory. A crash meanwhile leaves any bytes at these homes and changes none elsewhere. After a fault, which comes
    /// only where the disk's count of faults rose, the images stay.
    pub fn write_home<D: Disk>(&mut self, disk: &mut D, groups: &mut Groups) -> Result<(), Failed>
        requires room { volume_bytes self.old.geometry ≤ (D.outside disk.old).size }
        requires sizes { All (λ (f : Frames). f.page_size
            ≡ self.old.geometry.page_size) groups.old }
        ensures at_most { MakesAtMost (length self.old.committed
            + 1) (D.outside disk.old) (D.outside disk.new) }
        ensures calls { OnOk result (MakesCalls (length self.old.committed
            + 1) (D.outside disk.old) (D.outside disk.new)) }
        ensures rows { AreRows self.old }
        ensures emptied { OnOk result (self.new ≡ record self.old { committed = [] }) }
        ensures err { OnErr result (self.new ≡ self.old) }
        ensures written { OnOk result ((d : List ℕ) → (D.outside disk.old).disk ≡ Some d
            → (D.outside disk.new).disk ≡ Some
            (homes_written self.old.geometry.page_size self.old.committed d)) }
        ensures homes { OnOk result ((d e : List ℕ) → (D.outside disk.old).disk ≡ Some d
            → (D.outside disk.new).disk ≡ Some e
            → (p : ℕ) → page_of e self.old.geometry.page_size p
            ≡ unwrap_or (committed_image self.old p) (page_of d self.old.geometry.page_size p)) }
        ensures settled { OnOk result (IsTrue (D.outside disk.old).honest → (d e : List ℕ)
            → (D.outside disk.new).disk ≡ Some d → (D.outside disk.new).images e → e ≡ d) }
        ensures forgotten { OnOk result (groups.new
            ≡ homes_forgotten self.old.committed groups.old) }
        ensures lends { IsTrue (D.outside disk.old).honest
            → All (Lends (D.outside disk.old).disk) groups.old
            → All (Lends (D.outside disk.new).disk) groups.new }
        ensures kinds { SameKinds groups.old groups.new }
        ensures sizes { All (λ (f : Frames). f.page_size ≡ self.old.geometry.page_size) groups.new }
        ensures from { (low : ℕ) → AreFrom low groups.old → AreFrom low groups.new }
        ensures changes { ChangesWithin (InHomes self.old.geometry.page_size self.old.committed)
            (D.outside disk.old) (D.outside disk.new) }
        ensures cause { OnErr result (Rose (D.outside disk.old).disk_faults
            (D.outside disk.new).disk_faults) }
    {
        let size = self.geometry.page_size;
        write_rows(disk, groups, &self.committed, size)?;
        disk.sync()?;
        self.committed.clear();
        Ok(())
    }
}
