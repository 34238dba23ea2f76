//! The catalog is read and changed.
ghost use Rattle.std.specs.Prelude.{◌≡◌, ◌<◌, ◌≤◌, ◌+◌, ◌*◌, ℕ, List, length, All, Some, None, IfOk, IfErr, true, false};
ghost use Rattle.ex_base.specs.Sizes.{volume_bytes};
ghost use Rattle.disk_model.specs.Outside.{ReadsOnly};
ghost use Rattle.buffer_groups.specs.Cause.{HasFetchCause};
ghost use Rattle.buffer_groups.specs.Frames.{Frames, Lends, page_of};
ghost use Rattle.buffer_groups.specs.Groups.{GroupsKeep};
ghost use Rattle.meta_pages.specs.Overlays.{image_at};
ghost use Rattle.object_files.specs.Catalog.{Catalog, CatalogOf};
ghost use Rattle.object_files.specs.Edits.{IsCatalogPage};
ghost use Rattle.object_files.specs.Reads.{catalog_on};
ghost use Rattle.ex_base.specs.Area.{catalog_no};
ghost use Rattle.commits.specs.Room.{AreBehindLog};
ghost use Rattle.session_core.specs.Catalogs.{stop_of, catalog_over, ReadingStops};

use super::Session;
use buffer_groups::{FetchFault, Groups};
use disk_model::Disk;
use ex_base::{NoteKind, Oid, OpNote, PageNo, Seen};
use meta_pages::Meta;
use object_files::CatalogView;
use session_views::Stop;
use std::alloc::{AllocError, Global};
use volume_port::MAIN;

/// A copy of a logged page as the open transaction has it, or else as the last commit left it.
fn copy_of<D: Disk>(
    alloc: Global,
    groups: &mut Groups,
    meta: &Meta,
    disk: &mut D,
    page: PageNo,
) -> Result<Vec<u8>, FetchFault>
    requires main { 0 < length groups.old }
    requires sizes { All (λ (f : Frames). f.page_size ≡ meta.now.geometry.page_size) groups.old }
    requires room { (page.0 + 1) * meta.now.geometry.page_size ≤ (D.outside disk.old).size }
    ensures keeps { GroupsKeep (D.outside disk.old).disk groups.old groups.new }
    ensures behind { catalog_no ≤ page.0 → AreBehindLog groups.old → AreBehindLog groups.new }
    ensures image { IfOk result (λ bytes. (b : List ℕ) → image_at meta.now page.0 ≡ Some b
        → bytes.items ≡ b) }
    ensures home { IfOk result (λ bytes. image_at meta.now page.0 ≡ None
        → All (Lends (D.outside disk.old).disk) groups.old
        → (held : List ℕ) → (D.outside disk.old).disk ≡ Some held
        → bytes.items ≡ page_of held meta.now.geometry.page_size page.0) }
    ensures len { IfOk result (λ bytes. length bytes.items ≡ meta.now.geometry.page_size) }
    ensures only { ReadsOnly (D.outside disk.old) (D.outside disk.new) }
    ensures cause { HasFetchCause (D.outside disk.old).disk_faults
        (D.outside disk.new).disk_faults result }
{
    let bytes = Meta::image(groups.at(MAIN), meta, alloc, disk, page)?;
    Ok(bytes.to_vec(alloc)?)
}

/// What the session is to stop at where the catalog is outside of its grammar, or has no number for a commit.
pub(super) const DAMAGED_CATALOG: Stop = Stop::Damaged {
    page: PageNo::CATALOG,
    want: Seen::CATALOG,
    got: Seen::NOTHING,
};

/// What the session is to stop at where a page can't be read.
fn unread(fault: FetchFault) -> Stop
    ensures { result ≡ stop_of fault }
{
    match fault {
        FetchFault::Disk => Stop::Disk,
        FetchFault::Memory => Stop::Memory,
    }
}

/// Whether a page is the catalog.
fn is_catalog(page: &[u8]) -> bool
    ensures yes { result ≡ true → IsCatalogPage page.now }
    ensures no { result ≡ false → (c : Catalog) → CatalogOf page.now c → ⊥ }
{
    match CatalogView::of(page) {
        Some(_) => true,
        None => false,
    }
}

/// A copy of the catalog page as the open transaction has it, or else as the last commit left it.
fn read_catalog<D: Disk>(
    alloc: Global,
    groups: &mut Groups,
    meta: &Meta,
    disk: &mut D,
) -> Result<Vec<u8>, Stop>
    requires main { 0 < length groups.old }
    requires sizes { All (λ (f : Frames). f.page_size ≡ meta.now.geometry.page_size) groups.old }
    requires room { volume_bytes meta.now.geometry ≤ (D.outside disk.old).size }
    ensures keeps { GroupsKeep (D.outside disk.old).disk groups.old groups.new }
    ensures behind { AreBehindLog groups.old → AreBehindLog groups.new }
    ensures only { ReadsOnly (D.outside disk.old) (D.outside disk.new) }
    ensures len { IfOk result (λ page. length page.items ≡ meta.now.geometry.page_size) }
    ensures catalog { IfOk result (λ page. IsCatalogPage page.items) }
    ensures image { IfOk result (λ page. (b : List ℕ) → image_at meta.now catalog_no ≡ Some b
        → page.items ≡ b) }
    ensures read { IfOk result (λ page. (d : List ℕ) → (D.outside disk.old).disk ≡ Some d
        → All (Lends (D.outside disk.old).disk) groups.old
        → page.items ≡ catalog_over meta.now.geometry meta.now d) }
    ensures stops { IfErr result (ReadingStops (D.outside disk.old) (D.outside disk.new) groups.old
        (catalog_over meta.now.geometry meta.now)) }
{
    let page = match copy_of(alloc, groups, meta, disk, PageNo::CATALOG) {
        Ok(page) => page,
        Err(fault) => return Err(unread(fault)),
    };
    if !is_catalog(&page) {
        return Err(DAMAGED_CATALOG);
    }
    Ok(page)
}

impl Session {
    ghost use Rattle.std.specs.Prelude.{◌^◌, ◌-◌, OnOk, OnErr};
    ghost use Rattle.table_model.specs.Machines.{updates_most, touched_most};
    ghost use Rattle.session_core.specs.Sessions.{IsSession, updated};
    ghost use Rattle.session_core.specs.Catalogs.{catalog_bytes, FramesLend};
    ghost use Rattle.session_core.specs.Steps.{OnlyFrames, Stops};

    /// A copy of the catalog page as the open transaction has it, or else as the last commit left it. It stops where the disk fails, where memory is
    /// wanted, and where the page is outside of the catalog's grammar.
    pub fn catalog<D: Disk>(&mut self, alloc: Global, disk: &mut D) -> Result<Vec<u8>, Stop>
        requires room { volume_bytes self.old.geometry ≤ (D.outside disk.old).size }
        ensures session { IsSession self.old }
        ensures frames { OnlyFrames (D.outside disk.old) (D.outside disk.new) self.old self.new }
        ensures len { IfOk result (λ page. length page.items ≡ self.old.geometry.page_size) }
        ensures catalog { IfOk result (λ page. IsCatalogPage page.items) }
        ensures image { IfOk result (λ page. (b : List ℕ)
            → image_at self.old.meta catalog_no ≡ Some b → page.items ≡ b) }
        ensures read { IfOk result (λ page. (d : List ℕ) → (D.outside disk.old).disk ≡ Some d
            → FramesLend (D.outside disk.old) self.old → page.items ≡ catalog_bytes self.old d) }
        ensures stops { IfErr result (Stops (D.outside disk.old) (D.outside disk.new) self.old) }
    {
        read_catalog(alloc, &mut self.volume.groups, &self.volume.meta, disk)
    }

    /// The page becomes the working catalog, and an update of this kind, of no version, is noted. Where memory is wanted, the transaction can't go on: the
    /// page may be the working catalog, and no update is noted.
    pub fn update_catalog(
        &mut self,
        alloc: Global,
        catalog: &[u8],
        kind: NoteKind,
    ) -> Result<(), AllocError>
        requires opened { self.old.opened ≡ true }
        requires catalog { IsCatalogPage catalog.now }
        requires whole { length catalog.now ≡ self.old.geometry.page_size }
        requires updates { length self.old.notes < updates_most }
        requires touched { length self.old.meta.working < touched_most }
        ensures done { OnOk result (self.new ≡ updated self.old catalog.now kind) }
        ensures kept { OnErr result (self.new ≡ record self.old { meta = self.new.meta }) }
        ensures geometry { self.new.geometry ≡ self.old.geometry }
        ensures log { self.new.log ≡ self.old.log }
        ensures down { self.new.down ≡ self.old.down }
        ensures scans { self.new.scans ≡ self.old.scans }
    {
        self.volume.meta.edit(alloc, PageNo::CATALOG, catalog)?;
        self.notes.push(OpNote {
            kind,
            oid: Oid::NONE,
            first: 0,
            second: 0,
        })?;
        Ok(())
    }
}

/// The view of a page that is the catalog.
pub fn view_of(page: &[u8]) -> CatalogView<'_>
    requires { IsCatalogPage page.now }
    ensures { result ≡ catalog_on page.now }
{
    CatalogView::known(page)
}
