//! The files of a stream, of which the last one is at hand.
ghost use Rattle.std.specs.Prelude.{◌≡◌, ◌≤◌, ◌<◌, ◌+◌, ◌*◌, ◌↔◌, ◌^◌, [], ◌∷◌, ◌++◌, suc, length, map, Contains, OnOk, IfErr, IsTrue};
ghost use Rattle.std.specs.List.{list_any};
ghost use Rattle.disk_model.specs.Changes.{ChangesWithin};
ghost use Rattle.ex_base.specs.Area.{area_end};
ghost use Rattle.ex_base.specs.Order.{Rising};
ghost use Rattle.ex_base.specs.Sizes.{volume_bytes};
ghost use Rattle.history_writes.specs.Linked.{IsDesk};
ghost use Rattle.history_links.specs.Linked.{number_in};
ghost use Rattle.history_items.specs.Reads.{version_of};
ghost use Rattle.history_load.specs.AtHand.{BeginsFile, CantEnd, CantLink, CountsVersion, EndsFile, EndsWithin, FillsAs, HasFile, HasRoomForFile, HasRoomForRecord, IndexesFile, IsLastFile, IsReady, LinksFile, PutsVersion, SameButDesk, SameButVersions, has_older, placed_version, with_index};
ghost use Rattle.history_load.specs.Faults.{IsOfStream, LoadCause, WhereBad};
ghost use Rattle.history_model.specs.Items.{IsVersionItem};
ghost use Rattle.history_writes.specs.Places.{InPagesFrom};
ghost use Rattle.object_files.specs.Catalog.{IsName, name_of};
ghost use Rattle.object_files.specs.Edits.{entries_on};

use crate::faults::LoadFault;
use disk_model::Disk;
use ex_base::{Geometry, Index, PageNo, Place};
use history_items::VersionItem;
use history_links::{PlacedVersion, link_versions};
use history_writes::{Desk, FilePages, link_pages, write_index_over, write_record};
use object_files::{add_file, set_index};
use std::alloc::{AllocError, Global};

/// The catalog with the files that came, and what is kept of the last one while its versions come.
#[derive(Drop)]
pub struct FilesAtHand {
    /// The page that names the files that came.
    pub catalog: Vec<u8>,
    /// The pages of the last one.
    pub pages: FilePages,
    /// Its versions that came, with the places of their records.
    pub versions: Vec<PlacedVersion>,
    /// The first page that no file has.
    pub next: u32,
    /// How many versions came, of all files.
    pub count: u64,
    /// Room for pages and a record.
    pub desk: Desk,
}

impl FilesAtHand {
    /// Begins a file.
    pub fn begin_file(&mut self, geometry: &Geometry, name: &[u8])
        requires ready { IsReady geometry.now self.old }
        requires name { IsName name.now }
        requires unused { ¬ Contains (map name_of (entries_on self.old.catalog.items)) name.now }
        requires room { 32 + 48 * (length (entries_on self.old.catalog.items) + 1)
            ≤ length self.old.catalog.items }
        ensures begins { BeginsFile geometry.now self.old self.new name.now }
        ensures ready { HasFile geometry.now self.new }
    {
        let _size = geometry.page_size;
        let file_no = add_file(&mut self.catalog, name);
        self.pages.begin(file_no, self.next);
        self.versions.clear();
    }

    /// Keeps the place of a version's record.
    fn keep_place(&mut self, version: &VersionItem<'_>, place: Place) -> Result<(), AllocError>
        ensures kept { OnOk result (self.new.versions.items ≡ self.old.versions.items
            ++ placed_version (version_of version.now) place ∷ []) }
        ensures only { SameButVersions self.old self.new }
    {
        self.versions.push(PlacedVersion {
            unique: version.unique,
            frozen: version.frozen,
            older: version.older,
            place,
        })?;
        Ok(())
    }

    /// Lays the record of a version of the file, without links.
    pub fn put_version<D: Disk>(
        &mut self,
        disk: &mut D,
        geometry: &Geometry,
        version: &VersionItem<'_>,
    ) -> Result<(), LoadFault>
        requires room { volume_bytes geometry.now ≤ (D.outside disk.old).size }
        requires file { HasFile geometry.now self.old }
        requires there { HasRoomForRecord geometry.now self.old }
        requires few { self.old.count < 2 ^ 63 }
        requires version { IsVersionItem geometry.now geometry.now.segs geometry.now.pages
            (version_of version.now) }
        requires rising { Rising (map number_in self.old.versions.items ++ version.now.unique ∷ []) }
        ensures put { OnOk result (PutsVersion geometry.now (D.outside disk.old)
            (D.outside disk.new) self.old self.new (version_of version.now)) }
        ensures counts { OnOk result (CountsVersion self.old self.new (version_of version.now)) }
        ensures fills { OnOk result (FillsAs geometry.now self.old self.new (version_of version.now)) }
        ensures file { OnOk result (HasFile geometry.now self.new) }
        ensures changes { ChangesWithin (InPagesFrom geometry.now self.old.next)
            (D.outside disk.old) (D.outside disk.new) }
        ensures no_fault { IfErr result (λ fault. IsOfStream fault → ⊥) }
        ensures cause { IfErr result (LoadCause (D.outside disk.old) (D.outside disk.new)) }
    {
        let len = write_record(geometry, version, &mut self.desk.record);
        let place = self.pages.add(disk, geometry, &self.desk.record[..len])?;
        self.keep_place(version, place)?;
        self.count += 1;
        Ok(())
    }

    /// Whether a version of the file is derived from another.
    fn has_links(&self) -> bool
        ensures { result ≡ list_any has_older self.now.versions.items }
    {
        self.versions.iter().any(|version| version.older.is_some())
    }

    /// Gives the records of the file their links, if it has any.
    fn link_file<D: Disk>(
        &mut self,
        alloc: Global,
        disk: &mut D,
        geometry: &Geometry,
    ) -> Result<(), LoadFault>
        requires room { volume_bytes geometry.now ≤ (D.outside disk.old).size }
        requires file { IsLastFile geometry.now self.old }
        requires there { self.old.pages.first + self.old.pages.written ≤ area_end geometry.now }
        ensures linked { OnOk result (LinksFile geometry.now (D.outside disk.old)
            (D.outside disk.new) self.old) }
        ensures bad { IfErr result (WhereBad (CantLink geometry.now (D.outside disk.old) self.old)) }
        ensures only { SameButDesk self.old self.new }
        ensures desk { IsDesk geometry.now self.new.desk }
        ensures changes { ChangesWithin (InPagesFrom geometry.now self.old.next)
            (D.outside disk.old) (D.outside disk.new) }
        ensures cause { IfErr result (LoadCause (D.outside disk.old) (D.outside disk.new)) }
    {
        if !self.has_links() {
            return Ok(());
        }
        let links = link_versions(alloc, &self.versions)?;
        let first = PageNo(self.pages.first);
        link_pages(
            disk,
            geometry,
            first,
            self.pages.written,
            &links,
            &mut self.desk,
        )?;
        Ok(())
    }

    /// Writes the index of the file over its pages, and notes it in the catalog.
    fn index_file<D: Disk>(
        &mut self,
        alloc: Global,
        disk: &mut D,
        geometry: &Geometry,
    ) -> Result<(), LoadFault>
        requires room { volume_bytes geometry.now ≤ (D.outside disk.old).size }
        requires file { IsLastFile geometry.now self.old }
        requires some { 1 ≤ self.old.pages.written }
        requires there { self.old.pages.first + with_index self.old.pages.written
            ≤ area_end geometry.now }
        ensures indexes { OnOk result (IndexesFile geometry.now (D.outside disk.old)
            (D.outside disk.new) self.old self.new) }
        ensures ready { OnOk result (IsReady geometry.now self.new) }
        ensures no_fault { IfErr result (λ fault. IsOfStream fault → ⊥) }
        ensures changes { ChangesWithin (InPagesFrom geometry.now
            (self.old.pages.first + self.old.pages.written))
            (D.outside disk.old) (D.outside disk.new) }
        ensures cause { IfErr result (LoadCause (D.outside disk.old) (D.outside disk.new)) }
    {
        let first = PageNo(self.pages.first);
        let count = self.pages.written;
        let file_no = self.pages.file_no;
        let end = write_index_over(
            alloc,
            disk,
            geometry,
            file_no,
            first,
            count,
            &mut self.desk.page,
        )?;
        set_index(
            &mut self.catalog,
            Index {
                root: Some(end.root),
                level: end.level,
                file_no,
            },
        );
        self.next = end.next;
        Ok(())
    }

    /// Ends the file: its last page is written, its records get their links, and its index is written and noted in the catalog.
    pub fn end_file<D: Disk>(
        &mut self,
        alloc: Global,
        disk: &mut D,
        geometry: &Geometry,
    ) -> Result<(), LoadFault>
        requires room { volume_bytes geometry.now ≤ (D.outside disk.old).size }
        requires file { HasFile geometry.now self.old }
        requires there { HasRoomForFile geometry.now self.old }
        ensures ends { OnOk result (EndsFile geometry.now (D.outside disk.old)
            (D.outside disk.new) self.old self.new) }
        ensures bad { IfErr result (WhereBad (CantEnd geometry.now (D.outside disk.old) self.old)) }
        ensures within { OnOk result (EndsWithin self.old self.new) }
        ensures ready { OnOk result (IsReady geometry.now self.new) }
        ensures changes { ChangesWithin (InPagesFrom geometry.now self.old.next)
            (D.outside disk.old) (D.outside disk.new) }
        ensures cause { IfErr result (LoadCause (D.outside disk.old) (D.outside disk.new)) }
    {
        self.pages.close(disk, geometry)?;
        if self.pages.written == 0 {
            return Ok(());
        }
        self.link_file(alloc, disk, geometry)?;
        self.index_file(alloc, disk, geometry)?;
        Ok(())
    }
}
