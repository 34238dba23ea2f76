//! What is kept of a load between two pieces of its stream.
ghost use Rattle.std.specs.Prelude.{◌≡◌, ◌≤◌, ◌-◌, ◌<◌, ℕ, List, [], length, None, Some, Err, IfErr, IfOk, OnOk};
ghost use Rattle.disk_model.specs.Changes.{ChangesWithin};
ghost use Rattle.ex_base.specs.Bytes.{IsBytes};
ghost use Rattle.ex_base.specs.Sizes.{volume_bytes};
ghost use Rattle.history_fronts.specs.Fronts.{IsDumpHead};
ghost use Rattle.history_items.specs.Heads.{stream_head};
ghost use Rattle.history_model.specs.Stream.{head_bytes, lack_of};
ghost use Rattle.ex_base.specs.Area.{catalog_no};
ghost use Rattle.history_writes.specs.Linked.{IsDesk};
ghost use Rattle.history_load.specs.AtHand.{IsReady};
ghost use Rattle.object_files.specs.Catalog.{CatalogOf, fresh_catalog};
ghost use Rattle.object_files.specs.Edits.{entries_on};
ghost use Rattle.history_writes.specs.Places.{IsBehindCatalog};

use crate::faults::LoadFault;
use crate::files_at_hand::FilesAtHand;
use disk_model::Disk;
use ex_base::{Geometry, PageNo};
use history_fronts::Turn;
use history_items::{Gathered, Head, LEAF_HEAD, NodeItem, read_file_head, read_version};
use history_reads::{Filled, Progress, fill};
use history_writes::{Desk, FilePages, node_page, write_leaf, write_node};
use object_files::empty_catalog;
use std::alloc::{AllocError, Global};
use trees::Part;

/// What is kept of a load: how far its stream was read, what came of the item that isn't whole, and its files.
#[derive(Drop)]
pub struct Loader {
    pub progress: Progress,
    pub gathered: Gathered,
    pub files: FilesAtHand,
    /// Room for the row of a node.
    pub row: Vec<Part>,
}

/// A page of zeros.
fn new_page(alloc: Global, geometry: &Geometry) -> Result<Vec<u8>, AllocError>
    ensures { IfOk result (λ page. length page.items ≡ geometry.now.page_size) }
{
    vec![in alloc; 0u8; geometry.page_size as usize]
}

/// A catalog of no file.
fn new_catalog(alloc: Global, geometry: &Geometry) -> Result<Vec<u8>, AllocError>
    ensures size { IfOk result (λ page. length page.items ≡ geometry.now.page_size) }
    ensures none { IfOk result (λ page. CatalogOf page.items fresh_catalog) }
{
    let mut catalog = new_page(alloc, geometry)?;
    empty_catalog(&mut catalog);
    Ok(catalog)
}

/// Room for two pages and a record.
fn new_desk(alloc: Global, geometry: &Geometry) -> Result<Desk, AllocError>
    ensures { IfOk result (IsDesk geometry.now) }
{
    Ok(Desk {
        read: new_page(alloc, geometry)?,
        page: new_page(alloc, geometry)?,
        record: new_page(alloc, geometry)?,
    })
}

/// No file yet. The pages of the first one are those from this one on.
fn no_files(alloc: Global, geometry: &Geometry, first: PageNo) -> Result<FilesAtHand, AllocError>
    requires { catalog_no < first.0 }
    ensures ready { IfOk result (IsReady geometry.now) }
    ensures none { IfOk result (λ files. entries_on files.catalog.items ≡ []) }
    ensures next { IfOk result (λ files. files.next ≡ first.0) }
    ensures count { IfOk result (λ files. files.count ≡ 0) }
{
    Ok(FilesAtHand {
        catalog: new_catalog(alloc, geometry)?,
        pages: FilePages {
            file_no: 0,
            first: first.0,
            written: 0,
            page: new_page(alloc, geometry)?,
        },
        versions: Vec::new(alloc),
        next: first.0,
        count: 0,
        desk: new_desk(alloc, geometry)?,
    })
}

impl Loader {
    ghost use Rattle.history_load.specs.Faults.{LoadCause, WhereBad};
    ghost use Rattle.history_fronts.specs.declared.turns.Turn.TheVariants.{File as FileTurn, Leaf as LeafTurn, Node as NodeTurn, Version as VersionTurn};
    ghost use Rattle.history_reads.specs.Reads.{turn_now};
    ghost use Rattle.history_writes.specs.Places.{InPagesFrom};
    ghost use Rattle.history_load.specs.Loading.{HasOpen, HasWholeItem, IsLoadedTo, IsLoader, KeepsFront, LoadsPiece, NoneIsLaid, RefusesItem, RefusesPiece, SameButFiles, StandsIfWhole, TakesItem};
    ghost use Rattle.history_reads.specs.Kept.{AreOfOneStream};

    /// A load of a stream of which the head came, into a volume that has room for what the head says.
    pub fn make(alloc: Global, geometry: &Geometry, head: &Head) -> Result<Loader, AllocError>
        requires head { IsDumpHead geometry.now (stream_head head.now) }
        requires room { lack_of (geometry.now.pages - 1) geometry.now.segs
            (stream_head head.now) ≡ None }
        ensures is { IfOk result (λ loader. (bytes : List ℕ) → IsBytes bytes
            → bytes ≡ head_bytes (stream_head head.now) → IsLoader geometry.now loader) }
        ensures head { IfOk result (λ loader. loader.progress.head ≡ head.now) }
        ensures loaded { IfOk result (λ loader. (image bytes : List ℕ) → IsBytes bytes
            → bytes ≡ head_bytes (stream_head head.now)
            → IsLoadedTo geometry.now image bytes loader) }
    {
        let first = PageNo(node_page(head.nodes).0 + 1);
        Ok(Loader {
            progress: Progress::begin(alloc, geometry, head)?,
            gathered: Gathered::make(alloc, geometry)?,
            files: no_files(alloc, geometry, first)?,
            row: Vec::new(alloc),
        })
    }

    /// Takes the leaf that came: it is accepted, and written to its unit.
    fn take_leaf<D: Disk>(&mut self, disk: &mut D) -> Result<(), LoadFault>
        requires room { volume_bytes self.old.progress.geometry ≤ (D.outside disk.old).size }
        requires is { HasWholeItem self.old.progress.geometry self.old }
        requires turn { turn_now self.old.progress ≡ LeafTurn }
        ensures took { OnOk result (TakesItem self.old.progress.geometry (D.outside disk.old)
            (D.outside disk.new) self.old self.new) }
        ensures refused { IfErr result (WhereBad (RefusesItem self.old.progress.geometry
            (D.outside disk.old) self.old)) }
        ensures stream { AreOfOneStream self.old.progress self.new.progress }
        ensures changes { ChangesWithin (IsBehindCatalog self.old.progress.geometry)
            (D.outside disk.old) (D.outside disk.new) }
        ensures cause { IfErr result (LoadCause (D.outside disk.old) (D.outside disk.new)) }
    {
        self.progress.accept(self.gathered.as_slice())?;
        let leaf = &self.gathered.as_slice()[LEAF_HEAD..];
        write_leaf(disk, &self.progress.geometry, self.progress.leaves, leaf)?;
        self.gathered.clear();
        Ok(())
    }

    /// Takes the node that came: it is accepted, and written to its page.
    fn take_node<D: Disk>(&mut self, disk: &mut D) -> Result<(), LoadFault>
        requires room { volume_bytes self.old.progress.geometry ≤ (D.outside disk.old).size }
        requires is { HasWholeItem self.old.progress.geometry self.old }
        requires turn { turn_now self.old.progress ≡ NodeTurn }
        ensures took { OnOk result (TakesItem self.old.progress.geometry (D.outside disk.old)
            (D.outside disk.new) self.old self.new) }
        ensures refused { IfErr result (WhereBad (RefusesItem self.old.progress.geometry
            (D.outside disk.old) self.old)) }
        ensures stream { AreOfOneStream self.old.progress self.new.progress }
        ensures changes { ChangesWithin (IsBehindCatalog self.old.progress.geometry)
            (D.outside disk.old) (D.outside disk.new) }
        ensures cause { IfErr result (LoadCause (D.outside disk.old) (D.outside disk.new)) }
    {
        self.progress.accept(self.gathered.as_slice())?;
        let node = NodeItem::over(self.gathered.as_slice());
        let page = &mut self.files.desk.page;
        write_node(
            disk,
            &self.progress.geometry,
            self.progress.nodes,
            &node,
            &mut self.row,
            page,
        )?;
        self.gathered.clear();
        Ok(())
    }

    /// Ends the file at hand, where no version of it is missing.
    fn end_if_whole<D: Disk>(&mut self, alloc: Global, disk: &mut D) -> Result<(), LoadFault>
        requires room { volume_bytes self.old.progress.geometry ≤ (D.outside disk.old).size }
        requires open { HasOpen self.old.progress.geometry self.old }
        ensures keeps { OnOk result (KeepsFront self.old.progress.geometry self.old self.new) }
        ensures stands { OnOk result (StandsIfWhole self.old.progress.geometry
            (D.outside disk.old) (D.outside disk.new) self.old self.new) }
        ensures refused { IfErr result (WhereBad (NoneIsLaid self.old.progress.geometry
            (D.outside disk.old) self.old)) }
        ensures only { SameButFiles self.old self.new }
        ensures count { OnOk result (self.new.files.count ≡ self.old.files.count) }
        ensures changes { ChangesWithin (InPagesFrom self.old.progress.geometry
            self.old.files.next) (D.outside disk.old) (D.outside disk.new) }
        ensures cause { IfErr result (LoadCause (D.outside disk.old) (D.outside disk.new)) }
    {
        if self.progress.missing > 0 {
            return Ok(());
        }
        self.files.end_file(alloc, disk, &self.progress.geometry)?;
        Ok(())
    }

    /// Takes the head of a file that came: it is accepted, and the file begins.
    fn take_file<D: Disk>(&mut self, alloc: Global, disk: &mut D) -> Result<(), LoadFault>
        requires room { volume_bytes self.old.progress.geometry ≤ (D.outside disk.old).size }
        requires is { HasWholeItem self.old.progress.geometry self.old }
        requires turn { turn_now self.old.progress ≡ FileTurn }
        ensures took { OnOk result (TakesItem self.old.progress.geometry (D.outside disk.old)
            (D.outside disk.new) self.old self.new) }
        ensures refused { IfErr result (WhereBad (RefusesItem self.old.progress.geometry
            (D.outside disk.old) self.old)) }
        ensures stream { AreOfOneStream self.old.progress self.new.progress }
        ensures changes { ChangesWithin (IsBehindCatalog self.old.progress.geometry)
            (D.outside disk.old) (D.outside disk.new) }
        ensures cause { IfErr result (LoadCause (D.outside disk.old) (D.outside disk.new)) }
    {
        self.progress.accept(self.gathered.as_slice())?;
        let name = read_file_head(self.gathered.as_slice()).name;
        self.files.begin_file(&self.progress.geometry, name);
        self.end_if_whole(alloc, disk)?;
        self.gathered.clear();
        Ok(())
    }

    /// Takes the version that came: it is accepted, and its record is laid.
    fn take_version<D: Disk>(&mut self, alloc: Global, disk: &mut D) -> Result<(), LoadFault>
        requires room { volume_bytes self.old.progress.geometry ≤ (D.outside disk.old).size }
        requires is { HasWholeItem self.old.progress.geometry self.old }
        requires turn { turn_now self.old.progress ≡ VersionTurn }
        ensures took { OnOk result (TakesItem self.old.progress.geometry (D.outside disk.old)
            (D.outside disk.new) self.old self.new) }
        ensures refused { IfErr result (WhereBad (RefusesItem self.old.progress.geometry
            (D.outside disk.old) self.old)) }
        ensures stream { AreOfOneStream self.old.progress self.new.progress }
        ensures changes { ChangesWithin (IsBehindCatalog self.old.progress.geometry)
            (D.outside disk.old) (D.outside disk.new) }
        ensures cause { IfErr result (LoadCause (D.outside disk.old) (D.outside disk.new)) }
    {
        self.progress.accept(self.gathered.as_slice())?;
        let version = read_version(self.gathered.as_slice());
        self.files
            .put_version(disk, &self.progress.geometry, &version)?;
        self.end_if_whole(alloc, disk)?;
        self.gathered.clear();
        Ok(())
    }

    /// Takes the whole item that came.
    fn take_item<D: Disk>(&mut self, alloc: Global, disk: &mut D) -> Result<(), LoadFault>
        requires room { volume_bytes self.old.progress.geometry ≤ (D.outside disk.old).size }
        requires is { HasWholeItem self.old.progress.geometry self.old }
        ensures took { OnOk result (TakesItem self.old.progress.geometry (D.outside disk.old)
            (D.outside disk.new) self.old self.new) }
        ensures refused { IfErr result (WhereBad (RefusesItem self.old.progress.geometry
            (D.outside disk.old) self.old)) }
        ensures stream { AreOfOneStream self.old.progress self.new.progress }
        ensures changes { ChangesWithin (IsBehindCatalog self.old.progress.geometry)
            (D.outside disk.old) (D.outside disk.new) }
        ensures cause { IfErr result (LoadCause (D.outside disk.old) (D.outside disk.new)) }
    {
        match self.progress.turn() {
            Turn::Leaf => self.take_leaf(disk),
            Turn::Node => self.take_node(disk),
            Turn::File => self.take_file(alloc, disk),
            Turn::Version => self.take_version(alloc, disk),
            Turn::End => unreachable!(),
        }
    }

    /// Loads the next piece of the stream. After an error nothing more can be loaded.
    pub fn feed<D: Disk>(
        &mut self,
        alloc: Global,
        disk: &mut D,
        piece: &[u8],
    ) -> Result<(), LoadFault>
        requires room { volume_bytes self.old.progress.geometry ≤ (D.outside disk.old).size }
        requires is { IsLoader self.old.progress.geometry self.old }
        ensures loads { OnOk result (LoadsPiece self.old.progress.geometry
            (D.outside disk.old) (D.outside disk.new) self.old self.new piece.now) }
        ensures refused { IfErr result (WhereBad (RefusesPiece self.old.progress.geometry
            (D.outside disk.old) self.old piece.now)) }
        ensures is { OnOk result (IsLoader self.old.progress.geometry self.new) }
        ensures stream { AreOfOneStream self.old.progress self.new.progress }
        ensures changes { ChangesWithin (IsBehindCatalog self.old.progress.geometry)
            (D.outside disk.old) (D.outside disk.new) }
        ensures cause { IfErr result (LoadCause (D.outside disk.old) (D.outside disk.new)) }
    {
        let mut at = 0;
        'items: while at < piece.len() {
            match fill(&self.progress, &mut self.gathered, &piece[at..]) {
                Filled::More(taken) => at += taken,
                Filled::Whole(taken) => {
                    at += taken;
                    self.take_item(alloc, disk)?;
                }
                Filled::Refused => return Err(LoadFault::BAD),
            }
        }
        Ok(())
    }
}
