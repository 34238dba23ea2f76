//! The test of what a load wrote.
ghost use Rattle.std.specs.Prelude.{◌≡◌, ◌≤◌, ◌<◌, ℕ, List, [], length, Some, Err, IfOk, OnOk};
ghost use Rattle.ex_base.specs.Sizes.{volume_bytes};
ghost use Rattle.disk_model.specs.Outside.{ReadsOnly, Rose};
ghost use Rattle.object_files.specs.Catalog.{Catalog, CatalogOf};
ghost use Rattle.object_files.specs.Edits.{IsCatalogPage, entries_on};
ghost use Rattle.volume_model.specs.Homes.{home};
ghost use Rattle.history_load.specs.Loads.{LoadsAs};
ghost use Rattle.history_fronts.specs.Fronts.{history_of};
ghost use Rattle.history_model.specs.Dumps.{IsNoDump};
ghost use Rattle.history_reads.specs.Reads.{IsRead};
ghost use Rattle.history_writes.specs.Files.{IsWritten};
ghost use Rattle.history_load.specs.Reached.{IsWalked};

use crate::loaded::Loaded;
use crate::reached::{are_leaves_used, are_nodes_in_trees};
use crate::whole::is_all_read;
use disk_model::Disk;
use history_reads::Progress;
use meta_pages::Meta;
use object_files::{CatalogView, set_numbers};
use restart::walk_volume;
use session_views::OpenFault;
use std::alloc::Global;

/// Why what a load wrote isn't to be committed.
#[derive(Clone, Copy, Debug, PartialEq, Eq)]
pub enum FinishFault {
    /// There is no memory.
    Memory,
    /// The disk failed: its count of faults rose.
    Disk,
    /// A test failed: the stream is no dump, or what was written isn't there.
    Bad,
}

/// Walks over the files and trees of a catalog, part by part, and tests that so many leaves and nodes at their places are units of the trees.
fn walk_written<D: Disk>(
    alloc: Global,
    disk: &mut D,
    meta: &Meta,
    progress: &Progress,
    catalog: &[u8],
) -> Result<(), FinishFault>
    requires room { volume_bytes progress.now.geometry ≤ (D.outside disk.old).size }
    requires overlay { meta.now ≡ record {
      committed = [];
      working = [];
      geometry = progress.now.geometry;
    } }
    requires leaves { progress.now.head.leaves ≤ progress.now.geometry.segs }
    requires nodes { progress.now.head.nodes < progress.now.geometry.pages }
    requires catalog { IsCatalogPage catalog.now }
    ensures only { ReadsOnly (D.outside disk.old) (D.outside disk.new) }
    ensures cause { result ≡ Err FinishFault.Disk
        → Rose (D.outside disk.old).disk_faults (D.outside disk.new).disk_faults }
    ensures walked { OnOk result ((c : Catalog) (image : List ℕ) → CatalogOf catalog.now c
        → (D.outside disk.old).disk ≡ Some image
        → IsWalked progress.now.geometry (home progress.now.geometry image) c
        progress.now.head.leaves progress.now.head.nodes) }
    ensures bad { result ≡ Err FinishFault.Bad → (c : Catalog) (image : List ℕ)
        → CatalogOf catalog.now c → (D.outside disk.old).disk ≡ Some image
        → IsWalked progress.now.geometry (home progress.now.geometry image) c
        progress.now.head.leaves progress.now.head.nodes → ⊥ }
{
    let Some(view) = CatalogView::of(catalog) else {
        unreachable!();
    };
    let reached = match walk_volume(alloc, disk, &progress.geometry, meta, &view) {
        Ok(reached) => reached,
        Err(OpenFault::Memory) => return Err(FinishFault::Memory),
        Err(OpenFault::Disk) => return Err(FinishFault::Disk),
        Err(OpenFault::BadVolume { .. }) => return Err(FinishFault::Bad),
    };
    let head = &progress.head;
    if !are_leaves_used(&progress.geometry, &reached.units, head.leaves) {
        return Err(FinishFault::Bad);
    }
    if !are_nodes_in_trees(
        &progress.geometry,
        &reached.units,
        &reached.pages,
        head.nodes,
    ) {
        return Err(FinishFault::Bad);
    }
    Ok(())
}

/// Ends a load, where the source is at its end and these bytes came of an item: tests that a whole stream came, puts the stream's numbers into the catalog, and walks
/// over what was written with this catalog. The disk is read alone. What is answered is to be committed.
pub fn finish<D: Disk>(
    alloc: Global,
    disk: &mut D,
    meta: &Meta,
    progress: &Progress,
    held: &[u8],
    mut catalog: Vec<u8>,
    versions: u64,
) -> Result<Loaded, FinishFault>
    requires room { volume_bytes progress.now.geometry ≤ (D.outside disk.old).size }
    requires overlay { meta.now ≡ record {
      committed = [];
      working = [];
      geometry = progress.now.geometry;
    } }
    requires leaves { progress.now.head.leaves ≤ progress.now.geometry.segs }
    requires nodes { progress.now.head.nodes < progress.now.geometry.pages }
    requires some { 1 ≤ progress.now.head.next_unique }
    requires catalog { IsCatalogPage catalog.items }
    requires whole { length catalog.items ≡ progress.now.geometry.page_size }
    ensures only { ReadsOnly (D.outside disk.old) (D.outside disk.new) }
    ensures cause { result ≡ Err FinishFault.Disk
        → Rose (D.outside disk.old).disk_faults (D.outside disk.new).disk_faults }
    ensures page { IfOk result
        (λ l. length l.catalog.items ≡ progress.now.geometry.page_size) }
    ensures last { IfOk result (λ l. l.last ≡ progress.now.head.last) }
    ensures versions { IfOk result (λ l. l.versions ≡ versions) }
    ensures leaves { IfOk result (λ l. l.leaves ≡ progress.now.head.leaves) }
    ensures ended { OnOk result (progress.now.missing ≡ 0) }

    // What was written loads once the catalog is committed: the stream is a dump of its table.
    ensures loaded { IfOk result (λ l. (joined image : List ℕ)
        → (D.outside disk.old).disk ≡ Some image
        → (is : IsRead progress.now.geometry joined progress.now held.now)
        → IsWritten progress.now.geometry (home progress.now.geometry image)
        (history_of is.front) (entries_on catalog.items)
        → LoadsAs progress.now.geometry image joined l.catalog.items l.last l.leaves) }

    // What was read is no dump, where what it says was written.
    ensures bad { result ≡ Err FinishFault.Bad → (joined image : List ℕ)
        → (D.outside disk.old).disk ≡ Some image
        → (is : IsRead progress.now.geometry joined progress.now held.now)
        → IsWritten progress.now.geometry (home progress.now.geometry image)
        (history_of is.front) (entries_on catalog.items)
        → IsNoDump joined progress.now.geometry }
{
    if !is_all_read(progress, held) {
        return Err(FinishFault::Bad);
    }
    set_numbers(&mut catalog, progress.head.next_unique, progress.head.last);
    walk_written(alloc, disk, meta, progress, &catalog)?;
    Ok(Loaded {
        catalog,
        last: progress.head.last,
        versions,
        leaves: progress.head.leaves,
    })
}
