// The trees of files, and how many pages the files may need.
ghost use Rattle.std.specs.Prelude.{◌≡◌, ◌≤◌, ◌<◌, ◌^◌, ◌+◌, ℕ, List, IfErr, IfOk, OnOk};
ghost use Rattle.std.specs.List.{AllByRecursion, AllZip, flat_map};
ghost use Rattle.ex_base.specs.Even.{sum_of};
ghost use Rattle.ex_base.specs.Ports.{Keeps, HasCause, IsDamage};
ghost use Rattle.ex_base.specs.declared.names.Root.{Root as RootOf};
ghost use Rattle.trees.specs.Trees.{Units, RootNamed, RootSized};
ghost use Rattle.volume_model.specs.Volume.{FileContent};
ghost use Rattle.history_plans.specs.Files.{AreNamed, AreTrees, HasStored, pages_stored, root_listed, roots_listed, roots_stored};
ghost use Rattle.history_plans.specs.Pieces.{IsClosed, LeavesRoots, ShowsPages};

use crate::faults::NO_CATALOG;
use crate::file_pages::pages_for;
use crate::pieces::Pieces;
use crate::records::records_in_order;
use crate::walk::walk_root;
use ex_base::{PortFault, ReadVolume};
use record_lists::Listed;
use std::alloc::Global;

/// Walks the tree of a record, where it has one.
fn walk_record<V: ReadVolume>(
    volume: &mut V,
    alloc: Global,
    pieces: &mut Pieces,
    listed: &Listed,
) -> Result<(), PortFault>
    requires { V.ready volume.old }
    ensures walked { OnOk result (V.tells volume.old → (units : Units)
        → ShowsPages (V.geometry volume.old) (V.image volume.old) units
        → IsClosed (V.geometry volume.old) units pieces.old
        → AreNamed (V.geometry volume.old) units (root_listed listed.now)
        → LeavesRoots (V.geometry volume.old) units (root_listed listed.now) pieces.old pieces.new) }
    ensures sound { IfErr result (λ fault. IsDamage fault → V.tells volume.old → (units : Units)
        → ShowsPages (V.geometry volume.old) (V.image volume.old) units
        → AreTrees (V.geometry volume.old) units (root_listed listed.now) → ⊥) }
    ensures kept { Keeps V.Ground volume.old volume.new }
    ensures cause { HasCause (V.faults volume.old) (V.faults volume.new) result }
{
    match &listed.root {
        Some(root) => walk_root(volume, alloc, pieces, root),
        None => Ok(()),
    }
}

/// Walks the trees of records.
fn walk_records<V: ReadVolume>(
    volume: &mut V,
    alloc: Global,
    pieces: &mut Pieces,
    records: &[Listed],
) -> Result<(), PortFault>
    requires { V.ready volume.old }
    ensures walked { OnOk result (V.tells volume.old → (units : Units)
        → ShowsPages (V.geometry volume.old) (V.image volume.old) units
        → IsClosed (V.geometry volume.old) units pieces.old
        → AreNamed (V.geometry volume.old) units (roots_listed records.now)
        → LeavesRoots (V.geometry volume.old) units
        (roots_listed records.now) pieces.old pieces.new) }
    ensures sound { IfErr result (λ fault. IsDamage fault → V.tells volume.old → (units : Units)
        → ShowsPages (V.geometry volume.old) (V.image volume.old) units
        → AreTrees (V.geometry volume.old) units (roots_listed records.now) → ⊥) }
    ensures kept { Keeps V.Ground volume.old volume.new }
    ensures cause { HasCause (V.faults volume.old) (V.faults volume.new) result }
{
    for listed in records {
        match walk_record(volume, alloc, pieces, listed) {
            Ok(()) => {}
            Err(fault) => return Err(fault),
        }
    }
    Ok(())
}

/// Walks the trees of a file's versions in order of their numbers, and answers how many pages the file may need.
fn plan_file<V: ReadVolume>(
    volume: &mut V,
    alloc: Global,
    pieces: &mut Pieces,
    file_no: u32,
) -> Result<u64, PortFault>
    requires { V.ready volume.old }
    ensures walked { OnOk result (V.tells volume.old → (units : Units)
        → ShowsPages (V.geometry volume.old) (V.image volume.old) units
        → IsClosed (V.geometry volume.old) units pieces.old
        → (file : FileContent) → HasStored V.Ground volume.old file_no file
        → AreNamed (V.geometry volume.old) units (roots_stored file)
        → LeavesRoots (V.geometry volume.old) units (roots_stored file) pieces.old pieces.new) }
    ensures pages { IfOk result (λ pages. V.tells volume.old
        → (file : FileContent) → HasStored V.Ground volume.old file_no file
        → pages ≡ pages_stored (V.geometry volume.old).page_size file) }
    ensures sound { IfErr result (λ fault. IsDamage fault → V.tells volume.old → (units : Units)
        → ShowsPages (V.geometry volume.old) (V.image volume.old) units
        → (file : FileContent) → HasStored V.Ground volume.old file_no file
        → AreTrees (V.geometry volume.old) units (roots_stored file) → ⊥) }
    ensures kept { Keeps V.Ground volume.old volume.new }
    ensures cause { HasCause (V.faults volume.old) (V.faults volume.new) result }
{
    let page_size = volume.geometry().page_size;
    let records = match records_in_order(volume, alloc, file_no) {
        Ok(records) => records,
        Err(fault) => return Err(fault),
    };
    match walk_records(volume, alloc, pieces, &records) {
        Ok(()) => Ok(pages_for(page_size, &records)),
        Err(fault) => Err(fault),
    }
}

/// So many pages more, where a stream's head can say how many these are.
fn pages_more(pages: u32, more: u64) -> Result<u32, PortFault>
    ensures sum { IfOk result (λ sum. sum ≡ pages + more) }
    ensures sound { IfErr result (λ fault. pages + more < 2 ^ 32 → ⊥) }
    ensures cause { (before now : ℕ) → HasCause before now result }
{
    match u32::try_from(more) {
        Ok(more) => match pages.checked_add(more) {
            Some(sum) => Ok(sum),
            None => Err(NO_CATALOG),
        },
        Err(_) => Err(NO_CATALOG),
    }
}

/// Walks the trees of files one after the other, and answers how many pages they may need.
pub(crate) fn plan_files<V: ReadVolume>(
    volume: &mut V,
    alloc: Global,
    pieces: &mut Pieces,
    numbers: &[u32],
) -> Result<u32, PortFault>
    requires { V.ready volume.old }
    ensures walked { OnOk result (V.tells volume.old → (units : Units)
        → ShowsPages (V.geometry volume.old) (V.image volume.old) units
        → IsClosed (V.geometry volume.old) units pieces.old
        → (files : List FileContent)
        → AllZip (HasStored V.Ground volume.old) numbers.now files
        → AreNamed (V.geometry volume.old) units (flat_map roots_stored files)
        → LeavesRoots (V.geometry volume.old) units
        (flat_map roots_stored files) pieces.old pieces.new) }
    ensures pages { IfOk result (λ pages. V.tells volume.old → (files : List FileContent)
        → AllZip (HasStored V.Ground volume.old) numbers.now files
        → pages ≡ sum_of (pages_stored (V.geometry volume.old).page_size) files) }
    ensures sound { IfErr result (λ fault. IsDamage fault → V.tells volume.old → (units : Units)
        → ShowsPages (V.geometry volume.old) (V.image volume.old) units
        → (files : List FileContent)
        → AllZip (HasStored V.Ground volume.old) numbers.now files
        → AreTrees (V.geometry volume.old) units (flat_map roots_stored files)
        → sum_of (pages_stored (V.geometry volume.old).page_size) files < 2 ^ 32 → ⊥) }
    ensures kept { Keeps V.Ground volume.old volume.new }
    ensures cause { HasCause (V.faults volume.old) (V.faults volume.new) result }
{
    let mut pages = 0;
    for number in numbers {
        let more = match plan_file(volume, alloc, pieces, *number) {
            Ok(more) => more,
            Err(fault) => return Err(fault),
        };
        pages = match pages_more(pages, more) {
            Ok(sum) => sum,
            Err(fault) => return Err(fault),
        };
    }
    Ok(pages)
}
