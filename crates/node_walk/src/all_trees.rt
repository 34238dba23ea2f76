// The walk of all trees.
ghost use Rattle.std.specs.Prelude.{◌≡◌, ◌≤◌, ℕ, Bool, List, length, Err, None, Some, OnOk};
ghost use Rattle.std.specs.List.{AllByRecursion};
ghost use Rattle.ex_base.specs.Faults.{Rose};
ghost use Rattle.ex_base.specs.Ports.{Keeps};
ghost use Rattle.object_records.specs.Record.{IsRootField};
ghost use Rattle.page_alloc.specs.UnitSet.{used_at, refs_at};
ghost use Rattle.trees.specs.Owners.{IsOwned, root_pages};
ghost use Rattle.trees.specs.Trees.{Units as Bytes};
ghost use Rattle.session_views.specs.declared.part.Part.{Part};
ghost use Rattle.volume_model.specs.OwnersMoved.{roots_most};
ghost use Rattle.node_walk.specs.Counts.{AreCounted, AreUsed};
ghost use Rattle.node_walk.specs.Notes.{notes_in};
ghost use Rattle.node_walk.specs.TreesNamed.{ShowsPages, AreGrouped, AreNamed, AreBalanced, UsesTrees, FailsFirst, trees_in};
ghost use Rattle.node_walk.specs.Walk.{StayUsed, TurnsTo};
ghost use Rattle.node_walk.specs.declared.ObjectRoot.{ObjectRoot as RootOfObject};

use crate::ObjectRoot;
use crate::faults::BAD_BALANCE;
use crate::notes::TreeNotes;
use crate::tree::walk_tree;
use ex_base::{Geometry, ReadPages};
use page_alloc::Units;
use session_views::OpenFault;
use std::alloc::Global;

/// What is noted of the units of an object's trees.
#[derive(Drop)]
pub(crate) struct ObjectNotes {
    pub object: usize,
    pub known: TreeNotes,
}

impl ObjectNotes {
    /// Turns to an object: where it is another one than before, no unit has a note.
    fn turn_to(&mut self, alloc: Global, object: usize)
        ensures object { self.new.object ≡ object }
        ensures known { TurnsTo self.old.object (notes_in self.old.known) object
            (notes_in self.new.known) }
    {
        if self.object != object {
            self.object = object;
            self.known = TreeNotes::new(alloc);
        }
    }
}

/// Walks the trees of roots that are grouped by their objects.
fn walk_grouped<P: ReadPages>(
    pages: &mut P,
    alloc: Global,
    geometry: &Geometry,
    units: &mut Units,
    roots: &[ObjectRoot],
) -> Result<(), OpenFault>
    requires ready { P.ready pages.old }
    requires geometry { geometry.now ≡ P.geometry pages.old }
    requires units { units.old.geometry ≡ geometry.now }
    requires fresh { refs_at units.old ≡ (λ _. 0) }
    requires roots { AllByRecursion (λ (r : RootOfObject). IsRootField r.root) roots.now }
    requires grouped { AreGrouped roots.now }
    ensures named { OnOk result (P.tells pages.old → (bytes : Bytes)
        → ShowsPages geometry.now (P.image pages.old) bytes
        → AreNamed geometry.now bytes (used_at units.old) roots.now) }
    ensures balanced { OnOk result (P.tells pages.old → (bytes : Bytes)
        → ShowsPages geometry.now (P.image pages.old) bytes
        → AreBalanced geometry.now bytes (trees_in roots.now)) }
    ensures used { OnOk result (P.tells pages.old → (bytes : Bytes)
        → ShowsPages geometry.now (P.image pages.old) bytes
        → UsesTrees bytes (trees_in roots.now) (used_at units.old) (used_at units.new)) }
    ensures bad { (part : Part) → result ≡ Err (OpenFault.BadVolume part) → P.tells pages.old
        → (bytes : Bytes) → ShowsPages geometry.now (P.image pages.old) bytes
        → FailsFirst geometry.now bytes (used_at units.old) roots.now part }
    ensures kept { Keeps P.Ground pages.old pages.new }
    ensures disk { result ≡ Err OpenFault.Disk → Rose (P.faults pages.old) (P.faults pages.new) }
    ensures owned { OnOk result (P.tells pages.old → (bytes : Bytes)
        → ShowsPages geometry.now (P.image pages.old) bytes → length roots.now ≤ roots_most
        → (logged : List ℕ) → AreUsed (used_at units.old) logged
        → IsOwned geometry.now bytes (used_at units.new) (refs_at units.new) logged
        (root_pages (trees_in roots.now))) }
    ensures counted { OnOk result (AreCounted units.new) }
    ensures stays { StayUsed units.old units.new }
    ensures geometry { units.new.geometry ≡ units.old.geometry }
{
    let mut notes = ObjectNotes {
        object: 0,
        known: TreeNotes::new(alloc),
    };
    let mut balanced = true;
    for root in roots {
        notes.turn_to(alloc, root.object);
        let same = walk_tree(pages, alloc, geometry, units, &mut notes.known, &root.root)?;
        balanced = balanced && same;
    }
    if !balanced {
        return Err(BAD_BALANCE);
    }
    Ok(())
}

/// Walks the trees of these roots, makes their units used, and gives each as many references as roots and pairs of nodes name it. At first the catalog's
/// page and the pages of files are used, and no unit has a reference. `Node` where a tree isn't well formed, has a unit that is used, or shares one with a
/// tree of another object; `Balance` where no tree fails so, but one isn't balanced. A node is read once, however often the trees of its object name it.
pub fn walk_trees<P: ReadPages>(
    pages: &mut P,
    alloc: Global,
    geometry: &Geometry,
    units: &mut Units,
    roots: Vec<ObjectRoot>,
) -> Result<(), OpenFault>
    requires ready { P.ready pages.old }
    requires geometry { geometry.now ≡ P.geometry pages.old }
    requires units { units.old.geometry ≡ geometry.now }
    requires fresh { refs_at units.old ≡ (λ _. 0) }
    requires roots { AllByRecursion (λ (r : RootOfObject). IsRootField r.root) roots.items }
    ensures named { OnOk result (P.tells pages.old → (bytes : Bytes)
        → ShowsPages geometry.now (P.image pages.old) bytes
        → AreNamed geometry.now bytes (used_at units.old) roots.items) }
    ensures balanced { OnOk result (P.tells pages.old → (bytes : Bytes)
        → ShowsPages geometry.now (P.image pages.old) bytes
        → AreBalanced geometry.now bytes (trees_in roots.items)) }
    ensures used { OnOk result (P.tells pages.old → (bytes : Bytes)
        → ShowsPages geometry.now (P.image pages.old) bytes
        → UsesTrees bytes (trees_in roots.items) (used_at units.old) (used_at units.new)) }
    ensures bad { (part : Part) → result ≡ Err (OpenFault.BadVolume part) → P.tells pages.old
        → (bytes : Bytes) → ShowsPages geometry.now (P.image pages.old) bytes
        → FailsFirst geometry.now bytes (used_at units.old) roots.items part }
    ensures kept { Keeps P.Ground pages.old pages.new }
    ensures disk { result ≡ Err OpenFault.Disk → Rose (P.faults pages.old) (P.faults pages.new) }
    ensures owned { OnOk result (P.tells pages.old → (bytes : Bytes)
        → ShowsPages geometry.now (P.image pages.old) bytes → length roots.items ≤ roots_most
        → (logged : List ℕ) → AreUsed (used_at units.old) logged
        → IsOwned geometry.now bytes (used_at units.new) (refs_at units.new) logged
        (root_pages (trees_in roots.items))) }
    ensures counted { OnOk result (AreCounted units.new) }
    ensures stays { StayUsed units.old units.new }
    ensures geometry { units.new.geometry ≡ units.old.geometry }
{
    let mut grouped = roots;
    grouped.sort_unstable_by_key(|root| root.object);
    walk_grouped(pages, alloc, geometry, units, &grouped)
}
