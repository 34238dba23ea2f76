// The walk of the tree of a root.
ghost use Rattle.std.specs.Prelude.{◌≡◌, Err, IfOk, OnOk};
ghost use Rattle.ex_base.specs.Faults.{Rose};
ghost use Rattle.ex_base.specs.Ports.{Keeps};
ghost use Rattle.object_records.specs.Record.{IsRootField};
ghost use Rattle.page_alloc.specs.UnitSet.{used_at, refs_at};
ghost use Rattle.trees.specs.Owners.{page_here};
ghost use Rattle.trees.specs.Trees.{Units as Bytes};
ghost use Rattle.session_views.specs.declared.part.Part.{Part as VolumePart};
ghost use Rattle.session_views.specs.declared.part.Part.TheVariants.{Node as NodePart};
ghost use Rattle.node_walk.specs.Counts.{AreTracked, CountsMet};
ghost use Rattle.node_walk.specs.Notes.{notes_in};
ghost use Rattle.node_walk.specs.TreesNamed.{ShowsPages};
ghost use Rattle.node_walk.specs.Walk.{AreNoted, CanWalk, RootWalked, StayUsed, root_row};

use crate::least::ROOT_LEAST;
use crate::notes::TreeNotes;
use crate::walk::walk;
use ex_base::{Geometry, OBJECT_MOST, ReadPages, Root};
use page_alloc::Units;
use session_views::OpenFault;
use std::alloc::Global;
use trees::Part;

/// Walks the tree of a root, but for what other trees of its object have, and tells whether it is balanced there.
pub(crate) fn walk_tree<P: ReadPages>(
    pages: &mut P,
    alloc: Global,
    geometry: &Geometry,
    units: &mut Units,
    known: &mut TreeNotes,
    root: &Root,
) -> Result<bool, OpenFault>
    requires ready { P.ready pages.old }
    requires geometry { geometry.now ≡ P.geometry pages.old }
    requires units { units.old.geometry ≡ geometry.now }
    requires tracked { AreTracked geometry.now units.old (notes_in known.old) }
    requires root { IsRootField root.now }
    ensures walked { IfOk result (λ balanced. P.tells pages.old → (bytes : Bytes)
        → ShowsPages geometry.now (P.image pages.old) bytes
        → AreNoted geometry.now bytes (notes_in known.old)
        → RootWalked geometry.now bytes root.now (used_at units.old) (notes_in known.old)
        (used_at units.new) (notes_in known.new) balanced) }
    ensures bad { (part : VolumePart) → result ≡ Err (OpenFault.BadVolume part) → P.tells pages.old
        → (bytes : Bytes) → ShowsPages geometry.now (P.image pages.old) bytes
        → AreNoted geometry.now bytes (notes_in known.old)
        → (part ≡ NodePart) × (CanWalk geometry.now bytes (used_at units.old)
        (notes_in known.old) root.now.height (root_row root.now) → ⊥) }
    ensures kept { Keeps P.Ground pages.old pages.new }
    ensures disk { result ≡ Err OpenFault.Disk → Rose (P.faults pages.old) (P.faults pages.new) }
    ensures counts { OnOk result (P.tells pages.old → (bytes : Bytes)
        → ShowsPages geometry.now (P.image pages.old) bytes
        → AreNoted geometry.now bytes (notes_in known.old)
        → CountsMet geometry.now bytes (page_here root.now.page) (used_at units.old)
        (refs_at units.old) (used_at units.new) (refs_at units.new) (notes_in known.new)) }
    ensures tracked { OnOk result (AreTracked geometry.now units.new (notes_in known.new)) }
    ensures stays { StayUsed units.old units.new }
    ensures geometry { units.new.geometry ≡ units.old.geometry }
{
    let Some(page) = root.page else {
        return Ok(true);
    };
    let tree = Part {
        size: root.size,
        page,
    };
    let balanced = walk(
        pages,
        alloc,
        geometry,
        units,
        known,
        root.height,
        ROOT_LEAST,
        tree,
    )?;
    Ok(balanced && root.size <= OBJECT_MOST)
}
