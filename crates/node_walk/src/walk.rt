// The walk of one tree.
ghost use Rattle.std.specs.Prelude.{◌≡◌, ◌≤◌, true, false, [], ◌∷◌, Err, OnOk, IfOk};
ghost use Rattle.node_walk.specs.Notes.{notes_in};
ghost use Rattle.ex_base.specs.Area.{IsUnit};
ghost use Rattle.ex_base.specs.Faults.{Rose};
ghost use Rattle.ex_base.specs.Ports.{Keeps};
ghost use Rattle.page_alloc.specs.UnitSet.{used_at, refs_at};
ghost use Rattle.trees.specs.Trees.{Units as Bytes, IsNamed};
ghost use Rattle.session_views.specs.declared.part.Part.{Part as VolumePart};
ghost use Rattle.session_views.specs.declared.part.Part.TheVariants.{Node as NodePart};
ghost use Rattle.node_walk.specs.TreesNamed.{ShowsPages};
ghost use Rattle.node_walk.specs.Counts.{AreTracked, CountsMet, counted_at};
ghost use Rattle.node_walk.specs.Walk.{AreNoted, IsKnown, IsFirst, Meets, Walked, CanWalk, OnlyUses, StayUsed};

use crate::faults::{BAD_NODE, open_fault};
use crate::least::{Least, is_asked, least_below};
use crate::nodes::{LEAF, Node, read_node};
use crate::notes::TreeNotes;
use ex_base::{Geometry, PageNo, ReadPages};
use page_alloc::Units;
use session_views::OpenFault;
use std::alloc::Global;
use trees::Part;

/// A leaf that the tree names for the first time.
fn first_leaf(
    alloc: Global,
    geometry: &Geometry,
    units: &Units,
    page: PageNo,
) -> Result<Node, OpenFault>
    requires units { units.now.geometry ≡ geometry.now }
    ensures unit { OnOk result (IsUnit geometry.now page.0) }
    ensures free { OnOk result (used_at units.now page.0 ≡ false) }
    ensures leaf { IfOk result (λ node. node.below.items ≡ []) }
    ensures first { IfOk result (λ node. (bytes : Bytes)
        → IsFirst geometry.now bytes 0 page.0 node.met node.below.items (used_at units.now)) }
    ensures bad { (part : VolumePart) → result ≡ Err (OpenFault.BadVolume part) → (bytes : Bytes)
        → (part ≡ NodePart) × (IsNamed geometry.now bytes 0 page.0
        → used_at units.now page.0 ≡ true) }
    ensures disk { result ≡ Err OpenFault.Disk → ⊥ }
{
    if !geometry.names_leaf(page) || units.is_used(page) {
        return Err(BAD_NODE);
    }
    Ok(Node {
        met: LEAF,
        below: Vec::new(alloc),
    })
}

/// A node of a level that the tree names for the first time.
fn first_node<P: ReadPages>(
    pages: &mut P,
    alloc: Global,
    geometry: &Geometry,
    units: &Units,
    level: u8,
    page: PageNo,
) -> Result<Node, OpenFault>
    requires ready { P.ready pages.old }
    requires geometry { geometry.now ≡ P.geometry pages.old }
    requires units { units.now.geometry ≡ geometry.now }
    requires level { 1 ≤ level }
    ensures unit { OnOk result (IsUnit geometry.now page.0) }
    ensures free { OnOk result (used_at units.now page.0 ≡ false) }
    ensures first { IfOk result (λ node. P.tells pages.old → (bytes : Bytes)
        → ShowsPages geometry.now (P.image pages.old) bytes
        → IsFirst geometry.now bytes level page.0 node.met node.below.items (used_at units.now)) }
    ensures bad { (part : VolumePart) → result ≡ Err (OpenFault.BadVolume part) → P.tells pages.old
        → (bytes : Bytes) → ShowsPages geometry.now (P.image pages.old) bytes
        → (part ≡ NodePart) × (IsNamed geometry.now bytes level page.0
        → used_at units.now page.0 ≡ true) }
    ensures kept { Keeps P.Ground pages.old pages.new }
    ensures disk { result ≡ Err OpenFault.Disk → Rose (P.faults pages.old) (P.faults pages.new) }
{
    if !geometry.in_page_area(page) || units.is_used(page) {
        return Err(BAD_NODE);
    }
    let found = match read_node(pages, alloc, geometry.fan, page) {
        Ok(found) => found,
        Err(fault) => return Err(open_fault(fault)),
    };
    let Some(node) = found else {
        return Err(BAD_NODE);
    };
    if node.met.level != level {
        return Err(BAD_NODE);
    }
    Ok(node)
}

/// A unit that the tree names for the first time, where it can be the root of a tree of this level.
fn first_met<P: ReadPages>(
    pages: &mut P,
    alloc: Global,
    geometry: &Geometry,
    units: &Units,
    level: u8,
    page: PageNo,
) -> Result<Node, OpenFault>
    requires ready { P.ready pages.old }
    requires geometry { geometry.now ≡ P.geometry pages.old }
    requires units { units.now.geometry ≡ geometry.now }
    ensures unit { OnOk result (IsUnit geometry.now page.0) }
    ensures free { OnOk result (used_at units.now page.0 ≡ false) }
    ensures leaf { IfOk result (λ node. level ≡ 0 → node.below.items ≡ []) }
    ensures first { IfOk result (λ node. P.tells pages.old → (bytes : Bytes)
        → ShowsPages geometry.now (P.image pages.old) bytes
        → IsFirst geometry.now bytes level page.0 node.met node.below.items (used_at units.now)) }
    ensures bad { (part : VolumePart) → result ≡ Err (OpenFault.BadVolume part) → P.tells pages.old
        → (bytes : Bytes) → ShowsPages geometry.now (P.image pages.old) bytes
        → (part ≡ NodePart) × (IsNamed geometry.now bytes level page.0
        → used_at units.now page.0 ≡ true) }
    ensures kept { Keeps P.Ground pages.old pages.new }
    ensures disk { result ≡ Err OpenFault.Disk → Rose (P.faults pages.old) (P.faults pages.new) }
{
    if level == 0 {
        return first_leaf(alloc, geometry, units, page);
    }
    first_node(pages, alloc, geometry, units, level, page)
}

/// Notes a unit of a tree. Where the tree named it before nothing is left to be walked below it; else it is in use from now on.
fn note<P: ReadPages>(
    pages: &mut P,
    alloc: Global,
    geometry: &Geometry,
    units: &mut Units,
    known: &mut TreeNotes,
    level: u8,
    page: PageNo,
) -> Result<Node, OpenFault>
    requires ready { P.ready pages.old }
    requires geometry { geometry.now ≡ P.geometry pages.old }
    requires units { units.old.geometry ≡ geometry.now }
    requires tracked { AreTracked geometry.now units.old (notes_in known.old) }
    ensures unit { OnOk result (IsUnit geometry.now page.0) }
    ensures leaf { IfOk result (λ node. level ≡ 0 → node.below.items ≡ []) }
    ensures met { IfOk result (λ node. P.tells pages.old → (bytes : Bytes)
        → ShowsPages geometry.now (P.image pages.old) bytes
        → Meets geometry.now bytes level page.0 node.met node.below.items (used_at units.old)
        (notes_in known.old) (used_at units.new) (notes_in known.new)) }
    ensures bad { (part : VolumePart) → result ≡ Err (OpenFault.BadVolume part) → P.tells pages.old
        → (bytes : Bytes) → ShowsPages geometry.now (P.image pages.old) bytes
        → AreNoted geometry.now bytes (notes_in known.old)
        → (part ≡ NodePart) × (IsNamed geometry.now bytes level page.0
        → (used_at units.old page.0 ≡ true → IsKnown (notes_in known.old) page.0) → ⊥) }
    ensures kept { Keeps P.Ground pages.old pages.new }
    ensures disk { result ≡ Err OpenFault.Disk → Rose (P.faults pages.old) (P.faults pages.new) }
    ensures uses { OnlyUses units.old units.new }
    ensures tracked { OnOk result (AreTracked geometry.now units.new (notes_in known.new)) }
    ensures noted { OnOk result (IsKnown (notes_in known.new) page.0) }
{
    if let Some(met) = known.get(page) {
        if met.level != level {
            return Err(BAD_NODE);
        }
        return Ok(Node {
            met,
            below: Vec::new(alloc),
        });
    }
    let node = first_met(pages, alloc, geometry, units, level, page)?;
    units.adopt(page);
    match known.insert(page, node.met) {
        Ok(_) => Ok(node),
        Err(_) => Err(OpenFault::Memory),
    }
}

/// Meets a unit of a tree at a root or a pair that names it, which counts. Where the tree named it before nothing is left to be walked below it; else it
/// is in use from now on.
fn meet<P: ReadPages>(
    pages: &mut P,
    alloc: Global,
    geometry: &Geometry,
    units: &mut Units,
    known: &mut TreeNotes,
    level: u8,
    page: PageNo,
) -> Result<Node, OpenFault>
    requires ready { P.ready pages.old }
    requires geometry { geometry.now ≡ P.geometry pages.old }
    requires units { units.old.geometry ≡ geometry.now }
    requires tracked { AreTracked geometry.now units.old (notes_in known.old) }
    ensures leaf { IfOk result (λ node. level ≡ 0 → node.below.items ≡ []) }
    ensures met { IfOk result (λ node. P.tells pages.old → (bytes : Bytes)
        → ShowsPages geometry.now (P.image pages.old) bytes
        → Meets geometry.now bytes level page.0 node.met node.below.items (used_at units.old)
        (notes_in known.old) (used_at units.new) (notes_in known.new)) }
    ensures bad { (part : VolumePart) → result ≡ Err (OpenFault.BadVolume part) → P.tells pages.old
        → (bytes : Bytes) → ShowsPages geometry.now (P.image pages.old) bytes
        → AreNoted geometry.now bytes (notes_in known.old)
        → (part ≡ NodePart) × (IsNamed geometry.now bytes level page.0
        → (used_at units.old page.0 ≡ true → IsKnown (notes_in known.old) page.0) → ⊥) }
    ensures kept { Keeps P.Ground pages.old pages.new }
    ensures disk { result ≡ Err OpenFault.Disk → Rose (P.faults pages.old) (P.faults pages.new) }
    ensures counted { OnOk result
        (refs_at units.new ≡ counted_at (refs_at units.old) page.0) }
    ensures tracked { OnOk result (AreTracked geometry.now units.new (notes_in known.new)) }
    ensures noted { OnOk result (IsKnown (notes_in known.new) page.0) }
    ensures stays { StayUsed units.old units.new }
    ensures geometry { units.new.geometry ≡ units.old.geometry }
{
    let node = note(pages, alloc, geometry, units, known, level, page)?;
    units.add_ref(page);
    Ok(node)
}

/// Walks a tree, and tells whether it is balanced as far as it was not walked before. A node is read once, however often it is named; each time that a
/// unit is named counts as a reference of it.
pub(crate) fn walk<P: ReadPages>(
    pages: &mut P,
    alloc: Global,
    geometry: &Geometry,
    units: &mut Units,
    known: &mut TreeNotes,
    level: u8,
    least: Least,
    tree: Part,
) -> Result<bool, OpenFault>
    requires ready { P.ready pages.old }
    requires geometry { geometry.now ≡ P.geometry pages.old }
    requires units { units.old.geometry ≡ geometry.now }
    requires tracked { AreTracked geometry.now units.old (notes_in known.old) }
    ensures walked { IfOk result (λ balanced. P.tells pages.old → (bytes : Bytes)
        → ShowsPages geometry.now (P.image pages.old) bytes
        → AreNoted geometry.now bytes (notes_in known.old)
        → Walked geometry.now bytes level least (tree
        ∷ []) (used_at units.old) (notes_in known.old) (used_at units.new)
        (notes_in known.new) balanced) }
    ensures bad { (part : VolumePart) → result ≡ Err (OpenFault.BadVolume part) → P.tells pages.old
        → (bytes : Bytes) → ShowsPages geometry.now (P.image pages.old) bytes
        → AreNoted geometry.now bytes (notes_in known.old)
        → (part ≡ NodePart) × (CanWalk geometry.now bytes (used_at units.old)
        (notes_in known.old) level (tree ∷ []) → ⊥) }
    ensures kept { Keeps P.Ground pages.old pages.new }
    ensures disk { result ≡ Err OpenFault.Disk → Rose (P.faults pages.old) (P.faults pages.new) }
    ensures counts { OnOk result (P.tells pages.old → (bytes : Bytes)
        → ShowsPages geometry.now (P.image pages.old) bytes
        → AreNoted geometry.now bytes (notes_in known.old)
        → CountsMet geometry.now bytes (tree.page.0 ∷ []) (used_at units.old) (refs_at units.old)
        (used_at units.new) (refs_at units.new) (notes_in known.new)) }
    ensures tracked { OnOk result (AreTracked geometry.now units.new (notes_in known.new)) }
    ensures stays { StayUsed units.old units.new }
    ensures geometry { units.new.geometry ≡ units.old.geometry }
{
    let node = meet(pages, alloc, geometry, units, known, level, tree.page)?;
    let asked = is_asked(geometry, least, node.met, tree.size);
    let below = least_below(geometry);
    let mut balanced = true;
    for child in &node.below {
        let same = walk(
            pages,
            alloc,
            geometry,
            units,
            known,
            level - 1,
            below,
            *child,
        )?;
        balanced = balanced && same;
    }
    Ok(asked && balanced)
}
