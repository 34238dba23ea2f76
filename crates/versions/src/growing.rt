//! Edits of large versions, and the conversion of a small one.
ghost use Rattle.std.specs.Prelude.{◌≡◌, ◌≤◌, ◌+◌, ◌^◌, [], ℕ, List, length, IfOk, IfErr, OnOk, IsTrue, false, ⊤};
ghost use Rattle.ex_base.specs.Sizes.{object_most};
ghost use Rattle.ex_base.specs.Fields.{IsPageField};
ghost use Rattle.ex_base.specs.Ports.{HasCause, IsDamage};
ghost use Rattle.ex_base.specs.declared.names.Area.{Area};
ghost use Rattle.object_records.specs.Record.{IsRecord, Small, Large};
ghost use Rattle.object_records.specs.Reads.{small_record, large_record};
ghost use Rattle.ex_base.specs.declared.names.Index.{Index};
ghost use Rattle.file_index.specs.Touches.{TouchesAtMost};
ghost use Rattle.file_bodies.specs.Files.{HasBody};
ghost use Rattle.trees.specs.Trees.{RootSpells, root_shape, root_units};
ghost use Rattle.trees.specs.Damage.{IsWhole, IsRootFault};
ghost use Rattle.trees.specs.Made.{Extends, AreUsed};
ghost use Rattle.trees.specs.Grown.{Turned};
ghost use Rattle.trees.specs.Roots.{IsRootFor};
ghost use Rattle.versions.specs.Versions.{HasRecord, HasVersion, AreInUse, Change, IsTreeShape, StaysSmall, InRange, changed, count_of, place_of};
ghost use Rattle.ex_base.specs.Needs.{growth_need, replace_need, delete_need};
ghost use Rattle.versions.specs.Needs.{most_need};
ghost use Rattle.versions.specs.Edited.{change_of, TurnsVersion};
ghost use Rattle.versions.specs.Put.{IsPlaced, PutsRecord};
ghost use Rattle.versions.specs.Damage.{no_tree, root_fault, IsPutFault, IsBytesFault};

use crate::editing::{Edit, Edited};
use crate::recorded::{check, no_root, place_of};
use ex_base::{
    Area, Geometry, Oid, PageNo, Place, PortFault, Root, Volume, delete_need, growth_need,
    replace_need,
};
use file_bodies::change_body;
use object_records::{Head, LARGE_LEN, write_large};
use std::alloc::Global;
use tree_delete::delete;
use tree_insert::{append, insert, replace};
use trees::is_root_for;

/// The most units of an area that an edit of a tree of a height takes.
pub fn large_need(geometry: &Geometry, edit: &Edit, height: u8, area: Area) -> u64
    requires { count_of (change_of edit.now) ≤ object_most }
    ensures is { result ≡ most_need geometry.now (change_of edit.now) height area }
    ensures few { result ≤ 2 ^ 40 }
{
    match edit {
        Edit::Insert { bytes, .. } => growth_need(geometry, bytes.len() as u64, height, area),
        Edit::Append { bytes } => growth_need(geometry, bytes.len() as u64, height, area),
        Edit::Replace { bytes, .. } => replace_need(geometry, bytes.len() as u64, height, area),
        Edit::Delete { .. } => delete_need(height, area),
    }
}

/// Whether the units that an edit of a tree of a height asks for are free.
fn has_units<V: Volume>(volume: &V, edit: &Edit, height: u8) -> bool
    requires ready { V.ready volume.now }
    requires count { count_of (change_of edit.now) ≤ object_most }
    ensures yes { IsTrue result → (area : Area)
        → most_need (V.geometry volume.now) (change_of edit.now) height area
        ≤ V.free volume.now area }
    ensures never { result ≡ false → ((area : Area)
        → most_need (V.geometry volume.now) (change_of edit.now) height area
        ≤ V.free volume.now area) → ⊥ }
{
    let geometry = volume.geometry();
    large_need(&geometry, edit, height, Area::Segment) <= u64::from(volume.free(Area::Segment))
        && large_need(&geometry, edit, height, Area::Page) <= u64::from(volume.free(Area::Page))
}

/// Whether the units that an append of so many bytes to no tree asks for are free.
fn has_first_units<V: Volume>(volume: &V, count: u64) -> bool
    requires ready { V.ready volume.now }
    requires count { count ≤ object_most }
    ensures yes { IsTrue result → (area : Area)
        → growth_need (V.geometry volume.now) count 0 area ≤ V.free volume.now area }
    ensures never { result ≡ false → ((area : Area)
        → growth_need (V.geometry volume.now) count 0 area ≤ V.free volume.now area) → ⊥ }
{
    let geometry = volume.geometry();
    growth_need(&geometry, count, 0, Area::Segment) <= u64::from(volume.free(Area::Segment))
        && growth_need(&geometry, count, 0, Area::Page) <= u64::from(volume.free(Area::Page))
}

/// Nothing where a root may stand in a record, else the fault of the page that it would be written on.
fn check_root(geometry: &Geometry, root: &Root, page: PageNo) -> Result<(), PortFault>
    ensures kept { OnOk result (IsRootFor geometry.now root.now × IsPageField root.now.page) }
    ensures never { IfErr result (λ fault. IsRootFor geometry.now root.now → IsPlaced root.now.page
        → ⊥) }
    ensures fault { IfErr result (λ fault. fault ≡ root_fault page root.now) }
    ensures cause { (before now : ℕ) → HasCause before now result }
{
    let is_placed = match root.page {
        None => true,
        Some(page) => page.0 > 0,
    };
    if is_placed && is_root_for(geometry, root) {
        return Ok(());
    }
    Err(no_root(page, root))
}

/// Writes the record of a large version in its place.
fn put_root<V: Volume>(
    volume: &mut V,
    alloc: Global,
    place: Place,
    head: &Head,
    root: &Root,
) -> Result<(), PortFault>
    requires ready { V.ready volume.old }
    requires head { IsRecord (small_record head.now []) }
    ensures put { OnOk result (V.tells volume.old → (index : Index) (was : List ℕ)
        → HasBody V.Ground volume.old index place was
        → PutsRecord V.Ground volume.old volume.new index place was
        (large_record head.now root.now)) }
    ensures free { OnOk result (V.free volume.new ≡ V.free volume.old) }
    ensures sound { IfErr result (λ fault. IsDamage fault → V.tells volume.old
        → (index : Index) (was : List ℕ) → HasBody V.Ground volume.old index place was
        → 36 ≤ length was
        → IsRootFor (V.geometry volume.old) root.now → IsPlaced root.now.page → ⊥) }
    ensures fault { IfErr result (λ fault. V.tells volume.old
        → IsPutFault V.Ground volume.old place root.now fault) }
    ensures touches { OnOk result (TouchesAtMost V.Ground volume.old volume.new 1) }
    ensures leads { V.leads volume.old volume.new }
    ensures cause { HasCause (V.faults volume.old) (V.faults volume.new) result }
{
    let geometry = volume.geometry();
    check_root(&geometry, root, place.page)?;
    let mut body = [0u8; LARGE_LEN];
    write_large(head, root, &mut body);
    let done = change_body(volume, alloc, place, &body)?;
    check(done, place)
}

/// Edits the bytes that a root spells, and gives the new root.
fn edit_tree<V: Volume>(
    volume: &mut V,
    alloc: Global,
    root: &Root,
    edit: &Edit,
) -> Result<Root, PortFault>
    requires ready { V.ready volume.old }
    requires root { IsRootFor (V.geometry volume.old) root.now }
    requires range { InRange (change_of edit.now) root.now.size }
    requires units { (area : Area)
        → most_need (V.geometry volume.old) (change_of edit.now) root.now.height area
        ≤ V.free volume.old area }
    ensures extends { OnOk result (Extends V.Ground volume.old volume.new) }
    ensures size { IfOk result (λ made. made.size ≤ object_most) }
    ensures spells { IfOk result (λ made. V.tells volume.old → (bytes : List ℕ)
        → RootSpells (V.geometry volume.old) (V.unit volume.old) root.now bytes
        → AreUsed (V.used volume.old) (root_units (V.unit volume.old) root.now)
        → RootSpells (V.geometry volume.new) (V.unit volume.new) made
        (changed (change_of edit.now) bytes)) }
    ensures shape { IfOk result (λ made. V.tells volume.old → (bytes : List ℕ)
        → RootSpells (V.geometry volume.old) (V.unit volume.old) root.now bytes
        → AreUsed (V.used volume.old) (root_units (V.unit volume.old) root.now)
        → IsTreeShape (V.geometry volume.old) (change_of edit.now)
        (root_shape (V.unit volume.old) root.now) (root_shape (V.unit volume.new) made)) }
    ensures turned { IfOk result (λ made. V.tells volume.old → (bytes : List ℕ)
        → RootSpells (V.geometry volume.old) (V.unit volume.old) root.now bytes
        → AreUsed (V.used volume.old) (root_units (V.unit volume.old) root.now)
        → Turned V.Ground volume.old volume.new (root_units (V.unit volume.old) root.now)
        (root_units (V.unit volume.new) made)) }
    ensures free { OnOk result ((area : Area)
        → V.free volume.old area ≤ V.free volume.new area
        + most_need (V.geometry volume.old) (change_of edit.now) root.now.height area) }
    ensures sound { IfErr result (λ fault. IsDamage fault → V.tells volume.old
        → IsWhole (V.geometry volume.old) (V.unit volume.old) root.now → ⊥) }
    ensures fault { IfErr result (λ fault. V.tells volume.old
        → IsRootFault (V.geometry volume.old) (V.unit volume.old) root.now fault) }
    ensures leads { V.leads volume.old volume.new }
    ensures cause { HasCause (V.faults volume.old) (V.faults volume.new) result }
{
    match edit {
        Edit::Insert { pos, bytes } => insert(volume, alloc, root, *pos, bytes),
        Edit::Append { bytes } => append(volume, alloc, root, bytes),
        Edit::Replace { pos, bytes } => replace(volume, alloc, root, *pos, bytes),
        Edit::Delete { pos, len } => delete(volume, alloc, root, *pos, *len),
    }
}

/// Edits a large version. Its record names the new tree once that stands.
pub(crate) fn edit_large<V: Volume>(
    volume: &mut V,
    alloc: Global,
    oid: &Oid,
    head: &Head,
    root: &Root,
    edit: &Edit,
) -> Result<Edited, PortFault>
    requires ready { V.ready volume.old }
    requires head { IsRecord (small_record head.now []) }
    requires root { IsRootFor (V.geometry volume.old) root.now }
    requires range { InRange (change_of edit.now) root.now.size }
    ensures size { IfOk result (λ done. V.tells volume.old → (index : Index) (bytes : List ℕ)
        → HasVersion V.Ground volume.old index oid.now head.now (Large root.now) bytes
        → done.size ≡ length (changed (change_of edit.now) bytes)) }
    ensures edited { IfOk result (λ done. V.tells volume.old → AreInUse V.Ground volume.old
        → (index : Index) (bytes : List ℕ)
        → HasVersion V.Ground volume.old index oid.now head.now (Large root.now) bytes
        → TurnsVersion V.Ground volume.old volume.new index oid.now head.now (Large root.now)
        (change_of edit.now) (changed (change_of edit.now) bytes) done.gone done.come) }
    ensures free { OnOk result ((area : Area)
        → V.free volume.old area ≤ V.free volume.new area
        + most_need (V.geometry volume.old) (change_of edit.now) root.now.height area) }
    ensures sound { IfErr result (λ fault. IsDamage fault → V.tells volume.old
        → AreInUse V.Ground volume.old → (index : Index) (bytes : List ℕ)
        → HasVersion V.Ground volume.old index oid.now head.now (Large root.now) bytes
        → ((area : Area) → most_need (V.geometry volume.old)
        (change_of edit.now) root.now.height area ≤ V.free volume.old area) → ⊥) }
    ensures fault { IfErr result (λ fault. V.tells volume.old
        → IsBytesFault (V.geometry volume.old) (V.unit volume.old) oid.now root.now
        (AreInUse V.Ground volume.old → (index : Index)
        → HasRecord V.Ground volume.old index oid.now (large_record head.now root.now)
        → ((area : Area) → most_need (V.geometry volume.old)
        (change_of edit.now) root.now.height area ≤ V.free volume.old area) → ⊥) fault) }
    ensures touches { OnOk result (TouchesAtMost V.Ground volume.old volume.new 1) }
    ensures leads { V.leads volume.old volume.new }
    ensures cause { HasCause (V.faults volume.old) (V.faults volume.new) result }
{
    let place = place_of(oid);
    check(has_units(volume, edit, root.height), place)?;
    let made = edit_tree(volume, alloc, root, edit)?;
    put_root(volume, alloc, place, head, &made)?;
    Ok(Edited {
        size: made.size,
        gone: Some(*root),
        come: Some(made),
    })
}

/// Makes a small version a large one of the bytes after an edit that names so many: they are laid out as one append to no tree.
pub(crate) fn convert<V: Volume>(
    volume: &mut V,
    alloc: Global,
    oid: &Oid,
    head: &Head,
    count: u64,
    bytes: &[u8],
) -> Result<Edited, PortFault>
    requires ready { V.ready volume.old }
    requires head { IsRecord (small_record head.now []) }
    requires count { count ≤ object_most }
    requires some { 1 ≤ length bytes.now }
    requires limit { length bytes.now ≤ object_most }
    requires page { length bytes.now ≤ count + (V.geometry volume.old).page_size }
    ensures size { IfOk result (λ done. done.size ≡ length bytes.now) }
    ensures edited { IfOk result (λ done. V.tells volume.old → AreInUse V.Ground volume.old
        → (index : Index) (held : List ℕ)
        → HasVersion V.Ground volume.old index oid.now head.now (Small held) held
        → (StaysSmall V.Ground volume.old (place_of oid.now) (Small held) (length bytes.now) → ⊥)
        → (change : Change) → TurnsVersion V.Ground volume.old volume.new index oid.now head.now
        (Small held) change bytes.now done.gone done.come) }
    ensures free { OnOk result ((area : Area)
        → V.free volume.old area ≤ V.free volume.new area
        + growth_need (V.geometry volume.old) count 0 area) }
    ensures sound { IfErr result (λ fault. IsDamage fault → V.tells volume.old
        → AreInUse V.Ground volume.old → (index : Index) (held : List ℕ)
        → HasVersion V.Ground volume.old index oid.now head.now (Small held) held
        → ((area : Area) → growth_need (V.geometry volume.old) count 0 area
        ≤ V.free volume.old area) → ⊥) }
    ensures fault { IfErr result (λ fault. V.tells volume.old
        → IsBytesFault (V.geometry volume.old) (V.unit volume.old) oid.now no_tree ⊤ fault) }
    ensures touches { OnOk result (TouchesAtMost V.Ground volume.old volume.new 1) }
    ensures leads { V.leads volume.old volume.new }
    ensures cause { HasCause (V.faults volume.old) (V.faults volume.new) result }
{
    let place = place_of(oid);
    check(has_first_units(volume, count), place)?;
    let made = append(volume, alloc, &Root::EMPTY, bytes)?;
    put_root(volume, alloc, place, head, &made)?;
    Ok(Edited {
        size: made.size,
        gone: None,
        come: Some(made),
    })
}
