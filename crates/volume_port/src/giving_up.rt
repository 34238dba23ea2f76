//! Trees gain an owner, and are given up, over the parts of a session.
ghost use Rattle.std.specs.Prelude.{◌≡◌, ◌≤◌, ◌<◌, ℕ, Some, [], ◌∷◌, length, OnOk, IfErr};
ghost use Rattle.ex_base.specs.Area.{area_end};
ghost use Rattle.ex_base.specs.Ports.{HasCause, IsDamage};
ghost use Rattle.ex_base.specs.declared.names.Area.TheVariants.{Page};
ghost use Rattle.ex_base.specs.declared.geometry.Geometry.{Geometry};
ghost use Rattle.page_alloc.specs.UnitSet.{free_count, refs_at, used_at};
ghost use Rattle.tree_store.specs.Stored.{Fits, IsCounted};
ghost use Rattle.trees.specs.Damage.{root_row};
ghost use Rattle.trees.specs.Owners.{root_pages};
ghost use Rattle.version_delete.specs.Released.{Blames, BlamesAlways, Gives, Released};
ghost use Rattle.volume_port.specs.GivingUp.{CountsRoot, GivesTrees, IsGivingFault, OwnRoots, ReleasesRoots, is_logged};

use crate::giving_port::GivingPort;
use crate::logged::LoggedPages;
use buffer_groups::Groups;
use disk_model::Disk;
use ex_base::{Geometry, Ground, PortFault, Root};
use page_alloc::{Filled, Units};
use std::alloc::Global;
use std::marker::Brand;
use std::sync::ledger::{Blank, Ledger};
use version_delete::Steps;

/// The index of `main` among the groups of a session. Its nodes and logged pages are read through it.
pub const MAIN: u32 = 0;

/// Adds an owner to the tree of a root. A page that names no unit has none, and an empty tree has no page.
pub fn own_root(units: &mut Units, geometry: &Geometry, root: &Root)
    requires geometry { units.old.geometry ≡ geometry.now }
    ensures counts { CountsRoot (Some root.now) units.old units.new }
    ensures counted { (g : Geometry) → IsCounted g units.old → IsCounted g units.new }
{
    let page = match root.page {
        Some(page) => page,
        None => return,
    };
    if geometry.names_unit(page) {
        units.add_ref(page);
    }
}

// Gives a tree up through a port. The steps are counted for nobody.
fn give_up_once<'a, D: Disk, L: Ledger>(
    port: &mut GivingPort<'a, D>,
    alloc: Global,
    root: &Root,
    blank: Blank,
) -> Result<(), PortFault>
    requires ready { ⟦<GivingPort<'a, D> as Ground>⟧.ready port.old }
    requires name { blank.name ≡ L.name }
    requires parts { blank.parts ≡ L.parts }
    requires some { 0 < blank.parts }
    ensures released { OnOk result (Released ⟦<GivingPort<'a, D> as Ground>⟧ port.old port.new
        root.now.height (root_pages (root.now ∷ []))) }
    ensures gives { Gives ⟦<GivingPort<'a, D> as Ground>⟧ port.old port.new }
    ensures quiet { OnOk result (⟦<GivingPort<'a, D> as Ground>⟧.free port.new Page
        ≡ ⟦<GivingPort<'a, D> as Ground>⟧.free port.old Page
        → port.new.disk.now ≡ port.old.disk.now) }
    ensures fault { IfErr result (λ fault. Blames ⟦<GivingPort<'a, D> as Ground>⟧ port.old
        root.now.height 2 (root_row root.now) fault) }
    ensures way { IfErr result (λ fault. BlamesAlways ⟦<GivingPort<'a, D> as Ground>⟧ port.old
        root.now.height 2 (root_row root.now) fault) }
    ensures cause { HasCause (⟦<GivingPort<'a, D> as Ground>⟧.faults port.old)
        (⟦<GivingPort<'a, D> as Ground>⟧.faults port.new) result }
{
    let mut steps = Steps::<L>::start(blank);
    port.give_up(alloc, root, &mut steps)
}

/// Takes an owner away from the tree of a root, over these parts of a session. Units that have no owner left are free from then on, but no page that is
/// logged in the working or the committed state, whatever the disk says. Where no page became free, the disk wasn't called. `Disk` comes only where the
/// count of faults rose, and no whole tree that owns its units is told to be damaged.
pub fn release_root<D: Disk>(
    alloc: Global,
    disk: &mut D,
    units: &mut Units,
    groups: &mut Groups,
    geometry: &Geometry,
    pages: &LoggedPages,
    kept: &Filled<bool>,
    root: &Root,
) -> Result<(), PortFault>
    requires ready { Fits geometry.now (D.outside disk.old).size groups.old 0 units.old }
    requires held { length pages.now ≡ area_end geometry.now }
    requires flags { length kept.now ≡ area_end geometry.now }
    ensures gives { GivesTrees (is_logged pages.now kept.now) geometry.now (D.outside disk.old)
        (D.outside disk.new) units.old units.new groups.old groups.new }
    ensures released { OnOk result (ReleasesRoots pages.now kept.now geometry.now
        (D.outside disk.old) groups.old units.old units.new (root.now ∷ [])) }
    ensures sound { IfErr result (λ fault. IsDamage fault
        → OwnRoots pages.now kept.now geometry.now (D.outside disk.old) groups.old units.old
        (root.now ∷ []) → ⊥) }
    ensures fault { IfErr result (IsGivingFault geometry.now (D.outside disk.old) groups.old
        (root.now ∷ [])) }
    ensures refs { (unit : ℕ) → refs_at units.new unit ≤ refs_at units.old unit }
    ensures quiet { OnOk result (free_count units.new.geometry (used_at units.new) Page
        ≡ free_count units.old.geometry (used_at units.old) Page
        → disk.new ≡ disk.old) }
    ensures cause { HasCause (D.outside disk.old).disk_faults
        (D.outside disk.new).disk_faults result }
{
    let mut port = GivingPort {
        disk,
        units,
        groups,
        index: MAIN,
        geometry: *geometry,
        pages,
        kept,
    };
    give_up_once::<D, Brand>(&mut port, alloc, root, Blank::new(1))
}

/// Takes an owner away from the tree of each of these roots, as `release_root` does.
pub fn release_roots<D: Disk>(
    alloc: Global,
    disk: &mut D,
    units: &mut Units,
    groups: &mut Groups,
    geometry: &Geometry,
    pages: &LoggedPages,
    kept: &Filled<bool>,
    roots: &[Root],
) -> Result<(), PortFault>
    requires ready { Fits geometry.now (D.outside disk.old).size groups.old 0 units.old }
    requires held { length pages.now ≡ area_end geometry.now }
    requires flags { length kept.now ≡ area_end geometry.now }
    ensures gives { GivesTrees (is_logged pages.now kept.now) geometry.now (D.outside disk.old)
        (D.outside disk.new) units.old units.new groups.old groups.new }
    ensures released { OnOk result (ReleasesRoots pages.now kept.now geometry.now
        (D.outside disk.old) groups.old units.old units.new roots.now) }
    ensures sound { IfErr result (λ fault. IsDamage fault
        → OwnRoots pages.now kept.now geometry.now (D.outside disk.old) groups.old units.old
        roots.now → ⊥) }
    ensures fault { IfErr result (IsGivingFault geometry.now (D.outside disk.old) groups.old
        roots.now) }
    ensures refs { (unit : ℕ) → refs_at units.new unit ≤ refs_at units.old unit }
    ensures quiet { OnOk result (free_count units.new.geometry (used_at units.new) Page
        ≡ free_count units.old.geometry (used_at units.old) Page
        → disk.new ≡ disk.old) }
    ensures cause { HasCause (D.outside disk.old).disk_faults
        (D.outside disk.new).disk_faults result }
{
    for root in roots {
        release_root(alloc, disk, units, groups, geometry, pages, kept, root)?;
    }
    Ok(())
}
