//! The roots of trees that an update turns.
ghost use Rattle.std.specs.Prelude.{◌≡◌, ◌≤◌, ◌<◌, ◌++◌, ◌∷◌, [], ℕ, length, suc, true, false, List, Some, None, IfSome, IfErr, OnOk, get_or};
ghost use Rattle.ex_base.specs.Area.{area_end};
ghost use Rattle.ex_base.specs.Ports.{HasCause, IsDamage};
ghost use Rattle.volume_model.specs.Held.{root_here};
ghost use Rattle.ex_base.specs.declared.geometry.Geometry.{Geometry};
ghost use Rattle.ex_base.specs.declared.names.Root.{Root};
ghost use Rattle.ex_base.specs.declared.names.Area.TheVariants.{Page};
ghost use Rattle.page_alloc.specs.UnitSet.{UnitSet, free_count, refs_at, used_at};
ghost use Rattle.trees.specs.Owners.{page_here};
ghost use Rattle.volume_port.specs.Reading.{TellsBytes};
ghost use Rattle.volume_port.specs.GivingUp.{CountsRoot, GivesTrees, IsGivingFault, OwnRoots, ReleasesRoots};
ghost use Rattle.volume_port.specs.Giving.{is_logged};
ghost use Rattle.tree_store.specs.Stored.{Fits, IsCounted, unit_bytes};
ghost use Rattle.session_core.specs.Damage.{IsTurningFault};
ghost use Rattle.session_core.specs.Turning.{NonePaged, TakenOut, VolumeGives, VolumeOwns, VolumeTurned, VolumeWent};

use crate::updates::Done;
use buffer_groups::Groups;
use disk_model::Disk;
use ex_base::{Geometry, PortFault, Root};
use page_alloc::{Filled, Units};
use std::alloc::{AllocError, Global};
use volume_port::{LoggedPages, VolumeState, own_root, release_root};

/// Whether two roots have the same page.
fn same_page(one: &Root, other: &Root) -> bool
    ensures same { result ≡ true → page_here one.now.page ≡ page_here other.now.page }
    ensures apart { result ≡ false → NonePaged (one.now ∷ []) (Some other.now) }
{
    one.page == other.page
}

/// Where a list has the first root with the page of this one.
fn place_of(roots: &[Root], root: &Root) -> Option<usize>
    ensures there { IfSome result (λ at. (at < length roots.now)
        × (page_here (get_or roots.now at root.now).page ≡ page_here root.now.page)) }
    ensures none { result ≡ None → NonePaged roots.now (Some root.now) }
{
    for at in 0..roots.len() {
        if same_page(&roots[at], root) {
            return Some(at);
        }
    }
    None
}

/// Takes a root with the page of this one out of a list, and tells whether there was one.
fn take_out(roots: &mut Vec<Root>, root: &Root) -> bool
    ensures there { result ≡ true → TakenOut roots.old.items roots.new.items (Some root.now) }
    ensures none { result ≡ false → (roots.new.items ≡ roots.old.items)
        × NonePaged roots.old.items (Some root.now) }
{
    match place_of(roots, root) {
        Some(at) => {
            roots.remove(at);
            true
        }
        None => false,
    }
}

/// Adds a root to a list, where there is one.
fn add_here(roots: &mut Vec<Root>, root: &Option<Root>) -> Result<(), AllocError>
    ensures added { OnOk result (roots.new.items ≡ roots.old.items ++ root_here root.now) }
    ensures few { length roots.new.items ≤ suc (length roots.old.items) }
{
    if let Some(root) = root {
        roots.push(*root)?;
    }
    Ok(())
}

/// Adds an owner to the tree of a root, where there is one.
pub(super) fn own_here(units: &mut Units, geometry: &Geometry, root: &Option<Root>)
    requires geometry { units.old.geometry ≡ geometry.now }
    ensures counts { CountsRoot root.now units.old units.new }
    ensures counted { (g : Geometry) → IsCounted g units.old → IsCounted g units.new }
{
    if let Some(root) = root {
        own_root(units, geometry, root);
    }
}

/// Takes an owner away from the tree of a root, where there is one. Where no page became free, the disk wasn't called.
///
/// # Errors
/// `Memory` for want of memory, `Disk` where a node could not be read, `Damaged` where one is not what names it.
pub(super) fn release_here<D: Disk>(
    alloc: Global,
    disk: &mut D,
    units: &mut Units,
    groups: &mut Groups,
    geometry: &Geometry,
    pages: &LoggedPages,
    kept: &Filled<bool>,
    root: &Option<Root>,
) -> Result<(), PortFault>
    requires ready { Fits geometry.now (D.outside disk.old).size groups.old 0 units.old }
    requires held { length pages.now ≡ area_end geometry.now }
    requires flags { length kept.now ≡ area_end geometry.now }
    ensures gives { GivesTrees (is_logged pages.now kept.now) geometry.now (D.outside disk.old)
        (D.outside disk.new) units.old units.new groups.old groups.new }
    ensures released { OnOk result (ReleasesRoots pages.now kept.now geometry.now
        (D.outside disk.old) groups.old units.old units.new (root_here root.now)) }
    ensures sound { IfErr result (λ fault. IsDamage fault
        → OwnRoots pages.now kept.now geometry.now (D.outside disk.old) groups.old units.old
        (root_here root.now) → ⊥) }
    ensures fault { IfErr result (IsGivingFault geometry.now (D.outside disk.old) groups.old
        (root_here root.now)) }
    ensures refs { (unit : ℕ) → refs_at units.new unit ≤ refs_at units.old unit }
    ensures quiet { OnOk result (free_count units.new.geometry (used_at units.new) Page
        ≡ free_count units.old.geometry (used_at units.old) Page
        → disk.new ≡ disk.old) }
    ensures cause { HasCause (D.outside disk.old).disk_faults
        (D.outside disk.new).disk_faults result }
{
    match root {
        Some(root) => release_root(alloc, disk, units, groups, geometry, pages, kept, root),
        None => Ok(()),
    }
}

/// A root went, if one did: where the transaction had gained it, an owner of its tree goes at once, and else it is lost.
///
/// # Errors
/// `Memory` for want of memory, `Disk` where a node could not be read, `Damaged` where one is not what names it.
fn turn_gone<D: Disk>(
    alloc: Global,
    disk: &mut D,
    volume: &mut VolumeState,
    gained: &mut Vec<Root>,
    lost: &mut Vec<Root>,
    gone: &Option<Root>,
) -> Result<(), PortFault>
    requires ready { Fits volume.old.geometry (D.outside disk.old).size volume.old.groups 0
        volume.old.units }
    requires held { length volume.old.pages ≡ area_end volume.old.geometry }
    requires flags { length volume.old.kept ≡ area_end volume.old.geometry }
    ensures gives { VolumeGives (D.outside disk.old) (D.outside disk.new) volume.old volume.new }
    ensures rest { volume.new ≡ record volume.old { units = volume.new.units; groups = volume.new.groups } }
    ensures went { OnOk result (VolumeWent (D.outside disk.old) volume.old volume.new
        gained.old.items gained.new.items lost.old.items lost.new.items gone.now) }
    ensures few_gained { length gained.new.items ≤ length gained.old.items }
    ensures few_lost { length lost.new.items ≤ suc (length lost.old.items) }
    ensures sound { IfErr result (λ fault. IsDamage fault
        → ((rest : List Root) → TakenOut gained.old.items rest gone.now
        → VolumeOwns (D.outside disk.old) volume.old volume.old.units (root_here gone.now)) → ⊥) }
    ensures fault { IfErr result (λ fault. IsDamage fault
        → TellsBytes (D.outside disk.old) volume.old.groups → IsTurningFault volume.old.geometry
        (unit_bytes volume.old.geometry (D.outside disk.old).disk) gained.old.items fault) }
    ensures cause { HasCause (D.outside disk.old).disk_faults
        (D.outside disk.new).disk_faults result }
{
    if let Some(root) = gone {
        if take_out(gained, root) {
            return release_root(
                alloc,
                disk,
                &mut volume.units,
                &mut volume.groups,
                &volume.geometry,
                &volume.pages,
                &volume.kept,
                root,
            );
        }
        add_here(lost, gone)?;
    }
    Ok(())
}

/// Turns the roots of an open transaction after an update: the one that came is an owner of its tree and is gained; the one that went is given up at once
/// where the transaction had gained it, and is lost else.
///
/// # Errors
/// `Memory` for want of memory, `Disk` where a node could not be read, `Damaged` where one is not what names it.
pub(super) fn turn_roots<D: Disk>(
    alloc: Global,
    disk: &mut D,
    volume: &mut VolumeState,
    gained: &mut Vec<Root>,
    lost: &mut Vec<Root>,
    done: &Done,
) -> Result<(), PortFault>
    requires ready { Fits volume.old.geometry (D.outside disk.old).size volume.old.groups 0
        volume.old.units }
    requires held { length volume.old.pages ≡ area_end volume.old.geometry }
    requires flags { length volume.old.kept ≡ area_end volume.old.geometry }
    ensures gives { VolumeGives (D.outside disk.old) (D.outside disk.new) volume.old volume.new }
    ensures rest { volume.new ≡ record volume.old { units = volume.new.units; groups = volume.new.groups } }
    ensures turned { OnOk result (VolumeTurned (D.outside disk.old) volume.old volume.new
        gained.old.items gained.new.items lost.old.items lost.new.items done.now.gone
        done.now.come) }
    ensures few_gained { length gained.new.items ≤ suc (length gained.old.items) }
    ensures few_lost { length lost.new.items ≤ suc (length lost.old.items) }
    ensures sound { IfErr result (λ fault. IsDamage fault
        → ((counted : UnitSet) (rest : List Root) → CountsRoot done.now.come volume.old.units counted
        → TakenOut gained.old.items rest done.now.gone
        → VolumeOwns (D.outside disk.old) volume.old counted (root_here done.now.gone)) → ⊥) }
    ensures fault { IfErr result (λ fault. IsDamage fault
        → TellsBytes (D.outside disk.old) volume.old.groups → IsTurningFault volume.old.geometry
        (unit_bytes volume.old.geometry (D.outside disk.old).disk) gained.old.items fault) }
    ensures cause { HasCause (D.outside disk.old).disk_faults
        (D.outside disk.new).disk_faults result }
{
    own_here(&mut volume.units, &volume.geometry, &done.come);
    turn_gone(alloc, disk, volume, gained, lost, &done.gone)?;
    add_here(gained, &done.come)?;
    Ok(())
}
