//! The units on a disk, read through a group of frames.
ghost use Rattle.std.specs.Prelude.{◌≡◌, ◌≤◌, ◌<◌, ◌+◌, ℕ, List, [], length, false, OnOk, IfErr, IsOk};
ghost use Rattle.disk_model.specs.Outside.{Outside};
ghost use Rattle.disk_model.specs.Calls.{MakesCalls, MakesAtMost};

use crate::counts::count_names;
use crate::write::{write_node, write_unit};
use buffer_groups::Groups;
use disk_model::Disk;
use ex_base::{Area, Blocks, Geometry, Ground, PageNo, PortFault, ReadBlocks};
use page_alloc::Units;
use std::alloc::Global;

/// A disk with its units and groups of frames, all of one geometry, lent for as long as the store lives. It reads tree pages through the group at
/// `index`. The pages of a unit that is taken are forgotten in every group, so that no frame outlives its page.
#[derive(Drop)]
pub struct Store<'a, D: Disk> {
    pub disk: &'a mut D,
    pub units: &'a mut Units,
    pub groups: &'a mut Groups,
    pub index: u32,
    pub geometry: Geometry,
}

impl<'a, D: Disk> Store<'a, D> {
    /// A store over these parts.
    pub fn make(
        disk: &'a mut D,
        units: &'a mut Units,
        groups: &'a mut Groups,
        index: u32,
        geometry: Geometry,
    ) -> Store<'a, D>
        ensures disk { result.disk.ghost_name ≡ disk.entry.ghost_name }
        ensures disk_is { result.disk.now ≡ disk.old }
        ensures units { result.units.ghost_name ≡ units.entry.ghost_name }
        ensures units_is { result.units.now ≡ units.old }
        ensures groups { result.groups.ghost_name ≡ groups.entry.ghost_name }
        ensures groups_is { result.groups.now ≡ groups.old }
        ensures index { result.index ≡ index }
        ensures geometry { result.geometry ≡ geometry }
    {
        Store {
            disk,
            units,
            groups,
            index,
            geometry,
        }
    }
}

impl<'a, D: Disk> Store<'a, D> {
    ghost use Rattle.tree_store.specs.Stored.{Fits, Tells, unit_bytes};
    ghost use Rattle.buffer_groups.specs.Groups.{HasFrame, LacksFrame};
    ghost use Rattle.ex_base.specs.Area.{InPageArea};
    ghost use Rattle.ex_base.specs.Ports.{Keeps, HasCause, IsDamage};

    /// Brings a page into a frame of the group. A page that has one makes no disk call, and another one makes one.
    pub fn bring(&mut self, alloc: Global, page: PageNo) -> Result<(), PortFault>
        requires ready { Fits self.old.geometry
            (D.outside self.old.disk.now).size self.old.groups.now self.old.index self.old.units.now }
        requires page { InPageArea self.old.geometry page.0 }
        ensures held { OnOk result (HasFrame self.new.groups.now self.new.index page.0) }
        ensures no_memory { HasFrame self.old.groups.now self.old.index page.0 → IsOk result }
        ensures hit { HasFrame self.old.groups.now self.old.index page.0
            → self.new.disk.now ≡ self.old.disk.now }
        ensures miss { LacksFrame self.old.groups.now self.old.index page.0
            → OnOk result (MakesCalls 1 (D.outside self.old.disk.now)
            (D.outside self.new.disk.now)) }
        ensures at_most_once { MakesAtMost 1 (D.outside self.old.disk.now)
            (D.outside self.new.disk.now) }
        ensures kept { Keeps ⟦<Store<'a, D> as Ground>⟧ self.old self.new }
        ensures no_damage { IfErr result (λ fault. IsDamage fault → ⊥) }
        ensures cause { HasCause (D.outside self.old.disk.now).disk_faults
            (D.outside self.new.disk.now).disk_faults result }
    {
        let index = self.index;
        self.groups.bring(index, alloc, self.disk, page)?;
        Ok(())
    }

    /// Lends the bytes of a page that has a frame.
    pub fn frame(&self, page: PageNo) -> &[u8]
        requires ready { Fits self.now.geometry
            (D.outside self.now.disk.now).size self.now.groups.now self.now.index self.now.units.now }
        requires page { InPageArea self.now.geometry page.0 }
        requires held { HasFrame self.now.groups.now self.now.index page.0 }
        ensures bytes { Tells (D.outside self.now.disk.now) self.now.groups.now
            → result.now ≡ unit_bytes self.now.geometry (D.outside self.now.disk.now).disk page.0 }
        ensures len { length result.now ≡ self.now.geometry.page_size }
    {
        self.groups.get(self.index).frame(page)
    }
}

impl<'a, D: Disk> Ground for Store<'a, D> {
    ghost use Rattle.tree_store.specs.Stored.{unit_bytes, Fits, Tells, Frees, NoUnit, frees_same, frees_on, frees_wider};
    ghost use Rattle.tree_store.specs.Whole.{leaf_whole};
    ghost use Rattle.trees.specs.Names.{names_on};
    ghost use Rattle.page_alloc.specs.UnitSet.{used_at, refs_at, free_count};

    ghost geometry = { λ s. s.geometry };

    ghost ready = { λ s. Fits s.geometry (D.outside s.disk.now).size s.groups.now s.index s.units.now };

    ghost tells = { λ s. Tells (D.outside s.disk.now) s.groups.now };

    ghost unit = { λ s. unit_bytes s.geometry (D.outside s.disk.now).disk };

    ghost image = { λ s p. [] };

    ghost used = { λ s. used_at s.units.now };

    ghost refs = { λ s. refs_at s.units.now };

    ghost names = { λ g bytes. names_on bytes };

    ghost held = { λ s p. false };

    ghost free = { λ s. free_count s.units.now.geometry (used_at s.units.now) };

    ghost touched = { λ s. 0 };

    ghost faults = { λ s. (D.outside s.disk.now).disk_faults };

    ghost leads = { λ a b. Frees D.outside NoUnit a.disk b.disk a.units b.units a.groups b.groups a.index b.index a.geometry b.geometry };

    ghost frees = { λ freed a b. Frees D.outside freed a.disk b.disk a.units b.units a.groups b.groups a.index b.index a.geometry b.geometry };

    ghost whole = { λ s ready told page leaf. leaf_whole (D.outside s.disk.now) s.geometry page (D.is_world s.disk.now) ready.disk told.1 leaf };

    ghost leads_refl = { λ s. frees_same D.outside NoUnit s.disk s.units s.groups s.index s.geometry };

    ghost leads_trans = { λ a b c x y. frees_on D.outside NoUnit a.disk b.disk c.disk a.units b.units c.units a.groups b.groups c.groups a.index b.index c.index a.geometry b.geometry c.geometry x y };

    ghost leads_geometry = { λ a b x. x.geometry };

    ghost leads_ready = { λ a b x. x.fits };

    ghost leads_told = { λ a b x. x.told };

    ghost leads_faults = { λ a b x. x.changes.only.goes.disk_faults };

    ghost frees_leads = { λ freed a b x. frees_wider D.outside NoUnit freed (λ p none. absurd none) a.disk b.disk a.units b.units a.groups b.groups a.index b.index a.geometry b.geometry x };

    ghost frees_trans = { λ freed a b c x y. frees_on D.outside freed a.disk b.disk c.disk a.units b.units c.units a.groups b.groups c.groups a.index b.index c.index a.geometry b.geometry c.geometry x y };

    ghost frees_more = { λ few many wider a b x. frees_wider D.outside few many wider a.disk b.disk a.units b.units a.groups b.groups a.index b.index a.geometry b.geometry x };

    ghost frees_geometry = { λ freed a b x. x.geometry };

    ghost frees_ready = { λ freed a b x. x.fits };

    ghost frees_told = { λ freed a b x. x.told };

    ghost frees_faults = { λ freed a b x. x.changes.only.goes.disk_faults };
}

impl<'a, D: Disk> ReadBlocks for Store<'a, D> {
    ghost use Rattle.ex_base.specs.Area.{InPageArea, NamesLeaf};
    ghost use Rattle.ex_base.specs.Bytes.{bytes_at};
    ghost use Rattle.ex_base.specs.Ports.{Rests, Keeps, HasCause, IsDamage};
    ghost use Rattle.ex_base.specs.Sizes.{leaf_bytes};
    ghost use Rattle.std.specs.Borrow.{sem};
    ghost use Rattle.std.specs.Prelude.{IfOk};
    ghost use Rattle.tree_store.specs.Lending.{store_row, ReadCalls};
    ghost use Rattle.tree_store.specs.Stored.{Fits, Tells, unit_bytes};

    fn geometry(&self) -> Geometry {
        self.geometry
    }

    fn node(&mut self, alloc: Global, page: PageNo) -> Result<&[u8], PortFault>
        requires ready { Fits self.old.geometry
            (D.outside self.old.disk.now).size self.old.groups.now self.old.index self.old.units.now }
        requires page { InPageArea self.old.geometry page.0 }
        ensures bytes { IfOk result (λ s. Tells (D.outside self.old.disk.now) self.old.groups.now
            → s.now ≡ unit_bytes self.old.geometry (D.outside self.old.disk.now).disk page.0) }
        ensures len { IfOk result (λ s. length s.now ≡ self.old.geometry.page_size) }
        ensures no_damage { IfErr result (λ fault. IsDamage fault → ⊥) }
        ensures* after { sem 𝓛 (Rests (store_row D.row) self.entry
            (λ new. Keeps ⟦<Store<'a, D> as Ground>⟧ self.old new
            × HasCause (D.outside self.old.disk.now).disk_faults
            (D.outside new.disk.now).disk_faults result
            × ReadCalls D.outside self.old.groups.now self.old.index page.0 self.old.disk.now new.disk.now result)) }
    {
        self.bring(alloc, page)?;
        Ok(self.frame(page))
    }

    fn leaf_into(
        &mut self,
        _alloc: Global,
        page: PageNo,
        from: u32,
        out: &mut [u8],
    ) -> Result<(), PortFault>
        requires ready { Fits self.old.geometry
            (D.outside self.old.disk.now).size self.old.groups.now self.old.index self.old.units.now }
        requires page { NamesLeaf self.old.geometry page.0 }
        requires range { from + length out.old ≤ leaf_bytes self.old.geometry }
        ensures bytes { OnOk result (Tells (D.outside self.old.disk.now) self.old.groups.now
            → out.new ≡ bytes_at (unit_bytes self.old.geometry
            (D.outside self.old.disk.now).disk page.0) from (length out.old)) }
        ensures no_damage { IfErr result (λ fault. IsDamage fault → ⊥) }
        ensures kept { Keeps ⟦<Store<'a, D> as Ground>⟧ self.old self.new }
        ensures cause { HasCause (D.outside self.old.disk.now).disk_faults
            (D.outside self.new.disk.now).disk_faults result }

        // One call of the disk, past the frames, which stay.
        ensures once { OnOk result (MakesCalls 1 (D.outside self.old.disk.now)
            (D.outside self.new.disk.now)) }
        ensures frames { self.new.groups.now ≡ self.old.groups.now }
    {
        let at = page.0 as u64 * self.geometry.page_size as u64 + from as u64;
        self.disk.read(at, out)?;
        Ok(())
    }
}

impl<'a, D: Disk> Blocks for Store<'a, D> {
    ghost use Rattle.std.specs.Prelude.{◌≢◌, true, IfOk};
    ghost use Rattle.ex_base.specs.Area.{IsUnit};
    ghost use Rattle.ex_base.specs.Ports.{HasCause, IsDamage, TakesUnit, IsLowest, CountsNames, GivesUnit};
    ghost use Rattle.ex_base.specs.declared.names.Area.TheVariants.{Page, Segment};
    ghost use Rattle.buffer_groups.specs.Groups.{HasFrame};
    ghost use Rattle.page_alloc.specs.UnitSet.{used_at, refs_at};
    ghost use Rattle.trees.specs.Names.{names_on};
    ghost use Rattle.tree_store.specs.Stored.{Fits, unit_bytes};
    ghost use Rattle.ex_base.specs.Sizes.{leaf_bytes};

    fn free(&self, area: Area) -> u32 {
        self.units.free(area)
    }

    fn new_node(&mut self, bytes: &[u8]) -> Result<PageNo, PortFault>
        requires ready { Fits self.old.geometry
            (D.outside self.old.disk.now).size self.old.groups.now self.old.index self.old.units.now }
        requires free { 1 ≤ ⟦<Store<'a, D> as Ground>⟧.free self.old Page }
        requires page { length bytes.now ≡ self.old.geometry.page_size }
        ensures taken { IfOk result
            (λ page. TakesUnit ⟦<Store<'a, D> as Ground>⟧ self.old self.new Page page.0 bytes.now) }
        ensures others { IfOk result (λ page. (p : ℕ) → IsUnit self.old.geometry p → p ≢ page.0
            → unit_bytes self.new.geometry (D.outside self.new.disk.now).disk p
            ≡ unit_bytes self.old.geometry (D.outside self.old.disk.now).disk p) }
        ensures whole { IfOk result (λ page. ⟦<Store<'a, D> as Ground>⟧.tells self.old
            → unit_bytes self.new.geometry (D.outside self.new.disk.now).disk page.0 ≡ bytes.now) }
        ensures lowest { IfOk result
            (λ page. IsLowest self.old.geometry (used_at self.old.units.now) Page page.0) }
        ensures references { OnOk result (CountsNames ⟦<Store<'a, D> as Ground>⟧ self.old self.new
            (names_on bytes.now)) }
        ensures pages { OnOk result (⟦<Store<'a, D> as Ground>⟧.free self.new Page + 1
            ≡ ⟦<Store<'a, D> as Ground>⟧.free self.old Page) }
        ensures leaves { OnOk result (⟦<Store<'a, D> as Ground>⟧.free self.new Segment
            ≡ ⟦<Store<'a, D> as Ground>⟧.free self.old Segment) }
        ensures framed { IfOk result (λ page. HasFrame self.new.groups.now self.new.index page.0) }
        ensures once { OnOk result (MakesCalls 1 (D.outside self.old.disk.now)
            (D.outside self.new.disk.now)) }
        ensures no_damage { IfErr result (λ fault. IsDamage fault → ⊥) }
        ensures touched { ⟦<Store<'a, D> as Ground>⟧.touched self.new
            ≡ ⟦<Store<'a, D> as Ground>⟧.touched self.old }
        ensures leads { ⟦<Store<'a, D> as Ground>⟧.leads self.old self.new }
        ensures cause { HasCause (D.outside self.old.disk.now).disk_faults
            (D.outside self.new.disk.now).disk_faults result }
    {
        let image = self.groups.get(self.index).copy(bytes)?;
        count_names(self.units, &self.geometry, bytes);
        let page = self.units.take(Area::Page);
        let size = self.geometry.page_size;
        write_node(self.disk, self.groups, self.index, page, image, size)?;
        Ok(page)
    }

    fn new_leaf(&mut self, bytes: &[u8]) -> Result<PageNo, PortFault>
        requires ready { Fits self.old.geometry
            (D.outside self.old.disk.now).size self.old.groups.now self.old.index self.old.units.now }
        requires free { 1 ≤ ⟦<Store<'a, D> as Ground>⟧.free self.old Segment }
        requires some { 1 ≤ length bytes.now }
        requires fits { length bytes.now ≤ leaf_bytes self.old.geometry }
        ensures taken { IfOk result
            (λ page. TakesUnit ⟦<Store<'a, D> as Ground>⟧ self.old self.new Segment page.0 bytes.now) }
        ensures others { IfOk result (λ page. (p : ℕ) → IsUnit self.old.geometry p → p ≢ page.0
            → unit_bytes self.new.geometry (D.outside self.new.disk.now).disk p
            ≡ unit_bytes self.old.geometry (D.outside self.old.disk.now).disk p) }
        ensures lowest { IfOk result
            (λ page. IsLowest self.old.geometry (used_at self.old.units.now) Segment page.0) }
        ensures references { OnOk result (refs_at self.new.units.now ≡ refs_at self.old.units.now) }
        ensures pages { OnOk result (⟦<Store<'a, D> as Ground>⟧.free self.new Page
            ≡ ⟦<Store<'a, D> as Ground>⟧.free self.old Page) }
        ensures leaves { OnOk result (⟦<Store<'a, D> as Ground>⟧.free self.new Segment + 1
            ≡ ⟦<Store<'a, D> as Ground>⟧.free self.old Segment) }
        ensures once { OnOk result (MakesCalls 1 (D.outside self.old.disk.now)
            (D.outside self.new.disk.now)) }
        ensures no_damage { IfErr result (λ fault. IsDamage fault → ⊥) }
        ensures touched { ⟦<Store<'a, D> as Ground>⟧.touched self.new
            ≡ ⟦<Store<'a, D> as Ground>⟧.touched self.old }
        ensures leads { ⟦<Store<'a, D> as Ground>⟧.leads self.old self.new }
        ensures cause { HasCause (D.outside self.old.disk.now).disk_faults
            (D.outside self.new.disk.now).disk_faults result }
    {
        let page = self.units.take(Area::Segment);
        write_unit(
            self.disk,
            self.groups,
            page,
            self.geometry.seg_len,
            bytes,
            self.geometry.page_size,
        )?;
        Ok(page)
    }

    fn add_ref(&mut self, page: PageNo) {
        self.units.add_ref(page)
    }

    fn drop_ref(&mut self, page: PageNo) -> bool {
        self.units.drop_ref(page)
    }

    fn give_unit(&mut self, page: PageNo)
        requires ready { Fits self.old.geometry
            (D.outside self.old.disk.now).size self.old.groups.now self.old.index self.old.units.now }
        requires unit { IsUnit self.old.geometry page.0 }
        requires used { used_at self.old.units.now page.0 ≡ true }
        requires unnamed { refs_at self.old.units.now page.0 ≡ 0 }
        ensures given { GivesUnit ⟦<Store<'a, D> as Ground>⟧ self.old self.new page.0 }
        ensures disk { self.new.disk.now ≡ self.old.disk.now }
    {
        self.units.give(page)
    }
}
