//! Logged pages.
ghost use Rattle.std.specs.Prelude.{◌≡◌, ◌≢◌, ◌≤◌, ◌+◌, length, nat_eq, OnOk, IfOk, IfErr, Some, None};
ghost use Rattle.std.specs.Map.{lookup};
ghost use Rattle.ex_base.specs.Area.{InPageArea, catalog_no};
ghost use Rattle.ex_base.specs.Ports.{Keeps, HasCause, IsDamage, IsLowest, TakesPage, GivesPage};
ghost use Rattle.ex_base.specs.declared.names.Area.TheVariants.{Page, Segment};
ghost use Rattle.page_alloc.specs.UnitSet.{used_at};
ghost use Rattle.volume_port.specs.Ported.{IsAtHand};

use crate::port::VolumePort;
use disk_model::Disk;
use ex_base::{Area, Ground, PageNo, Pages, PortFault, ReadPages, ReadVolume, Volume};
use std::alloc::Global;

impl<'a, D: Disk> VolumePort<'a, D> {
    // Brings a page into a frame of the store's group, where the overlay has no image of it.
    fn reach(&mut self, alloc: Global, page: PageNo) -> Result<(), PortFault>
        requires ready { ⟦<VolumePort<'a, D> as Ground>⟧.ready self.old }
        requires page { InPageArea self.old.store.geometry page.0 }
        ensures held { OnOk result (IsAtHand self.new.meta.now
            self.new.store.groups.now self.new.store.index page.0) }
        ensures kept { Keeps ⟦<VolumePort<'a, D> as Ground>⟧ self.old self.new }
        ensures no_damage { IfErr result (λ fault. IsDamage fault → ⊥) }
        ensures cause { HasCause (⟦<VolumePort<'a, D> as Ground>⟧.faults self.old)
            (⟦<VolumePort<'a, D> as Ground>⟧.faults self.new) result }
    {
        if self.meta.shown(page).is_some() {
            return Ok(());
        }
        self.store.bring(alloc, page)
    }

    // Lends a page that is at hand, as the transaction has it.
    fn shown(&self, page: PageNo) -> &[u8]
        requires ready { ⟦<VolumePort<'a, D> as Ground>⟧.ready self.now }
        requires page { InPageArea self.now.store.geometry page.0 }
        requires held { IsAtHand self.now.meta.now
            self.now.store.groups.now self.now.store.index page.0 }
        ensures bytes { ⟦<VolumePort<'a, D> as Ground>⟧.tells self.now
            → result.now ≡ ⟦<VolumePort<'a, D> as Ground>⟧.image self.now page.0 }
        ensures len { length result.now ≡ self.now.store.geometry.page_size }
    {
        match self.meta.shown(page) {
            Some(image) => image,
            None => self.store.frame(page),
        }
    }
}

impl<'a, D: Disk> ReadPages for VolumePort<'a, D> {
    fn page_size(&self) -> u32 {
        self.store.geometry.page_size
    }

    fn in_area(&self, page: PageNo) -> bool {
        self.store.geometry.in_page_area(page)
    }

    fn get(&mut self, alloc: Global, page: PageNo) -> Result<&[u8], PortFault> {
        self.reach(alloc, page)?;
        Ok(self.shown(page))
    }
}

impl<'a, D: Disk> Pages for VolumePort<'a, D> {
    fn has(&self, page: PageNo) -> bool {
        self.pages.holds(page)
    }

    fn put(&mut self, alloc: Global, page: PageNo, image: &[u8]) -> Result<(), PortFault> {
        Ok(self.meta.edit(alloc, page, image)?)
    }

    fn take_page(&mut self, alloc: Global, image: &[u8]) -> Result<PageNo, PortFault>
        requires ready { ⟦<VolumePort<'a, D> as Ground>⟧.ready self.old }
        requires free { 1 ≤ ⟦<VolumePort<'a, D> as Ground>⟧.free self.old Page }
        requires len { length image.now ≡ self.old.store.geometry.page_size }
        ensures taken { IfOk result
            (λ page. TakesPage ⟦<VolumePort<'a, D> as Ground>⟧ self.old self.new page.0 image.now) }
        ensures lowest { IfOk result
            (λ page. IsLowest self.old.store.geometry
            (used_at self.old.store.units.now) Page page.0) }
        ensures pages { OnOk result (⟦<VolumePort<'a, D> as Ground>⟧.free self.new Page + 1
            ≡ ⟦<VolumePort<'a, D> as Ground>⟧.free self.old Page) }
        ensures leaves { OnOk result (⟦<VolumePort<'a, D> as Ground>⟧.free self.new Segment
            ≡ ⟦<VolumePort<'a, D> as Ground>⟧.free self.old Segment) }
        ensures no_damage { IfErr result (λ fault. IsDamage fault → ⊥) }
        ensures touched { ⟦<VolumePort<'a, D> as Ground>⟧.touched self.new
            ≤ ⟦<VolumePort<'a, D> as Ground>⟧.touched self.old + 1 }
        ensures leads { ⟦<VolumePort<'a, D> as Ground>⟧.leads self.old self.new }
        ensures cause { HasCause (⟦<VolumePort<'a, D> as Ground>⟧.faults self.old)
            (⟦<VolumePort<'a, D> as Ground>⟧.faults self.new) result }
    {
        let page = self.store.units.take(Area::Page);
        self.meta.edit(alloc, page, image)?;
        self.pages.adopt(page);
        Ok(page)
    }

    fn give_page(&mut self, _alloc: Global, page: PageNo) -> Result<(), PortFault>
        requires ready { ⟦<VolumePort<'a, D> as Ground>⟧.ready self.old }
        requires page { InPageArea self.old.store.geometry page.0 }
        requires other { page.0 ≢ catalog_no }
        ensures given { OnOk result
            (GivesPage ⟦<VolumePort<'a, D> as Ground>⟧ self.old self.new page.0) }
        ensures noted { OnOk result (lookup (nat_eq page.0) self.new.meta.now.working ≡ Some None) }
        ensures stays { self.new.store.units.now ≡ self.old.store.units.now }
        ensures no_damage { IfErr result (λ fault. IsDamage fault → ⊥) }
        ensures touched { ⟦<VolumePort<'a, D> as Ground>⟧.touched self.new
            ≤ ⟦<VolumePort<'a, D> as Ground>⟧.touched self.old + 1 }
        ensures leads { ⟦<VolumePort<'a, D> as Ground>⟧.leads self.old self.new }
        ensures cause { HasCause (⟦<VolumePort<'a, D> as Ground>⟧.faults self.old)
            (⟦<VolumePort<'a, D> as Ground>⟧.faults self.new) result }
    {
        self.meta.gone(page)?;
        self.pages.give(page);
        Ok(())
    }

    ghost has_catalog = { λ s is. is.catalog };
}

impl<'a, D: Disk> ReadVolume for VolumePort<'a, D> {}

impl<'a, D: Disk> Volume for VolumePort<'a, D> {}
