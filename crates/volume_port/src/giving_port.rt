//! A port that only gives trees up.
ghost use Rattle.std.specs.Prelude.{◌≡◌, ◌≤◌, ◌+◌, [], ◌∷◌, length, OnOk, IfErr};
ghost use Rattle.ex_base.specs.Area.{InPageArea};
ghost use Rattle.ex_base.specs.Ports.{Keeps, HasCause, IsDamage};
ghost use Rattle.ex_base.specs.declared.names.Area.TheVariants.{Page};
ghost use Rattle.buffer_groups.specs.Groups.{HasFrame};
ghost use Rattle.page_alloc.specs.UnitSet.{free_count, used_at};
ghost use Rattle.trees.specs.Damage.{root_row};
ghost use Rattle.trees.specs.Owners.{root_pages};
ghost use Rattle.version_delete.specs.Released.{Blames, BlamesAlways, Gives, Released};
ghost use Rattle.volume_port.specs.Giving.{is_logged};

use crate::logged::LoggedPages;
use buffer_groups::Groups;
use disk_model::Disk;
use ex_base::{CountBlocks, Geometry, Ground, PageNo, PortFault, ReadBlocks, Root};
use page_alloc::{Filled, Units};
use std::alloc::Global;
use std::sync::ledger::Ledger;
use version_delete::{Steps, release_tree};

/// The units of a session and their owners, lent to give trees up. It takes no unit and writes nothing to the disk. To it a logged page has no owner, so it
/// gives none back, whatever names it.
#[derive(Drop)]
pub struct GivingPort<'a, D: Disk> {
    pub disk: &'a mut D,
    pub units: &'a mut Units,
    pub groups: &'a mut Groups,
    /// The group that nodes are read through.
    pub index: u32,
    pub geometry: Geometry,
    /// The logged pages of the working state.
    pub pages: &'a LoggedPages,
    /// Whether the committed state has each logged page, by page number.
    pub kept: &'a Filled<bool>,
}

impl<'a, D: Disk> Ground for GivingPort<'a, D> {
    ghost use Rattle.trees.specs.Names.{names_on};
    ghost use Rattle.page_alloc.specs.UnitSet.{used_at, free_count};
    ghost use Rattle.tree_store.specs.Stored.{unit_bytes, NoUnit};
    ghost use Rattle.tree_store.specs.Whole.{leaf_whole};
    ghost use Rattle.volume_port.specs.Giving.{CanGive, GivesUp, is_logged, tree_refs, gives_same, gives_on, gives_wider, gives_ready};
    ghost use Rattle.volume_port.specs.Reading.{TellsBytes};

    ghost geometry = { λ s. s.geometry };

    ghost ready = { λ s. CanGive s.geometry (D.outside s.disk.now).size s.groups.now s.index s.units.now s.pages.now s.kept.now };

    ghost tells = { λ s. TellsBytes (D.outside s.disk.now) s.groups.now };

    ghost unit = { λ s. unit_bytes s.geometry (D.outside s.disk.now).disk };

    ghost image = { λ s p. [] };

    ghost used = { λ s. used_at s.units.now };

    ghost refs = { λ s. tree_refs s.pages.now s.kept.now s.units.now };

    ghost names = { λ g bytes. names_on bytes };

    ghost held = { λ s. is_logged s.pages.now s.kept.now };

    ghost free = { λ s. free_count s.units.now.geometry (used_at s.units.now) };

    ghost touched = { λ s. 0 };

    ghost faults = { λ s. (D.outside s.disk.now).disk_faults };

    ghost leads = { λ a b. GivesUp D.outside NoUnit a.disk b.disk a.units b.units a.groups b.groups a.index b.index a.geometry b.geometry a.pages.now b.pages.now a.kept.now b.kept.now };

    ghost frees = { λ freed a b. GivesUp D.outside freed a.disk b.disk a.units b.units a.groups b.groups a.index b.index a.geometry b.geometry a.pages.now b.pages.now a.kept.now b.kept.now };

    ghost whole = { λ s ready told page leaf. leaf_whole (D.outside s.disk.now) s.geometry page (D.is_world s.disk.now) ready.fits.disk told.0 leaf };

    ghost leads_refl = { λ s. gives_same D.outside s.disk s.units s.groups s.index s.geometry s.pages.now s.kept.now };

    ghost leads_trans = { λ a b c x y. gives_on D.outside NoUnit a.disk b.disk c.disk a.units b.units c.units a.groups b.groups c.groups a.index b.index c.index a.geometry b.geometry c.geometry a.pages.now b.pages.now c.pages.now a.kept.now b.kept.now c.kept.now x y };

    ghost leads_geometry = { λ a b x. x.store.geometry };

    ghost leads_ready = { λ a b x. gives_ready D.outside NoUnit a.disk b.disk a.units b.units a.groups b.groups a.index b.index a.geometry b.geometry a.pages.now b.pages.now a.kept.now b.kept.now x };

    ghost leads_told = { λ a b x. x.told };

    ghost leads_faults = { λ a b x. x.only.nothing.only.goes.disk_faults };

    ghost frees_leads = { λ freed a b x. gives_wider D.outside NoUnit freed (λ p none. absurd none) a.disk b.disk a.units b.units a.groups b.groups a.index b.index a.geometry b.geometry a.pages.now b.pages.now a.kept.now b.kept.now x };

    ghost frees_trans = { λ freed a b c x y. gives_on D.outside freed a.disk b.disk c.disk a.units b.units c.units a.groups b.groups c.groups a.index b.index c.index a.geometry b.geometry c.geometry a.pages.now b.pages.now c.pages.now a.kept.now b.kept.now c.kept.now x y };

    ghost frees_more = { λ few many wider a b x. gives_wider D.outside few many wider a.disk b.disk a.units b.units a.groups b.groups a.index b.index a.geometry b.geometry a.pages.now b.pages.now a.kept.now b.kept.now x };

    ghost frees_geometry = { λ freed a b x. x.store.geometry };

    ghost frees_ready = { λ freed a b x. gives_ready D.outside freed a.disk b.disk a.units b.units a.groups b.groups a.index b.index a.geometry b.geometry a.pages.now b.pages.now a.kept.now b.kept.now x };

    ghost frees_told = { λ freed a b x. x.told };

    ghost frees_faults = { λ freed a b x. x.only.nothing.only.goes.disk_faults };
}

impl<'a, D: Disk> GivingPort<'a, D> {
    // Brings a page into a frame of the group.
    fn bring(&mut self, alloc: Global, page: PageNo) -> Result<(), PortFault>
        requires ready { ⟦<GivingPort<'a, D> as Ground>⟧.ready self.old }
        requires page { InPageArea self.old.geometry page.0 }
        ensures held { OnOk result (HasFrame self.new.groups.now self.new.index page.0) }
        ensures kept { Keeps ⟦<GivingPort<'a, D> as Ground>⟧ self.old self.new }
        ensures no_damage { IfErr result (λ fault. IsDamage fault → ⊥) }
        ensures cause { HasCause (⟦<GivingPort<'a, D> as Ground>⟧.faults self.old)
            (⟦<GivingPort<'a, D> as Ground>⟧.faults self.new) result }
    {
        let index = self.index;
        self.groups.bring(index, alloc, self.disk, page)?;
        Ok(())
    }

    // Lends the bytes of a page that has a frame.
    fn frame(&self, page: PageNo) -> &[u8]
        requires ready { ⟦<GivingPort<'a, D> as Ground>⟧.ready self.now }
        requires page { InPageArea self.now.geometry page.0 }
        requires held { HasFrame self.now.groups.now self.now.index page.0 }
        ensures bytes { ⟦<GivingPort<'a, D> as Ground>⟧.tells self.now
            → result.now ≡ ⟦<GivingPort<'a, D> as Ground>⟧.unit self.now page.0 }
        ensures len { length result.now ≡ self.now.geometry.page_size }
    {
        self.groups.get(self.index).frame(page)
    }

    // Whether the working state or the committed one has a page as a logged page.
    fn is_logged(&self, page: PageNo) -> bool
        requires ready { ⟦<GivingPort<'a, D> as Ground>⟧.ready self.now }
        ensures { result ≡ is_logged self.now.pages.now self.now.kept.now page.0 }
    {
        let end = PageNo::CATALOG.0 + self.geometry.pages;
        page.0 < end && (self.pages.holds(page) || self.kept.get(page.0 as usize))
    }

    /// Takes an owner away from the tree of a root. Units that have no owner left are free from then on. Each node that is read is given back: where no
    /// page became free, the disk wasn't called. `Disk` comes only where the count of faults rose, and `Damaged` where a node isn't what names it.
    pub fn give_up<L: Ledger>(
        &mut self,
        alloc: Global,
        root: &Root,
        steps: &mut Steps<L>,
    ) -> Result<(), PortFault>
        requires ready { ⟦<GivingPort<'a, D> as Ground>⟧.ready self.old }
        ensures released { OnOk result (Released ⟦<GivingPort<'a, D> as Ground>⟧ self.old self.new
            root.now.height (root_pages (root.now ∷ []))) }
        ensures gives { Gives ⟦<GivingPort<'a, D> as Ground>⟧ self.old self.new }
        ensures cost { OnOk result (steps.new
            + ⟦<GivingPort<'a, D> as Ground>⟧.free self.old Page ≡ steps.old
            + ⟦<GivingPort<'a, D> as Ground>⟧.free self.new Page) }
        ensures rises { steps.old ≤ steps.new }
        ensures quiet { OnOk result (⟦<GivingPort<'a, D> as Ground>⟧.free self.new Page
            ≡ ⟦<GivingPort<'a, D> as Ground>⟧.free self.old Page
            → self.new.disk.now ≡ self.old.disk.now) }
        ensures fault { IfErr result (λ fault. Blames ⟦<GivingPort<'a, D> as Ground>⟧ self.old
            root.now.height 2 (root_row root.now) fault) }
        ensures way { IfErr result (λ fault. BlamesAlways ⟦<GivingPort<'a, D> as Ground>⟧ self.old
            root.now.height 2 (root_row root.now) fault) }
        ensures cause { HasCause (⟦<GivingPort<'a, D> as Ground>⟧.faults self.old)
            (⟦<GivingPort<'a, D> as Ground>⟧.faults self.new) result }
    {
        release_tree(self, alloc, root, steps)
    }
}

impl<'a, D: Disk> ReadBlocks for GivingPort<'a, D> {
    fn geometry(&self) -> Geometry {
        self.geometry
    }

    fn node(&mut self, alloc: Global, page: PageNo) -> Result<&[u8], PortFault> {
        self.bring(alloc, page)?;
        Ok(self.frame(page))
    }

    fn leaf_into(
        &mut self,
        _alloc: Global,
        page: PageNo,
        from: u32,
        out: &mut [u8],
    ) -> Result<(), PortFault> {
        let at = page.0 as u64 * self.geometry.page_size as u64 + from as u64;
        match self.disk.read(at, out) {
            Ok(()) => Ok(()),
            Err(_) => Err(PortFault::Disk),
        }
    }
}

impl<'a, D: Disk> CountBlocks for GivingPort<'a, D> {
    ghost use Rattle.std.specs.Prelude.{refl};
    ghost use Rattle.std.proofs.Common.{◌∙◌};

    ghost idle = { λ a b. b.disk.now ≡ a.disk.now };

    ghost idle_refl = { λ s. refl };

    ghost idle_trans = { λ a b c x y. y ∙ x };

    #[inline(always)]
    fn drop_ref(&mut self, page: PageNo) -> bool {
        if self.is_logged(page) {
            return false;
        }
        self.units.drop_ref(page)
    }

    fn give_unit(&mut self, page: PageNo) {
        self.units.give(page)
    }
}
