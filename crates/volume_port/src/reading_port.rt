//! A port for reading alone.
ghost use Rattle.std.specs.Prelude.{◌≡◌, ◌≤◌, ◌<◌, ◌+◌, ◌↔◌, length, false, IsTrue, OnOk, IfErr, IsOk};
ghost use Rattle.ex_base.specs.Area.{InPageArea, NamesLeaf};
ghost use Rattle.ex_base.specs.Bytes.{bytes_at};
ghost use Rattle.ex_base.specs.Ports.{Keeps, HasCause, IsDamage};
ghost use Rattle.ex_base.specs.Sizes.{leaf_bytes};
ghost use Rattle.disk_model.specs.Calls.{MakesCalls, MakesAtMost};
ghost use Rattle.buffer_groups.specs.Groups.{HasFrame, LacksFrame};
ghost use Rattle.volume_port.specs.LeafPieces.{MayHaveFrame, IsKept, home_bytes, piece_page};
ghost use Rattle.volume_port.specs.Ported.{IsAtHand};

use crate::logged::LoggedPages;
use crate::room::PageRoom;
use buffer_groups::Groups;
use disk_model::Disk;
use ex_base::{Geometry, Ground, PageNo, PortFault, ReadBlocks, ReadPages, ReadVolume};
use meta_pages::Meta;
use std::alloc::Global;

/// The units and the logged pages of a session, lent for reading alone: of the disk nothing is written. It tells of no unit as used, of no reference and
/// of no free unit.
#[derive(Drop)]
pub struct ReadingPort<'a, D: Disk> {
    pub disk: &'a mut D,
    pub groups: &'a mut Groups,
    /// Room for a copy of a page, which no call fills.
    pub room: &'a mut PageRoom,
    /// The group that pages are read through.
    pub index: u32,
    /// Whether a piece of one page of a leaf is read through a frame, so that the next piece of that page makes no call of the disk.
    pub keeps_leaves: bool,
    pub geometry: Geometry,
    pub meta: &'a Meta,
    pub pages: &'a LoggedPages,
}

impl<'a, D: Disk> Ground for ReadingPort<'a, D> {
    ghost use Rattle.trees.specs.Names.{names_on};
    ghost use Rattle.tree_store.specs.Stored.{unit_bytes};
    ghost use Rattle.tree_store.specs.Whole.{leaf_whole};
    ghost use Rattle.volume_port.specs.Logged.{is_held};
    ghost use Rattle.volume_port.specs.Ported.{image_over};
    ghost use Rattle.volume_port.specs.Reading.{CanRead, Reads, TellsBytes, reads_same, reads_on, reads_ready};

    ghost geometry = { λ s. s.geometry };

    ghost ready = { λ s. CanRead s.geometry (D.outside s.disk.now).size s.groups.now s.index s.meta.now };

    ghost tells = { λ s. TellsBytes (D.outside s.disk.now) s.groups.now };

    ghost unit = { λ s. unit_bytes s.geometry (D.outside s.disk.now).disk };

    ghost image = { λ s. image_over s.geometry s.meta.now (unit_bytes s.geometry (D.outside s.disk.now).disk) };

    ghost used = { λ s p. false };

    ghost refs = { λ s p. 0 };

    ghost names = { λ g bytes. names_on bytes };

    ghost held = { λ s. is_held s.pages.now };

    ghost free = { λ s area. 0 };

    ghost touched = { λ s. 0 };

    ghost faults = { λ s. (D.outside s.disk.now).disk_faults };

    ghost leads = { λ a b. Reads D.outside a.disk b.disk a.groups b.groups a.room b.room a.index b.index a.geometry b.geometry a.meta.now b.meta.now a.pages.now b.pages.now };

    ghost frees = { λ freed a b. Reads D.outside a.disk b.disk a.groups b.groups a.room b.room a.index b.index a.geometry b.geometry a.meta.now b.meta.now a.pages.now b.pages.now };

    ghost whole = { λ s ready told page leaf. leaf_whole (D.outside s.disk.now) s.geometry page (D.is_world s.disk.now) ready.disk told.0 leaf };

    ghost leads_refl = { λ s. reads_same D.outside s.disk s.groups s.room s.index s.geometry s.meta.now s.pages.now };

    ghost leads_trans = { λ a b c x y. reads_on D.outside a.disk b.disk c.disk a.groups b.groups c.groups a.room b.room c.room a.index b.index c.index a.geometry b.geometry c.geometry a.meta.now b.meta.now c.meta.now a.pages.now b.pages.now c.pages.now x y };

    ghost leads_geometry = { λ a b x. x.geometry };

    ghost leads_ready = { λ a b x. reads_ready D.outside a.disk b.disk a.groups b.groups a.room b.room a.index b.index a.geometry b.geometry a.meta.now b.meta.now a.pages.now b.pages.now x };

    ghost leads_told = { λ a b x. x.told };

    ghost leads_faults = { λ a b x. x.only.nothing.only.goes.disk_faults };

    ghost frees_leads = { λ freed a b x. x };

    ghost frees_trans = { λ freed a b c x y. reads_on D.outside a.disk b.disk c.disk a.groups b.groups c.groups a.room b.room c.room a.index b.index c.index a.geometry b.geometry c.geometry a.meta.now b.meta.now c.meta.now a.pages.now b.pages.now c.pages.now x y };

    ghost frees_more = { λ few many wider a b x. x };

    ghost frees_geometry = { λ freed a b x. x.geometry };

    ghost frees_ready = { λ freed a b x. reads_ready D.outside a.disk b.disk a.groups b.groups a.room b.room a.index b.index a.geometry b.geometry a.meta.now b.meta.now a.pages.now b.pages.now x };

    ghost frees_told = { λ freed a b x. x.told };

    ghost frees_faults = { λ freed a b x. x.only.nothing.only.goes.disk_faults };
}

impl<'a, D: Disk> ReadingPort<'a, D> {
    // Brings a page into a frame of the group, where the overlay has no image of it.
    fn reach(&mut self, alloc: Global, page: PageNo) -> Result<(), PortFault>
        requires ready { ⟦<ReadingPort<'a, D> as Ground>⟧.ready self.old }
        requires page { InPageArea self.old.geometry page.0 }
        ensures held { OnOk result (IsAtHand self.new.meta.now
            self.new.groups.now self.new.index page.0) }
        ensures kept { Keeps ⟦<ReadingPort<'a, D> as Ground>⟧ self.old self.new }
        ensures no_damage { IfErr result (λ fault. IsDamage fault → ⊥) }
        ensures cause { HasCause (⟦<ReadingPort<'a, D> as Ground>⟧.faults self.old)
            (⟦<ReadingPort<'a, D> as Ground>⟧.faults self.new) result }
    {
        if self.meta.shown(page).is_some() {
            return Ok(());
        }
        self.bring(alloc, page)
    }

    // Lends a page that is at hand, as the session has it.
    fn shown(&self, page: PageNo) -> &[u8]
        requires ready { ⟦<ReadingPort<'a, D> as Ground>⟧.ready self.now }
        requires page { InPageArea self.now.geometry page.0 }
        requires held { IsAtHand self.now.meta.now self.now.groups.now self.now.index page.0 }
        ensures bytes { ⟦<ReadingPort<'a, D> as Ground>⟧.tells self.now
            → result.now ≡ ⟦<ReadingPort<'a, D> as Ground>⟧.image self.now page.0 }
        ensures len { length result.now ≡ self.now.geometry.page_size }
    {
        match self.meta.shown(page) {
            Some(image) => image,
            None => self.frame(page),
        }
    }

    // Brings a page into a frame of the group. A page that has one makes no disk call, and another one makes one.
    fn bring(&mut self, alloc: Global, page: PageNo) -> Result<(), PortFault>
        requires ready { ⟦<ReadingPort<'a, D> as Ground>⟧.ready self.old }
        requires page { MayHaveFrame self.old.geometry page.0 }
        ensures held { OnOk result (HasFrame self.new.groups.now self.new.index page.0) }
        ensures no_memory { HasFrame self.old.groups.now self.old.index page.0 → IsOk result }
        ensures hit { HasFrame self.old.groups.now self.old.index page.0
            → self.new.disk.now ≡ self.old.disk.now }
        ensures miss { LacksFrame self.old.groups.now self.old.index page.0
            → OnOk result (MakesCalls 1 (D.outside self.old.disk.now)
            (D.outside self.new.disk.now)) }
        ensures at_most_once { MakesAtMost 1 (D.outside self.old.disk.now)
            (D.outside self.new.disk.now) }
        ensures keeps_leaves { self.new.keeps_leaves ≡ self.old.keeps_leaves }
        ensures kept { Keeps ⟦<ReadingPort<'a, D> as Ground>⟧ self.old self.new }
        ensures no_damage { IfErr result (λ fault. IsDamage fault → ⊥) }
        ensures cause { HasCause (⟦<ReadingPort<'a, D> as Ground>⟧.faults self.old)
            (⟦<ReadingPort<'a, D> as Ground>⟧.faults self.new) result }
    {
        let index = self.index;
        self.groups.bring(index, alloc, self.disk, page)?;
        Ok(())
    }

    // Lends the bytes of a page that has a frame.
    fn frame(&self, page: PageNo) -> &[u8]
        requires ready { ⟦<ReadingPort<'a, D> as Ground>⟧.ready self.now }
        requires page { MayHaveFrame self.now.geometry page.0 }
        requires held { HasFrame self.now.groups.now self.now.index page.0 }
        ensures bytes { ⟦<ReadingPort<'a, D> as Ground>⟧.tells self.now
            → result.now ≡ home_bytes self.now.geometry (D.outside self.now.disk.now).disk page.0 }
        ensures len { length result.now ≡ self.now.geometry.page_size }
    {
        self.groups.get(self.index).frame(page)
    }

    // Whether so many bytes from a place of a leaf on are read through a frame.
    fn is_kept(&self, from: u32, len: usize) -> bool
        ensures { IsTrue result ↔ IsKept self.now.keeps_leaves self.now.geometry from len }
    {
        let size = self.geometry.page_size as usize;
        let at = (from % self.geometry.page_size) as usize;
        self.keeps_leaves && 1 <= len && len < size && at + len <= size
    }

    // Copies bytes of a page from its frame. Where it has none, it gets one.
    fn piece_into(
        &mut self,
        alloc: Global,
        page: PageNo,
        at: u32,
        out: &mut [u8],
    ) -> Result<(), PortFault>
        requires ready { ⟦<ReadingPort<'a, D> as Ground>⟧.ready self.old }
        requires page { MayHaveFrame self.old.geometry page.0 }
        requires range { at + length out.old ≤ self.old.geometry.page_size }
        ensures bytes { OnOk result (⟦<ReadingPort<'a, D> as Ground>⟧.tells self.old
            → out.new ≡ bytes_at (home_bytes self.old.geometry
            (D.outside self.old.disk.now).disk page.0) at (length out.old)) }
        ensures held { OnOk result (HasFrame self.new.groups.now self.new.index page.0) }
        ensures no_memory { HasFrame self.old.groups.now self.old.index page.0 → IsOk result }
        ensures hit { HasFrame self.old.groups.now self.old.index page.0
            → self.new.disk.now ≡ self.old.disk.now }
        ensures miss { LacksFrame self.old.groups.now self.old.index page.0
            → OnOk result (MakesCalls 1 (D.outside self.old.disk.now)
            (D.outside self.new.disk.now)) }
        ensures at_most_once { MakesAtMost 1 (D.outside self.old.disk.now)
            (D.outside self.new.disk.now) }
        ensures keeps_leaves { self.new.keeps_leaves ≡ self.old.keeps_leaves }
        ensures kept { Keeps ⟦<ReadingPort<'a, D> as Ground>⟧ self.old self.new }
        ensures no_damage { IfErr result (λ fault. IsDamage fault → ⊥) }
        ensures cause { HasCause (⟦<ReadingPort<'a, D> as Ground>⟧.faults self.old)
            (⟦<ReadingPort<'a, D> as Ground>⟧.faults self.new) result }
    {
        self.bring(alloc, page)?;
        let at = at as usize;
        let len = out.len();
        out.copy_from_slice(&self.frame(page)[at..at + len]);
        Ok(())
    }
}

impl<'a, D: Disk> ReadBlocks for ReadingPort<'a, D> {
    fn geometry(&self) -> Geometry {
        self.geometry
    }

    fn node(&mut self, alloc: Global, page: PageNo) -> Result<&[u8], PortFault> {
        self.bring(alloc, page)?;
        Ok(self.frame(page))
    }

    fn leaf_into(
        &mut self,
        alloc: Global,
        page: PageNo,
        from: u32,
        out: &mut [u8],
    ) -> Result<(), PortFault>
        requires ready { ⟦<ReadingPort<'a, D> as Ground>⟧.ready self.old }
        requires page { NamesLeaf self.old.geometry page.0 }
        requires range { from + length out.old ≤ leaf_bytes self.old.geometry }
        ensures bytes { OnOk result (⟦<ReadingPort<'a, D> as Ground>⟧.tells self.old
            → out.new ≡ bytes_at (⟦<ReadingPort<'a, D> as Ground>⟧.unit self.old page.0)
            from (length out.old)) }
        ensures no_damage { IfErr result (λ fault. IsDamage fault → ⊥) }
        ensures kept { Keeps ⟦<ReadingPort<'a, D> as Ground>⟧ self.old self.new }
        ensures cause { HasCause (⟦<ReadingPort<'a, D> as Ground>⟧.faults self.old)
            (⟦<ReadingPort<'a, D> as Ground>⟧.faults self.new) result }

        // A piece of one page goes through its frame, and makes no call of the disk where it has one.
        ensures held { IsKept self.old.keeps_leaves self.old.geometry from (length out.old)
            → OnOk result (HasFrame self.new.groups.now self.new.index
            (piece_page self.old.geometry page.0 from)) }
        ensures no_memory { IsKept self.old.keeps_leaves self.old.geometry from (length out.old)
            → HasFrame self.old.groups.now self.old.index (piece_page self.old.geometry page.0 from)
            → IsOk result }
        ensures hit { IsKept self.old.keeps_leaves self.old.geometry from (length out.old)
            → HasFrame self.old.groups.now self.old.index (piece_page self.old.geometry page.0 from)
            → self.new.disk.now ≡ self.old.disk.now }
        ensures miss { IsKept self.old.keeps_leaves self.old.geometry from (length out.old)
            → LacksFrame self.old.groups.now self.old.index
            (piece_page self.old.geometry page.0 from)
            → OnOk result (MakesCalls 1 (D.outside self.old.disk.now)
            (D.outside self.new.disk.now)) }

        // Other bytes are read past the frames, which stay.
        ensures past { (IsKept self.old.keeps_leaves self.old.geometry from (length out.old) → ⊥)
            → OnOk result (MakesCalls 1 (D.outside self.old.disk.now)
            (D.outside self.new.disk.now)) }
        ensures frames { (IsKept self.old.keeps_leaves self.old.geometry from (length out.old)
            → ⊥) → self.new.groups.now ≡ self.old.groups.now }
        ensures at_most_once { MakesAtMost 1 (D.outside self.old.disk.now)
            (D.outside self.new.disk.now) }
        ensures keeps_leaves { self.new.keeps_leaves ≡ self.old.keeps_leaves }
    {
        if self.is_kept(from, out.len()) {
            let size = self.geometry.page_size;
            return self.piece_into(alloc, PageNo(page.0 + from / size), from % size, out);
        }
        let at = page.0 as u64 * self.geometry.page_size as u64 + from as u64;
        self.disk.read(at, out)?;
        Ok(())
    }
}

impl<'a, D: Disk> ReadPages for ReadingPort<'a, D> {
    fn page_size(&self) -> u32 {
        self.geometry.page_size
    }

    fn in_area(&self, page: PageNo) -> bool {
        self.geometry.in_page_area(page)
    }

    fn get(&mut self, alloc: Global, page: PageNo) -> Result<&[u8], PortFault> {
        self.reach(alloc, page)?;
        Ok(self.shown(page))
    }
}

impl<'a, D: Disk> ReadVolume for ReadingPort<'a, D> {}
