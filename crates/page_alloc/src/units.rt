// The units in use of a volume, by the numbers that name them.
ghost use Rattle.std.specs.Prelude.{◌≡◌, ◌+◌, ◌/◌, ◌<◌, ◌≤◌};
ghost use Rattle.ex_base.specs.Area.{IsUnit, unit_at};
ghost use Rattle.ex_base.specs.Sizes.{units};

use crate::area_units::AreaUnits;
use crate::history::History;
use ex_base::{Area, Geometry, PageNo};
use std::alloc::{AllocError, Global};
use std::marker::Model;

/// A unit by its place in its area.
#[derive(Clone, Copy)]
struct Spot {
    area: Area,
    index: usize,
}

/// The unit of so many pages that stands at a page of its area. Units of one page, which most volumes have, cost no division.
fn unit_behind(pages: u32, seg_len: u32) -> u32
    requires { 1 ≤ seg_len }
    ensures { result ≡ pages / seg_len }
{
    if seg_len == 1 {
        return pages;
    }
    pages / seg_len
}

/// Where the unit that a page names stands.
fn spot_of(geometry: &Geometry, page: PageNo) -> Spot
    requires { IsUnit geometry.now page.0 }
    ensures inside { result.index < units geometry.now result.area }
    ensures named { page.0 ≡ unit_at geometry.now result.area result.index }
{
    let end = PageNo::CATALOG.0 + geometry.pages;
    if page.0 < end {
        Spot {
            area: Area::Page,
            index: (page.0 - PageNo::CATALOG.0) as usize,
        }
    } else {
        Spot {
            area: Area::Segment,
            index: unit_behind(page.0 - end, geometry.seg_len) as usize,
        }
    }
}

/// The units of both areas of a volume. After `make` no call takes memory, and each call takes the same time, however many units there are: the next
/// free unit is found by two levels of notes of what is full.
#[derive(Drop)]
pub struct Units {
    geometry: Geometry,
    pages: AreaUnits,
    segs: AreaUnits,
    history: History,
}

impl Model for Units {
    ghost use Rattle.page_alloc.specs.UnitSet.{UnitSet, IsFitting};

    ghost Value = { UnitSet };

    ghost view = { λ a. record { geometry = a.geometry; pages = a.pages; segs = a.segs; given = a.history.given } };

    ghost invariant = { λ a. IsFitting (record { geometry = a.geometry; pages = a.pages; segs = a.segs; given = a.history.given }) };
}

impl Units {
    ghost use Rattle.std.specs.Prelude.{◌≡◌, ◌≢◌, ◌+◌, ◌-◌, ◌<◌, ◌↔◌, IsTrue, true, false, IfOk, eqb};
    ghost use Rattle.ex_base.specs.declared.names.Area.{Area};
    ghost use Rattle.ex_base.specs.Area.{IsUnit, InArea, catalog_no};
    ghost use Rattle.ex_base.specs.Ports.{IsLowest, with_ref, without_ref};
    ghost use Rattle.page_alloc.specs.UnitSet.{used_at, refs_at, given_at, updated, free_count, flags_of};

    /// The units of a fresh volume: nothing but the catalog page is used.
    pub fn make(alloc: Global, geometry: &Geometry) -> Result<Units, AllocError>
        ensures geometry { IfOk result (λ u. u.geometry ≡ geometry.now) }
        ensures used { IfOk result (λ u. used_at u ≡ (λ page. eqb page catalog_no)) }
        ensures refs { IfOk result (λ u. refs_at u ≡ (λ _. 0)) }
        ensures given { IfOk result (λ u. given_at u ≡ (λ _. 0)) }
    {
        let mut pages = AreaUnits::make(alloc, geometry.pages as usize)?;
        pages.adopt(0);
        let segs = AreaUnits::make(alloc, geometry.segs as usize)?;
        Ok(Units {
            geometry: *geometry,
            pages,
            segs,
            history: History::new(),
        })
    }

    // The units of one area.
    fn area(&self, area: Area) -> &AreaUnits
        ensures { result.now ≡ flags_of self.now area }
    {
        match area {
            Area::Page => &self.pages,
            Area::Segment => &self.segs,
        }
    }

    /// How many units of the area are free.
    pub fn free(&self, area: Area) -> u32
        ensures { result ≡ free_count self.now.geometry (used_at self.now) area }
    {
        match area {
            Area::Page => self.pages.free(),
            Area::Segment => self.segs.free(),
        }
    }

    /// Whether a unit is used.
    pub fn is_used(&self, page: PageNo) -> bool
        requires { IsUnit self.now.geometry page.0 }
        ensures { result ≡ used_at self.now page.0 }
    {
        let spot = spot_of(&self.geometry, page);
        self.area(spot.area).is_used(spot.index)
    }

    /// How many references the unit has.
    pub fn refs(&self, page: PageNo) -> u32
        requires { IsUnit self.now.geometry page.0 }
        ensures refs { result ≡ refs_at self.now page.0 }
        ensures unowned { used_at self.now page.0 ≡ false → result ≡ 0 }
    {
        let spot = spot_of(&self.geometry, page);
        self.area(spot.area).refs(spot.index)
    }

    /// Takes the lowest free unit of the area, which has no reference.
    pub fn take(&mut self, area: Area) -> PageNo
        requires { 0 < free_count self.old.geometry (used_at self.old) area }
        ensures lowest { IsLowest self.old.geometry (used_at self.old) area result.0 }
        ensures fresh { refs_at self.old result.0 ≡ 0 }
        ensures used { used_at self.new ≡ updated (used_at self.old) result.0 true }
        ensures refs { refs_at self.new ≡ refs_at self.old }
        ensures geometry { self.new.geometry ≡ self.old.geometry }
        ensures given { given_at self.new ≡ given_at self.old }
        ensures free { free_count self.new.geometry (used_at self.new) area + 1
            ≡ free_count self.old.geometry (used_at self.old) area }
        ensures other_free { (a : Area) → a ≢ area
            → free_count self.new.geometry (used_at self.new) a
            ≡ free_count self.old.geometry (used_at self.old) a }
    {
        match area {
            Area::Page => PageNo(PageNo::CATALOG.0 + self.pages.take() as u32),
            Area::Segment => {
                let index = self.segs.take() as u32;
                PageNo(PageNo::CATALOG.0 + self.geometry.pages + index * self.geometry.seg_len)
            }
        }
    }

    /// Makes a unit used, without a reference.
    pub fn adopt(&mut self, page: PageNo)
        requires unit { IsUnit self.old.geometry page.0 }
        requires unused { used_at self.old page.0 ≡ false }
        ensures fresh { refs_at self.old page.0 ≡ 0 }
        ensures used { used_at self.new ≡ updated (used_at self.old) page.0 true }
        ensures refs { refs_at self.new ≡ refs_at self.old }
        ensures geometry { self.new.geometry ≡ self.old.geometry }
        ensures given { given_at self.new ≡ given_at self.old }
        ensures free { (a : Area) → InArea self.old.geometry a page.0
            → free_count self.new.geometry (used_at self.new) a + 1
            ≡ free_count self.old.geometry (used_at self.old) a }
        ensures other_free { (a : Area) → ¬ InArea self.old.geometry a page.0
            → free_count self.new.geometry (used_at self.new) a
            ≡ free_count self.old.geometry (used_at self.old) a }
    {
        let spot = spot_of(&self.geometry, page);
        match spot.area {
            Area::Page => self.pages.adopt(spot.index),
            Area::Segment => self.segs.adopt(spot.index),
        }
    }

    /// Gives a used unit back, with its references.
    pub fn give(&mut self, page: PageNo)
        requires unit { IsUnit self.old.geometry page.0 }
        requires used { used_at self.old page.0 ≡ true }
        ensures used { used_at self.new ≡ updated (used_at self.old) page.0 false }
        ensures refs { refs_at self.new ≡ updated (refs_at self.old) page.0 0 }
        ensures geometry { self.new.geometry ≡ self.old.geometry }
        ensures given { given_at self.new ≡ updated (given_at self.old) page.0
            (given_at self.old page.0 + 1) }
        ensures free { (a : Area) → InArea self.old.geometry a page.0
            → free_count self.new.geometry (used_at self.new) a
            ≡ free_count self.old.geometry (used_at self.old) a + 1 }
        ensures other_free { (a : Area) → ¬ InArea self.old.geometry a page.0
            → free_count self.new.geometry (used_at self.new) a
            ≡ free_count self.old.geometry (used_at self.old) a }
    {
        self.history = History::with(&self.history, &page);
        let spot = spot_of(&self.geometry, page);
        match spot.area {
            Area::Page => self.pages.give(spot.index),
            Area::Segment => self.segs.give(spot.index),
        }
    }

    /// Adds a reference to a used unit, unless it has the most that fit.
    #[inline(always)]
    pub fn add_ref(&mut self, page: PageNo)
        requires { IsUnit self.old.geometry page.0 }
        ensures used { used_at self.new ≡ used_at self.old }
        ensures refs { refs_at self.new ≡ updated (refs_at self.old) page.0
            (with_ref (used_at self.old page.0) (refs_at self.old page.0)) }
        ensures geometry { self.new.geometry ≡ self.old.geometry }
        ensures given { given_at self.new ≡ given_at self.old }
    {
        let spot = spot_of(&self.geometry, page);
        match spot.area {
            Area::Page => self.pages.add_ref(spot.index),
            Area::Segment => self.segs.add_ref(spot.index),
        }
    }

    /// Takes a reference away, where there is one; true where it was the last.
    #[inline(always)]
    pub fn drop_ref(&mut self, page: PageNo) -> bool
        requires { IsUnit self.old.geometry page.0 }
        ensures last { IsTrue result ↔ (refs_at self.old page.0 ≡ 1) }
        ensures used { used_at self.new ≡ used_at self.old }
        ensures refs { refs_at self.new ≡ updated (refs_at self.old) page.0
            (without_ref (refs_at self.old page.0)) }
        ensures geometry { self.new.geometry ≡ self.old.geometry }
        ensures given { given_at self.new ≡ given_at self.old }
    {
        let spot = spot_of(&self.geometry, page);
        match spot.area {
            Area::Page => self.pages.drop_ref(spot.index),
            Area::Segment => self.segs.drop_ref(spot.index),
        }
    }
}
