//! The volume in memory.
ghost use Rattle.std.specs.Prelude.{◌≡◌, ◌≢◌, ℕ, List, true, false, length, eqb, IfOk, Some};
ghost use Rattle.ex_base.specs.Area.{area_end, catalog_no};
ghost use Rattle.memory_ports.specs.InMemory.{flag_in};

use crate::bytes::{part_of, put_part};
use ex_base::{
    Area, Blocks, Geometry, Ground, PageNo, Pages, PortFault, ReadBlocks, ReadPages, ReadVolume,
    Volume,
};
use page_alloc::Units;
use std::alloc::{AllocError, Global};
use tree_store::count_names;

/// A volume in memory: the bytes of its units, a working image of each page and whether the working state has it. Its disk never fails. A logged page
/// that is given back stays used, as one is until its transaction is committed.
#[derive(Drop)]
pub struct MemoryVolume {
    pub geometry: Geometry,
    pub units: Units,
    pub bytes: Vec<u8>,
    pub images: Vec<u8>,
    pub held: Vec<bool>,
}

impl MemoryVolume {
    ghost use Rattle.page_alloc.specs.UnitSet.{used_at, refs_at};
    ghost use Rattle.memory_ports.specs.InMemory.{IsVolume};

    /// A fresh volume: the catalog's page alone is used, every byte is zero.
    pub fn make(alloc: Global, geometry: &Geometry) -> Result<MemoryVolume, AllocError>
        ensures ready { IfOk result
            (λ v. IsVolume v.geometry v.units v.bytes.items v.images.items v.held.items) }
        ensures geometry { IfOk result (λ v. v.geometry ≡ geometry.now) }
        ensures used { IfOk result (λ v. used_at v.units ≡ (λ page. eqb page catalog_no)) }
        ensures refs { IfOk result (λ v. refs_at v.units ≡ (λ _. 0)) }
    {
        let pages = (PageNo::CATALOG.0 + geometry.pages) as usize;
        let size = geometry.page_size as usize;
        Ok(MemoryVolume {
            geometry: *geometry,
            units: Units::make(alloc, geometry)?,
            bytes: vec![in alloc; 0u8; geometry.volume_bytes() as usize]?,
            images: vec![in alloc; 0u8; pages * size]?,
            held: fresh_flags(alloc, geometry)?,
        })
    }
}

// The flags of a fresh volume: that of the catalog's page alone is set.
fn fresh_flags(alloc: Global, geometry: &Geometry) -> Result<Vec<bool>, AllocError>
    ensures len { IfOk result (λ flags. length flags.items ≡ area_end geometry.now) }
    ensures catalog { IfOk result (λ flags. flag_in flags.items catalog_no ≡ true) }
    ensures others { IfOk result
        (λ flags. (p : ℕ) → p ≢ catalog_no → flag_in flags.items p ≡ false) }
{
    let pages = (PageNo::CATALOG.0 + geometry.pages) as usize;
    let mut held = vec![in alloc; false; pages]?;
    held[PageNo::CATALOG.0 as usize] = true;
    Ok(held)
}

impl Ground for MemoryVolume {
    ghost use Rattle.std.proofs.Common.{le_refl};
    ghost use Rattle.page_alloc.specs.UnitSet.{used_at, refs_at, free_count};
    ghost use Rattle.trees.specs.Names.{names_on};
    ghost use Rattle.tree_store.specs.Stored.{unit_bytes};
    ghost use Rattle.memory_ports.specs.InMemory.{IsVolume, Follows, follows_same, follows_on, image_in, leaf_in};

    ghost geometry = { λ m. m.geometry };

    ghost ready = { λ m. IsVolume m.geometry m.units m.bytes.items m.images.items m.held.items };

    ghost tells = { λ m. Unit {0} };

    ghost unit = { λ m. unit_bytes m.geometry (Some m.bytes.items) };

    ghost image = { λ m. image_in m.geometry m.images.items };

    ghost used = { λ m. used_at m.units };

    ghost refs = { λ m. refs_at m.units };

    ghost names = { λ g bytes. names_on bytes };

    ghost held = { λ m. flag_in m.held.items };

    ghost free = { λ m. free_count m.units.geometry (used_at m.units) };

    ghost touched = { λ m. 0 };

    ghost faults = { λ m. 0 };

    ghost leads = { λ a b. Follows a.geometry b.geometry a.units b.units a.bytes.items b.bytes.items a.images.items b.images.items a.held.items b.held.items };

    ghost frees = { λ freed a b. Follows a.geometry b.geometry a.units b.units a.bytes.items b.bytes.items a.images.items b.images.items a.held.items b.held.items };

    ghost whole = { λ m ready told page leaf. leaf_in m.geometry page m.units m.bytes.items m.images.items m.held.items ready leaf };

    ghost leads_refl = { λ m. follows_same m.geometry m.units m.bytes.items m.images.items m.held.items };

    ghost leads_trans = { λ a b c x y. follows_on a.geometry b.geometry c.geometry a.units b.units c.units a.bytes.items b.bytes.items c.bytes.items a.images.items b.images.items c.images.items a.held.items b.held.items c.held.items x y };

    ghost leads_geometry = { λ a b x. x.geometry };

    ghost leads_ready = { λ a b x. x.ready };

    ghost leads_told = { λ a b x told. told };

    ghost leads_faults = { λ a b x. le_refl 0 };

    ghost frees_leads = { λ freed a b x. x };

    ghost frees_trans = { λ freed a b c x y. follows_on a.geometry b.geometry c.geometry a.units b.units c.units a.bytes.items b.bytes.items c.bytes.items a.images.items b.images.items c.images.items a.held.items b.held.items c.held.items x y };

    ghost frees_more = { λ few many wider a b x. x };

    ghost frees_geometry = { λ freed a b x. x.geometry };

    ghost frees_ready = { λ freed a b x. x.ready };

    ghost frees_told = { λ freed a b x told. told };

    ghost frees_faults = { λ freed a b x. le_refl 0 };
}

impl ReadBlocks for MemoryVolume {
    fn geometry(&self) -> Geometry {
        self.geometry
    }

    fn node(&mut self, _alloc: Global, page: PageNo) -> Result<&[u8], PortFault> {
        let size = self.geometry.page_size as usize;
        Ok(part_of(&self.bytes, page.0 as usize * size, size))
    }

    fn leaf_into(
        &mut self,
        _alloc: Global,
        page: PageNo,
        from: u32,
        out: &mut [u8],
    ) -> Result<(), PortFault> {
        let at = page.0 as usize * self.geometry.page_size as usize + from as usize;
        out.copy_from_slice(part_of(&self.bytes, at, out.len()));
        Ok(())
    }
}

impl Blocks for MemoryVolume {
    fn free(&self, area: Area) -> u32 {
        self.units.free(area)
    }

    fn new_node(&mut self, bytes: &[u8]) -> Result<PageNo, PortFault> {
        count_names(&mut self.units, &self.geometry, bytes);
        let page = self.units.take(Area::Page);
        let at = page.0 as usize * self.geometry.page_size as usize;
        put_part(&mut self.bytes, at, bytes);
        Ok(page)
    }

    fn new_leaf(&mut self, bytes: &[u8]) -> Result<PageNo, PortFault> {
        let page = self.units.take(Area::Segment);
        let at = page.0 as usize * self.geometry.page_size as usize;
        put_part(&mut self.bytes, at, bytes);
        Ok(page)
    }

    fn add_ref(&mut self, page: PageNo) {
        self.units.add_ref(page)
    }

    fn drop_ref(&mut self, page: PageNo) -> bool {
        self.units.drop_ref(page)
    }

    fn give_unit(&mut self, page: PageNo) {
        self.units.give(page)
    }
}

impl ReadPages for MemoryVolume {
    fn page_size(&self) -> u32 {
        self.geometry.page_size
    }

    fn in_area(&self, page: PageNo) -> bool {
        self.geometry.in_page_area(page)
    }

    fn get(&mut self, _alloc: Global, page: PageNo) -> Result<&[u8], PortFault> {
        let size = self.geometry.page_size as usize;
        Ok(part_of(&self.images, page.0 as usize * size, size))
    }
}

impl Pages for MemoryVolume {
    fn has(&self, page: PageNo) -> bool {
        self.held[page.0 as usize]
    }

    fn put(&mut self, _alloc: Global, page: PageNo, image: &[u8]) -> Result<(), PortFault> {
        let at = page.0 as usize * self.geometry.page_size as usize;
        put_part(&mut self.images, at, image);
        Ok(())
    }

    fn take_page(&mut self, _alloc: Global, image: &[u8]) -> Result<PageNo, PortFault> {
        let page = self.units.take(Area::Page);
        self.held[page.0 as usize] = true;
        let at = page.0 as usize * self.geometry.page_size as usize;
        put_part(&mut self.images, at, image);
        Ok(page)
    }

    fn give_page(&mut self, _alloc: Global, page: PageNo) -> Result<(), PortFault> {
        self.held[page.0 as usize] = false;
        Ok(())
    }

    ghost has_catalog = { λ m is. is.catalog };
}

impl ReadVolume for MemoryVolume {}

impl Volume for MemoryVolume {}
