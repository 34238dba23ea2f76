//! Tree pages, by the store.
use crate::port::VolumePort;
use disk_model::Disk;
use ex_base::{Area, Blocks, Geometry, PageNo, PortFault, ReadBlocks};
use std::alloc::Global;

impl<'a, D: Disk> ReadBlocks for VolumePort<'a, D> {
    fn geometry(&self) -> Geometry {
        self.store.geometry()
    }

    fn node(&mut self, alloc: Global, page: PageNo) -> Result<&[u8], PortFault> {
        self.store.bring(alloc, page)?;
        Ok(self.store.frame(page))
    }

    fn leaf_into(
        &mut self,
        alloc: Global,
        page: PageNo,
        from: u32,
        out: &mut [u8],
    ) -> Result<(), PortFault> {
        self.store.leaf_into(alloc, page, from, out)
    }
}

impl<'a, D: Disk> Blocks for VolumePort<'a, D> {
    fn free(&self, area: Area) -> u32 {
        self.store.free(area)
    }

    fn new_node(&mut self, bytes: &[u8]) -> Result<PageNo, PortFault> {
        self.store.new_node(bytes)
    }

    fn new_leaf(&mut self, bytes: &[u8]) -> Result<PageNo, PortFault> {
        self.store.new_leaf(bytes)
    }

    fn add_ref(&mut self, page: PageNo) {
        self.store.add_ref(page)
    }

    fn drop_ref(&mut self, page: PageNo) -> bool {
        self.store.drop_ref(page)
    }

    fn give_unit(&mut self, page: PageNo) {
        self.store.give_unit(page)
    }
}
