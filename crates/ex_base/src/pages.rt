//! The ports of logged pages, one for reading alone and one that also changes them, and both kinds of ports over one object.
ghost use Rattle.std.specs.Prelude.{◌≡◌, ◌≢◌, ◌≤◌, ◌+◌, ◌↔◌, IsTrue, true, length, IfOk, IfErr, OnOk};
ghost use Rattle.std.specs.Borrow.{sem};
ghost use Rattle.ex_base.specs.Area.{InPageArea, catalog_no};
ghost use Rattle.ex_base.specs.Ports.{Rests, Keeps, HasCause, IsDamage, PutsImage, TakesPage, GivesPage};
ghost use Rattle.ex_base.specs.declared.names.Area.TheVariants.{Page, Segment};

use crate::blocks::{Blocks, ReadBlocks};
use crate::faults::PortFault;
use crate::ground::Ground;
use crate::names::PageNo;
use std::alloc::Global;

/// Logged pages, for reading: the catalog, and the pages of files and of their indexes. A call that allocates takes `alloc`. `Disk` comes only where
/// the count of faults rose in the call, and no call answers `Damaged`.
pub trait ReadPages: Ground {
    /// The bytes of a page.
    fn page_size(&self) -> u32
        requires ready { Self.ready self.now }
        ensures { result ≡ (Self.geometry self.now).page_size };

    /// Whether a page lies in the page area.
    fn in_area(&self, page: PageNo) -> bool
        requires ready { Self.ready self.now }
        ensures { IsTrue result ↔ InPageArea (Self.geometry self.now) page.0 };

    /// Lends a page as the working state has it.
    fn get(&mut self, alloc: Global, page: PageNo) -> Result<&[u8], PortFault>
        requires ready { Self.ready self.old }
        requires page { InPageArea (Self.geometry self.old) page.0 }
        ensures bytes { IfOk result (λ s. Self.tells self.old
            → s.now ≡ Self.image self.old page.0) }
        ensures len { IfOk result (λ s. length s.now ≡ (Self.geometry self.old).page_size) }
        ensures no_damage { IfErr result (λ fault. IsDamage fault → ⊥) }
        ensures* after { sem 𝓛 (Rests Self.row self.entry (λ new.
            Keeps Self.Ground self.old new
            × HasCause (Self.faults self.old) (Self.faults new) result)) };
}

/// Logged pages. Each call touches one page at most. `Disk` comes only where the count of faults rose in the call, and no call answers `Damaged`.
pub trait Pages: ReadPages {
    /// Whether the working state has a page. Only such a page is changed.
    fn has(&self, page: PageNo) -> bool
        requires ready { Self.ready self.now }
        requires page { InPageArea (Self.geometry self.now) page.0 }
        ensures { result ≡ Self.held self.now page.0 };

    /// Changes the working image of a page that the working state has, and touches the page.
    fn put(&mut self, alloc: Global, page: PageNo, image: &[u8]) -> Result<(), PortFault>
        requires ready { Self.ready self.old }
        requires page { InPageArea (Self.geometry self.old) page.0 }
        requires held { Self.held self.old page.0 ≡ true }
        requires len { length image.now ≡ (Self.geometry self.old).page_size }
        ensures put { OnOk result (PutsImage Self.Ground self.old self.new page.0 image.now) }
        ensures no_damage { IfErr result (λ fault. IsDamage fault → ⊥) }
        ensures touched { Self.touched self.new ≤ Self.touched self.old + 1 }
        ensures leads { Self.leads self.old self.new }
        ensures cause { HasCause (Self.faults self.old) (Self.faults self.new) result };

    /// Takes a free page, with this image.
    fn take_page(&mut self, alloc: Global, image: &[u8]) -> Result<PageNo, PortFault>
        requires ready { Self.ready self.old }
        requires free { 1 ≤ Self.free self.old Page }
        requires len { length image.now ≡ (Self.geometry self.old).page_size }
        ensures taken { IfOk result
            (λ page. TakesPage Self.Ground self.old self.new page.0 image.now) }
        ensures pages { OnOk result (Self.free self.new Page + 1 ≡ Self.free self.old Page) }
        ensures leaves { OnOk result (Self.free self.new Segment ≡ Self.free self.old Segment) }
        ensures no_damage { IfErr result (λ fault. IsDamage fault → ⊥) }
        ensures touched { Self.touched self.new ≤ Self.touched self.old + 1 }
        ensures leads { Self.leads self.old self.new }
        ensures cause { HasCause (Self.faults self.old) (Self.faults self.new) result };

    /// Gives a page back. It is free at once where the transaction took it, and else once the transaction is committed.
    fn give_page(&mut self, alloc: Global, page: PageNo) -> Result<(), PortFault>
        requires ready { Self.ready self.old }
        requires page { InPageArea (Self.geometry self.old) page.0 }
        requires other { page.0 ≢ catalog_no }
        ensures given { OnOk result (GivesPage Self.Ground self.old self.new page.0) }
        ensures no_damage { IfErr result (λ fault. IsDamage fault → ⊥) }
        ensures touched { Self.touched self.new ≤ Self.touched self.old + 1 }
        ensures leads { Self.leads self.old self.new }
        ensures cause { HasCause (Self.faults self.old) (Self.faults self.new) result };

    /// The working state has the catalog's page.
    ghost has_catalog: { (s : Self) → Self.Ground.ready s → Self.Ground.held s catalog_no ≡ true };
}

/// Both ports for reading, over one object.
pub trait ReadVolume: ReadBlocks + ReadPages {}

/// Both ports over one object.
pub trait Volume: ReadVolume + Blocks + Pages {}
