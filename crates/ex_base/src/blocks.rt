//! The ports of tree pages: one for reading alone, and one that also takes units and gives them back.
ghost use Rattle.std.specs.Prelude.{◌≡◌, ◌≤◌, ◌+◌, ◌↔◌, IsTrue, true, false, length, IfOk, IfErr, OnOk};
ghost use Rattle.std.specs.Borrow.{sem};
ghost use Rattle.ex_base.specs.Area.{InPageArea, NamesLeaf, IsUnit};
ghost use Rattle.ex_base.specs.Bytes.{bytes_at};
ghost use Rattle.ex_base.specs.Sizes.{leaf_bytes};
ghost use Rattle.ex_base.specs.Ports.{Rests, Keeps, HasCause, IsDamage, TakesUnit, IsLowest, CountsNames, CountsRefs, with_ref, without_ref, GivesUnit};
ghost use Rattle.ex_base.specs.declared.names.Area.TheVariants.{Page, Segment};

use crate::faults::PortFault;
use crate::geometry::Geometry;
use crate::ground::Ground;
use crate::names::{Area, PageNo};
use std::alloc::Global;

/// Tree pages, for reading: inner nodes are pages of the page area, leaves are units of the segment area. A call that allocates takes `alloc`. `Disk`
/// comes only where the count of faults rose in the call, and no call answers `Damaged`.
pub trait ReadBlocks: Ground {
    fn geometry(&self) -> Geometry
        requires ready { Self.ready self.now }
        ensures { result ≡ Self.geometry self.now };

    /// Lends a page of the page area.
    fn node(&mut self, alloc: Global, page: PageNo) -> Result<&[u8], PortFault>
        requires ready { Self.ready self.old }
        requires page { InPageArea (Self.geometry self.old) page.0 }
        ensures bytes { IfOk result (λ s. Self.tells self.old → s.now ≡ Self.unit self.old page.0) }
        ensures len { IfOk result (λ s. length s.now ≡ (Self.geometry self.old).page_size) }
        ensures no_damage { IfErr result (λ fault. IsDamage fault → ⊥) }
        ensures* after { sem 𝓛 (Rests Self.row self.entry (λ new.
            Keeps Self.Ground self.old new
            × HasCause (Self.faults self.old) (Self.faults new) result)) };

    /// Reads a part of a leaf, from byte `from` of it on.
    fn leaf_into(
        &mut self,
        alloc: Global,
        page: PageNo,
        from: u32,
        out: &mut [u8],
    ) -> Result<(), PortFault>
        requires ready { Self.ready self.old }
        requires page { NamesLeaf (Self.geometry self.old) page.0 }
        requires range { from + length out.old ≤ leaf_bytes (Self.geometry self.old) }
        ensures bytes { OnOk result (Self.tells self.old
            → out.new ≡ bytes_at (Self.unit self.old page.0) from (length out.old)) }
        ensures no_damage { IfErr result (λ fault. IsDamage fault → ⊥) }
        ensures kept { Keeps Self.Ground self.old self.new }
        ensures cause { HasCause (Self.faults self.old) (Self.faults self.new) result };
}

/// Tree pages. A unit is written once, when it is taken. No call touches a logged page. `Disk` comes only where the count of faults rose in the call, and
/// no call answers `Damaged`.
pub trait Blocks: ReadBlocks {
    /// How many units of an area are free.
    fn free(&self, area: Area) -> u32
        ensures { result ≡ Self.free self.now area };

    /// Takes the lowest free page and writes it. Each unit that it names, where that is used, has a reference more.
    fn new_node(&mut self, bytes: &[u8]) -> Result<PageNo, PortFault>
        requires ready { Self.ready self.old }
        requires free { 1 ≤ Self.free self.old Page }
        requires page { length bytes.now ≡ (Self.geometry self.old).page_size }
        ensures taken { IfOk result
            (λ page. TakesUnit Self.Ground self.old self.new Page page.0 bytes.now) }
        ensures whole { IfOk result (λ page. Self.tells self.old
            → Self.unit self.new page.0 ≡ bytes.now) }
        ensures lowest { IfOk result
            (λ page. IsLowest (Self.geometry self.old) (Self.used self.old) Page page.0) }
        ensures references { OnOk result (CountsNames Self.Ground self.old self.new
            (Self.names (Self.geometry self.old) bytes.now)) }
        ensures pages { OnOk result (Self.free self.new Page + 1 ≡ Self.free self.old Page) }
        ensures leaves { OnOk result (Self.free self.new Segment ≡ Self.free self.old Segment) }
        ensures no_damage { IfErr result (λ fault. IsDamage fault → ⊥) }
        ensures touched { Self.touched self.new ≡ Self.touched self.old }
        ensures leads { Self.leads self.old self.new }
        ensures cause { HasCause (Self.faults self.old) (Self.faults self.new) result };

    /// Takes the lowest free unit of the segment area and writes its front.
    fn new_leaf(&mut self, bytes: &[u8]) -> Result<PageNo, PortFault>
        requires ready { Self.ready self.old }
        requires free { 1 ≤ Self.free self.old Segment }
        requires some { 1 ≤ length bytes.now }
        requires fits { length bytes.now ≤ leaf_bytes (Self.geometry self.old) }
        ensures taken { IfOk result
            (λ page. TakesUnit Self.Ground self.old self.new Segment page.0 bytes.now) }
        ensures lowest { IfOk result
            (λ page. IsLowest (Self.geometry self.old) (Self.used self.old) Segment page.0) }
        ensures references { OnOk result (Self.refs self.new ≡ Self.refs self.old) }
        ensures pages { OnOk result (Self.free self.new Page ≡ Self.free self.old Page) }
        ensures leaves { OnOk result (Self.free self.new Segment + 1 ≡ Self.free self.old Segment) }
        ensures no_damage { IfErr result (λ fault. IsDamage fault → ⊥) }
        ensures touched { Self.touched self.new ≡ Self.touched self.old }
        ensures leads { Self.leads self.old self.new }
        ensures cause { HasCause (Self.faults self.old) (Self.faults self.new) result };

    /// Adds a reference to a unit. Where the unit isn't used, or its count is at its end, nothing changes.
    fn add_ref(&mut self, page: PageNo)
        requires ready { Self.ready self.old }
        requires unit { IsUnit (Self.geometry self.old) page.0 }
        ensures { CountsRefs Self.Ground self.old self.new page.0
            (with_ref (Self.used self.old page.0) (Self.refs self.old page.0)) };

    /// Takes a reference of a unit away, and tells whether it was the last one. Without a reference nothing changes.
    fn drop_ref(&mut self, page: PageNo) -> bool
        requires ready { Self.ready self.old }
        requires unit { IsUnit (Self.geometry self.old) page.0 }
        ensures last { IsTrue result ↔ (Self.refs self.old page.0 ≡ 1) }
        ensures counts { CountsRefs Self.Ground self.old self.new page.0
            (without_ref (Self.refs self.old page.0)) };

    /// Gives back a unit that has no reference and is no logged page.
    fn give_unit(&mut self, page: PageNo)
        requires ready { Self.ready self.old }
        requires unit { IsUnit (Self.geometry self.old) page.0 }
        requires used { Self.used self.old page.0 ≡ true }
        requires unnamed { Self.refs self.old page.0 ≡ 0 }
        requires apart { Self.held self.old page.0 ≡ false }
        ensures { GivesUnit Self.Ground self.old self.new page.0 };
}
