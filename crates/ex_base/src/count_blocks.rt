//! The port of tree pages whose owners are counted.
ghost use Rattle.std.specs.Prelude.{◌≡◌, ◌↔◌, IsTrue, true, false};
ghost use Rattle.ex_base.specs.Area.{IsUnit};
ghost use Rattle.ex_base.specs.Ports.{CountsRefs, without_ref, GivesUnit};

use crate::blocks::ReadBlocks;
use crate::names::PageNo;

/// Tree pages whose owners are counted: what giving a tree up asks of a port. No call takes a unit, and none calls the disk.
pub trait CountBlocks: ReadBlocks {
    /// An earlier and a later state of the object, with no call of the disk in between.
    ghost idle: { Self → Self → Type 0 };

    ghost idle_refl: { (s : Self) → idle s s };

    ghost idle_trans: { (a b c : Self) → idle a b → idle b c → idle a c };

    /// Takes a reference of a unit away, and tells whether it was the last one. Without a reference nothing changes.
    fn drop_ref(&mut self, page: PageNo) -> bool
        requires ready { Self.ready self.old }
        requires unit { IsUnit (Self.geometry self.old) page.0 }
        ensures last { IsTrue result ↔ (Self.refs self.old page.0 ≡ 1) }
        ensures counts { CountsRefs Self.Ground self.old self.new page.0
            (without_ref (Self.refs self.old page.0)) }
        ensures idle { idle self.old self.new };

    /// Gives back a unit that has no reference and is no logged page.
    fn give_unit(&mut self, page: PageNo)
        requires ready { Self.ready self.old }
        requires unit { IsUnit (Self.geometry self.old) page.0 }
        requires used { Self.used self.old page.0 ≡ true }
        requires unnamed { Self.refs self.old page.0 ≡ 0 }
        requires apart { Self.held self.old page.0 ≡ false }
        ensures given { GivesUnit Self.Ground self.old self.new page.0 }
        ensures idle { idle self.old self.new };
}
