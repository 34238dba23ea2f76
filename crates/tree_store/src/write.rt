//! Writing a unit that was taken.
ghost use Rattle.std.specs.Prelude.{◌≡◌, ◌≤◌, ◌<◌, ◌+◌, ◌*◌, ◌^◌, ℕ, List, length, All, OnOk, IsTrue, IfErr};
ghost use Rattle.disk_model.specs.Outside.{Outside};
ghost use Rattle.disk_model.specs.Calls.{Wrote, MakesCalls};
ghost use Rattle.disk_model.specs.Changes.{ChangesWithin, InRange};
ghost use Rattle.ex_base.specs.Area.{catalog_no};
ghost use Rattle.ex_base.specs.Ports.{HasCause, IsDamage};
ghost use Rattle.buffer_groups.specs.Frames.{Lends};
ghost use Rattle.buffer_groups.specs.Groups.{HasFrame, AreOfSize, SameKinds};
ghost use Rattle.tree_store.specs.Stored.{AreFromCatalog, unit_forgotten};

use buffer_groups::Groups;
use disk_model::Disk;
use ex_base::{Image, PageNo, PortFault};

// Writes the front of a unit of so many pages. Every group forgets the unit's pages first.
pub fn write_unit<D: Disk>(
    disk: &mut D,
    groups: &mut Groups,
    page: PageNo,
    pages: u32,
    bytes: &[u8],
    size: u32,
) -> Result<(), PortFault>
    requires fits { page.0 * size + length bytes.now ≤ (D.outside disk.old).size }
    requires room { length bytes.now ≤ pages * size }
    requires numbers { page.0 + pages < 2 ^ 32 }
    requires sizes { AreOfSize size groups.old }
    ensures once { OnOk result (MakesCalls 1 (D.outside disk.old) (D.outside disk.new)) }
    ensures forgotten { groups.new ≡ unit_forgotten page.0 pages groups.old }
    ensures written { OnOk result (Wrote (page.0 * size) bytes.now (D.outside disk.old)
        (D.outside disk.new)) }
    ensures lends { IsTrue (D.outside disk.old).honest
        → All (Lends (D.outside disk.old).disk) groups.old
        → All (Lends (D.outside disk.new).disk) groups.new }
    ensures kinds { SameKinds groups.old groups.new }
    ensures sizes { AreOfSize size groups.new }
    ensures behind { AreFromCatalog groups.old → AreFromCatalog groups.new }
    ensures changes { ChangesWithin (InRange (page.0 * size) (length bytes.now))
        (D.outside disk.old) (D.outside disk.new) }
    ensures no_damage { IfErr result (λ fault. IsDamage fault → ⊥) }
    ensures cause { HasCause (D.outside disk.old).disk_faults
        (D.outside disk.new).disk_faults result }
{
    forget_unit(groups, page, pages);
    disk.write(page.0 as u64 * size as u64, bytes)?;
    Ok(())
}

// Writes a node's page, and puts it into the first frame of the group at the index: the next read of it there makes no disk call. No other group
// has it in a frame.
pub fn write_node<D: Disk>(
    disk: &mut D,
    groups: &mut Groups,
    index: u32,
    page: PageNo,
    image: Image,
    size: u32,
) -> Result<(), PortFault>
    requires fits { page.0 * size + size ≤ (D.outside disk.old).size }
    requires whole { length image ≡ size }
    requires numbers { page.0 + 1 < 2 ^ 32 }
    requires page { catalog_no ≤ page.0 }
    requires index { index < length groups.old }
    requires sizes { AreOfSize size groups.old }
    ensures framed { OnOk result (HasFrame groups.new index page.0) }
    ensures once { OnOk result (MakesCalls 1 (D.outside disk.old) (D.outside disk.new)) }
    ensures written { OnOk result (Wrote (page.0 * size) image (D.outside disk.old)
        (D.outside disk.new)) }
    ensures lends { IsTrue (D.outside disk.old).honest
        → All (Lends (D.outside disk.old).disk) groups.old
        → All (Lends (D.outside disk.new).disk) groups.new }
    ensures kinds { SameKinds groups.old groups.new }
    ensures sizes { AreOfSize size groups.new }
    ensures behind { AreFromCatalog groups.old → AreFromCatalog groups.new }
    ensures changes { ChangesWithin (InRange (page.0 * size) size) (D.outside disk.old)
        (D.outside disk.new) }
    ensures no_damage { IfErr result (λ fault. IsDamage fault → ⊥) }
    ensures cause { HasCause (D.outside disk.old).disk_faults
        (D.outside disk.new).disk_faults result }
{
    write_unit(disk, groups, page, 1, image.as_slice(), size)?;
    groups.put(index, page, image)?;
    Ok(())
}

// Takes the pages of a unit out of the frames of every group.
fn forget_unit(groups: &mut Groups, page: PageNo, pages: u32)
    requires { page.0 + pages < 2 ^ 32 }
    ensures { groups.new ≡ unit_forgotten page.0 pages groups.old }
{
    for i in 0..pages {
        groups.forget(PageNo(page.0 + i));
    }
}
