//! Writing images home.
ghost use Rattle.std.specs.Prelude.{◌≡◌, ◌≤◌, ◌+◌, ◌*◌, ℕ, List, length, All, OnOk, OnErr, Some, IsTrue};
ghost use Rattle.disk_model.specs.Outside.{Outside, Rose};
ghost use Rattle.disk_model.specs.Calls.{MakesCalls, MakesAtMost};
ghost use Rattle.disk_model.specs.Changes.{ChangesWithin, InRange};
ghost use Rattle.ex_base.specs.Bytes.{repl};
ghost use Rattle.buffer_groups.specs.Groups.{AreOfSize, SameKinds, forgotten_in_all};
ghost use Rattle.buffer_groups.specs.Frames.{Lends};
ghost use Rattle.meta_pages.specs.Homes.{AreFrom, InHomes, homes_written, homes_forgotten};

use buffer_groups::Groups;
use disk_model::{Disk, Failed};
use ex_base::{Image, PageNo};

// Writes each image to the home of its page, which every group forgets first.
pub fn write_rows<D: Disk>(
    disk: &mut D,
    groups: &mut Groups,
    rows: &[(u32, Image)],
    size: u32,
) -> Result<(), Failed>
    requires fits { All (λ (row : ℕ × List ℕ). (row.0 * size + size ≤ (D.outside disk.old).size)
        × (length row.1 ≡ size)) rows.now }
    requires sizes { AreOfSize size groups.old }
    ensures at_most { MakesAtMost (length rows.now) (D.outside disk.old) (D.outside disk.new) }
    ensures calls { OnOk result (MakesCalls (length rows.now) (D.outside disk.old)
        (D.outside disk.new)) }
    ensures written { OnOk result ((d : List ℕ) → (D.outside disk.old).disk ≡ Some d
        → (D.outside disk.new).disk ≡ Some (homes_written size rows.now d)) }
    ensures forgotten { OnOk result (groups.new ≡ homes_forgotten rows.now groups.old) }
    ensures lends { IsTrue (D.outside disk.old).honest
        → All (Lends (D.outside disk.old).disk) groups.old
        → All (Lends (D.outside disk.new).disk) groups.new }
    ensures kinds { SameKinds groups.old groups.new }
    ensures sizes { AreOfSize size groups.new }
    ensures from { (low : ℕ) → AreFrom low groups.old → AreFrom low groups.new }
    ensures changes { ChangesWithin (InHomes size rows.now) (D.outside disk.old)
        (D.outside disk.new) }
    ensures cause { OnErr result (Rose (D.outside disk.old).disk_faults
        (D.outside disk.new).disk_faults) }
{
    for row in rows {
        write_page(disk, groups, PageNo(row.0), row.1.as_slice(), size)?;
    }
    Ok(())
}

// Writes one image home.
fn write_page<D: Disk>(
    disk: &mut D,
    groups: &mut Groups,
    page: PageNo,
    bytes: &[u8],
    size: u32,
) -> Result<(), Failed>
    requires fits { page.0 * size + size ≤ (D.outside disk.old).size }
    requires whole { length bytes.now ≡ size }
    requires sizes { AreOfSize size groups.old }
    ensures at_most_once { MakesAtMost 1 (D.outside disk.old) (D.outside disk.new) }
    ensures once { OnOk result (MakesCalls 1 (D.outside disk.old) (D.outside disk.new)) }
    ensures written { OnOk result ((d : List ℕ) → (D.outside disk.old).disk ≡ Some d
        → (D.outside disk.new).disk ≡ Some (repl d (page.0 * size) bytes.now)) }
    ensures forgotten { groups.new ≡ forgotten_in_all page.0 groups.old }
    ensures kinds { SameKinds groups.old groups.new }
    ensures sizes { AreOfSize size groups.new }
    ensures from { (low : ℕ) → AreFrom low groups.old → AreFrom low groups.new }
    ensures size { (D.outside disk.new).size ≡ (D.outside disk.old).size }
    ensures honest { (D.outside disk.new).honest ≡ (D.outside disk.old).honest }
    ensures lends { IsTrue (D.outside disk.old).honest
        → All (Lends (D.outside disk.old).disk) groups.old
        → All (Lends (D.outside disk.new).disk) groups.new }
    ensures changes { ChangesWithin (InRange (page.0 * size) size) (D.outside disk.old)
        (D.outside disk.new) }
    ensures cause { OnErr result (Rose (D.outside disk.old).disk_faults
        (D.outside disk.new).disk_faults) }
{
    groups.forget(page);
    disk.write(page.0 as u64 * size as u64, bytes)
}
