// Reading what a root spells.
ghost use Rattle.ex_base.specs.Area.{NamesLeaf};
ghost use Rattle.std.specs.Prelude.{◌≡◌, ℕ, List, ◌≤◌, ◌+◌, length, OnOk, IfErr, ◌<◌};
ghost use Rattle.ex_base.specs.Bytes.{bytes_at};
ghost use Rattle.ex_base.specs.Ports.{Keeps, HasCause, IsDamage};
ghost use Rattle.trees.specs.Trees.{RootSpells};
ghost use Rattle.trees.specs.Damage.{IsRootReadFault, IsWhole, IsSoundRoot};
ghost use Rattle.trees.specs.Roots.{IsRootFor};

use ex_base::{PortFault, ROOT_LEAST, ReadBlocks, Root};
use std::alloc::Global;
use trees::{Part, read_row};

/// Reads the bytes that a root spells from a position on, as many as `out` holds.
pub fn read<B: ReadBlocks>(
    blocks: &mut B,
    alloc: Global,
    root: &Root,
    pos: u64,
    out: &mut [u8],
) -> Result<(), PortFault>
    requires ready { B.ready blocks.old }
    requires root { IsRootFor (B.geometry blocks.old) root.now }
    requires range { pos + length out.old ≤ root.now.size }
    ensures bytes { OnOk result (B.tells blocks.old → (bytes : List ℕ)
        → RootSpells (B.geometry blocks.old) (B.unit blocks.old) root.now bytes
        → out.new ≡ bytes_at bytes pos (length out.old)) }
    ensures way { OnOk result (B.tells blocks.old → (byte : ℕ) → pos ≤ byte
        → byte < pos + length out.old → IsSoundRoot (B.geometry blocks.old) (B.unit blocks.old)
        (NamesLeaf (B.geometry blocks.old)) root.now byte byte) }
    ensures fault { IfErr result (λ fault. B.tells blocks.old
        → IsRootReadFault (B.geometry blocks.old) (B.unit blocks.old) root.now
        pos (length out.old) fault) }
    ensures sound { IfErr result (λ fault. B.tells blocks.old
        → IsWhole (B.geometry blocks.old) (B.unit blocks.old) root.now → IsDamage fault → ⊥) }
    ensures kept { Keeps B.Ground blocks.old blocks.new }
    ensures cause { HasCause (B.faults blocks.old) (B.faults blocks.new) result }
{
    let Some(page) = root.page else {
        return Ok(());
    };
    let part = Part {
        size: root.size,
        page,
    };
    read_row(blocks, alloc, root.height, ROOT_LEAST, &[part], pos, out)
}
