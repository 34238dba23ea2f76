//! A version whose tree is moved.
ghost use Rattle.std.specs.Prelude.{◌≡◌, ℕ, [], List, IfErr, IfOk, OnOk};
ghost use Rattle.ex_base.specs.declared.names.Index.{Index};
ghost use Rattle.ex_base.specs.Ports.{HasCause, IsDamage};
ghost use Rattle.file_index.specs.Touches.{TouchesAtMost};
ghost use Rattle.object_records.specs.Record.{IsRecord, Large};
ghost use Rattle.object_records.specs.Reads.{small_record};
ghost use Rattle.trees.specs.Roots.{IsRootFor};
ghost use Rattle.trees.specs.Trees.{root_units};
ghost use Rattle.versions.specs.Versions.{AreInUse, HasVersion};
ghost use Rattle.compact.specs.Moved.{KeepsCopies, MayMove};
ghost use Rattle.compact.specs.Moves.{copies_of};
ghost use Rattle.packing.specs.Moving.{CopiesAreAway, VersionMoved};

use crate::record::put_root;
use compact::{Moves, move_tree};
use ex_base::{Oid, PortFault, Root, Volume};
use object_records::Head;
use std::alloc::Global;
use versions::place_of;

/// Moves the tree of a large version to the lowest units, as `move_tree` does, and writes the version's record in its place where the tree has another root
/// then. The version has this head and this root, as it was found. The root is told that it has afterwards. After a fault the working state isn't to be used
/// again.
pub fn move_version<V: Volume>(
    volume: &mut V,
    alloc: Global,
    oid: &Oid,
    head: &Head,
    root: &Root,
    dense: u32,
    moves: &mut Moves,
) -> Result<Root, PortFault>
    requires ready { V.ready volume.old }
    requires head { IsRecord (small_record head.now []) }
    requires root { IsRootFor (V.geometry volume.old) root.now }
    ensures moved { IfOk result (λ made. V.tells volume.old → AreInUse V.Ground volume.old
        → (index : Index) (bytes : List ℕ)
        → HasVersion V.Ground volume.old index oid.now head.now (Large root.now) bytes
        → MayMove V.Ground volume.old dense (copies_of moves.old) root.now
        → CopiesAreAway V.Ground volume.old (copies_of moves.old)
        (root_units (V.unit volume.old) root.now)
        → VersionMoved V.Ground volume.old volume.new index oid.now head.now dense
        (copies_of moves.old) (copies_of moves.new) root.now made bytes) }
    ensures still { IfOk result (λ made. made ≡ root.now
        → V.touched volume.new ≡ V.touched volume.old) }
    ensures sound { IfErr result (λ fault. IsDamage fault → V.tells volume.old
        → AreInUse V.Ground volume.old → (index : Index) (bytes : List ℕ)
        → HasVersion V.Ground volume.old index oid.now head.now (Large root.now) bytes
        → MayMove V.Ground volume.old dense (copies_of moves.old) root.now → ⊥) }
    ensures keeps { KeepsCopies (copies_of moves.old) (copies_of moves.new) }
    ensures touches { OnOk result (TouchesAtMost V.Ground volume.old volume.new 1) }
    ensures leads { V.leads volume.old volume.new }
    ensures cause { HasCause (V.faults volume.old) (V.faults volume.new) result }
{
    let made = move_tree(alloc, volume, root, dense, moves)?;
    if made == *root {
        return Ok(made);
    }
    let place = place_of(oid);
    put_root(volume, alloc, place, head, &made)?;
    Ok(made)
}
