//! What every update does to the machine.

ghost use Rattle.std.specs.Prelude.{◌≡◌, ◌++◌, ◌∷◌, [], Some, IfOk, OnErr};
ghost use Rattle.table_model.specs.Steps.{counted, note};

use ex_base::{NoteKind, Oid, OpNote};
use std::alloc::AllocError;
use table_model::{Machine, Pick, Table};

/// The table changed, one note more, and what the volume has in use. Without memory nothing changes.
pub(crate) fn update(
    machine: &mut Machine,
    table: Table,
    note: OpNote,
    pick: &Pick,
) -> Result<(), AllocError>
    ensures machine { IfOk result (λ _. machine.new
        ≡ counted pick.now (record machine.old {
          working = Some table;
          notes = machine.old.notes
              ++ note ∷ [];
          touched = pick.now.touched;
        })) }
    ensures kept { OnErr result (machine.new ≡ machine.old) }
{
    machine.notes.push(note)?;
    machine.working = Some(table);
    machine.touched = pick.touched;
    machine.pages_used = pick.pages;
    machine.segs_used = pick.segs;
    Ok(())
}

/// A note of an update.
pub(crate) fn note(kind: NoteKind, oid: Oid, first: u64, second: u64) -> OpNote
    ensures { result ≡ note kind oid first second }
{
    OpNote {
        kind,
        oid,
        first,
        second,
    }
}
