//! The pass over the records of a file.
ghost use Rattle.std.specs.Prelude.{◌≡◌, map, IfOk, IfErr};
ghost use Rattle.ex_base.specs.Ports.{Keeps, HasCause, IsDamage};
ghost use Rattle.ex_base.specs.declared.names.Index.{Index};
ghost use Rattle.file_bodies.specs.Bodies.{bodies_of};
ghost use Rattle.file_bodies.specs.Files.{HasFile};
ghost use Rattle.versions.specs.Listed.{AreReadable};
ghost use Rattle.record_lists.specs.Listed.{listed_of};

use crate::Listed;
use crate::catalog::index_of;
use crate::indexes::list_index;
use ex_base::{PortFault, ReadVolume};
use std::alloc::Global;

/// The records of a file, in order of place. The catalog, each page of the file and each page of its index are read once.
pub fn list_records<V: ReadVolume>(
    volume: &mut V,
    alloc: Global,
    file_no: u32,
) -> Result<Vec<Listed>, PortFault>
    requires { V.ready volume.old }
    ensures records { IfOk result (λ records. V.tells volume.old → (index : Index)
        → HasFile V.Ground volume.old index → index.file_no ≡ file_no
        → records.items ≡ map listed_of (bodies_of (V.image volume.old) index)) }
    ensures sound { IfErr result (λ fault. IsDamage fault → V.tells volume.old → (index : Index)
        → HasFile V.Ground volume.old index → index.file_no ≡ file_no
        → AreReadable (bodies_of (V.image volume.old) index) → ⊥) }
    ensures kept { Keeps V.Ground volume.old volume.new }
    ensures cause { HasCause (V.faults volume.old) (V.faults volume.new) result }
{
    let index = index_of(volume, alloc, file_no)?;
    let mut records = Vec::new(alloc);
    list_index(volume, alloc, &index, &mut records)?;
    Ok(records)
}
