//! The machine before the first line.

ghost use Rattle.std.specs.Prelude.{◌≡◌};
ghost use Rattle.table_model.specs.Tables.{empty_table};
ghost use Rattle.table_model.specs.Machines.{IsMachine, start};

use ex_base::{Geometry, Items};
use std::alloc::Global;
use table_model::{Machine, Table};

/// A session over an empty volume.
pub fn empty_volume(alloc: Global, geometry: Geometry) -> Machine
    ensures machine { result ≡ start geometry empty_table 0 0 }
    ensures rules { IsMachine result }
{
    Machine {
        geometry,
        committed: Table {
            next_unique: 1,
            last: 0,
            files: Items::make(alloc),
        },
        working: None,
        notes: Items::make(alloc),
        touched: 0,
        names: Items::make(alloc),
        scans: Items::make(alloc),
        groups: Items::make(alloc),
        pages_used: 0,
        segs_used: 0,
    }
}
