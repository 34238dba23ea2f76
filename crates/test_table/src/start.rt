//! The machine before the first line of the input.

ghost use Rattle.table_model.specs.Machines.{IsMachine};

use ex_base::Geometry;
use std::alloc::Global;
use table_model::Machine;
use table_picks::empty_volume;

/// The machine that stands before the first line of the input.
pub(crate) fn first_machine(alloc: Global) -> Machine
    ensures { IsMachine result }
{
    let geometry = Geometry {
        page_size: 512,
        pages: 64,
        segs: 16,
        seg_len: 1,
        fan: 2,
    };
    empty_volume(alloc, geometry)
}
