// Faults where a volume isn't one.
ghost use Rattle.std.specs.Prelude.{ℕ};
ghost use Rattle.ex_base.specs.Ports.{Cause};

use ex_base::{PageNo, PortFault, Seen};

/// A volume that doesn't fit a stream, or a catalog outside of its grammar.
pub(crate) const NO_CATALOG: PortFault = PortFault::Damaged {
    page: PageNo::CATALOG,
    want: Seen::CATALOG,
    got: Seen::NOTHING,
};
