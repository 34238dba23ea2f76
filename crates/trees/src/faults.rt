//! Faults where what is read isn't what names it.
ghost use Rattle.std.specs.Prelude.{◌≡◌};
ghost use Rattle.ex_base.specs.declared.faults.PortFault.TheVariants.{Damaged};
ghost use Rattle.ex_base.specs.Seen.{node_seen, leaf_seen, nothing_seen};

use ex_base::{PageNo, PortFault, Seen};

/// A page that isn't the node that its parent asks.
pub fn no_node(page: PageNo, level: u8, total: u64) -> PortFault
    ensures { result ≡ Damaged page (node_seen level total) nothing_seen }
{
    PortFault::Damaged {
        page,
        want: Seen::node(level, total),
        got: Seen::NOTHING,
    }
}

/// A page that names no leaf.
pub fn no_leaf(page: PageNo) -> PortFault
    ensures { result ≡ Damaged page leaf_seen nothing_seen }
{
    PortFault::Damaged {
        page,
        want: Seen::LEAF,
        got: Seen::NOTHING,
    }
}
