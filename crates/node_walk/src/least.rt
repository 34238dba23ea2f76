// What a tree has at least.
ghost use Rattle.std.specs.Prelude.{◌≡◌, ◌↔◌, IsTrue};
ghost use Rattle.node_walk.specs.Walk.{below_least, IsAsked};

use crate::nodes::Met;
use ex_base::Geometry;

/// The least that the root of a tree has: so many pairs where it is a node, and so many bytes where it is a leaf.
#[derive(Clone, Copy)]
pub(crate) struct Least {
    pub pairs: u32,
    pub bytes: u32,
}

/// The least of a root that no node names.
pub(crate) const ROOT_LEAST: Least = Least { pairs: 2, bytes: 1 };

/// The least of a tree below a node.
pub(crate) fn least_below(geometry: &Geometry) -> Least
    ensures { result ≡ below_least geometry.now }
{
    Least {
        pairs: geometry.fan,
        bytes: geometry.leaf_bytes() / 2,
    }
}

/// Whether a unit is what the node that names it asks: a leaf has its least bytes to all of them, a node has these bytes and its least pairs.
pub(crate) fn is_asked(geometry: &Geometry, least: Least, met: Met, size: u64) -> bool
    ensures { IsTrue result ↔ IsAsked geometry.now least met size }
{
    if met.level == 0 {
        return least.bytes as u64 <= size && size <= geometry.leaf_bytes() as u64;
    }
    met.total == size && least.pairs <= met.pairs
}
