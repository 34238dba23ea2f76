//! Whether a walk reached each leaf and each node of a stream.
ghost use Rattle.std.specs.Prelude.{◌≡◌, ◌↔◌, ◌≤◌, ◌<◌, IsTrue, length};
ghost use Rattle.ex_base.specs.Area.{area_end};
ghost use Rattle.page_alloc.specs.UnitSet.{used_at};
ghost use Rattle.volume_port.specs.Logged.{is_held};
ghost use Rattle.history_load.specs.Reached.{AreLeavesUsed, AreNodesInTrees};

use ex_base::Geometry;
use history_writes::{leaf_page, node_page};
use page_alloc::Units;
use volume_port::LoggedPages;

/// Whether the units of so many leaves are used.
pub(crate) fn are_leaves_used(geometry: &Geometry, units: &Units, leaves: u32) -> bool
    requires geometry { units.now.geometry ≡ geometry.now }
    requires few { leaves ≤ geometry.now.segs }
    ensures { IsTrue result ↔ AreLeavesUsed geometry.now (used_at units.now) leaves }
{
    for number in 1..leaves + 1 {
        if !units.is_used(leaf_page(geometry, number)) {
            return false;
        }
    }
    true
}

/// Whether the pages of so many nodes are used, and none is a logged page.
pub(crate) fn are_nodes_in_trees(
    geometry: &Geometry,
    units: &Units,
    pages: &LoggedPages,
    nodes: u32,
) -> bool
    requires geometry { units.now.geometry ≡ geometry.now }
    requires held { length pages.now ≡ area_end geometry.now }
    requires few { nodes < geometry.now.pages }
    ensures { IsTrue result ↔ AreNodesInTrees (used_at units.now) (is_held pages.now) nodes }
{
    for number in 1..nodes + 1 {
        let page = node_page(number);
        if !units.is_used(page) || pages.holds(page) {
            return false;
        }
    }
    true
}
