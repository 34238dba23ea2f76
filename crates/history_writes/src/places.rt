//! Where leaves and nodes go.
ghost use Rattle.std.specs.Prelude.{◌≡◌, ◌≤◌, ◌<◌, ◌+◌, ◌^◌};
ghost use Rattle.history_model.specs.Items.{roots_most};
ghost use Rattle.history_volumes.specs.Transcribed.{place_of};
ghost use Rattle.history_writes.specs.Places.{leaf_place, node_place};

use ex_base::{Geometry, PageNo};

/// The first page of the unit of the leaf with a number, which is counted from 1.
pub fn leaf_page(geometry: &Geometry, number: u32) -> PageNo
    requires some { 1 ≤ number }
    requires there { number ≤ geometry.now.segs }
    ensures { result.0 ≡ leaf_place geometry.now number }
{
    PageNo(PageNo::CATALOG.0 + geometry.pages + (number - 1) * geometry.seg_len)
}

/// The page of the node with a number, which is counted from 1.
pub fn node_page(number: u32) -> PageNo
    requires { node_place number < 2 ^ 32 }
    ensures { result.0 ≡ node_place number }
{
    PageNo(PageNo::CATALOG.0 + number)
}

/// The page of the tree of a height with a number: that of a leaf, or of a node.
pub(crate) fn tree_page(geometry: &Geometry, height: u8, number: u32) -> PageNo
    requires some { 1 ≤ number }
    requires there { number ≤ roots_most geometry.now.segs geometry.now.pages height }
    ensures { result.0 ≡ place_of (leaf_place geometry.now) node_place height number }
{
    if height == 0 {
        leaf_page(geometry, number)
    } else {
        node_page(number)
    }
}
