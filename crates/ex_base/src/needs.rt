//! The units that an edit of a tree may take at most.
ghost use Rattle.std.specs.Prelude.{◌≡◌, ◌≤◌, ◌^◌};
ghost use Rattle.ex_base.specs.Sizes.{object_most};
ghost use Rattle.ex_base.specs.Needs.{growth_need, replace_need, delete_need};

use crate::geometry::Geometry;
use crate::names::Area;

/// The leaves that an insert touches beside those that its bytes fill.
const GROWN_LEAVES: u64 = 5;

/// The leaves that a replace touches beside those of its bytes.
const REPLACED_LEAVES: u64 = 3;

/// The leaves that a delete makes.
const DELETED_LEAVES: u64 = 4;

/// The most units of an area that an insert or append of so many bytes takes, in a tree of a height.
pub fn growth_need(geometry: &Geometry, count: u64, height: u8, area: Area) -> u64
    requires { count ≤ object_most }
    ensures is { result ≡ growth_need geometry.now count height area }
    ensures few { result ≤ 2 ^ 40 }
{
    let leaves = count / u64::from(geometry.leaf_bytes()) + GROWN_LEAVES;
    match area {
        Area::Segment => leaves,
        Area::Page => leaves / u64::from(geometry.fan) + 4 * (u64::from(height) + 3),
    }
}

/// The most units of an area that a replace of so many bytes takes, in a tree of a height.
pub fn replace_need(geometry: &Geometry, count: u64, height: u8, area: Area) -> u64
    requires { count ≤ object_most }
    ensures is { result ≡ replace_need geometry.now count height area }
    ensures few { result ≤ 2 ^ 40 }
{
    let leaves = 2 * count / u64::from(geometry.leaf_bytes()) + REPLACED_LEAVES;
    match area {
        Area::Segment => leaves,
        Area::Page => leaves / (u64::from(geometry.fan) - 1) + 4 * (u64::from(height) + 1),
    }
}

/// The most units of an area that a delete takes, in a tree of a height.
pub fn delete_need(height: u8, area: Area) -> u64
    ensures is { result ≡ delete_need height area }
    ensures few { result ≤ 2 ^ 40 }
{
    match area {
        Area::Segment => DELETED_LEAVES,
        Area::Page => 8 * (u64::from(height) + 2),
    }
}
