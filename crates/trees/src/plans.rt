//! How an insert or an append lays its bytes out over leaves. Leaves hold bytes alone; how many each holds is fixed by these plans. No call takes
//! memory.
ghost use Rattle.std.specs.Prelude.{◌≡◌, ◌+◌, ◌*◌, ◌<◌, ◌≤◌, slice_index, unwrap_or, false, [], ◌∷◌};
ghost use Rattle.ex_base.specs.Even.{least_parts};
ghost use Rattle.ex_base.specs.Sizes.{object_most};
ghost use Rattle.trees.specs.Layout.{layout_of, spread, left_or_spread, right_or_spread, insert_layout, append_layout, in_place, filled};
ghost use Rattle.trees.specs.Plans.{IsPlan};

use crate::split::even_part;

/// What stands in the place of a leaf: the neighbours that it takes in, and the leaves that hold the total.
#[derive(Clone, Copy, Debug, PartialEq, Eq)]
pub struct Plan {
    /// Whether the neighbour to the left gives way too.
    pub takes_left: bool,
    /// Whether the neighbour to the right gives way too.
    pub takes_right: bool,
    /// How many leaves come in their place.
    pub leaves: u32,
    /// The bytes of all of them.
    pub total: u64,
    /// Whether all but the last two are full, and these share the rest evenly. Else all of them share the total evenly, longer leaves first.
    pub tail: bool,
}

/// The least number of leaves that hold the bytes.
#[tactic(auto, unfolding(ex_base::specs::Even::least_parts))]
fn leaves_for(total: u64, cap: u32) -> u32
    requires cap { 512 ≤ cap }
    requires total { total ≤ object_most }
    ensures least { result ≡ least_parts cap total }
    ensures holds { total ≤ result * cap }
    ensures some { 1 ≤ total → 1 ≤ result }
{
    ((total + (cap as u64 - 1)) / cap as u64) as u32
}

/// As few leaves as hold the bytes, in the leaf's own place.
fn spread_plan(total: u64, cap: u32) -> Plan
    requires cap { 512 ≤ cap }
    requires total { total ≤ object_most }
    requires over { cap < total }
    ensures layout { layout_of cap result ≡ spread cap total }
    ensures usable { IsPlan cap result }
{
    Plan {
        takes_left: false,
        takes_right: false,
        leaves: leaves_for(total, cap),
        total,
        tail: false,
    }
}

/// Two leaves in the place of the leaf and its left neighbour, where they hold the bytes.
fn left_plan(neighbour: u32, total: u64, cap: u32) -> Plan
    requires cap { 512 ≤ cap }
    requires total { total ≤ object_most }
    requires over { cap < total }
    ensures layout { layout_of cap result ≡ left_or_spread cap neighbour total }
    ensures usable { IsPlan cap result }
{
    if neighbour as u64 + total <= 2 * cap as u64 {
        Plan {
            takes_left: true,
            takes_right: false,
            leaves: 2,
            total: neighbour as u64 + total,
            tail: false,
        }
    } else {
        spread_plan(total, cap)
    }
}

/// Two leaves in the place of the leaf and its right neighbour, where they hold the bytes.
fn right_plan(neighbour: u32, total: u64, cap: u32) -> Plan
    requires cap { 512 ≤ cap }
    requires total { total ≤ object_most }
    requires over { cap < total }
    ensures layout { layout_of cap result ≡ right_or_spread cap neighbour total }
    ensures usable { IsPlan cap result }
{
    if neighbour as u64 + total <= 2 * cap as u64 {
        Plan {
            takes_left: false,
            takes_right: true,
            leaves: 2,
            total: neighbour as u64 + total,
            tail: false,
        }
    } else {
        spread_plan(total, cap)
    }
}

/// One leaf that holds the bytes.
fn one_plan(total: u64, cap: u32) -> Plan
    requires { total ≤ cap }
    ensures layout { layout_of cap result ≡ in_place (total ∷ []) }
    ensures usable { IsPlan cap result }
{
    Plan {
        takes_left: false,
        takes_right: false,
        leaves: 1,
        total,
        tail: false,
    }
}

/// Full leaves and two that share the rest, in the leaf's own place or with its left neighbour's.
fn filled_plan(takes_left: bool, total: u64, cap: u32) -> Plan
    requires cap { 512 ≤ cap }
    requires total { total ≤ object_most }
    requires over { cap < total }
    ensures layout { layout_of cap result
        ≡ record { takes_left = takes_left; takes_right = false; lengths = filled cap total } }
    ensures usable { IsPlan cap result }
{
    Plan {
        takes_left,
        takes_right: false,
        leaves: leaves_for(total, cap),
        total,
        tail: true,
    }
}

/// How n bytes go into a leaf of some bytes that has these neighbours under its parent. A leaf holds at most `cap` bytes. Where it can't take them,
/// it shares them with the neighbour that has fewer bytes, if two leaves hold all; else they go over as few leaves as hold them.
#[tactic(auto, unfolding(crate::specs::Layout::insert_layout))]
pub fn plan_insert(left: Option<u32>, leaf: u32, right: Option<u32>, n: u64, cap: u32) -> Plan
    requires cap { 512 ≤ cap }
    requires total { leaf + n ≤ object_most }
    ensures layout { layout_of cap result ≡ insert_layout cap left leaf right n }
    ensures usable { IsPlan cap result }
{
    let total = leaf as u64 + n;
    if total <= cap as u64 {
        return one_plan(total, cap);
    }
    match (left, right) {
        (None, None) => spread_plan(total, cap),
        (Some(l), None) => left_plan(l, total, cap),
        (None, Some(r)) => right_plan(r, total, cap),
        (Some(l), Some(r)) => {
            if l <= r {
                left_plan(l, total, cap)
            } else {
                right_plan(r, total, cap)
            }
        }
    }
}

/// How n bytes go behind the last leaf, whose left neighbour under its parent is given. Where the leaf can't take them, a left neighbour that isn't
/// full takes part; all leaves but the last two become full.
#[tactic(auto, unfolding(crate::specs::Layout::append_layout))]
pub fn plan_append(left: Option<u32>, leaf: u32, n: u64, cap: u32) -> Plan
    requires cap { 512 ≤ cap }
    requires total { leaf + n + unwrap_or left 0 ≤ object_most }
    ensures layout { layout_of cap result ≡ append_layout cap left leaf n }
    ensures usable { IsPlan cap result }
{
    let total = leaf as u64 + n;
    if total <= cap as u64 {
        return one_plan(total, cap);
    }
    match left {
        None => filled_plan(false, total, cap),
        Some(l) => {
            if l < cap {
                filled_plan(true, l as u64 + total, cap)
            } else {
                filled_plan(false, total, cap)
            }
        }
    }
}

impl Plan {
    /// The bytes of the leaf at an index, for the `cap` that the plan was made for.
    pub fn length(&self, index: u32, cap: u32) -> u32
        requires cap { 1 ≤ cap }
        requires plan { IsPlan cap self.now }
        requires index { index < self.now.leaves }
        ensures { result ≡ slice_index (layout_of cap self.now).lengths index }
    {
        if !self.tail {
            return even_part(self.leaves, self.total, index, cap);
        }
        let full = self.leaves - 2;
        if index < full {
            return cap;
        }
        even_part(2, self.total - full as u64 * cap as u64, index - full, cap)
    }
}
