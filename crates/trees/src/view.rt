//! A node as it is read, without a copy.
ghost use Rattle.std.specs.Prelude.{◌≡◌, ℕ, ◌+◌, ◌-◌, ◌*◌, ◌<◌, ◌≤◌, List, length, slice_get, IfSome, IfNone};
ghost use Rattle.trees.specs.declared.Pair.{Pair};
ghost use Rattle.trees.specs.Reads.{IsViewed};
ghost use Rattle.trees.specs.Node.{Node, node_on, pair_len, width_on, pairs_on, PairsOf, total_of, counts_of, start_of, IsFirst, RiseFrom};

use crate::reads::is_node;
use crate::width::Width;
use crate::{LEN_AT, LEVEL_AT, PAIRS_AT, Pair};
use ex_base::{PageNo, get_u16, get_u32};
use std::marker::Model;

/// A page that is a node, seen as its level and its pairs.
#[derive(Drop)]
pub struct NodeView<'a> {
    page: &'a [u8],
}

impl<'a> Model for NodeView<'a> {
    ghost Value = { Node };

    ghost view = { λ v. node_on v.page.now };

    ghost invariant = { λ v. (1 ≤ length (pairs_on v.page.now)) × (8 + pair_len (width_on v.page.now) * length (pairs_on v.page.now) ≤ length v.page.now) × RiseFrom 0 (pairs_on v.page.now) };
}

/// The pairs of a node. How wide they are is looked at once for all of them.
#[derive(Drop)]
pub struct Pairs<'a> {
    page: &'a [u8],
    width: Width,
}

impl<'a> Model for Pairs<'a> {
    ghost Value = { List Pair };

    ghost view = { λ v. pairs_on v.page.now };

    ghost invariant = { λ v. (8 + pair_len (width_on v.page.now) * length (pairs_on v.page.now) ≤ length v.page.now) × (v.width ≡ width_on v.page.now) };
}

impl<'a> Pairs<'a> {
    /// The pair at an index.
    pub fn at(&self, index: u32) -> Pair
        requires { index < length self.now }
        ensures { slice_get self.now index ≡ Some result }
    {
        let at = PAIRS_AT + self.width.pair_len() * index as usize;
        Pair {
            count: self.width.count(self.page, at),
            page: PageNo(get_u32(self.page, at + self.width.count_len())),
        }
    }
}

impl<'a> NodeView<'a> {
    /// The view of a page, exactly where it is a node of at most 2 * fan + 1 pairs.
    pub fn of(page: &'a [u8], fan: u32) -> Option<NodeView<'a>>
        requires { fan ≤ 340 }
        ensures found { IfSome result (λ node. PairsOf fan page.now node.level node.pairs) }
        ensures view { IfSome result (λ node. node ≡ node_on page.now) }
        ensures none { IfNone result ((level : ℕ) (pairs : List Pair)
            → PairsOf fan page.now level pairs → ⊥) }
    {
        if !is_node(page, fan) {
            return None;
        }
        Some(NodeView { page })
    }

    /// The view of a page that is known to be a node.
    pub(crate) fn over(page: &'a [u8]) -> NodeView<'a>
        requires { IsViewed page.now }
        ensures { result ≡ node_on page.now }
    {
        NodeView { page }
    }

    /// The level: 1 over leaves.
    pub fn level(&self) -> u8
        ensures { result ≡ self.now.level }
    {
        self.page[LEVEL_AT]
    }

    /// The number of pairs.
    pub fn len(&self) -> u32
        ensures len { result ≡ length self.now.pairs }
        ensures some { 1 ≤ result }
    {
        u32::from(get_u16(self.page, LEN_AT))
    }

    /// The pairs.
    pub fn pairs(&self) -> Pairs<'a>
        ensures { result ≡ self.now.pairs }
    {
        Pairs {
            page: self.page,
            width: Width::of(self.page),
        }
    }

    /// The bytes that the whole node spells: its last count.
    pub fn total(&self) -> u64
        ensures { result ≡ total_of self.now.pairs }
    {
        self.pairs().at(self.len() - 1).count
    }

    /// Where the bytes of the child at an index begin.
    pub fn start(&self, index: u32) -> u64
        requires { index < length self.now.pairs }
        ensures { result ≡ start_of self.now.pairs index }
    {
        if index == 0 {
            return 0;
        }
        self.pairs().at(index - 1).count
    }

    /// The first child whose count is greater than the position, by bisection.
    fn first_above(&self, pos: u64) -> u32
        requires { pos < total_of self.now.pairs }
        ensures { IsFirst (λ count. pos < count) (counts_of self.now.pairs) result }
    {
        // A use of the field gives the proof that the counts rise.
        let _ = &self.page;
        let pairs = self.pairs();
        let mut low = 0;
        let mut high = self.len() - 1;
        while low < high {
            let middle = low + (high - low) / 2;
            if pos < pairs.at(middle).count {
                high = middle;
            } else {
                low = middle + 1;
            }
        }
        low
    }

    /// The first child whose count is greater than the position, and the position inside it.
    pub fn child_for_read(&self, pos: u64) -> (u32, u64)
        requires { pos < total_of self.now.pairs }
        ensures first { IsFirst (λ count. pos < count) (counts_of self.now.pairs) result.0 }
        ensures inside { result.1 ≡ pos - start_of self.now.pairs result.0 }
    {
        let index = self.first_above(pos);
        (index, pos - self.start(index))
    }
}
