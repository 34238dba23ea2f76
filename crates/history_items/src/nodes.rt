//! The item of a node: its level, the number of its pairs, and of each the count and the child's number.
ghost use Rattle.std.specs.Prelude.{◌≡◌, ◌+◌, ◌*◌, ◌<◌, ◌≤◌, ◌^◌, ◌++◌, ◌&&◌, nat_le, nat_lt, length, drop, slice_get, Some};
ghost use Rattle.ex_base.specs.Fields.{number_at};
ghost use Rattle.ex_base.specs.Bytes.{written};
ghost use Rattle.trees.specs.Node.{Node, pair_bytes, read_pairs};
ghost use Rattle.trees.specs.declared.width.Width.TheVariants.{Wide};
ghost use Rattle.history_model.specs.Stream.{node_item};
ghost use Rattle.history_items.specs.Reads.{node_read, are_good_pairs};
ghost use Rattle.history_items.specs.Needs.{need_of_node};

use crate::bytes::put_u8;
use ex_base::{Geometry, PageNo, get_u16, get_u32, get_u64, put_u16, put_u32, put_u64};
use std::marker::Model;
use trees::Pair;

// Where the fields of a node's item stand.
const LEVEL: usize = 0;

const LEN: usize = 1;

const PAIRS: usize = 3;

/// The bytes of a pair, and of its count.
const PAIR_LEN: usize = 12;

const COUNT_LEN: usize = 8;

/// The item of a node, seen as the node, with the number of each child in the place of its page.
#[derive(Drop)]
pub struct NodeItem<'a> {
    bytes: &'a [u8],
}

impl<'a> Model for NodeItem<'a> {
    ghost Value = { Node };

    ghost view = { λ v. node_read v.bytes.now };

    ghost invariant = { λ v. (3 ≤ length v.bytes.now)
        × (3 + 12 * number_at 2 v.bytes.now 1 ≤ length v.bytes.now) };
}

impl<'a> NodeItem<'a> {
    /// The item that these bytes are.
    pub fn over(bytes: &'a [u8]) -> NodeItem<'a>
        requires head { 3 ≤ length bytes.now }
        requires pairs { 3 + 12 * number_at 2 bytes.now 1 ≤ length bytes.now }
        ensures { result ≡ node_read bytes.now }
    {
        NodeItem { bytes }
    }

    /// The level: 1 over leaves.
    pub fn level(&self) -> u8
        ensures { result ≡ self.now.level }
    {
        self.bytes[LEVEL]
    }

    /// The number of pairs.
    pub fn len(&self) -> u32
        ensures { result ≡ length self.now.pairs }
    {
        u32::from(get_u16(self.bytes, LEN))
    }

    /// The pair at an index.
    pub fn pair(&self, index: u32) -> Pair
        requires { index < length self.now.pairs }
        ensures { slice_get self.now.pairs index ≡ Some result }
    {
        let at = PAIRS + PAIR_LEN * index as usize;
        Pair {
            count: get_u64(self.bytes, at),
            page: PageNo(get_u32(self.bytes, at + COUNT_LEN)),
        }
    }
}

/// Whether a count is above the last one, and a child has a number from 1 up to the most.
fn is_pair(last: u64, count: u64, child: u32, most: u32) -> bool
    ensures { result ≡ (nat_lt last count && nat_le 1 child && nat_le child most) }
{
    last < count && 1 <= child && child <= most
}

/// Whether the counts of n pairs rise from above 0, and each child has a number from 1 up to the most.
fn are_pairs(bytes: &[u8], n: usize, most: u32) -> bool
    requires { 12 * n ≤ length bytes.now }
    ensures { result ≡ are_good_pairs most 0 (read_pairs Wide n bytes.now) }
{
    let mut last = 0;
    for i in 0..n {
        let count = get_u64(bytes, PAIR_LEN * i);
        let child = get_u32(bytes, PAIR_LEN * i + COUNT_LEN);
        if !is_pair(last, count, child, most) {
            return false;
        }
        last = count;
    }
    true
}

/// How many bytes the item of a node needs that begins with these, behind so many leaves and nodes. None where no such item does.
pub fn node_need(bytes: &[u8], geometry: &Geometry, leaves: u32, nodes: u32) -> Option<usize>
    ensures { result ≡ need_of_node geometry.now leaves nodes bytes.now }
{
    if bytes.len() < PAIRS {
        return Some(PAIRS);
    }
    let level = bytes[LEVEL];
    let len = get_u16(bytes, LEN);
    if level < 1 || len < 1 || u32::from(len) > 2 * geometry.fan + 1 {
        return None;
    }
    let whole = PAIRS + PAIR_LEN * len as usize;
    if bytes.len() < whole {
        return Some(whole);
    }
    let most = if level == 1 { leaves } else { nodes };
    if bytes.len() == whole && are_pairs(&bytes[PAIRS..], len as usize, most) {
        Some(whole)
    } else {
        None
    }
}

/// Writes a pair.
fn write_pair(pair: &Pair, out: &mut [u8], at: usize)
    requires { at + 12 ≤ length out.old }
    ensures { out.new ≡ written out.old at (pair_bytes Wide pair.now) }
{
    put_u64(out, at, pair.count);
    put_u32(out, at + COUNT_LEN, pair.page.0);
}

/// Writes the item of a node of these pairs, each child by its number, over the first bytes, and answers how many they are.
pub fn write_node(level: u8, pairs: &[Pair], out: &mut [u8]) -> usize
    requires few { length pairs.now < 2 ^ 16 }
    requires room { 3 + 12 * length pairs.now ≤ length out.old }
    ensures written { out.new ≡ node_item (record { level = level; pairs = pairs.now })
        ++ drop result out.old }
    ensures len { result ≡ 3 + 12 * length pairs.now }
{
    put_u8(out, LEVEL, level);
    put_u16(out, LEN, pairs.len() as u16);
    let mut at = PAIRS;
    for pair in pairs {
        write_pair(pair, out, at);
        at += PAIR_LEN;
    }
    at
}
