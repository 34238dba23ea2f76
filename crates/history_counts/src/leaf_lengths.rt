//! How long the leaves of a stream are, and how long they are named.
ghost use Rattle.std.specs.Prelude.{◌≡◌, ◌↔◌, ◌+◌, ◌<◌, ◌≤◌, ◌^◌, min, length, slice_set, IfOk, IsTrue};
ghost use Rattle.std.specs.List.{AllByRecursion};
ghost use Rattle.ex_base.specs.Sizes.{leaf_bytes};
ghost use Rattle.object_records.specs.Record.{Large};
ghost use Rattle.trees.specs.Node.{RiseFrom};
ghost use Rattle.history_model.specs.Dumps.{namings_by, namings_on};
ghost use Rattle.history_model.specs.Items.{IsChild, IsRootNumber};
ghost use Rattle.history_counts.specs.Lengths.{no_lengths, raised, raised_by};

use ex_base::{Geometry, Root};
use history_items::NodeItem;
use std::alloc::{AllocError, Global};
use std::marker::Model;

/// The length of a naming, as it is noted: of one above the most, that it is.
fn noted(len: u64, most: u32) -> u32
    requires { most + 1 < 2 ^ 32 }
    ensures { result ≡ min len (most + 1) }
{
    if len > u64::from(most) {
        most + 1
    } else {
        len as u32
    }
}

/// Of each leaf of a stream its length, 0 until it came, and its longest naming so far, 0 while there is none. Two numbers for each leaf are taken once.
#[derive(Drop)]
pub struct LeafLengths {
    lengths: Vec<u32>,
    longest: Vec<u32>,
    /// The bytes of a leaf that is full.
    most: u32,
}

impl Model for LeafLengths {
    ghost use Rattle.std.specs.Prelude.{◌+◌, ◌<◌, ◌^◌};
    ghost use Rattle.history_counts.specs.Lengths.{Lengths};

    ghost Value = { Lengths };

    ghost view = { λ v. record {
      lengths = v.lengths.items;
      longest = v.longest.items;
      most = v.most;
    } };

    ghost invariant = { λ v. v.most + 1 < 2 ^ 32 };
}

impl LeafLengths {
    /// Of so many leaves, none of which came or is named.
    pub fn make(alloc: Global, geometry: &Geometry, leaves: u32) -> Result<LeafLengths, AllocError>
        ensures { IfOk result (λ made. made ≡ no_lengths (leaf_bytes geometry.now) leaves) }
    {
        Ok(LeafLengths {
            lengths: vec![in alloc; 0u32; leaves as usize]?,
            longest: vec![in alloc; 0u32; leaves as usize]?,
            most: geometry.leaf_bytes(),
        })
    }

    /// Notes how long the leaf at an index is.
    pub fn came(&mut self, index: u32, len: u32)
        requires { index < length self.old.lengths }
        ensures { self.new ≡ record self.old { lengths = slice_set self.old.lengths index len } }
    {
        self.lengths[index as usize] = len;
    }

    /// Notes a naming of a leaf by its number.
    fn raise(&mut self, number: u32, len: u64)
        requires some { 1 ≤ number }
        requires there { number ≤ length self.old.longest }
        ensures { self.new ≡ record self.old {
          longest = raised self.old.most self.old.longest number len;
        } }
    {
        let len = noted(len, self.most);
        let at = (number - 1) as usize;
        self.longest[at] = self.longest[at].max(len);
    }

    /// Notes how a node names its leaves, if it is of level 1.
    pub fn name_in_node(&mut self, node: &NodeItem<'_>)
        requires rising { RiseFrom 0 node.now.pairs }
        requires children { node.now.level ≡ 1
            → AllByRecursion (IsChild (length self.old.longest)) node.now.pairs }
        ensures { self.new ≡ record self.old {
          longest = raised_by self.old.most self.old.longest (namings_on node.now);
        } }
    {
        if node.level() != 1 {
            return;
        }
        let mut last = 0;
        for i in 0..node.len() {
            let pair = node.pair(i);
            self.raise(pair.page.0, pair.count - last);
            last = pair.count;
        }
    }

    /// Notes how a root names its leaf, if it is of height 0.
    pub fn name_in_root(&mut self, root: &Root)
        requires { root.now.height ≡ 0 → IsRootNumber (length self.old.longest) root.now.page }
        ensures { self.new ≡ record self.old {
          longest = raised_by self.old.most self.old.longest (namings_by (Large root.now));
        } }
    {
        if root.height == 0 {
            match root.page {
                Some(number) => self.raise(number.0, root.size),
                None => {}
            }
        }
    }

    /// Whether each leaf is as long as its longest naming.
    pub fn are_named(&self) -> bool
        ensures { IsTrue result ↔ (self.now.lengths ≡ self.now.longest) }
    {
        self.lengths == self.longest
    }
}
