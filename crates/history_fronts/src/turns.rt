//! Which item comes next, and how many bytes it needs.
ghost use Rattle.std.specs.Prelude.{◌≡◌};
ghost use Rattle.history_items.specs.Heads.{stream_head};

use ex_base::Geometry;
use history_items::{Head, file_need, leaf_need, node_need, version_need};

/// The kind of the item that comes next in a stream.
#[derive(Clone, Copy, Debug, PartialEq, Eq)]
pub enum Turn {
    Leaf,
    Node,
    Version,
    File,
    /// Nothing may follow.
    End,
}

impl Turn {
    ghost use Rattle.history_fronts.specs.Fronts.{turn_by};
    ghost use Rattle.history_fronts.specs.Readings.{need_at, need_of_end};

    /// What comes behind so many leaves, nodes and files, where so many versions of the last file are missing.
    pub fn behind(head: &Head, leaves: u32, nodes: u32, files: u32, missing: u32) -> Turn
        ensures { result ≡ turn_by (stream_head head.now) leaves nodes files missing }
    {
        if leaves < head.leaves {
            Turn::Leaf
        } else if nodes < head.nodes {
            Turn::Node
        } else if missing > 0 {
            Turn::Version
        } else if files < head.files {
            Turn::File
        } else {
            Turn::End
        }
    }

    /// How many bytes the item needs that begins with these, behind so many leaves and nodes. None where no such item does.
    pub fn need(self, bytes: &[u8], geometry: &Geometry, leaves: u32, nodes: u32) -> Option<usize>
        ensures { result ≡ need_at geometry.now leaves nodes self bytes.now }
    {
        match self {
            Turn::Leaf => leaf_need(bytes, geometry),
            Turn::Node => node_need(bytes, geometry, leaves, nodes),
            Turn::Version => version_need(bytes, geometry, leaves, nodes),
            Turn::File => file_need(bytes),
            Turn::End => Turn::end_need(bytes),
        }
    }

    /// How many bytes are needed behind the end: one that never comes, and none may be there.
    fn end_need(bytes: &[u8]) -> Option<usize>
        ensures { result ≡ need_of_end bytes.now }
    {
        if bytes.is_empty() { Some(1) } else { None }
    }
}
