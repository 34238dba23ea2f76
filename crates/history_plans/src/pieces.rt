// The leaves and nodes that walks of trees leave.
ghost use Rattle.std.specs.Prelude.{◌≡◌, ◌↔◌, ◌<◌, suc, [], length, map, slice_get, Some, Contains, IsTrue, IfSome, OnOk};
ghost use Rattle.std.specs.Option.{option_map};
ghost use Rattle.history_volumes.specs.Transcribed.{number_in};
ghost use Rattle.history_volumes.specs.Walks.{added, raised, unit_named};

use crate::PlannedLeaf;
use ex_base::PageNo;
use indexmap::{IndexMap, IndexSet};
use std::alloc::{AllocError, Global};
use std::marker::Model;

/// Leaves and nodes, each once, in the order in which walks left them. Contracts see the leaves with the bytes that are named of them at most.
#[derive(Drop)]
pub(crate) struct Pieces {
    pub units: IndexMap<u32, u32>,
    pub pages: IndexSet<u32>,
}

impl Model for Pieces {
    ghost use Rattle.history_plans.specs.Pieces.{PlannedPieces};

    ghost Value = { PlannedPieces };

    ghost view = { λ p. record { leaves = p.units.entries; nodes = p.pages.keys } };
}

impl Pieces {
    /// There are none.
    pub fn new(alloc: Global) -> Pieces
        ensures { result ≡ record { leaves = []; nodes = [] } }
    {
        Pieces {
            units: IndexMap::new(alloc),
            pages: IndexSet::new(alloc),
        }
    }

    /// So many bytes are named of a leaf.
    pub fn name_leaf(&mut self, unit: PageNo, len: u32) -> Result<(), AllocError>
        ensures leaves { OnOk result (self.new.leaves ≡ raised self.old.leaves unit.0 len) }
        ensures nodes { self.new.nodes ≡ self.old.nodes }
    {
        let most = self.units.get(&unit.0).copied().unwrap_or(0).max(len);
        match self.units.insert(unit.0, most) {
            Ok(_) => Ok(()),
            Err(_) => Err(AllocError),
        }
    }

    /// Whether a node was left.
    pub fn has_node(&self, page: PageNo) -> bool
        ensures { IsTrue result ↔ Contains self.now.nodes page.0 }
    {
        self.pages.contains(&page.0)
    }

    /// A node is left.
    pub fn add_node(&mut self, page: PageNo) -> Result<(), AllocError>
        ensures nodes { OnOk result (self.new.nodes ≡ added self.old.nodes page.0) }
        ensures leaves { self.new.leaves ≡ self.old.leaves }
    {
        match self.pages.insert(page.0) {
            Ok(_) => Ok(()),
            Err(_) => Err(AllocError),
        }
    }

    /// How many leaves there are.
    pub fn leaves(&self) -> usize
        ensures { result ≡ length self.now.leaves }
    {
        self.units.len()
    }

    /// How many nodes there are.
    pub fn nodes(&self) -> usize
        ensures { result ≡ length self.now.nodes }
    {
        self.pages.len()
    }

    /// The leaf at an index.
    pub fn leaf(&self, index: usize) -> PlannedLeaf
        requires { index < length self.now.leaves }
        ensures { slice_get self.now.leaves index ≡ Some (result.unit.0, result.len) }
    {
        match self.units.get_index(index) {
            Some((unit, len)) => PlannedLeaf {
                unit: PageNo(*unit),
                len: *len,
            },
            None => unreachable!(),
        }
    }

    /// The page of the node at an index.
    pub fn node(&self, index: usize) -> PageNo
        requires { index < length self.now.nodes }
        ensures { slice_get self.now.nodes index ≡ Some result.0 }
    {
        match self.pages.get_index(index) {
            Some(page) => PageNo(*page),
            None => unreachable!(),
        }
    }

    /// The index of a leaf.
    pub fn index_of_leaf(&self, unit: PageNo) -> Option<usize>
        ensures index { option_map suc result ≡ number_in (map unit_named self.now.leaves) unit.0 }
        ensures within { IfSome result (λ index. index < length self.now.leaves) }
    {
        self.units.get_index_of(&unit.0)
    }

    /// The index of a node.
    pub fn index_of_node(&self, page: PageNo) -> Option<usize>
        ensures index { option_map suc result ≡ number_in self.now.nodes page.0 }
        ensures within { IfSome result (λ index. index < length self.now.nodes) }
    {
        self.pages.get_index_of(&page.0)
    }
}
