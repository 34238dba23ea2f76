//! The walk over all trees of a volume, as its opening tests them: the nodes, the balance, and which units are in use.
#![tactic(auto)]

mod all_trees;
mod faults;
mod least;
mod nodes;
mod notes;
mod tree;
mod walk;

pub use all_trees::walk_trees;
use ex_base::Root;

/// The root of a tree, and the object that it is a version of.
#[derive(Clone, Copy, Debug, PartialEq, Eq)]
pub struct ObjectRoot {
    pub object: usize,
    pub root: Root,
}
