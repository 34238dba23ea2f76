//! Deletes bytes of whole trees over any blocks: the bytes left are those of slicing, in a balanced tree. A delete never writes a unit that is in use: it
//! takes new leaves, from left to right, and then new nodes, from the bottom up. A subtree that lies wholly inside the deleted range isn't read.
#![tactic(auto)]

mod cut;
mod leaves;
mod nodes;
mod rows;
mod tree;

pub use tree::delete;
