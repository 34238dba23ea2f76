//! Trees without high units, over any volume of blocks. A unit is high where it isn't one of the lowest `dense` ones of the segment area. A tree is moved by
//! copies of its high leaves in low units, and of the nodes that lead to them; what was copied for one tree of an object serves the others.
#![tactic(auto)]

mod high;
mod leaves;
mod moves;
mod nodes;
mod trees_moved;
mod walk;

pub use high::high_nodes;
pub use moves::Moves;
pub use trees_moved::move_tree;
