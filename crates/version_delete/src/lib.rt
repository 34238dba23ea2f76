//! Trees that are given up: an owner of a tree's root is taken away, and the units that have none left are given back.
#![tactic(auto)]

mod owners;
mod steps;

pub use owners::release_tree;
pub use steps::Steps;
