//! The units of a volume on a disk: tree pages are read through a group of frames, and a unit is written once, when it is taken.
#![tactic(auto)]

mod counts;
mod store;
mod write;

pub use counts::count_names;
pub use store::Store;
