//! The committed side of a volume: commits and checkpoints, over the log, the logged pages, the frames and a disk.
#![tactic(auto)]

mod build;
mod home;
mod keep;

pub use home::checkpoint;
pub use keep::{CommitFault, commit};
