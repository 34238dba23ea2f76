//! The open scans of a session, and the groups of frames that were made besides `main`: looked up by name, read on, and taken out.
#![tactic(auto)]

mod groups;
mod opened;

pub use groups::{MAIN_NAME, add_group, group_index, group_of};
pub use opened::{OpenScan, OpenScans};
