//! The items of a stream, one by one: its head, leaves, nodes, the heads of files, and versions; how each is written, how many bytes an item needs of which some
//! came, and what a whole one says.
#![tactic(auto)]

mod bytes;
mod files;
mod gathered;
mod head;
mod laws;
mod leaves;
mod nodes;
mod versions;

pub use files::{FileHead, file_need, read_file_head, write_file_head};
pub use gathered::Gathered;
pub use head::{HEAD_LEN, Head, Lack, Misfit};
pub use laws::{items_are_read_back, needs_hold_at_each_step, needs_of_items};
pub use leaves::{LEAF_HEAD, leaf_need, write_leaf_len};
pub use nodes::{NodeItem, node_need, write_node};
pub use versions::{VersionItem, read_version, version_need, write_version};
