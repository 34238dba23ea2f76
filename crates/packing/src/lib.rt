//! Volumes that are packed: the trees of their versions are moved until the units in use of the segment area are the lowest ones. Each version that is moved is
//! committed and written home by itself, and a crash at any moment leaves the table as it is.
#![tactic(auto)]

mod fault;
mod install;
mod laws;
mod moving;
mod objects;
mod record;
mod start;
mod volume;

pub use fault::PackFault;
pub use laws::{a_dense_volume, a_moved_tree, copies_are_away};
pub use moving::move_version;
pub use objects::{LargeVersion, objects_in_file};
pub use start::Start;
pub use volume::{Packed, pack};
