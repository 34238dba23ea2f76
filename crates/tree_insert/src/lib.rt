//! Whole trees over any blocks: reading, appending, inserting and replacing, each equal to an edit of the list of bytes that a root spells, and counting
//! leaves. An edit never writes a unit that is in use: it takes new leaves, from left to right, and then new nodes, from the bottom up.
#![tactic(auto)]

mod edit;
mod grow;
mod layout;
mod lengths;
mod overwrite;
mod root_read;

pub use edit::{append, insert};
pub use lengths::leaf_lengths;
pub use overwrite::replace;
pub use root_read::read;
