//! Groups of frames over a disk. A frame holds the bytes of one page; a group has a fixed number of frames and one rule for which of them gives
//! way.
#![tactic(auto)]

mod group;
mod groups;
mod policy;

pub use group::{FetchFault, Group};
pub use groups::Groups;
pub use policy::Policy;
