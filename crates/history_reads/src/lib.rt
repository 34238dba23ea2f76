//! How far a stream was read: the counts and tables that its tests need, one step of gathering, and what each whole item does to them. It speaks of no disk.
#![tactic(auto)]

mod heads;
mod laws;
mod namings;
mod progress;
mod steps;

pub use heads::{HeadFault, test_head};
pub use laws::ends_are_items;
pub use progress::{Progress, ReadFault};
pub use steps::{Filled, fill};
