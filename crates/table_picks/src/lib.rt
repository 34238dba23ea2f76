//! The slow reference of the table machine with what a volume decides: whether it may decide so, and the step then.
#![tactic(auto)]

mod picks;
mod start;

pub use picks::step_decided;
pub use start::empty_volume;
