//! A host in memory, for tests: its calls can be made to fail, to lie or to stop, and it gives each image that a crash may leave.
#![tactic(auto)]

mod host;
mod laws;

pub use host::{Call, Choice, MemoryHost};
pub use laws::equal_choices_are_one_choice;
