//! What the names of scenarios stand for, what is asked of the program, and how what it sent is told.
#![tactic(auto)]

mod asked;
mod sent;
mod values;

pub use asked::{Asked, asked_of, words_of};
pub use sent::{NOTHING, Telling, push_sent};
pub use values::{Trouble, Value, Values};
