//! What a line of scenarios says: its words, one by one, or the first one that doesn't fit.
#![tactic(auto)]

mod options;
mod words;

pub use options::{Options, options_of};
pub use words::{Command, Head, Mode, Place, Wrong, command_of, halves, mode_of};
