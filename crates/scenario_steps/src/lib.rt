//! What lines of scenarios come to, whichever program does the command lines: on volumes in memory, whose calls may fail, lie or stop.
#![tactic(auto)]

mod faults;
mod found;
mod hosts;
mod images;
mod outcomes;
mod program;
mod scenes;

pub use hosts::Watched;
pub use program::Program;
pub use scenes::Scenes;
