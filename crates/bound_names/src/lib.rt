//! The names that a session binds to versions.
#![tactic(auto)]

mod names;

pub use names::NameMap;
