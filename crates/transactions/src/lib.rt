//! The lines of a script, stepped on a session: what each asks, why it is refused, and what it is answered.
#![tactic(auto)]

mod asked;
mod changes;
mod commands;
mod copying;
mod creation;
mod edits;
mod groups;
mod lineage;
mod making;
mod needs;
mod pieces;
mod reads;
mod refuse;
mod removal;
mod scan_lines;
mod summary;
mod tell;
mod updates;

pub use commands::step;
pub use summary::{Summary, summarize};
