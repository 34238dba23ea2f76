//! The lines of a script, one after the other, out of a source that is read in large pieces.
#![tactic(auto)]

mod lines;
mod shown;
mod window;

pub use lines::Lines;
pub use shown::{LineFault, LineRef};
pub use window::LINE_MOST;
