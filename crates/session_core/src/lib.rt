//! A session on a volume: what it holds, what lines read of it, and how its transactions begin, are performed, committed and given up.
#![tactic(auto)]

mod session;
mod updates;

pub use session::{Named, Relation, Session, Tally, view_of};
pub use updates::{Copying, ObjectUpdate};
