//! The calls of the library on a volume that is open over an image which its caller lends: a step on a line, or on a command that a caller made. A session
//! of any kind does them.
#![tactic(auto)]

mod forms;
mod lent;
mod lines;
mod volume;

pub use lines::{Unanswered, step_line};
pub use volume::{LentVolume, NotDone};
