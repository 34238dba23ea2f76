//! A run of lines, whoever hands them in and takes the replies: what it means for any session and any talk, and the one loop over lines.
#![tactic(auto)]

mod ending;
mod lines;
mod opener;
mod run;
mod stopped;
mod talk;

pub use opener::Opener;
pub use run::run_talk;
pub use stopped::Stopped;
pub use talk::{Asked, Talk};
