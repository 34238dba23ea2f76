//! The slow reference of the table machine: each step taken over plain lists, as its definition says. Tests hold the volume's answers against it.
#![tactic(auto)]

mod contents;
mod edits;
mod files;
mod need;
mod objects;
mod plain;
mod refuse;
mod scans;
mod session;
mod update;

pub use need::{EDIT_CHARGE, FILE_CHARGE, FILE_PAGES, RECORD_CHARGE, RECORD_PAGES, edit_need};
pub use plain::step_plain;
pub use refuse::shown;
