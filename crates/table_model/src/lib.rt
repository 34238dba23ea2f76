//! The table machine: what a volume is to its users, and what each command means, over lists of bytes alone. No page, tree or unit is named here
//! but by its number, so that all that a session answers can be held against it.
#![tactic(auto)]

mod command;
mod laws;
mod limits;
mod machine;
mod reply;
mod table;

pub use command::{Command, Given, Subject};
pub use laws::{a_frozen_version_stays, rules_hold_at_the_start, steps_keep_the_rules};
pub use limits::{DATA_MOST, FRAMES_MOST, GROUPS_MOST, SCANS_MOST};
pub use machine::{
    BoundName, BoundNames, GroupRow, GroupRows, Lengths, Machine, NoteList, Pick, ScanRow, ScanRows,
};
pub use reply::{Names, OidList, Refusal, Reply};
pub use table::{Bytes, Name, Objects, Table, TableFile, TableFiles};
pub use version_lists::{Object, Version};
