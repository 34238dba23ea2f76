//! Versions of objects as lists: how versions that are derived from one another form objects, each a tree of versions, and what the updates make of
//! them. It is all law: what it defines stands in specs/, and what it proves are the contracts of functions that do nothing.
#![tactic(auto)]

mod laws;
mod version;

pub use laws::{
    listing_of_an_object, objects_of_versions, order_of_numbers, removals_split_none,
    updates_elsewhere, updates_keep_frozen, updates_keep_links, updates_keep_others, updates_show,
    versions_of_objects, worked_rows,
};
pub use version::{Object, Version};
