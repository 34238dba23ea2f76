//! Tables as plain lists: looking things up in them, and building what each update makes of one anew. It is slow and plain on purpose: what the
//! volume does on pages is held against it.
#![tactic(auto)]

mod change;
mod data;
mod edit;
mod files;
mod find;
mod form;
mod names;
mod scans;
mod tree;

pub use data::given_count;
pub use edit::{Edit, index_of};
pub use files::{
    with_bytes, with_derived, with_file, with_frozen, with_object, without_file, without_version,
};
pub use find::{Key, find_file, find_object, find_version, is_at, key_at, same_bytes};
pub use names::{
    bound_named, current_oids, file_names, is_bound, is_group, kept, listed_oids, unmarked,
    with_bound,
};
pub use scans::{is_scan, next_bytes, part, scan_named, scans_moved, scans_without};
pub use tree::{count_derived, has_one};
