//! The records of a file, in order of place: one pass over any volume, in which each page of the file and of its index is read and tested once.
#![tactic(auto)]

mod catalog;
mod indexes;
mod listing;
mod pages;

use ex_base::{Place, Root};
pub use listing::list_records;
use object_records::Head;

/// What is listed of a record.
#[derive(Clone, Copy, Debug)]
pub struct Listed {
    /// Where it stands.
    pub place: Place,
    pub head: Head,
    /// The root of the tree of a large version, none of a small one.
    pub root: Option<Root>,
    /// How many bytes its body has.
    pub len: usize,
}
