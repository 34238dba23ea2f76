//! All files of a volume, walked once at its opening: whether each index, each page and each record is what the format says, which pages the files have,
//! which records stand on them, and which of them are versions of one object.
//!
//! A fault of an index anywhere wins over one of a page, and that over one of a record: first all indexes are walked, then all pages, where a bad record
//! is only remembered. Each page is read once.
#![tactic(auto)]

mod files;
mod indexes;
mod named;
mod numbers;
mod objects;
mod records;
mod walk;

use ex_base::{PageNo, Place, Root};
pub use numbers::has_good_numbers;
pub use walk::walk_files;

/// A record that was found: where it stands, its unique number, the object that it is a version of, and the root of a large one.
#[derive(Clone, Copy, Debug, PartialEq, Eq)]
pub struct Found {
    pub place: Place,
    pub unique: u64,
    /// Two records are versions of one object where this is the same.
    pub object: usize,
    /// None of a small record.
    pub root: Option<Root>,
}

/// The files of a volume.
#[derive(Drop)]
pub struct WalkedFiles {
    /// All pages of the files, file by file: those with records in rising order, then those of the index.
    pub pages: Vec<PageNo>,
    /// All records, in order of file and place.
    pub records: Vec<Found>,
}
