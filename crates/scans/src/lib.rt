//! Scans: the bytes of an object as it was opened, given piece by piece, over any blocks. A piece is lent out of one block that the scan keeps, and ends
//! with the next call on the scan. This is refused, since `first` is still in use when the scan is borrowed again:
//!
//! ```text
//! let first = scan.next(blocks, alloc, 1)?;
//! let second = scan.next(blocks, alloc, 1)?;
//! let both = first.len() + second.len();
//! ```
//!
//! So is a second `fetch` of a group of frames while a page that it lent is in use.
#![tactic(auto)]

mod scan;

pub use scan::Scan;
