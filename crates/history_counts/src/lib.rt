//! What a reader of a stream keeps of the items that came: how long leaves are and are named, how many pages the files need, which versions the file at hand has,
//! and the name of the last file.
#![tactic(auto)]

mod file_numbers;
mod last_name;
mod laws;
mod leaf_lengths;
mod page_needs;

pub use file_numbers::FileNumbers;
pub use last_name::LastName;
pub use laws::{lengths_are_named, pages_are_counted};
pub use leaf_lengths::LeafLengths;
pub use page_needs::{PageNeeds, record_len};
