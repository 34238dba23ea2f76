//! The index of a file, written level by level over its pages: each level's entries are spread evenly over the least number of pages that hold them.
#![tactic(auto)]

mod laws;
mod shares;

pub use laws::{a_page_is_its_own_index, an_even_index_is_whole};
pub use shares::{pages_over, write_share};
