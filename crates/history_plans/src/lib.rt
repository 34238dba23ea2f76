//! What is to be written of a volume as a stream: its leaves and nodes in order, each once, with their lengths, and the numbers that the stream gives them.
#![tactic(auto)]

mod catalog;
mod faults;
mod file_pages;
mod files;
mod nodes;
mod pieces;
mod plan;
mod records;
mod walk;

use ex_base::PageNo;
pub use plan::Plan;
pub use records::records_in_order;

/// A leaf of a stream.
#[derive(Clone, Copy, Debug, PartialEq, Eq)]
pub struct PlannedLeaf {
    /// The unit that it is.
    pub unit: PageNo,
    /// How many of the unit's bytes are named at most.
    pub len: u32,
}
