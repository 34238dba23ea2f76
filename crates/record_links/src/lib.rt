//! The links of a file's records, tested by what an opening keeps of them, and which object each record belongs to.
//!
//! Each older place is looked up once. What is derived from each record is counted on the way, so that newer places need no search. It takes n log n
//! steps and a few words a record.
#![tactic(auto)]

mod derived;
mod labels;
mod laws;
mod olders;
mod places;

use ex_base::Place;
pub use labels::label_records;
pub use laws::{labels_alike, labels_at_places};
use object_records::Head;

/// What is kept of a record: where it stands, and its head.
#[derive(Clone, Copy, Debug)]
pub struct Linked {
    pub place: Place,
    pub head: Head,
}
