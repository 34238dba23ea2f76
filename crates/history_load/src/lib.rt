//! A load: a stream is read piece by piece, and what it says is written to the disk of an empty volume, item by item. At its end what was written is walked over and
//! tested, and its catalog becomes the volume's by one record.
#![tactic(auto)]

mod emptiness;
mod ending;
mod faults;
mod files_at_hand;
mod laws;
mod loaded;
mod loader;
mod reached;
mod staying;
mod stream;
mod whole;

pub use emptiness::is_empty;
pub use ending::{FinishFault, finish};
pub use faults::LoadFault;
pub use laws::{
    a_dump_holds_where_it_was_written, a_history_that_stands_is_of_its_table,
    the_trees_of_a_dump_are_whole, what_was_written_loads,
};
pub use loaded::{Loaded, commit_loaded};
pub use loader::Loader;
pub use staying::an_empty_volume_stays;
pub use stream::{Totals, load_stream};
