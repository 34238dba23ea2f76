//! Fronts of streams of a history: which items may come next behind the whole ones that came, that bytes are read in one way, and which of them begin no dump.
#![tactic(auto)]

mod laws;
mod turns;

pub use laws::{
    bytes_are_read_to_one_front, dumps_lead_to_their_end, refused_bytes_are_not_read,
    refused_bytes_begin_no_dump,
};
pub use turns::Turn;
