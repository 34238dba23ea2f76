//! The whole history of a volume as one stream, and when a stream is a dump of a table.
#![tactic(auto)]

mod laws;

pub use laws::{
    a_dump_fits_any_areas, a_dump_is_short, one_history_of_a_stream, one_table_but_for_places,
    worked_rows,
};
