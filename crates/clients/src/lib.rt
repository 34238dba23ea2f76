//! The scripts of up to 16 clients, stepped on one session by a schedule: whose a line is, which names it keeps, when it waits, and the schedule as a
//! talk.
#![tactic(auto)]

mod clients;
mod laws;
mod own_names;
mod schedule;
mod turns;

pub use clients::Clients;
pub use laws::{a_line_is_one_turn, names_are_kept_apart, the_owner_has_the_transaction};
pub use schedule::Schedule;
pub use turns::{CLIENTS_MOST, Routed};
