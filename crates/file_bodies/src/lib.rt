//! Files: lists of bodies in order of place, over any port of logged pages. A file has pages with bodies in slots, an index that names them, and an
//! entry in the catalog that names the index.
//!
//! Each call promises what it does to the list of a file that is whole. A page that isn't what names it is told as damage; where the catalog, the index
//! and the pages of the file are whole, no call tells damage. After a fault the working state is not to be used again.
#![tactic(auto)]

mod catalog;
mod changing;
mod page;
pub mod placing;
mod reading;
mod removing;

pub use changing::change_body;
pub use page::body_on;
pub use placing::{Room, a_lowered_room_stays_true, place_body};
pub use reading::{bodies_stand_in_order, body_at, body_there, next_place};
pub use removing::remove_from_file;
