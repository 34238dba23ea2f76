//! Which units of a volume are in use, and how many references each has. A unit is a page of the page area, or a segment of the segment area.
#![tactic(auto)]

mod area_units;
mod filled;
mod history;
mod search;
mod units;

pub use filled::Filled;
pub use units::Units;
