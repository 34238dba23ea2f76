//! The links of a file's versions: where the record of each one's older version lies, and that of its newer one, found by their numbers once all have places.
//!
//! Each older one is looked up once, and what is derived from each is counted on the way. It takes n log n steps and a few words a version.
#![tactic(auto)]

mod derived;
mod linking;
mod numbers;
mod olders;

use ex_base::Place;
pub use linking::link_versions;

/// A version whose record has a place: its number, whether it is frozen, and the number of the version that it is derived from, if any.
#[derive(Clone, Copy, Debug)]
pub struct PlacedVersion {
    pub unique: u64,
    pub frozen: bool,
    pub older: Option<u64>,
    pub place: Place,
}

/// The places that the record of a version names: of its older version, and of its newer one.
#[derive(Clone, Copy, Debug)]
pub struct Links {
    pub older: Option<Place>,
    pub newer: Option<Place>,
}
