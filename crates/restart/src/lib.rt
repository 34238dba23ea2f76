//! The opening of a volume: it is read and tested, and what its log holds is brought home.
#![tactic(auto)]

mod catalog;
mod content;
mod geometry;
mod groups;
mod opening;
mod overlay;
mod walking;

pub use catalog::read_catalog;
pub use content::Reached;
pub use opening::open_volume;
pub use walking::walk_volume;
