//! The tree of an object's versions, over any volume: a frozen version is put between a version and the one that it is derived from, a current one is
//! derived from a frozen one, and versions are taken out. Each version names the one that it is derived from, its older one, and a frozen version names the
//! only one that is derived from it, its newer one, where there is just one.
//!
//! A new version shares the tree of the one that it copies. After a fault the working state is not to be used again.
#![tactic(auto)]

mod all_versions;
mod branching;
mod copied;
mod descent;
mod dropping;
mod freezing;
mod heads;
mod lineage;
mod links;
mod lookup;
mod neighbours;
mod taking_out;

pub use all_versions::{collect, versions};
pub use branching::derive;
pub use copied::Copied;
pub use descent::{derived, file_of};
pub use dropping::drop_version;
pub use freezing::freeze;
pub use lineage::Member;
pub use neighbours::{newer, older};
pub use taking_out::take_out;
