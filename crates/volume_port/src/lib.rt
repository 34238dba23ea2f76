//! The port of a session: tree pages and logged pages over a disk. A session's commands on objects reach the volume through it alone, so what it
//! promises of the committed pages holds of each of them.
#![tactic(auto)]

mod blocks;
mod giving_port;
mod giving_up;
mod ground;
mod law;
mod logged;
mod pages;
mod port;
mod reading_port;
mod room;
mod state;

pub use giving_port::GivingPort;
pub use giving_up::{MAIN, own_root, release_root, release_roots};
pub use law::committed_pages_stay;
pub use logged::LoggedPages;
pub use port::VolumePort;
pub use reading_port::ReadingPort;
pub use room::PageRoom;
pub use state::VolumeState;
