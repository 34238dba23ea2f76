//! Versions of objects in files, over any volume. A version is a record in a file: of a small one with its bytes, of a large one with the root of their
//! tree. A small version becomes large where its record would no longer fit its page; its place and so its OID stay. A large one never becomes small.
//!
//! An edit of a tree writes no unit that is in use. The record, the only thing that is overwritten, names the new tree once that stands. After a fault the
//! working state is not to be used again.
#![tactic(auto)]

mod creating;
mod digesting;
mod editing;
mod finding;
mod growing;
mod listing;
mod recorded;

pub use creating::create;
pub use digesting::{digest_at, room_for};
pub use editing::{Edit, Edited, apply};
pub use finding::{Found, find, read_at, read_small, stood, told_of};
pub use growing::large_need;
pub use listing::{first_rank, head_at, head_of, objects, rank};
pub use recorded::{check, no_record, oid_at, place_of, root_in};
