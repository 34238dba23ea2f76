//! The stream of a volume's history, piece by piece, and its sending.
#![tactic(auto)]

mod dumper;
mod fault;
mod file;
mod items;
mod leaf;
mod node;
mod position;
mod sending;
mod version;

pub use dumper::Dumper;
pub use fault::DumpFault;
pub use sending::send_dump;
