//! What contracts say of a running session: the machine that it shows, which no code holds, and the disk under it.
#![tactic(auto)]

mod opener;
mod part;
mod stop;

pub use opener::OpenFault;
pub use part::Part;
pub use stop::Stop;
