//! A volume in memory behind both ports, for measurements of the layers that stand on a port.
#![tactic(auto)]

mod bytes;
mod putting;
mod volume;

pub use putting::put_at;
pub use volume::MemoryVolume;
