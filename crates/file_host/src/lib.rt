//! The host of the program: a volume file, the standard input and the standard output.
#![tactic(auto)]

mod faults;
mod host;
mod lock;
mod naming;
mod opening;
mod streams;

pub use faults::Faults;
pub use host::FileHost;
pub use lock::LockFile;
pub use opening::{StoredFile, VolumeFile};
