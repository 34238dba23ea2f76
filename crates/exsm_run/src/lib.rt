//! The command line of exsm: its words, the statuses that it ends with, and `run`, the call that carries the promises of the program.
#![tactic(auto)]

mod check;
mod dump;
mod format;
mod generate;
mod load;
mod opening;
mod pack;
mod program;
mod script;
mod session;
mod status;
mod system;
mod top_call;

pub use command_words::{NamedFile, Wish, file_of, wish_of};
pub use format::format as make_volume;
pub use program::{run_program, run_words};
pub use session::VolumeSession;
pub use status::Status;
pub use system::{RunEnding, System};
pub use top_call::run;
