//! A run of a source: a volume is opened, and a session steps on the lines of a talk that takes them from the source, whatever the session, the volume
//! and the talk are. The talk of a script is here.
#![tactic(auto)]

mod script;
mod sender;
mod source;

pub use script::Script;
pub use sender::say;
pub use source::{SourceTalk, run_source};
pub use talks::Stopped;
