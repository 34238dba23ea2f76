//! What the program asks of the outside: a disk that may fail and crash, a source and a sink.
#![tactic(auto)]

mod host;

pub use host::{Disk, Failed, Host, Sink, Source, World, send_all, write_settled};
