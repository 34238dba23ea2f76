//! How the program ends.

pub use command_line::Status;
