//! What a line of a script says.
#![tactic(auto)]

mod commands;
mod forms;
mod parser;
mod rows;
mod values;
mod words;

pub use forms::name;
pub use parser::parse;
