//! The words of the command line: what they ask for, and on which volume.
#![tactic(auto)]

mod commands;
mod numbers;
mod parse;
mod request;
mod wish;

pub use commands::CommandWord;
pub use request::{
    COUNT_MOST, FAN_LEAST, NamedFile, PAGE_SIZE, Request, file_of, request_of, wish_of,
};
pub use wish::Wish;
