//! What words of digits and of data give: numbers and bytes.
#![tactic(auto)]

mod data;
mod digits;
mod given;
mod parts;

pub use data::data_bytes;
pub use digits::{is_hex, number_of};
pub use given::GivenBytes;
pub use parts::cut;
