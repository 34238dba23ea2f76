//! The generated script: its lines, made one after the other from a seed and a count, as a talk that counts and hashes the replies and sends nothing.
#![tactic(auto)]

mod draws;
mod edit;
mod generator;
mod line;
mod stage;
mod talk;
mod tally;
mod turn;

pub use generator::Generator;
pub use talk::Generated;
