//! Tests of the program's edge: its files and streams, and what it says of how it ended.
#![tactic(auto)]

#[cfg(test)]
mod explanations;
#[cfg(test)]
mod faults;
#[cfg(test)]
mod files;
