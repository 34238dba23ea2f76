//! What the program says of how it ended: the statuses, their texts, and the grammar of its words.
#![tactic(auto)]

mod explanation;
mod laws;
mod misfit;
mod seen;
mod shown;
mod status;
mod usage;

pub use explanation::{Explanation, StatusLine};
pub use laws::usage_tells_the_grammar;
pub use status::Status;
pub use usage::Usage;
