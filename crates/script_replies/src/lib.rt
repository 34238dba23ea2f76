//! The text of what is answered to a line.
#![tactic(auto)]

mod digits;
mod replies;
mod text;

pub use replies::{push_reply, reply_text};
pub use text::Text;
