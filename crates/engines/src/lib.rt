//! What a run needs of the session that it steps: the trait, with what each step keeps.
#![tactic(auto)]

mod engine;

pub use engine::Engine;
