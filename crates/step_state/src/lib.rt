//! The state of the engine of small steps, its invariant, and what each step has to leave: laws, no code.
#![tactic(auto)]

mod law;

pub use law::steps_keep_the_engine_safe;
