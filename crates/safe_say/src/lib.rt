//! That steps which answer statements keep the engine safe: laws, no code.
#![tactic(auto)]

mod law;

pub use law::{a_commit_keeps_the_engine_safe, a_leave_keeps_the_engine_safe};
