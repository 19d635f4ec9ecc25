//! Open changes on pages: what was committed, what each session sees, and that a session's change is its own alone.
#![tactic(auto)]

mod law;

pub use law::{a_change_is_one_sessions_own, taking_back_is_one_sessions_own};
