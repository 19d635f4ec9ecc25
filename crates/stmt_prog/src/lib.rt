//! A statement on tables as a program that is fed with pages.
#![tactic(auto)]

mod creating;
mod dropping;
mod feeding;
mod head;
mod law;
mod layout;
mod need;
mod needing;
mod planning;
mod prog;
mod queue;
mod reading;
mod refusal;
mod state;
mod telling;
#[cfg(test)]
mod tests;
mod writing;

pub use law::needs_tell_the_stage;
pub use need::Need;
pub use prog::Prog;
pub use queue::NextEdit;
pub use refusal::Refusal;
