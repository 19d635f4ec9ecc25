//! Records are taken back, the last one first: from the source's pages, or from a snapshot's.
#![tactic(auto)]

mod backing;
mod healing;
mod law;
mod refusal;
#[cfg(test)]
mod tests;

pub use backing::back;
pub use healing::heal;
pub use law::{a_lost_heal_keeps_views, the_last_record_is_one};
pub use refusal::HealRefusal;
