//! Pages drafted in memory before any page changes, and the edits that make them of what was read.
#![tactic(auto)]

mod edits;
mod law;
mod page;
#[cfg(test)]
mod tests;

pub use edits::edits_of;
pub use law::drafts_are_made;
pub use page::{Cell, Page};
