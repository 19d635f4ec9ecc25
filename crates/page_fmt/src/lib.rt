//! Pages of slots: what is a page, its slots, and edits of one slot in place.
#![tactic(auto)]

mod checking;
mod editing;
mod edits;
mod law;
mod moving;
mod numbers;
mod reading;
mod seen;
mod splicing;
#[cfg(test)]
mod tests;

pub use checking::{BadPage, check};
pub use edits::{NoRoom, clear_slot, edit, put_slot};
pub use law::slots_tell_pages;
pub use reading::{slot, slots};
pub use seen::Seen;
