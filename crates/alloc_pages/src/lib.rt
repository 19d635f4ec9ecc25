//! Allocation pages: which slot says whose a page is, and the first page that is nobody's.
#![tactic(auto)]

mod law;
mod owners;
mod spots;
#[cfg(test)]
mod tests;

pub use law::a_claim_changes_one_owner;
pub use owners::{first_free, owner, owner_bytes};
pub use spots::{AllocSpot, alloc_of, page_of};
