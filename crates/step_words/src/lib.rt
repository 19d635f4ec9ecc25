//! The words of small steps: where a session stands, how far its statement is, and what is still to be written.
#![tactic(auto)]

mod law;
mod point;
mod stage;

pub use law::what_comes_moves_by_one;
pub use point::Point;
pub use stage::{DbKind, Stage};
