//! What a table statement does to one table that is held in memory: its refusals, its changes and its reply.
#![tactic(auto)]

mod changing;
mod effect;
mod inserting;
mod keys;
mod refusal;
mod rows;
mod selecting;
mod shape;
mod shapes;
mod statements;
mod storing;
#[cfg(test)]
mod tests;
mod totals;

pub use effect::{Effect, Verdict};
pub use shape::shape_of;
pub use statements::{effect_of, verdict_of};
