//! What a plan of a tree promises, and that drafted pages which show where the rows go give such a plan.
#![tactic(auto)]

mod law;

pub use law::drawn_trees_are_promised;
