//! That steps which cut, fill and remove snapshots keep the engine safe: laws, no code.
#![tactic(auto)]

mod law;

pub use law::a_cut_keeps_the_engine_safe;
